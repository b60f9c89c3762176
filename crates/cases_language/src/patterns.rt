//! Rows of patterns. Above them stand `pattern TEXT`, and above rows of expansions `template TEXT` too.

use cases_rows::output::Output;
use cases_rows::setting::Setting;
use pf_match::{Pattern, PatternError};

/// The pattern of the part above the row, or a note of why there is none.
fn pattern_of(out: &mut Output, setting: &Setting) -> Option<Pattern> {
    let text = setting.words(out, "pattern");
    match Pattern::build(out.alloc(), text) {
        Ok(pattern) => Some(pattern),
        Err(PatternError::BadPattern | PatternError::TooBig) => {
            out.text("bad pattern");
            None
        }
        Err(PatternError::OutOfMemory) => {
            out.lose();
            None
        }
    }
}

/// `VALUE => true`, whether the pattern matches the whole value, or `bad pattern`.
pub fn matches(out: &mut Output, setting: &Setting, value: &str) {
    if let Some(pattern) = &pattern_of(out, setting) {
        push_matches(out, pattern, value);
    }
}

/// `VALUE => TEXT`, what the template stands for at the value, or `none`, or `bad pattern`.
pub fn expand(out: &mut Output, setting: &Setting, value: &str) {
    let template = setting.words(out, "template");
    if let Some(pattern) = &pattern_of(out, setting) {
        push_expanded(out, pattern, value, template);
    }
}

fn push_matches(out: &mut Output, pattern: &Pattern, value: &str) {
    match pattern.matches(value) {
        Ok(matches) => out.show(matches),
        Err(_) => out.lose(),
    }
}

fn push_expanded(out: &mut Output, pattern: &Pattern, value: &str, template: &str) {
    match &pattern.expand(value, template) {
        Ok(Some(text)) => out.text(text.as_str()),
        Ok(None) => out.text("none"),
        Err(_) => out.lose(),
    }
}
