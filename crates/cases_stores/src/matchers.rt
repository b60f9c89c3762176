//! Rows of matchers.

use cases_rows::base::labels_of;
use cases_rows::output::Output;
use cases_rows::setting::Setting;
use pf_base::Labels;
use pf_model::{Expr, MatchError, Matchers};
use pf_parse::parse;

/// The matchers of a selector, or why it has none; or a note that it is no selector.
fn built(out: &mut Output, selector: &str) -> Option<Result<Matchers, MatchError>> {
    match &parse(out.alloc(), selector) {
        Ok(Expr::Select { selector, .. }) => Some(Matchers::build(selector)),
        _ => {
            out.refuse();
            None
        }
    }
}

/// The matchers of a selector, or a note that it has none.
pub fn matchers_of(out: &mut Output, selector: &str) -> Option<Matchers> {
    let built = built(out, selector)?;
    out.or_refuse(built)
}

fn push_accepts(out: &mut Output, matchers: &Matchers, labels: &Labels) {
    match matchers.accepts(labels) {
        Ok(is_accepted) => out.show(is_accepted),
        Err(_) => out.lose(),
    }
}

/// Appends whether labels are accepted, or why there are no matchers.
fn push_answer(out: &mut Output, built: &Result<Matchers, MatchError>, labels: &Labels) {
    match built {
        Ok(matchers) => push_accepts(out, matchers, labels),
        Err(MatchError::BadPattern) => out.text("bad pattern"),
        Err(MatchError::EmptySelector) => out.text("empty selector"),
        Err(MatchError::OutOfMemory) => out.lose(),
    }
}

fn answer(out: &mut Output, selector: &str, labels: &Labels) {
    if let Some(built) = &built(out, selector) {
        push_answer(out, built, labels);
    }
}

/// Whether the given selector accepts the labels.
pub fn accepts(out: &mut Output, setting: &Setting, given: &str) {
    let list = setting.words(out, "labels");
    if let Some(labels) = &labels_of(out, list) {
        answer(out, given, labels);
    }
}
