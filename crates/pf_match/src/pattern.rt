//! Patterns, seen by contracts as their texts.

ghost use Rattle.std.specs.Prelude.{◌≡◌, true, IfErr, IfOk, option_map, string_bytes};
ghost use Rattle.std.specs.Arc.{arc_value};
ghost use Rattle.pf_match.specs.Kept.{IsPatternFault};
ghost use Rattle.pf_match.specs.Meaning.{anchored, expand, is_pattern, matches};

use crate::error::PatternError;
use crate::expander::PatternExpander;
use crate::matcher::PatternMatcher;
use regex::{Regex, Template};
use std::alloc::{AllocError, Global};
use std::marker::Model;
use std::sync::Arc;

/// A regular expression that has to match a whole value, in which `.` is any character, a line feed too. Threads may
/// share it.
#[derive(Drop)]
pub struct Pattern {
    text: String,
    regex: Arc<Regex>,
}

impl Model for Pattern {
    ghost use Rattle.std.specs.Arc.{arc_value};
    ghost use Rattle.std.specs.Prelude.{List, ℕ, string_bytes};
    ghost use Rattle.regex.specs.Strings.{regex_pattern, regex_names};
    ghost use Rattle.pf_match.specs.Kept.{IsReadAs};

    ghost Value = { List ℕ };

    ghost view = { λ p. string_bytes p.text };

    ghost invariant = { λ p. IsReadAs (string_bytes p.text) (regex_pattern (arc_value p.regex)) (regex_names (arc_value p.regex)) };
}

fn anchored(alloc: Global, text: &str) -> Result<String, AllocError>
    ensures { IfOk result (λ s. string_bytes s ≡ anchored text.now) }
{
    let mut source = String::from_str(alloc, "^(?s:")?;
    source.push_str(text)?;
    source.push_str(")$")?;
    Ok(source)
}

fn shared(alloc: Global, regex: Regex) -> Result<Arc<Regex>, AllocError>
    ensures { IfOk result (λ r. arc_value r ≡ regex) }
{
    Ok(Arc::new(alloc, regex)?)
}

impl Pattern {
    /// Reads `^(?s:text)$`, as Prometheus does, with the syntax of the crate `regex`. A text that closes the group itself,
    /// as `a)|(?:b`, is read so too.
    pub fn build(alloc: Global, text: &str) -> Result<Pattern, PatternError>
        ensures built { IfOk result (λ p. p ≡ text.now) }
        ensures read { IfOk result (λ p. is_pattern text.now ≡ true) }
        ensures refused { IfErr result (IsPatternFault text.now) }
    {
        let source = anchored(alloc, text)?;
        let engine = Regex::new(alloc, source.as_str())?;
        let regex = shared(alloc, engine)?;
        let text = String::from_str(alloc, text)?;
        Ok(Pattern { text, regex })
    }

    /// The same pattern again, which is not compiled anew.
    pub fn share(&self) -> Result<Pattern, AllocError>
        ensures value { IfOk result (λ p. p ≡ self.now) }
        ensures read { is_pattern self.now ≡ true }
    {
        let regex = Arc::try_clone(&self.regex)?;
        let text = String::from_str(*self.text.allocator(), self.text.as_str())?;
        Ok(Pattern { text, regex })
    }

    /// The text that it was built of.
    pub fn as_str(&self) -> &str
        ensures value { result.now ≡ self.now }
        ensures read { is_pattern self.now ≡ true }
    {
        self.text.as_str()
    }

    /// What asks it of many values.
    pub fn matcher(&self) -> Result<PatternMatcher<'_>, AllocError>
        ensures { IfOk result (λ m. m ≡ self.now) }
    {
        let alloc = *self.text.allocator();
        let engine = self.regex.matcher(alloc)?;
        Ok(PatternMatcher {
            text: self.text.as_str(),
            matcher: Box::new(alloc, engine)?,
        })
    }

    /// What writes a template at many values. `$1` and `${1}` stand for what a group matched, `$name` and `${name}` for
    /// the first group of that name, `$$` for `$`. A name is the longest one that stands there. A group that took no part,
    /// or that there is none of, is nothing.
    pub fn expander<'a>(&'a self, template: &'a str) -> Result<PatternExpander<'a>, AllocError>
        ensures { IfOk result (λ e. e ≡ (self.now, template.now)) }
    {
        let alloc = *self.text.allocator();
        let pieces = Template::new(alloc, self.regex.capture_names(), template)?;
        let matcher = self.regex.matcher(alloc)?;
        Ok(PatternExpander {
            alloc,
            text: self.text.as_str(),
            template,
            pieces,
            matcher,
        })
    }

    /// Whether it matches the whole value. For many values take a `matcher`.
    pub fn matches(&self, text: &str) -> Result<bool, AllocError>
        ensures { IfOk result (λ b. b ≡ matches self.now text.now) }
    {
        let mut matcher = self.matcher()?;
        Ok(matcher.matches(text))
    }

    /// The template with the groups put in where it matches the whole value, and `None` exactly where it doesn't. For many
    /// values take an `expander`, which tells how a template is read.
    pub fn expand(&self, text: &str, template: &str) -> Result<Option<String>, AllocError>
        ensures { IfOk result (λ found. option_map string_bytes found ≡ expand self.now text.now template.now) }
    {
        let mut expander = self.expander(template)?;
        expander.expand(text)
    }
}
