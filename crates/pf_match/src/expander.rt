//! What writes one template at many values.

ghost use Rattle.std.specs.Prelude.{◌≡◌, IfOk, option_map, string_bytes};
ghost use Rattle.pf_match.specs.Meaning.{expand};

use regex::{Matcher, Template};
use std::alloc::{AllocError, Global};
use std::marker::Model;

/// What writes a template at values, one after another, seen by contracts as the pattern's text and the template's. Its
/// caches grow as it is used, so it belongs to one thread.
#[derive(Drop)]
pub struct PatternExpander<'p> {
    pub(crate) alloc: Global,
    pub(crate) text: &'p str,
    pub(crate) template: &'p str,
    pub(crate) pieces: Template,
    pub(crate) matcher: Matcher<'p>,
}

impl<'p> Model for PatternExpander<'p> {
    ghost use Rattle.std.specs.Prelude.{List, ℕ};
    ghost use Rattle.regex.specs.Strings.{matcher_pattern, matcher_names, IsReadFrom};
    ghost use Rattle.pf_match.specs.Kept.{IsReadAs};

    ghost Value = { List ℕ × List ℕ };

    ghost view = { λ e. (e.text.now, e.template.now) };

    ghost invariant = { λ e. IsReadAs e.text.now (matcher_pattern e.matcher) (matcher_names e.matcher)
        × IsReadFrom (matcher_names e.matcher) e.template.now e.pieces };
}

impl<'p> PatternExpander<'p> {
    /// The template with the groups put in where the pattern matches the whole value, and `None` exactly where it doesn't.
    pub fn expand(&mut self, text: &str) -> Result<Option<String>, AllocError>
        ensures value { IfOk result (λ found. option_map string_bytes found ≡ expand self.old.0 text.now self.old.1) }
        ensures same { self.new ≡ self.old }
    {
        match self.matcher.captures(text) {
            Some(groups) => {
                let mut out = String::new(self.alloc);
                groups.expand(self.alloc, &self.pieces, &mut out)?;
                Ok(Some(out))
            }
            None => Ok(None),
        }
    }
}
