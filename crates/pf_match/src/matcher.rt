//! What asks one pattern of many values.

ghost use Rattle.std.specs.Prelude.{◌≡◌};
ghost use Rattle.pf_match.specs.Meaning.{matches};

use regex::Matcher;
use std::marker::Model;

/// What asks a pattern of values, one after another, seen by contracts as the pattern's text. Its caches grow as it is used,
/// so it belongs to one thread.
#[derive(Drop)]
pub struct PatternMatcher<'p> {
    pub(crate) text: &'p str,
    pub(crate) matcher: Box<Matcher<'p>>,
}

impl<'p> Model for PatternMatcher<'p> {
    ghost use Rattle.std.specs.Prelude.{List, ℕ};
    ghost use Rattle.regex.specs.Strings.{matcher_pattern, matcher_names};
    ghost use Rattle.pf_match.specs.Kept.{IsReadAs};

    ghost Value = { List ℕ };

    ghost view = { λ m. m.text.now };

    ghost invariant = { λ m. IsReadAs m.text.now (matcher_pattern m.matcher.value) (matcher_names m.matcher.value) };
}

impl<'p> PatternMatcher<'p> {
    /// Whether the pattern matches the whole value. Want of memory makes it slower, and is never answered.
    pub fn matches(&mut self, text: &str) -> bool
        ensures found { result ≡ matches self.old text.now }
        ensures same { self.new ≡ self.old }
    {
        self.matcher.is_match(text)
    }
}
