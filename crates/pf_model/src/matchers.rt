//! Matchers that series are selected by.

ghost use Rattle.std.specs.Prelude.{◌≡◌, ◌<◌, ℕ, IfErr, IfOk, List, length, slice_index_or, true, false};
ghost use Rattle.pf_base.specs.LabelSets.{value_of};
ghost use Rattle.pf_match.specs.Tables.{Agrees, IsFate, Stays};
ghost use Rattle.pf_model.specs.declared.expr.Matcher.{Matcher};
ghost use Rattle.pf_model.specs.Patterns.{is_alternative, is_plain_pattern, is_plain_byte};
ghost use Rattle.pf_model.specs.Selection.{accepts, accepts_empty, all_compared, all_meant, any_refused, has_meaning, holds, is_compared, is_refused_matcher};
ghost use Rattle.pf_model.specs.Tests.{IsMatchFate, IsTest, MayRefuse};

use crate::expr::{MatchSign, Matcher, Selector};
use pf_base::{Labels, OutOfMemory};
use pf_match::{Pattern, PatternError, PatternMatcher, Patterns};
use std::alloc::Global;
use std::marker::Model;

/// Why a selector gives no matchers.
#[derive(Clone, Copy)]
pub enum MatchError {
    /// A pattern of `=~` or `!~` that is not plain is refused by `regex` for another cause than memory.
    BadPattern,
    /// Every matcher accepts the empty text.
    EmptySelector,
    OutOfMemory,
}

impl From<OutOfMemory> for MatchError {
    ghost use Rattle.pf_model.specs.declared.matchers.MatchError.{MatchError};

    ghost from_gives = { λ _ e. e ≡ MatchError.OutOfMemory };

    fn from(_error: OutOfMemory) -> MatchError {
        MatchError::OutOfMemory
    }
}

impl From<PatternError> for MatchError {
    ghost use Rattle.pf_model.specs.Tests.{match_error};

    ghost from_gives = { λ error e. e ≡ match_error error };

    fn from(error: PatternError) -> MatchError {
        match error {
            PatternError::BadPattern | PatternError::TooBig => MatchError::BadPattern,
            PatternError::OutOfMemory => MatchError::OutOfMemory,
        }
    }
}

impl MatchSign {
    /// Whether a matcher's text is compared: it is no pattern, or a plain one.
    fn is_compared(self, text: &str) -> bool
        ensures { result ≡ is_compared self text.now }
    {
        match self {
            MatchSign::Equal | MatchSign::NotEqual => true,
            MatchSign::Like | MatchSign::NotLike => is_plain(text),
        }
    }

    /// Whether a label's value passes, by a text that is compared.
    fn holds(self, value: &str, text: &str) -> bool
        requires { is_compared self text.now ≡ true }
        ensures { result ≡ holds self value.now text.now }
    {
        match self {
            MatchSign::Equal => value == text,
            MatchSign::NotEqual => value != text,
            MatchSign::Like => is_alternative(text, value),
            MatchSign::NotLike => !is_alternative(text, value),
        }
    }
}

/// Whether a pattern is alternatives of ASCII letters, digits, `_`, `-`, `:` and `/` with `|` between them.
pub fn is_plain(pattern: &str) -> bool
    ensures { result ≡ is_plain_pattern pattern.now }
{
    pattern
        .as_bytes()
        .iter()
        .all(|b| is_plain_byte(*b) || *b == b'|')
}

fn is_plain_byte(byte: u8) -> bool
    ensures { result ≡ is_plain_byte byte }
{
    byte.is_ascii_alphanumeric() || matches!(byte, b'_' | b'-' | b':' | b'/')
}

/// Whether a value is one of a plain pattern's alternatives.
fn is_alternative(pattern: &str, value: &str) -> bool
    ensures { result ≡ is_alternative pattern.now value.now }
{
    pattern.split('|').any(|alternative| value == alternative)
}

impl Selector {
    /// Whether no pattern is compiled for it: those that it has are plain.
    pub fn is_compared(&self) -> bool
        ensures { result ≡ all_compared self.now }
    {
        self.matchers
            .iter()
            .all(|m| m.sign.is_compared(m.text.as_str()))
    }
}

/// A matcher, with its pattern where that isn't plain.
#[derive(Drop)]
struct Test {
    matcher: Matcher,
    pattern: Option<Pattern>,
}

impl Model for Test {
    ghost use Rattle.pf_model.specs.declared.expr.Matcher.{Matcher};
    ghost use Rattle.pf_model.specs.Tests.{IsTest};

    ghost Value = { Matcher };

    ghost view = { λ t. t.matcher };

    ghost invariant = { λ t. IsTest t.matcher t.pattern };
}

/// A matcher's pattern, where it isn't plain.
fn pattern_of(patterns: &mut Patterns, matcher: &Matcher) -> Result<Option<Pattern>, PatternError>
    ensures built { IfOk result (IsTest matcher.now) }
    ensures refused { IfErr result (MayRefuse (is_compared matcher.now.sign matcher.now.text)) }
    ensures fate { (refused : List (List ℕ)) → Agrees patterns.new refused → IsFate (is_refused_matcher refused matcher.now) result }
    ensures still { Stays patterns.old patterns.new }
{
    let text = matcher.text.as_str();
    if matcher.sign.is_compared(text) {
        return Ok(None);
    }
    Ok(Some(patterns.pattern(text)?))
}

fn test_of(patterns: &mut Patterns, matcher: &Matcher) -> Result<Test, PatternError>
    ensures built { IfOk result (λ t. t ≡ matcher.now) }
    ensures meant { IfOk result (λ t. has_meaning matcher.now.sign matcher.now.text ≡ true) }
    ensures refused { IfErr result (MayRefuse (is_compared matcher.now.sign matcher.now.text)) }
    ensures fate { (refused : List (List ℕ)) → Agrees patterns.new refused → IsFate (is_refused_matcher refused matcher.now) result }
    ensures still { Stays patterns.old patterns.new }
{
    let pattern = pattern_of(patterns, matcher)?;
    let matcher = matcher.clone()?;
    Ok(Test { matcher, pattern })
}

fn tests_of(
    alloc: Global,
    patterns: &mut Patterns,
    matchers: &[Matcher],
) -> Result<Vec<Test>, PatternError>
    ensures built { IfOk result (λ v. v.items ≡ matchers.now) }
    ensures meant { IfOk result (λ v. all_meant matchers.now ≡ true) }
    ensures refused { IfErr result (MayRefuse (all_compared matchers.now)) }
    ensures fate { (refused : List (List ℕ)) → Agrees patterns.new refused → IsFate (any_refused refused matchers.now) result }
    ensures still { Stays patterns.old patterns.new }
{
    let mut tests = Vec::with_capacity(alloc, matchers.len())?;
    for matcher in matchers {
        let test = test_of(patterns, matcher)?;
        if tests.push(test).is_err() {
            return Err(PatternError::OutOfMemory);
        }
    }
    Ok(tests)
}

impl Test {
    /// Whether a pattern that isn't plain lets a value pass.
    fn passes(&self, pattern: &Pattern, value: &str) -> Result<bool, OutOfMemory>
        requires text { pattern.now ≡ self.now.text }
        requires kept { is_compared self.now.sign self.now.text ≡ false }
        ensures { IfOk result (λ b. b ≡ holds self.now.sign value.now self.now.text) }
    {
        let is_found = pattern.matches(value)?;
        Ok(is_found != (self.matcher.sign == MatchSign::NotLike))
    }

    /// Whether a label's value passes.
    fn holds(&self, value: &str) -> Result<bool, OutOfMemory>
        ensures { IfOk result (λ b. b ≡ holds self.now.sign value.now self.now.text) }
    {
        match &self.pattern {
            Some(pattern) => self.passes(pattern, value),
            None => Ok(self.matcher.sign.holds(value, self.matcher.text.as_str())),
        }
    }
}

/// A test with what asks its pattern of values.
#[derive(Drop)]
struct Asking<'m> {
    matcher: &'m Matcher,
    pattern: Option<PatternMatcher<'m>>,
}

impl<'m> Model for Asking<'m> {
    ghost use Rattle.pf_model.specs.declared.expr.Matcher.{Matcher};
    ghost use Rattle.pf_model.specs.Tests.{IsTest};

    ghost Value = { Matcher };

    ghost view = { λ a. a.matcher.now };

    ghost invariant = { λ a. IsTest a.matcher.now a.pattern };
}

impl Test {
    fn asking(&self) -> Result<Asking<'_>, OutOfMemory>
        ensures { IfOk result (λ a. a ≡ self.now) }
    {
        let pattern = match &self.pattern {
            Some(pattern) => Some(pattern.matcher()?),
            None => None,
        };
        Ok(Asking {
            matcher: &self.matcher,
            pattern,
        })
    }
}

impl<'m> Asking<'m> {
    /// Whether a label's value passes.
    fn holds(&mut self, value: &str) -> bool
        ensures value { result ≡ holds self.old.sign value.now self.old.text }
        ensures same { self.new ≡ self.old }
    {
        match &mut self.pattern {
            Some(pattern) => { pattern.matches(value) != (self.matcher.sign == MatchSign::NotLike) }
            None => self.matcher.sign.holds(value, self.matcher.text.as_str()),
        }
    }

    /// Whether the value of its label passes.
    fn accepts(&mut self, labels: &Labels) -> bool
        ensures value { result ≡ holds self.old.sign (value_of labels.now self.old.label) self.old.text }
        ensures same { self.new ≡ self.old }
    {
        let value = labels.get(self.matcher.label.as_str());
        self.holds(value)
    }
}

fn all_asking<'m>(alloc: Global, tests: &'m [Test]) -> Result<Vec<Asking<'m>>, OutOfMemory>
    ensures { IfOk result (λ v. v.items ≡ tests.now) }
{
    let mut asking = Vec::with_capacity(alloc, tests.len())?;
    for test in tests {
        asking.push(test.asking()?)?;
    }
    Ok(asking)
}

/// What asks matchers about label sets, one after another, seen by contracts as the matchers. Its caches grow as it is used,
/// so it belongs to one thread.
#[derive(Drop)]
pub struct MatchersAsker<'m> {
    tests: Vec<Asking<'m>>,
}

impl<'m> Model for MatchersAsker<'m> {
    ghost use Rattle.std.specs.Prelude.{List};
    ghost use Rattle.pf_model.specs.declared.expr.Matcher.{Matcher};

    ghost Value = { List Matcher };

    ghost view = { λ a. a.tests.items };
}

impl<'m> MatchersAsker<'m> {
    /// Whether each matcher holds of the value of its label. Want of memory makes it slower, and is never answered.
    pub fn accepts(&mut self, labels: &Labels) -> bool
        ensures value { result ≡ accepts self.old labels.now }
        ensures same { self.new ≡ self.old }
    {
        for i in 0..self.tests.len() {
            if !self.tests[i].accepts(labels) {
                return false;
            }
        }
        true
    }

    /// Whether the matcher at a place holds of a value of its label. Want of memory makes it slower, and is never answered.
    pub fn holds(&mut self, i: usize, value: &str) -> bool
        requires { i < length self.old }
        ensures value { (d : Matcher) → result ≡ holds (slice_index_or self.old i d).sign value.now (slice_index_or self.old i d).text }
        ensures same { self.new ≡ self.old }
    {
        self.tests[i].holds(value)
    }
}

fn all_accept_empty(tests: &[Test]) -> Result<bool, OutOfMemory>
    ensures { IfOk result (λ b. b ≡ accepts_empty tests.now) }
{
    for test in tests {
        if !test.holds("")? {
            return Ok(false);
        }
    }
    Ok(true)
}

fn all_accept(tests: &[Test], labels: &Labels) -> Result<bool, OutOfMemory>
    ensures { IfOk result (λ b. b ≡ accepts tests.now labels.now) }
{
    for test in tests {
        if !test.holds(labels.get(test.matcher.label.as_str()))? {
            return Ok(false);
        }
    }
    Ok(true)
}

/// A selector's matchers, ready to be asked about label sets. Their patterns have a meaning, and at least one of the
/// matchers refuses the empty text. Threads may share them.
#[derive(Drop)]
pub struct Matchers {
    tests: Vec<Test>,
}

impl Model for Matchers {
    ghost use Rattle.std.specs.Prelude.{List, ◌≡◌, true, false};
    ghost use Rattle.pf_model.specs.declared.expr.Matcher.{Matcher};
    ghost use Rattle.pf_model.specs.Selection.{all_meant, accepts_empty};

    ghost Value = { List Matcher };

    ghost view = { λ m. m.tests.items };

    ghost invariant = { λ m. (all_meant m.tests.items ≡ true) × (accepts_empty m.tests.items ≡ false) };
}

impl Matchers {
    /// The matchers of a selector. A plain pattern is one or more alternatives with `|` between them, each of ASCII letters,
    /// digits, `_`, `-`, `:` and `/`, and is compared with them; every other one is compiled once. Prometheus, Querying
    /// basics: Time series selectors.
    pub fn build(selector: &Selector) -> Result<Matchers, MatchError>
        ensures built { IfOk result (λ m. m ≡ selector.now) }
        ensures meant { IfOk result (λ m. all_meant selector.now ≡ true) }
        ensures selects { IfOk result (λ m. accepts_empty selector.now ≡ false) }
        ensures refused { result ≡ Err MatchError.BadPattern → all_compared selector.now ≡ false }
        ensures empty { result ≡ Err MatchError.EmptySelector → (all_meant selector.now ≡ true) × (accepts_empty selector.now ≡ true) }
    {
        let mut patterns = Patterns::new(*selector.matchers.allocator());
        Matchers::build_with(&mut patterns, selector)
    }

    /// The same, where the patterns that were read before keep their fates.
    pub fn build_with(patterns: &mut Patterns, selector: &Selector) -> Result<Matchers, MatchError>
        ensures built { IfOk result (λ m. m ≡ selector.now) }
        ensures meant { IfOk result (λ m. all_meant selector.now ≡ true) }
        ensures selects { IfOk result (λ m. accepts_empty selector.now ≡ false) }
        ensures refused { result ≡ Err MatchError.BadPattern → all_compared selector.now ≡ false }
        ensures empty { result ≡ Err MatchError.EmptySelector → (all_meant selector.now ≡ true) × (accepts_empty selector.now ≡ true) }
        ensures fate { (refused : List (List ℕ)) → Agrees patterns.new refused → IsMatchFate refused selector.now result }
        ensures still { Stays patterns.old patterns.new }
    {
        let matchers = &selector.matchers;
        let tests = tests_of(*matchers.allocator(), patterns, matchers)?;
        if all_accept_empty(&tests)? {
            return Err(MatchError::EmptySelector);
        }
        Ok(Matchers { tests })
    }

    /// The number of matchers.
    pub fn count(&self) -> usize
        ensures { result ≡ length self.now }
    {
        self.tests.len()
    }

    /// The matcher at a place.
    pub fn matcher(&self, i: usize) -> &Matcher
        requires { i < length self.now }
        ensures { (d : Matcher) → result.now ≡ slice_index_or self.now i d }
    {
        &self.tests[i].matcher
    }

    /// What asks them about many label sets.
    pub fn asker(&self) -> Result<MatchersAsker<'_>, OutOfMemory>
        ensures { IfOk result (λ a. a ≡ self.now) }
    {
        let tests = all_asking(*self.tests.allocator(), &self.tests)?;
        Ok(MatchersAsker { tests })
    }

    /// Whether each matcher holds of the value of its label. For many label sets take an `asker`.
    pub fn accepts(&self, labels: &Labels) -> Result<bool, OutOfMemory>
        ensures { IfOk result (λ b. b ≡ accepts self.now labels.now) }
    {
        all_accept(&self.tests, labels)
    }
}
