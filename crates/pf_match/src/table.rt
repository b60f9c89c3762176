//! Patterns that are read one after another, each once.

ghost use Rattle.std.specs.Prelude.{◌≡◌, ◌≢◌, ◌++◌, ◌∷◌, [], ℕ, IfOk, List, MatchOption, None, OnErr, OnOk, Some, false, map, string_bytes, true};
ghost use Rattle.std.specs.BTreeMap.{get_by_text};
ghost use Rattle.pf_match.specs.Meaning.{is_listed, is_pattern, is_refused};
ghost use Rattle.pf_match.specs.Tables.{Agrees, AreTooBig, IsFate, Stays};

use crate::error::PatternError;
use crate::pattern::Pattern;
use std::alloc::{AllocError, Global};
use std::collections::BTreeMap;
use std::marker::Model;

/// Patterns by their texts. A text has one fate in a table: it is compiled once, and what was found stays. Contracts see the
/// texts that were built, and those that compile too big.
#[derive(Drop)]
pub struct Patterns {
    alloc: Global,
    built: BTreeMap<String, Pattern>,
    refused: Vec<String>,
}

impl Model for Patterns {
    ghost use Rattle.std.specs.Prelude.{map, string_bytes};
    ghost use Rattle.pf_match.specs.Tables.{Table, IsTable, texts_of};

    ghost Value = { Table };

    ghost view = { λ t. (texts_of t.built, map string_bytes t.refused.items) };

    ghost invariant = { λ t. IsTable t.built (map string_bytes t.refused.items) };
}

/// What was built of a text.
fn built_of<'a>(built: &'a BTreeMap<String, Pattern>, text: &str) -> Option<&'a Pattern>
    ensures { MatchOption result (get_by_text built.now text.now ≡ None) (λ p. get_by_text built.now text.now ≡ Some p.now) }
{
    built.get(text)
}

fn is_among(texts: &[String], text: &str) -> bool
    ensures { result ≡ is_listed (map string_bytes texts.now) text.now }
{
    for other in texts {
        if text == other.as_str() {
            return true;
        }
    }
    false
}

/// Adds a pattern.
fn insert(
    alloc: Global,
    built: &mut BTreeMap<String, Pattern>,
    text: &str,
    pattern: Pattern,
) -> Result<(), AllocError>
    ensures added { OnOk result (get_by_text built.new text.now ≡ Some pattern) }
    ensures others { OnOk result ((other : List ℕ) → other ≢ text.now → get_by_text built.new other ≡ get_by_text built.old other) }
    ensures same { OnErr result (built.new.entries ≡ built.old.entries) }
{
    built.insert(String::from_str(alloc, text)?, pattern)?;
    Ok(())
}

/// Adds a text.
fn push(alloc: Global, texts: &mut Vec<String>, text: &str) -> Result<(), AllocError>
    ensures added { OnOk result (map string_bytes texts.new.items ≡ map string_bytes texts.old.items ++ text.now ∷ []) }
    ensures same { OnErr result (map string_bytes texts.new.items ≡ map string_bytes texts.old.items) }
{
    texts.push(String::from_str(alloc, text)?)?;
    Ok(())
}

impl Patterns {
    /// No patterns.
    pub fn new(alloc: Global) -> Patterns
        ensures { result ≡ ([], []) }
    {
        Patterns {
            alloc,
            built: BTreeMap::new(alloc),
            refused: Vec::new(alloc),
        }
    }

    /// Keeps a pattern that was built.
    fn keep(&mut self, text: &str, pattern: Pattern) -> Result<Pattern, PatternError>
        requires own { pattern ≡ text.now }
        requires read { is_pattern text.now ≡ true }
        requires further { is_listed self.old.1 text.now ≡ false }
        ensures built { IfOk result (λ p. p ≡ text.now) }
        ensures read { IfOk result (λ p. is_pattern text.now ≡ true) }
        ensures fate { (refused : List (List ℕ)) → Agrees self.new refused → IsFate (is_refused refused text.now) result }
        ensures still { Stays self.old self.new }
    {
        let given = pattern.share()?;
        insert(self.alloc, &mut self.built, text, pattern)?;
        Ok(given)
    }

    /// Keeps the text of an expression that compiles too big.
    fn refuse(&mut self, text: &str) -> Result<Pattern, PatternError>
        requires read { is_pattern text.now ≡ true }
        requires further { is_listed self.old.0 text.now ≡ false }
        ensures built { IfOk result (λ p. p ≡ text.now) }
        ensures read { IfOk result (λ p. is_pattern text.now ≡ true) }
        ensures fate { (refused : List (List ℕ)) → Agrees self.new refused → IsFate (is_refused refused text.now) result }
        ensures still { Stays self.old self.new }
    {
        push(self.alloc, &mut self.refused, text)?;
        Err(PatternError::TooBig)
    }

    /// Compiles a text that was not read before.
    fn compile(&mut self, text: &str) -> Result<Pattern, PatternError>
        requires unbuilt { is_listed self.old.0 text.now ≡ false }
        requires unlisted { is_listed self.old.1 text.now ≡ false }
        ensures built { IfOk result (λ p. p ≡ text.now) }
        ensures read { IfOk result (λ p. is_pattern text.now ≡ true) }
        ensures fate { (refused : List (List ℕ)) → Agrees self.new refused → IsFate (is_refused refused text.now) result }
        ensures still { Stays self.old self.new }
    {
        match Pattern::build(self.alloc, text) {
            Ok(pattern) => self.keep(text, pattern),
            Err(PatternError::TooBig) => self.refuse(text),
            Err(error) => Err(error),
        }
    }

    /// The pattern of a text, compiled where it was not read before. A text that was built or refused is so again, in the
    /// words of each list of refused patterns that agrees with what was found.
    pub fn pattern(&mut self, text: &str) -> Result<Pattern, PatternError>
        ensures built { IfOk result (λ p. p ≡ text.now) }
        ensures read { IfOk result (λ p. is_pattern text.now ≡ true) }
        ensures fate { (refused : List (List ℕ)) → Agrees self.new refused → IsFate (is_refused refused text.now) result }
        ensures still { Stays self.old self.new }
    {
        if let Some(pattern) = built_of(&self.built, text) {
            return Ok(pattern.share()?);
        }
        if is_among(&self.refused, text) {
            return Err(PatternError::TooBig);
        }
        self.compile(text)
    }

    /// The texts that compile too big, which are all that a list of refused patterns needs.
    pub fn refused(&self) -> &[String]
        ensures agrees { Agrees self.now (map string_bytes result.now) }
        ensures expressions { AreTooBig (map string_bytes result.now) }
    {
        &self.refused
    }
}
