//! Selectors' matchers.

ghost use Rattle.std.specs.Prelude.{◌≡◌, ◌∷◌, ◌&&◌, [], IfOk, Some, None, not};
ghost use Rattle.pf_model.specs.Grammar.{has_colon};
ghost use Rattle.pf_parse.specs.Held.{nothing_read, selector};
ghost use Rattle.pf_parse.specs.Lexemes.{seen};
ghost use Rattle.pf_parse.specs.Reading.{is_name, label_step, matched_step, metric, modified, sign_due, sign_step, step, text_step, to_if};
ghost use Rattle.pf_parse.specs.Stacks.{mode_of, selecting_mode, Stays};

use crate::held::{NOTHING_READ, Target};
use crate::lexeme::Lexeme;
use crate::mode::{Mode, Modifying, Selecting, SelectorDue};
use crate::words::match_mark;
use pf_base::{OutOfMemory, Text};
use pf_lex::{Mark, unquoted};
use pf_model::{MatchSign, Matcher, Selector};
use std::alloc::Global;

/// The label whose value is the metric's name.
const METRIC_NAME: &str = "__name__";

pub fn has_colon(word: &str) -> bool
    ensures { result ≡ has_colon word.now }
{
    word.as_bytes().iter().any(|byte| *byte == b':')
}

fn is_name(label: &str) -> bool
    ensures { result ≡ is_name label.now }
{
    label == METRIC_NAME
}

/// The matcher of a metric's name.
fn metric(alloc: Global, name: Text) -> Result<Matcher, OutOfMemory>
    ensures { IfOk result (λ m. m ≡ metric name) }
{
    Ok(Matcher {
        label: Text::of(alloc, METRIC_NAME)?,
        sign: MatchSign::Equal,
        text: name,
    })
}

/// The selector of a metric's name.
pub fn named_selector(alloc: Global, name: Text) -> Result<Selector, OutOfMemory>
    ensures { IfOk result (λ s. s ≡ metric name ∷ []) }
{
    let mut matchers = Vec::new(alloc);
    matchers.push(metric(alloc, name)?)?;
    Ok(Selector { matchers })
}

/// A selector without a range and without modifiers.
fn plain(matchers: Selector) -> Mode
    ensures { mode_of result ≡ modified (Some (selector matchers None)) nothing_read }
{
    Mode::Modified(Modifying {
        target: Some(Target::Selector {
            selector: matchers,
            range: None,
        }),
        read: NOTHING_READ,
    })
}

/// A word where a label is due.
fn label_read(alloc: Global, selecting: Selecting, word: &str) -> Result<Option<Mode>, OutOfMemory>
    ensures { IfOk result (λ m. Stays m (to_if (not (has_colon word.now) && not (selecting.has_name && is_name word.now)) (sign_due selecting.has_name selecting.selector word.now))) }
{
    if has_colon(word) || (selecting.has_name && is_name(word)) {
        return Ok(None);
    }
    let label = Text::of(alloc, word)?;
    Ok(Some(Mode::Selecting {
        selecting,
        due: SelectorDue::Sign { label },
    }))
}

fn label_step(
    alloc: Global,
    selecting: Selecting,
    lexeme: Lexeme,
) -> Result<Option<Mode>, OutOfMemory>
    ensures { IfOk result (λ m. Stays m (λ k. label_step selecting.has_name selecting.selector k (seen lexeme.entry))) }
{
    match lexeme {
        Lexeme::Word { text, .. } => label_read(alloc, selecting, text),
        Lexeme::Mark {
            mark: Mark::CloseBrace,
        } => Ok(Some(plain(selecting.selector))),
        _ => Ok(None),
    }
}

fn sign_step(selecting: Selecting, label: Text, lexeme: Lexeme) -> Option<Mode>
    ensures { Stays result (λ k. sign_step selecting.has_name selecting.selector label k (seen lexeme.entry)) }
{
    let Lexeme::Mark { mark } = lexeme else {
        return None;
    };
    let sign = match_mark(mark)?;
    Some(Mode::Selecting {
        selecting,
        due: SelectorDue::Text { label, sign },
    })
}

fn text_step(
    alloc: Global,
    selecting: Selecting,
    label: Text,
    sign: MatchSign,
    lexeme: Lexeme,
) -> Result<Option<Mode>, OutOfMemory>
    ensures { IfOk result (λ m. Stays m (λ k. text_step selecting.has_name selecting.selector label sign k (seen lexeme.entry))) }
{
    let Lexeme::Text { quoted } = lexeme else {
        return Ok(None);
    };
    let text = unquoted(alloc, quoted)?;
    let mut matchers = selecting.selector.matchers;
    matchers.push(Matcher { label, sign, text })?;
    Ok(Some(Mode::Selecting {
        selecting: Selecting {
            has_name: selecting.has_name,
            selector: Selector { matchers },
        },
        due: SelectorDue::Comma,
    }))
}

fn matched_step(selecting: Selecting, lexeme: Lexeme) -> Option<Mode>
    ensures { Stays result (λ k. matched_step selecting.has_name selecting.selector k (seen lexeme.entry)) }
{
    match lexeme {
        Lexeme::Mark { mark: Mark::Comma } => Some(Mode::Selecting {
            selecting,
            due: SelectorDue::Label,
        }),
        Lexeme::Mark {
            mark: Mark::CloseBrace,
        } => Some(plain(selecting.selector)),
        _ => None,
    }
}

/// A token within a selector's braces.
pub fn selecting_step(
    alloc: Global,
    selecting: Selecting,
    due: SelectorDue,
    lexeme: Lexeme,
) -> Result<Option<Mode>, OutOfMemory>
    ensures { IfOk result (λ m. Stays m (λ k. step (selecting_mode selecting due) k (seen lexeme.entry))) }
{
    match due {
        SelectorDue::Label => label_step(alloc, selecting, lexeme),
        SelectorDue::Sign { label } => Ok(sign_step(selecting, label, lexeme)),
        SelectorDue::Text { label, sign } => text_step(alloc, selecting, label, sign, lexeme),
        SelectorDue::Comma => Ok(matched_step(selecting, lexeme)),
    }
}
