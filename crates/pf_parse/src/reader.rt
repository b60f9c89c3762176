//! The reading of a query's tokens.

ghost use Rattle.std.specs.Prelude.{◌≡◌, ◌∷◌, [], IfOk, Some, None, true};
ghost use Rattle.std.specs.List.{All};
ghost use Rattle.pf_lex.specs.Seen.{IsTokenOf};
ghost use Rattle.pf_parse.specs.Held.{selector};
ghost use Rattle.pf_parse.specs.Lexemes.{IsTimely, seen};
ghost use Rattle.pf_parse.specs.Reading.{ends, label_due, metric, named_step, run, start, step, to};
ghost use Rattle.pf_parse.specs.Shown.{lexeme_at, lexemes_of};
ghost use Rattle.pf_parse.specs.Stacks.{mode_of, Leads, Stays};

use crate::aggregations::{aggregating_end, aggregating_step, labelling_step};
use crate::held::{Measured, NOTHING_READ, Target, modified};
use crate::lexeme::Lexeme;
use crate::mode::{Mode, Modifying, Selecting, SelectorDue};
use crate::modifiers::{modified_step, modifier_step};
use crate::operands::{due_step, first_step, whole_end, whole_step};
use crate::operators::operating_step;
use crate::ranges::ranging_step;
use crate::selectors::{named_selector, selecting_step};
use crate::stack::Stack;
use crate::words::{function_of, keyword_of};
use pf_base::{OutOfMemory, Text};
use pf_lex::{Mark, Token, TokenSort, token_text};
use std::alloc::Global;

/// What modifiers stand behind where a metric's name was read.
fn named_target(alloc: Global, name: Text) -> Result<Option<Target>, OutOfMemory>
    ensures { IfOk result (λ t. t ≡ Some (selector (metric name ∷ []) None)) }
{
    Ok(Some(Target::Selector {
        selector: named_selector(alloc, name)?,
        range: None,
    }))
}

/// A brace behind a metric's name.
fn named_brace(alloc: Global, name: Text) -> Result<Option<Mode>, OutOfMemory>
    ensures { IfOk result (λ m. Stays m (to (label_due true (metric name ∷ [])))) }
{
    Ok(Some(Mode::Selecting {
        selecting: Selecting {
            has_name: true,
            selector: named_selector(alloc, name)?,
        },
        due: SelectorDue::Label,
    }))
}

/// A name is a function's before a bracket, and else a metric's.
fn named_step(
    alloc: Global,
    name: Text,
    stack: &mut Stack,
    lexeme: Lexeme,
) -> Result<Option<Mode>, OutOfMemory>
    ensures { IfOk result (λ m. Leads m stack.new (named_step name stack.old (seen lexeme.entry))) }
{
    match lexeme {
        Lexeme::Mark { mark: Mark::Open } => Ok(Some(Mode::FirstDue {
            function: function_of(name.as_str()),
        })),
        Lexeme::Mark {
            mark: Mark::OpenBrace,
        } => named_brace(alloc, name),
        lexeme => {
            let modifying = Modifying {
                target: named_target(alloc, name)?,
                read: NOTHING_READ,
            };
            modified_step(alloc, modifying, stack, lexeme)
        }
    }
}

/// Where a token leads from what was read last.
fn step(
    alloc: Global,
    mode: Mode,
    stack: &mut Stack,
    lexeme: Lexeme,
) -> Result<Option<Mode>, OutOfMemory>
    requires { IsTimely (seen lexeme) }
    ensures { IfOk result (λ m. Leads m stack.new (step (mode_of mode) stack.old (seen lexeme.entry))) }
{
    match mode {
        Mode::Due => due_step(alloc, stack, lexeme),
        Mode::FirstDue { function } => first_step(alloc, function, stack, lexeme),
        Mode::Named { name } => named_step(alloc, name, stack, lexeme),
        Mode::Selecting { selecting, due } => selecting_step(alloc, selecting, due, lexeme),
        Mode::Modified(modifying) => modified_step(alloc, modifying, stack, lexeme),
        Mode::Modifying { modifying, due } => Ok(modifier_step(modifying, due, lexeme)),
        Mode::Ranging(ranging) => ranging_step(alloc, ranging, lexeme),
        Mode::Whole { arg } => whole_step(alloc, arg, stack, &lexeme),
        Mode::Operating(operating) => operating_step(alloc, operating, stack, lexeme),
        Mode::Aggregating(aggregating) => aggregating_step(alloc, aggregating, stack, lexeme),
        Mode::Labelling(labelling) => labelling_step(alloc, labelling, stack, lexeme),
    }
}

/// What is held where the text ends.
fn ends(
    alloc: Global,
    mode: Mode,
    stack: &mut Stack,
) -> Result<Option<Option<Measured>>, OutOfMemory>
    ensures { IfOk result (λ e. e ≡ ends (mode_of mode) stack.old) }
{
    match mode {
        Mode::Named { name } => {
            let target = named_target(alloc, name)?;
            let arg = modified(alloc, target, NOTHING_READ)?;
            whole_end(alloc, arg, stack)
        }
        Mode::Modified(modifying) => {
            let arg = modified(alloc, modifying.target, modifying.read)?;
            whole_end(alloc, arg, stack)
        }
        Mode::Whole { arg } => whole_end(alloc, arg, stack),
        Mode::Aggregating(aggregating) => aggregating_end(alloc, aggregating, stack),
        unfinished => {
            drop(unfinished);
            Ok(None)
        }
    }
}

fn lexeme_of<'a>(text: &'a str, token: &'a Token) -> Lexeme<'a>
    requires { IsTokenOf text.now token.now }
    ensures lexeme { seen result ≡ lexeme_at text.now token.now }
    ensures timely { IsTimely (seen result) }
{
    let text = token_text(text, token);
    match &token.sort {
        TokenSort::Word => Lexeme::Word {
            keyword: keyword_of(text),
            text,
        },
        TokenSort::Number(value) => Lexeme::Number { value },
        TokenSort::Duration(millis) => Lexeme::Duration { millis: *millis },
        TokenSort::String => Lexeme::Text { quoted: text },
        TokenSort::Mark(mark) => Lexeme::Mark { mark: *mark },
    }
}

fn step_at(
    alloc: Global,
    text: &str,
    token: &Token,
    mode: Mode,
    stack: &mut Stack,
) -> Result<Option<Mode>, OutOfMemory>
    requires { IsTokenOf text.now token.now }
    ensures { IfOk result (λ m. Leads m stack.new (step (mode_of mode) stack.old (lexeme_at text.now token.now))) }
{
    step(alloc, mode, stack, lexeme_of(text, token))
}

/// What is held of a query's tokens, or the number of tokens before the first that is unexpected.
#[tactic(auto, using(crate::proofs::Past::run_goes, crate::proofs::Past::run_stops, crate::proofs::Past::run_ends, crate::proofs::Past::run_unended, crate::proofs::Past::run_starts))]
pub fn read(
    alloc: Global,
    text: &str,
    tokens: &[Token],
) -> Result<Result<Option<Measured>, usize>, OutOfMemory>
    requires { All (IsTokenOf text.now) tokens.now }
    ensures { IfOk result (λ r. r ≡ run start (lexemes_of text.now tokens.now)) }
{
    let mut mode = Mode::Due;
    let mut stack = Stack::new(alloc);
    for (i, token) in tokens.iter().enumerate() {
        let Some(next) = step_at(alloc, text, token, mode, &mut stack)? else {
            return Ok(Err(i));
        };
        mode = next;
    }
    match ends(alloc, mode, &mut stack)? {
        Some(held) => Ok(Ok(held)),
        None => Ok(Err(tokens.len())),
    }
}
