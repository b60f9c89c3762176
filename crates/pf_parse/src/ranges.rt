//! Ranges and subqueries.

ghost use Rattle.std.specs.Prelude.{◌≡◌, IfOk};
ghost use Rattle.pf_parse.specs.Held.{nothing_read};
ghost use Rattle.pf_parse.specs.Lexemes.{seen};
ghost use Rattle.pf_parse.specs.Reading.{base_held, is_positive, modified, range_end_step, range_step, resolution_end_step, resolution_step, step};
ghost use Rattle.pf_parse.specs.Stacks.{mode_of, ranging_mode, Stays};

use crate::held::{Measured, NOTHING_READ, Target, modified, over, over_by, ranged};
use crate::lexeme::Lexeme;
use crate::mode::{Base, Mode, Modifying, Ranging};
use pf_base::OutOfMemory;
use pf_lex::Mark;
use std::alloc::Global;

fn is_positive(millis: Option<u64>) -> bool
    ensures { result ≡ is_positive millis }
{
    millis != Some(0)
}

fn range_step(base: Base, lexeme: Lexeme) -> Option<Mode>
    ensures { Stays result (λ k. range_step base k (seen lexeme.entry)) }
{
    match lexeme {
        Lexeme::Duration { millis } if is_positive(millis) => {
            Some(Mode::Ranging(Ranging::Range { base, millis }))
        }
        _ => None,
    }
}

fn base_held(alloc: Global, base: Base) -> Result<Option<Measured>, OutOfMemory>
    ensures { IfOk result (λ e. e ≡ base_held base) }
{
    match base {
        Base::Matchers { selector } => modified(
            alloc,
            Some(Target::Selector {
                selector,
                range: None,
            }),
            NOTHING_READ,
        ),
        Base::Operand { arg } => Ok(arg),
    }
}

/// A selector or a subquery whose brackets are closed.
fn unmodified(target: Option<Target>) -> Mode
    ensures { mode_of result ≡ modified target nothing_read }
{
    Mode::Modified(Modifying {
        target,
        read: NOTHING_READ,
    })
}

fn range_end_step(
    alloc: Global,
    base: Base,
    millis: Option<u64>,
    lexeme: Lexeme,
) -> Result<Option<Mode>, OutOfMemory>
    ensures { IfOk result (λ m. Stays m (λ k. range_end_step base millis k (seen lexeme.entry))) }
{
    match (base, lexeme) {
        (
            Base::Matchers { selector },
            Lexeme::Mark {
                mark: Mark::CloseSquare,
            },
        ) => Ok(Some(unmodified(ranged(selector, millis)))),
        (base, Lexeme::Mark { mark: Mark::Colon }) => {
            Ok(Some(Mode::Ranging(Ranging::ResolutionDue {
                arg: base_held(alloc, base)?,
                range: millis,
            })))
        }
        _ => Ok(None),
    }
}

fn resolution_step(arg: Option<Measured>, range: Option<u64>, lexeme: Lexeme) -> Option<Mode>
    ensures { Stays result (λ k. resolution_step arg range k (seen lexeme.entry)) }
{
    match lexeme {
        Lexeme::Duration { millis } if is_positive(millis) => {
            Some(Mode::Ranging(Ranging::Resolution { arg, range, millis }))
        }
        Lexeme::Mark {
            mark: Mark::CloseSquare,
        } => Some(unmodified(over(arg, range))),
        _ => None,
    }
}

fn resolution_end_step(
    arg: Option<Measured>,
    range: Option<u64>,
    millis: Option<u64>,
    lexeme: Lexeme,
) -> Option<Mode>
    ensures { Stays result (λ k. resolution_end_step arg range millis k (seen lexeme.entry)) }
{
    match lexeme {
        Lexeme::Mark {
            mark: Mark::CloseSquare,
        } => Some(unmodified(over_by(arg, range, millis))),
        _ => None,
    }
}

/// A token within square brackets.
pub fn ranging_step(
    alloc: Global,
    ranging: Ranging,
    lexeme: Lexeme,
) -> Result<Option<Mode>, OutOfMemory>
    ensures { IfOk result (λ m. Stays m (λ k. step (ranging_mode ranging) k (seen lexeme.entry))) }
{
    match ranging {
        Ranging::RangeDue { base } => Ok(range_step(base, lexeme)),
        Ranging::Range { base, millis } => range_end_step(alloc, base, millis, lexeme),
        Ranging::ResolutionDue { arg, range } => Ok(resolution_step(arg, range, lexeme)),
        Ranging::Resolution { arg, range, millis } => Ok(resolution_end_step(
            arg, range, millis, lexeme,
        )),
    }
}
