//! Modifiers of selectors and subqueries.

ghost use Rattle.std.specs.Prelude.{◌≡◌, pos, nat_abs, option_map, ◌≤ℤ◌, IfOk};
ghost use Rattle.std.specs.Option.{is_none};
ghost use Rattle.pf_model.specs.declared.expr.At.TheVariants.{Time};
ghost use Rattle.pf_model.specs.Grammar.{millis_of};
ghost use Rattle.pf_parse.specs.Held.{offset_of};
ghost use Rattle.pf_parse.specs.declared.modifiers.ModifierStep.TheVariants.{Read};
ghost use Rattle.pf_parse.specs.Lexemes.{IsTimely, duration, seen, within_limit};
ghost use Rattle.pf_parse.specs.Reading.{base_of, end_close_step, end_named, end_open_step, minus_offset_step, modified_step, offset_due, offset_step, range_due, sign_of, signed_time_step, step, time_due, time_step, timed, to, to_if, with_at, with_offset};
ghost use Rattle.pf_parse.specs.Stacks.{modifier_mode, Leads, Modifies, Stays};

use crate::held::{ModifiersRead, Target, modified};
use crate::keyword::Keyword;
use crate::lexeme::Lexeme;
use crate::mode::{Base, Mode, ModifierDue, Modifying, Ranging};
use crate::operands::whole_step;
use crate::stack::Stack;
use pf_base::{MAXT, OutOfMemory, Value};
use pf_lex::Mark;
use pf_model::At;
use std::alloc::Global;

/// What stands before a square bracket behind this: a bare selector alone may take a range.
fn base_of(alloc: Global, target: Option<Target>, read: ModifiersRead) -> Result<Base, OutOfMemory>
    ensures { IfOk result (λ b. b ≡ base_of target read) }
{
    match target {
        Some(
            Target::Selector {
                selector,
                range: None,
            },
        ) if read.offset.is_none() && read.at.is_none() => Ok(Base::Matchers { selector }),
        target => Ok(Base::Operand {
            arg: modified(alloc, target, read)?,
        }),
    }
}

fn offset_begun(modifying: Modifying) -> Option<Mode>
    ensures { Stays result (λ k. to_if (is_none modifying.read.offset) (offset_due modifying.target modifying.read) k) }
{
    if modifying.read.offset.is_some() {
        return None;
    }
    Some(Mode::Modifying {
        modifying,
        due: ModifierDue::Offset,
    })
}

fn at_begun(modifying: Modifying) -> Option<Mode>
    ensures { Stays result (λ k. to_if (is_none modifying.read.at) (time_due modifying.target modifying.read) k) }
{
    if modifying.read.at.is_some() {
        return None;
    }
    Some(Mode::Modifying {
        modifying,
        due: ModifierDue::Time,
    })
}

fn range_begun(alloc: Global, modifying: Modifying) -> Result<Option<Mode>, OutOfMemory>
    ensures { IfOk result (λ m. Stays m (to (range_due (base_of modifying.target modifying.read)))) }
{
    Ok(Some(Mode::Ranging(Ranging::RangeDue {
        base: base_of(alloc, modifying.target, modifying.read)?,
    })))
}

pub fn modified_step(
    alloc: Global,
    modifying: Modifying,
    stack: &mut Stack,
    lexeme: Lexeme,
) -> Result<Option<Mode>, OutOfMemory>
    ensures { IfOk result (λ m. Leads m stack.new (modified_step modifying.target modifying.read stack.old (seen lexeme.entry))) }
{
    match lexeme {
        Lexeme::Word {
            keyword: Some(Keyword::Offset),
            ..
        } => Ok(offset_begun(modifying)),
        Lexeme::Mark { mark: Mark::At } => Ok(at_begun(modifying)),
        Lexeme::Mark {
            mark: Mark::OpenSquare,
        } => range_begun(alloc, modifying),
        lexeme => {
            let arg = modified(alloc, modifying.target, modifying.read)?;
            whole_step(alloc, arg, stack, &lexeme)
        }
    }
}

/// Where a token of a modifier leads: to what is due next, or behind the modifier.
#[derive(Clone, Copy)]
pub enum ModifierStep {
    Due { due: ModifierDue },
    Read { read: ModifiersRead },
}

/// An offset with its sign.
fn offset_of(minus: bool, millis: Option<u64>) -> Option<i64>
    requires { IsTimely (duration millis) }
    ensures { result ≡ offset_of minus millis }
{
    let millis = millis?;
    if minus {
        Some(-(millis as i64))
    } else {
        Some(millis as i64)
    }
}

fn with_offset(read: ModifiersRead, offset: Option<i64>) -> ModifierStep
    ensures { result ≡ Read (with_offset read offset) }
{
    ModifierStep::Read {
        read: ModifiersRead {
            offset: Some(offset),
            at: read.at,
        },
    }
}

fn offset_step(read: ModifiersRead, lexeme: Lexeme) -> Option<ModifierStep>
    requires { IsTimely (seen lexeme) }
    ensures { Modifies result read (λ target k. offset_step target read k (seen lexeme.entry)) }
{
    match lexeme {
        Lexeme::Mark { mark: Mark::Minus } => Some(ModifierStep::Due {
            due: ModifierDue::MinusOffset,
        }),
        Lexeme::Duration { millis } => Some(with_offset(read, offset_of(false, millis))),
        _ => None,
    }
}

fn minus_offset_step(read: ModifiersRead, lexeme: Lexeme) -> Option<ModifierStep>
    requires { IsTimely (seen lexeme) }
    ensures { Modifies result read (λ target k. minus_offset_step target read k (seen lexeme.entry)) }
{
    match lexeme {
        Lexeme::Duration { millis } => Some(with_offset(read, offset_of(true, millis))),
        _ => None,
    }
}

fn with_at(read: ModifiersRead, at: Option<At>) -> ModifierStep
    ensures { result ≡ Read (with_at read at) }
{
    ModifierStep::Read {
        read: ModifiersRead {
            offset: read.offset,
            at: Some(at),
        },
    }
}

/// The milliseconds of an `@`, cut toward zero.
fn millis_of(minus: bool, value: Value) -> i64
    ensures { result ≡ millis_of (sign_of minus) value }
{
    if minus {
        -value.micros() / 1000
    } else {
        value.micros() / 1000
    }
}

fn time_at(millis: i64) -> Option<At>
    requires { pos 0 ≤ℤ millis }
    ensures { result ≡ option_map Time (within_limit (nat_abs millis)) }
{
    let millis = millis as u64;
    if millis <= MAXT {
        Some(At::Time { millis })
    } else {
        None
    }
}

fn timed(minus: bool, read: ModifiersRead, value: Value) -> Option<ModifierStep>
    ensures { Modifies result read (λ target k. timed target read (sign_of minus) value k) }
{
    let millis = millis_of(minus, value);
    if millis < 0 {
        return None;
    }
    Some(with_at(read, time_at(millis)))
}

fn end_named(word: &str) -> Option<At>
    ensures { result ≡ end_named word.now }
{
    if word == "start" {
        return Some(At::Start);
    }
    if word == "end" {
        return Some(At::End);
    }
    None
}

fn time_step(read: ModifiersRead, lexeme: Lexeme) -> Option<ModifierStep>
    ensures { Modifies result read (λ target k. time_step target read k (seen lexeme.entry)) }
{
    match lexeme {
        Lexeme::Mark { mark: Mark::Plus } => Some(ModifierStep::Due {
            due: ModifierDue::SignedTime { minus: false },
        }),
        Lexeme::Mark { mark: Mark::Minus } => Some(ModifierStep::Due {
            due: ModifierDue::SignedTime { minus: true },
        }),
        Lexeme::Number { value } => timed(false, read, *value),
        Lexeme::Word { text, .. } => {
            let at = end_named(text)?;
            Some(ModifierStep::Due {
                due: ModifierDue::Open { at },
            })
        }
        _ => None,
    }
}

fn signed_time_step(read: ModifiersRead, minus: bool, lexeme: Lexeme) -> Option<ModifierStep>
    ensures { Modifies result read (λ target k. signed_time_step target read minus k (seen lexeme.entry)) }
{
    match lexeme {
        Lexeme::Number { value } => timed(minus, read, *value),
        _ => None,
    }
}

fn end_open_step(read: ModifiersRead, at: At, lexeme: Lexeme) -> Option<ModifierStep>
    ensures { Modifies result read (λ target k. end_open_step target read at k (seen lexeme.entry)) }
{
    match lexeme {
        Lexeme::Mark { mark: Mark::Open } => Some(ModifierStep::Due {
            due: ModifierDue::Close { at },
        }),
        _ => None,
    }
}

fn end_close_step(read: ModifiersRead, at: At, lexeme: Lexeme) -> Option<ModifierStep>
    ensures { Modifies result read (λ target k. end_close_step target read at k (seen lexeme.entry)) }
{
    match lexeme {
        Lexeme::Mark { mark: Mark::Close } => Some(with_at(read, Some(at))),
        _ => None,
    }
}

fn modifier_read(read: ModifiersRead, due: ModifierDue, lexeme: Lexeme) -> Option<ModifierStep>
    requires { IsTimely (seen lexeme) }
    ensures { Modifies result read (λ target k. step (modifier_mode target read due) k (seen lexeme.entry)) }
{
    match due {
        ModifierDue::Offset => offset_step(read, lexeme),
        ModifierDue::MinusOffset => minus_offset_step(read, lexeme),
        ModifierDue::Time => time_step(read, lexeme),
        ModifierDue::SignedTime { minus } => signed_time_step(read, minus, lexeme),
        ModifierDue::Open { at } => end_open_step(read, at, lexeme),
        ModifierDue::Close { at } => end_close_step(read, at, lexeme),
    }
}

/// A token within a modifier.
pub fn modifier_step(modifying: Modifying, due: ModifierDue, lexeme: Lexeme) -> Option<Mode>
    requires { IsTimely (seen lexeme) }
    ensures { Stays result (λ k. step (modifier_mode modifying.target modifying.read due) k (seen lexeme.entry)) }
{
    match modifier_read(modifying.read, due, lexeme)? {
        ModifierStep::Due { due } => Some(Mode::Modifying { modifying, due }),
        ModifierStep::Read { read } => Some(Mode::Modified(Modifying {
            target: modifying.target,
            read,
        })),
    }
}
