//! Operands as they begin and end.

ghost use Rattle.std.specs.Prelude.{◌≡◌, ◌∷◌, IfOk, Some};
ghost use Rattle.pf_parse.specs.Held.{held_binary, with_argument};
ghost use Rattle.pf_parse.specs.Lexemes.{follow_of, seen, sign};
ghost use Rattle.pf_parse.specs.Reading.{calling, called, closed, due, due_step, first_step, followed, separated, settle, to, whole_ends, whole_step};
ghost use Rattle.pf_parse.specs.Stacks.{mode_of, IsTaker, Leads, taken};

use crate::held::{
    Arguments, Measured, aggregate, binary, call, no_arguments, number, text, unary, with_argument,
};
use crate::keyword::Keyword;
use crate::lexeme::{Follow, Lexeme};
use crate::mode::{
    Aggregating, Base, Callee, Frame, Mode, Operating, Ranging, Selecting, SelectorDue,
};
use crate::stack::Stack;
use crate::words::level_of;
use pf_base::{OutOfMemory, Text};
use pf_lex::{Mark, unquoted};
use pf_model::{BinaryOp, Function, Selector};
use std::alloc::Global;

/// The level of all that may stand in brackets.
const LAST_LEVEL: u64 = 6;

fn due_mark(alloc: Global, stack: &mut Stack, mark: Mark) -> Result<Option<Mode>, OutOfMemory>
    ensures { IfOk result (λ m. Leads m stack.new (due_step stack.old (sign (Some mark)))) }
{
    match mark {
        Mark::Open => {
            stack.push(Frame::Bracket)?;
            Ok(Some(Mode::Due))
        }
        Mark::OpenBrace => Ok(Some(Mode::Selecting {
            selecting: Selecting {
                has_name: false,
                selector: Selector {
                    matchers: Vec::new(alloc),
                },
            },
            due: SelectorDue::Label,
        })),
        Mark::Plus => {
            stack.push(Frame::Signed { minus: false })?;
            Ok(Some(Mode::Due))
        }
        Mark::Minus => {
            stack.push(Frame::Signed { minus: true })?;
            Ok(Some(Mode::Due))
        }
        _ => Ok(None),
    }
}

pub fn due_step(
    alloc: Global,
    stack: &mut Stack,
    lexeme: Lexeme,
) -> Result<Option<Mode>, OutOfMemory>
    ensures { IfOk result (λ m. Leads m stack.new (due_step stack.old (seen lexeme.entry))) }
{
    match lexeme {
        Lexeme::Number { value } => Ok(Some(Mode::Whole {
            arg: Some(number(alloc, *value)?),
        })),
        Lexeme::Text { quoted } => Ok(Some(Mode::Whole {
            arg: Some(text(alloc, unquoted(alloc, quoted)?)?),
        })),
        Lexeme::Word {
            keyword: Some(Keyword::Aggregation { op }),
            ..
        } => Ok(Some(Mode::Aggregating(Aggregating::ClauseDue { op }))),
        Lexeme::Word {
            keyword: None,
            text: name,
        } => Ok(Some(Mode::Named {
            name: Text::of(alloc, name)?,
        })),
        Lexeme::Mark { mark } => due_mark(alloc, stack, mark),
        _ => Ok(None),
    }
}

pub fn first_step(
    alloc: Global,
    function: Option<Function>,
    stack: &mut Stack,
    lexeme: Lexeme,
) -> Result<Option<Mode>, OutOfMemory>
    ensures { IfOk result (λ m. Leads m stack.new (first_step function stack.old (seen lexeme.entry))) }
{
    let args = Some(no_arguments(alloc));
    match lexeme {
        Lexeme::Mark { mark: Mark::Close } => Ok(Some(Mode::Whole {
            arg: call(alloc, function, args)?,
        })),
        lexeme => {
            let callee = Callee::Function { function };
            stack.push(Frame::Calling { callee, args })?;
            due_step(alloc, stack, lexeme)
        }
    }
}

/// What the top makes of the operand behind it.
fn taken(
    alloc: Global,
    frame: Frame,
    arg: Option<Measured>,
) -> Result<Option<Measured>, OutOfMemory>
    requires { IsTaker frame }
    ensures { IfOk result (λ e. e ≡ taken frame arg) }
{
    match frame {
        Frame::Signed { minus } => unary(alloc, minus, arg),
        Frame::Left { op, matching, left } => binary(alloc, op, matching, left, arg),
        Frame::Bracket | Frame::Calling { .. } => unreachable!(),
    }
}

/// The signs, and the operators that bind at least as close as this level, take the operand.
#[tactic(auto, using(crate::proofs::Settles::settle_takes, crate::proofs::Settles::settle_stays, crate::proofs::Settles::taker))]
fn settle(
    alloc: Global,
    level: u64,
    arg: Option<Measured>,
    stack: &mut Stack,
) -> Result<Option<Measured>, OutOfMemory>
    ensures { IfOk result (λ e. settle level arg stack.old ≡ record { held = e; stack = stack.new }) }
{
    let mut arg = arg;
    while let Some(frame) = stack.pop_taker(level) {
        arg = taken(alloc, frame, arg)?;
    }
    Ok(arg)
}

/// Arguments are whole.
fn called(alloc: Global, callee: Callee, args: Option<Arguments>) -> Result<Mode, OutOfMemory>
    ensures { IfOk result (λ m. mode_of m ≡ called callee args) }
{
    match callee {
        Callee::Function { function } => Ok(Mode::Whole {
            arg: call(alloc, function, args)?,
        }),
        Callee::Aggregation {
            op,
            grouping: Some(grouping),
        } => Ok(Mode::Whole {
            arg: aggregate(alloc, op, grouping, args)?,
        }),
        Callee::Aggregation { op, grouping: None } => {
            Ok(Mode::Aggregating(Aggregating::Aggregated { op, args }))
        }
    }
}

/// The last argument ends.
fn arguments_closed(
    alloc: Global,
    callee: Callee,
    args: Option<Arguments>,
    arg: Option<Measured>,
) -> Result<Mode, OutOfMemory>
    ensures { IfOk result (λ m. mode_of m ≡ called callee (with_argument args arg)) }
{
    let args = with_argument(args, arg)?;
    called(alloc, callee, args)
}

fn closed(
    alloc: Global,
    arg: Option<Measured>,
    stack: &mut Stack,
) -> Result<Option<Mode>, OutOfMemory>
    ensures { IfOk result (λ m. Leads m stack.new (closed arg stack.old)) }
{
    match stack.pop() {
        Some(Frame::Bracket) => Ok(Some(Mode::Whole { arg })),
        Some(Frame::Calling { callee, args }) => {
            let mode = arguments_closed(alloc, callee, args, arg)?;
            Ok(Some(mode))
        }
        _ => Ok(None),
    }
}

/// Another argument is due.
fn argument_due(
    callee: Callee,
    args: Option<Arguments>,
    arg: Option<Measured>,
    stack: &mut Stack,
) -> Result<Option<Mode>, OutOfMemory>
    ensures { IfOk result (λ m. Leads m stack.new (to due (calling callee (with_argument args arg) ∷ stack.old))) }
{
    let args = with_argument(args, arg)?;
    stack.push(Frame::Calling { callee, args })?;
    Ok(Some(Mode::Due))
}

fn separated(arg: Option<Measured>, stack: &mut Stack) -> Result<Option<Mode>, OutOfMemory>
    ensures { IfOk result (λ m. Leads m stack.new (separated arg stack.old)) }
{
    match stack.pop() {
        Some(Frame::Calling { callee, args }) => argument_due(callee, args, arg, stack),
        _ => Ok(None),
    }
}

/// A whole operand before a lexeme.
pub fn whole_step(
    alloc: Global,
    arg: Option<Measured>,
    stack: &mut Stack,
    lexeme: &Lexeme,
) -> Result<Option<Mode>, OutOfMemory>
    ensures { IfOk result (λ m. Leads m stack.new (whole_step arg stack.old (seen lexeme.now))) }
{
    match lexeme.follow() {
        Follow::Operates { sign } => {
            let left = settle(alloc, level_of(sign), arg, stack)?;
            let op = BinaryOp {
                sign,
                with_bool: false,
            };
            Ok(Some(Mode::Operating(Operating::Operated { op, left })))
        }
        Follow::OpensSquare => Ok(Some(Mode::Ranging(Ranging::RangeDue {
            base: Base::Operand { arg },
        }))),
        Follow::Separates => {
            let arg = settle(alloc, LAST_LEVEL, arg, stack)?;
            separated(arg, stack)
        }
        Follow::Closes => {
            let arg = settle(alloc, LAST_LEVEL, arg, stack)?;
            closed(alloc, arg, stack)
        }
        Follow::Stops => Ok(None),
    }
}

/// What is held of a text that ends behind a whole operand, where nothing but signs and operators is open.
pub fn whole_end(
    alloc: Global,
    arg: Option<Measured>,
    stack: &mut Stack,
) -> Result<Option<Option<Measured>>, OutOfMemory>
    ensures { IfOk result (λ e. e ≡ whole_ends arg stack.old) }
{
    let arg = settle(alloc, LAST_LEVEL, arg, stack)?;
    match stack.pop() {
        None => Ok(Some(arg)),
        Some(_) => Ok(None),
    }
}
