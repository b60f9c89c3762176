//! Binary operators and their labels.

ghost use Rattle.std.specs.Prelude.{◌≡◌, ◌&&◌, IfOk, not};
ghost use Rattle.pf_parse.specs.Lexemes.{seen};
ghost use Rattle.pf_model.specs.Words.{is_comparison};
ghost use Rattle.pf_parse.specs.Reading.{grouped_step, keyed_step, no_keys, operated, operated_step, right_step, step, to_if, with_bool, with_side};
ghost use Rattle.pf_parse.specs.Stacks.{operating_mode, Leads, Stays};

use crate::held::Measured;
use crate::keyword::Keyword;
use crate::lexeme::Lexeme;
use crate::mode::{Frame, LabelList, Labelling, Mode, Operating, Operation, Purpose};
use crate::operands::due_step;
use crate::stack::Stack;
use crate::words::is_comparison;
use pf_base::OutOfMemory;
use pf_lex::Mark;
use pf_model::{BinaryOp, Matching, Side};
use std::alloc::Global;

/// `ignoring ()`
fn no_keys(alloc: Global) -> Matching
    ensures { result ≡ no_keys }
{
    Matching {
        on: false,
        labels: Vec::new(alloc),
        side: Side::One,
        include: Vec::new(alloc),
    }
}

/// The right operand begins.
fn right_step(
    alloc: Global,
    operation: Operation,
    stack: &mut Stack,
    lexeme: Lexeme,
) -> Result<Option<Mode>, OutOfMemory>
    ensures { IfOk result (λ m. Leads m stack.new (right_step operation.op operation.matching operation.left stack.old (seen lexeme.entry))) }
{
    stack.push(Frame::Left {
        op: operation.op,
        matching: operation.matching,
        left: operation.left,
    })?;
    due_step(alloc, stack, lexeme)
}

fn with_bool(op: BinaryOp, left: Option<Measured>) -> Option<Mode>
    ensures { Stays result (to_if (is_comparison op.sign && not op.with_bool) (operated (with_bool op) left)) }
{
    if op.with_bool || !is_comparison(op.sign) {
        return None;
    }
    let op = BinaryOp {
        sign: op.sign,
        with_bool: true,
    };
    Some(Mode::Operating(Operating::Operated { op, left }))
}

fn operated_step(
    alloc: Global,
    op: BinaryOp,
    left: Option<Measured>,
    stack: &mut Stack,
    lexeme: Lexeme,
) -> Result<Option<Mode>, OutOfMemory>
    ensures { IfOk result (λ m. Leads m stack.new (operated_step op left stack.old (seen lexeme.entry))) }
{
    match lexeme {
        Lexeme::Word {
            keyword: Some(Keyword::Bool),
            ..
        } => Ok(with_bool(op, left)),
        Lexeme::Word {
            keyword: Some(Keyword::Keys { on }),
            ..
        } => Ok(Some(Mode::Labelling(Labelling::BracketDue {
            purpose: Purpose::Matches { op, left, on },
        }))),
        lexeme => {
            let matching = no_keys(alloc);
            right_step(alloc, Operation { op, matching, left }, stack, lexeme)
        }
    }
}

fn with_side(alloc: Global, matching: Matching, is_left: bool) -> Matching
    ensures { result ≡ with_side matching is_left }
{
    Matching {
        on: matching.on,
        labels: matching.labels,
        side: if is_left { Side::Left } else { Side::Right },
        include: Vec::new(alloc),
    }
}

fn keyed_step(
    alloc: Global,
    operation: Operation,
    stack: &mut Stack,
    lexeme: Lexeme,
) -> Result<Option<Mode>, OutOfMemory>
    ensures { IfOk result (λ m. Leads m stack.new (keyed_step operation.op operation.matching operation.left stack.old (seen lexeme.entry))) }
{
    match lexeme {
        Lexeme::Word {
            keyword: Some(Keyword::Group { left: is_left }),
            ..
        } => Ok(Some(Mode::Operating(Operating::Grouped(Operation {
            op: operation.op,
            matching: with_side(alloc, operation.matching, is_left),
            left: operation.left,
        })))),
        lexeme => right_step(alloc, operation, stack, lexeme),
    }
}

fn grouped_step(
    alloc: Global,
    operation: Operation,
    stack: &mut Stack,
    lexeme: Lexeme,
) -> Result<Option<Mode>, OutOfMemory>
    ensures { IfOk result (λ m. Leads m stack.new (grouped_step operation.op operation.matching operation.left stack.old (seen lexeme.entry))) }
{
    match lexeme {
        Lexeme::Mark { mark: Mark::Open } => Ok(Some(Mode::Labelling(Labelling::LabelDue {
            purpose: Purpose::Includes {
                op: operation.op,
                matching: operation.matching,
                left: operation.left,
            },
            labels: LabelList {
                labels: Vec::new(alloc),
            },
        }))),
        lexeme => right_step(alloc, operation, stack, lexeme),
    }
}

/// A token behind a binary operator.
pub fn operating_step(
    alloc: Global,
    operating: Operating,
    stack: &mut Stack,
    lexeme: Lexeme,
) -> Result<Option<Mode>, OutOfMemory>
    ensures { IfOk result (λ m. Leads m stack.new (step (operating_mode operating) stack.old (seen lexeme.entry))) }
{
    match operating {
        Operating::Operated { op, left } => operated_step(alloc, op, left, stack, lexeme),
        Operating::Keyed(operation) => keyed_step(alloc, operation, stack, lexeme),
        Operating::Grouped(operation) => grouped_step(alloc, operation, stack, lexeme),
    }
}
