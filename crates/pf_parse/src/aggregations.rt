//! Aggregations, and labels in brackets.

ghost use Rattle.std.specs.Prelude.{◌≡◌, ◌∷◌, ◌++◌, [], IfOk, Some, not};
ghost use Rattle.pf_model.specs.Grammar.{has_colon};
ghost use Rattle.pf_parse.specs.Held.{held_aggregate};
ghost use Rattle.pf_parse.specs.Lexemes.{seen};
ghost use Rattle.pf_parse.specs.Reading.{aggregated_step, arguments_step, aggregation, by_none, calling, clause_step, due, ends, labelled, labelled_step, labels_open_step, labels_read, labels_step, step, to, to_if};
ghost use Rattle.pf_parse.specs.Stacks.{aggregating_mode, labelling_mode, Leads, Stays};

use crate::held::{Arguments, Measured, aggregate, no_arguments};
use crate::keyword::Keyword;
use crate::lexeme::Lexeme;
use crate::mode::{
    Aggregating, Callee, Frame, LabelList, Labelling, Mode, Operating, Operation, Purpose,
};
use crate::operands::{whole_end, whole_step};
use crate::selectors::has_colon;
use crate::stack::Stack;
use pf_base::{OutOfMemory, Text};
use pf_lex::Mark;
use pf_model::{AggOp, Grouping, Matching, Side};
use std::alloc::Global;

/// The bracket of an aggregation's arguments.
fn arguments_due(
    alloc: Global,
    op: AggOp,
    grouping: Option<Grouping>,
    stack: &mut Stack,
) -> Result<Option<Mode>, OutOfMemory>
    ensures { IfOk result (λ m. Leads m stack.new (to due (calling (aggregation op grouping) (Some []) ∷ stack.old))) }
{
    stack.push(Frame::Calling {
        callee: Callee::Aggregation { op, grouping },
        args: Some(no_arguments(alloc)),
    })?;
    Ok(Some(Mode::Due))
}

fn clause_step(
    alloc: Global,
    op: AggOp,
    stack: &mut Stack,
    lexeme: Lexeme,
) -> Result<Option<Mode>, OutOfMemory>
    ensures { IfOk result (λ m. Leads m stack.new (clause_step op stack.old (seen lexeme.entry))) }
{
    match lexeme {
        Lexeme::Word {
            keyword: Some(Keyword::Clause { without }),
            ..
        } => Ok(Some(Mode::Labelling(Labelling::BracketDue {
            purpose: Purpose::GroupsNext { op, without },
        }))),
        Lexeme::Mark { mark: Mark::Open } => arguments_due(alloc, op, None, stack),
        _ => Ok(None),
    }
}

fn arguments_step(
    alloc: Global,
    op: AggOp,
    grouping: Grouping,
    stack: &mut Stack,
    lexeme: Lexeme,
) -> Result<Option<Mode>, OutOfMemory>
    ensures { IfOk result (λ m. Leads m stack.new (arguments_step op grouping stack.old (seen lexeme.entry))) }
{
    match lexeme {
        Lexeme::Mark { mark: Mark::Open } => arguments_due(alloc, op, Some(grouping), stack),
        _ => Ok(None),
    }
}

/// `by ()`
fn by_none(alloc: Global) -> Grouping
    ensures { result ≡ by_none }
{
    Grouping {
        without: false,
        labels: Vec::new(alloc),
    }
}

/// An aggregation without a clause.
fn plain_aggregate(
    alloc: Global,
    op: AggOp,
    args: Option<Arguments>,
) -> Result<Option<Measured>, OutOfMemory>
    ensures { IfOk result (λ e. e ≡ held_aggregate op by_none args) }
{
    aggregate(alloc, op, by_none(alloc), args)
}

fn aggregated_step(
    alloc: Global,
    op: AggOp,
    args: Option<Arguments>,
    stack: &mut Stack,
    lexeme: Lexeme,
) -> Result<Option<Mode>, OutOfMemory>
    ensures { IfOk result (λ m. Leads m stack.new (aggregated_step op args stack.old (seen lexeme.entry))) }
{
    match lexeme {
        Lexeme::Word {
            keyword: Some(Keyword::Clause { without }),
            ..
        } => Ok(Some(Mode::Labelling(Labelling::BracketDue {
            purpose: Purpose::Groups { op, args, without },
        }))),
        lexeme => {
            let arg = plain_aggregate(alloc, op, args)?;
            whole_step(alloc, arg, stack, &lexeme)
        }
    }
}

/// A token of an aggregation.
pub fn aggregating_step(
    alloc: Global,
    aggregating: Aggregating,
    stack: &mut Stack,
    lexeme: Lexeme,
) -> Result<Option<Mode>, OutOfMemory>
    ensures { IfOk result (λ m. Leads m stack.new (step (aggregating_mode aggregating) stack.old (seen lexeme.entry))) }
{
    match aggregating {
        Aggregating::ClauseDue { op } => clause_step(alloc, op, stack, lexeme),
        Aggregating::ArgumentsDue { op, grouping } => {
            arguments_step(alloc, op, grouping, stack, lexeme)
        }
        Aggregating::Aggregated { op, args } => aggregated_step(alloc, op, args, stack, lexeme),
    }
}

/// What is held where the text ends with an aggregation.
pub fn aggregating_end(
    alloc: Global,
    aggregating: Aggregating,
    stack: &mut Stack,
) -> Result<Option<Option<Measured>>, OutOfMemory>
    ensures { IfOk result (λ e. e ≡ ends (aggregating_mode aggregating) stack.old) }
{
    match aggregating {
        Aggregating::Aggregated { op, args } => {
            let arg = plain_aggregate(alloc, op, args)?;
            whole_end(alloc, arg, stack)
        }
        Aggregating::ClauseDue { .. } | Aggregating::ArgumentsDue { .. } => Ok(None),
    }
}

/// The labels are whole.
fn labels_read(
    alloc: Global,
    purpose: Purpose,
    labels: LabelList,
    stack: &mut Stack,
) -> Result<Option<Mode>, OutOfMemory>
    ensures { IfOk result (λ m. Leads m stack.new (Some (labels_read purpose labels stack.old))) }
{
    match purpose {
        Purpose::GroupsNext { op, without } => {
            let grouping = Grouping {
                without,
                labels: labels.labels,
            };
            Ok(Some(Mode::Aggregating(Aggregating::ArgumentsDue { op, grouping })))
        }
        Purpose::Groups { op, args, without } => {
            let grouping = Grouping {
                without,
                labels: labels.labels,
            };
            Ok(Some(Mode::Whole {
                arg: aggregate(alloc, op, grouping, args)?,
            }))
        }
        Purpose::Matches { op, left, on } => {
            let matching = Matching {
                on,
                labels: labels.labels,
                side: Side::One,
                include: Vec::new(alloc),
            };
            Ok(Some(Mode::Operating(Operating::Keyed(Operation { op, matching, left }))))
        }
        Purpose::Includes { op, matching, left } => {
            let matching = Matching {
                on: matching.on,
                labels: matching.labels,
                side: matching.side,
                include: labels.labels,
            };
            stack.push(Frame::Left { op, matching, left })?;
            Ok(Some(Mode::Due))
        }
    }
}

fn labels_open_step(alloc: Global, purpose: Purpose, lexeme: Lexeme) -> Option<Mode>
    ensures { Stays result (λ k. labels_open_step purpose k (seen lexeme.entry)) }
{
    match lexeme {
        Lexeme::Mark { mark: Mark::Open } => Some(Mode::Labelling(Labelling::LabelDue {
            purpose,
            labels: LabelList {
                labels: Vec::new(alloc),
            },
        })),
        _ => None,
    }
}

/// Labels with another behind them.
fn with_label(alloc: Global, labels: LabelList, label: &str) -> Result<LabelList, OutOfMemory>
    ensures { IfOk result (λ l. l ≡ labels ++ (label.now ∷ [])) }
{
    let mut labels = labels.labels;
    labels.push(Text::of(alloc, label)?)?;
    Ok(LabelList { labels })
}

/// A word where a label is due.
fn label_read(
    alloc: Global,
    purpose: Purpose,
    labels: LabelList,
    word: &str,
) -> Result<Option<Mode>, OutOfMemory>
    ensures { IfOk result (λ m. Stays m (to_if (not (has_colon word.now)) (labelled purpose (labels ++ (word.now ∷ []))))) }
{
    if has_colon(word) {
        return Ok(None);
    }
    let labels = with_label(alloc, labels, word)?;
    Ok(Some(Mode::Labelling(Labelling::CommaDue { purpose, labels })))
}

fn labels_step(
    alloc: Global,
    purpose: Purpose,
    labels: LabelList,
    stack: &mut Stack,
    lexeme: Lexeme,
) -> Result<Option<Mode>, OutOfMemory>
    ensures { IfOk result (λ m. Leads m stack.new (labels_step purpose labels stack.old (seen lexeme.entry))) }
{
    match lexeme {
        Lexeme::Word { text, .. } => label_read(alloc, purpose, labels, text),
        Lexeme::Mark { mark: Mark::Close } => labels_read(alloc, purpose, labels, stack),
        _ => Ok(None),
    }
}

fn labelled_step(
    alloc: Global,
    purpose: Purpose,
    labels: LabelList,
    stack: &mut Stack,
    lexeme: Lexeme,
) -> Result<Option<Mode>, OutOfMemory>
    ensures { IfOk result (λ m. Leads m stack.new (labelled_step purpose labels stack.old (seen lexeme.entry))) }
{
    match lexeme {
        Lexeme::Mark { mark: Mark::Comma } => Ok(Some(Mode::Labelling(Labelling::LabelDue {
            purpose,
            labels,
        }))),
        Lexeme::Mark { mark: Mark::Close } => labels_read(alloc, purpose, labels, stack),
        _ => Ok(None),
    }
}

/// A token of labels in brackets.
pub fn labelling_step(
    alloc: Global,
    labelling: Labelling,
    stack: &mut Stack,
    lexeme: Lexeme,
) -> Result<Option<Mode>, OutOfMemory>
    ensures { IfOk result (λ m. Leads m stack.new (step (labelling_mode labelling) stack.old (seen lexeme.entry))) }
{
    match labelling {
        Labelling::BracketDue { purpose } => Ok(labels_open_step(alloc, purpose, lexeme)),
        Labelling::LabelDue { purpose, labels } => {
            labels_step(alloc, purpose, labels, stack, lexeme)
        }
        Labelling::CommaDue { purpose, labels } => {
            labelled_step(alloc, purpose, labels, stack, lexeme)
        }
    }
}
