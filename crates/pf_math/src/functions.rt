//! Instant functions of one vector.

ghost use Rattle.std.specs.Prelude.{◌≡◌, ◌++◌, true, map, option_map, IfOk, OnErr, OnOk};
ghost use Rattle.std.specs.Arc.{arc_value};
ghost use Rattle.std.specs.Option.{option_copied};
ghost use Rattle.pf_model.specs.Cells.{cell_of, element, without_name};
ghost use Rattle.pf_model.specs.InstantFunctions.{absent_of, each_value, first_scalar, instant_function, only_value};
ghost use Rattle.pf_model.specs.Outcomes.{of_elements, step_cell};
ghost use Rattle.pf_math.specs.Arguments.{beside};
ghost use Rattle.pf_math.specs.EachValue.{changed, is_each_value};
ghost use Rattle.pf_math.specs.Relabelling.{has_lawful_target, is_relabelling, relabels};

use crate::args::Args;
use crate::cells::{cell_of, cell_of_scalar};
use crate::relabelling::Relabelling;
use crate::values::{Change, seconds};
use pf_base::{Labels, OutOfMemory, Value};
use pf_match::Pattern;
use pf_model::{Cell, Element, InstantFn, StepCell};
use std::alloc::Global;
use std::sync::Arc;

/// Pushes an element without the metric name, where there is a value. Pushes nothing on an error.
fn push_value(
    found: &mut Vec<Element>,
    from: &Element,
    value: Option<Value>,
) -> Result<(), OutOfMemory>
    ensures ok { OnOk result (found.new.items ≡ found.old.items ++ element (without_name from.now.labels) value) }
    ensures err { OnErr result (found.new.items ≡ found.old.items) }
{
    if let Some(value) = value {
        found.push(Element {
            labels: from.labels.without_name()?,
            value,
        })?;
    }
    Ok(())
}

/// The elements that a change gives, without their metric names.
fn changed_elements(
    alloc: Global,
    change: &Change,
    elements: &[Element],
) -> Result<Vec<Element>, OutOfMemory>
    ensures { IfOk result (λ v. v.items ≡ each_value (changed change.now) elements.now) }
{
    let mut found = Vec::new(alloc);
    for element in elements {
        push_value(&mut found, element, change.value(element.value))?;
    }
    Ok(found)
}

/// The elements with changed labels.
fn relabelled_elements(
    alloc: Global,
    mut relabelling: Relabelling<'_>,
    elements: &[Element],
) -> Result<Vec<Element>, OutOfMemory>
    ensures { IfOk result (λ v. v.items ≡ map (λ e. record { labels = relabels relabelling.entry e.labels; value = e.value }) elements.now) }
{
    let mut found = Vec::new(alloc);
    for element in elements {
        found.push(Element {
            labels: relabelling.labels(&element.labels)?,
            value: element.value,
        })?;
    }
    Ok(found)
}

/// A function of each element by itself.
#[tactic(auto, using(crate::proofs::Instants::each_cell_is))]
fn each_cell(
    alloc: Global,
    f: InstantFn,
    args: &Args,
    elements: &[Element],
) -> Result<StepCell, OutOfMemory>
    requires { is_each_value f ≡ true }
    ensures { IfOk result (λ c. c ≡ cell_of (instant_function f (beside args.now) elements.now)) }
{
    let Some(change) = Change::of(f, &args.scalars, args.time) else {
        unreachable!()
    };
    let found = changed_elements(alloc, &change, elements)?;
    let cell = cell_of(found)?;
    Ok(cell)
}

fn pattern_of(pattern: &Option<Arc<Pattern>>) -> Option<&Pattern>
    ensures { option_copied result ≡ option_map arc_value pattern.now }
{
    match pattern {
        Some(pattern) => Some(&**pattern),
        None => None,
    }
}

/// `label_replace` and `label_join`.
#[tactic(auto, using(crate::proofs::Instants::relabelled_cell_is))]
fn relabelled_cell(
    alloc: Global,
    f: InstantFn,
    args: &Args,
    elements: &[Element],
) -> Result<StepCell, OutOfMemory>
    requires function { is_relabelling f ≡ true }
    requires target { has_lawful_target f args.now.texts ≡ true }
    ensures { IfOk result (λ c. c ≡ cell_of (instant_function f (beside args.now) elements.now)) }
{
    let relabelling = Relabelling::of(alloc, f, &args.texts, pattern_of(&args.pattern))?;
    let found = relabelled_elements(alloc, relabelling, elements)?;
    let cell = cell_of(found)?;
    Ok(cell)
}

/// The labels with 1 where there is no element.
#[tactic(auto, using(crate::proofs::Signs::one_is))]
fn absent_cell(alloc: Global, labels: &Labels, elements: &[Element]) -> Result<Cell, OutOfMemory>
    ensures { IfOk result (λ c. c ≡ absent_of labels.now elements.now) }
{
    let mut found = Vec::new(alloc);
    if elements.is_empty() {
        found.push(Element {
            labels: labels.clone()?,
            value: Value::new(1_000_000),
        })?;
    }
    Ok(Cell { elements: found })
}

/// The value of the only element.
fn only_value(elements: &[Element]) -> Option<Value>
    ensures { result ≡ only_value elements.now }
{
    match elements {
        [element] => Some(element.value),
        _ => None,
    }
}

fn first_scalar(scalars: &[Option<Value>]) -> Option<Value>
    ensures { result ≡ first_scalar scalars.now }
{
    match scalars.first() {
        Some(scalar) => *scalar,
        None => None,
    }
}

/// What a function gives of a vector and of what stands beside it: a vector in label order, or the error `DoubleLabels`
/// where two of its elements have equal labels. The scalar that `scalar` and `time` give is one element without labels, or
/// none where it has no value. The target of `label_replace` and `label_join` has to be a label name. `timestamp` gives the
/// evaluation's time. Prometheus, Query functions; the forms in whole micros are this project's own.
#[tactic(auto, using(crate::proofs::Instants::each_outcome, crate::proofs::Instants::relabelled_outcome, crate::proofs::Instants::absent_outcome, crate::proofs::Instants::scalar_outcome, crate::proofs::Instants::time_outcome, crate::proofs::Instants::vector_outcome))]
pub fn instant(
    alloc: Global,
    f: InstantFn,
    args: &Args,
    cell: Cell,
) -> Result<StepCell, OutOfMemory>
    requires target { has_lawful_target f args.now.texts ≡ true }
    ensures { IfOk result (λ c. c ≡ step_cell (of_elements f (instant_function f (beside args.now) cell))) }
{
    let elements = &cell.elements;
    match f {
        InstantFn::Absent => Ok(StepCell::Good(absent_cell(alloc, &args.absent, elements)?)),
        InstantFn::Scalar => Ok(StepCell::Good(cell_of_scalar(alloc, only_value(elements))?)),
        InstantFn::Vector => Ok(StepCell::Good(cell_of_scalar(
            alloc,
            first_scalar(&args.scalars),
        )?)),
        InstantFn::Time => Ok(StepCell::Good(cell_of_scalar(alloc, Some(seconds(args.time)))?)),
        InstantFn::LabelReplace | InstantFn::LabelJoin => relabelled_cell(alloc, f, args, elements),
        InstantFn::Abs
        | InstantFn::Ceil
        | InstantFn::Floor
        | InstantFn::Sgn
        | InstantFn::Round
        | InstantFn::Clamp
        | InstantFn::ClampMin
        | InstantFn::ClampMax
        | InstantFn::Timestamp => each_cell(alloc, f, args, elements),
    }
}
