//! Vectors in label order.

ghost use Rattle.std.specs.Prelude.{◌≡◌, [], IfOk};
ghost use Rattle.pf_model.specs.Cells.{cell_of, element, in_label_order};
ghost use Rattle.pf_model.specs.Selection.{same_labels};
ghost use Rattle.pf_math.specs.Neighbours.{repeats_labels};

use pf_base::{Labels, OutOfMemory, Value};
use pf_model::{Cell, Element, ErrorKind, StepCell};
use std::alloc::Global;

#[tactic(auto, using(pf_base::specs::LabelOrder::labels_ties))]
fn is_same(labels: &Labels, other: &Labels) -> bool
    ensures { result ≡ same_labels labels.now other.now }
{
    labels == other
}

/// Whether two neighbours have equal labels.
fn repeats_labels(elements: &[Element]) -> bool
    ensures { result ≡ repeats_labels elements.now }
{
    let mut last: Option<&Labels> = None;
    for element in elements {
        if let Some(last) = last {
            if is_same(last, &element.labels) {
                return true;
            }
        }
        last = Some(&element.labels);
    }
    false
}

fn in_label_order(mut elements: Vec<Element>) -> Result<Vec<Element>, OutOfMemory>
    ensures { IfOk result (λ v. v.items ≡ in_label_order elements.items) }
{
    elements.sort_by(|a, b| a.labels.cmp(&b.labels))?;
    Ok(elements)
}

/// What a node gives of its elements in any order: a vector in label order, or the error `DoubleLabels` where two have
/// equal labels.
#[tactic(auto, using(crate::proofs::Repeats::bad_cell, crate::proofs::Repeats::good_cell))]
pub(crate) fn cell_of(elements: Vec<Element>) -> Result<StepCell, OutOfMemory>
    ensures { IfOk result (λ c. c ≡ cell_of elements.items) }
{
    let elements = in_label_order(elements)?;
    if repeats_labels(&elements) {
        return Ok(StepCell::Bad(ErrorKind::DoubleLabels));
    }
    Ok(StepCell::Good(Cell { elements }))
}

pub(crate) fn no_labels(alloc: Global) -> Result<Labels, OutOfMemory>
    ensures { IfOk result (λ l. l ≡ []) }
{
    Labels::build(alloc, Vec::new(alloc)).map_err(|_| OutOfMemory)
}

/// A scalar as an element without labels, or none.
pub(crate) fn cell_of_scalar(alloc: Global, value: Option<Value>) -> Result<Cell, OutOfMemory>
    ensures { IfOk result (λ c. c ≡ element [] value) }
{
    let mut elements = Vec::new(alloc);
    if let Some(value) = value {
        elements.push(Element {
            labels: no_labels(alloc)?,
            value,
        })?;
    }
    Ok(Cell { elements })
}
