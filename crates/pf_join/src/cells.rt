//! Vectors in label order, and equal label sets.

ghost use Rattle.std.specs.Prelude.{◌≡◌, IfOk};
ghost use Rattle.pf_base.specs.LabelOrder.{labels_cmp};
ghost use Rattle.pf_base.specs.Sorting.{isort};
ghost use Rattle.pf_model.specs.Cells.{cell_of, has_equal, in_label_order};
ghost use Rattle.pf_model.specs.Selection.{same_labels};
ghost use Rattle.pf_join.specs.Neighbours.{repeats};

use pf_base::{Labels, OutOfMemory};
use pf_model::{Cell, Element, ErrorKind, StepCell};

#[tactic(auto, using(pf_base::specs::LabelOrder::labels_ties))]
pub(crate) fn is_same(labels: &Labels, other: &Labels) -> bool
    ensures { result ≡ same_labels labels.now other.now }
{
    labels == other
}

/// Whether two neighbours have equal labels.
fn repeats_labels(elements: &[Element]) -> bool
    ensures { result ≡ repeats (λ e. e.labels) elements.now }
{
    let mut last: Option<&Labels> = None;
    for element in elements {
        if let Some(last) = last {
            if is_same(last, &element.labels) {
                return true;
            }
        }
        last = Some(&element.labels);
    }
    false
}

fn in_label_order(mut elements: Vec<Element>) -> Result<Vec<Element>, OutOfMemory>
    ensures { IfOk result (λ v. v.items ≡ in_label_order elements.items) }
{
    elements.sort_by(|a, b| a.labels.cmp(&b.labels))?;
    Ok(elements)
}

/// What a node gives of its elements in any order: a vector in label order, or the error `DoubleLabels` where two have
/// equal labels.
#[tactic(auto, using(crate::proofs::Repeats::bad_cell, crate::proofs::Repeats::good_cell))]
pub(crate) fn cell_of(elements: Vec<Element>) -> Result<StepCell, OutOfMemory>
    ensures { IfOk result (λ c. c ≡ cell_of elements.items) }
{
    let elements = in_label_order(elements)?;
    if repeats_labels(&elements) {
        return Ok(StepCell::Bad(ErrorKind::DoubleLabels));
    }
    Ok(StepCell::Good(Cell { elements }))
}

/// Whether two neighbours are equal.
fn repeats(sets: &[Labels]) -> bool
    ensures { result ≡ repeats (λ l. l) sets.now }
{
    let mut last: Option<&Labels> = None;
    for labels in sets {
        if let Some(last) = last {
            if is_same(last, labels) {
                return true;
            }
        }
        last = Some(labels);
    }
    false
}

fn in_order(mut sets: Vec<Labels>) -> Result<Vec<Labels>, OutOfMemory>
    ensures { IfOk result (λ v. v.items ≡ isort labels_cmp sets.items) }
{
    sets.sort()?;
    Ok(sets)
}

/// Whether two of some label sets are equal.
#[tactic(auto, using(crate::proofs::Repeats::sets_repeat))]
pub fn has_equal(sets: Vec<Labels>) -> Result<bool, OutOfMemory>
    ensures { IfOk result (λ b. b ≡ has_equal sets.items) }
{
    let sorted = in_order(sets)?;
    Ok(repeats(&sorted))
}
