//! The elements of each group that `topk` and `bottomk` keep.

ghost use Rattle.std.specs.Prelude.{◌≡◌, ◌++◌, map, take, IfOk, OnOk};
ghost use Rattle.pf_base.specs.Sorting.{isort};
ghost use Rattle.pf_model.specs.Aggregation.{falling, rising, whole_units};
ghost use Rattle.pf_model.specs.Cells.{in_label_order};
ghost use Rattle.pf_model.specs.Lists.{joined};
ghost use Rattle.pf_agg.specs.Ranks.{by_value, order_of};

use pf_base::{OutOfMemory, Value};
use pf_model::{Cell, Element};
use std::alloc::Global;
use std::cmp::Ordering;

/// The order in which the elements of a group are kept: by value, and label order among equal values.
#[derive(Clone, Copy)]
pub enum Rank {
    Falling,
    Rising,
}

fn by_value(rank: Rank, a: Value, b: Value) -> Ordering
    ensures { result ≡ by_value rank a b }
{
    match rank {
        Rank::Falling => a.micros().cmp(&b.micros()).reverse(),
        Rank::Rising => a.micros().cmp(&b.micros()),
    }
}

fn compare(rank: Rank, a: &Element, b: &Element) -> Ordering
    ensures { result ≡ order_of rank a.now b.now }
{
    match by_value(rank, a.value, b.value) {
        Ordering::Equal => a.labels.cmp(&b.labels),
        order => order,
    }
}

fn in_falling_order(mut elements: Vec<&Element>) -> Result<Vec<&Element>, OutOfMemory>
    ensures { IfOk result (λ v. map (λ e. e.now) v.items ≡ isort falling (map (λ e. e.now) elements.entry.items)) }
{
    elements.sort_by(|a, b| compare(Rank::Falling, a, b))?;
    Ok(elements)
}

fn in_rising_order(mut elements: Vec<&Element>) -> Result<Vec<&Element>, OutOfMemory>
    ensures { IfOk result (λ v. map (λ e. e.now) v.items ≡ isort rising (map (λ e. e.now) elements.entry.items)) }
{
    elements.sort_by(|a, b| compare(Rank::Rising, a, b))?;
    Ok(elements)
}

fn in_order(rank: Rank, elements: Vec<&Element>) -> Result<Vec<&Element>, OutOfMemory>
    ensures { IfOk result (λ v. map (λ e. e.now) v.items ≡ isort (order_of rank) (map (λ e. e.now) elements.entry.items)) }
{
    match rank {
        Rank::Falling => in_falling_order(elements),
        Rank::Rising => in_rising_order(elements),
    }
}

fn copied<'a>(alloc: Global, elements: &[&'a Element]) -> Result<Vec<&'a Element>, OutOfMemory>
    ensures { IfOk result (λ v. v.items ≡ elements.now) }
{
    Ok(Vec::from_slice(alloc, elements)?)
}

/// The elements in the order of a rank.
fn ranked<'a>(
    alloc: Global,
    rank: Rank,
    elements: &[&'a Element],
) -> Result<Vec<&'a Element>, OutOfMemory>
    ensures { IfOk result (λ v. map (λ e. e.now) v.items ≡ isort (order_of rank) (map (λ e. e.now) elements.now)) }
{
    let found = copied(alloc, elements)?;
    in_order(rank, found)
}

/// Pushes copies of some elements.
fn push_all(found: &mut Vec<Element>, elements: &[&Element]) -> Result<(), OutOfMemory>
    ensures { OnOk result (found.new.items ≡ found.old.items ++ map (λ e. e.now) elements.now) }
{
    for element in elements {
        found.push(Element {
            labels: element.labels.clone()?,
            value: element.value,
        })?;
    }
    Ok(())
}

/// Pushes copies of the first so many of some elements.
#[tactic(auto, using(crate::proofs::Planned::first_copied))]
fn push_some(
    found: &mut Vec<Element>,
    most: usize,
    elements: &[&Element],
) -> Result<(), OutOfMemory>
    ensures { OnOk result (found.new.items ≡ found.old.items ++ take most (map (λ e. e.now) elements.now)) }
{
    let count = most.min(elements.len());
    push_all(found, &elements[..count])?;
    Ok(())
}

/// Pushes the first so many elements of a group.
fn push_first(
    alloc: Global,
    found: &mut Vec<Element>,
    rank: Rank,
    most: usize,
    elements: &[&Element],
) -> Result<(), OutOfMemory>
    ensures { OnOk result (found.new.items ≡ found.old.items ++ take most (isort (order_of rank) (map (λ e. e.now) elements.now))) }
{
    let ranked = ranked(alloc, rank, elements)?;
    push_some(found, most, &ranked)?;
    Ok(())
}

fn in_label_order(mut elements: Vec<Element>) -> Result<Cell, OutOfMemory>
    ensures { IfOk result (λ c. c ≡ in_label_order elements.items) }
{
    elements.sort_by(|a, b| a.labels.cmp(&b.labels))?;
    Ok(Cell { elements })
}

/// The whole units of a value, none below zero.
pub(crate) fn whole_units(value: Value) -> usize
    ensures { result ≡ whole_units value }
{
    if value.micros() < 0 {
        return 0;
    }
    (value.micros() / 1_000_000) as usize
}

/// The first so many elements of each group, in label order.
pub(crate) fn first_of_each(
    alloc: Global,
    rank: Rank,
    most: usize,
    buckets: &[Vec<&Element>],
) -> Result<Cell, OutOfMemory>
    ensures { IfOk result (λ c. c ≡ in_label_order (joined (λ es. take most (isort (order_of rank) es)) (map (λ b. map (λ e. e.now) b.items) buckets.now))) }
{
    let mut found = Vec::new(alloc);
    for bucket in buckets {
        push_first(alloc, &mut found, rank, most, bucket)?;
    }
    in_label_order(found)
}
