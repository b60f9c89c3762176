//! Binary operators of two vectors.

ghost use Rattle.std.specs.Prelude.{◌≡◌, ◌∷◌, ◌++◌, true, not, map, filter, IfOk, OnOk};
ghost use Rattle.std.specs.List.{list_all};
ghost use Rattle.pf_base.specs.LabelChanges.{left_out, metric_name};
ghost use Rattle.pf_base.specs.LabelSets.{is_label_name};
ghost use Rattle.pf_base.specs.Sorting.{isort};
ghost use Rattle.pf_model.specs.Cells.{has_equal};
ghost use Rattle.pf_model.specs.Lists.{joined};
ghost use Rattle.pf_model.specs.Matching.{has_match, is_grouping, join, joined_pairs, matching_key, taking};
ghost use Rattle.pf_join.specs.KeyedElements.{has_double, has_key, joined_keyed, key_of, keyed, keyed_cmp, keyed_of, keyed_results, shared_keys, those_with, those_without};
ghost use Rattle.pf_join.specs.Results.{cell_of_results, elements_of, labels_of_pair, result_of};

use crate::cells::{cell_of, has_equal};
use crate::keys::{KeyIndex, Keyed};
use pf_base::{Labels, OutOfMemory, Text, Value};
use pf_math::{operated, result_labels};
use pf_model::{BinaryOp, Cell, Element, ErrorKind, Matching, Side, Sign, StepCell};
use std::alloc::Global;

/// What a pair gives: its labels, and its value where it has one.
#[derive(Drop)]
struct Joined {
    labels: Labels,
    value: Option<Value>,
}

/// The labels of other names than these, without the metric name.
#[tactic(auto, using(pf_model::proofs::WithoutName::left_without_name))]
fn others_left(labels: &Labels, names: &[Text]) -> Result<Labels, OutOfMemory>
    ensures { IfOk result (λ l. l ≡ left_out (metric_name ∷ names.now) labels.now) }
{
    let others = labels.without_name()?;
    if names.is_empty() {
        return Ok(others);
    }
    others.leave_out(names)
}

/// What has to be equal for two elements to match: the labels of `on`, or all but those of `ignoring` and the metric name.
/// Prometheus, Operators: Vector matching.
pub fn matching_key(matching: &Matching, labels: &Labels) -> Result<Labels, OutOfMemory>
    ensures { IfOk result (λ l. l ≡ matching_key matching.now labels.now) }
{
    if matching.on {
        labels.keep(&matching.labels)
    } else {
        others_left(labels, &matching.labels)
    }
}

fn copy_of(element: &Element) -> Result<Element, OutOfMemory>
    ensures { IfOk result (λ e. e ≡ element.now) }
{
    Ok(Element {
        labels: element.labels.clone()?,
        value: element.value,
    })
}

fn keyed_of(matching: &Matching, element: &Element) -> Result<Keyed, OutOfMemory>
    ensures { IfOk result (λ x. x ≡ keyed_of matching.now element.now) }
{
    Ok(Keyed {
        key: matching_key(matching, &element.labels)?,
        element: copy_of(element)?,
    })
}

/// Elements with their keys.
fn keyed(
    alloc: Global,
    matching: &Matching,
    elements: &[Element],
) -> Result<Vec<Keyed>, OutOfMemory>
    ensures { IfOk result (λ v. v.items ≡ keyed matching.now elements.now) }
{
    let mut found = Vec::new(alloc);
    for element in elements {
        found.push(keyed_of(matching, element)?)?;
    }
    Ok(found)
}

/// Elements in the order of their keys.
fn index_of(
    alloc: Global,
    matching: &Matching,
    elements: &[Element],
) -> Result<KeyIndex, OutOfMemory>
    ensures { IfOk result (λ x. x ≡ isort keyed_cmp (keyed matching.now elements.now)) }
{
    let entries = keyed(alloc, matching, elements)?;
    KeyIndex::of(entries)
}

fn has_match(matching: &Matching, others: &KeyIndex, element: &Element) -> Result<bool, OutOfMemory>
    ensures { IfOk result (λ b. b ≡ has_key (matching_key matching.now element.now.labels) others.now) }
{
    let key = matching_key(matching, &element.labels)?;
    Ok(others.has_key(&key))
}

/// The elements whose key is one of the others'.
fn those_with(
    alloc: Global,
    matching: &Matching,
    others: &KeyIndex,
    elements: &[Element],
) -> Result<Vec<Element>, OutOfMemory>
    ensures { IfOk result (λ v. v.items ≡ those_with matching.now others.now elements.now) }
{
    let mut found = Vec::new(alloc);
    for element in elements {
        if has_match(matching, others, element)? {
            found.push(copy_of(element)?)?;
        }
    }
    Ok(found)
}

/// Pushes the elements whose key is none of the others'.
fn push_those_without(
    found: &mut Vec<Element>,
    matching: &Matching,
    others: &KeyIndex,
    elements: &[Element],
) -> Result<(), OutOfMemory>
    ensures { OnOk result (found.new.items ≡ found.old.items ++ those_without matching.now others.now elements.now) }
{
    for element in elements {
        if !has_match(matching, others, element)? {
            found.push(copy_of(element)?)?;
        }
    }
    Ok(())
}

/// The elements that match one of the others.
#[tactic(auto, using(crate::proofs::KeyedJoins::those_with_is))]
fn matched(
    alloc: Global,
    matching: &Matching,
    others: &[Element],
    elements: &[Element],
) -> Result<Vec<Element>, OutOfMemory>
    ensures { IfOk result (λ v. v.items ≡ filter (has_match matching.now others.now) elements.now) }
{
    let index = index_of(alloc, matching, others)?;
    those_with(alloc, matching, &index, elements)
}

fn copies_of(alloc: Global, elements: &[Element]) -> Result<Vec<Element>, OutOfMemory>
    ensures { IfOk result (λ v. v.items ≡ elements.now) }
{
    let mut found = Vec::new(alloc);
    for element in elements {
        found.push(copy_of(element)?)?;
    }
    Ok(found)
}

/// Some elements, and behind them those of others whose key is none of theirs.
fn both_of(
    alloc: Global,
    matching: &Matching,
    index: &KeyIndex,
    lefts: &[Element],
    rights: &[Element],
) -> Result<Vec<Element>, OutOfMemory>
    ensures { IfOk result (λ v. v.items ≡ lefts.now ++ those_without matching.now index.now rights.now) }
{
    let mut found = copies_of(alloc, lefts)?;
    push_those_without(&mut found, matching, index, rights)?;
    Ok(found)
}

/// The left elements, and behind them the right ones that match none of these.
fn either(
    alloc: Global,
    matching: &Matching,
    lefts: &[Element],
    rights: &[Element],
) -> Result<Vec<Element>, OutOfMemory>
    ensures { IfOk result (λ v. v.items ≡ lefts.now ++ filter (λ r. not (has_match matching.now lefts.now r)) rights.now) }
{
    let index = index_of(alloc, matching, lefts)?;
    let found = both_of(alloc, matching, &index, lefts, rights)?;
    Ok(found)
}

/// The elements whose key is none of the others'.
fn those_without(
    alloc: Global,
    matching: &Matching,
    others: &KeyIndex,
    elements: &[Element],
) -> Result<Vec<Element>, OutOfMemory>
    ensures { IfOk result (λ v. v.items ≡ those_without matching.now others.now elements.now) }
{
    let mut found = Vec::new(alloc);
    push_those_without(&mut found, matching, others, elements)?;
    Ok(found)
}

/// The left elements that match none of the right ones.
fn unless(
    alloc: Global,
    matching: &Matching,
    lefts: &[Element],
    rights: &[Element],
) -> Result<Vec<Element>, OutOfMemory>
    ensures { IfOk result (λ v. v.items ≡ filter (λ l. not (has_match matching.now rights.now l)) lefts.now) }
{
    let index = index_of(alloc, matching, rights)?;
    let found = those_without(alloc, matching, &index, lefts)?;
    Ok(found)
}

/// The labels of the many side, with those of the list taken from the one side.
fn taking(names: &[Text], one_side: &Labels, many: &Labels) -> Result<Labels, OutOfMemory>
    requires { list_all is_label_name names.now ≡ true }
    ensures { IfOk result (λ l. l ≡ taking names.now one_side.now many.now) }
{
    let mut found = many.clone()?;
    for name in names {
        found = found.with(name.as_str(), one_side.get(name.as_str()))?;
    }
    Ok(found)
}

/// The labels of a pair, before the metric name is dropped: those of the match, or with `group_left` and `group_right` those of
/// the many side with the taken ones of the other. Prometheus, Operators: Vector matching.
pub fn pair_labels(
    matching: &Matching,
    left: &Labels,
    right: &Labels,
) -> Result<Labels, OutOfMemory>
    requires { list_all is_label_name matching.now.include ≡ true }
    ensures { IfOk result (λ l. l ≡ labels_of_pair matching.now left.now right.now) }
{
    match matching.side {
        Side::One if matching.on => left.keep(&matching.labels),
        Side::One => left.leave_out(&matching.labels),
        Side::Left => taking(&matching.include, right, left),
        Side::Right => taking(&matching.include, left, right),
    }
}

/// What a pair of elements gives.
fn result_of(
    op: BinaryOp,
    matching: &Matching,
    left: &Element,
    right: &Element,
) -> Result<Joined, OutOfMemory>
    requires { list_all is_label_name matching.now.include ≡ true }
    ensures { IfOk result (λ j. j ≡ result_of op matching.now left.now right.now) }
{
    let labels = pair_labels(matching, &left.labels, &right.labels)?;
    Ok(Joined {
        labels: result_labels(op, &labels)?,
        value: operated(op, left.value, left.value, right.value),
    })
}

/// Pushes what a left element gives with the right ones of its key.
fn push_results(
    found: &mut Vec<Joined>,
    op: BinaryOp,
    matching: &Matching,
    left: &Element,
    rights: &[Keyed],
) -> Result<(), OutOfMemory>
    requires { list_all is_label_name matching.now.include ≡ true }
    ensures { OnOk result (found.new.items ≡ found.old.items ++ map (λ r. result_of op matching.now left.now r.element) rights.now) }
{
    for right in rights {
        found.push(result_of(op, matching, left, &right.element)?)?;
    }
    Ok(())
}

/// What all pairs of matching elements give.
fn results(
    alloc: Global,
    op: BinaryOp,
    matching: &Matching,
    lefts: &[Keyed],
    rights: &KeyIndex,
) -> Result<Vec<Joined>, OutOfMemory>
    requires { list_all is_label_name matching.now.include ≡ true }
    ensures { IfOk result (λ v. v.items ≡ joined (keyed_results op matching.now rights.now) lefts.now) }
{
    let mut found = Vec::new(alloc);
    for left in lefts {
        let same = rights.with_key(&left.key);
        push_results(&mut found, op, matching, &left.element, same)?;
    }
    Ok(found)
}

/// The labels of results.
fn labels_of(alloc: Global, results: &[Joined]) -> Result<Vec<Labels>, OutOfMemory>
    ensures { IfOk result (λ v. v.items ≡ map (λ j. j.labels) results.now) }
{
    let mut found = Vec::new(alloc);
    for joined in results {
        found.push(joined.labels.clone()?)?;
    }
    Ok(found)
}

/// The elements among results: those that have a value.
fn elements_of(alloc: Global, results: &[Joined]) -> Result<Vec<Element>, OutOfMemory>
    ensures { IfOk result (λ v. v.items ≡ elements_of results.now) }
{
    let mut found = Vec::new(alloc);
    for joined in results {
        if let Some(value) = joined.value {
            found.push(Element {
                labels: joined.labels.clone()?,
                value,
            })?;
        }
    }
    Ok(found)
}

fn is_grouping(side: Side) -> bool
    ensures { result ≡ is_grouping side }
{
    match side {
        Side::One => false,
        Side::Left | Side::Right => true,
    }
}

fn keys_of(alloc: Global, entries: &[Keyed]) -> Result<Vec<Labels>, OutOfMemory>
    ensures { IfOk result (λ v. v.items ≡ map key_of entries.now) }
{
    let mut found = Vec::new(alloc);
    for entry in entries {
        found.push(entry.key.clone()?)?;
    }
    Ok(found)
}

/// Whether two elements of the one side have equal keys.
fn has_double(
    alloc: Global,
    side: Side,
    lefts: &[Keyed],
    rights: &KeyIndex,
) -> Result<bool, OutOfMemory>
    ensures { IfOk result (λ b. b ≡ has_double side lefts.now rights.now) }
{
    match side {
        Side::One | Side::Left => Ok(rights.has_equal()),
        Side::Right => has_equal(keys_of(alloc, lefts)?),
    }
}

/// The keys of the left elements that a right one has too.
fn shared_keys(
    alloc: Global,
    lefts: &[Keyed],
    rights: &KeyIndex,
) -> Result<Vec<Labels>, OutOfMemory>
    ensures { IfOk result (λ v. v.items ≡ shared_keys lefts.now rights.now) }
{
    let mut found = Vec::new(alloc);
    for left in lefts {
        if rights.has_key(&left.key) {
            found.push(left.key.clone()?)?;
        }
    }
    Ok(found)
}

/// Whether two left elements have equal keys that a right one has.
fn many_to_many(alloc: Global, lefts: &[Keyed], rights: &KeyIndex) -> Result<bool, OutOfMemory>
    ensures { IfOk result (λ b. b ≡ has_equal (shared_keys lefts.now rights.now)) }
{
    has_equal(shared_keys(alloc, lefts, rights)?)
}

/// The cell of the results, where no two of a grouping have equal labels.
fn cell_of_results(alloc: Global, side: Side, results: &[Joined]) -> Result<StepCell, OutOfMemory>
    ensures { IfOk result (λ c. c ≡ cell_of_results side results.now) }
{
    if is_grouping(side) && has_equal(labels_of(alloc, results)?)? {
        return Ok(StepCell::Bad(ErrorKind::GroupingNotUnique));
    }
    cell_of(elements_of(alloc, results)?)
}

/// Arithmetic and comparison: the first error, or an element for each pair with a value.
fn joined_keyed(
    alloc: Global,
    op: BinaryOp,
    matching: &Matching,
    lefts: &[Keyed],
    rights: &KeyIndex,
) -> Result<StepCell, OutOfMemory>
    requires { list_all is_label_name matching.now.include ≡ true }
    ensures { IfOk result (λ c. c ≡ joined_keyed op matching.now lefts.now rights.now) }
{
    if has_double(alloc, matching.side, lefts, rights)? {
        return Ok(StepCell::Bad(ErrorKind::DoubleOnOneSide));
    }
    if !is_grouping(matching.side) && many_to_many(alloc, lefts, rights)? {
        return Ok(StepCell::Bad(ErrorKind::ManyToMany));
    }
    let found = results(alloc, op, matching, lefts, rights)?;
    cell_of_results(alloc, matching.side, &found)
}

/// The same of elements without their keys.
#[tactic(auto, using(crate::proofs::KeyedJoins::joined_is))]
fn joined_pairs(
    alloc: Global,
    op: BinaryOp,
    matching: &Matching,
    lefts: &[Element],
    rights: &[Element],
) -> Result<StepCell, OutOfMemory>
    requires { list_all is_label_name matching.now.include ≡ true }
    ensures { IfOk result (λ c. c ≡ joined_pairs op matching.now lefts.now rights.now) }
{
    let entries = keyed(alloc, matching, lefts)?;
    let index = index_of(alloc, matching, rights)?;
    joined_keyed(alloc, op, matching, &entries, &index)
}

/// The value of an operator at two vectors.
pub fn join(
    alloc: Global,
    op: BinaryOp,
    matching: &Matching,
    left: &Cell,
    right: &Cell,
) -> Result<StepCell, OutOfMemory>
    requires { list_all is_label_name matching.now.include ≡ true }
    ensures { IfOk result (λ c. c ≡ join op matching.now left.now right.now) }
{
    let lefts: &[Element] = &left.elements;
    let rights: &[Element] = &right.elements;
    match op.sign {
        Sign::And => cell_of(matched(alloc, matching, rights, lefts)?),
        Sign::Or => cell_of(either(alloc, matching, lefts, rights)?),
        Sign::Unless => cell_of(unless(alloc, matching, lefts, rights)?),
        _ => joined_pairs(alloc, op, matching, lefts, rights),
    }
}
