//! Operators between two vectors over a run of steps: columns are matched once, and values step by step.

ghost use Rattle.std.specs.Prelude.{◌≡◌, ◌∷◌, ◌++◌, ◌<◌, ℕ, [], true, false, map, IfOk, OnOk};
ghost use Rattle.std.specs.List.{list_all, slice_get};
ghost use Rattle.pf_base.specs.LabelSets.{is_label_name};
ghost use Rattle.pf_base.specs.Sorting.{isort};
ghost use Rattle.pf_model.specs.Cells.{cell_of};
ghost use Rattle.pf_model.specs.Clauses.{Matched};
ghost use Rattle.pf_model.specs.Matching.{matching_key, result_labels};
ghost use Rattle.pf_model.specs.Merging.{below};
ghost use Rattle.pf_model.specs.Outcomes.{of_cell, operation};
ghost use Rattle.pf_columns.specs.Columns.{cell_at, columns_labels, value_in};
ghost use Rattle.pf_columns.specs.Steps.{bad_in, step_at, unless_bad};
ghost use Rattle.pf_join.specs.KeyPlaces.{key_of, one_of, place_cmp, placed, those_at};
ghost use Rattle.pf_join.specs.Results.{labels_of_pair};
ghost use Rattle.pf_eval.specs.Zipped.{are_apart, are_there, between, both, column_keys, is_set_sign, is_wanted, kept_if, kind_of, met, met_among, pair_by, partners, set_columns, zipped};

use crate::node::{first_bads, value_of};
use pf_base::{Labels, OutOfMemory, Value};
use pf_columns::{Column, StepCells, normalised};
use pf_join::{KeyPlace, KeyPlaces, has_equal, join, matching_key, pair_labels};
use pf_math::{operated, result_labels};
use pf_model::{BinaryOp, ErrorKind, Matching, Side, Sign, StepCell};
use std::alloc::Global;

/// What has to be equal for elements to match, once a column.
fn keys_of(
    alloc: Global,
    matching: &Matching,
    columns: &[Column],
) -> Result<Vec<Labels>, OutOfMemory>
    ensures { IfOk result (λ v. v.items ≡ column_keys matching.now columns.now) }
{
    let mut found = Vec::with_capacity(alloc, columns.len())?;
    for column in columns {
        found.push(matching_key(matching, &column.labels)?)?;
    }
    Ok(found)
}

/// Pushes the column at a place.
fn push_at<'a>(
    found: &mut Vec<&'a Column>,
    columns: &'a [Column],
    place: usize,
) -> Result<(), OutOfMemory>
    ensures { OnOk result (map (λ c. c.now) found.new.items ≡ map (λ c. c.now) found.old.items ++ one_of (slice_get columns.now place)) }
{
    if let Some(column) = columns.get(place) {
        found.push(column)?;
    }
    Ok(())
}

/// The columns at some places.
fn columns_at<'a>(
    alloc: Global,
    places: &[KeyPlace],
    columns: &'a [Column],
) -> Result<Vec<&'a Column>, OutOfMemory>
    ensures { IfOk result (λ v. map (λ c. c.now) v.items ≡ those_at columns.now places.now) }
{
    let mut found = Vec::new(alloc);
    for place in places {
        push_at(&mut found, columns, place.place)?;
    }
    Ok(found)
}

/// The places of columns by their keys.
fn places_of(
    alloc: Global,
    matching: &Matching,
    columns: &[Column],
) -> Result<KeyPlaces, OutOfMemory>
    ensures { IfOk result (λ x. x ≡ isort place_cmp (placed 0 (column_keys matching.now columns.now))) }
{
    let keys = keys_of(alloc, matching, columns)?;
    KeyPlaces::of(alloc, keys)
}

/// The columns of a key, by the places of their keys, and how many keys are lesser: about so many as are told.
#[tactic(auto, using(crate::proofs::JoinedCells::partners_found))]
fn partners<'a>(
    alloc: Global,
    key: &Labels,
    places: &KeyPlaces,
    near: usize,
    columns: &'a [Column],
) -> Result<(Vec<&'a Column>, usize), OutOfMemory>
    ensures { IfOk result (λ v. (m : Matched) → places.now ≡ isort place_cmp (placed 0 (column_keys m columns.now)) → map (λ c. c.now) v.0.items ≡ partners m key.now columns.now) }
{
    let (places, near) = places.with_key(key, near);
    let found = columns_at(alloc, places, columns)?;
    Ok((found, near))
}

fn both(op: BinaryOp, a: Option<Value>, b: Option<Value>) -> Option<Value>
    ensures { result ≡ both (between op) a b }
{
    match (a, b) {
        (Some(a), Some(b)) => operated(op, a, a, b),
        _ => None,
    }
}

fn pair_values(
    alloc: Global,
    op: BinaryOp,
    lefts: &[Option<Value>],
    rights: &[Option<Value>],
    len: u32,
) -> Result<Vec<Option<Value>>, OutOfMemory>
    ensures { IfOk result (λ v. v.items ≡ below (λ k. both (between op) (value_in lefts.now k) (value_in rights.now k)) len) }
{
    let mut found = Vec::with_capacity(alloc, len as usize)?;
    for i in 0..len {
        found.push(both(op, value_of(lefts, i), value_of(rights, i)))?;
    }
    Ok(found)
}

/// The labels of a pair's result. Those of `on` alone are the key.
fn labels_of_pair(
    op: BinaryOp,
    matching: &Matching,
    key: &Labels,
    left: &Labels,
    right: &Labels,
) -> Result<Labels, OutOfMemory>
    requires named { list_all is_label_name matching.now.include ≡ true }
    requires key { key.now ≡ matching_key matching.now left.now }
    ensures { IfOk result (λ l. l ≡ result_labels op (labels_of_pair matching.now left.now right.now)) }
{
    match matching.side {
        Side::One if matching.on => result_labels(op, key),
        _ => {
            let labels = pair_labels(matching, left, right)?;
            result_labels(op, &labels)
        }
    }
}

/// The column of a pair of columns that match by a key.
fn pair_column(
    alloc: Global,
    op: BinaryOp,
    matching: &Matching,
    key: &Labels,
    left: &Column,
    right: &Column,
    len: u32,
) -> Result<Column, OutOfMemory>
    requires named { list_all is_label_name matching.now.include ≡ true }
    requires key { key.now ≡ matching_key matching.now left.now.labels }
    ensures { IfOk result (λ c. c ≡ pair_by (between op) op matching.now len left.now right.now) }
{
    Ok(Column {
        labels: labels_of_pair(op, matching, key, &left.labels, &right.labels)?,
        values: pair_values(alloc, op, &left.values, &right.values, len)?,
    })
}

/// Pushes the columns of a left column with some right ones of its key.
fn push_pairs(
    found: &mut Vec<Column>,
    alloc: Global,
    op: BinaryOp,
    matching: &Matching,
    key: &Labels,
    left: &Column,
    rights: &[&Column],
    len: u32,
) -> Result<(), OutOfMemory>
    requires named { list_all is_label_name matching.now.include ≡ true }
    requires key { key.now ≡ matching_key matching.now left.now.labels }
    ensures { OnOk result (found.new.items ≡ found.old.items ++ map (pair_by (between op) op matching.now len left.now) (map (λ c. c.now) rights.now)) }
{
    for &right in rights {
        found.push(pair_column(alloc, op, matching, key, left, right, len)?)?;
    }
    Ok(())
}

/// The columns of all pairs of columns that match, by the keys of the left ones and the places of the right ones' keys.
fn zipped(
    alloc: Global,
    op: BinaryOp,
    matching: &Matching,
    lefts: &[Column],
    keys: &[Labels],
    rights: &[Column],
    places: &KeyPlaces,
    len: u32,
) -> Result<Vec<Column>, OutOfMemory>
    requires named { list_all is_label_name matching.now.include ≡ true }
    requires keys { keys.now ≡ column_keys matching.now lefts.now }
    requires places { places.now ≡ isort place_cmp (placed 0 (column_keys matching.now rights.now)) }
    ensures { IfOk result (λ v. v.items ≡ zipped op matching.now len lefts.now rights.now) }
{
    let mut found = Vec::with_capacity(alloc, lefts.len())?;
    let mut near = 0;
    for i in 0..lefts.len() {
        let left = &lefts[i];
        let key = &keys[i];
        let (others, at) = partners(alloc, key, places, near, rights)?;
        push_pairs(&mut found, alloc, op, matching, key, left, &others, len)?;
        near = at;
    }
    Ok(found)
}

/// Whether some column has a value at a step.
fn are_there(columns: &[&Column], step: u32) -> bool
    ensures { result ≡ are_there (map (λ c. c.now) columns.now) step }
{
    for &column in columns {
        if value_of(&column.values, step).is_some() {
            return true;
        }
    }
    false
}

fn kept_if(kept: bool, value: Option<Value>) -> Option<Value>
    ensures { result ≡ kept_if kept value }
{
    if kept { value } else { None }
}

fn is_wanted(wanted: bool, there: bool) -> bool
    ensures { result ≡ is_wanted wanted there }
{
    if wanted { there } else { !there }
}

/// The values at the steps at which a column has a match, or else has none.
fn met_values(
    alloc: Global,
    wanted: bool,
    values: &[Option<Value>],
    others: &[&Column],
    len: u32,
) -> Result<Vec<Option<Value>>, OutOfMemory>
    ensures { IfOk result (λ v. v.items ≡ below (λ k. kept_if (is_wanted wanted (are_there (map (λ c. c.now) others.now) k)) (value_in values.now k)) len) }
{
    let mut found = Vec::with_capacity(alloc, len as usize)?;
    for i in 0..len {
        let kept = is_wanted(wanted, are_there(others, i));
        found.push(kept_if(kept, value_of(values, i)))?;
    }
    Ok(found)
}

/// A column with its values where some column of its matches has one, or else where none has.
fn met_column(
    alloc: Global,
    wanted: bool,
    column: &Column,
    matches: &[&Column],
    len: u32,
) -> Result<Column, OutOfMemory>
    ensures { IfOk result (λ c. c ≡ met_among wanted len (map (λ d. d.now) matches.now) column.now) }
{
    Ok(Column {
        labels: column.labels.clone()?,
        values: met_values(alloc, wanted, &column.values, matches, len)?,
    })
}

/// The columns with their values where they have a match among others, or else where they have none.
fn met(
    alloc: Global,
    wanted: bool,
    matching: &Matching,
    others: &[Column],
    columns: &[Column],
    len: u32,
) -> Result<Vec<Column>, OutOfMemory>
    ensures { IfOk result (λ v. v.items ≡ met wanted matching.now len others.now columns.now) }
{
    let places = places_of(alloc, matching, others)?;
    let mut found = Vec::with_capacity(alloc, columns.len())?;
    let mut near = 0;
    for column in columns {
        let key = matching_key(matching, &column.labels)?;
        let (matches, at) = partners(alloc, &key, &places, near, others)?;
        found.push(met_column(alloc, wanted, column, &matches, len)?)?;
        near = at;
    }
    Ok(found)
}

/// Some columns, and others behind them.
fn with_more(columns: Vec<Column>, more: Vec<Column>) -> Result<Vec<Column>, OutOfMemory>
    ensures { IfOk result (λ v. v.items ≡ columns.items ++ more.items) }
{
    let mut found = columns;
    for column in more {
        found.push(column)?;
    }
    Ok(found)
}

/// The columns of `and`, `or` and `unless`.
fn set_columns(
    alloc: Global,
    sign: Sign,
    matching: &Matching,
    lefts: Vec<Column>,
    rights: &[Column],
    len: u32,
) -> Result<Vec<Column>, OutOfMemory>
    ensures { IfOk result (λ v. v.items ≡ set_columns sign matching.now len lefts.items rights.now) }
{
    match sign {
        Sign::And => met(alloc, true, matching, rights, &lefts, len),
        Sign::Unless => met(alloc, false, matching, rights, &lefts, len),
        Sign::Or => {
            let more = met(alloc, false, matching, &lefts, rights, len)?;
            with_more(lefts, more)
        }
        _ => Ok(Vec::new(alloc)),
    }
}

fn labels_of(alloc: Global, columns: &[Column]) -> Result<Vec<Labels>, OutOfMemory>
    ensures { IfOk result (λ v. v.items ≡ columns_labels columns.now) }
{
    let mut found = Vec::with_capacity(alloc, columns.len())?;
    for column in columns {
        found.push(column.labels.clone()?)?;
    }
    Ok(found)
}

/// Whether the keys of the left columns and the places of the right ones' keys, and the labels of the pairs, show alone that no
/// step has an error of matching.
fn are_single(
    alloc: Global,
    side: Side,
    keys: Vec<Labels>,
    places: &KeyPlaces,
    pairs: &[Column],
) -> Result<bool, OutOfMemory>
    ensures { IfOk result (λ b. b ≡ are_apart side keys.items (map key_of places.now) (columns_labels pairs.now)) }
{
    match side {
        Side::One => {
            if places.has_equal() {
                return Ok(false);
            }
            Ok(!has_equal(keys)?)
        }
        Side::Left => {
            if places.has_equal() {
                return Ok(false);
            }
            let labels = labels_of(alloc, pairs)?;
            Ok(!has_equal(labels)?)
        }
        Side::Right => {
            if has_equal(keys)? {
                return Ok(false);
            }
            let labels = labels_of(alloc, pairs)?;
            Ok(!has_equal(labels)?)
        }
    }
}

/// The error of an operator at a step.
fn join_kind(
    alloc: Global,
    op: BinaryOp,
    matching: &Matching,
    left: StepCell,
    right: StepCell,
) -> Result<Option<ErrorKind>, OutOfMemory>
    requires { list_all is_label_name matching.now.include ≡ true }
    ensures { IfOk result (λ o. o ≡ kind_of (operation op matching.now (of_cell left) (of_cell right))) }
{
    match (left, right) {
        (StepCell::Bad(kind), _) => Ok(Some(kind)),
        (StepCell::Good(_), StepCell::Bad(kind)) => Ok(Some(kind)),
        (StepCell::Good(left), StepCell::Good(right)) => {
            match join(alloc, op, matching, &left, &right)? {
                StepCell::Bad(kind) => Ok(Some(kind)),
                StepCell::Good(_) => Ok(None),
            }
        }
    }
}

/// The errors of an operator, from each step's elements.
fn join_kinds(
    alloc: Global,
    op: BinaryOp,
    matching: &Matching,
    left: &StepCells,
    right: &StepCells,
    len: u32,
) -> Result<Vec<Option<ErrorKind>>, OutOfMemory>
    requires { list_all is_label_name matching.now.include ≡ true }
    ensures { IfOk result (λ v. v.items ≡ below (λ k. kind_of (operation op matching.now (of_cell (step_at left.now k)) (of_cell (step_at right.now k)))) len) }
{
    let mut found = Vec::new(alloc);
    for i in 0..len {
        let kind = join_kind(
            alloc,
            op,
            matching,
            left.step(alloc, i)?,
            right.step(alloc, i)?,
        )?;
        found.push(kind)?;
    }
    Ok(found)
}

/// The errors of arithmetic or a comparison, whose columns are these.
fn pair_bads(
    alloc: Global,
    op: BinaryOp,
    matching: &Matching,
    left: StepCells,
    right: StepCells,
    keys: Vec<Labels>,
    places: &KeyPlaces,
    pairs: &[Column],
    len: u32,
) -> Result<Vec<Option<ErrorKind>>, OutOfMemory>
    requires named { list_all is_label_name matching.now.include ≡ true }
    requires paired { is_set_sign op.sign ≡ false }
    requires keys { keys.items ≡ column_keys matching.now left.columns }
    requires places { places.now ≡ isort place_cmp (placed 0 (column_keys matching.now right.columns)) }
    requires pairs { pairs.now ≡ zipped op matching.now len left.columns right.columns }
    ensures { IfOk result (λ v. (k : ℕ) → k < len → of_cell (unless_bad (bad_in v.items k) (cell_of (cell_at pairs.now k))) ≡ operation op matching.now (of_cell (step_at left k)) (of_cell (step_at right k))) }
{
    if are_single(alloc, matching.side, keys, places, pairs)? {
        let found = first_bads(alloc, left.bads, right.bads, len)?;
        return Ok(found);
    }
    let found = join_kinds(alloc, op, matching, &left, &right, len)?;
    Ok(found)
}

fn is_set_sign(sign: Sign) -> bool
    ensures { result ≡ is_set_sign sign }
{
    matches!(sign, Sign::And | Sign::Or | Sign::Unless)
}

/// `and`, `or` or `unless` between two vectors.
fn set_operation(
    alloc: Global,
    op: BinaryOp,
    matching: &Matching,
    left: StepCells,
    right: StepCells,
    len: u32,
) -> Result<StepCells, OutOfMemory>
    requires { is_set_sign op.sign ≡ true }
    ensures { IfOk result (λ s. (k : ℕ) → k < len → of_cell (step_at s k) ≡ operation op matching.now (of_cell (step_at left k)) (of_cell (step_at right k))) }
{
    let bads = first_bads(alloc, left.bads, right.bads, len)?;
    let columns = set_columns(alloc, op.sign, matching, left.columns, &right.columns, len)?;
    let found = normalised(alloc, columns, bads, len)?;
    Ok(found)
}

/// Arithmetic or a comparison between two vectors.
fn pair_operation(
    alloc: Global,
    op: BinaryOp,
    matching: &Matching,
    left: StepCells,
    right: StepCells,
    len: u32,
) -> Result<StepCells, OutOfMemory>
    requires named { list_all is_label_name matching.now.include ≡ true }
    requires paired { is_set_sign op.sign ≡ false }
    ensures { IfOk result (λ s. (k : ℕ) → k < len → of_cell (step_at s k) ≡ operation op matching.now (of_cell (step_at left k)) (of_cell (step_at right k))) }
{
    let keys = keys_of(alloc, matching, &left.columns)?;
    let places = places_of(alloc, matching, &right.columns)?;
    let pairs = zipped(
        alloc,
        op,
        matching,
        &left.columns,
        &keys,
        &right.columns,
        &places,
        len,
    )?;
    let bads = pair_bads(alloc, op, matching, left, right, keys, &places, &pairs, len)?;
    normalised(alloc, pairs, bads, len)
}

/// An operator between two vectors. Of two errors of a step the left one comes.
pub(crate) fn joined(
    alloc: Global,
    op: BinaryOp,
    matching: &Matching,
    left: StepCells,
    right: StepCells,
    len: u32,
) -> Result<StepCells, OutOfMemory>
    requires { list_all is_label_name matching.now.include ≡ true }
    ensures { IfOk result (λ s. (k : ℕ) → k < len → of_cell (step_at s k) ≡ operation op matching.now (of_cell (step_at left k)) (of_cell (step_at right k))) }
{
    if is_set_sign(op.sign) {
        let found = set_operation(alloc, op, matching, left, right, len)?;
        return Ok(found);
    }
    pair_operation(alloc, op, matching, left, right, len)
}
