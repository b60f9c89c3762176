//! The elements of each group that `topk` and `bottomk` keep. The groups are found once for all steps, and no label set is
//! compared at a step: label order is the order of the columns.

ghost use Rattle.std.specs.Prelude.{◌≡◌, ◌++◌, ◌∷◌, ◌<◌, [], false, map, length, replicate, slice_index_or, slice_set, take, IfOk, IfSome, OnOk};
ghost use Rattle.std.specs.List.{All};
ghost use Rattle.pf_base.specs.Sorting.{isort};
ghost use Rattle.pf_model.specs.Aggregation.{group_key, whole_units};
ghost use Rattle.pf_model.specs.Merging.{below};
ghost use Rattle.pf_columns.specs.Ranks.{buckets_by, entries_at, entry_cmp, first_by_place, first_columns, group_marks, height_of, is_marked, kept_columns, kept_value, kept_values, marked, marks_at, marks_by, places_of, ranking, value_at, wanted};

use crate::column::{Column, value_of};
use crate::groups::GroupIds;
use pf_base::{OutOfMemory, Value};
use pf_model::{AggOp, Grouping};
use std::alloc::Global;

/// The order in which `topk` and `bottomk` keep the elements of a group: by value, and label order among equal values.
#[derive(Clone, Copy)]
pub enum Rank {
    Falling,
    Rising,
}

impl Rank {
    /// The order in which an aggregation keeps elements, if it is `topk` or `bottomk`.
    pub fn of(op: AggOp) -> Option<Rank>
        ensures { IfSome result (λ rank. ranking rank ≡ op) }
    {
        match op {
            AggOp::Topk => Some(Rank::Falling),
            AggOp::Bottomk => Some(Rank::Rising),
            _ => None,
        }
    }
}

/// An element of a group at a step: what its value is ordered by, and the place of its column.
#[derive(Clone, Copy, PartialEq, Eq, PartialOrd, Ord)]
pub struct Entry {
    height: i64,
    place: usize,
}

fn height_of(rank: Rank, value: Value) -> i64
    ensures { result ≡ height_of rank value }
{
    match rank {
        Rank::Falling => -value.micros(),
        Rank::Rising => value.micros(),
    }
}

/// The whole units of a value, none below zero.
fn whole_units(value: Value) -> usize
    ensures { result ≡ whole_units value }
{
    if value.micros() < 0 {
        return 0;
    }
    (value.micros() / 1_000_000) as usize
}

fn wanted(param: Option<Value>) -> usize
    ensures { result ≡ wanted param }
{
    match param {
        Some(value) => whole_units(value),
        None => 0,
    }
}

/// Puts a place into a group's bucket.
fn put_place(buckets: &mut Vec<Vec<usize>>, group: usize, place: usize) -> Result<(), OutOfMemory>
    requires { group < length buckets.old.items }
    ensures { OnOk result (map (λ b. b.items) buckets.new.items
        ≡ slice_set (map (λ b. b.items) buckets.old.items) group (slice_index_or (map (λ b. b.items) buckets.old.items) group [] ++ place ∷ [])) }
{
    buckets[group].push(place)?;
    Ok(())
}

fn empty_buckets(alloc: Global, count: usize) -> Result<Vec<Vec<usize>>, OutOfMemory>
    ensures { IfOk result (λ v. map (λ b. b.items) v.items ≡ below (λ g. []) count) }
{
    let mut found = Vec::with_capacity(alloc, count)?;
    for _ in 0..count {
        found.push(Vec::new(alloc))?;
    }
    Ok(found)
}

/// The places of each of `count` groups, in their order, where `of` has for each place the number of its group.
pub fn buckets_by(alloc: Global, of: &[usize], count: usize) -> Result<Vec<Vec<usize>>, OutOfMemory>
    requires { All (λ o. o < count) of.now }
    ensures { IfOk result (λ v. map (λ b. b.items) v.items ≡ buckets_by of.now count) }
{
    let mut found = empty_buckets(alloc, count)?;
    for i in 0..of.len() {
        put_place(&mut found, of[i], i)?;
    }
    Ok(found)
}

/// The value of the column at a place, if it has one at a step.
fn value_at(columns: &[Column], place: usize, step: u32) -> Option<Value>
    ensures { result ≡ value_at columns.now place step }
{
    match columns.get(place) {
        Some(column) => value_of(&column.values, step),
        None => None,
    }
}

/// Puts the entries of some columns at a step in place of those that `entries` holds.
fn entries_at(
    rank: Rank,
    columns: &[Column],
    step: u32,
    places: &[usize],
    entries: &mut Vec<Entry>,
) -> Result<(), OutOfMemory>
    ensures { OnOk result (entries.new.items ≡ entries_at rank columns.now step places.now) }
{
    entries.clear();
    for &place in places {
        if let Some(value) = value_at(columns, place, step) {
            let height = height_of(rank, value);
            entries.push(Entry { height, place })?;
        }
    }
    Ok(())
}

/// Marks the places of entries; one behind the last mark is passed over.
fn mark(marks: &mut [bool], entries: &[Entry])
    ensures { marks.new ≡ marked entries.now marks.old }
{
    for entry in entries {
        let place = entry.place;
        if place < marks.len() {
            marks[place] = true;
        }
    }
}

/// Marks the places of the first so many entries. They are parted from the others and not sorted, in linear time on average.
#[tactic(auto, using(crate::proofs::Selected::all_marked))]
fn mark_first(marks: &mut [bool], wanted: usize, entries: &mut [Entry])
    ensures { marks.new ≡ marked (take wanted (isort entry_cmp entries.old)) marks.old }
{
    if entries.len() <= wanted {
        mark(marks, entries);
        return;
    }
    let (first, _, _) = entries.select_nth_unstable(wanted);
    mark(marks, first);
}

fn no_marks(alloc: Global, count: usize) -> Result<Vec<bool>, OutOfMemory>
    ensures { IfOk result (λ v. v.items ≡ replicate count false) }
{
    Ok(Vec::from_elem(alloc, false, count)?)
}

/// Marks the columns that have one of the first so many elements of their group at a step. `entries` is overwritten.
fn marks_at(
    alloc: Global,
    rank: Rank,
    wanted: usize,
    columns: &[Column],
    buckets: &[Vec<usize>],
    step: u32,
    entries: &mut Vec<Entry>,
) -> Result<Vec<bool>, OutOfMemory>
    ensures { IfOk result (λ v. v.items ≡ marks_at rank wanted columns.now (map (λ b. b.items) buckets.now) step) }
{
    let mut marks = no_marks(alloc, columns.len())?;
    for places in buckets {
        entries_at(rank, columns, step, places, entries)?;
        mark_first(&mut marks, wanted, entries);
    }
    Ok(marks)
}

/// The marks of each step.
fn marks_by(
    alloc: Global,
    rank: Rank,
    params: &[Option<Value>],
    columns: &[Column],
    buckets: &[Vec<usize>],
    len: u32,
) -> Result<Vec<Vec<bool>>, OutOfMemory>
    ensures { IfOk result (λ v. map (λ r. r.items) v.items ≡ marks_by rank params.now columns.now (map (λ b. b.items) buckets.now) len) }
{
    let mut found = Vec::with_capacity(alloc, len as usize)?;
    let mut entries = Vec::new(alloc);
    for i in 0..len {
        let wanted = wanted(value_of(params, i));
        let marks = marks_at(alloc, rank, wanted, columns, buckets, i, &mut entries)?;
        found.push(marks)?;
    }
    Ok(found)
}

fn is_marked(rows: &[Vec<bool>], step: usize, place: usize) -> bool
    ensures { result ≡ is_marked (map (λ r. r.items) rows.now) step place }
{
    match rows.get(step) {
        Some(marks) => match marks.get(place) {
            Some(mark) => *mark,
            None => false,
        },
        None => false,
    }
}

fn kept_value(marked: bool, value: Option<Value>) -> Option<Value>
    ensures { result ≡ kept_value marked value }
{
    if marked { value } else { None }
}

/// The values of the column at a place that are kept. They stay where they are.
fn kept_values(
    rows: &[Vec<bool>],
    place: usize,
    mut values: Vec<Option<Value>>,
) -> Vec<Option<Value>>
    ensures { result.items ≡ kept_values (map (λ r. r.items) rows.now) place 0 values.items }
{
    for i in 0..values.len() {
        values[i] = kept_value(is_marked(rows, i, place), values[i]);
    }
    values
}

/// Columns with the values that are kept.
fn kept_columns(
    alloc: Global,
    rows: &[Vec<bool>],
    columns: Vec<Column>,
) -> Result<Vec<Column>, OutOfMemory>
    ensures { IfOk result (λ v. v.items ≡ kept_columns (map (λ r. r.items) rows.now) 0 columns.items) }
{
    let mut found = Vec::with_capacity(alloc, columns.len())?;
    for column in columns {
        let values = kept_values(rows, found.len(), column.values);
        found.push(Column {
            labels: column.labels,
            values,
        })?;
    }
    Ok(found)
}

/// Columns with the values of those elements that are, at each step, among the first so many of their group, where `of` has
/// the number of each column's group.
fn first_by_place(
    alloc: Global,
    rank: Rank,
    params: &[Option<Value>],
    columns: Vec<Column>,
    of: &[usize],
    count: usize,
    len: u32,
) -> Result<Vec<Column>, OutOfMemory>
    requires { All (λ o. o < count) of.now }
    ensures { IfOk result (λ v. v.items ≡ first_by_place rank params.now columns.items of.now count len) }
{
    let buckets = buckets_by(alloc, of, count)?;
    let rows = marks_by(alloc, rank, params, &columns, &buckets, len)?;
    let found = kept_columns(alloc, &rows, columns)?;
    Ok(found)
}

/// The same, with the groups by their keys. A step takes time linear in the number of columns on average, however many elements
/// are wanted.
pub(crate) fn first_columns(
    alloc: Global,
    rank: Rank,
    grouping: &Grouping,
    params: &[Option<Value>],
    columns: Vec<Column>,
    len: u32,
) -> Result<Vec<Column>, OutOfMemory>
    ensures { IfOk result (λ v. v.items ≡ first_columns rank (group_key grouping.now.without grouping.now.labels) params.now columns.items len) }
{
    let ids = GroupIds::by(alloc, grouping, &columns)?;
    let found = first_by_place(alloc, rank, params, columns, &ids.of, ids.keys.len(), len)?;
    Ok(found)
}

/// The same, where all columns are of one group.
pub fn first_of_group(
    alloc: Global,
    rank: Rank,
    params: &[Option<Value>],
    columns: Vec<Column>,
    len: u32,
) -> Result<Vec<Column>, OutOfMemory>
    ensures { IfOk result (λ v. v.items ≡ first_by_place rank params.now columns.items (replicate (length columns.items) 0) 1 len) }
{
    let of = vec![in alloc; 0; columns.len()]?;
    let found = first_by_place(alloc, rank, params, columns, &of, 1, len)?;
    Ok(found)
}
