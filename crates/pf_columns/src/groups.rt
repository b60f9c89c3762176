//! The groups of columns, found once for all steps.

ghost use Rattle.std.specs.Prelude.{◌≡◌, ◌<◌, [], List, true, length, map, slice_index_or, None, IfOk};
ghost use Rattle.std.specs.List.{All, list_any};
ghost use Rattle.std.specs.Option.{option_copied};
ghost use Rattle.pf_base.specs.LabelOrder.{labels_cmp};
ghost use Rattle.pf_base.specs.LabelSets.{Pairs};
ghost use Rattle.pf_base.specs.Sorting.{isort};
ghost use Rattle.pf_model.specs.Aggregation.{group_key};
ghost use Rattle.pf_model.specs.Cells.{distinct};
ghost use Rattle.pf_model.specs.Selection.{same_labels};
ghost use Rattle.pf_columns.specs.Columns.{AreRising, columns_labels};
ghost use Rattle.pf_columns.specs.Groups.{groups_by, is_again, place_in, unrepeated};
ghost use Rattle.pf_columns.specs.Steps.{rise_above};

use crate::column::Column;
use pf_base::{Labels, OutOfMemory};
use pf_model::Grouping;
use std::alloc::Global;
use std::cmp::Ordering;
use std::marker::Model;

/// The groups of columns: the keys, each once, in label order, and for each column the place of its key among them.
#[derive(Drop)]
pub struct GroupIds {
    pub keys: Vec<Labels>,
    pub of: Vec<usize>,
}

impl Model for GroupIds {
    ghost use Rattle.pf_columns.specs.Groups.{GroupsData};

    ghost Value = { GroupsData };

    ghost view = { λ g. record { keys = g.keys.items; of = g.of.items } };
}

/// The labels that `by` keeps, or that `without` leaves.
fn group_key(grouping: &Grouping, labels: &Labels) -> Result<Labels, OutOfMemory>
    ensures { IfOk result (λ l. l ≡ group_key grouping.now.without grouping.now.labels labels.now) }
{
    if grouping.without {
        labels.leave_out_with_name(&grouping.labels)
    } else {
        labels.keep(&grouping.labels)
    }
}

/// Whether these are the labels that `by` keeps, or that `without` leaves.
#[tactic(auto, using(pf_base::specs::LabelOrder::labels_decides))]
fn has_key(grouping: &Grouping, labels: &Labels, key: &Labels) -> bool
    ensures { result ≡ true → key.now ≡ group_key grouping.now.without grouping.now.labels labels.now }
{
    if grouping.without {
        labels.leaves(&grouping.labels, key)
    } else {
        labels.keeps(&grouping.labels, key)
    }
}

/// The key of a label set: the labels that `by` keeps, or that `without` leaves. Where it is that of `last`, it is shared, so
/// that few lie in memory where many label sets have one key.
pub fn key_behind(
    last: Option<&Labels>,
    grouping: &Grouping,
    labels: &Labels,
) -> Result<Labels, OutOfMemory>
    ensures { IfOk result (λ l. l ≡ group_key grouping.now.without grouping.now.labels labels.now) }
{
    match last {
        Some(last) if has_key(grouping, labels, last) => Ok(last.clone()?),
        _ => group_key(grouping, labels),
    }
}

/// The key of each column.
fn keys_of(
    alloc: Global,
    grouping: &Grouping,
    columns: &[Column],
) -> Result<Vec<Labels>, OutOfMemory>
    ensures { IfOk result (λ v. v.items ≡ map (group_key grouping.now.without grouping.now.labels) (columns_labels columns.now)) }
{
    let mut found = Vec::with_capacity(alloc, columns.len())?;
    for column in columns {
        let key = key_behind(found.last(), grouping, &column.labels)?;
        found.push(key)?;
    }
    Ok(found)
}

fn in_order(mut all: Vec<Labels>) -> Result<Vec<Labels>, OutOfMemory>
    ensures { IfOk result (λ v. v.items ≡ isort labels_cmp all.items) }
{
    all.sort()?;
    Ok(all)
}

#[tactic(auto, using(pf_base::specs::LabelOrder::labels_ties))]
fn is_again(last: Option<&Labels>, labels: &Labels) -> bool
    ensures { result ≡ is_again (option_copied last.entry) labels.now }
{
    match last {
        Some(last) => last == labels,
        None => false,
    }
}

/// Label sets without those that are equal to the one before.
fn unrepeated(alloc: Global, all: &[Labels]) -> Result<Vec<Labels>, OutOfMemory>
    ensures { IfOk result (λ v. v.items ≡ unrepeated None all.now) }
{
    let mut found = Vec::new(alloc);
    let mut last: Option<&Labels> = None;
    for labels in all {
        if !is_again(last, labels) {
            found.push(labels.clone()?)?;
        }
        last = Some(labels);
    }
    Ok(found)
}

/// Label sets, each once, in label order. Of equal ones in a row one is sorted.
fn distinct(alloc: Global, all: &[Labels]) -> Result<Vec<Labels>, OutOfMemory>
    ensures { IfOk result (λ v. v.items ≡ distinct all.now) }
{
    let apart = unrepeated(alloc, all)?;
    let sorted = in_order(apart)?;
    let found = unrepeated(alloc, &sorted)?;
    Ok(found)
}

/// The place of a label set among some that rise, where it stands.
fn place_in(sets: &[Labels], labels: &Labels) -> usize
    requires rising { AreRising sets.now }
    requires there { list_any (same_labels labels.now) sets.now ≡ true }
    ensures { result ≡ place_in sets.now labels.now }
{
    match sets.binary_search(labels) {
        Ok(place) => place,
        Err(place) => place,
    }
}

/// The place of each of some label sets. One that is equal to the one before has its place.
fn places_in(alloc: Global, sets: &[Labels], all: &[Labels]) -> Result<Vec<usize>, OutOfMemory>
    requires rising { AreRising sets.now }
    requires there { All (λ l. list_any (same_labels l) sets.now ≡ true) all.now }
    ensures { IfOk result (λ v. v.items ≡ map (place_in sets.now) all.now) }
{
    let mut found = Vec::with_capacity(alloc, all.len())?;
    let mut last: Option<&Labels> = None;
    let mut place = 0;
    for labels in all {
        place = if is_again(last, labels) {
            place
        } else {
            place_in(sets, labels)
        };
        found.push(place)?;
        last = Some(labels);
    }
    Ok(found)
}

/// Whether each label set is below the next.
fn are_rising(sets: &[Labels]) -> bool
    ensures { result ≡ rise_above None sets.now }
{
    let mut last: Option<&Labels> = None;
    for labels in sets {
        if let Some(last) = last {
            if last.cmp(labels) != Ordering::Less {
                return false;
            }
        }
        last = Some(labels);
    }
    true
}

/// The place of each of some label sets that rise among all of them.
fn own_places(alloc: Global, sets: &[Labels]) -> Result<Vec<usize>, OutOfMemory>
    requires { AreRising sets.now }
    ensures { IfOk result (λ v. v.items ≡ map (place_in sets.now) sets.now) }
{
    let mut found = Vec::with_capacity(alloc, sets.len())?;
    for i in 0..sets.len() {
        found.push(i)?;
    }
    Ok(found)
}

/// The groups of keys: each once, in label order, and the place of each of all. Keys that rise are compared once, and not copied.
fn groups_of(alloc: Global, all: Vec<Labels>) -> Result<GroupIds, OutOfMemory>
    ensures { IfOk result (λ g. g ≡ record { keys = distinct all.items; of = map (place_in (distinct all.items)) all.items }) }
{
    if are_rising(&all) {
        let of = own_places(alloc, &all)?;
        return Ok(GroupIds { keys: all, of });
    }
    let keys = distinct(alloc, &all)?;
    let of = places_in(alloc, &keys, &all)?;
    Ok(GroupIds { keys, of })
}

/// The places that stand at these numbers.
fn places_by(alloc: Global, places: &[usize], numbers: &[usize]) -> Result<Vec<usize>, OutOfMemory>
    requires { All (λ n. n < length places.now) numbers.now }
    ensures { IfOk result (λ v. v.items ≡ map (λ n. slice_index_or places.now n 0) numbers.now) }
{
    let mut found = Vec::with_capacity(alloc, numbers.len())?;
    for number in numbers {
        found.push(places[*number])?;
    }
    Ok(found)
}

impl GroupIds {
    /// The groups of columns by their keys: the labels that `by` keeps, or that `without` leaves.
    pub fn by(
        alloc: Global,
        grouping: &Grouping,
        columns: &[Column],
    ) -> Result<GroupIds, OutOfMemory>
        ensures { IfOk result (λ g. g ≡ groups_by (group_key grouping.now.without grouping.now.labels) (columns_labels columns.now)) }
    {
        let all = keys_of(alloc, grouping, columns)?;
        groups_of(alloc, all)
    }

    /// The groups of keys that are given by numbers: `numbers` has for each of all keys its place in `keys`, where each of
    /// them stands at least once.
    pub fn of_numbered(
        alloc: Global,
        keys: Vec<Labels>,
        numbers: &[usize],
    ) -> Result<GroupIds, OutOfMemory>
        requires within { All (λ n. n < length keys.items) numbers.now }
        ensures { IfOk result (λ g. (all : List Pairs) → map (λ n. slice_index_or keys.items n []) numbers.now ≡ all
            → ((l : Pairs) → list_any (same_labels l) keys.items ≡ list_any (same_labels l) all)
            → g ≡ record { keys = distinct all; of = map (place_in (distinct all)) all }) }
    {
        let places = groups_of(alloc, keys)?;
        let of = places_by(alloc, &places.of, numbers)?;
        Ok(GroupIds {
            keys: places.keys,
            of,
        })
    }
}
