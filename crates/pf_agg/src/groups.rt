//! The groups of a vector, found once by sorted keys.

ghost use Rattle.std.specs.Prelude.{◌≡◌, ◌++◌, ◌∷◌, ◌<◌, [], map, length, slice_index_or, slice_set, IfOk, OnOk};
ghost use Rattle.std.specs.List.{All};
ghost use Rattle.pf_model.specs.Aggregation.{group_key, groups};
ghost use Rattle.pf_model.specs.Cells.{labels_of};
ghost use Rattle.pf_model.specs.Merging.{below};
ghost use Rattle.pf_columns.specs.Columns.{columns_labels};
ghost use Rattle.pf_agg.specs.Buckets.{grouped, those_of};

use pf_base::{Labels, OutOfMemory};
use pf_columns::{Column, GroupIds};
use pf_model::{Element, Grouping};
use std::alloc::Global;

/// The keys of groups in label order, and the elements of each in their order.
#[derive(Drop)]
pub(crate) struct Groups<'a> {
    pub keys: Vec<Labels>,
    pub buckets: Vec<Vec<&'a Element>>,
}

/// Columns that have the elements' labels and no values.
fn columns_of(alloc: Global, elements: &[Element]) -> Result<Vec<Column>, OutOfMemory>
    ensures { IfOk result (λ v. columns_labels v.items ≡ labels_of elements.now) }
{
    let mut found = Vec::new(alloc);
    for element in elements {
        found.push(Column {
            labels: element.labels.clone()?,
            values: Vec::new(alloc),
        })?;
    }
    Ok(found)
}

/// Puts an element into a bucket.
fn put_element<'a>(
    buckets: &mut Vec<Vec<&'a Element>>,
    place: usize,
    element: &'a Element,
) -> Result<(), OutOfMemory>
    requires { place < length buckets.old.items }
    ensures { OnOk result (map (λ b. map (λ e. e.now) b.items) buckets.new.items
        ≡ slice_set (map (λ b. map (λ e. e.now) b.items) buckets.old.items) place (slice_index_or (map (λ b. map (λ e. e.now) b.items) buckets.old.items) place [] ++ element.now ∷ [])) }
{
    buckets[place].push(element)?;
    Ok(())
}

fn empty_buckets<'a>(alloc: Global, count: usize) -> Result<Vec<Vec<&'a Element>>, OutOfMemory>
    ensures { IfOk result (λ v. map (λ b. map (λ e. e.now) b.items) v.items ≡ below (λ g. []) count) }
{
    let mut found = Vec::new(alloc);
    for _ in 0..count {
        found.push(Vec::new(alloc))?;
    }
    Ok(found)
}

/// The elements of each group, in their order.
fn buckets_of<'a>(
    alloc: Global,
    places: &[usize],
    elements: &'a [Element],
    count: usize,
) -> Result<Vec<Vec<&'a Element>>, OutOfMemory>
    requires alike { length places.now ≡ length elements.now }
    requires within { All (λ o. o < count) places.now }
    ensures { IfOk result (λ v. map (λ b. map (λ e. e.now) b.items) v.items ≡ below (λ g. those_of g places.now elements.now) count) }
{
    let mut found = empty_buckets(alloc, count)?;
    for i in 0..elements.len() {
        put_element(&mut found, places[i], &elements[i])?;
    }
    Ok(found)
}

/// The elements of each key, in their order.
fn buckets_by_place<'a>(
    alloc: Global,
    keys: &[Labels],
    places: &[usize],
    elements: &'a [Element],
) -> Result<Vec<Vec<&'a Element>>, OutOfMemory>
    requires alike { length places.now ≡ length elements.now }
    requires within { All (λ o. o < length keys.now) places.now }
    ensures { IfOk result (λ v. map (λ b. map (λ e. e.now) b.items) v.items ≡ below (λ g. those_of g places.now elements.now) (length keys.now)) }
{
    buckets_of(alloc, places, elements, keys.len())
}

/// The groups of elements by their keys: the labels that `by` keeps, or that `without` leaves.
pub(crate) fn groups_of<'a>(
    alloc: Global,
    grouping: &Grouping,
    elements: &'a [Element],
) -> Result<Groups<'a>, OutOfMemory>
    ensures groups { IfOk result (λ g. grouped g.keys.items (map (λ b. map (λ e. e.now) b.items) g.buckets.items) ≡ groups (group_key grouping.now.without grouping.now.labels) elements.now) }
    ensures alike { IfOk result (λ g. length g.buckets.items ≡ length g.keys.items) }
{
    let columns = columns_of(alloc, elements)?;
    let ids = GroupIds::by(alloc, grouping, &columns)?;
    let buckets = buckets_by_place(alloc, &ids.keys, &ids.of, elements)?;
    Ok(Groups {
        keys: ids.keys,
        buckets,
    })
}
