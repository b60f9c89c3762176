//! Elements in the order of the keys that they are matched by.

ghost use Rattle.std.specs.Prelude.{◌≡◌, not, filter, map, IfOk};
ghost use Rattle.std.specs.List.Sorted.{IsSorted};
ghost use Rattle.std.specs.Ordering.{is_gt, is_lt};
ghost use Rattle.pf_base.specs.LabelOrder.{labels_cmp};
ghost use Rattle.pf_base.specs.Sorting.{isort};
ghost use Rattle.pf_model.specs.Cells.{has_equal};
ghost use Rattle.pf_join.specs.KeyedElements.{has_key, key_of, keyed_cmp, with_key};
ghost use Rattle.pf_join.specs.Neighbours.{repeats};

use crate::cells::is_same;
use pf_base::{Labels, OutOfMemory};
use pf_model::Element;
use std::cmp::Ordering;
use std::marker::Model;

/// An element with the key that it is matched by.
#[derive(Drop)]
pub(crate) struct Keyed {
    pub(crate) key: Labels,
    pub(crate) element: Element,
}

/// Elements in the order of their keys, and those of equal keys in their own order.
#[derive(Drop)]
pub(crate) struct KeyIndex {
    entries: Vec<Keyed>,
}

impl Model for KeyIndex {
    ghost use Rattle.std.specs.Prelude.{List};
    ghost use Rattle.std.specs.List.Sorted.{IsSorted};
    ghost use Rattle.pf_join.specs.declared.keys.Keyed.{Keyed};
    ghost use Rattle.pf_join.specs.KeyedElements.{keyed_cmp};

    ghost Value = { List Keyed };

    ghost view = { λ x. x.entries.items };

    ghost invariant = { λ x. IsSorted keyed_cmp x.entries.items };
}

pub(crate) fn is_below(labels: &Labels, other: &Labels) -> bool
    ensures { result ≡ is_lt (labels_cmp labels.now other.now) }
{
    matches!(labels.cmp(other), Ordering::Less)
}

pub(crate) fn is_above(labels: &Labels, other: &Labels) -> bool
    ensures { result ≡ is_gt (labels_cmp labels.now other.now) }
{
    matches!(labels.cmp(other), Ordering::Greater)
}

fn in_key_order(mut entries: Vec<Keyed>) -> Result<Vec<Keyed>, OutOfMemory>
    ensures items { IfOk result (λ v. v.items ≡ isort keyed_cmp entries.items) }
    ensures sorted { IfOk result (λ v. IsSorted keyed_cmp v.items) }
{
    entries.sort_by(|a, b| a.key.cmp(&b.key))?;
    Ok(entries)
}

/// Whether two neighbours have equal keys.
fn repeats_keys(entries: &[Keyed]) -> bool
    ensures { result ≡ repeats key_of entries.now }
{
    let mut last: Option<&Labels> = None;
    for entry in entries {
        if let Some(last) = last {
            if is_same(last, &entry.key) {
                return true;
            }
        }
        last = Some(&entry.key);
    }
    false
}

/// The entries behind those of lesser keys.
fn from_key<'a>(entries: &'a [Keyed], key: &Labels) -> &'a [Keyed]
    requires { IsSorted keyed_cmp entries.now }
    ensures items { result.now ≡ filter (λ x. not (is_lt (labels_cmp x.key key.now))) entries.now }
    ensures sorted { IsSorted keyed_cmp result.now }
{
    let count = entries.partition_point(|x| is_below(&x.key, key));
    &entries[count..]
}

/// The entries before those of greater keys.
fn upto_key<'a>(entries: &'a [Keyed], key: &Labels) -> &'a [Keyed]
    requires { IsSorted keyed_cmp entries.now }
    ensures { result.now ≡ filter (λ x. not (is_gt (labels_cmp x.key key.now))) entries.now }
{
    let count = entries.partition_point(|x| !is_above(&x.key, key));
    &entries[..count]
}

impl KeyIndex {
    pub(crate) fn of(entries: Vec<Keyed>) -> Result<KeyIndex, OutOfMemory>
        ensures { IfOk result (λ x. x ≡ isort keyed_cmp entries.items) }
    {
        let entries = in_key_order(entries)?;
        Ok(KeyIndex { entries })
    }

    /// The elements of a key, found by halves.
    pub(crate) fn with_key(&self, key: &Labels) -> &[Keyed]
        ensures { result.now ≡ with_key key.now self.now }
    {
        let behind = from_key(&self.entries, key);
        upto_key(behind, key)
    }

    /// Whether an element has a key.
    #[tactic(auto, using(crate::proofs::Finding::any_is))]
    pub(crate) fn has_key(&self, key: &Labels) -> bool
        ensures { result ≡ has_key key.now self.now }
    {
        !self.with_key(key).is_empty()
    }

    /// Whether two elements have equal keys.
    #[tactic(auto, using(crate::proofs::KeyOrder::repeats_are))]
    pub(crate) fn has_equal(&self) -> bool
        ensures { result ≡ has_equal (map key_of self.now) }
    {
        repeats_keys(&self.entries)
    }
}
