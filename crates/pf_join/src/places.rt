//! Places in a list in the order of the keys that stand there.

ghost use Rattle.std.specs.Prelude.{◌≡◌, ◌<◌, ◌≤◌, true, not, drop, filter, length, map, take, IfOk};
ghost use Rattle.std.proofs.Common.{get_or};
ghost use Rattle.std.specs.List.Sorted.{IsSorted};
ghost use Rattle.std.specs.Ordering.{is_gt, is_lt};
ghost use Rattle.pf_base.specs.LabelOrder.{labels_cmp};
ghost use Rattle.pf_base.specs.Sorting.{isort};
ghost use Rattle.pf_model.specs.Cells.{has_equal};
ghost use Rattle.pf_join.specs.declared.places.KeyPlace.{KeyPlace};
ghost use Rattle.pf_join.specs.KeyPlaces.{key_of, place_cmp, placed, places_with};
ghost use Rattle.pf_join.specs.Neighbours.{repeats};

use crate::cells::is_same;
use crate::keys::{is_above, is_below};
use pf_base::{Labels, OutOfMemory};
use std::alloc::Global;
use std::marker::Model;

/// A key with its place in a list.
#[derive(Drop)]
pub struct KeyPlace {
    pub key: Labels,
    pub place: usize,
}

/// Places in the order of their keys, and those of equal keys in their own order.
#[derive(Drop)]
pub struct KeyPlaces {
    entries: Vec<KeyPlace>,
}

impl Model for KeyPlaces {
    ghost use Rattle.std.specs.Prelude.{List};
    ghost use Rattle.std.specs.List.Sorted.{IsSorted};
    ghost use Rattle.pf_join.specs.declared.places.KeyPlace.{KeyPlace};
    ghost use Rattle.pf_join.specs.KeyPlaces.{place_cmp};

    ghost Value = { List KeyPlace };

    ghost view = { λ x. x.entries.items };

    ghost invariant = { λ x. IsSorted place_cmp x.entries.items };
}

fn in_key_order(mut entries: Vec<KeyPlace>) -> Result<Vec<KeyPlace>, OutOfMemory>
    ensures items { IfOk result (λ v. v.items ≡ isort place_cmp entries.items) }
    ensures sorted { IfOk result (λ v. IsSorted place_cmp v.items) }
{
    entries.sort_by(|a, b| a.key.cmp(&b.key))?;
    Ok(entries)
}

/// Whether two neighbours have equal keys.
fn repeats_keys(entries: &[KeyPlace]) -> bool
    ensures { result ≡ repeats key_of entries.now }
{
    let mut last: Option<&Labels> = None;
    for entry in entries {
        if let Some(last) = last {
            if is_same(last, &entry.key) {
                return true;
            }
        }
        last = Some(&entry.key);
    }
    false
}

fn is_below_at(entries: &[KeyPlace], place: usize, key: &Labels) -> bool
    requires { place < length entries.now }
    ensures { (d : KeyPlace) → result ≡ is_lt (labels_cmp (get_or entries.now place d).key key.now) }
{
    is_below(&entries[place].key, key)
}

fn is_above_at(entries: &[KeyPlace], place: usize, key: &Labels) -> bool
    requires { place < length entries.now }
    ensures { (d : KeyPlace) → result ≡ is_gt (labels_cmp (get_or entries.now place d).key key.now) }
{
    is_above(&entries[place].key, key)
}

/// Whether so many entries in front are those of lesser keys.
fn are_lesser(entries: &[KeyPlace], count: usize, key: &Labels) -> bool
    requires { IsSorted place_cmp entries.now }
    ensures bound { result ≡ true → count ≤ length entries.now }
    ensures rest { result ≡ true → drop count entries.now ≡ filter (λ x. not (is_lt (labels_cmp x.key key.now))) entries.now }
{
    if count > entries.len() {
        return false;
    }
    if count > 0 {
        if !is_below_at(entries, count - 1, key) {
            return false;
        }
    }
    if count == entries.len() {
        return true;
    }
    !is_below_at(entries, count, key)
}

/// How many entries have lesser keys. This many are tried first, and one more; else they are found by halves.
fn lesser(entries: &[KeyPlace], key: &Labels, near: usize) -> usize
    requires { IsSorted place_cmp entries.now }
    ensures bound { result ≤ length entries.now }
    ensures rest { drop result entries.now ≡ filter (λ x. not (is_lt (labels_cmp x.key key.now))) entries.now }
{
    if are_lesser(entries, near, key) {
        return near;
    }
    let next = near.saturating_add(1);
    if are_lesser(entries, next, key) {
        return next;
    }
    entries.partition_point(|x| is_below(&x.key, key))
}

/// The entries behind so many.
fn behind(entries: &[KeyPlace], count: usize) -> &[KeyPlace]
    requires sorted { IsSorted place_cmp entries.now }
    requires within { count ≤ length entries.now }
    ensures items { result.now ≡ drop count entries.now }
    ensures sorted { IsSorted place_cmp result.now }
{
    &entries[count..]
}

/// Whether the first entry alone has no greater key.
fn is_first_alone(entries: &[KeyPlace], key: &Labels) -> bool
    requires { IsSorted place_cmp entries.now }
    ensures some { result ≡ true → 1 ≤ length entries.now }
    ensures front { result ≡ true → take 1 entries.now ≡ filter (λ x. not (is_gt (labels_cmp x.key key.now))) entries.now }
{
    if entries.is_empty() || is_above_at(entries, 0, key) {
        return false;
    }
    if entries.len() == 1 {
        return true;
    }
    is_above_at(entries, 1, key)
}

/// The entries before those of greater keys.
fn upto_key<'a>(entries: &'a [KeyPlace], key: &Labels) -> &'a [KeyPlace]
    requires { IsSorted place_cmp entries.now }
    ensures { result.now ≡ filter (λ x. not (is_gt (labels_cmp x.key key.now))) entries.now }
{
    if is_first_alone(entries, key) {
        return &entries[..1];
    }
    let count = entries.partition_point(|x| !is_above(&x.key, key));
    &entries[..count]
}

/// Keys with their places.
fn placed(alloc: Global, keys: Vec<Labels>) -> Result<Vec<KeyPlace>, OutOfMemory>
    ensures { IfOk result (λ v. v.items ≡ placed 0 keys.items) }
{
    let mut found = Vec::with_capacity(alloc, keys.len())?;
    let mut place = 0;
    for key in keys {
        found.push(KeyPlace { key, place })?;
        place += 1;
    }
    Ok(found)
}

impl KeyPlaces {
    /// The places of some keys.
    pub fn of(alloc: Global, keys: Vec<Labels>) -> Result<KeyPlaces, OutOfMemory>
        ensures { IfOk result (λ x. x ≡ isort place_cmp (placed 0 keys.items)) }
    {
        let entries = placed(alloc, keys)?;
        let entries = in_key_order(entries)?;
        Ok(KeyPlaces { entries })
    }

    /// The places of a key in their order, and how many places have lesser keys. So many as are told are tried first: those
    /// that were found of the key before are near, where keys come in order.
    pub fn with_key(&self, key: &Labels, near: usize) -> (&[KeyPlace], usize)
        ensures places { result.0.now ≡ places_with key.now self.now }
        ensures within { result.1 ≤ length self.now }
        ensures lesser { drop result.1 self.now ≡ filter (λ x. not (is_lt (labels_cmp x.key key.now))) self.now }
    {
        let count = lesser(&self.entries, key, near);
        let entries = behind(&self.entries, count);
        (upto_key(entries, key), count)
    }

    /// Whether two places have equal keys.
    #[tactic(auto, using(crate::proofs::KeyOrder::places_repeat))]
    pub fn has_equal(&self) -> bool
        ensures { result ≡ has_equal (map key_of self.now) }
    {
        repeats_keys(&self.entries)
    }
}
