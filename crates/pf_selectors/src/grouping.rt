//! The groups of series, by what their labels are.

ghost use Rattle.std.specs.Prelude.{◌≡◌, ◌<◌, ℕ, IfOk, IfSome, Some, None, cond, false, List, [], ◌∷◌, ◌++◌, length, map, nat_eq, slice_index_or, take};
ghost use Rattle.std.specs.List.{All, list_any};
ghost use Rattle.pf_base.specs.LabelSets.{Pairs};
ghost use Rattle.pf_block.specs.Snaps.{labels_of};
ghost use Rattle.pf_columns.specs.Groups.{groups_by};
ghost use Rattle.pf_model.specs.Aggregation.{group_key};
ghost use Rattle.pf_selectors.specs.Grouping.{Adds, AreNoted, AreNumbered, key_at, keys_at};

use pf_base::{Labels, OutOfMemory};
use pf_block::{Postings, Snap};
use pf_columns::{GroupIds, key_behind};
use pf_model::Grouping;
use std::alloc::Global;

/// Of fewer series than this nothing is noted, and so of those that are fewer than one in this many.
const FEW: usize = 64;

const SPARSE: usize = 16;

/// Series that are numbered one after another: their keys, of which some may be equal, and the place of each one's key among
/// them. It is noted of the series by id, as far as it is known already.
#[derive(Drop)]
struct Numbering {
    keys: Vec<Labels>,
    noted: Vec<Option<u32>>,
    numbers: Vec<usize>,
}

/// What is noted of a series.
fn noted(known: &[Option<u32>], id: u32) -> Option<u32>
    ensures { result ≡ slice_index_or known.now id None }
{
    match known.get(id as usize) {
        Some(number) => *number,
        None => None,
    }
}

/// Notes a number on some series.
fn note(known: &mut Vec<Option<u32>>, ids: Postings<'_>, number: u32)
    ensures count { length known.new.items ≡ length known.old.items }
    ensures noted { (k : ℕ) → k < length known.old.items → slice_index_or known.new.items k None ≡ cond (list_any (nat_eq k) ids.entry) (Some number) (slice_index_or known.old.items k None) }
{
    for id in ids {
        let place = id as usize;
        if place < known.len() {
            known[place] = Some(number);
        }
    }
}

/// The name that `by` has alone.
fn only_name(grouping: &Grouping) -> Option<&str>
    ensures without { IfSome result (λ name. grouping.now.without ≡ false) }
    ensures labels { IfSome result (λ name. grouping.now.labels ≡ name.now ∷ []) }
{
    if grouping.without || grouping.labels.len() != 1 {
        return None;
    }
    Some(grouping.labels[0].as_str())
}

/// Notes the number of a series' key for all that have the same value, where the key is one label.
fn note_alike(known: &mut Vec<Option<u32>>, snap: &Snap, grouping: &Grouping, id: u32, number: u32)
    requires { id < length snap.now.labels }
    ensures { (keys : List Pairs) → number < length keys → slice_index_or keys number [] ≡ key_at (group_key grouping.now.without grouping.now.labels) snap.now.labels id
        → AreNoted (group_key grouping.now.without grouping.now.labels) snap.now.labels keys known.old.items
        → AreNoted (group_key grouping.now.without grouping.now.labels) snap.now.labels keys known.new.items }
{
    if known.is_empty() {
        return;
    }
    let Some(name) = only_name(grouping) else {
        return;
    };
    let value = snap.labels(id).get(name);
    if value.is_empty() {
        return;
    }
    let _count = snap.series_count();
    note(known, snap.postings(name, value), number);
}

impl Numbering {
    /// No series is numbered yet, of the `count` that will be.
    fn start(
        alloc: Global,
        snap: &Snap,
        grouping: &Grouping,
        count: usize,
    ) -> Result<Numbering, OutOfMemory>
        ensures keys { IfOk result (λ n. n.keys.items ≡ []) }
        ensures numbers { IfOk result (λ n. n.numbers.items ≡ []) }
        ensures noted { IfOk result (λ n. (k : ℕ) → slice_index_or n.noted.items k None ≡ None) }
    {
        let all = snap.series_count() as usize;
        let keys = Vec::new(alloc);
        let numbers = Vec::with_capacity(alloc, count)?;
        if only_name(grouping).is_none() || count < FEW || count < all / SPARSE {
            return Ok(Numbering {
                keys,
                noted: Vec::new(alloc),
                numbers,
            });
        }
        Ok(Numbering {
            keys,
            noted: vec![in alloc; None; all]?,
            numbers,
        })
    }

    /// Makes the key of a series, and gives its number.
    fn made(&mut self, snap: &Snap, grouping: &Grouping, id: u32) -> Result<usize, OutOfMemory>
        requires within { id < length snap.now.labels }
        requires noted { AreNoted (group_key grouping.now.without grouping.now.labels) snap.now.labels self.old.keys.items self.old.noted.items }
        ensures adds { IfOk result (λ n. Adds (key_at (group_key grouping.now.without grouping.now.labels) snap.now.labels id) self.old.keys.items self.new.keys.items n) }
        ensures noted { IfOk result (λ n. AreNoted (group_key grouping.now.without grouping.now.labels) snap.now.labels self.new.keys.items self.new.noted.items) }
        ensures numbers { IfOk result (λ n. self.new.numbers.items ≡ self.old.numbers.items) }
    {
        let number = self.keys.len();
        if number > u32::MAX as usize {
            return Err(OutOfMemory);
        }
        let key = key_behind(self.keys.last(), grouping, snap.labels(id))?;
        self.keys.push(key)?;
        note_alike(&mut self.noted, snap, grouping, id, number as u32);
        Ok(number)
    }

    /// The number of a series' key, which is made where none is noted.
    fn number(&mut self, snap: &Snap, grouping: &Grouping, id: u32) -> Result<usize, OutOfMemory>
        requires within { id < length snap.now.labels }
        requires noted { AreNoted (group_key grouping.now.without grouping.now.labels) snap.now.labels self.old.keys.items self.old.noted.items }
        ensures adds { IfOk result (λ n. Adds (key_at (group_key grouping.now.without grouping.now.labels) snap.now.labels id) self.old.keys.items self.new.keys.items n) }
        ensures noted { IfOk result (λ n. AreNoted (group_key grouping.now.without grouping.now.labels) snap.now.labels self.new.keys.items self.new.noted.items) }
        ensures numbers { IfOk result (λ n. self.new.numbers.items ≡ self.old.numbers.items) }
    {
        if let Some(number) = noted(&self.noted, id) {
            return Ok(number as usize);
        }
        let number = self.made(snap, grouping, id)?;
        Ok(number)
    }

    /// Numbers one more series.
    fn add(&mut self, snap: &Snap, grouping: &Grouping, id: u32) -> Result<(), OutOfMemory>
        requires within { id < length snap.now.labels }
        requires noted { AreNoted (group_key grouping.now.without grouping.now.labels) snap.now.labels self.old.keys.items self.old.noted.items }
        ensures numbered { IfOk result (λ _. (done : List ℕ) → AreNumbered (group_key grouping.now.without grouping.now.labels) snap.now.labels done self.old.keys.items self.old.numbers.items
            → AreNumbered (group_key grouping.now.without grouping.now.labels) snap.now.labels (done ++ id ∷ []) self.new.keys.items self.new.numbers.items) }
        ensures noted { IfOk result (λ _. AreNoted (group_key grouping.now.without grouping.now.labels) snap.now.labels self.new.keys.items self.new.noted.items) }
    {
        let number = self.number(snap, grouping, id)?;
        self.numbers.push(number)?;
        Ok(())
    }
}

/// Numbers series one after another.
fn each_numbered(
    alloc: Global,
    snap: &Snap,
    ids: &[u32],
    grouping: &Grouping,
) -> Result<Numbering, OutOfMemory>
    requires { All (λ id. id < length snap.now.labels) ids.now }
    ensures { IfOk result (λ n. AreNumbered (group_key grouping.now.without grouping.now.labels) snap.now.labels ids.now n.keys.items n.numbers.items) }
{
    let mut numbering = Numbering::start(alloc, snap, grouping, ids.len())?;
    for id in ids {
        numbering.add(snap, grouping, *id)?;
    }
    Ok(numbering)
}

/// The key of the first series, where there is one.
fn first_key(
    alloc: Global,
    snap: &Snap,
    ids: &[u32],
    grouping: &Grouping,
) -> Result<Vec<Labels>, OutOfMemory>
    requires { All (λ id. id < length snap.now.labels) ids.now }
    ensures { IfOk result (λ v. v.items ≡ keys_at (group_key grouping.now.without grouping.now.labels) snap.now.labels (take 1 ids.now)) }
{
    let mut keys = Vec::new(alloc);
    if ids.is_empty() {
        return Ok(keys);
    }
    keys.push(key_behind(None, grouping, snap.labels(ids[0]))?)?;
    Ok(keys)
}

/// Numbers series that all have one key, as under `by ()`: the labels of the others aren't read.
fn alike(
    alloc: Global,
    snap: &Snap,
    ids: &[u32],
    grouping: &Grouping,
) -> Result<Numbering, OutOfMemory>
    requires within { All (λ id. id < length snap.now.labels) ids.now }
    requires without { grouping.now.without ≡ false }
    requires labels { length grouping.now.labels ≡ 0 }
    ensures { IfOk result (λ n. AreNumbered (group_key grouping.now.without grouping.now.labels) snap.now.labels ids.now n.keys.items n.numbers.items) }
{
    let keys = first_key(alloc, snap, ids, grouping)?;
    let numbers = vec![in alloc; 0; ids.len()]?;
    Ok(Numbering {
        keys,
        noted: Vec::new(alloc),
        numbers,
    })
}

/// The number of each series' key.
fn numbered(
    alloc: Global,
    snap: &Snap,
    ids: &[u32],
    grouping: &Grouping,
) -> Result<Numbering, OutOfMemory>
    requires { All (λ id. id < length snap.now.labels) ids.now }
    ensures { IfOk result (λ n. AreNumbered (group_key grouping.now.without grouping.now.labels) snap.now.labels ids.now n.keys.items n.numbers.items) }
{
    if !grouping.without && grouping.labels.is_empty() {
        let found = alike(alloc, snap, ids, grouping)?;
        return Ok(found);
    }
    let found = each_numbered(alloc, snap, ids, grouping)?;
    Ok(found)
}

/// The groups of series by their keys: the labels that `by` keeps, or that `without` leaves. A key of one label is made once for
/// all series that have its value, where these are not few of all, so that most label sets aren't read.
pub fn series_groups(
    alloc: Global,
    snap: &Snap,
    ids: &[u32],
    grouping: &Grouping,
) -> Result<GroupIds, OutOfMemory>
    requires inside { All (λ id. id < length snap.now.labels) ids.now }
    ensures { IfOk result (λ g. g ≡ groups_by (group_key grouping.now.without grouping.now.labels) (map (labels_of snap.now) ids.now)) }
{
    let numbering = numbered(alloc, snap, ids, grouping)?;
    let groups = GroupIds::of_numbered(alloc, numbering.keys, &numbering.numbers)?;
    Ok(groups)
}
