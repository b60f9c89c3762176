//! Lists of extents, and a list with one more.

ghost use Rattle.std.specs.Prelude.{◌≡◌, ℕ, ◌-◌, ◌/◌, ◌<◌, ◌≤◌, length, [], ◌++◌, true, cond, IfOk, IfSome, MatchOption, None, Some};
ghost use Rattle.pf_model.specs.Lists.{Each, joined};
ghost use Rattle.pf_extent.specs.Combining.{back_part, combined, front_part, known_with, last_of, of_generation, with_extent};
ghost use Rattle.pf_extent.specs.Steps.{AreApart, AreSpaced, Divides, IsKept, IsLawful, ended, extent_at, has_begun, has_step, known_at, known_of};

use crate::extent::Extent;
use pf_base::OutOfMemory;
use std::alloc::Global;
use std::marker::Model;

/// How many extents a list has at most.
const MOST: usize = 64;

/// Extents in the order of their steps, apart from one another, at most 64 of them.
#[derive(Drop)]
pub struct List {
    extents: Vec<Extent>,
}

impl Model for List {
    ghost use Rattle.pf_extent.specs.Steps.{Extents, IsKept};

    ghost Value = { Extents };

    ghost view = { λ l. l.extents.items };

    ghost invariant = { λ l. IsKept l.extents.items };
}

/// How many extents end before a time.
fn count_ended(extents: &[Extent], time: u64) -> usize
    requires { AreApart extents.now }
    ensures { result ≡ ended time extents.now }
{
    extents.partition_point(|extent| extent.last < time)
}

/// Whether a time is a step of an extent.
fn has_step(extent: &Extent, time: u64) -> bool
    requires { 1 ≤ extent.now.step }
    ensures { result ≡ has_step time extent.now }
{
    extent.first <= time && time <= extent.last && time % extent.step == 0
}

impl List {
    /// No extents.
    pub fn empty(alloc: Global) -> List
        ensures { result ≡ [] }
    {
        List {
            extents: Vec::new(alloc),
        }
    }

    /// All extents, by rising steps.
    pub fn extents(&self) -> &[Extent]
        ensures value { result.now ≡ self.now }
        ensures kept { IsKept result.now }
    {
        &self.extents
    }

    /// The extent that has a step, found by halving.
    pub fn at(&self, step: u64) -> Option<&Extent>
        ensures found { MatchOption result (extent_at step self.now ≡ None) (λ e. extent_at step self.now ≡ Some e.now) }
        ensures known { MatchOption result (known_at step self.now ≡ None) (λ e. known_at step self.now ≡ Some (known_of step e.now)) }
        ensures lawful { IfSome result (λ e. IsLawful e.now) }
        ensures has { IfSome result (λ e. has_step step e.now ≡ true) }
    {
        let place = count_ended(&self.extents, step);
        let extent = self.extents.get(place)?;
        if has_step(extent, step) {
            Some(extent)
        } else {
            None
        }
    }
}

/// How many steps of an extent are before one of its steps.
#[tactic(auto, using(crate::proofs::Parts::place_within))]
fn place_of(extent: &Extent, step: u64) -> u32
    requires lawful { Divides step extent.now }
    requires first { extent.now.first ≤ step }
    requires last { step ≤ extent.now.last }
    ensures value { result ≡ (step - extent.now.first) / extent.now.step }
    ensures within { result < length extent.now.cells }
{
    let place = (step - extent.first) / extent.step;
    let is_within = place < extent.cells.count() as u64;
    prove!(is_within);
    place as u32
}

/// Adds the part of an extent before a step, if it has one.
fn with_front(
    alloc: Global,
    mut parts: Vec<Extent>,
    extent: &Extent,
    first: u64,
) -> Result<Vec<Extent>, OutOfMemory>
    requires { Divides first extent.now }
    ensures { IfOk result (λ v. v.items ≡ parts.items ++ front_part first extent.now) }
{
    if extent.last < first {
        parts.push(extent.clone()?)?;
    } else if extent.first < first {
        let count = place_of(extent, first);
        parts.push(Extent {
            first: extent.first,
            last: first - extent.step,
            step: extent.step,
            pin: extent.pin,
            generation: extent.generation,
            cells: extent.cells.cut(alloc, 0, count)?,
        })?;
    }
    Ok(parts)
}

/// Adds the part of an extent behind a step, if it has one.
fn with_back(
    alloc: Global,
    mut parts: Vec<Extent>,
    extent: &Extent,
    last: u64,
) -> Result<Vec<Extent>, OutOfMemory>
    requires { Divides last extent.now }
    ensures { IfOk result (λ v. v.items ≡ parts.items ++ back_part last extent.now) }
{
    if last < extent.first {
        parts.push(extent.clone()?)?;
    } else if last < extent.last {
        let count = extent.cells.count();
        let from = place_of(extent, last) + 1;
        parts.push(Extent {
            first: last + extent.step,
            last: extent.last,
            step: extent.step,
            pin: extent.pin,
            generation: extent.generation,
            cells: extent.cells.cut(alloc, from, count - from)?,
        })?;
    }
    Ok(parts)
}

/// The parts in front of a new extent of those that are of its generation.
fn fronts(alloc: Global, extents: &[Extent], new: &Extent) -> Result<Vec<Extent>, OutOfMemory>
    requires { Each (Divides new.now.first) extents.now }
    ensures { IfOk result (λ v. v.items ≡ joined (front_part new.now.first) (of_generation new.now.generation extents.now)) }
{
    let mut parts = Vec::with_capacity(alloc, extents.len())?;
    for extent in extents {
        if extent.generation == new.generation {
            parts = with_front(alloc, parts, extent, new.first)?;
        }
    }
    Ok(parts)
}

/// Adds the parts behind a step of the extents of a generation.
fn with_backs(
    alloc: Global,
    mut parts: Vec<Extent>,
    extents: &[Extent],
    generation: u64,
    last: u64,
) -> Result<Vec<Extent>, OutOfMemory>
    requires { Each (Divides last) extents.now }
    ensures { IfOk result (λ v. v.items ≡ parts.items ++ joined (back_part last) (of_generation generation extents.now)) }
{
    for extent in extents {
        if extent.generation == generation {
            parts = with_back(alloc, parts, extent, last)?;
        }
    }
    Ok(parts)
}

/// The last 64 extents.
fn last_ones(mut extents: Vec<Extent>) -> Vec<Extent>
    ensures { result.items ≡ last_of 64 extents.items }
{
    while extents.len() > MOST {
        extents.remove(0);
    }
    extents
}

/// The extents that are of a new one's generation, with the new one in place of its steps.
fn put(alloc: Global, extents: &[Extent], extent: Extent) -> Result<Vec<Extent>, OutOfMemory>
    requires lawful { IsLawful extent }
    requires apart { AreApart extents.now }
    requires step { AreSpaced extent.step extents.now }
    ensures { IfOk result (λ v. v.items ≡ with_extent extents.now extent) }
{
    let generation = extent.generation;
    let last = extent.last;
    let mut parts = fronts(alloc, extents, &extent)?;
    parts.push(extent)?;
    with_backs(alloc, parts, extents, generation, last)
}

/// A list with a new extent in place of what it had at the new one's steps, and without the extents of other generations.
/// Where over 64 extents are left, those with the smallest first steps are dropped, whole. No two are made one.
pub fn combine(list: &List, extent: Extent) -> Result<List, OutOfMemory>
    requires lawful { IsLawful extent }
    requires step { AreSpaced extent.step list.now }
    ensures combined { IfOk result (λ l. l ≡ combined list.now extent) }

    // The same in other words, time by time: before any extent is dropped past 64, and of what is left, which knows nothing
    // before its first step.
    ensures known { (t : ℕ) → known_at t (with_extent list.now extent) ≡ known_with list.now extent t }
    ensures left { IfOk result (λ l. (t : ℕ) → known_at t l ≡ cond (has_begun t l) (known_with list.now extent t) None) }

    ensures kept { IfOk result IsKept }
    ensures step { IfOk result (AreSpaced extent.step) }
{
    let alloc = *list.extents.allocator();
    let extents = put(alloc, &list.extents, extent)?;
    Ok(List {
        extents: last_ones(extents),
    })
}
