//! What is kept of a planned query.

ghost use Rattle.std.specs.Arc.{arc_value};
ghost use Rattle.std.specs.Prelude.{◌≡◌, ◌<◌, ◌≤◌, ◌+◌, ◌++◌, false, IfOk, length, map, vec_capacity};
ghost use Rattle.pf_base.specs.Limits.{most_steps};
ghost use Rattle.pf_model.specs.Lists.{Each};
ghost use Rattle.pf_shard.specs.Lawful.{IsLawful, legs_data};
ghost use Rattle.pf_query.specs.Covers.{covers};
ghost use Rattle.pf_query.specs.Works.{IsFilled, filled, handed_out, offered, planned_work};
ghost use Rattle.pf_extent.specs.Done.{steps_in};
ghost use Rattle.pf_query.specs.declared.slot.Slot.TheVariants.{Filled, Handed};

use crate::cover::covers;
use crate::done::count_steps;
use crate::gathered::Gathered;
use crate::slot::Slot;
use pf_base::{Grid, OutOfMemory};
use pf_extent::DoneCells;
use pf_shard::{Legs, Part, leg_count};
use std::alloc::Global;
use std::marker::Model;
use std::mem;
use std::sync::Arc;

/// The legs and the runs of a planned query, a slot for each run and leg, run by run and leg by leg, and how many steps were
/// cached, whose cells are handed out with the parts; and whether the query is offered, so that all that is to be kept of it was
/// handed to the cache.
#[derive(Drop)]
pub struct Work {
    legs: Arc<Legs>,
    runs: Vec<Grid>,
    slots: Vec<Slot>,
    gathered: Option<Gathered>,
    cached: u32,
    offered: bool,
}

impl Model for Work {
    ghost use Rattle.std.specs.Arc.{arc_value};
    ghost use Rattle.pf_query.specs.Gathering.{IsReserved, cached_in, is_given};
    ghost use Rattle.pf_query.specs.Works.{WorkData};

    ghost Value = { WorkData };

    ghost use Rattle.pf_query.specs.WorkCode.{work_code};

    ghost coded = { work_code };

    ghost view = { λ w. record { legs = arc_value w.legs; runs = w.runs.items; slots = w.slots.items; cached = cached_in w.gathered; cached_steps = w.cached; offered = w.offered; given = is_given w.gathered } };

    ghost invariant = { λ w. IsReserved (arc_value w.legs) w.runs.items w.slots.items w.gathered };
}

/// Moves the part out of a slot that is filled.
fn take_part(slot: &mut Slot) -> Part
    requires { IsFilled slot.old }
    ensures part { slot.old ≡ Filled result }
    ensures after { slot.new ≡ Handed }
{
    let Slot::Filled(part) = mem::replace(slot, Slot::Handed) else {
        unreachable!()
    };
    part
}

/// Moves the parts of slots that are all filled.
fn move_parts(slots: &mut Vec<Slot>, parts: &mut Vec<Part>)
    requires full { Each IsFilled slots.old.items }
    requires room { length parts.old.items + length slots.old.items ≤ vec_capacity parts.old }
    ensures slots { slots.new.items ≡ map (λ s. Handed) slots.old.items }
    ensures parts { map (λ p. Filled p) parts.new.items ≡ map (λ p. Filled p) parts.old.items ++ slots.old.items }
{
    for i in 0..slots.len() {
        parts.push_reserved(take_part(&mut slots[i]));
    }
}

/// The same runs again.
fn copied(alloc: Global, runs: &[Grid]) -> Result<Vec<Grid>, OutOfMemory>
    ensures { IfOk result (λ v. v.items ≡ runs.now) }
{
    let mut copies = Vec::with_capacity(alloc, runs.len())?;
    copies.extend_from_slice(runs)?;
    Ok(copies)
}

impl Work {
    /// What is kept of a query that is planned over these legs and runs, with these cells of its other steps: no part yet. All that
    /// is handed out is reserved here.
    pub fn new(
        alloc: Global,
        legs: Arc<Legs>,
        runs: Vec<Grid>,
        cached: Vec<DoneCells>,
        offered: bool,
    ) -> Result<Work, OutOfMemory>
        requires lawful { IsLawful (legs_data (arc_value legs)) }
        requires few { length runs.items ≤ most_steps + 1 }
        requires few_cached { steps_in cached.items ≤ most_steps + 1 }
        ensures { IfOk result (λ w. w ≡ planned_work (arc_value legs) runs.items cached.items offered) }
    {
        let count = count_steps(&cached);
        let jobs = runs.len() * leg_count(&legs) as usize;
        let mut slots = Vec::with_capacity(alloc, jobs)?;
        for _job in 0..jobs {
            slots.push(Slot::Empty)?;
        }
        let gathered = Gathered {
            legs: Arc::try_clone(&legs)?,
            runs: copied(alloc, &runs)?,
            parts: Vec::with_capacity(alloc, jobs)?,
            cached,
        };
        Ok(Work {
            legs,
            runs,
            slots,
            gathered: Some(gathered),
            cached: count,
            offered,
        })
    }

    /// Puts in a job's part.
    pub fn fill(&mut self, job: u32, part: Part)
        requires { job < length self.old.slots }
        ensures { self.new ≡ filled job part self.old }
    {
        self.slots[job as usize] = Slot::Filled(part);
    }

    /// Whether its parts were handed out.
    pub fn is_given(&self) -> bool
        ensures { result ≡ self.now.given }
    {
        self.gathered.is_none()
    }

    /// Whether the query is offered.
    pub fn is_offered(&self) -> bool
        ensures { result ≡ self.now.offered }
    {
        self.offered
    }

    /// How many steps were cached.
    pub fn cached_steps(&self) -> u32
        ensures { result ≡ self.now.cached_steps }
    {
        self.cached
    }

    /// Whether cells cover its runs.
    pub fn is_covered(&self, cells: &[DoneCells]) -> bool
        ensures { result ≡ covers self.now.runs cells.now }
    {
        covers(&self.runs, cells)
    }

    /// The query is offered from now on.
    pub fn offer(&mut self)
        ensures { self.new ≡ offered self.old }
    {
        self.offered = true;
    }

    /// Hands out the parts, all of which are there, and the cached cells. It takes no memory.
    pub fn hand_out(&mut self) -> Gathered
        requires given { self.old.given ≡ false }
        requires full { Each IsFilled self.old.slots }
        ensures legs { arc_value result.legs ≡ self.old.legs }
        ensures runs { result.runs.items ≡ self.old.runs }
        ensures parts { map (λ p. Filled p) result.parts.items ≡ self.old.slots }
        ensures cached { result.cached.items ≡ self.old.cached }
        ensures after { self.new ≡ handed_out self.old }
    {
        let Some(mut gathered) = self.gathered.take() else {
            unreachable!()
        };
        move_parts(&mut self.slots, &mut gathered.parts);
        gathered
    }
}
