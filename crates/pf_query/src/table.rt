//! The table.

ghost use Rattle.std.specs.Arc.{arc_value};
ghost use Rattle.std.specs.HashMap.{get};
ghost use Rattle.std.specs.Option.{option_map};
ghost use Rattle.std.specs.Prelude.{◌+◌, ◌≡◌, ℕ, ◌<◌, ◌≤◌, [], IfOk, IfErr, IfSome, IsSome, None, OnErr, OnOk, Some, length, nat_eq};
ghost use Rattle.pf_base.specs.Limits.{most_steps};
ghost use Rattle.pf_journal.specs.Machine.{most_tenants};
ghost use Rattle.pf_shard.specs.Lawful.{IsLawful, legs_data};
ghost use Rattle.pf_query.specs.Entries.{state_of};
ghost use Rattle.pf_extent.specs.Done.{steps_in};
ghost use Rattle.pf_query.specs.Tables.{IsClosed, IsCollected, IsFailed, IsFinished, IsLacking, IsNew, IsOffered, IsOpened, IsPlannedOver, IsSameTable, IsStopped, IsTable, IsUnplanned, TakesFrom, entry_in, is_covered_in, last_tries, progress_of};
ghost use Rattle.pf_query.specs.declared.stop.Stop.TheVariants.{Cancelled, Starved};

use crate::answers::{Collected, FailedTry, Finished, PlanError, Planned, Progress};
use crate::entry::{self, Entries};
use crate::job::Held;
use crate::plan::planned_jobs;
use crate::queues::Queues;
use crate::state::EntryState;
use crate::stop::Stop;
use crate::work::Work;
use pf_base::{Grid, OutOfMemory};
use pf_block::Snap;
use pf_extent::DoneCells;
use pf_shard::{Legs, Part};
use std::alloc::Global;
use std::collections::HashMap;
use std::sync::Arc;

/// The outstanding queries of 1,024 tenants, each with a slot for each of its jobs once it is planned, and the jobs that wait and
/// that are in hand.
#[derive(Drop)]
pub struct Table {
    entries: Entries,
    queues: Queues,
}

impl Table {
    /// No query is outstanding.
    pub fn new(alloc: Global) -> Result<Table, OutOfMemory>
        ensures empty { IfOk result IsNew }
        ensures table { IfOk result IsTable }
    {
        Ok(Table {
            entries: HashMap::new(alloc),
            queues: Queues::open(alloc)?,
        })
    }

    /// Opens a query of a tenant. Where memory runs out, nothing is changed.
    pub fn open(&mut self, query: u64, tenant: u32) -> Result<(), OutOfMemory>
        requires table { IsTable self.old }
        requires fresh { entry_in self.old query ≡ None }
        requires known { tenant < most_tenants }
        ensures ok { OnOk result (IsOpened self.old query tenant self.new) }
        ensures err { OnErr result (IsSameTable self.old self.new) }
        ensures table { IsTable self.new }
    {
        entry::add(&mut self.entries, query, tenant)?;
        Ok(())
    }

    /// Ends a query, if it is outstanding: none of its jobs waits or is in hand any more. It takes no memory, as all calls but
    /// `new`, `open` and `plan`.
    pub fn close(&mut self, query: u64)
        requires { IsTable self.old }
        ensures closed { IsClosed self.old query self.new }
        ensures table { IsTable self.new }
    {
        let Some(entry) = self.entries.remove(&query) else {
            return;
        };
        let waits = entry::may_wait(entry.stop, entry.queued);
        let is_in_hand = entry::may_be_in_hand(entry.stop, entry.in_hand);
        self.queues.drop_some_waiting(entry.tenant, query, waits);
        self.queues.drop_some_hands(entry.tenant, query, is_in_hand);
    }

    /// Plans a query over its runs, with the cells of its other steps: from then on one job waits for each run and each leg, run by
    /// run and leg by leg. It tells how many steps these cells are of. A refused call changes nothing.
    pub fn plan(
        &mut self,
        alloc: Global,
        query: u64,
        legs: Arc<Legs>,
        runs: Vec<Grid>,
        cached: Vec<DoneCells>,
        offered: bool,
        snap: &Arc<Snap>,
    ) -> Result<Planned, PlanError>
        requires table { IsTable self.old }
        requires outstanding { IsSome (entry_in self.old query) }
        requires lawful { IsLawful (legs_data (arc_value legs)) }
        requires few { length runs.items ≤ most_steps + 1 }
        requires few_cached { steps_in cached.items ≤ most_steps + 1 }
        ensures ok { IfOk result (λ p. IsPlannedOver self.old query (arc_value legs) runs.items cached.items offered (arc_value snap.now) p.jobs self.new) }
        ensures cached { IfOk result (λ p. p.cached ≡ steps_in cached.items) }
        ensures err { IfErr result (λ e. IsUnplanned (entry_in self.old query) e × IsSameTable self.old self.new) }
        ensures table { IsTable self.new }
    {
        let Some(state) = entry::state(&self.entries, query) else {
            unreachable!()
        };
        if state.planned {
            return Err(PlanError::PlannedBefore);
        }
        if let Some(why) = state.stop {
            return Err(PlanError::Stopped { why });
        }
        let jobs = planned_jobs(alloc, state.tenant, query, &legs, &runs, snap)?;
        let count = jobs.len() as u32;
        let work = Work::new(alloc, legs, runs, cached, offered)?;
        let steps = work.cached_steps();
        self.queues.add(state.tenant, jobs)?;
        entry::plan(&mut self.entries, query, work, count);
        Ok(Planned {
            cached: steps,
            jobs: count,
        })
    }

    /// Hands the first job of the first tenant in turn to an actor; the tenant is last from then on, if it has more jobs that
    /// wait. None exactly where no job waits.
    pub fn take(&mut self, actor: u32) -> Option<Held>
        requires { IsTable self.old }
        ensures taken { TakesFrom self.old actor result self.new }
        ensures table { IsTable self.new }
    {
        let held = self.queues.take(actor)?;
        entry::take(&mut self.entries, held.head.query);
        Some(held)
    }

    /// Puts the part of a job in hand into its slot.
    pub fn finish(&mut self, held: Held, part: Part) -> Finished
        requires { IsTable self.old }
        ensures finished { IsFinished self.old held part result self.new }
        ensures table { IsTable self.new }
    {
        let query = held.head.query;
        let Some(state) = entry::state(&self.entries, query) else {
            return Finished::NotHeld;
        };
        let found = self.queues.release(&held);
        if let Some(why) = state.stop {
            return Finished::Gone { why };
        }
        if !found {
            return Finished::NotHeld;
        }
        entry::store(&mut self.entries, query, held.head.job, part);
        Finished::Stored
    }

    /// Lets a job in hand wait again, last of its tenant's, since it failed. At its fifth failure its query is stopped. The try is
    /// counted for the query, up to 2^64 - 1.
    pub fn fail(&mut self, held: Held) -> FailedTry
        requires { IsTable self.old }
        ensures failed { IsFailed self.old held result self.new }
        ensures table { IsTable self.new }
    {
        let query = held.head.query;
        let Some(state) = entry::state(&self.entries, query) else {
            return FailedTry::NotHeld;
        };
        if let Some(why) = state.stop {
            if self.queues.release(&held) {
                entry::count_try(&mut self.entries, query);
            }
            return FailedTry::Gone { why };
        }
        if held.head.tries >= 4 {
            return self.exhaust(held, state);
        }
        let tries = held.head.tries + 1;
        if !self.queues.put_back(held) {
            return FailedTry::NotHeld;
        }
        entry::put_back(&mut self.entries, query);
        FailedTry::Again { tries }
    }

    /// Stops a query that isn't, since a job of it failed for the fifth time.
    fn exhaust(&mut self, held: Held, state: EntryState) -> FailedTry
        requires table { IsTable self.old }
        requires told { Some state ≡ option_map state_of (get nat_eq self.old.entries held.head.query) }
        requires running { state.stop ≡ None }
        requires last { 4 ≤ held.head.tries }
        ensures failed { IsFailed self.old held result self.new }
        ensures table { IsTable self.new }
    {
        let query = held.head.query;
        let job = held.head.job;
        if !self.queues.release(&held) {
            return FailedTry::NotHeld;
        }
        entry::exhaust(&mut self.entries, query, job);
        self.queues.drop_waiting(state.tenant, query);
        FailedTry::Exhausted { job }
    }

    /// Takes a job out of its actor's hand, and stops its query for want of memory.
    pub fn lack_job(&mut self, held: Held)
        requires { IsTable self.old }
        ensures stopped { IsLacking self.old held self.new }
        ensures table { IsTable self.new }
    {
        let query = held.head.query;
        let Some(state) = entry::state(&self.entries, query) else {
            return;
        };
        self.queues.release(&held);
        entry::stop(&mut self.entries, query, Stop::Starved);
        self.queues.drop_waiting(state.tenant, query);
    }

    /// Cancels a query at this place of the journal, if it is outstanding: its jobs wait no more. A cancel is in place of another
    /// stop.
    pub fn cancel(&mut self, query: u64, place: u64)
        requires { IsTable self.old }
        ensures stopped { IsStopped self.old query (Cancelled place) self.new }
        ensures table { IsTable self.new }
    {
        self.stop(query, Stop::Cancelled { place });
    }

    /// Stops a query for want of memory, if it is outstanding and wasn't stopped before: its jobs wait no more.
    pub fn lack_query(&mut self, query: u64)
        requires { IsTable self.old }
        ensures stopped { IsStopped self.old query Starved self.new }
        ensures table { IsTable self.new }
    {
        self.stop(query, Stop::Starved);
    }

    /// Stops a query, if it is outstanding, but not by a job of it: its jobs wait no more. A cancel is in place of another stop, and
    /// else the first stop stays.
    fn stop(&mut self, query: u64, why: Stop)
        requires table { IsTable self.old }
        requires untried { last_tries (Some why) ≡ 0 }
        ensures stopped { IsStopped self.old query why self.new }
        ensures table { IsTable self.new }
    {
        let Some(state) = entry::state(&self.entries, query) else {
            return;
        };
        entry::stop(&mut self.entries, query, why);
        self.queues.drop_waiting(state.tenant, query);
    }

    /// What a query has. Where it has all its parts, they are handed out, once. None exactly where it isn't outstanding.
    pub fn collect(&mut self, query: u64) -> Option<Collected>
        requires { IsTable self.old }
        ensures collected { IsCollected self.old query result self.new }
        ensures table { IsTable self.new }
    {
        let state = entry::state(&self.entries, query)?;
        if let Some(why) = state.stop {
            return Some(Collected::Stopped { why });
        }
        if !state.planned {
            return Some(Collected::Unplanned);
        }
        let open = state.queued as u64 + state.in_hand as u64;
        if open > 0 {
            return Some(Collected::Waiting {
                queued: state.queued,
                in_hand: state.in_hand,
            });
        }
        if state.given {
            return Some(Collected::Given);
        }
        let gathered = entry::hand_out(&mut self.entries, query)?;
        Some(Collected::Parts(gathered))
    }

    /// Notes that a query is offered, if it is planned.
    pub fn offer(&mut self, query: u64)
        requires { IsTable self.old }
        ensures offered { IsOffered self.old query self.new }
        ensures table { IsTable self.new }
    {
        entry::offer(&mut self.entries, query);
    }

    /// Whether evaluated cells cover the runs of a query's jobs, in their order: not where it isn't outstanding or planned.
    pub fn is_covered(&self, query: u64, cells: &[DoneCells]) -> bool
        ensures { result ≡ is_covered_in (entry_in self.now query) cells.now }
    {
        entry::is_covered(&self.entries, query, cells)
    }

    /// What is told of a query. None exactly where it isn't outstanding.
    pub fn look(&self, query: u64) -> Option<Progress>
        ensures { result ≡ option_map progress_of (entry_in self.now query) }
    {
        let state = entry::state(&self.entries, query)?;
        Some(Progress {
            tenant: state.tenant,
            planned: state.planned,
            given: state.given,
            offered: state.offered,
            cached: state.cached,
            stop: state.stop,
        })
    }
}
