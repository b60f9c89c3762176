//! What is kept of evaluated steps.

ghost use Rattle.std.specs.Arc.{arc_value};
ghost use Rattle.std.specs.Prelude.{◌+◌, ◌≡◌, ℕ, ◌≤◌, false, IfOk, IsSome, MatchOption, OnErr, OnOk, Some, take};
ghost use Rattle.pf_base.specs.Limits.{most_steps};
ghost use Rattle.pf_extent.specs.Done.{steps_in};
ghost use Rattle.pf_journal.specs.Machine.{Open, open_at};
ghost use Rattle.pf_model.specs.Lists.{Each};
ghost use Rattle.pf_model.specs.Log.{Rules};
ghost use Rattle.pf_results.specs.Pieces.{AreEvaluated, IsDoneAt, fixed_over, kept_over};
ghost use Rattle.pf_results.specs.Truth.{AreTrue, Logs};
ghost use Rattle.pf_core.specs.Cached.{asker_of, fixed_by, kept_by};
ghost use Rattle.pf_core.specs.Calls.{IsKeepable, IsKeptOf, KeepsCells, generation_of};
ghost use Rattle.pf_core.specs.Divisions.{IsNewer, IsOfferedIf, asker_by, key_by};
ghost use Rattle.pf_core.specs.States.{IsSameButCache, IsState, core_of, machine_in};

use crate::answers::Kept;
use crate::plan::{asker_of, key_of, tree_in};
use crate::query::Query;
use crate::state::State;
use pf_asked::Asked;
use pf_base::OutOfMemory;
use pf_extent::DoneCells;
use pf_results::Results;
use std::alloc::Global;

/// Keeps the fixed steps of evaluated cells of a range query, each of one interval: how many.
fn keep_of(
    alloc: Global,
    results: &mut Results,
    query: &Query,
    interval: u64,
    cells: &[DoneCells],
) -> Result<u32, OutOfMemory>
    requires ranged { (arc_value query.now.asked).instant ≡ false }
    requires cut { 1 ≤ interval }
    requires each { Each (IsDoneAt (arc_value query.now.asked).query.grid.step) cells.now }
    requires few { steps_in cells.now ≤ most_steps + 1 }
    ensures ok { OnOk result (results.new ≡ kept_over (key_by query.now) (arc_value query.now.asked).query.tree (asker_by query.now.pin) interval cells.now results.old) }
    ensures count { IfOk result (λ n. n ≡ fixed_over (arc_value query.now.asked).query.tree (asker_by query.now.pin) cells.now) }
    ensures err { OnErr result ((count : ℕ) × (results.new ≡ kept_over (key_by query.now) (arc_value query.now.asked).query.tree (asker_by query.now.pin) interval (take count cells.now) results.old)) }
    ensures kept { (rules : Rules) (logs : Logs) → AreTrue rules interval logs results.old.entries → AreEvaluated rules interval logs (key_by query.now) (asker_by query.now.pin) (arc_value query.now.asked).query.tree cells.now → AreTrue rules interval logs results.new.entries }
{
    let asked: &Asked = &query.asked;
    let expr = tree_in(asked);
    let asker = asker_of(&query.pin);
    let mut key = key_of(query)?;
    results.keep_all(alloc, &mut key, expr, &asker, interval, cells)
}

impl State {
    /// How often samples of an open query's tenant were deleted, where some were since the ask.
    fn newer_generation(&self, query: u64) -> Result<Option<u64>, OutOfMemory>
        requires state { IsState self.now }
        requires open { IsSome (open_at query (machine_in self.now).queries) }
        ensures { IfOk result (λ g. (o : Open) → open_at query (machine_in self.now).queries ≡ Some o → IsNewer (core_of self.now) o g) }
    {
        let Some(open) = self.queries.get(&query) else {
            unreachable!()
        };
        let generation = self.tenants.generation(open.tenant)?;
        if generation == open.pin.generation {
            return Ok(None);
        }
        Ok(Some(generation))
    }

    /// Keeps the fixed steps of evaluated cells of an open range query: how many.
    fn keep_fixed(&mut self, query: u64, cells: &[DoneCells]) -> Result<u32, OutOfMemory>
        requires state { IsState self.old }
        requires keepable { IsKeepable (core_of self.old) query cells.now }
        ensures state { IsState self.new }
        ensures same { IsSameButCache self.old self.new }
        ensures ok { OnOk result ((o : Open) → open_at query (machine_in self.old).queries ≡ Some o → self.new.results ≡ kept_by self.old.limits o cells.now self.old.results) }
        ensures count { IfOk result (λ n. (o : Open) → open_at query (machine_in self.old).queries ≡ Some o → n ≡ fixed_by self.old.limits o cells.now) }
        ensures err { OnErr result ((o : Open) → open_at query (machine_in self.old).queries ≡ Some o → (count : ℕ) × (self.new.results ≡ kept_by self.old.limits o (take count cells.now) self.old.results)) }
    {
        let Some(open) = self.queries.get(&query) else {
            unreachable!()
        };
        keep_of(
            self.alloc,
            &mut self.results,
            open,
            self.limits.interval,
            cells,
        )
    }

    /// Keeps the fixed steps of evaluated cells of an open range query, unless samples of its tenant were deleted since the ask.
    fn keep_cells(&mut self, query: u64, cells: &[DoneCells]) -> Kept
        requires state { IsState self.old }
        requires keepable { IsKeepable (core_of self.old) query cells.now }
        ensures state { IsState self.new }
        ensures same { IsSameButCache self.old self.new }
        ensures keeps { (o : Open) → open_at query (machine_in self.old).queries ≡ Some o → KeepsCells (core_of self.old) o cells.now result self.new.results }
    {
        match self.newer_generation(query) {
            Err(OutOfMemory) => Kept::NoMemory,
            Ok(Some(generation)) => Kept::Outdated { generation },
            Ok(None) => match self.keep_fixed(query, cells) {
                Ok(steps) => Kept::Steps(steps),
                Err(OutOfMemory) => Kept::NoMemory,
            },
        }
    }

    /// Notes that an open query is offered, where cells have the steps of its jobs' runs.
    fn offer_covered(&mut self, query: u64, cells: &[DoneCells])
        requires { IsState self.old }
        ensures state { IsState self.new }
        ensures offered { IsOfferedIf (core_of self.old) query cells.now (core_of self.new) }
    {
        if !self.table.is_covered(query, cells) {
            return;
        }
        self.table.offer(query);
    }

    /// Offers evaluated cells of an open range query to the cache.
    pub fn keep(&mut self, query: u64, cells: &[DoneCells]) -> Kept
        requires state { IsState self.old }
        requires keepable { IsKeepable (core_of self.old) query cells.now }
        ensures state { IsState self.new }
        ensures kept { IsKeptOf (core_of self.old) query cells.now result (core_of self.new) }
    {
        let kept = self.keep_cells(query, cells);
        self.offer_covered(query, cells);
        kept
    }
}
