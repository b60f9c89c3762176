//! Plans of open queries.

ghost use Rattle.std.specs.Arc.{arc_value};
ghost use Rattle.std.specs.Prelude.{◌≡◌, ◌≤◌, IfErr, IfOk, nat_eq};
ghost use Rattle.pf_base.specs.GridLists.{IsGrid};
ghost use Rattle.pf_base.specs.Grids.{points};
ghost use Rattle.pf_journal.specs.Machine.{Open, open_at};
ghost use Rattle.pf_model.specs.Canonical.{canonical};
ghost use Rattle.pf_model.specs.Trees.{tree_of};
ghost use Rattle.pf_print.specs.OwnTexts.{HasText};
ghost use Rattle.pf_results.specs.Runs.{CanBeAsked};
ghost use Rattle.pf_split.specs.Pieces.{steps_of};
ghost use Rattle.pf_core.specs.Calls.{BindsOpen, IsPlanned, IsUnplanned};
ghost use Rattle.pf_core.specs.Divisions.{Divides, IsDivisionFor, IsPlannedFirst, IsUndivided, asker_by, key_by, pieces_by, used_with};
ghost use Rattle.pf_core.specs.States.{IsSameButCache, IsState, core_of, machine_in};

use crate::query::Query;
use crate::state::State;
use pf_base::{Grid, OutOfMemory};
use pf_block::Snap;
use pf_extent::{Asker, Key};
use pf_model::Expr;
use pf_query::{Asked, PlanError, Planned};
use pf_results::{Found, Results};
use pf_shard::Legs;
use pf_split::pieces;
use pf_store::Pin;
use std::alloc::Global;
use std::sync::Arc;

/// The tree of what is asked. What is asked is lawful.
pub fn tree_in(asked: &Asked) -> &Expr
    ensures tree { tree_of result.now ≡ asked.now.query.tree }
    ensures may { CanBeAsked asked.now.query.tree }
    ensures written { HasText asked.now.query.tree }
    ensures text { canonical asked.now.query.tree ≡ asked.now.text }
    ensures instant { asked.now.instant ≡ nat_eq asked.now.query.grid.step 0 }
{
    &asked.expr
}

/// Who asks over a pin.
pub fn asker_of(pin: &Pin) -> Asker
    ensures { result ≡ asker_by pin.now }
{
    Asker {
        pin: pin.number,
        floor: pin.floor,
        generation: pin.generation,
    }
}

/// The key of a query's steps in the first interval.
pub fn key_of(query: &Query) -> Result<Key, OutOfMemory>
    ensures { IfOk result (λ k. k ≡ key_by query.now) }
{
    let asked: &Asked = &query.asked;
    Ok(Key {
        tenant: query.tenant,
        text: asked.text.clone()?,
        step: asked.grid.step(),
        interval: 0,
    })
}

/// How the steps of a query's grid are divided, and the key by which the cache was asked for them. None: it wasn't.
#[derive(Drop)]
struct Division {
    found: Found,
    key: Option<Key>,
    grid: Grid,
}

/// Does nothing. Its contract: the pieces of a grid have its steps, and a grid is lawful.
fn have_steps(grid: Grid, interval: u64)
    requires { 1000 ≤ interval }
    ensures steps { steps_of (pieces_by interval grid) ≡ points grid }
    ensures lawful { IsGrid grid }
{
    let _pieces = pieces(&grid, interval);
}

/// An instant query's one step.
fn undivided(alloc: Global, grid: Grid) -> Result<Division, OutOfMemory>
    ensures { IfOk result (IsUndivided grid) }
{
    let mut runs = Vec::new(alloc);
    runs.push(grid)?;
    let found = Found {
        cached: Vec::new(alloc),
        runs,
    };
    Ok(Division {
        found,
        key: None,
        grid,
    })
}

/// Divides the steps of a query into those that are cached and the runs of the others. The cache isn't asked for an instant query.
fn divide(
    alloc: Global,
    results: &Results,
    query: &Query,
    interval: u64,
) -> Result<Division, OutOfMemory>
    requires { 1000 ≤ interval }
    ensures { IfOk result (Divides results.now interval query.now) }
{
    let asked: &Asked = &query.asked;
    let grid = asked.grid;
    let expr = tree_in(asked);
    have_steps(grid, interval);
    if asked.instant {
        return undivided(alloc, grid);
    }
    let mut key = key_of(query)?;
    let asker = asker_of(&query.pin);
    let found = results.find_all(alloc, &mut key, expr, &asker, &grid, interval)?;
    Ok(Division {
        found,
        key: Some(key),
        grid,
    })
}

impl State {
    /// Plans an open query whose steps are divided so.
    fn plan_over(
        &mut self,
        query: u64,
        legs: Arc<Legs>,
        found: Found,
        instant: bool,
        snap: &Arc<Snap>,
    ) -> Result<Planned, PlanError>
        requires state { IsState self.old }
        requires legs { BindsOpen self.old.limits (open_at query (machine_in self.old).queries) (arc_value legs) (arc_value snap.now) }
        requires divided { (o : Open) → open_at query (machine_in self.old).queries ≡ Some o → IsDivisionFor self.old.limits self.old.results o found instant }
        ensures state { IsState self.new }
        ensures ok { IfOk result (λ p. IsPlannedFirst (core_of self.old) query p (core_of self.new)) }
        ensures err { IfErr result (λ e. IsUnplanned (core_of self.old) query e (core_of self.new)) }
    {
        let Found { cached, runs } = found;
        let offered = instant || runs.is_empty();
        self.table
            .plan(self.alloc, query, legs, runs, cached, offered, snap)
    }

    /// The keys of a query's intervals are the ones used last.
    fn use_keys(&mut self, key: Option<Key>, grid: &Grid)
        requires { IsState self.old }
        ensures state { IsState self.new }
        ensures same { IsSameButCache self.old self.new }
        ensures used { self.new.results ≡ used_with self.old.limits.interval grid.now key self.old.results }
    {
        if let Some(mut key) = key {
            self.results.touch_all(&mut key, grid, self.limits.interval);
        }
    }

    /// Plans an open query: those of its steps that are cached are found, and its legs wait over the runs of the others.
    #[tactic(auto, using(crate::proofs::Looked::never_unbound))]
    pub fn plan(
        &mut self,
        query: u64,
        legs: Arc<Legs>,
        snap: &Arc<Snap>,
    ) -> Result<Planned, PlanError>
        requires state { IsState self.old }
        requires legs { BindsOpen self.old.limits (open_at query (machine_in self.old).queries) (arc_value legs) (arc_value snap.now) }
        ensures state { IsState self.new }
        ensures ok { IfOk result (λ p. IsPlanned (core_of self.old) query p (core_of self.new)) }
        ensures err { IfErr result (λ e. IsUnplanned (core_of self.old) query e (core_of self.new)) }
    {
        let Some(open) = self.queries.get(&query) else {
            unreachable!()
        };
        let Division { found, key, grid } = divide(
            self.alloc,
            &self.results,
            open,
            self.limits.interval,
        )?;
        let planned = self.plan_over(query, legs, found, key.is_none(), snap)?;
        self.use_keys(key, &grid);
        Ok(planned)
    }
}
