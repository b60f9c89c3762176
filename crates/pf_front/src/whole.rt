//! The parts of a query over its whole grid.

ghost use Rattle.std.specs.Prelude.{◌≡◌, ◌≤◌, [], IfOk, IsSome, Some};
ghost use Rattle.pf_base.specs.Grids.{points};
ghost use Rattle.pf_core.specs.Cores.{machine_of};
ghost use Rattle.pf_front.specs.Settling.{AreAllParts, AreFirstParts, HasParts, whole_runs};
ghost use Rattle.pf_front.specs.Spans.{piece_runs};
ghost use Rattle.pf_journal.specs.Machine.{Open, open_at};
ghost use Rattle.pf_shard.specs.Bound.{AreBoundOver};
ghost use Rattle.pf_shard.specs.Lawful.{IsLawful, leg_count, legs_data};
ghost use Rattle.pf_split.specs.Pieces.{pieces_of};

use crate::outcome::grid_of;
use crate::planning::{BoundLegs, legs_of};
use pf_base::{Grid, OutOfMemory};
use pf_block::Snap;
use pf_core::Core;
use pf_eval::eval_leg;
use pf_query::Gathered;
use pf_shard::{Legs, Part, leg_count};
use pf_split::pieces;
use std::alloc::Global;

/// The runs of a grid's pieces, by intervals of a length in milliseconds.
fn piece_runs(alloc: Global, grid: &Grid, interval: u64) -> Result<Vec<Grid>, OutOfMemory>
    requires { 1000 ≤ interval }
    ensures { IfOk result (λ v. v.items ≡ piece_runs (pieces_of interval grid.now.step (points grid.now))) }
{
    let mut runs = Vec::new(alloc);
    for piece in pieces(grid, interval) {
        runs.push(piece.run)?;
    }
    Ok(runs)
}

/// What all legs of a query are over a run.
fn parts_over(alloc: Global, legs: &Legs, snap: &Snap, run: &Grid) -> Result<Vec<Part>, OutOfMemory>
    requires lawful { IsLawful (legs_data legs.now) }
    requires bound { AreBoundOver legs.now snap.now.labels }
    ensures { IfOk result (λ ps. AreFirstParts legs.now snap.now run.now (leg_count (legs_data legs.now)) ps.items) }
{
    let count = leg_count(legs);
    let mut parts = Vec::with_capacity(alloc, count as usize)?;
    for leg in 0..count {
        parts.push(eval_leg(alloc, legs, leg, snap, run)?)?;
    }
    Ok(parts)
}

/// What all legs of a query are over runs, run by run.
fn parts_over_all(
    alloc: Global,
    legs: &Legs,
    snap: &Snap,
    runs: &[Grid],
) -> Result<Vec<Part>, OutOfMemory>
    requires lawful { IsLawful (legs_data legs.now) }
    requires bound { AreBoundOver legs.now snap.now.labels }
    ensures { IfOk result (λ ps. AreAllParts legs.now snap.now runs.now ps.items) }
{
    let mut parts = Vec::new(alloc);
    for run in runs {
        let mut own = parts_over(alloc, legs, snap, run)?;
        parts.append(&mut own)?;
    }
    Ok(parts)
}

/// The parts of an open query over all its pieces, none of whose steps is taken from the cache.
pub(crate) fn whole_parts(alloc: Global, core: &Core, query: u64) -> Result<Gathered, OutOfMemory>
    requires { IsSome (open_at query (machine_of core.now).queries) }
    ensures parts { IfOk result (HasParts core.now (open_at query (machine_of core.now).queries)) }
    ensures runs { IfOk result (λ g. (o : Open) → open_at query (machine_of core.now).queries ≡ Some o → g.runs.items ≡ whole_runs core.now.limits o) }
    ensures none { IfOk result (λ g. g.cached.items ≡ []) }
{
    let grid = grid_of(core, query);
    let BoundLegs { legs, snap } = legs_of(alloc, core, query)?;
    let runs = piece_runs(alloc, &grid, core.interval())?;
    let parts = parts_over_all(alloc, &legs, &snap, &runs)?;
    Ok(Gathered {
        legs,
        runs,
        parts,
        cached: Vec::new(alloc),
    })
}
