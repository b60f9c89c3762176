//! Which steps of a run can be used of what is kept, and which runs the others are.

ghost use Rattle.std.specs.Prelude.{◌≡◌, ℕ, ◌+◌, ◌-◌, ◌/◌, ◌<◌, ◌≤◌, ◌++◌, pos, not, true, false, IfOk, IfSome, MatchOption, length};
ghost use Rattle.pf_base.specs.Grids.{points};
ghost use Rattle.pf_extent.specs.Steps.{AreSpaced, IsKept, IsLawful, extent_at, has_step};
ghost use Rattle.pf_extent.specs.Uses.{is_usable};
ghost use Rattle.pf_model.specs.Reach.{reach};
ghost use Rattle.pf_model.specs.Trees.{tree_of};
ghost use Rattle.pf_extent.specs.Done.{AreWhole, steps_in};
ghost use Rattle.pf_results.specs.Keeping.{IsEdge};
ghost use Rattle.pf_results.specs.Runs.{CanBeAsked, lengths, runs_of, time_of};
ghost use Rattle.pf_results.specs.Serving.{IsServedPart, is_served, served_steps, steps_of};
ghost use Rattle.pf_results.specs.Woven.{AreWovenIn};

use crate::fixed::edge_of;
use crate::runs::part;
use pf_base::{Grid, OutOfMemory};
use pf_extent::{Asker, DoneCells, Extent, List, usable};
use pf_model::Expr;
use pf_resolve::reach;

/// The cells of steps that can be used, and the runs of the others, both by rising time.
#[derive(Drop)]
pub struct Found {
    pub cached: Vec<DoneCells>,
    pub runs: Vec<Grid>,
}

/// Whether an extent is of later samples than an asker's.
fn has_later(list: &List, asker: &Asker) -> bool {
    for extent in list.extents() {
        if extent.pin > asker.pin {
            return true;
        }
    }
    false
}

/// The first step of a run that isn't fixed, or the number of steps. None where no step asks for it, and where the query isn't
/// steady.
fn edge_over(list: &List, expr: &Expr, asker: &Asker, run: Grid) -> Option<u32>
    requires query { CanBeAsked (tree_of expr.now) }
    ensures { IfSome result (IsEdge (tree_of expr.now) asker.now run) }
{
    if has_later(list, asker) {
        edge_of(expr, asker, run)
    } else {
        None
    }
}

/// Whether an asker can use an extent's cell of a step of a run. The query's reach is asked only where the extent is of later
/// samples and the edge isn't known.
fn serves(
    extent: &Extent,
    expr: &Expr,
    asker: &Asker,
    run: Grid,
    edge: Option<u32>,
    step: u32,
) -> bool
    requires query { CanBeAsked (tree_of expr.now) }
    requires edge { IfSome edge (IsEdge (tree_of expr.now) asker.now run) }
    requires within { step < run.len }
    ensures { result ≡ is_usable extent.now (reach (tree_of expr.now) (pos (time_of run step))) asker.now }
{
    if extent.pin <= asker.pin {
        return usable(extent, None, asker);
    }
    if let Some(edge) = edge {
        return step < edge && usable(extent, None, asker);
    }
    let time = run.at(step);
    usable(extent, reach(expr, time as i64), asker)
}

/// Whether some extent has a step of a run that an asker can use.
fn is_served(
    list: &List,
    expr: &Expr,
    asker: &Asker,
    run: Grid,
    edge: Option<u32>,
    step: u32,
) -> bool
    requires query { CanBeAsked (tree_of expr.now) }
    requires edge { IfSome edge (IsEdge (tree_of expr.now) asker.now run) }
    requires within { step < run.len }
    ensures { result ≡ is_served list.now (tree_of expr.now) asker.now (time_of run step) }
{
    match list.at(run.at(step)) {
        Some(extent) => serves(extent, expr, asker, run, edge, step),
        None => false,
    }
}

/// How many steps of a run from one on an extent has and an asker can use.
fn count_usable(
    extent: &Extent,
    expr: &Expr,
    asker: &Asker,
    run: Grid,
    edge: Option<u32>,
    from: u32,
) -> u32
    requires query { CanBeAsked (tree_of expr.now) }
    requires edge { IfSome edge (IsEdge (tree_of expr.now) asker.now run) }
    requires within { from ≤ run.len }
    ensures within { from + result ≤ run.len }
    ensures last { (k : ℕ) → from ≤ k → k < from + result → time_of run k ≤ extent.now.last }
    ensures usable { (k : ℕ) → from ≤ k → k < from + result → is_usable extent.now (reach (tree_of expr.now) (pos (time_of run k))) asker.now ≡ true }
    ensures none { result ≡ 0 → from < run.len → time_of run from ≤ extent.now.last → is_usable extent.now (reach (tree_of expr.now) (pos (time_of run from))) asker.now ≡ false }
{
    for i in from..run.len() {
        let is_had = run.at(i) <= extent.last;
        if !is_had || !serves(extent, expr, asker, run, edge, i) {
            return i - from;
        }
    }
    run.len() - from
}

/// The place of a step among an extent's.
#[tactic(auto, using(crate::proofs::Extents::place_within))]
fn place_of(extent: &Extent, time: u64) -> u32
    requires lawful { IsLawful extent.now }
    requires has { has_step time extent.now ≡ true }
    ensures { result ≡ (time - extent.now.first) / extent.now.step }
{
    let place = (time - extent.first) / extent.step;
    let is_within = place < extent.cells.count() as u64;
    prove!(is_within);
    place as u32
}

/// The cells of the steps of a run from one on that one extent has and an asker can use; none exactly where the asker can't use
/// that one.
fn served_part(
    list: &List,
    expr: &Expr,
    asker: &Asker,
    run: Grid,
    edge: Option<u32>,
    from: u32,
) -> Result<Option<DoneCells>, OutOfMemory>
    requires query { CanBeAsked (tree_of expr.now) }
    requires edge { IfSome edge (IsEdge (tree_of expr.now) asker.now run) }
    requires step { 1 ≤ run.step }
    requires spaced { AreSpaced run.step list.now }
    requires within { from < run.len }
    ensures { IfOk result (λ o. MatchOption o (is_served list.now (tree_of expr.now) asker.now (time_of run from) ≡ false) (IsServedPart list.now (tree_of expr.now) asker.now run from)) }
{
    let time = run.at(from);
    let _apart = list.extents();
    let Some(extent) = list.at(time) else {
        return Ok(None);
    };
    let count = count_usable(extent, expr, asker, run, edge, from);
    if count == 0 {
        return Ok(None);
    }
    Ok(Some(DoneCells {
        run: part(run, from, count),
        cells: extent.cells.part(place_of(extent, time), count)?,
    }))
}

/// How many steps of a run from one on no extent has that an asker can use.
fn count_missing(
    list: &List,
    expr: &Expr,
    asker: &Asker,
    run: Grid,
    edge: Option<u32>,
    from: u32,
) -> u32
    requires query { CanBeAsked (tree_of expr.now) }
    requires edge { IfSome edge (IsEdge (tree_of expr.now) asker.now run) }
    requires within { from ≤ run.len }
    ensures within { from + result ≤ run.len }
    ensures missing { (k : ℕ) → from ≤ k → k < from + result → is_served list.now (tree_of expr.now) asker.now (time_of run k) ≡ false }
    ensures stops { from + result < run.len → is_served list.now (tree_of expr.now) asker.now (time_of run (from + result)) ≡ true }
{
    for i in from..run.len() {
        if is_served(list, expr, asker, run, edge, i) {
            return i - from;
        }
    }
    run.len() - from
}

/// Adds the steps of a run: those that an asker can use with their cells, and the longest runs of the others.
pub fn find(
    list: &List,
    expr: &Expr,
    asker: &Asker,
    run: Grid,
    found: Found,
) -> Result<Found, OutOfMemory>
    requires query { CanBeAsked (tree_of expr.now) }
    requires step { 1 ≤ run.step }
    requires spaced { AreSpaced run.step list.now }
    requires whole { AreWhole found.cached.items }
    ensures cached { IfOk result (λ f. steps_of f.cached.items ≡ steps_of found.cached.items ++ served_steps list.now (tree_of expr.now) asker.now (points run)) }
    ensures whole { IfOk result (λ f. AreWhole f.cached.items) }
    ensures runs { IfOk result (λ f. f.runs.items ≡ found.runs.items ++ runs_of run.step (λ t. not (is_served list.now (tree_of expr.now) asker.now t)) (points run)) }
    ensures all { IfOk result (λ f. steps_in f.cached.items + lengths f.runs.items ≡ steps_in found.cached.items + lengths found.runs.items + run.len) }
    ensures woven { IfOk result (λ f. AreWovenIn run found.cached.items found.runs.items f.cached.items f.runs.items) }
{
    let Found {
        mut cached,
        mut runs,
    } = found;
    let edge = edge_over(list, expr, asker, run);
    let mut from = 0;
    while from < run.len() {
        if let Some(done) = served_part(list, expr, asker, run, edge, from)? {
            from += done.run.len();
            cached.push(done)?;
        } else {
            let count = count_missing(list, expr, asker, run, edge, from);
            runs.push(part(run, from, count))?;
            from += count;
        }
    }
    Ok(Found { cached, runs })
}
