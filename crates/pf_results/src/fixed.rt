//! Which steps of a run no later sample changes.

ghost use Rattle.std.specs.Prelude.{◌≡◌, ◌<◌, ◌≤◌, IfSome};
ghost use Rattle.pf_base.specs.Limits.{greatest_time};
ghost use Rattle.pf_model.specs.Trees.{tree_of};
ghost use Rattle.pf_resolve.specs.Steady.{ReachRises};
ghost use Rattle.pf_results.specs.Keeping.{IsEdge, is_fixed};
ghost use Rattle.pf_results.specs.Runs.{CanBeAsked, time_of};

use pf_base::Grid;
use pf_extent::{Asker, is_below};
use pf_model::Expr;
use pf_resolve::{is_steady, reach};

/// Whether no later sample changes what a query is at a time.
fn is_fixed(expr: &Expr, asker: &Asker, time: u64) -> bool
    requires query { CanBeAsked (tree_of expr.now) }
    requires time { time ≤ greatest_time }
    ensures { result ≡ is_fixed (tree_of expr.now) asker.now time }
{
    is_below(reach(expr, time as i64), asker.floor)
}

/// The first step of a run that isn't fixed, where the query's reach rises with the time, or the number of steps. By halves.
fn first_open(expr: &Expr, asker: &Asker, run: Grid) -> u32
    requires query { CanBeAsked (tree_of expr.now) }
    requires rises { ReachRises (tree_of expr.now) }
    ensures { IsEdge (tree_of expr.now) asker.now run result }
{
    let mut low = 0;
    let mut high = run.len();
    while low < high {
        let middle = low + (high - low) / 2;
        if is_fixed(expr, asker, run.at(middle)) {
            low = middle + 1;
        } else {
            high = middle;
        }
    }
    low
}

/// The first step of a run that isn't fixed, or the number of steps. It asks the query at the last step, and then by halves. None
/// where the query isn't steady.
pub fn edge_of(expr: &Expr, asker: &Asker, run: Grid) -> Option<u32>
    requires query { CanBeAsked (tree_of expr.now) }
    ensures { IfSome result (IsEdge (tree_of expr.now) asker.now run) }
{
    if !is_steady(expr) {
        return None;
    }
    if is_fixed(expr, asker, run.at(run.len() - 1)) {
        return Some(run.len());
    }
    Some(first_open(expr, asker, run))
}

/// Whether a step of a run is fixed. The query is asked only where the edge isn't known.
pub fn is_step_fixed(expr: &Expr, asker: &Asker, run: Grid, edge: Option<u32>, step: u32) -> bool
    requires query { CanBeAsked (tree_of expr.now) }
    requires edge { IfSome edge (IsEdge (tree_of expr.now) asker.now run) }
    requires within { step < run.len }
    ensures { result ≡ is_fixed (tree_of expr.now) asker.now (time_of run step) }
{
    match edge {
        Some(edge) => step < edge,
        None => is_fixed(expr, asker, run.at(step)),
    }
}
