//! What is kept of a run that was evaluated.

ghost use Rattle.std.specs.Prelude.{◌≡◌, ℕ, ◌+◌, ◌<◌, ◌≤◌, ◌++◌, not, IfOk, IfSome, length};
ghost use Rattle.pf_base.specs.Grids.{points};
ghost use Rattle.pf_extent.specs.Combining.{combined};
ghost use Rattle.pf_extent.specs.Steps.{AreSpaced, Extents, IsLawful};
ghost use Rattle.pf_model.specs.Trees.{tree_of};
ghost use Rattle.pf_results.specs.Keeping.{IsEdge, KeepsOthers, KnowsNoOthers, KnowsParts, extent_of, extents_of, fixed_count, is_fixed, kept_list, now_list, part_extents, with_kept};
ghost use Rattle.pf_results.specs.Runs.{CanBeAsked, part_of, time_of};

use crate::fixed::{edge_of, is_step_fixed};
use pf_base::{Grid, OutOfMemory};
use pf_columns::Cells;
use pf_extent::{Asker, Extent, List, combine};
use pf_model::Expr;
use std::alloc::Global;

/// How many steps of a run from one on are fixed, or how many aren't.
fn count_fixed(
    expr: &Expr,
    asker: &Asker,
    run: Grid,
    edge: Option<u32>,
    from: u32,
    wanted: bool,
) -> u32
    requires query { CanBeAsked (tree_of expr.now) }
    requires edge { IfSome edge (IsEdge (tree_of expr.now) asker.now run) }
    requires within { from ≤ run.len }
    ensures within { from + result ≤ run.len }
    ensures are { (k : ℕ) → from ≤ k → k < from + result → is_fixed (tree_of expr.now) asker.now (time_of run k) ≡ wanted }
    ensures stops { from + result < run.len → is_fixed (tree_of expr.now) asker.now (time_of run (from + result)) ≡ not wanted }
{
    for i in from..run.len() {
        if is_step_fixed(expr, asker, run, edge, i) != wanted {
            return i - from;
        }
    }
    run.len() - from
}

/// The extent of a part of a run that was evaluated.
fn extent_over(
    alloc: Global,
    asker: &Asker,
    run: Grid,
    cells: &Cells,
    from: u32,
    len: u32,
) -> Result<Extent, OutOfMemory>
    requires step { 1 ≤ run.step }
    requires whole { length cells.now ≡ run.len }
    requires some { 1 ≤ len }
    requires within { from + len ≤ run.len }
    ensures extent { IfOk result (λ e. e ≡ extent_of asker.now run cells.now (part_of run from len)) }
    ensures lawful { IfOk result IsLawful }
{
    Ok(Extent {
        first: run.at(from),
        last: run.at(from + (len - 1)),
        step: run.step(),
        pin: asker.pin,
        generation: asker.generation,
        cells: cells.cut(alloc, from, len)?,
    })
}

/// A list with one more extent, behind those that were added before.
fn with_next(kept: &Option<List>, list: &List, extent: Extent) -> Result<List, OutOfMemory>
    requires lawful { IsLawful extent }
    requires spaced { AreSpaced extent.step list.now }
    requires kept { IfSome kept.now (AreSpaced extent.step) }
    ensures list { IfOk result (λ l. l ≡ combined (now_list list.now kept.now) extent) }
    ensures known { IfOk result (KnowsNoOthers (now_list list.now kept.now) extent) }
    ensures spaced { IfOk result (AreSpaced extent.step) }
{
    match kept {
        Some(kept) => combine(kept, extent),
        None => combine(list, extent),
    }
}

/// A list with a part of a run whose steps are all fixed, behind those that were added before. A part may have no step.
fn with_part(
    alloc: Global,
    kept: Option<List>,
    list: &List,
    asker: &Asker,
    run: Grid,
    cells: &Cells,
    from: u32,
    count: u32,
) -> Result<Option<List>, OutOfMemory>
    requires step { 1 ≤ run.step }
    requires spaced { AreSpaced run.step list.now }
    requires kept { IfSome kept (AreSpaced run.step) }
    requires whole { length cells.now ≡ run.len }
    requires within { from + count ≤ run.len }
    ensures list { IfOk result (λ o. (rest : Extents) → with_kept o list.now rest ≡ with_kept kept list.now (part_extents asker.now run cells.now from count ++ rest)) }
    ensures known { IfOk result (λ o. IfSome o (KnowsParts asker.now run cells.now from count (now_list list.now kept))) }
    ensures spaced { IfOk result (λ o. IfSome o (AreSpaced run.step)) }
{
    if count == 0 {
        return Ok(kept);
    }
    let extent = extent_over(alloc, asker, run, cells, from, count)?;
    Ok(Some(with_next(&kept, list, extent)?))
}

/// A list with the fixed steps of a run, where there are some, and how many these are.
#[derive(Drop)]
pub struct Addition {
    pub list: Option<List>,
    pub steps: u32,
}

/// What is kept once the fixed steps of a run are added to a list: their longest runs become extents, which are combined with it
/// one by one.
pub fn add(
    alloc: Global,
    list: &List,
    expr: &Expr,
    asker: &Asker,
    run: Grid,
    cells: &Cells,
) -> Result<Addition, OutOfMemory>
    requires query { CanBeAsked (tree_of expr.now) }
    requires step { 1 ≤ run.step }
    requires spaced { AreSpaced run.step list.now }
    requires whole { length cells.now ≡ run.len }
    ensures list { IfOk result (λ a. a.list ≡ kept_list list.now (extents_of (tree_of expr.now) asker.now run cells.now (points run))) }
    ensures steps { IfOk result (λ a. a.steps ≡ fixed_count (tree_of expr.now) asker.now run) }
    ensures few { IfOk result (λ a. a.steps ≤ run.len) }
    ensures known { IfOk result (λ a. IfSome a.list (KeepsOthers (tree_of expr.now) asker.now run cells.now list.now)) }
    ensures spaced { IfOk result (λ a. IfSome a.list (AreSpaced run.step)) }
{
    let edge = edge_of(expr, asker, run);
    let mut kept = None;
    let mut steps = 0;
    let mut from = 0;
    while from < run.len() {
        let first = from + count_fixed(expr, asker, run, edge, from, false);
        let count = count_fixed(expr, asker, run, edge, first, true);
        kept = with_part(alloc, kept, list, asker, run, cells, first, count)?;
        steps += count;
        from = first + count;
    }
    Ok(Addition { list: kept, steps })
}
