//! The inner runs of subqueries, and what functions make of them.

ghost use Rattle.std.specs.Prelude.{◌≡◌, ◌<◌, ◌+◌, ◌∷◌, ◌-ℤ◌, ℕ, ℤ, pos, true, false, [], IfOk};
ghost use Rattle.pf_model.specs.Built.{are_near, is_distance, is_resolution};
ghost use Rattle.pf_model.specs.Evaluation.{moments as all_moments, multiples, read_time, subquery_over};
ghost use Rattle.pf_model.specs.Outcomes.{Outcome, range_call};
ghost use Rattle.pf_columns.specs.Steps.{step_at};
ghost use Rattle.pf_selectors.specs.Subqueries.{moment_cell};
ghost use Rattle.pf_selectors.specs.Times.{time_at};
ghost use Rattle.pf_eval.specs.Bound.{HasRoom, IsInnerRun};
ghost use Rattle.pf_eval.specs.Nodes.{is_text, node_at};

use crate::node::{Node, no_labels};
use crate::reading::read_times;
use pf_base::OutOfMemory;
use pf_columns::StepCells;
use pf_model::{Mods, RangeFn};
use pf_selectors::{Times, multiples_over, over_moments};
use std::alloc::Global;

/// The times that a subquery is read at, and the multiples of its resolution in the windows before them, at which its inner
/// expression is evaluated.
#[derive(Clone, Copy)]
pub(crate) struct InnerRun<'a, 'b> {
    pub(crate) read: Times<'a>,
    pub(crate) at: Times<'b>,
}

/// The inner run of a subquery. `list` is overwritten with its multiples where they are no run. More than 2^32 - 1 multiples
/// are want of memory.
pub(crate) fn inner_run<'a, 'b>(
    range: u64,
    resolution: u64,
    mods: Mods,
    times: &Times<'a>,
    list: &'b mut Vec<i64>,
) -> Result<InnerRun<'a, 'b>, OutOfMemory>
    requires range { is_distance range ≡ true }
    requires resolution { is_resolution resolution ≡ true }
    requires near { are_near mods ≡ true }
    requires room { HasRoom 1 times.now }
    ensures run { IfOk result (λ r. IsInnerRun range resolution r) }
    ensures len { IfOk result (λ r. r.read.len ≡ times.now.len) }
    ensures times { IfOk result (λ r. (k : ℕ) → k < times.now.len → time_at r.read k ≡ read_time mods (time_at times.now k)) }
    ensures room { IfOk result (λ r. (levels : ℕ) → HasRoom (1 + levels) times.now → HasRoom levels r.at) }
{
    let read = read_times(mods, times);
    let at = multiples_over(range, resolution, &read, list)?;
    Ok(InnerRun { read, at })
}

/// What a subquery's inner expression is, as a vector at each of its times. A scalar has no elements.
fn moments_of(alloc: Global, inner: Node) -> StepCells
    ensures { (k : ℕ) → step_at result k ≡ moment_cell (node_at inner k) }
{
    match inner {
        Node::Vector(steps) => steps,
        Node::Scalar(scalars) => StepCells {
            columns: Vec::new(alloc),
            bads: scalars.bads,
        },
        Node::Text(_) => StepCells {
            columns: Vec::new(alloc),
            bads: Vec::new(alloc),
        },
    }
}

/// A function of a subquery, from what its inner expression is.
pub(crate) fn over_subquery(
    alloc: Global,
    f: RangeFn,
    range: u64,
    resolution: u64,
    inner: Node,
    run: &InnerRun,
) -> Result<Node, OutOfMemory>
    requires { IsInnerRun range resolution run.now }
    ensures kind { IfOk result (λ n. is_text n ≡ false) }
    ensures value { IfOk result (λ n. (o : ℤ → Outcome) → ((j : ℕ) → j < run.now.at.len → node_at inner j ≡ o (time_at run.now.at j)) → (k : ℕ) → k < run.now.read.len
        → node_at n k ≡ range_call f [] (subquery_over (time_at run.now.read k -ℤ pos range) (time_at run.now.read k)
        (all_moments o (multiples resolution (time_at run.now.read k -ℤ pos range) (time_at run.now.read k))) ∷ [])) }
{
    let moments = moments_of(alloc, inner);
    let absent = no_labels(alloc)?;
    let found = over_moments(
        alloc, f, &absent, range, resolution, &moments, &run.at, &run.read,
    )?;
    Ok(Node::Vector(found))
}
