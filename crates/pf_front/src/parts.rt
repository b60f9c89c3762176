//! The cells of a query's runs, by their parts.

ghost use Rattle.std.specs.Prelude.{◌≡◌, ◌≤◌, ◌*◌, ℕ, List, IfErr, IfOk, MatchResult, Some, drop, length, take};
ghost use Rattle.pf_base.specs.Grids.{points};
ghost use Rattle.pf_base.specs.declared.plain.Row.{Row};
ghost use Rattle.pf_columns.specs.Runs.{points_over};
ghost use Rattle.pf_extent.specs.Done.{AreWhole};
ghost use Rattle.pf_front.specs.Settling.{AreLegValues, AreMergeable, AreOfLegs};
ghost use Rattle.pf_front.specs.Spans.{AreAllTrue, AreCellsAt, runs_in};
ghost use Rattle.pf_model.specs.Direct.{evaluated, first_failure};
ghost use Rattle.pf_model.specs.Lists.{Each};
ghost use Rattle.pf_shard.specs.Bound.{AreEvaluable};
ghost use Rattle.pf_shard.specs.Lawful.{IsLawful, leg_count, legs_data};
ghost use Rattle.pf_shard.specs.LegParts.{FitsNodes};

use pf_base::{Grid, OutOfMemory};
use pf_eval::merge;
use pf_extent::DoneCells;
use pf_model::ErrorKind;
use pf_shard::{Legs, Part, leg_count};
use std::alloc::Global;
use std::collections::VecDeque;

/// A step that has an error, by its time in milliseconds.
#[derive(Clone, Copy)]
pub(crate) struct FailedStep {
    pub(crate) time: u64,
    pub(crate) kind: ErrorKind,
}

/// The first parts that are left, so many: they are left no more.
fn next_parts(
    alloc: Global,
    left: &mut VecDeque<Part>,
    count: u32,
) -> Result<Vec<Part>, OutOfMemory>
    requires { count ≤ length left.old.items }
    ensures parts { IfOk result (λ ps. ps.items ≡ take count left.old.items) }
    ensures left { IfOk result (λ _. left.new.items ≡ drop count left.old.items) }
{
    let mut parts = Vec::with_capacity(alloc, count as usize)?;
    for _ in 0..count {
        let Some(part) = left.pop_front() else {
            unreachable!()
        };
        parts.push(part)?;
    }
    Ok(parts)
}

/// What a query is over a run, by the parts of its legs, which are taken: its cells, or the first step that has an error.
fn run_cells(
    alloc: Global,
    legs: &Legs,
    parts: Vec<Part>,
    run: Grid,
) -> Result<Result<DoneCells, FailedStep>, OutOfMemory>
    requires lawful { IsLawful (legs_data legs.now) }
    requires evaluable { AreEvaluable legs.now.resolved }
    requires many { length parts.items ≡ leg_count (legs_data legs.now) }
    requires fits { Each (FitsNodes legs.now.nodes) parts.items }
    ensures whole { IfOk result (λ r. IfOk r (λ d. (d.run ≡ run) × (length d.cells ≡ run.len))) }
    ensures values { IfOk result (λ r. (samples : List Row) → AreOfLegs samples legs.now run parts.items
        → MatchResult r (λ d. AreCellsAt samples legs.now.resolved.query (points run) d.cells)
        (λ f. first_failure (evaluated samples legs.now.resolved.query (points run)) ≡ Some (record { time = f.time; kind = f.kind }))) }
{
    let steps = merge(alloc, legs, parts, &run)?;
    if let Some(bad) = steps.first_bad(run.len()) {
        return Ok(Err(FailedStep {
            time: run.at(bad.step),
            kind: bad.kind,
        }));
    }
    let cells = steps.cells(alloc, run.len())?;
    Ok(Ok(DoneCells { run, cells }))
}

/// What a query is over runs, by the parts of its legs, run by run and leg by leg: the cells of each run, or the first step that
/// has an error. The parts are taken.
pub(crate) fn all_cells(
    alloc: Global,
    legs: &Legs,
    runs: &[Grid],
    parts: Vec<Part>,
) -> Result<Result<Vec<DoneCells>, FailedStep>, OutOfMemory>
    requires { AreMergeable legs.now runs.now parts.items }
    ensures whole { IfOk result (λ r. IfOk r (λ v. (runs_in v.items ≡ runs.now) × AreWhole v.items)) }
    ensures values { IfOk result (λ r. (samples : List Row) → AreLegValues samples legs.now runs.now parts.items
        → MatchResult r (λ v. AreAllTrue samples legs.now.resolved.query v.items)
        (λ f. first_failure (evaluated samples legs.now.resolved.query (points_over runs.now)) ≡ Some (record { time = f.time; kind = f.kind }))) }
{
    let count = leg_count(legs);
    let mut left = VecDeque::from_vec(parts);
    let mut found = Vec::with_capacity(alloc, runs.len())?;
    for run in runs {
        let own = next_parts(alloc, &mut left, count)?;
        match run_cells(alloc, legs, own, *run)? {
            Ok(done) => found.push(done)?,
            Err(failed) => return Ok(Err(failed)),
        }
    }
    Ok(Ok(found))
}
