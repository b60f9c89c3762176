//! The jobs of a plan.

ghost use Rattle.std.specs.Arc.{arc_value};
ghost use Rattle.std.specs.Prelude.{◌+◌, ◌≡◌, ◌≤◌, IfOk, length};
ghost use Rattle.pf_base.specs.Limits.{most_steps};
ghost use Rattle.pf_shard.specs.Lawful.{IsLawful, legs_data};
ghost use Rattle.pf_query.specs.Works.{ArePlanned, IsJobOver, last_of};

use crate::job::Job;
use pf_base::{Grid, JobHead, OutOfMemory};
use pf_block::Snap;
use pf_shard::{Legs, leg_count};
use std::alloc::Global;
use std::sync::Arc;

/// The last time of a run.
fn last_time(run: &Grid) -> u64
    ensures { result ≡ last_of run.now }
{
    run.at(run.len() - 1)
}

/// The job of this number, over a run, where the query has so many legs.
fn planned_job(
    tenant: u32,
    query: u64,
    legs: &Arc<Legs>,
    count: u32,
    run: Grid,
    number: u32,
    snap: &Arc<Snap>,
) -> Result<Job, OutOfMemory>
    requires { 1 ≤ count }
    ensures { IfOk result (λ j. IsJobOver tenant query (arc_value legs.now) count run number (arc_value snap.now) j) }
{
    let head = JobHead {
        tenant,
        query,
        job: number,
        leg: number % count,
        first: run.start(),
        last: last_time(&run),
        tries: 0,
    };
    Ok(Job {
        head,
        legs: Arc::try_clone(legs)?,
        run,
        snap: Arc::try_clone(snap)?,
    })
}

/// The jobs of a query, which no one tried yet, run by run and leg by leg.
pub fn planned_jobs(
    alloc: Global,
    tenant: u32,
    query: u64,
    legs: &Arc<Legs>,
    runs: &[Grid],
    snap: &Arc<Snap>,
) -> Result<Vec<Job>, OutOfMemory>
    requires lawful { IsLawful (legs_data (arc_value legs.now)) }
    requires few { length runs.now ≤ most_steps + 1 }
    ensures { IfOk result (λ v. ArePlanned tenant query (arc_value legs.now) runs.now (arc_value snap.now) v.items) }
{
    let count = leg_count(legs);
    let total = runs.len() as u32 * count;
    let mut jobs = Vec::with_capacity(alloc, total as usize)?;
    for number in 0..total {
        let run = runs[(number / count) as usize];
        jobs.push(planned_job(tenant, query, legs, count, run, number, snap)?)?;
    }
    Ok(jobs)
}
