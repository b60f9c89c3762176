//! Plans of open queries.

ghost use Rattle.std.specs.Arc.{arc_value};
ghost use Rattle.std.specs.Prelude.{IfErr, IfOk, IsSome};
ghost use Rattle.pf_core.specs.Calls.{BindsOpen, IsPlanned, IsUnplanned};
ghost use Rattle.pf_core.specs.Cores.{Stands, machine_of};
ghost use Rattle.pf_front.specs.Works.{IsNotPlanned, WorksOn};
ghost use Rattle.pf_journal.specs.Machine.{open_at};

use pf_base::OutOfMemory;
use pf_block::Snap;
use pf_core::Core;
use pf_eval::legs_over;
use pf_query::{PlanError, Planned};
use pf_shard::Legs;
use std::alloc::Global;
use std::sync::Arc;

/// The legs of a query, and the snapshot over which it is bound.
#[derive(Drop)]
pub(crate) struct BoundLegs {
    pub(crate) legs: Arc<Legs>,
    pub(crate) snap: Arc<Snap>,
}

/// An open query's legs over the core's number of shards, and its tenant's samples at the ask.
pub(crate) fn legs_of(alloc: Global, core: &Core, query: u64) -> Result<BoundLegs, OutOfMemory>
    requires { IsSome (open_at query (machine_of core.now).queries) }
    ensures { IfOk result (λ b. BindsOpen core.now.limits (open_at query (machine_of core.now).queries) (arc_value b.legs) (arc_value b.snap)) }
{
    let Some(opened) = core.look(query) else {
        unreachable!()
    };
    let pin = opened.pin;
    let legs = legs_over(alloc, opened.asked, &pin.snap, core.shards())?;
    Ok(BoundLegs {
        legs: Arc::new(alloc, legs)?,
        snap: Arc::try_clone(&pin.snap)?,
    })
}

/// Whether an open query may be planned: it wasn't, and it isn't stopped.
#[tactic(auto, using(crate::proofs::Asked::before, crate::proofs::Asked::stopped_for))]
fn may_plan(core: &Core, query: u64) -> Result<(), PlanError>
    requires { IsSome (open_at query (machine_of core.now).queries) }
    ensures stands { Stands core.now }
    ensures err { IfErr result (λ e. IsUnplanned core.now query e core.now) }
{
    let Some(opened) = core.look(query) else {
        unreachable!()
    };
    if opened.planned {
        return Err(PlanError::PlannedBefore);
    }
    if let Some(why) = opened.stop {
        return Err(PlanError::Stopped { why });
    }
    Ok(())
}

/// Plans an open query, or leaves the core as it was.
fn try_plan(alloc: Global, core: &mut Core, query: u64) -> Result<Planned, PlanError>
    requires { IsSome (open_at query (machine_of core.old).queries) }
    ensures stands { Stands core.new }
    ensures ok { IfOk result (λ p. IsPlanned core.old query p core.new) }
    ensures err { IfErr result (λ e. IsUnplanned core.old query e core.new) }
{
    may_plan(core, query)?;
    let bound = legs_of(alloc, core, query)?;
    core.plan(query, bound.legs, bound.snap)
}

/// Plans an open query over its tenant's samples at the ask: from then on a job waits for each run of its steps that aren't cached
/// and each of its legs. Where memory runs out the query is stopped.
pub fn plan(alloc: Global, core: &mut Core, query: u64) -> Result<Planned, PlanError>
    requires { IsSome (open_at query (machine_of core.old).queries) }
    ensures stands { Stands core.new }
    ensures works { WorksOn 0 0 core.old core.new }
    ensures ok { IfOk result (λ p. IsPlanned core.old query p core.new) }
    ensures err { IfErr result (λ e. IsNotPlanned core.old query e core.new) }
{
    match try_plan(alloc, core, query) {
        Err(PlanError::OutOfMemory) => {
            core.lack_query(query);
            Err(PlanError::OutOfMemory)
        }
        told => told,
    }
}
