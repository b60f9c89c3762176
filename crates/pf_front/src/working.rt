//! Work on jobs.

ghost use Rattle.std.specs.Arc.{arc_value};
ghost use Rattle.std.specs.Prelude.{◌≡◌, ◌+◌, ◌-◌, ◌<◌, ◌≤◌, IfOk, ℕ};
ghost use Rattle.pf_core.specs.Calls.{IsPartOf, StandsForAsk};
ghost use Rattle.pf_core.specs.Cores.{CoreData, Stands, tries_left};
ghost use Rattle.pf_front.specs.Works.{AreCarried, HasFailed, IsEvaluated, IsIdle, IsWorked};
ghost use Rattle.pf_shard.specs.Bound.{AreBoundOver};
ghost use Rattle.pf_shard.specs.Lawful.{IsLawful, leg_count, legs_data};

use pf_base::OutOfMemory;
use pf_core::Core;
use pf_eval::eval_leg;
use pf_io::{Gate, Hop};
use pf_query::{FailedTry, Finished, Held, Stop};
use pf_shard::Part;
use std::alloc::Global;

/// What became of a job in hand: its part was stored; its way failed, and it waits again, having failed so often; it failed for the
/// fifth time, by which its query is stopped; memory ran out, by which its query is stopped; its query was stopped before; or it
/// isn't in hand at that try.
#[derive(Clone, Copy)]
pub enum Worked {
    Stored,
    Again { tries: u32 },
    Exhausted { job: u32 },
    Lacked,
    Gone { why: Stop },
    NotHeld,
}

/// What a job's leg is over its run.
fn part_of(alloc: Global, held: &Held) -> Result<Part, OutOfMemory>
    requires lawful { IsLawful (legs_data (arc_value held.now.legs)) }
    requires leg { held.now.head.leg < leg_count (legs_data (arc_value held.now.legs)) }
    requires bound { AreBoundOver (arc_value held.now.legs) (arc_value held.now.snap).labels }
    ensures { IfOk result (λ p. (c : CoreData) → StandsForAsk c held.now → IsPartOf c held.now p) }
{
    eval_leg(alloc, &held.legs, held.head.leg, &held.snap, &held.run)
}

/// Lets a job whose way failed wait again.
fn fail(core: &mut Core, held: Held) -> Worked
    requires stands { StandsForAsk core.old held }
    requires actor { held.actor < 32 }
    ensures stands { Stands core.new }
    ensures failed { HasFailed core.old held result core.new }
    ensures tries { held.head.tries < 5 → tries_left core.new + 1 ≤ tries_left core.old + (5 - held.head.tries) }
{
    match core.fail(held) {
        FailedTry::Again { tries } => Worked::Again { tries },
        FailedTry::Exhausted { job } => Worked::Exhausted { job },
        FailedTry::Gone { why } => Worked::Gone { why },
        FailedTry::NotHeld => Worked::NotHeld,
    }
}

/// Evaluates a job, and keeps its part.
fn evaluate(alloc: Global, core: &mut Core, held: Held) -> Worked
    requires { StandsForAsk core.old held }
    ensures stands { Stands core.new }
    ensures evaluated { IsEvaluated core.old held result core.new }
    ensures tries { tries_left core.new ≤ tries_left core.old }
{
    let Ok(part) = part_of(alloc, &held) else {
        core.lack_job(held);
        return Worked::Lacked;
    };
    match core.finish(held, part) {
        Finished::Stored => Worked::Stored,
        Finished::Gone { why } => Worked::Gone { why },
        Finished::NotHeld => Worked::NotHeld,
    }
}

/// Does a job in hand: past its actor's hop and the gate it is evaluated over its tenant's samples at the ask.
pub fn work<H: Hop, G: Gate>(
    alloc: Global,
    core: &mut Core,
    held: Held,
    hop: &mut H,
    gate: &G,
) -> Worked
    requires stands { StandsForAsk core.old held }
    requires actor { held.actor < 32 }
    ensures stands { Stands core.new }
    ensures worked { IsWorked (H.faults hop.old) (H.faults hop.new) core.old held result core.new }
    ensures idle { (actor : ℕ) → IsIdle core.old actor → IsIdle core.new actor }
    ensures tries { held.head.tries < 5 → tries_left core.new + 1 ≤ tries_left core.old + (5 - held.head.tries) }
    ensures carried { AreCarried (H.faults hop.old) (H.faults hop.new) core.old core.new }
    ensures counted { H.faults hop.old ≤ H.faults hop.new }
    ensures most { H.most hop.new ≡ H.most hop.old }
{
    if hop.call(&held.head).is_err() {
        return fail(core, held);
    }
    gate.at(held.actor, &held.head);
    evaluate(alloc, core, held)
}
