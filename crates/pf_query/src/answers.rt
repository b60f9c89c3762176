//! What calls of the table answer.

use crate::gathered::Gathered;
use crate::stop::Stop;
use pf_base::OutOfMemory;

/// How many steps of a plan are cached, and how many jobs it has.
#[derive(Clone, Copy)]
pub struct Planned {
    pub cached: u32,
    pub jobs: u32,
}

/// Why a query is not planned: it was planned before; it is stopped; or memory ran out.
#[derive(Clone, Copy)]
pub enum PlanError {
    PlannedBefore,
    Stopped { why: Stop },
    OutOfMemory,
}

impl From<OutOfMemory> for PlanError {
    ghost use Rattle.std.specs.Prelude.{◌≡◌};
    ghost use Rattle.pf_query.specs.declared.answers.PlanError.{PlanError};

    ghost from_gives = { λ _ e. e ≡ PlanError.OutOfMemory };

    fn from(_error: OutOfMemory) -> PlanError {
        PlanError::OutOfMemory
    }
}

/// What became of a part: it was stored; its query is stopped; or its job isn't in hand at that try.
#[derive(Clone, Copy)]
pub enum Finished {
    Stored,
    Gone { why: Stop },
    NotHeld,
}

/// What became of a job that failed: it waits again, and failed so often; it failed five times, and its query is stopped by
/// that; its query was stopped before; or it isn't in hand at that try.
#[derive(Clone, Copy)]
pub enum FailedTry {
    Again { tries: u32 },
    Exhausted { job: u32 },
    Gone { why: Stop },
    NotHeld,
}

/// What a query has: it is stopped; it isn't planned; so many of its jobs wait and are in hand; its parts were handed out
/// before; or all its parts, which are handed out by this.
#[derive(Drop)]
pub enum Collected {
    Stopped { why: Stop },
    Unplanned,
    Waiting { queued: u32, in_hand: u32 },
    Given,
    Parts(Gathered),
}

/// What is told of a query: its tenant, whether it is planned, whether its parts were handed out and it is offered, how many of its
/// steps were cached, and why it was stopped, if it was.
#[derive(Clone, Copy)]
pub struct Progress {
    pub tenant: u32,
    pub planned: bool,
    pub given: bool,
    pub offered: bool,
    pub cached: u32,
    pub stop: Option<Stop>,
}
