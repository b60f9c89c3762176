//! Keeps of what was evaluated of open queries.

ghost use Rattle.std.specs.Prelude.{◌≡◌, IfOk, IsSome, Some};
ghost use Rattle.pf_core.specs.Cores.{Stands, machine_of};
ghost use Rattle.pf_front.specs.Keeps.{AreKept, IsFoundKept, IsKeptFor};
ghost use Rattle.pf_front.specs.Settling.{AreOfferable, IsEvaluable, IsFoundFor};
ghost use Rattle.pf_front.specs.Works.{WorksOn};
ghost use Rattle.pf_journal.specs.Machine.{open_at};

use crate::outcome::{Found, found_of_parts, found_of_whole};
use pf_base::OutOfMemory;
use pf_core::{Core, Kept};
use pf_extent::DoneCells;
use pf_query::{Asked, Collected, cover_more};
use std::alloc::Global;

/// What a keep came to: so many steps are kept; samples of the tenant were deleted since the ask, at last by this generation; there
/// was no memory; a step has an error; so many jobs wait or are in hand; the query is stopped; or it is not planned.
#[derive(Clone, Copy)]
pub enum Keeping {
    Kept { steps: u32 },
    Outdated { generation: u64 },
    NoMemory,
    Failed,
    Waits { jobs: u32 },
    Stopped,
    Unplanned,
}

/// Offers cells of an open query to the cache. Nothing is offered of an instant query.
fn keep_cells(core: &mut Core, query: u64, noted: Vec<DoneCells>) -> Keeping
    requires stands { Stands core.old }
    requires evaluable { IsEvaluable core.old query }
    requires noted { AreOfferable core.old query noted.items }
    ensures stands { Stands core.new }
    ensures works { WorksOn 0 0 core.old core.new }
    ensures kept { AreKept core.old query noted.items result core.new }
{
    let Some(opened) = core.look(query) else {
        unreachable!()
    };
    let asked: &Asked = opened.asked;
    if asked.instant {
        return Keeping::Kept { steps: 0 };
    }
    match core.keep(query, noted) {
        Kept::Steps(steps) => Keeping::Kept { steps },
        Kept::Outdated { generation } => Keeping::Outdated { generation },
        Kept::NoMemory => Keeping::NoMemory,
    }
}

/// Keeps what was found of an open query: nothing of one that has an error. One for which memory ran out is stopped.
fn keep_found(core: &mut Core, query: u64, found: Result<Found, OutOfMemory>) -> Keeping
    requires stands { Stands core.old }
    requires evaluable { IsEvaluable core.old query }
    requires found { IfOk found (IsFoundFor core.old query) }
    ensures stands { Stands core.new }
    ensures works { WorksOn 0 0 core.old core.new }
    ensures kept { IsFoundKept core.old query found result core.new }
{
    match found {
        Ok(Found::Cells { noted, .. }) => keep_cells(core, query, noted),
        Ok(Found::Failed { .. }) => Keeping::Failed,
        Err(OutOfMemory) => {
            core.lack_query(query);
            Keeping::NoMemory
        }
    }
}

/// Gathers the parts of an open query, if all are there, and keeps what was evaluated of it: of each piece in which a step was
/// evaluated all steps that no later sample changes, and nothing of a query that has an error or is asked at one time alone. Where
/// its parts were handed out before, all its steps are evaluated again. Where memory runs out for that, the query is stopped.
pub fn keep(alloc: Global, core: &mut Core, query: u64) -> Keeping
    requires open { IsSome (open_at query (machine_of core.old).queries) }
    ensures stands { Stands core.new }
    ensures works { WorksOn 0 0 core.old core.new }
    ensures kept { IsKeptFor core.old query result core.new }
{
    cover_more();
    let Some(told) = core.collect(query) else {
        unreachable!()
    };
    match told {
        Collected::Stopped { .. } => Keeping::Stopped,
        Collected::Unplanned => Keeping::Unplanned,
        Collected::Waiting { queued, in_hand } => Keeping::Waits {
            jobs: queued.saturating_add(in_hand),
        },
        Collected::Given => {
            let found = found_of_whole(alloc, core, query);
            keep_found(core, query, found)
        }
        Collected::Parts(gathered) => {
            let found = found_of_parts(alloc, core, query, gathered);
            keep_found(core, query, found)
        }
    }
}
