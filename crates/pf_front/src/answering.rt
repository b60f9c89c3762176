//! Answers of open queries.

ghost use Rattle.std.specs.Prelude.{◌≡◌, ◌<◌, ◌≤◌, IfOk, IsSome, List, [], ℕ, Some, None};
ghost use Rattle.pf_core.specs.Calls.{IsStoppedBy, cached_of, evaluated_of};
ghost use Rattle.pf_core.specs.Cores.{Stands, machine_of, tries_left};
ghost use Rattle.pf_front.specs.Answers.{IsAnswered, code_in};
ghost use Rattle.pf_front.specs.Settling.{AreCellsOver, AreOfferable, IsBegun, IsEvaluable, IsFoundFor, IsOffered, IsSettled, IsWorkedOff, some_waits, stopped_as};
ghost use Rattle.pf_front.specs.Spans.{all_of};
ghost use Rattle.pf_front.specs.Works.{IsIdle, WorksOn};
ghost use Rattle.pf_journal.specs.Machine.{Open, open_at};

use crate::outcome::{Found, Outcome, found_of_parts, found_of_whole, matrix_of};
use crate::planning::plan;
use crate::working::work;
use pf_base::{By, OutOfMemory};
use pf_columns::Cells;
use pf_core::Core;
use pf_extent::DoneCells;
use pf_io::{Gate, Hop};
use pf_query::{Asked, Collected, Stop, cover_more};
use std::alloc::Global;

/// What a query was answered with: the code, how many of its steps were cached and evaluated, and what came out of it.
#[derive(Drop)]
pub struct Reply {
    pub code: u16,
    pub cached: u32,
    pub evaluated: u32,
    pub outcome: Outcome,
}

/// Whether a query was answered, or so many of its jobs are in the hands of others.
#[derive(Drop)]
pub enum Answering {
    Waits { jobs: u32 },
    Answered(Reply),
}

/// Hands the first job of all that wait to an actor that has none, and does it.
fn work_first<H: Hop, G: Gate>(alloc: Global, core: &mut Core, actor: u32, hop: &mut H, gate: &G)
    requires actor { actor < 32 }
    requires idle { IsIdle core.old actor }
    requires waits { core.old.ring ≡ [] → ⊥ }
    ensures stands { Stands core.new }
    ensures works { WorksOn (H.faults hop.old) (H.faults hop.new) core.old core.new }
    ensures begun { (query : ℕ) → IsBegun core.old query → IsBegun core.new query }
    ensures fewer { tries_left core.new < tries_left core.old }
    ensures counted { H.faults hop.old ≤ H.faults hop.new }
    ensures most { H.most hop.new ≡ H.most hop.old }
{
    let Some(held) = core.take(actor) else {
        unreachable!()
    };
    let _worked = work(alloc, core, held, hop, gate);
}

/// Whether one of a query's jobs waits.
fn waits(told: &Collected) -> bool
    ensures { result ≡ some_waits told.now }
{
    match told {
        Collected::Waiting { queued, .. } => 0 < *queued,
        _ => false,
    }
}

/// Does the first job of all that wait, while one of an open query waits: what the query has then.
fn work_all<H: Hop, G: Gate>(
    alloc: Global,
    core: &mut Core,
    query: u64,
    actor: u32,
    hop: &mut H,
    gate: &G,
) -> Collected
    requires open { IsSome (open_at query (machine_of core.old).queries) }
    requires begun { IsBegun core.old query }
    requires actor { actor < 32 }
    requires idle { IsIdle core.old actor }
    ensures stands { Stands core.new }
    ensures told { IsWorkedOff (H.faults hop.old) (H.faults hop.new) core.old query result core.new }
    ensures counted { H.faults hop.old ≤ H.faults hop.new }
    ensures most { H.most hop.new ≡ H.most hop.old }
{
    loop {
        let Some(told) = core.collect(query) else {
            unreachable!()
        };
        if !waits(&told) {
            return told;
        }
        work_first(alloc, core, actor, hop, gate);
    }
}

/// What comes out of a query that is stopped.
fn stopped_by(why: Stop) -> Outcome
    ensures { result ≡ stopped_as why }
{
    match why {
        Stop::Cancelled { .. } => Outcome::Cancelled,
        Stop::Exhausted { job } => Outcome::Exhausted { job },
        Stop::Starved => Outcome::Starved,
    }
}

/// The code of what came out.
fn code_of(found: &Outcome) -> u16
    ensures { result ≡ code_in found.now }
{
    match found {
        Outcome::Matrix(_) => 200,
        Outcome::Failed { .. } => 422,
        Outcome::Cancelled => 503,
        Outcome::Exhausted { .. } => 500,
        Outcome::Starved => 507,
    }
}

/// Offers what was evaluated of an open query to the cache, unless it is offered already.
fn offer(core: &mut Core, query: u64, noted: Vec<DoneCells>)
    requires stands { Stands core.old }
    requires evaluable { IsEvaluable core.old query }
    requires noted { AreOfferable core.old query noted.items }
    ensures stands { Stands core.new }
    ensures works { WorksOn 0 0 core.old core.new }
    ensures offered { IsOffered core.new query }
{
    let Some(opened) = core.look(query) else {
        unreachable!()
    };
    if !opened.offered {
        let _kept = core.keep(query, noted);
    }
}

/// What comes out of an open query by the cells of its pieces. What was evaluated of it is kept. Where memory runs out the query is
/// stopped.
fn settled_by_cells(
    alloc: Global,
    core: &mut Core,
    query: u64,
    pieces: Vec<Cells>,
    noted: Vec<DoneCells>,
) -> Outcome
    requires stands { Stands core.old }
    requires evaluable { IsEvaluable core.old query }
    requires cells { (o : Open) → open_at query (machine_of core.old).queries ≡ Some o → AreCellsOver core.old.limits o (all_of pieces.items) }
    requires noted { AreOfferable core.old query noted.items }
    ensures stands { Stands core.new }
    ensures works { WorksOn 0 0 core.old core.new }
    ensures settled { IsSettled core.new query result }
{
    let Ok(matrix) = matrix_of(alloc, core, query, pieces) else {
        core.lack_query(query);
        return Outcome::Starved;
    };
    offer(core, query, noted);
    Outcome::Matrix(matrix)
}

/// What comes out of an open query by what was found of it. Nothing is kept of one that has an error, and one for which memory ran
/// out is stopped.
fn settled_by(
    alloc: Global,
    core: &mut Core,
    query: u64,
    found: Result<Found, OutOfMemory>,
) -> Outcome
    requires stands { Stands core.old }
    requires evaluable { IsEvaluable core.old query }
    requires found { IfOk found (IsFoundFor core.old query) }
    ensures stands { Stands core.new }
    ensures works { WorksOn 0 0 core.old core.new }
    ensures settled { IsSettled core.new query result }
{
    match found {
        Ok(Found::Cells { pieces, noted }) => {
            settled_by_cells(alloc, core, query, pieces, noted)
        }
        Ok(Found::Failed { step, kind }) => Outcome::Failed { step, kind },
        Err(OutOfMemory) => {
            core.lack_query(query);
            Outcome::Starved
        }
    }
}

/// How many steps of an open query were cached at its plan.
fn cached_steps(core: &Core, query: u64) -> u32
    requires { IsSome (open_at query (machine_of core.now).queries) }
    ensures { result ≡ cached_of core.now query }
{
    let Some(opened) = core.look(query) else {
        unreachable!()
    };
    opened.cached
}

/// How many steps of an open query were evaluated: all others, once it is planned.
fn evaluated_steps(core: &Core, query: u64) -> u32
    requires { IsSome (open_at query (machine_of core.now).queries) }
    ensures { result ≡ evaluated_of core.now query }
{
    let Some(opened) = core.look(query) else {
        unreachable!()
    };
    if !opened.planned {
        return 0;
    }
    let asked: &Asked = opened.asked;
    asked.grid.len() - opened.cached
}

/// Answers an open query with what came out of it.
fn answer_with(core: &mut Core, by: By, query: u64, found: Outcome) -> Answering
    requires { IsSettled core.old query found }
    ensures stands { Stands core.new }
    ensures answered { IsAnswered 0 0 core.old by query result core.new }
{
    let code = code_of(&found);
    let cached = cached_steps(core, query);
    let evaluated = evaluated_steps(core, query);
    core.answer(by, query, code);
    Answering::Answered(Reply {
        code,
        cached,
        evaluated,
        outcome: found,
    })
}

/// Answers an open query by what is told of it.
fn settle(alloc: Global, core: &mut Core, by: By, query: u64, told: Collected) -> Answering
    requires stands { Stands core.old }
    requires told { IsWorkedOff 0 0 core.old query told core.old }
    ensures stands { Stands core.new }
    ensures answered { IsAnswered 0 0 core.old by query result core.new }
{
    cover_more();
    match told {
        Collected::Stopped { why } => answer_with(core, by, query, stopped_by(why)),
        Collected::Waiting { in_hand, .. } => Answering::Waits { jobs: in_hand },
        Collected::Given => {
            let found = found_of_whole(alloc, core, query);
            let found = settled_by(alloc, core, query, found);
            answer_with(core, by, query, found)
        }
        Collected::Parts(gathered) => {
            let found = found_of_parts(alloc, core, query, gathered);
            let found = settled_by(alloc, core, query, found);
            answer_with(core, by, query, found)
        }
        Collected::Unplanned => unreachable!(),
    }
}

/// Does what is left of an open query, as an actor that has no job in hand, and answers it: it is planned, if it wasn't; while one
/// of its jobs waits, the first job of all that wait is done, whosever it is; its parts are gathered, and what was evaluated is
/// kept. Where jobs of it are in the hands of others, nothing is answered.
pub fn answer<H: Hop, G: Gate>(
    alloc: Global,
    core: &mut Core,
    by: By,
    query: u64,
    actor: u32,
    hop: &mut H,
    gate: &G,
) -> Answering
    requires open { IsSome (open_at query (machine_of core.old).queries) }
    requires actor { actor < 32 }
    requires idle { IsIdle core.old actor }
    ensures stands { Stands core.new }
    ensures answered { IsAnswered (H.faults hop.old) (H.faults hop.new) core.old by query result core.new }
    ensures counted { H.faults hop.old ≤ H.faults hop.new }
    ensures most { H.most hop.new ≡ H.most hop.old }
{
    let _planned = plan(alloc, core, query);
    let told = work_all(alloc, core, query, actor, hop, gate);
    settle(alloc, core, by, query, told)
}
