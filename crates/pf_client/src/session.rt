//! The run of a session, whose answers are counted.

ghost use Rattle.std.specs.Prelude.{◌≡◌, ◌≤◌, ℕ, IfOk, List, OnOk, [], count_by, length, map, sum_by};
ghost use Rattle.pf_base.specs.declared.plain.Limits.{Limits as LimitsData};
ghost use Rattle.pf_core.specs.Cores.{AreLimits};
ghost use Rattle.pf_front.specs.Works.{AreCarried};
ghost use Rattle.pf_journal.specs.Summaries.{asks, is_ask, nothing_counted};
ghost use Rattle.pf_script.specs.Lines.{line_of, lines_of, numbered_of};
ghost use Rattle.pf_client.specs.Drives.{CanRun};
ghost use Rattle.pf_client.specs.Files.{AreHeld, LetsGoOf};
ghost use Rattle.pf_client.specs.Going.{GoesOnWith, HasStopped, IsGoing, IsReady};
ghost use Rattle.pf_client.specs.Hands.{HoldsJobs};
ghost use Rattle.pf_client.specs.Replays.{file_of, why_by};
ghost use Rattle.pf_client.specs.Summaries.{IsSummary};
ghost use Rattle.pf_client.specs.Tries.{HaveCause};
ghost use Rattle.pf_client.specs.Tallies.{Counts, IsCounted, with_answered};

use crate::answers::Answered;
use crate::client::{Client, LineRun};
use crate::drive::client_of;
use crate::loaded::Loaded;
use pf_base::{Limits, OutOfMemory};
use pf_io::{Gate, Hop};
use pf_report::Tally;
use pf_script::{Line, NumberedLine, Script};
use std::alloc::Global;

/// Counts an answer, if one was given.
fn with_answered(tally: Tally, answered: &Option<Answered>) -> Tally
    ensures { result ≡ with_answered tally answered.now }
{
    match answered {
        Some(answer) => tally.with_answer(answer.cached, answer.evaluated, &answer.body),
        None => tally,
    }
}

/// Runs a line, and counts its answer.
fn run_counted<H: Hop, G: Gate>(
    client: &mut Client,
    loaded: &mut Loaded,
    line: &NumberedLine,
    hops: &mut [H],
    gate: &G,
    tally: &mut Tally,
) -> Result<LineRun, OutOfMemory>
    requires ready { IsReady loaded.old line.now }
    requires actors { length hops.old ≡ 32 }
    requires holds { HoldsJobs client.old }
    ensures holds { OnOk result (HoldsJobs client.new) }
    ensures client { OnOk result (client.new.client ≡ client.old.client) }
    ensures runs { IfOk result (λ r. GoesOnWith loaded.old client.old (numbered_of line.now) r client.new) }
    ensures counted { OnOk result (Counts loaded.old client.old (numbered_of line.now) tally.old client.new tally.new) }
    ensures files { OnOk result (LetsGoOf loaded.old.files (file_of (numbered_of line.now).line) line.now.number loaded.new.files) }
    ensures queries { loaded.new.queries ≡ loaded.old.queries }
    ensures carried { OnOk result (AreCarried (sum_by H.faults hops.old) (sum_by H.faults hops.new) client.old.core client.new.core) }
    ensures risen { sum_by H.faults hops.old ≤ sum_by H.faults hops.new }
    ensures most { map H.most hops.new ≡ map H.most hops.old }
    ensures actors { length hops.new ≡ 32 }
{
    match &line.line {
        Line::Answer { id, asked } => {
            let answered = client.answer(
                line.number,
                id,
                *asked,
                &mut hops[client.client as usize],
                gate,
            )?;
            *tally = with_answered(*tally, &answered);
            Ok(LineRun::On)
        }
        _ => client.run_line(loaded, line, hops, gate),
    }
}

/// How a session ended: whether its client met the full journal, and what is counted of the answers.
#[derive(Clone, Copy)]
struct Ended {
    full: bool,
    tally: Tally,
}

/// Runs the lines of a session's script, up to the one that meets the full journal, and counts the answers. What the client says
/// is not kept. A line that lacks memory for its samples or its deletion ends the run with that error.
fn run_lines_counted<H: Hop, G: Gate>(
    client: &mut Client,
    script: &Script,
    loaded: &mut Loaded,
    hops: &mut [H],
    gate: &G,
) -> Result<Ended, OutOfMemory>
    requires can_run { CanRun script.now 0 loaded.old }
    requires actors { length hops.old ≡ 32 }
    requires holds { HoldsJobs client.old }
    ensures client { OnOk result (client.new.client ≡ client.old.client) }
    ensures carried { OnOk result (AreCarried (sum_by H.faults hops.old) (sum_by H.faults hops.new) client.old.core client.new.core) }
    ensures risen { sum_by H.faults hops.old ≤ sum_by H.faults hops.new }
    ensures most { map H.most hops.new ≡ map H.most hops.old }
    ensures ended { IfOk result (λ e. (limits : LimitsData) → IsGoing loaded.old limits (lines_of script.now) 0 [] client.old → IsCounted loaded.old nothing_counted client.old
        → ((sent : List ℕ) × HasStopped loaded.old limits (lines_of script.now) (why_by e.full) sent client.new) × IsCounted loaded.old e.tally client.new) }
{
    let mut tally = Tally::nothing();
    for line in &script.lines {
        match run_counted(client, loaded, line, hops, gate, &mut tally)? {
            LineRun::On => {}
            LineRun::Full => return Ok(Ended { full: true, tally }),
            LineRun::Starved => return Err(OutOfMemory),
        }
        client.out.clear();
    }
    Ok(Ended { full: false, tally })
}

fn is_ask(line: &NumberedLine) -> bool
    ensures { result ≡ is_ask (line_of line.now.line) }
{
    matches!(line.line, Line::Ask { .. })
}

/// How many queries lines ask over a range.
fn count_asks(lines: &[NumberedLine]) -> usize
    ensures { result ≡ count_by (λ l. is_ask (line_of l.line)) lines.now }
{
    let mut asks = 0;
    for line in lines {
        if is_ask(line) {
            asks += 1;
        }
    }
    asks
}

/// How many queries a script asks over a range.
#[tactic(auto, using(crate::proofs::Tallying::asks_of))]
fn asks(script: &Script) -> u64
    ensures { result ≡ asks (lines_of script.now) }
{
    count_asks(&script.lines) as u64
}

/// What a session came to: how many queries its script asks over a range, what is counted of all answers, and whether the client
/// met the full journal.
#[derive(Clone, Copy)]
pub struct Summary {
    pub queries: u64,
    pub tally: Tally,
    pub full: bool,
}

/// Runs a session's script over what the files that it names hold, and counts the answers. A file for whose samples there is no
/// memory ends it with that error.
pub fn run_session<H: Hop, G: Gate>(
    alloc: Global,
    limits: Limits,
    script: &Script,
    mut loaded: Loaded,
    hops: &mut [H],
    gate: &G,
) -> Result<Summary, OutOfMemory>
    requires limits { AreLimits limits }
    requires actors { length hops.old ≡ 32 }
    requires can_run { CanRun script.now 0 loaded }
    ensures queries { IfOk result (λ s. s.queries ≡ asks (lines_of script.now)) }
    ensures summary { IfOk result (λ s. (held : List ℕ → List ℕ) → AreHeld held loaded.files → IsSummary limits held (lines_of script.now) (HaveCause (map H.most hops.old) (sum_by H.faults hops.old) (sum_by H.faults hops.new)) s.full s.tally) }
    ensures risen { sum_by H.faults hops.old ≤ sum_by H.faults hops.new }
    ensures most { map H.most hops.new ≡ map H.most hops.old }
{
    let _lines = script.lines.len();
    let mut client = client_of(alloc, limits, 0, script.is_stepped())?;
    let ended = run_lines_counted(&mut client, script, &mut loaded, hops, gate)?;
    let _entries = client.core.journal();
    Ok(Summary {
        queries: asks(script),
        tally: ended.tally,
        full: ended.full,
    })
}
