//! The run of a script.

ghost use Rattle.std.specs.Prelude.{◌≡◌, ◌≢◌, ◌<◌, ◌≤◌, ℕ, Err, IfOk, List, None, OnErr, OnOk, [], length, map, replicate, sum, sum_by};
ghost use Rattle.pf_base.specs.declared.plain.Limits.{Limits as LimitsData};
ghost use Rattle.pf_core.specs.Cores.{AreLimits, Stands};
ghost use Rattle.pf_front.specs.Works.{AreCarried};
ghost use Rattle.pf_io.specs.Outside.{Grows, Rose};
ghost use Rattle.pf_journal.specs.Scripts.{Numbered};
ghost use Rattle.pf_journal.specs.Summaries.{nothing_counted};
ghost use Rattle.pf_script.specs.Lines.{lines_of};
ghost use Rattle.pf_client.specs.Drives.{BreaksOff, CanRun, IsAnyReport, IsReport, left_text, why_of};
ghost use Rattle.pf_client.specs.Files.{AreHeld};
ghost use Rattle.pf_client.specs.Going.{HasStopped, IsGoing};
ghost use Rattle.pf_client.specs.Hands.{HoldsJobs};
ghost use Rattle.pf_client.specs.Replays.{why_by};
ghost use Rattle.pf_client.specs.Tallies.{IsCounted};
ghost use Rattle.pf_client.specs.Tries.{HaveCause};
ghost use Rattle.pf_client.specs.Sent.{WritesFront, WritesTo};
ghost use Rattle.pf_client.specs.Written.{Begins, Writes, WritesPart};
ghost use Rattle.pf_client.specs.declared.loaded.Loaded.{Loaded as LoadedData};
ghost use Rattle.pf_client.specs.declared.pieces.ReportError.{ReportError};

use crate::client::{Client, LineRun};
use crate::journal::write_journal;
use crate::loaded::Loaded;
use crate::pieces::{ReportError, hand_on, write_held};
use pf_base::{Limits, OutOfMemory};
use pf_core::Core;
use pf_io::{Gate, Hop, Sink};
use pf_query::Held;
use pf_report::{push_actors, push_client};
use pf_script::Script;
use std::alloc::Global;
use std::collections::BTreeMap;

/// Sixteen workers without a job.
fn no_hands(alloc: Global) -> Result<Vec<Option<Held>>, OutOfMemory>
    ensures { IfOk result (λ hands. hands.items ≡ replicate 16 None) }
{
    let mut hands = Vec::new(alloc);
    for _worker in 0u32..16 {
        hands.push(None)?;
    }
    Ok(hands)
}

/// The client of a number, that has run no line of a script that has step lines, or has none.
pub(crate) fn client_of(
    alloc: Global,
    limits: Limits,
    client: u32,
    stepped: bool,
) -> Result<Client, OutOfMemory>
    requires limits { AreLimits limits }
    requires below { client < 16 }
    ensures client { IfOk result (λ c. c.client ≡ client) }
    ensures going { IfOk result (λ c. (loaded : LoadedData) (lines : List Numbered) → IsGoing loaded limits lines 0 [] c) }
    ensures holds { IfOk result HoldsJobs }
    ensures counted { IfOk result (λ c. (loaded : LoadedData) → IsCounted loaded nothing_counted c) }
    ensures untried { IfOk result (λ c. sum c.core.failed ≡ 0) }
{
    let mut out = Vec::new(alloc);
    push_client(&mut out, client)?;
    let core = Core::open(alloc, limits)?;
    let hands = no_hands(alloc)?;
    Ok(Client {
        alloc,
        client,
        core,
        stepped,
        slots: BTreeMap::new(alloc),
        hands,
        out,
    })
}

/// Runs the lines of a script, up to the one that stops the client, and writes what it says in pieces: how the last line ran.
/// Each file is let go behind the last line that names it.
fn run_lines<O: Sink, H: Hop, G: Gate>(
    client: &mut Client,
    script: &Script,
    loaded: &mut Loaded,
    hops: &mut [H],
    gate: &G,
    out: &mut O,
) -> Result<LineRun, ReportError>
    requires can_run { CanRun script.now 0 loaded.old }
    requires actors { length hops.old ≡ 32 }
    requires holds { HoldsJobs client.old }
    ensures client { OnOk result (client.new.client ≡ client.old.client) }
    ensures stopped { IfOk result (λ r. (limits : LimitsData) → IsGoing loaded.old limits (lines_of script.now) 0 [] client.old
        → (sent : List ℕ) × (Grows (O.told out.old) (O.told out.new) sent × HasStopped loaded.old limits (lines_of script.now) (why_of r) sent client.new)) }
    ensures broken { OnErr result ((limits : LimitsData) → IsGoing loaded.old limits (lines_of script.now) 0 [] client.old
        → BreaksOff client.old.client loaded.old limits (lines_of script.now) (AreCarried (sum_by H.faults hops.old) (sum_by H.faults hops.new) client.old.core) (O.told out.old) (O.told out.new)) }
    ensures carried { OnOk result (AreCarried (sum_by H.faults hops.old) (sum_by H.faults hops.new) client.old.core client.new.core) }
    ensures risen { sum_by H.faults hops.old ≤ sum_by H.faults hops.new }
    ensures most { map H.most hops.new ≡ map H.most hops.old }
    ensures fault { result ≡ Err ReportError.WriteFault → Rose (O.faults out.old) (O.faults out.new) }
    ensures steady { result ≢ Err ReportError.WriteFault → O.faults out.new ≡ O.faults out.old }
{
    for line in &script.lines {
        let _entries = client.core.journal();
        hand_on(&mut client.out, out)?;
        match client.run_line(loaded, line, hops, gate)? {
            LineRun::On => {}
            LineRun::Full => return Ok(LineRun::Full),
            LineRun::Starved => return Ok(LineRun::Starved),
        }
    }
    Ok(LineRun::On)
}

/// Whether the last line met the full journal. One that lacked memory is that error.
fn met_full(stopped: LineRun) -> Result<bool, ReportError>
    ensures full { IfOk result (λ full. why_by full ≡ why_of stopped) }
    ensures starved { result ≢ Err ReportError.WriteFault }
{
    match stopped {
        LineRun::On => Ok(false),
        LineRun::Full => Ok(true),
        LineRun::Starved => Err(ReportError::OutOfMemory),
    }
}

/// The failed tries of each of the 32 actors.
fn failures(alloc: Global, core: &Core) -> Result<Vec<u64>, OutOfMemory>
    ensures { IfOk result (λ failed. Stands core.now → failed.items ≡ core.now.failed) }
{
    let mut failed = Vec::new(alloc);
    for actor in 0..32 {
        failed.push(core.failed(actor))?;
    }
    Ok(failed)
}

/// Writes what a client that stopped has still to say.
fn write_rest<O: Sink>(client: Client, out: &mut O) -> Result<(), ReportError>
    ensures stands { Stands client.core }
    ensures written { OnOk result (WritesTo (O.told out.old) (O.told out.new) (left_text client) []) }
    ensures begun { OnErr result (WritesFront (O.told out.old) (O.told out.new) (left_text client)) }
    ensures fault { result ≡ Err ReportError.WriteFault → Rose (O.faults out.old) (O.faults out.new) }
    ensures steady { result ≢ Err ReportError.WriteFault → O.faults out.new ≡ O.faults out.old }
{
    let Client {
        alloc,
        core,
        out: mut held,
        ..
    } = client;
    let _entries = core.journal();
    write_journal(&mut held, &core, out)?;
    let failed = failures(alloc, &core)?;
    push_actors(&mut held, &failed)?;
    write_held(held.as_slice(), out)
}

/// Runs a script over what the files that it names hold, and writes the report as it runs, in pieces: whether the client met
/// the full journal. After an `Err` a front of a report was written, or nothing. Where a file or a deletion found no memory, the
/// report is written up to its end, and the answer is want of memory.
pub fn run_script<O: Sink, H: Hop, G: Gate>(
    alloc: Global,
    limits: Limits,
    script: &Script,
    mut loaded: Loaded,
    hops: &mut [H],
    gate: &G,
    out: &mut O,
) -> Result<bool, ReportError>
    requires limits { AreLimits limits }
    requires actors { length hops.old ≡ 32 }
    requires can_run { CanRun script.now 0 loaded }
    ensures written { IfOk result (λ full. (held : List ℕ → List ℕ) → AreHeld held loaded.files → Writes (IsReport limits held (lines_of script.now) (HaveCause (map H.most hops.old) (sum_by H.faults hops.old) (sum_by H.faults hops.new)) (why_by full)) (O.told out.old) (O.told out.new)) }
    ensures begun { result ≡ Err ReportError.OutOfMemory → (held : List ℕ → List ℕ) → AreHeld held loaded.files → Begins (IsAnyReport limits held (lines_of script.now) (HaveCause (map H.most hops.old) (sum_by H.faults hops.old) (sum_by H.faults hops.new))) (O.told out.old) (O.told out.new) }
    ensures broken { result ≡ Err ReportError.WriteFault → (held : List ℕ → List ℕ) → AreHeld held loaded.files → WritesPart (IsAnyReport limits held (lines_of script.now) (HaveCause (map H.most hops.old) (sum_by H.faults hops.old) (sum_by H.faults hops.new))) (O.told out.old) (O.told out.new) }
    ensures risen { sum_by H.faults hops.old ≤ sum_by H.faults hops.new }
    ensures most { map H.most hops.new ≡ map H.most hops.old }
    ensures fault { result ≡ Err ReportError.WriteFault → Rose (O.faults out.old) (O.faults out.new) }
    ensures steady { result ≢ Err ReportError.WriteFault → O.faults out.new ≡ O.faults out.old }
{
    let _lines = script.lines.len();
    let mut client = client_of(alloc, limits, 0, script.is_stepped())?;
    let stopped = run_lines(&mut client, script, &mut loaded, hops, gate, out)?;
    write_rest(client, out)?;
    let full = met_full(stopped)?;
    Ok(full)
}
