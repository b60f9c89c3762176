//! The call that does all that the program does.

ghost use Rattle.std.specs.Prelude.{◌≡◌, ◌≢◌, ◌≤◌, ℕ, Err, List, [], ◌∷◌, IfOk, Some, false, length, option_map, true, vec_len};
ghost use Rattle.pf_base.specs.declared.plain.Limits.{Limits};
ghost use Rattle.pf_block.specs.Snaps.{are_timed};
ghost use Rattle.pf_core.specs.Cores.{AreLimits};
ghost use Rattle.pf_model.specs.Lists.{Each};
ghost use Rattle.pf_script.specs.Lines.{AllFollow, IsRead, lines_of};
ghost use Rattle.pf_client.specs.Replays.{Held};
ghost use Rattle.pf_client.specs.Written.{Begins, WritesPart};
ghost use Rattle.pf_client.specs.declared.pieces.ReportError.{ReportError};
ghost use Rattle.pf_io.specs.Outside.{Holds, Rose};
ghost use Rattle.pf_journal.specs.Scripts.{most_bytes};
ghost use Rattle.pf_report.specs.Replies.{fault_of};
ghost use Rattle.pf_client.specs.Files.{AreHeld, HaveLast, HoldsContent, IsKept, IsShort, NamesFile};
ghost use Rattle.pf_top.specs.Commands.{EvaluationTells, IsEvaluationText, IsReported, Says, command_of, evaluate, reads_files, replay};
ghost use Rattle.pf_top.specs.Correct.{Correct};
ghost use Rattle.pf_top.specs.Outputs.{IsReplay, Prints, default_limits};
ghost use Rattle.pf_top.specs.Refusals.{refused_file, refused_line, refused_not_built, refused_read, refused_script};
ghost use Rattle.pf_top.specs.Seen.{HopsSeen, Outside, files_seen, hops_seen};
ghost use Rattle.pf_top.specs.Words.{limits_with};
ghost use Rattle.pf_top.specs.WordSteps.{evaluation_in, replay_in};

use crate::evaluation::evaluation_of;
use crate::session::run_seed;
use crate::words::{Command, Evaluation, Replay, command_of, limits_with};
use pf_base::{Batch, Limits, OutOfMemory, Text};
use pf_client::{
    Content, Contents, FileRead, LoadError, Loaded, ReportError, let_go, load_all, only,
    read_content, read_file, read_queries, run_script,
};
use pf_io::{Doors, Files, Gate, Hop, ReadError, Sink, put_all};
use pf_report::{FileFault, Word, push_line};
use pf_script::{Script, ScriptError, read_script};
use std::alloc::Global;
use std::net::Net;
use std::random::RandomSource;
use std::rt::Clock;
use std::sync::Wait;
use std::thread::Threads;

/// The limits of a run without options: ten minutes of window, a day of interval.
pub const DEFAULT_LIMITS: Limits = Limits {
    outstanding: 100,
    window: 600_000,
    interval: 86_400_000,
    shards: 4,
    extents: 256,
    journal: 4_000_000,
};

/// What a run has still to print, with its status: of a report nothing, which is written as its script runs.
#[derive(Drop)]
pub(crate) struct Output {
    pub status: u8,
    pub text: Vec<u8>,
}

/// `refused: read NAME`, with its status.
fn unread(alloc: Global, name: &str) -> Result<Output, OutOfMemory>
    ensures { IfOk result (λ o. (o.status ≡ 4) × (o.text.items ≡ refused_read name.now)) }
{
    let mut text = Vec::new(alloc);
    push_line(
        &mut text,
        &[Word::Text("refused:"), Word::Text("read"), Word::Text(name)],
    )?;
    Ok(Output { status: 4, text })
}

/// `refused: not built`, with its status.
fn unbuilt(alloc: Global) -> Result<Output, OutOfMemory>
    ensures { IfOk result (λ o. (o.status ≡ 9) × (o.text.items ≡ refused_not_built)) }
{
    Ok(Output {
        status: 9,
        text: Vec::from_slice(alloc, b"refused: not built\n")?,
    })
}

/// `refused: script 0 line N`, with its status.
pub(crate) fn script_refused(alloc: Global, line: u32) -> Result<Output, OutOfMemory>
    ensures { IfOk result (λ o. (o.status ≡ 3) × (o.text.items ≡ refused_script 0 line)) }
{
    let mut text = Vec::new(alloc);
    push_line(
        &mut text,
        &[
            Word::Text("refused:"),
            Word::Text("script"),
            Word::Number(0),
            Word::Text("line"),
            Word::Number(line as u64),
        ],
    )?;
    Ok(Output { status: 3, text })
}

/// Reads the queries of a script whose files are read, and runs it.
fn run_loaded<O: Sink, H: Hop, G: Gate>(
    alloc: Global,
    limits: Limits,
    script: &Script,
    files: Contents,
    hops: &mut [H],
    gate: &G,
    out: &mut O,
) -> Result<Output, ReportError>
    requires limits { AreLimits limits }
    requires actors { length hops.old ≡ 32 }
    requires there { (name : List ℕ) → NamesFile (lines_of script.now) name → IsKept files name }
    requires lasts { HaveLast (lines_of script.now) files }
    requires read { Each IsRead script.now.lines.items }
    requires following { AllFollow [] (lines_of script.now) }
    ensures printed { IfOk result (λ o. (held : Held) → AreHeld held files → Prints (IsReported limits (hops_seen H.most H.faults hops.old) held (lines_of script.now ∷ []) o.status) (O.told out.old) (O.told out.new) o.text.items) }
    ensures begun { result ≡ Err ReportError.OutOfMemory → (held : Held) → AreHeld held files → Begins (IsReported limits (hops_seen H.most H.faults hops.old) held (lines_of script.now ∷ []) 6) (O.told out.old) (O.told out.new) }
    ensures broken { result ≡ Err ReportError.WriteFault → (held : Held) → AreHeld held files → WritesPart (IsReported limits (hops_seen H.most H.faults hops.old) held (lines_of script.now ∷ []) 6) (O.told out.old) (O.told out.new) }
    ensures fault { result ≡ Err ReportError.WriteFault → Rose (O.faults out.old) (O.faults out.new) }
    ensures taken { result ≢ Err ReportError.WriteFault → O.faults out.new ≡ O.faults out.old }
{
    let queries = read_queries(alloc, script)?;
    let loaded = Loaded { files, queries };
    let full = run_script(alloc, limits, script, loaded, hops, gate, out)?;
    let status = if full { 8 } else { 0 };
    Ok(Output {
        status,
        text: Vec::new(alloc),
    })
}

/// Reads the other files that a script names, and then its queries, and runs it. These are its own name and bytes, which
/// are not read again, and are let go before it runs, unless a line names them.
fn replay_script<F: Files, O: Sink, H: Hop, G: Gate>(
    alloc: Global,
    limits: Limits,
    files: &mut F,
    script: &Script,
    name: &str,
    bytes: Vec<u8>,
    hops: &mut [H],
    gate: &G,
    out: &mut O,
) -> Result<Output, ReportError>
    requires limits { AreLimits limits }
    requires actors { length hops.old ≡ 32 }
    requires read { Each IsRead script.now.lines.items }
    requires following { AllFollow [] (lines_of script.now) }
    requires held { Holds (F.told files.old name.now) bytes.items }
    requires short { length bytes.items ≤ most_bytes }
    requires there { F.lost files.old name.now ≡ false }
    ensures output { IfOk result (λ o. Prints (IsReplay limits (hops_seen H.most H.faults hops.old) (files_seen F.told F.sure F.lost F.faults F.failed files.old files.new) name.now bytes.items (lines_of script.now) o.status) (O.told out.old) (O.told out.new) o.text.items) }
    ensures begun { result ≡ Err ReportError.OutOfMemory → Begins (IsReplay limits (hops_seen H.most H.faults hops.old) (files_seen F.told F.sure F.lost F.faults F.failed files.old files.new) name.now bytes.items (lines_of script.now) 6) (O.told out.old) (O.told out.new) }
    ensures broken { result ≡ Err ReportError.WriteFault → WritesPart (IsReplay limits (hops_seen H.most H.faults hops.old) (files_seen F.told F.sure F.lost F.faults F.failed files.old files.new) name.now bytes.items (lines_of script.now) 6) (O.told out.old) (O.told out.new) }
    ensures fault { result ≡ Err ReportError.WriteFault → Rose (O.faults out.old) (O.faults out.new) }
    ensures taken { result ≢ Err ReportError.WriteFault → O.faults out.new ≡ O.faults out.old }
{
    let Ok(mut contents) = only(alloc, name, Content::Bytes(bytes)) else {
        return Err(ReportError::OutOfMemory);
    };
    match load_all(alloc, files, &mut contents, script) {
        Ok(()) => {
            let_go(&mut contents, name, 0);
            run_loaded(alloc, limits, script, contents, hops, gate, out)
        }
        Err(LoadError::Unread { name: missing }) => Ok(unread(alloc, missing.as_str())?),
        Err(LoadError::OutOfMemory) => Err(ReportError::OutOfMemory),
    }
}

/// `refused: file line N`, with its status. The line is 0 where the file has too many rows or bytes.
fn file_refused(alloc: Global, fault: FileFault) -> Result<Output, OutOfMemory>
    ensures { IfOk result (λ o. (o.status ≡ 3) × (o.text.items ≡ refused_file (fault_of fault))) }
{
    let mut text = Vec::new(alloc);
    push_line(
        &mut text,
        &[
            Word::Text("refused:"),
            Word::Text("file"),
            Word::Text("line"),
            Word::Number(refused_line(fault)),
        ],
    )?;
    Ok(Output { status: 3, text })
}

fn refused_line(fault: FileFault) -> u64
    ensures { result ≡ refused_line (fault_of fault) }
{
    match fault {
        FileFault::BadLine(line) | FileFault::TimeTooLarge(line) => line as u64,
        FileFault::TooMany(_) | FileFault::TooLong => 0,
    }
}

/// Evaluates a query over the samples of a batch.
fn evaluate_batch(
    alloc: Global,
    batch: &Batch,
    named: &Evaluation<'_>,
) -> Result<Output, OutOfMemory>
    requires { are_timed batch.now.rows ≡ true }
    ensures { IfOk result (λ o. (o.status ≡ 0) × IsEvaluationText batch.now (evaluation_in named.now) o.text.items) }
{
    let text = evaluation_of(alloc, batch, named)?;
    Ok(Output { status: 0, text })
}

/// Evaluates a query over what a file holds.
fn evaluate_content(
    alloc: Global,
    content: &Content,
    named: &Evaluation<'_>,
) -> Result<Output, OutOfMemory>
    requires { IsShort content.now }
    ensures { IfOk result (λ o. (bytes : List ℕ) → HoldsContent bytes content.now → EvaluationTells bytes (evaluation_in named.now) o.status o.text.items) }
{
    match read_content(alloc, content, 0)? {
        FileRead::Batch(batch) => evaluate_batch(alloc, &batch, named),
        FileRead::Refused(fault) => file_refused(alloc, fault),
    }
}

/// Reads the file of an evaluation, and evaluates its query over it.
fn evaluate_file<F: Files>(
    alloc: Global,
    files: &mut F,
    named: &Evaluation<'_>,
) -> Result<Output, OutOfMemory>
    ensures { IfOk result (λ o. (limits : Limits) (hops : HopsSeen) → Says limits hops (files_seen F.told F.sure F.lost F.faults F.failed files.old files.new) (Some (evaluate (evaluation_in named.now))) o.status o.text.items) }
{
    match read_file(alloc, files, named.file) {
        Ok(content) => evaluate_content(alloc, &content, named),
        Err(ReadError::Failed) => unread(alloc, named.file),
        Err(_) => Err(OutOfMemory),
    }
}

/// Reads the script of a replay, and replays it.
fn run_replay<F: Files, O: Sink, H: Hop, G: Gate>(
    alloc: Global,
    limits: Limits,
    named: &Replay<'_>,
    files: &mut F,
    hops: &mut [H],
    gate: &G,
    out: &mut O,
) -> Result<Output, ReportError>
    requires limits { AreLimits (limits_with limits (replay_in named.now)) }
    requires actors { length hops.old ≡ 32 }
    ensures output { IfOk result (λ o. Prints (Says limits (hops_seen H.most H.faults hops.old) (files_seen F.told F.sure F.lost F.faults F.failed files.old files.new) (Some (replay (replay_in named.now))) o.status) (O.told out.old) (O.told out.new) o.text.items) }
    ensures begun { result ≡ Err ReportError.OutOfMemory → Begins (Says limits (hops_seen H.most H.faults hops.old) (files_seen F.told F.sure F.lost F.faults F.failed files.old files.new) (Some (replay (replay_in named.now))) 6) (O.told out.old) (O.told out.new) }
    ensures broken { result ≡ Err ReportError.WriteFault → WritesPart (Says limits (hops_seen H.most H.faults hops.old) (files_seen F.told F.sure F.lost F.faults F.failed files.old files.new) (Some (replay (replay_in named.now))) 6) (O.told out.old) (O.told out.new) }
    ensures fault { result ≡ Err ReportError.WriteFault → Rose (O.faults out.old) (O.faults out.new) }
    ensures taken { result ≢ Err ReportError.WriteFault → O.faults out.new ≡ O.faults out.old }
{
    let bytes = match read_file(alloc, files, named.script) {
        Ok(Content::Bytes(bytes)) => bytes,
        Ok(Content::TooLong) => return Ok(script_refused(alloc, 0)?),
        Err(ReadError::Failed) => return Ok(unread(alloc, named.script)?),
        Err(_) => return Err(ReportError::OutOfMemory),
    };
    match read_script(alloc, bytes.as_slice(), true) {
        Ok(script) => {
            let chosen = limits_with(limits, named);
            replay_script(
                alloc,
                chosen,
                files,
                &script,
                named.script,
                bytes,
                hops,
                gate,
                out,
            )
        }
        Err(ScriptError::Line { line }) => Ok(script_refused(alloc, line)?),
        Err(ScriptError::OutOfMemory) => Err(ReportError::OutOfMemory),
    }
}

/// Does what the words ask for.
fn run_words<F: Files, O: Sink, H: Hop, G: Gate>(
    alloc: Global,
    limits: Limits,
    words: &[Text],
    files: &mut F,
    hops: &mut [H],
    gate: &G,
    out: &mut O,
) -> Result<Output, ReportError>
    requires limits { AreLimits limits }
    requires actors { length hops.old ≡ 32 }
    ensures output { IfOk result (λ o. Prints (Says limits (hops_seen H.most H.faults hops.old) (files_seen F.told F.sure F.lost F.faults F.failed files.old files.new) (command_of words.now) o.status) (O.told out.old) (O.told out.new) o.text.items) }
    ensures begun { result ≡ Err ReportError.OutOfMemory → Begins (Says limits (hops_seen H.most H.faults hops.old) (files_seen F.told F.sure F.lost F.faults F.failed files.old files.new) (command_of words.now) 6) (O.told out.old) (O.told out.new) }
    ensures broken { result ≡ Err ReportError.WriteFault → WritesPart (Says limits (hops_seen H.most H.faults hops.old) (files_seen F.told F.sure F.lost F.faults F.failed files.old files.new) (command_of words.now) 6) (O.told out.old) (O.told out.new) }
    ensures fault { result ≡ Err ReportError.WriteFault → Rose (O.faults out.old) (O.faults out.new) }
    ensures taken { result ≢ Err ReportError.WriteFault → O.faults out.new ≡ O.faults out.old }
    ensures untouched { reads_files (command_of words.now) ≡ false → files.new ≡ files.old }
{
    match command_of(words) {
        Some(Command::Replay(named)) => {
            run_replay(alloc, limits, &named, files, hops, gate, out)
        }
        Some(Command::Evaluate(named)) => Ok(evaluate_file(alloc, files, &named)?),
        Some(Command::Load(seed)) => Ok(run_seed(alloc, limits, seed, hops, gate)?),
        None => Ok(unbuilt(alloc)?),
    }
}

/// What `run` does, with any limits where the words choose none: takes its words, reads the files, writes what it prints and
/// answers its status.
pub fn run_within<F: Files, O: Sink, H: Hop + Drop, G: Gate>(
    alloc: Global,
    limits: Limits,
    words: &[Text],
    files: &mut F,
    out: &mut O,
    mut hops: Vec<H>,
    gate: &G,
) -> u8
    requires limits { AreLimits limits }
    requires actors { vec_len hops ≡ 32 }
    ensures claim { let outside : Outside = record { files = files_seen F.told F.sure F.lost F.faults F.failed files.old files.new; hops = hops_seen H.most H.faults hops.items; out_before = O.faults out.old; out_after = O.faults out.new; old = O.told out.old; new = O.told out.new } in
        Correct limits outside words.now result }
    ensures untouched { reads_files (command_of words.now) ≡ false → files.new ≡ files.old }
{
    let output = match run_words(alloc, limits, words, files, hops.as_mut_slice(), gate, out) {
        Ok(output) => output,
        Err(ReportError::WriteFault) => return 5,
        Err(ReportError::OutOfMemory) => return 6,
    };
    match put_all(out, output.text.as_slice()) {
        Ok(()) => return output.status,
        Err(_) => return 5,
    }
}

/// Does all that the program does: takes its words, reads the files, writes what it prints and answers its status.
///
/// Built are the words `replay SCRIPT`, with the options `--limit N`, `--window DURATION`, `--interval DURATION`,
/// `--shards N`, `--extents N` and `--journal N`; and the words `eval FILE QUERY START END STEP`, which print the code and the body
/// of a query over one file; and the words `load SEED`, which run the generated session of a seed and print the sums of its answers.
/// Any text is read as a query or a selector, and one that is refused is answered so. The doors are of no use to these. The
/// statuses are 0 for a report, an evaluation or sums, 3 for a script with a line that is none, or an evaluation's file that is
/// refused, 4 for a file that was not read, 5 for output that was not taken, 6 for want of memory, 8 for a report or sums of a
/// client that met the full journal, and 9 for words that are not built.
pub fn run<R, F: Files, O: Sink, H: Hop + Send + Drop, G: Gate + Sync, D: Doors>(
    rt: &R,
    alloc: Global,
    words: &[Text],
    files: &mut F,
    out: &mut O,
    hops: Vec<H>,
    gate: &G,
    doors: &mut D,
) -> u8
where
    R: AllocGlobal + Clock + Threads + Wait + Net + RandomSource + Sync,
    requires { vec_len hops ≡ 32 }
    ensures claim { let outside : Outside = record { files = files_seen F.told F.sure F.lost F.faults F.failed files.old files.new; hops = hops_seen H.most H.faults hops.items; out_before = O.faults out.old; out_after = O.faults out.new; old = O.told out.old; new = O.told out.new } in
        Correct default_limits outside words.now result }
    ensures untouched { reads_files (command_of words.now) ≡ false → files.new ≡ files.old }
{
    run_within(alloc, DEFAULT_LIMITS, words, files, out, hops, gate)
}
