//! The session of a seed.

ghost use Rattle.std.specs.Prelude.{◌≡◌, ℕ, IfOk, List, [], cond, length, map};
ghost use Rattle.pf_core.specs.Cores.{AreLimits};
ghost use Rattle.pf_client.specs.Files.{AreHeld, HaveLast, IsKept, NamesFile};
ghost use Rattle.pf_client.specs.Replays.{Held};
ghost use Rattle.pf_journal.specs.Summaries.{asks, summary_text};
ghost use Rattle.pf_model.specs.Lists.{Each};
ghost use Rattle.pf_script.specs.Lines.{AllFollow, IsRead, lines_of};
ghost use Rattle.pf_top.specs.Commands.{IsSummed, SessionTells};
ghost use Rattle.pf_top.specs.Pages.{page_in};
ghost use Rattle.pf_top.specs.Seen.{hops_seen};

use crate::driver::Output;
use crate::pages::Pages;
use pf_base::{Limits, OutOfMemory, Text};
use pf_client::{Contents, Loaded, Summary, load_all, read_queries, run_session};
use pf_gen::session;
use pf_io::{Gate, Hop};
use pf_report::push_summary;
use pf_script::{Script, ScriptError, read_script};
use std::alloc::Global;
use std::collections::BTreeMap;

/// The line of a session, with its status.
fn summed(alloc: Global, seed: u64, summary: Summary) -> Result<Output, OutOfMemory>
    ensures status { IfOk result (λ o. o.status ≡ cond summary.full 8 0) }
    ensures text { IfOk result (λ o. o.text.items ≡ summary_text seed summary.queries summary.tally) }
{
    let mut text = Vec::new(alloc);
    push_summary(&mut text, seed, summary.queries, summary.tally)?;
    let status = if summary.full { 8 } else { 0 };
    Ok(Output { status, text })
}

/// Reads the queries of a session's script whose pages are read, and runs it.
fn run_loaded<H: Hop, G: Gate>(
    alloc: Global,
    limits: Limits,
    seed: u64,
    script: &Script,
    files: Contents,
    hops: &mut [H],
    gate: &G,
) -> Result<Output, OutOfMemory>
    requires limits { AreLimits limits }
    requires actors { length hops.old ≡ 32 }
    requires there { (name : List ℕ) → NamesFile (lines_of script.now) name → IsKept files name }
    requires lasts { HaveLast (lines_of script.now) files }
    requires read { Each IsRead script.now.lines.items }
    requires following { AllFollow [] (lines_of script.now) }
    ensures { IfOk result (λ o. (held : Held) → AreHeld held files → IsSummed limits (hops_seen H.most H.faults hops.old) held seed (asks (lines_of script.now)) (lines_of script.now) o.status o.text.items) }
{
    let queries = read_queries(alloc, script)?;
    let loaded = Loaded { files, queries };
    let summary = run_session(alloc, limits, script, loaded, hops, gate)?;
    summed(alloc, seed, summary)
}

/// Reads the pages that a session's script names, and runs it.
fn run_pages<H: Hop, G: Gate>(
    alloc: Global,
    limits: Limits,
    seed: u64,
    pages: Vec<(Text, Vec<u8>)>,
    script: &Script,
    hops: &mut [H],
    gate: &G,
) -> Result<Output, OutOfMemory>
    requires limits { AreLimits limits }
    requires actors { length hops.old ≡ 32 }
    requires read { Each IsRead script.now.lines.items }
    requires following { AllFollow [] (lines_of script.now) }
    ensures { IfOk result (λ o. IsSummed limits (hops_seen H.most H.faults hops.old) (page_in (map (λ f. (f.0, f.1.items)) pages.items)) seed (asks (lines_of script.now)) (lines_of script.now) o.status o.text.items) }
{
    let mut files = Pages { pages };
    let mut contents = BTreeMap::new(alloc);
    match load_all(alloc, &mut files, &mut contents, script) {
        Ok(()) => run_loaded(alloc, limits, seed, script, contents, hops, gate),
        Err(_) => Err(OutOfMemory),
    }
}

/// Runs the session of a seed, over pages in memory, and sums its answers up.
pub(crate) fn run_seed<H: Hop, G: Gate>(
    alloc: Global,
    limits: Limits,
    seed: u64,
    hops: &mut [H],
    gate: &G,
) -> Result<Output, OutOfMemory>
    requires limits { AreLimits limits }
    requires actors { length hops.old ≡ 32 }
    ensures { IfOk result (λ o. SessionTells limits (hops_seen H.most H.faults hops.old) seed o.status o.text.items) }
{
    let generated = session(alloc, seed)?;
    match read_script(alloc, generated.script.as_str().as_bytes(), false) {
        Ok(script) => run_pages(alloc, limits, seed, generated.files, &script, hops, gate),
        Err(ScriptError::Line { .. }) => unreachable!(),
        Err(ScriptError::OutOfMemory) => Err(OutOfMemory),
    }
}
