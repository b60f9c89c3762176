//! Whole runs, over files and outputs in memory.

ghost use Rattle.std.specs.Prelude.{◌≡◌, vec_len};
ghost use Rattle.pf_core.specs.Cores.{AreLimits};

use crate::hops::{ListedHop, hops_of};
use cases_rows::base::texts_of;
use cases_rows::output::{Output, cut};
use cases_rows::outside::{failing, file_of, files_of};
use cases_rows::setting::Setting;
use pf_base::{Limits, Text};
use pf_io::{DiskFiles, Files, MemFiles, MemSink, OpenGate};
use pf_top::{DEFAULT_LIMITS, run_within};

/// Writes what is found of a row, and says whether its form is one of these.
pub fn answer(
    out: &mut Output,
    rt: HostRuntime,
    form: &str,
    setting: &Setting,
    given: &str,
) -> bool {
    match form {
        // `gives status NUMBER`, and the text that is written. The words are those of a part `words`, or `replay script`. The
        // files are the parts `script` and `file NAME`. `failing reads NUMBERS`, `failing writes NUMBERS` and `failing hop ACTOR:
        // NUMBERS` name calls that fail, from 0; the client is actor 0, and worker W actor 16 + W. `most NUMBER` is the most bytes
        // that a write takes. `outstanding NUMBER` and `journal NUMBER` set these limits where the words choose none.
        "run" => run(out, setting),
        // `FOLDER SCRIPT FILES => status NUMBER REPORT`, a run over files of the folder, which writes what the file REPORT there
        // holds.
        "example" => example(out, rt, given),
        _ => return false,
    }
    true
}

/// The words of the run.
fn words_of(out: &mut Output, setting: &Setting) -> Vec<Text> {
    match setting.part("words") {
        Some(part) if part.words.is_empty() => Vec::new(out.alloc()),
        Some(part) => texts_of(out, part.words.as_str(), ' '),
        None => texts_of(out, "replay script", ' '),
    }
}

/// The limits of the run.
fn limits_of(out: &mut Output, setting: &Setting) -> Limits
    ensures { AreLimits result }
{
    let outstanding = setting.number(out, "outstanding", 100).clamp(1, 1_000_000);
    let journal = setting.number(out, "journal", 4_000_000).min(4_000_000);
    Limits {
        outstanding: outstanding as u32,
        journal,
        ..DEFAULT_LIMITS
    }
}

/// Appends a status, and what is behind it.
fn push_ended(out: &mut Output, status: u8, behind: &[u8]) {
    out.text("status ");
    out.show(status);
    out.bytes(behind);
}

fn run(out: &mut Output, setting: &Setting) {
    match hops_of(out, setting) {
        Ok(hops) => run_over(out, setting, hops),
        Err(_) => out.lose(),
    }
}

fn run_over(out: &mut Output, setting: &Setting, hops: Vec<ListedHop>)
    requires { vec_len hops ≡ 32 }
{
    let words = words_of(out, setting);
    let mut files = files_of(out, setting);
    let most = setting.number(out, "most", 0).min(1_000_000) as usize;
    let limits = limits_of(out, setting);
    let failing = failing(out, setting, "writes");
    let mut sink = MemSink::new(out.alloc(), failing, most);
    let status = run_within(
        out.alloc(),
        limits,
        &words,
        &mut files,
        &mut sink,
        hops,
        &OpenGate,
    );
    push_ended(out, status, b"\n");
    out.bytes(sink.bytes());
}

/// The most bytes of an example's file.
const MOST_BYTES: usize = 1_048_576;

/// The bytes of a file of a folder.
fn read_of(out: &mut Output, rt: HostRuntime, folder: &str, name: &str) -> Vec<u8> {
    let mut path = Output::new(out.alloc());
    path.text(folder);
    path.text("/");
    path.text(name);
    let path = out.utf8(path.as_slice());
    let mut bytes = Vec::new(out.alloc());
    if DiskFiles::new(rt)
        .read(path, &mut bytes, MOST_BYTES)
        .is_err()
    {
        out.refuse();
    }
    bytes
}

/// The files of these names in a folder.
fn folder_files(out: &mut Output, rt: HostRuntime, folder: &str, names: &str) -> MemFiles {
    let mut files = Vec::new(out.alloc());
    for name in names.split(' ') {
        let bytes = read_of(out, rt, folder, name);
        out.add(&mut files, file_of(out.alloc(), name, &bytes));
    }
    MemFiles::new(files, Vec::new(out.alloc()))
}

/// The words of a run of a script.
fn replay_of(out: &mut Output, script: &str) -> Vec<Text> {
    let mut words = texts_of(out, "replay", ' ');
    out.add(&mut words, Text::of(out.alloc(), script));
    words
}

fn push_example(out: &mut Output, status: u8, written: &[u8], report: &[u8]) {
    if written == report {
        push_ended(out, status, b" report.txt");
    } else {
        push_ended(out, status, b"\n");
        out.bytes(written);
    }
}

/// Runs an example, without failing calls.
fn example(out: &mut Output, rt: HostRuntime, given: &str) {
    let setting = Setting::new(out.alloc());
    match hops_of(out, &setting) {
        Ok(hops) => example_over(out, rt, given, hops),
        Err(_) => out.lose(),
    }
}

fn example_over(out: &mut Output, rt: HostRuntime, given: &str, hops: Vec<ListedHop>)
    requires { vec_len hops ≡ 32 }
{
    let (folder, names) = cut(given);
    let (script, _) = cut(names);
    let words = replay_of(out, script);
    let mut files = folder_files(out, rt, folder, names);
    let mut sink = MemSink::new(out.alloc(), Vec::new(out.alloc()), 0);
    let status = run_within(
        out.alloc(),
        DEFAULT_LIMITS,
        &words,
        &mut files,
        &mut sink,
        hops,
        &OpenGate,
    );
    let report = read_of(out, rt, folder, "report.txt");
    push_example(out, status, sink.bytes(), &report);
}
