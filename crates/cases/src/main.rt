//! The program of cases: reads the files of cases that its words name, answers each of their rows by the product's own crates,
//! and prints for each file how many rows hold, and every row that doesn't, with its file and line, what is wanted and what
//! was found. It ends with status 1 where a row doesn't hold, a file is not read, or a line is of no form.
#![tactic(auto)]

mod file;
mod forms;
mod hops;
mod runs;

use cases_rows::output::{Output, Trouble};
use file::judge_file;
use pf_io::{DiskFiles, Files, StdSink, put_all};
use std::env;
use std::process::ExitCode;

/// The most bytes of a file of cases.
const MOST_BYTES: usize = 16_777_216;

/// Says why no row of a file was answered.
fn push_failed(out: &mut Output, name: &str, why: &str) {
    out.text(name);
    out.text(why);
}

/// Appends what is printed of a file, and says whether all its rows hold.
fn push_file(out: &mut Output, rt: HostRuntime, name: &str) -> bool {
    let mut bytes = Vec::new(out.alloc());
    if DiskFiles::new(rt)
        .read(name, &mut bytes, MOST_BYTES)
        .is_err()
    {
        push_failed(out, name, ": not read\n");
        return false;
    }
    match judge_file(out, rt, name, &bytes) {
        Ok(all_hold) => return all_hold,
        Err(Trouble::NotOfForm) => push_failed(out, name, ": not UTF-8\n"),
        Err(Trouble::OutOfMemory) => push_failed(out, name, ": out of memory\n"),
    }
    false
}

/// Reports a file, and says whether all its rows hold and that is printed.
fn report_file(rt: HostRuntime, name: &str) -> bool {
    let mut out = Output::new(rt.alloc());
    let all_hold = push_file(&mut out, rt, name);
    let is_put = put_all(&mut StdSink::new(rt), out.as_slice()).is_ok();
    all_hold && is_put && out.trouble().is_none()
}

/// Reports each file that the words name, and says whether all rows hold.
fn report(rt: HostRuntime) -> bool {
    let Ok(args) = env::args(&rt) else {
        return false;
    };
    let mut all_hold = true;
    for name in args.skip(1) {
        let holds = report_file(rt, name.as_str());
        all_hold = all_hold && holds;
    }
    all_hold
}

fn main(rt: HostRuntime) -> ExitCode {
    if report(rt) {
        ExitCode::SUCCESS
    } else {
        ExitCode::FAILURE
    }
}
