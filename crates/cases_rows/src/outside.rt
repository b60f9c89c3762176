//! Rows of the outside: files in memory and on a disk, outputs that fail, connections, hops and gates.

use crate::output::{Output, cut};
use crate::setting::{Part, Setting};
use pf_base::{JobHead, OutOfMemory, Text};
use pf_io::{
    DiskFiles, Doors, Failed, Files, Gate, Hop, MemDoors, MemFiles, MemSink, OpenGate, ReadError,
    SteadyHop, put_all,
};
use std::alloc::Global;

/// Writes what is found of a row, and says whether its form is one of these.
pub fn answer(
    out: &mut Output,
    rt: HostRuntime,
    form: &str,
    setting: &Setting,
    given: &str,
) -> bool {
    match form {
        // `NAME MOST|NAME MOST => ANSWER|ANSWER`, calls one after another that read files of at most so many bytes into one
        // buffer. The files, and the calls that fail, are those of `run`. An answer is `ok` and what was read, `too long` or
        // `failed`.
        "memory files" => memory_files(out, setting, given),
        // The same, of the files on the disk.
        "disk files" => reads(out, &mut DiskFiles::new(rt), given),
        // `MOST TEXT => ANSWER`, a text that is written in pieces of at most so many bytes, and what was taken.
        "write" => write(out, setting, given),
        // `NUMBERS => ANSWERS`, the connections that are handed out, and two calls behind them.
        "connections" => connections(out, given),
        // `steady => ok`, a job's head that passes the open gate and the steady hop.
        "job" => job(out),
        _ => return false,
    }
    true
}

fn push_numbers(out: &mut Output, numbers: &mut Vec<u64>, list: &str) {
    for number in list.split_ascii_whitespace() {
        let number = out.number(number);
        out.push(numbers, number);
    }
}

/// The numbers of the calls that fail, by a part `failing WHAT NUMBERS`.
pub fn failing(out: &mut Output, setting: &Setting, what: &str) -> Vec<u64> {
    let mut numbers = Vec::new(out.alloc());
    for part in &setting.parts {
        if part.key.as_str() == "failing" {
            if let Some(list) = part.words.as_str().strip_prefix(what) {
                push_numbers(out, &mut numbers, list);
            }
        }
    }
    numbers
}

/// A file in memory: its name, and the text of a part.
pub fn file_of(alloc: Global, name: &str, text: &Vec<u8>) -> Result<(Text, Vec<u8>), OutOfMemory> {
    Ok((Text::of(alloc, name)?, text.clone()?))
}

/// The name of the file that a part tells.
fn file_name(part: &Part) -> Option<&str> {
    match part.key.as_str() {
        "script" => Some("script"),
        "file" => Some(part.words.as_str()),
        _ => None,
    }
}

/// The files in memory that the parts tell.
pub fn files_of(out: &mut Output, setting: &Setting) -> MemFiles {
    let mut files = Vec::new(out.alloc());
    for part in &setting.parts {
        if let Some(name) = file_name(part) {
            out.add(&mut files, file_of(out.alloc(), name, &part.text));
        }
    }
    MemFiles::new(files, failing(out, setting, "reads"))
}

/// Appends the answer to a call that read a file.
fn push_read(out: &mut Output, answer: Result<(), ReadError>, read: &[u8]) {
    match answer {
        Ok(()) => {
            out.text("ok ");
            out.bytes(read);
        }
        Err(ReadError::TooLong) => out.text("too long"),
        Err(ReadError::Failed) => out.text("failed"),
        Err(ReadError::OutOfMemory) => out.lose(),
    }
}

/// Makes the call `NAME MOST`.
fn read<F: Files>(out: &mut Output, files: &mut F, into: &mut Vec<u8>, call: &str) {
    let (name, most) = cut(call);
    let most = out.number::<u32>(most) as usize;
    let answer = files.read(name, into, most);
    push_read(out, answer, into);
}

fn reads<F: Files>(out: &mut Output, files: &mut F, calls: &str) {
    let mut into = Vec::new(out.alloc());
    for call in calls.split('|') {
        if !out.is_empty() {
            out.text("|");
        }
        read(out, files, &mut into, call);
    }
}

fn memory_files(out: &mut Output, setting: &Setting, calls: &str) {
    let mut files = files_of(out, setting);
    reads(out, &mut files, calls);
}

fn write(out: &mut Output, setting: &Setting, given: &str) {
    let (most, text) = cut(given);
    let most = out.number::<u32>(most) as usize;
    let failing = failing(out, setting, "writes");
    let mut sink = MemSink::new(out.alloc(), failing, most);
    match put_all(&mut sink, text.as_bytes()) {
        Ok(()) => out.text("ok "),
        Err(_) => out.text("failed "),
    }
    out.bytes(sink.bytes());
}

fn push_connection(out: &mut Output, connection: Result<Option<u8>, Failed>) {
    match connection {
        Ok(Some(number)) => {
            out.show(number);
            out.text(" ");
        }
        Ok(None) => out.text("none "),
        Err(_) => out.text("failed "),
    }
}

fn connections(out: &mut Output, given: &str) {
    let mut numbers = Vec::new(out.alloc());
    for number in given.split(' ') {
        out.add(&mut numbers, number.parse::<u8>());
    }
    let calls = numbers.len().saturating_add(2);
    let mut doors = MemDoors::new(numbers);
    for _call in 0..calls {
        push_connection(out, doors.next());
    }
}

fn job(out: &mut Output) {
    let head = JobHead {
        tenant: 0,
        query: 1,
        job: 0,
        leg: 0,
        first: 60_000,
        last: 180_000,
        tries: 0,
    };
    OpenGate.at(0, &head);
    let mut hop = SteadyHop;
    match hop.call(&head) {
        Ok(()) => out.text("ok"),
        Err(_) => out.text("failed"),
    }
}
