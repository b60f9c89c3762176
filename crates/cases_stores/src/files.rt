//! Rows of lines and of exposition files.

use cases_rows::base::push_labels;
use cases_rows::output::{Output, cut};
use cases_rows::setting::Setting;
use pf_base::{Batch, MAXT, Row};
use pf_expo::{ExpoError, read_exposition};
use pf_model::next_line;

/// The first line of the given text, and what follows it.
pub fn line(out: &mut Output, given: &[u8]) {
    match next_line(given) {
        Some((line, rest)) => {
            out.bytes(line);
            out.text("|");
            out.bytes(rest);
        }
        None => out.text("none"),
    }
}

/// What an exposition file gives. Its samples without a time have that of the part `time`, or 0.
fn read(out: &mut Output, setting: &Setting, file: &[u8]) -> Result<Batch, ExpoError> {
    let time = setting.number(out, "time", 0);
    if time > MAXT {
        out.refuse();
    }
    read_exposition(out.alloc(), file, time.min(MAXT))
}

/// What the page gives, or a note that it is not to be read.
pub fn batch_of(out: &mut Output, setting: &Setting, file: &[u8]) -> Option<Batch> {
    let read = read(out, setting, file);
    out.or_refuse(read)
}

fn push_refused(out: &mut Output, line: u32, why: &str) {
    out.text("line ");
    out.show(line);
    out.text(why);
}

/// Appends which line of a file is refused, and why.
fn push_refusal(out: &mut Output, error: &ExpoError) {
    match error {
        ExpoError::BadLine { line } => push_refused(out, *line, ": bad"),
        ExpoError::TimeTooLarge { line } => push_refused(out, *line, ": time too large"),
        ExpoError::TooMany { line } => push_refused(out, *line, ": too many rows"),
        ExpoError::OutOfMemory => out.lose(),
    }
}

/// Appends a row as `LABELS VALUE TIME`.
fn push_row(out: &mut Output, row: &Row) {
    push_labels(out, &row.labels);
    out.text(" ");
    out.value(row.value);
    out.text(" ");
    out.show(row.time);
}

fn push_rows(out: &mut Output, rows: &[Row]) {
    for row in rows {
        if !out.is_empty() {
            out.text("; ");
        }
        push_row(out, row);
    }
}

/// The rows of the given file.
pub fn exposition(out: &mut Output, setting: &Setting, given: &[u8]) {
    match &read(out, setting, given) {
        Ok(batch) => push_rows(out, &batch.rows),
        Err(error) => push_refusal(out, error),
    }
}

/// What becomes of the front of the page that ends at a byte.
fn fate(out: &mut Output, setting: &Setting, end: usize) -> Output {
    let mut found = Output::new(out.alloc());
    match setting.text("page").get(..end) {
        Some(front) => push_fate(&mut found, setting, front),
        None => out.refuse(),
    }
    out.share(&found);
    found
}

fn push_fate(out: &mut Output, setting: &Setting, file: &[u8]) {
    match &read(out, setting, file) {
        Ok(_) => out.text("read"),
        Err(error) => push_refusal(out, error),
    }
}

/// What becomes of each front of the page that ends at a byte `FROM` to `TO`, where all share it.
fn fronts(out: &mut Output, setting: &Setting, ends: &str) {
    let (from, to) = cut(ends);
    let from = out.number::<usize>(from);
    let to = out.number::<usize>(to);
    let first = fate(out, setting, from);
    for end in from..=to {
        let found = fate(out, setting, end);
        if found.as_slice() != first.as_slice() {
            out.text("another at ");
            return out.show(end);
        }
    }
    out.append(&first);
}

/// A row of a file by its number, from 0.
fn row_at(out: &mut Output, batch: &Batch, number: &str) {
    let number = out.number::<usize>(number);
    match batch.rows.get(number) {
        Some(row) => push_row(out, row),
        None => out.refuse(),
    }
}

fn call(out: &mut Output, batch: &Batch, verb: &str, argument: &str) {
    match verb {
        "rows" => out.show(batch.rows.len()),
        "skipped" => out.show(batch.skipped),
        "row" => row_at(out, batch, argument),
        _ => out.refuse(),
    }
}

/// Answers `rows`, `skipped`, `row NUMBER` and `fronts FROM TO` of the page.
pub fn page(out: &mut Output, setting: &Setting, given: &str) {
    let (verb, argument) = cut(given);
    if verb == "fronts" {
        return fronts(out, setting, argument);
    }
    if let Some(batch) = &batch_of(out, setting, setting.text("page")) {
        call(out, batch, verb, argument);
    }
}
