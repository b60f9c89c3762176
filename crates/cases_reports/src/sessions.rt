//! Rows of generated sessions.

use cases_rows::output::Output;
use pf_gen::session;

/// A number for bytes, in which each has its part by its place.
fn sum_of(bytes: &[u8]) -> u32 {
    let mut sum = 0u32;
    for byte in bytes {
        sum = sum.wrapping_mul(31).wrapping_add(*byte as u32);
    }
    sum
}

/// The bytes before the first line feed.
fn first_line(bytes: &[u8]) -> &[u8] {
    match bytes.iter().position(|byte| *byte == b'\n') {
        Some(place) => bytes.get(..place).unwrap_or(bytes),
        None => bytes,
    }
}

fn push_text(out: &mut Output, name: &str, bytes: &[u8]) {
    out.text(name);
    out.text(" ");
    out.show(bytes.len());
    out.text(" ");
    out.show(sum_of(bytes));
    out.text(" ");
    out.bytes(first_line(bytes));
}

/// Writes the pages and the script of a seed: of each its name, length, number and first line.
pub fn answer(out: &mut Output, given: &str) {
    let seed: u64 = out.number(given);
    let made = session(out.alloc(), seed);
    let Some(made) = out.or_lose(made) else {
        return;
    };
    for file in &made.files {
        push_text(out, file.0.as_str(), file.1.as_slice());
        out.text("; ");
    }
    push_text(out, "script", made.script.as_str().as_bytes());
}
