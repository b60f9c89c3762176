//! What stands before the value in the text of a point. The rows of a matrix mostly have the same times, so the heads of
//! one row are kept and copied for the others.

ghost use Rattle.std.specs.Prelude.{◌≡◌, ◌+◌, ◌<◌, ◌≤◌, ◌++◌, ◌∷◌, [], length, take};
ghost use Rattle.pf_model.specs.Json.{seconds_text, thousandths_text};
ghost use Rattle.pf_report.specs.Points.{head_text};

use pf_base::{OutOfMemory, Sample, write_number};
use std::alloc::Global;
use std::marker::Model;

/// Writes the three digits of a number of thousandths behind a point, and nothing for none.
fn write_thousandths(number: u16, buffer: &mut [u8], at: usize) -> usize
    requires number { number < 1000 }
    requires room { at + 4 ≤ length buffer.old }
    ensures written { take result buffer.new ≡ take at buffer.old ++ thousandths_text number }
    ensures within { (at ≤ result) × (result ≤ at + 4) }
{
    if number == 0 {
        return at;
    }
    buffer[at] = b'.';
    buffer[at + 1] = b'0' + (number / 100) as u8;
    buffer[at + 2] = b'0' + (number / 10 % 10) as u8;
    buffer[at + 3] = b'0' + (number % 10) as u8;
    at + 4
}

/// Writes milliseconds as seconds.
fn write_seconds(milliseconds: u64, buffer: &mut [u8], at: usize) -> usize
    requires { at + 24 ≤ length buffer.old }
    ensures written { take result buffer.new ≡ take at buffer.old ++ seconds_text milliseconds }
    ensures within { (at ≤ result) × (result ≤ at + 24) }
{
    let end = write_number(milliseconds / 1000, buffer, at);
    write_thousandths((milliseconds % 1000) as u16, buffer, end)
}

/// Writes two bytes.
pub fn write_two(first: u8, second: u8, buffer: &mut [u8], at: usize)
    requires { at + 2 ≤ length buffer.old }
    ensures { take (at + 2) buffer.new ≡ take at buffer.old ++ first ∷ second ∷ [] }
{
    buffer[at] = first;
    buffer[at + 1] = second;
}

/// Writes a comma, a bracket, milliseconds as seconds, a comma and a quote.
fn write_head(milliseconds: u64, buffer: &mut [u8], at: usize) -> usize
    requires { at + 32 ≤ length buffer.old }
    ensures written { take result buffer.new ≡ take at buffer.old ++ head_text milliseconds }
    ensures within { (at ≤ result) × (result ≤ at + 28) }
{
    write_two(b',', b'[', buffer, at);
    let end = write_seconds(milliseconds, buffer, at + 2);
    write_two(b',', b'"', buffer, end);
    end + 2
}

/// A head: its milliseconds, and its text at the front of the bytes.
#[derive(Drop)]
pub struct Head {
    time: u64,
    len: usize,
    bytes: [u8; 32],
}

impl Model for Head {
    ghost use Rattle.std.specs.Prelude.{ℕ};
    ghost use Rattle.std.specs.Coded.{coded_ℕ};

    ghost Value = { ℕ };

    ghost coded = { coded_ℕ };

    ghost use Rattle.pf_report.specs.Heads.{head_time, IsHead};

    ghost view = { head_time };

    ghost invariant = { IsHead };
}

impl Head {
    fn of(time: u64) -> Head
        ensures { result ≡ time }
    {
        let mut bytes = [0; 32];
        let len = write_head(time, &mut bytes, 0);
        Head { time, len, bytes }
    }

    pub fn time(&self) -> u64
        ensures { result ≡ self.now }
    {
        self.time
    }

    /// Writes the text, and may change what stands behind it.
    fn write(&self, buffer: &mut [u8], at: usize) -> usize
        requires { at + 32 ≤ length buffer.old }
        ensures written { take result buffer.new ≡ take at buffer.old ++ head_text self.now }
        ensures within { (at ≤ result) × (result ≤ at + 32) }
    {
        buffer[at..at + 32].copy_from_slice(&self.bytes);
        at + self.len
    }
}

/// The heads of these points.
pub fn heads_of(alloc: Global, points: &[Sample]) -> Result<Vec<Head>, OutOfMemory> {
    let mut heads = Vec::with_capacity(alloc, points.len())?;
    for point in points {
        heads.push(Head::of(point.time.unsigned_abs()))?;
    }
    Ok(heads)
}

/// The most heads that are passed for one point, so that a row with few points is not walked past all heads.
const PASSED: usize = 8;

/// The place of the first head from here on that isn't before the time, or how far the search went. Mostly it is the next one.
pub fn seek(heads: &[Head], from: usize, time: u64) -> usize {
    let next = from.saturating_add(1);
    if next < heads.len() && heads[next].time() == time {
        return next;
    }
    let end = heads.len().min(from.saturating_add(PASSED));
    let mut place = from;
    while place < end && heads[place].time() < time {
        place += 1;
    }
    place
}

/// Writes the head of a time: a copy of the one at the place, where that is its own.
pub fn write_time(heads: &[Head], place: usize, time: u64, buffer: &mut [u8], at: usize) -> usize
    requires { at + 32 ≤ length buffer.old }
    ensures written { take result buffer.new ≡ take at buffer.old ++ head_text time }
    ensures within { (at ≤ result) × (result ≤ at + 32) }
{
    match heads.get(place) {
        Some(head) if head.time() == time => head.write(buffer, at),
        _ => write_head(time, buffer, at),
    }
}
