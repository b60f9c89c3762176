//! Sample lines.

ghost use Rattle.std.specs.Prelude.{◌≡◌, ◌≤◌, true, Err, IfOk, IfSome, OnOk};
ghost use Rattle.std.specs.Char.{is_ascii_digit};
ghost use Rattle.std.specs.List.{list_all};
ghost use Rattle.pf_base.specs.Limits.{greatest_time};
ghost use Rattle.pf_base.specs.NumberTexts.{number_after};
ghost use Rattle.pf_model.specs.Exposition.{is_blank};
ghost use Rattle.pf_expo.specs.Readings.{IsCapped, IsNoSample, LineAnswers, Reads, given_of, seen};
ghost use Rattle.pf_expo.specs.Scans.{capped, past, scan, skips, time_at};
ghost use Rattle.pf_expo.specs.Series.{AreRead, IsTail};
ghost use Rattle.pf_expo.specs.declared.fault.ReadFault.TheVariants.{Bad, Late};

use crate::fault::ReadFault;
use crate::labels::series_at;
use crate::series::{KnownSeries, labels_of, split_series};
use crate::spans::{past_blanks, split_digits, split_word};
use pf_base::{Labels, MAXT, OutOfMemory, Read, Row, Text, read_value};
use std::alloc::Global;

/// The first time that is too large, in milliseconds.
const LATE: u64 = MAXT + 1;

/// A sample line, its number unread.
#[derive(Drop)]
struct Scanned<'a> {
    pairs: Vec<(Text, Text)>,
    number: &'a [u8],
    time: u64,
}

/// A sample. Its time, in milliseconds, is at most the first one that is too large.
#[derive(Drop)]
struct Timed {
    labels: Labels,
    read: Read,
    time: u64,
}

/// What a line gives: nothing where it is skipped, no row where its value is no number, or a row.
#[derive(Drop)]
pub enum LineRead {
    Nothing,
    NoNumber,
    Sample(Row),
}

/// Whether a line is blank or a comment.
fn is_skipped(line: &[u8]) -> bool
    ensures { result ≡ skips (past is_blank line.now) }
{
    match past_blanks(line).split_first() {
        Some((first, _)) => *first == b'#',
        None => true,
    }
}

/// The time that digits write, at most the first one that is too large.
fn time_of(digits: &[u8]) -> u64
    requires { list_all is_ascii_digit digits.now ≡ true }
    ensures { result ≡ capped (number_after 0 digits.now) }
{
    let mut time = 0;
    for digit in digits {
        time = (time * 10 + (*digit - b'0') as u64).min(LATE);
    }
    time
}

/// The time of a timestamp behind a number, or the default one where nothing stands there.
#[tactic(auto, unfolding(crate::specs::Scans::time_at))]
fn time_at(bytes: &[u8], default_time: u64) -> Result<u64, ReadFault>
    ensures { Reads (λ t. t) result (time_at default_time bytes.now) }
{
    let stamp = past_blanks(bytes);
    if stamp.is_empty() {
        return Ok(default_time);
    }
    let (digits, behind) = split_digits(stamp);
    if digits.is_empty() || !past_blanks(behind).is_empty() {
        return Err(ReadFault::Bad);
    }
    Ok(time_of(digits))
}

/// A sample line, its number unread.
#[tactic(auto, unfolding(crate::specs::Scans::scan))]
fn scan(alloc: Global, line: &[u8], default_time: u64) -> Result<Scanned<'_>, ReadFault>
    ensures { Reads (λ s. record { pairs = s.pairs.items; number = s.number.now; time = s.time }) result (scan default_time line.now) }
{
    let (pairs, behind) = series_at(alloc, line)?;
    let (number, behind) = split_word(behind);
    let time = time_at(behind, default_time)?;
    Ok(Scanned {
        pairs,
        number,
        time,
    })
}

/// The number and the time that stand behind a series.
fn tail_at(bytes: &[u8], default_time: u64) -> Result<(Read, u64), ReadFault>
    ensures { IfOk result (λ x. IsTail default_time bytes.now x.0 x.1) }
{
    let (number, behind) = split_word(bytes);
    let Ok(read) = read_value(number) else {
        return Err(ReadFault::Bad)
    };
    let time = time_at(behind, default_time)?;
    Ok((read, time))
}

/// A sample line by the known series, which has its own afterwards. None for other lines.
fn known_sample<'a>(
    alloc: Global,
    known: &mut KnownSeries<'a>,
    line: &'a [u8],
    default_time: u64,
) -> Result<Option<Timed>, OutOfMemory>
    requires time { default_time ≤ greatest_time }
    requires read { AreRead known.old.labels }
    ensures found { IfOk result (λ o. IfSome o (λ s. IsCapped default_time line.now s.labels s.read s.time)) }
    ensures read { OnOk result (AreRead known.new.labels) }
{
    let (series, tail) = split_series(line);
    let Ok((read, time)) = tail_at(tail, default_time) else {
        return Ok(None)
    };
    let Some(labels) = known.labels_of(alloc, series)? else {
        return Ok(None)
    };
    Ok(Some(Timed { labels, read, time }))
}

/// A sample line, read from its first byte on.
fn sample_of(alloc: Global, line: &[u8], default_time: u64) -> Result<Timed, ReadFault>
    requires { default_time ≤ greatest_time }
    ensures found { IfOk result (λ s. IsCapped default_time line.now s.labels s.read s.time) }
    ensures none { result ≡ Err Bad → IsNoSample default_time line.now }
    ensures time { result ≡ Err Late → ⊥ }
{
    let scanned = scan(alloc, line, default_time)?;
    let Ok(read) = read_value(scanned.number) else {
        return Err(ReadFault::Bad)
    };
    Ok(Timed {
        labels: labels_of(alloc, scanned.pairs)?,
        read,
        time: scanned.time,
    })
}

/// A sample line, by the known series first: a line that they don't give may still be one.
fn any_sample<'a>(
    alloc: Global,
    known: &mut KnownSeries<'a>,
    line: &'a [u8],
    default_time: u64,
) -> Result<Timed, ReadFault>
    requires time { default_time ≤ greatest_time }
    requires read { AreRead known.old.labels }
    ensures found { IfOk result (λ s. IsCapped default_time line.now s.labels s.read s.time) }
    ensures none { result ≡ Err Bad → IsNoSample default_time line.now }
    ensures time { result ≡ Err Late → ⊥ }
    ensures read { OnOk result (AreRead known.new.labels) }
{
    match known_sample(alloc, known, line, default_time)? {
        Some(sample) => Ok(sample),
        None => sample_of(alloc, line, default_time),
    }
}

/// The row of a sample, where its value is a number.
fn line_read(sample: Timed) -> LineRead
    ensures { given_of result ≡ seen sample.labels sample.read sample.time }
{
    let Timed { labels, read, time } = sample;
    match read {
        Read::NotANumber => LineRead::NoNumber,
        Read::Number(value) => LineRead::Sample(Row {
            labels,
            time,
            value,
        }),
    }
}

/// What a line gives. Without a timestamp its time is the default one.
pub fn read_line<'a>(
    alloc: Global,
    known: &mut KnownSeries<'a>,
    line: &'a [u8],
    default_time: u64,
) -> Result<LineRead, ReadFault>
    requires time { default_time ≤ greatest_time }
    requires read { AreRead known.old.labels }
    ensures gives { LineAnswers default_time line.now result }
    ensures read { OnOk result (AreRead known.new.labels) }
{
    if is_skipped(line) {
        return Ok(LineRead::Nothing);
    }
    let sample = any_sample(alloc, known, line, default_time)?;
    if sample.time > MAXT {
        return Err(ReadFault::Late);
    }
    Ok(line_read(sample))
}
