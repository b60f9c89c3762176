//! Whole files.

ghost use Rattle.std.specs.Prelude.{◌<◌, ◌≤◌, length, OnOk};
ghost use Rattle.pf_base.specs.Limits.{greatest_time, most_samples};
ghost use Rattle.pf_expo.specs.Answers.{Adds, Answers, taken_of};
ghost use Rattle.pf_expo.specs.Series.{AreRead};

use crate::fault::{ExpoError, ReadFault};
use crate::line::{LineRead, read_line};
use crate::series::KnownSeries;
use pf_base::{Batch, Row};
use pf_model::next_line;
use std::alloc::Global;

/// The greatest number of rows of a file.
const MOST_ROWS: usize = 2_000_000;

/// What was taken of a file.
#[derive(Drop)]
struct Taken<'a> {
    rows: Vec<Row>,
    skipped: u64,
    known: KnownSeries<'a>,
}

/// Adds what a line gives.
fn add_line<'a>(
    alloc: Global,
    taken: &mut Taken<'a>,
    text: &'a [u8],
    line: u32,
    default_time: u64,
) -> Result<(), ExpoError>
    requires time { default_time ≤ greatest_time }
    requires room { taken.old.skipped < 18446744073709551615 }
    requires few { length taken.old.rows.items ≤ most_samples }
    requires read { AreRead taken.old.known.labels }
    ensures adds { Adds default_time text.now line (taken_of taken.old) (taken_of taken.new) result }
    ensures read { OnOk result (AreRead taken.new.known.labels) }
{
    match read_line(alloc, &mut taken.known, text, default_time) {
        Ok(LineRead::Nothing) => Ok(()),
        Ok(LineRead::NoNumber) => {
            taken.skipped += 1;
            Ok(())
        }
        Ok(LineRead::Sample(row)) => {
            if taken.rows.len() >= MOST_ROWS {
                return Err(ExpoError::TooMany { line });
            }
            Ok(taken.rows.push(row)?)
        }
        Err(ReadFault::Bad) => Err(ExpoError::BadLine { line }),
        Err(ReadFault::Late) => Err(ExpoError::TimeTooLarge { line }),
        Err(ReadFault::OutOfMemory) => Err(ExpoError::OutOfMemory),
    }
}

/// The rows of a file in the order of its lines, and the number of its lines whose value is no number. A line without a
/// timestamp has the default time. Times are in milliseconds.
pub fn read_exposition(alloc: Global, bytes: &[u8], default_time: u64) -> Result<Batch, ExpoError>
    requires { default_time ≤ greatest_time }
    ensures { Answers default_time bytes.now result }
{
    let mut taken = Taken {
        rows: Vec::new(alloc),
        skipped: 0,
        known: KnownSeries::new(alloc),
    };
    let mut line: u32 = 0;
    let mut rest = bytes;
    while let Some((text, behind)) = next_line(rest) {
        line = line.saturating_add(1);
        add_line(alloc, &mut taken, text, line, default_time)?;
        rest = behind;
    }
    Ok(Batch {
        rows: taken.rows,
        skipped: taken.skipped,
    })
}
