//! Durations as text.

ghost use Rattle.std.specs.Prelude.{◌≡◌, ◌↔◌, ◌+◌, ◌<◌, ◌≤◌, ℕ, min, Result};
ghost use Rattle.pf_base.specs.DurationTexts.{ReadsDuration};
ghost use Rattle.pf_base.specs.DurationScans.{duration_of, letters_in_front, part_of, past_letters, past_part};
ghost use Rattle.pf_base.specs.declared.duration.DurationError.{DurationError};

use crate::grid::MAXT;
use crate::number::{read_on, split_digits};

/// Why a text is no duration within the limit.
#[derive(Clone, Copy)]
pub enum DurationError {
    BadForm,
    /// More than the greatest time, 4,398,046,511,103 ms.
    TooLarge,
}

/// Reads digits with units, which are `y`, `w`, `d`, `h`, `m`, `s`, `ms` in this order, each at most once, and gives
/// milliseconds.
pub fn read_duration(bytes: &[u8]) -> Result<u64, DurationError>
    ensures { (r : Result ℕ DurationError) → (result ≡ r) ↔ ReadsDuration bytes.now r }
{
    read_parts(bytes)
}

fn read_parts(bytes: &[u8]) -> Result<u64, DurationError>
    ensures { result ≡ duration_of bytes.now }
{
    let (total, rest) = read_part(0, bytes, b"y", 31_536_000_000);
    let (total, rest) = read_part(total, rest, b"w", 604_800_000);
    let (total, rest) = read_part(total, rest, b"d", 86_400_000);
    let (total, rest) = read_part(total, rest, b"h", 3_600_000);
    let (total, rest) = read_part(total, rest, b"m", 60_000);
    let (total, rest) = read_part(total, rest, b"s", 1000);
    let (total, rest) = read_part(total, rest, b"ms", 1);
    if bytes.is_empty() || !rest.is_empty() {
        return Err(DurationError::BadForm);
    }
    if total > MAXT {
        return Err(DurationError::TooLarge);
    }
    Ok(total)
}

/// Adds digits with this unit, of so many milliseconds, to a total, where they stand in front, and gives what is behind
/// them. Past the greatest time the total is one more than that.
fn read_part<'a>(total: u64, bytes: &'a [u8], unit: &[u8], millis: u64) -> (u64, &'a [u8])
    requires total { total ≤ 4398046511104 }
    requires millis { 0 < millis }
    ensures total { result.0 ≡ min (total + part_of unit.now millis bytes.now) 4398046511104 }
    ensures rest { result.1.now ≡ past_part unit.now bytes.now }
{
    let (digits, after) = split_digits(bytes);
    let (letters, rest) = split_letters(after);
    if digits.is_empty() || letters != unit {
        return (total, bytes);
    }
    let part = read_on(0, digits).saturating_mul(millis);
    (total.saturating_add(part).min(MAXT + 1), rest)
}

/// The bytes before the next digit, and what is behind them.
fn split_letters(bytes: &[u8]) -> (&[u8], &[u8])
    ensures letters { result.0.now ≡ letters_in_front bytes.now }
    ensures rest { result.1.now ≡ past_letters bytes.now }
{
    for (i, byte) in bytes.iter().enumerate() {
        if byte.is_ascii_digit() {
            return bytes.split_at(i);
        }
    }
    bytes.split_at(bytes.len())
}
