//! The JSON of points: it is written into a buffer, which is appended when it is full.

ghost use Rattle.std.specs.Prelude.{◌≡◌, ◌+◌, ◌≤◌, ◌++◌, ◌∷◌, IfOk, OnOk, length, take, vec_len};
ghost use Rattle.pf_model.specs.Json.{point_text};
ghost use Rattle.pf_model.specs.Lists.{comma_before, comma_joined};

use crate::heads::{Head, seek, write_time, write_two};
use pf_base::{OutOfMemory, Sample, write_value};

/// The most bytes of a point, and of a buffer.
const POINT: usize = 64;

const BUFFER: usize = 1024;

/// Writes a point behind a comma: its time in seconds and its value in quotes.
#[inline(always)]
fn write_point(heads: &[Head], place: usize, point: Sample, buffer: &mut [u8], at: usize) -> usize
    requires { at + 64 ≤ length buffer.old }
    ensures written { take result buffer.new ≡ take at buffer.old ++ 44 ∷ point_text point }
    ensures within { (1 + at ≤ result) × (result ≤ at + 64) }
{
    let end = write_time(heads, place, point.time.unsigned_abs(), buffer, at);
    let end = write_value(point.value, buffer, end);
    write_two(b'"', b']', buffer, end);
    end + 2
}

/// Appends a point without a comma.
fn push_point(out: &mut Vec<u8>, point: Sample) -> Result<(), OutOfMemory>
    ensures ok { OnOk result (out.new.items ≡ out.old.items ++ point_text point) }
    ensures kept { take (vec_len out.old) out.new.items ≡ out.old.items }
{
    let mut buffer = [0; POINT];
    let end = write_point(&[], 0, point, &mut buffer, 0);
    out.extend_from_slice(&buffer[1..end])?;
    Ok(())
}

/// Appends the front of the buffer where there may be no room for another point, and answers the place for it.
fn make_room(out: &mut Vec<u8>, buffer: &[u8], at: usize) -> Result<usize, OutOfMemory>
    requires { (length buffer.now ≡ 1024) × (at ≤ 1024) }
    ensures ok { IfOk result (λ n. out.new.items ++ take n buffer.now ≡ out.old.items ++ take at buffer.now) }
    ensures room { IfOk result (λ n. n + 64 ≤ 1024) }
    ensures kept { take (vec_len out.old) out.new.items ≡ out.old.items }
{
    if at <= BUFFER - POINT {
        return Ok(at);
    }
    out.extend_from_slice(&buffer[..at])?;
    Ok(0)
}

/// Appends points, each behind a comma.
fn push_more_points(heads: &[Head], out: &mut Vec<u8>, points: &[Sample]) -> Result<(), OutOfMemory>
    ensures ok { OnOk result (out.new.items ≡ out.old.items ++ comma_before point_text points.now) }
    ensures kept { take (vec_len out.old) out.new.items ≡ out.old.items }
{
    let mut buffer = [0; BUFFER];
    let mut at = 0;
    let mut place = 0;
    for point in points {
        at = make_room(out, &buffer, at)?;
        place = seek(heads, place, point.time.unsigned_abs());
        at = write_point(heads, place, *point, &mut buffer, at);
    }
    out.extend_from_slice(&buffer[..at])?;
    Ok(())
}

/// Appends points with commas between them, by copies of heads where these have their times.
pub fn push_points_by(
    heads: &[Head],
    out: &mut Vec<u8>,
    points: &[Sample],
) -> Result<(), OutOfMemory>
    ensures ok { OnOk result (out.new.items ≡ out.old.items ++ comma_joined point_text points.now) }
    ensures kept { take (vec_len out.old) out.new.items ≡ out.old.items }
{
    let Some((first, others)) = points.split_first() else {
        return Ok(());
    };
    push_point(out, *first)?;
    if others.is_empty() {
        return Ok(());
    }
    push_more_points(heads, out, others)
}
