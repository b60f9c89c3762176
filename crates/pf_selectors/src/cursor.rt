//! A place among the samples of a series, which moves as times move on.

ghost use Rattle.std.specs.Prelude.{◌≡◌, ◌<◌, ◌≤◌, true, take, filter, length, int_lt, IfOk, OnOk};
ghost use Rattle.pf_block.specs.Samples.{last_of, rises, until, window_of};
ghost use Rattle.pf_block.specs.Snaps.{samples_of};

use pf_base::{OutOfMemory, Sample};
use pf_block::Snap;

/// The first place from `near` on of a sample after a time, or the end. Behind `near` it is the number of samples that aren't
/// after the time.
fn forward(samples: &[Sample], near: usize, time: i64) -> usize
    requires rises { rises samples.now ≡ true }
    requires near { near ≤ length samples.now }
    ensures within { result ≤ length samples.now }
    ensures behind { until time samples.now ≤ result }
    ensures passed { near < result → result ≡ until time samples.now }
{
    for i in near..samples.len() {
        let sample = samples[i];
        if sample.time > time {
            return i;
        }
    }
    samples.len()
}

/// The number of samples that aren't after a time, where it is at most `place`.
fn back(samples: &[Sample], place: usize, time: i64) -> usize
    requires rises { rises samples.now ≡ true }
    requires within { place ≤ length samples.now }
    requires behind { until time samples.now ≤ place }
    ensures { result ≡ until time samples.now }
{
    let mut count = place;
    while count > 0 {
        let sample = samples[count - 1];
        if sample.time <= time {
            return count;
        }
        count -= 1;
    }
    0
}

/// The number of samples that aren't after a time. It is found in as many steps as it is away from `near`.
pub(crate) fn moved(samples: &[Sample], near: usize, time: i64) -> usize
    requires rises { rises samples.now ≡ true }
    requires near { near ≤ length samples.now }
    ensures within { result ≤ length samples.now }
    ensures value { result ≡ until time samples.now }
{
    let place = forward(samples, near, time);
    if place > near {
        return place;
    }
    back(samples, place, time)
}

/// The last of the samples up to a place, if it is after a time.
pub(crate) fn newest(samples: &[Sample], count: usize, after: i64) -> Option<Sample>
    requires rises { rises samples.now ≡ true }
    requires within { count ≤ length samples.now }
    ensures { result ≡ last_of (filter (λ s. int_lt after s.time) (take count samples.now)) }
{
    if count == 0 {
        return None;
    }
    let sample = samples[count - 1];
    if sample.time > after {
        Some(sample)
    } else {
        None
    }
}

/// Copies the samples of a series after `after`, up to and with `upto`, in place of those that `room` holds.
fn copy(
    snap: &Snap,
    id: u32,
    after: i64,
    upto: i64,
    room: &mut Vec<Sample>,
) -> Result<(), OutOfMemory>
    requires { id < length snap.now.labels }
    ensures samples { OnOk result (room.new.items ≡ window_of (samples_of snap.now id) after upto) }
    ensures rises { OnOk result (rises room.new.items ≡ true) }
{
    let _count = snap.series_count();
    room.clear();
    for sample in snap.window(id, after, upto) {
        room.push(sample)?;
    }
    Ok(())
}

/// The samples of a series after `after`, up to and with `upto`. They are lent where one block has them all, else copied in
/// place of those that `room` holds.
pub(crate) fn read<'a>(
    snap: &'a Snap,
    id: u32,
    after: i64,
    upto: i64,
    room: &'a mut Vec<Sample>,
) -> Result<&'a [Sample], OutOfMemory>
    requires { id < length snap.now.labels }
    ensures samples { IfOk result (λ xs. xs.now ≡ window_of (samples_of snap.now id) after upto) }
    ensures rises { IfOk result (λ xs. rises xs.now ≡ true) }
{
    if let Some(lent) = snap.lent(id, after, upto) {
        return Ok(lent);
    }
    copy(snap, id, after, upto, room)?;
    Ok(room.as_slice())
}
