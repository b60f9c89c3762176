//! `irate` and `idelta`: the step from the last sample but one to the last.

ghost use Rattle.std.specs.Prelude.{◌≡◌, ◌<◌, ◌≤◌, ℤ, pos, negsuc, ◌-ℤ◌, ◌*ℤ◌, ◌<ℤ◌, ◌≤ℤ◌, cond, int_div, int_lt, length, MatchOption};
ghost use Rattle.pf_base.specs.Arithmetic.{clamp};
ghost use Rattle.pf_model.specs.RangeFunctions.{but_last, last, last_growth, last_step, of_two};
ghost use Rattle.pf_range.specs.Windows.{IsWindow};

use super::quotient::quotient;
use pf_base::{Sample, Value};
use pf_block::Window;

/// The last two of samples that lie together. None of fewer.
fn two_of(samples: &[Sample]) -> Option<(Sample, Sample)>
    ensures { MatchOption result (length samples.now < 2) (λ s. (s.0 ≡ last (but_last samples.now)) × (s.1 ≡ last samples.now) × (2 ≤ length samples.now)) }
{
    let count = samples.len();
    if count < 2 {
        return None;
    }
    Some((samples[count - 2], samples[count - 1]))
}

/// The last two samples of a window that is walked to its end. None of fewer.
fn two_walked(mut window: Window<'_>) -> Option<(Sample, Sample)>
    ensures { MatchOption result (length window.entry < 2) (λ s. (s.0 ≡ last (but_last window.entry)) × (s.1 ≡ last window.entry) × (2 ≤ length window.entry)) }
{
    let mut before = window.next()?;
    let mut last = window.next()?;
    for sample in window {
        before = last;
        last = sample;
    }
    Some((before, last))
}

/// The last sample but one, and the last. None of fewer than two samples.
fn last_two(window: Window<'_>) -> Option<(Sample, Sample)>
    ensures { MatchOption result (length window.entry < 2) (λ s. (s.0 ≡ last (but_last window.entry)) × (s.1 ≡ last window.entry) × (2 ≤ length window.entry)) }
{
    match window.lent() {
        Some(samples) => two_of(samples),
        None => two_walked(window),
    }
}

/// What a counter grew by from one sample to the next, which is not moved into the bounds of values.
fn growth_at(before: Value, after: Value) -> i64
    ensures value { result ≡ cond (int_lt after before) after (after -ℤ before) }
    ensures within { (negsuc 1999999999999999999 ≤ℤ result) × (result ≤ℤ pos 2000000000000000000) }
{
    if after.micros() < before.micros() {
        after.micros()
    } else {
        after.micros() - before.micros()
    }
}

/// A growth in a time in milliseconds, for each second.
fn per_second(growth: i64, time: i64) -> Value
    requires growth { (negsuc 1999999999999999999 ≤ℤ growth) × (growth ≤ℤ pos 2000000000000000000) }
    requires time { pos 0 <ℤ time }
    ensures { result ≡ clamp (int_div (growth *ℤ pos 1000) time) }
{
    Value::new(quotient(growth as i128 * 1000, time as i128))
}

/// The growth of a counter for each second, of its last step.
pub(crate) fn irate(window: Window<'_>, from: i64, to: i64) -> Option<Value>
    requires { IsWindow from to window }
    ensures { result ≡ of_two window.entry (clamp (int_div (last_growth window.entry *ℤ pos 1000) ((last window.entry).time -ℤ (last (but_last window.entry)).time))) }
{
    let (before, last) = last_two(window)?;
    let growth = growth_at(before.value, last.value);
    Some(per_second(growth, last.time - before.time))
}

pub(crate) fn idelta(window: Window<'_>) -> Option<Value>
    ensures { result ≡ of_two window.entry (clamp (last_step window.entry)) }
{
    let (before, last) = last_two(window)?;
    Some(last.value.sub(before.value))
}
