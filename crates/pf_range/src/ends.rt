//! The ends of a window, and what a counter grew by between them.

ghost use Rattle.std.specs.Prelude.{◌≡◌, ◌<◌, ◌≤◌, pos, int_lt, cond, length, FitsSigned, MatchOption};
ghost use Rattle.std.specs.Int.{w128};
ghost use Rattle.pf_base.specs.Arithmetic.{IsValue};
ghost use Rattle.pf_range.specs.Ends.{counter_of, ends_of};
ghost use Rattle.pf_range.specs.Windows.{IsFew};

use pf_base::{Sample, Value};
use pf_block::Window;

/// The first and the last sample of a window, and how many it has.
#[derive(Clone, Copy)]
pub(crate) struct Ends {
    pub(crate) first: Sample,
    pub(crate) last: Sample,
    pub(crate) count: u64,
}

/// The ends of a window, and what its samples grew by as those of a counter, in micros.
#[derive(Clone, Copy)]
pub(crate) struct Counter {
    pub(crate) first: Sample,
    pub(crate) last: Sample,
    pub(crate) count: u64,
    pub(crate) growth: i128,
}

/// The ends of samples that lie together. None of no samples.
fn ends_of(samples: &[Sample]) -> Option<Ends>
    ensures { MatchOption result (length samples.now < 1) (λ e. (e ≡ ends_of samples.now) × (1 ≤ length samples.now)) }
{
    let count = samples.len();
    if count == 0 {
        return None;
    }
    Some(Ends {
        first: samples[0],
        last: samples[count - 1],
        count: count as u64,
    })
}

/// The ends of a window that is walked to its end. None of one without a sample.
fn ends_walked(mut window: Window<'_>) -> Option<Ends>
    requires { IsFew window }
    ensures { MatchOption result (length window.entry < 1) (λ e. (e ≡ ends_of window.entry) × (1 ≤ length window.entry)) }
{
    let first = window.next()?;
    let mut last = first;
    let mut count = 1;
    for sample in window {
        last = sample;
        count += 1;
    }
    Some(Ends { first, last, count })
}

/// The ends of a window. None of one without a sample.
pub(crate) fn ends_in(window: Window<'_>) -> Option<Ends>
    requires { IsFew window }
    ensures { MatchOption result (length window.entry < 1) (λ e. (e ≡ ends_of window.entry) × (1 ≤ length window.entry)) }
{
    match window.lent() {
        Some(samples) => ends_of(samples),
        None => ends_walked(window),
    }
}

/// What a counter lost from one sample to the next: all, where it began anew.
fn lost_at(before: Value, after: Value) -> i64
    ensures value { result ≡ cond (int_lt after before) before (pos 0) }
    ensures within { IsValue result }
{
    if after.micros() < before.micros() {
        before.micros()
    } else {
        0
    }
}

/// What is kept of the samples of a counter. None of a window without a sample.
pub(crate) fn counter_in(mut window: Window<'_>) -> Option<Counter>
    requires { IsFew window }
    ensures { MatchOption result (length window.entry < 1) (λ c. (c ≡ counter_of window.entry) × (1 ≤ length window.entry) × FitsSigned w128 c.growth) }
{
    let first = window.next()?;
    let mut last = first;
    let mut count = 1;
    let mut lost = 0;
    for sample in window {
        lost += lost_at(last.value, sample.value) as i128;
        last = sample;
        count += 1;
    }
    let change = last.value.micros() as i128 - first.value.micros() as i128;
    Some(Counter {
        first,
        last,
        count,
        growth: change + lost,
    })
}
