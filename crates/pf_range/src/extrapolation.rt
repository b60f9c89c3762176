//! `increase`, `rate` and `delta`: what the samples changed by, stretched to the window's ends.

ghost use Rattle.std.specs.Prelude.{◌≡◌, ◌<◌, ◌≤◌, ℤ, pos, ◌-ℤ◌, ◌*ℤ◌, ◌<ℤ◌, ◌≤ℤ◌, int_div, length, MatchOption};
ghost use Rattle.std.specs.Int.{int_min};
ghost use Rattle.pf_base.specs.Arithmetic.{clamp};
ghost use Rattle.pf_base.specs.Limits.{greatest_value};
ghost use Rattle.pf_model.specs.RangeFunctions.{change, counter_covered, covered, gap, growth, of_two, span};
ghost use Rattle.pf_range.specs.Extrapolation.{change_of, Extends, growth_of, IsLength, IsStretched, limited, stretch_of};
ghost use Rattle.pf_range.specs.Windows.{IsFew, IsWindow};

use super::ends::{Counter, Ends, counter_in, ends_in};
use super::quotient::quotient;
use pf_base::Value;
use pf_block::Window;

/// The time from the first sample to the last, and the gaps at both ends.
#[derive(Clone, Copy)]
struct Stretch {
    span: i64,
    start: i64,
    end: i64,
}

/// What the samples changed by in micros, the time from the first to the last, and the time that is covered with both gaps.
#[derive(Clone, Copy)]
struct Change {
    value: i64,
    span: i64,
    covered: i64,
}

/// A gap at an end is kept where it is below 1.1 times the average, else it is half the average.
fn gap(average: i64, distance: i64) -> i64
    requires average { IsLength average }
    requires distance { IsLength distance }
    ensures value { result ≡ gap average distance }
    ensures within { IsLength result }
{
    if 10 * distance < 11 * average {
        distance
    } else {
        average / 2
    }
}

/// The stretch of `count` samples from the time `first` to the time `last`.
fn stretch_over(first: i64, last: i64, count: u64, from: i64, to: i64) -> Stretch
    requires { Extends from to first last count }
    ensures value { result ≡ stretch_of first last count from to }
    ensures span { (pos 0 <ℤ result.span) × (result.span ≤ℤ pos 2251799813685248) }
    ensures start { IsLength result.start }
    ensures end { IsLength result.end }
{
    let span = last - first;
    let average = span / (count - 1) as i64;
    Stretch {
        span,
        start: gap(average, first - from),
        end: gap(average, to - last),
    }
}

/// The gap, or the quotient where it is less. That is divided out only there.
fn at_most(gap: i64, span: i64, first: i64, growth: i64) -> i64
    requires gap { IsLength gap }
    requires span { IsLength span }
    requires first { (pos 0 ≤ℤ first) × (first ≤ℤ greatest_value) }
    requires growth { (pos 0 <ℤ growth) × (growth ≤ℤ greatest_value) }
    ensures value { result ≡ int_min gap (int_div (span *ℤ first) growth) }
    ensures within { IsLength result }
{
    let product = span as i128 * first as i128;
    if gap as i128 * growth as i128 <= product {
        return gap;
    }
    quotient(product, growth as i128) as i64
}

/// A counter that grows reaches back no further than to where it would be zero.
fn limited(first: Value, growth: Value, span: i64, gap: i64) -> i64
    requires span { IsLength span }
    requires gap { IsLength gap }
    ensures value { result ≡ limited first growth span gap }
    ensures within { IsLength result }
{
    if growth.micros() > 0 && first.micros() >= 0 {
        at_most(gap, span, first.micros(), growth.micros())
    } else {
        gap
    }
}

/// What a counter changed by. None of fewer than two samples.
fn counter_change(window: Window<'_>, from: i64, to: i64) -> Option<Change>
    requires window { IsWindow from to window }
    requires few { IsFew window }
    ensures { MatchOption result (length window.entry < 2) (λ c. (c ≡ growth_of window.entry from to) × IsStretched c × (2 ≤ length window.entry)) }
{
    let Counter {
        first,
        last,
        count,
        growth,
    } = counter_in(window)?;
    if count < 2 {
        return None;
    }
    let stretch = stretch_over(first.time, last.time, count, from, to);
    let growth = Value::new(growth);
    let start = limited(first.value, growth, stretch.span, stretch.start);
    Some(Change {
        value: growth.micros(),
        span: stretch.span,
        covered: stretch.span + start + stretch.end,
    })
}

/// What a gauge changed by. None of fewer than two samples.
fn gauge_change(window: Window<'_>, from: i64, to: i64) -> Option<Change>
    requires window { IsWindow from to window }
    requires few { IsFew window }
    ensures { MatchOption result (length window.entry < 2) (λ c. (c ≡ change_of window.entry from to) × IsStretched c × (2 ≤ length window.entry)) }
{
    let Ends { first, last, count } = ends_in(window)?;
    if count < 2 {
        return None;
    }
    let stretch = stretch_over(first.time, last.time, count, from, to);
    Some(Change {
        value: last.value.sub(first.value).micros(),
        span: stretch.span,
        covered: stretch.span + stretch.start + stretch.end,
    })
}

/// A change as it would be over the time that is covered.
fn stretched(change: Change) -> Value
    requires { IsStretched change }
    ensures { result ≡ clamp (int_div (change.value *ℤ change.covered) change.span) }
{
    let product = change.value as i128 * change.covered as i128;
    Value::new(quotient(product, change.span as i128))
}

/// The same for each second of a window's range in milliseconds.
fn per_second(change: Change, range: i64) -> Value
    requires change { IsStretched change }
    requires range { (pos 0 <ℤ range) × (range ≤ℤ pos 2251799813685248) }
    ensures { result ≡ clamp (int_div (change.value *ℤ change.covered *ℤ pos 1000) (change.span *ℤ range)) }
{
    let product = change.value as i128 * change.covered as i128 * 1000;
    Value::new(quotient(product, change.span as i128 * range as i128))
}

pub(crate) fn increase(window: Window<'_>, from: i64, to: i64) -> Option<Value>
    requires window { IsWindow from to window }
    requires few { IsFew window }
    ensures { result ≡ of_two window.entry (clamp (int_div (growth window.entry *ℤ counter_covered window.entry from to) (span window.entry))) }
{
    let change = counter_change(window, from, to)?;
    Some(stretched(change))
}

pub(crate) fn rate(window: Window<'_>, from: i64, to: i64) -> Option<Value>
    requires window { IsWindow from to window }
    requires few { IsFew window }
    ensures { result ≡ of_two window.entry (clamp (int_div (growth window.entry *ℤ counter_covered window.entry from to *ℤ pos 1000) (span window.entry *ℤ (to -ℤ from)))) }
{
    let change = counter_change(window, from, to)?;
    Some(per_second(change, to - from))
}

pub(crate) fn delta(window: Window<'_>, from: i64, to: i64) -> Option<Value>
    requires window { IsWindow from to window }
    requires few { IsFew window }
    ensures { result ≡ of_two window.entry (clamp (int_div (change window.entry *ℤ covered window.entry from to) (span window.entry))) }
{
    let change = gauge_change(window, from, to)?;
    Some(stretched(change))
}
