//! The functions over time of the values alone, and of whether there are any.

ghost use Rattle.std.specs.Prelude.{◌≡◌, ◌<◌, ◌≤◌, length, MatchOption};
ghost use Rattle.std.specs.Int.{int_max, int_min};
ghost use Rattle.pf_base.specs.Arithmetic.{clamp};
ghost use Rattle.pf_model.specs.Micros.{greatest, least, mean, one, total, units};
ghost use Rattle.pf_model.specs.RangeFunctions.{last, of_one, values};
ghost use Rattle.pf_range.specs.Values.{absent, extremes_of, sum_of};
ghost use Rattle.pf_range.specs.Windows.{IsFew};

use super::ends::ends_in;
use super::quotient::quotient;
use pf_base::Value;
use pf_block::Window;

/// The exact sum in micros, and the number of values.
#[derive(Clone, Copy)]
struct Sum {
    total: i128,
    count: u64,
}

#[derive(Clone, Copy)]
struct Extremes {
    least: Value,
    greatest: Value,
}

fn less(a: Value, b: Value) -> Value
    ensures { result ≡ int_min a b }
{
    if b.micros() < a.micros() { b } else { a }
}

fn greater(a: Value, b: Value) -> Value
    ensures { result ≡ int_max a b }
{
    if a.micros() < b.micros() { b } else { a }
}

fn sum_in(window: Window<'_>) -> Sum
    requires { IsFew window }
    ensures { result ≡ sum_of window.entry }
{
    let mut total = 0;
    let mut count = 0;
    for sample in window {
        total += sample.value.micros() as i128;
        count += 1;
    }
    Sum { total, count }
}

/// The least and the greatest value. None of a window without a sample.
fn extremes_in(mut window: Window<'_>) -> Option<Extremes>
    ensures { MatchOption result (length window.entry < 1) (λ e. (e ≡ extremes_of window.entry) × (1 ≤ length window.entry)) }
{
    let first = window.next()?.value;
    let mut least = first;
    let mut greatest = first;
    for sample in window {
        least = less(least, sample.value);
        greatest = greater(greatest, sample.value);
    }
    Some(Extremes { least, greatest })
}

/// So many units.
pub(crate) fn units(count: u64) -> Value
    ensures { result ≡ units count }
{
    Value::new(count as i128 * 1_000_000)
}

#[tactic(auto, unfolding(pf_base::specs::Arithmetic::clamp))]
fn one() -> Value
    ensures { result ≡ one }
{
    Value::new(1_000_000)
}

pub(crate) fn mean(window: Window<'_>) -> Option<Value>
    requires { IsFew window }
    ensures { result ≡ of_one window.entry (mean (values window.entry)) }
{
    let sum = sum_in(window);
    if sum.count == 0 {
        return None;
    }
    Some(Value::new(quotient(sum.total, sum.count as i128)))
}

pub(crate) fn total(window: Window<'_>) -> Option<Value>
    requires { IsFew window }
    ensures { result ≡ of_one window.entry (clamp (total (values window.entry))) }
{
    let sum = sum_in(window);
    if sum.count == 0 {
        return None;
    }
    Some(Value::new(sum.total))
}

pub(crate) fn least(window: Window<'_>) -> Option<Value>
    ensures { result ≡ of_one window.entry (least (values window.entry)) }
{
    Some(extremes_in(window)?.least)
}

pub(crate) fn greatest(window: Window<'_>) -> Option<Value>
    ensures { result ≡ of_one window.entry (greatest (values window.entry)) }
{
    Some(extremes_in(window)?.greatest)
}

pub(crate) fn count(window: Window<'_>) -> Option<Value>
    requires { IsFew window }
    ensures { result ≡ of_one window.entry (units (length window.entry)) }
{
    Some(units(ends_in(window)?.count))
}

pub(crate) fn last(window: Window<'_>) -> Option<Value>
    requires { IsFew window }
    ensures { result ≡ of_one window.entry (last window.entry).value }
{
    Some(ends_in(window)?.last.value)
}

pub(crate) fn present(mut window: Window<'_>) -> Option<Value>
    ensures { result ≡ of_one window.entry one }
{
    window.next()?;
    Some(one())
}

/// One unit of no sample, and nothing of any.
pub(crate) fn absent(mut window: Window<'_>) -> Option<Value>
    ensures { result ≡ absent window.entry }
{
    match window.next() {
        Some(_) => None,
        None => Some(one()),
    }
}
