//! The times at which the inner expression of a subquery is evaluated.

ghost use Rattle.std.specs.Prelude.{◌≡◌, ◌<◌, ◌≤◌, ◌++◌, ◌-◌, ◌≤ℤ◌, ◌-ℤ◌, ◌+ℤ◌, ◌*ℤ◌, ℕ, ℤ, pos, true, false, unsigned_abs, filter, IfOk, IfSome, OnOk};
ghost use Rattle.pf_model.specs.Evaluation.{multiples};
ghost use Rattle.pf_model.specs.Merging.{below};
ghost use Rattle.pf_model.specs.Micros.{cut_down};
ghost use Rattle.pf_range.specs.Windows.{IsTime};
ghost use Rattle.pf_selectors.specs.Subqueries.{AreBetween, AreMultiplesOver, AreOrdered, AreTouching, IsListOver, is_read};
ghost use Rattle.pf_selectors.specs.Times.{AreStarts, AreTimes, time_at};

use crate::times::Times;
use pf_base::OutOfMemory;

/// Twice the size of the greatest time, in milliseconds. Longer steps have the same multiples among the times: 0 alone.
const LONGEST: u64 = 2_251_799_813_685_248;

/// A time in whole steps, cut down.
fn cut_down(time: i64, step: u64) -> i64
    requires time { IsTime time }
    requires some { 0 < step }
    requires step { step ≤ 2251799813685248 }
    ensures { result ≡ cut_down time step }
{
    time.div_euclid(step as i64)
}

/// The number of multiples of a step in (from, to].
fn count_of(from: i64, to: i64, step: u64) -> u64
    requires from { IsTime from }
    requires to { IsTime to }
    requires order { from ≤ℤ to }
    requires some { 0 < step }
    requires step { step ≤ 2251799813685248 }
    ensures value { result ≡ unsigned_abs (cut_down to step -ℤ cut_down from step) }
    ensures all { cut_down from step +ℤ pos result ≡ cut_down to step }
{
    cut_down(to, step).abs_diff(cut_down(from, step))
}

fn product(count: i64, step: u64) -> i64
    requires step { step ≤ 2251799813685248 }
    requires within { IsTime (count *ℤ pos step) }
    ensures { result ≡ count *ℤ pos step }
{
    count * step as i64
}

/// The first multiple of a step after a time, where one isn't after `to`.
fn first_after(from: i64, to: i64, step: u64) -> i64
    requires from { IsTime from }
    requires to { IsTime to }
    requires some { 0 < step }
    requires step { step ≤ 2251799813685248 }
    requires there { (cut_down from step +ℤ pos 1) ≤ℤ cut_down to step }
    ensures value { result ≡ (cut_down from step +ℤ pos 1) *ℤ pos step }
    ensures within { (from ≤ℤ result) × (result ≤ℤ to) }
{
    let next = cut_down(from, step) + 1;
    product(next, step)
}

/// The multiples of a step in (from, to]. None where they are more than 2^32 - 1.
fn between<'a>(from: i64, to: i64, step: u64) -> Option<Times<'a>>
    requires from { IsTime from }
    requires to { IsTime to }
    requires order { from ≤ℤ to }
    requires some { 0 < step }
    requires step { step ≤ 2251799813685248 }
    ensures between { IfSome result (AreBetween from to step) }
    ensures times { IfSome result AreTimes }
{
    let count = count_of(from, to, step);
    if count > u32::MAX as u64 {
        return None;
    }
    if count == 0 {
        return Some(Times {
            start: to,
            step: 0,
            len: 0,
            list: &[],
        });
    }
    Some(Times {
        start: first_after(from, to, step),
        step: step as i64,
        len: count as u32,
        list: &[],
    })
}

/// Whether no time is below the one before it.
fn are_ordered(times: &Times) -> bool
    requires times { AreTimes times.now }
    ensures ordered { result ≡ true → AreOrdered times.now }
    ensures not { result ≡ false → AreOrdered times.now → ⊥ }
{
    for i in 1..times.len {
        if times.at(i) < times.at(i - 1) {
            return false;
        }
    }
    true
}

/// Whether no window of so many milliseconds before a time begins behind the time before it.
fn are_touching(range: u64, times: &Times) -> bool
    requires times { AreTimes times.now }
    requires starts { AreStarts range times.now }
    ensures { result ≡ true → AreTouching range times.now }
{
    for i in 1..times.len {
        if times.start_of(i, range) > times.at(i - 1) {
            return false;
        }
    }
    true
}

/// Whether times are in order and some of these windows are apart.
fn are_apart(range: u64, times: &Times) -> bool
    requires times { AreTimes times.now }
    requires starts { AreStarts range times.now }
    ensures apart { result ≡ true → AreOrdered times.now }
    ensures touching { result ≡ false → AreOrdered times.now → AreTouching range times.now }
{
    are_ordered(times) && !are_touching(range, times)
}

/// Appends the multiples of a step in (from, to].
fn push_between(list: &mut Vec<i64>, from: i64, to: i64, step: u64) -> Result<(), OutOfMemory>
    requires from { IsTime from }
    requires to { IsTime to }
    requires order { from ≤ℤ to }
    requires some { 0 < step }
    requires step { step ≤ 2251799813685248 }
    ensures { OnOk result (list.new.items ≡ list.old.items ++ multiples step from to) }
{
    let Some(run) = between(from, to, step) else {
        return Err(OutOfMemory);
    };
    for i in 0..run.len {
        list.push(run.at(i))?;
    }
    Ok(())
}

/// The multiples of a step in the windows of so many milliseconds before times in order, in place of what `list` holds. Each
/// window is read from the end of the one before it on.
fn read_multiples(
    range: u64,
    step: u64,
    times: &Times,
    list: &mut Vec<i64>,
) -> Result<(), OutOfMemory>
    requires some { 0 < step }
    requires step { step ≤ 2251799813685248 }
    requires times { AreTimes times.now }
    requires starts { AreStarts range times.now }
    requires there { 0 < times.now.len }
    requires order { AreOrdered times.now }
    ensures { OnOk result (list.new.items ≡ filter (is_read range times.now times.now.len) (multiples step (time_at times.now 0 -ℤ pos range) (time_at times.now (times.now.len - 1)))) }
{
    list.clear();
    let mut end = times.start_of(0, range);
    for i in 0..times.len {
        let to = times.at(i);
        push_between(list, times.start_of(i, range).max(end), to, step)?;
        end = to;
    }
    Ok(())
}

/// The same as times, unless they are more than 2^32 - 1.
fn list_over<'a>(
    range: u64,
    step: u64,
    times: &Times,
    list: &'a mut Vec<i64>,
) -> Result<Times<'a>, OutOfMemory>
    requires some { 0 < step }
    requires step { step ≤ 2251799813685248 }
    requires times { AreTimes times.now }
    requires starts { AreStarts range times.now }
    requires there { 0 < times.now.len }
    requires order { AreOrdered times.now }
    ensures { IfOk result (λ at. IsListOver range step at times.now) }
{
    read_multiples(range, step, times, list)?;
    if list.len() > u32::MAX as usize {
        return Err(OutOfMemory);
    }
    Ok(Times {
        start: 0,
        step: 0,
        len: list.len() as u32,
        list,
    })
}

/// The multiples of a resolution from the first of these windows to the last. None where they are more than 2^32 - 1.
fn run_over<'a>(range: u64, resolution: u64, times: &Times) -> Option<Times<'a>>
    requires some { 0 < resolution }
    requires times { AreTimes times.now }
    requires starts { AreStarts range times.now }
    requires there { 0 < times.now.len }
    requires touching { AreOrdered times.now → AreTouching range times.now }
    ensures { IfSome result (λ at. AreMultiplesOver range resolution at times.now) }
{
    let span = times.span();
    between(
        span.first - range as i64,
        span.last,
        resolution.min(LONGEST),
    )
}

/// The multiples of a resolution in the windows of `range` milliseconds before the times of a run, each open at its left end.
/// They are a run of their own where the windows touch or the times aren't in order, when those between the windows are among
/// them too; else `list` is overwritten with them. More than 2^32 - 1 are want of memory. That a subquery is evaluated at
/// multiples is this project's own.
pub fn multiples_over<'a>(
    range: u64,
    resolution: u64,
    times: &Times,
    list: &'a mut Vec<i64>,
) -> Result<Times<'a>, OutOfMemory>
    requires some { 0 < resolution }
    requires times { AreTimes times.now }
    requires starts { AreStarts range times.now }
    ensures { IfOk result (λ at. AreMultiplesOver range resolution at times.now) }
{
    if times.len == 0 {
        return Ok(Times {
            start: times.start,
            step: 0,
            len: 0,
            list: &[],
        });
    }
    if are_apart(range, times) {
        let at = list_over(range, resolution.min(LONGEST), times, list)?;
        return Ok(at);
    }
    match run_over(range, resolution, times) {
        Some(at) => Ok(at),
        None => Err(OutOfMemory),
    }
}
