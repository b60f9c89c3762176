//! The times that a query reads.

ghost use Rattle.std.specs.Prelude.{◌≡◌, ◌+◌, ◌*◌, ◌<◌, ◌≤◌, ◌≤ℤ◌, ◌<ℤ◌, ℤ, pos, ◌-ℤ◌, ◌*ℤ◌, true, unsigned_abs, map, max, None, IfSome};
ghost use Rattle.pf_base.specs.Limits.{greatest_time};
ghost use Rattle.pf_model.specs.Evaluation.{fixed_time, multiples, read_time};
ghost use Rattle.pf_model.specs.Micros.{cut_down};
ghost use Rattle.pf_model.specs.Reach.{all_times_read, all_together, lowest, reach, times_read};
ghost use Rattle.pf_model.specs.Trees.{height, heights, tree_of, trees_of};
ghost use Rattle.pf_resolve.specs.Bounds.{HasRoom, are_small, are_small_mods, is_small, is_small_at};
ghost use Rattle.pf_resolve.specs.Ends.{IsJoined, are_touching, behind, end_in_window, end_of, end_over, end_over_all, farther, farther_of, window_end};
ghost use Rattle.pf_resolve.specs.Steady.{is_steady};

use crate::steady::is_steady;
use pf_model::{At, Expr, Mods};

/// How far back an instant selector reads, in milliseconds.
const LOOKBACK: u64 = 300_000;

/// One minute, in milliseconds.
const MINUTE: u64 = 60_000;

/// Which end of the times that are read.
#[derive(Clone, Copy)]
enum End {
    Earliest,
    Latest,
}

/// From the one time on, without it, to the other.
#[derive(Clone, Copy)]
struct Window {
    from: i64,
    to: i64,
}

fn farther(end: End, left: i64, right: i64) -> i64
    ensures { result ≡ farther end left right }
{
    match end {
        End::Earliest => left.min(right),
        End::Latest => left.max(right),
    }
}

/// The one that lies farther out, where there is one.
fn farther_of(end: End, left: Option<i64>, right: Option<i64>) -> Option<i64>
    ensures { result ≡ farther_of end left right }
{
    let Some(a) = left else {
        return right;
    };
    let Some(b) = right else {
        return left;
    };
    Some(farther(end, a, b))
}

fn fixed_time(at: Option<At>, t: i64) -> i64
    requires { is_small_at at ≡ true }
    ensures { result ≡ fixed_time at t }
{
    match at {
        Some(At::Time { millis }) => millis as i64,
        Some(At::Start) => t,
        Some(At::End) => t,
        None => t,
    }
}

/// The time that is read at: that of `@`, or else the evaluation's, less the offset.
fn read_time(mods: Mods, t: i64) -> i64
    requires small { are_small_mods mods ≡ true }
    requires room { unsigned_abs t ≤ 2251799813685248 }
    ensures value { result ≡ read_time mods t }
    ensures size { unsigned_abs result ≤ unsigned_abs t + 8796093022206 }
{
    fixed_time(mods.at, t) - mods.offset
}

/// A time in whole steps, cut down; where the step is 0, the time before 0 is -1 and every other 0.
fn cut_down(time: i64, step: u64) -> i64
    requires room { unsigned_abs time ≤ 2251799813685248 }
    requires step { step ≤ greatest_time }
    ensures { result ≡ cut_down time step }
{
    if step == 0 {
        return if time < 0 { -1 } else { 0 };
    }
    time.div_euclid(step as i64)
}

/// An end of the times that a selector reads whose window ends at a time.
fn window_end(end: End, range: u64, to: i64) -> i64
    requires small { range ≤ greatest_time }
    requires room { unsigned_abs to ≤ 2251799813685248 }
    ensures { result ≡ window_end end range to }
{
    match end {
        End::Earliest => to - range as i64 + 1,
        End::Latest => to,
    }
}

/// The number of multiples of a step in (from, to].
fn count_of(step: u64, from: i64, to: i64) -> u64
    requires step { step ≤ greatest_time }
    requires order { from ≤ℤ to }
    requires first { unsigned_abs from ≤ 2251799813685248 }
    requires last { unsigned_abs to ≤ 2251799813685248 }
    ensures value { result ≡ unsigned_abs (cut_down to step -ℤ cut_down from step) }
    ensures all { cut_down to step -ℤ pos result ≡ cut_down from step }
{
    let last = cut_down(to, step);
    last.abs_diff(cut_down(from, step))
}

fn step_back(last: i64, steps: u64) -> i64
    requires last { unsigned_abs last ≤ 2251799813685248 }
    requires steps { steps ≤ 4503599627370496 }
    ensures { result ≡ last -ℤ pos steps }
{
    last - steps as i64
}

fn product(count: i64, step: u64) -> i64
    requires step { step ≤ greatest_time }
    requires within { unsigned_abs (count *ℤ pos step) ≤ 2251799813685248 }
    ensures { result ≡ count *ℤ pos step }
{
    count * step as i64
}

/// The multiple of a step in (from, to] with so many behind it.
fn multiple(step: u64, from: i64, to: i64, behind: u64) -> i64
    requires step { step ≤ greatest_time }
    requires order { from ≤ℤ to }
    requires first { unsigned_abs from ≤ 2251799813685248 }
    requires last { unsigned_abs to ≤ 2251799813685248 }
    requires there { behind < unsigned_abs (cut_down to step -ℤ cut_down from step) }
    ensures value { result ≡ (cut_down to step -ℤ pos behind) *ℤ pos step }
    ensures within { (from ≤ℤ result) × (result ≤ℤ to) }
{
    let last = cut_down(to, step);
    product(step_back(last, behind), step)
}

fn window_start(range: u64, to: i64) -> i64
    requires range { range ≤ greatest_time }
    requires room { unsigned_abs to ≤ 2251799813685248 }
    ensures value { result ≡ to -ℤ pos range }
    ensures order { result ≤ℤ to }
    ensures size { unsigned_abs result ≤ unsigned_abs to + greatest_time }
{
    to - range as i64
}

/// How many of some times stand behind the first or the last of them.
fn behind(end: End, count: u64) -> u64
    requires some { 0 < count }
    ensures value { result ≡ behind end count }
    ensures within { result < count }
{
    match end {
        End::Earliest => count - 1,
        End::Latest => 0,
    }
}

/// Whether the windows before the multiples of a step touch. They are the same one where `@` fixes the time.
fn are_touching(mods: Mods, range: u64, step: u64) -> bool
    ensures { result ≡ are_touching mods range step }
{
    match mods.at {
        Some(At::Time { .. }) => true,
        Some(At::Start) => step <= range,
        Some(At::End) => step <= range,
        None => step <= range,
    }
}

/// The window in place of those before the multiples of a step in (from, to], none where there is no multiple.
fn joined_window(mods: Mods, range: u64, step: u64, from: i64, to: i64) -> Option<Window>
    requires mods { are_small_mods mods ≡ true }
    requires range { range ≤ greatest_time }
    requires step { step ≤ greatest_time }
    requires order { from ≤ℤ to }
    requires first { unsigned_abs from + 17592186044416 ≤ 2251799813685248 }
    requires last { unsigned_abs to + 17592186044416 ≤ 2251799813685248 }
    ensures none { result ≡ None → unsigned_abs (cut_down to step -ℤ cut_down from step) ≡ 0 }
    ensures order { IfSome result (λ w. w.from ≤ℤ w.to) }
    ensures first { IfSome result (λ w. unsigned_abs w.from ≤ max (unsigned_abs from) (unsigned_abs to) + 17592186044416) }
    ensures last { IfSome result (λ w. unsigned_abs w.to ≤ max (unsigned_abs from) (unsigned_abs to) + 17592186044416) }
    ensures window { IfSome result (IsJoined mods range step from to) }
{
    let count = count_of(step, from, to);
    if count == 0 {
        return None;
    }
    let early = multiple(step, from, to, count - 1);
    let late = multiple(step, from, to, 0);
    let first = read_time(mods, early);
    let last = read_time(mods, late);
    let start = window_start(range, first);
    Some(Window {
        from: start,
        to: last,
    })
}

/// An end of what a steady query reads at the multiples of a step in (from, to]. It is asked at the first or at the last one.
#[cycle(times)]
fn end_at_edge(expr: &Expr, end: End, step: u64, from: i64, to: i64) -> Option<i64>
    requires steady { is_steady (tree_of expr.now) ≡ true }
    requires small { is_small (tree_of expr.now) ≡ true }
    requires step { step ≤ greatest_time }
    requires order { from ≤ℤ to }
    requires first { HasRoom (tree_of expr.now) from }
    requires last { HasRoom (tree_of expr.now) to }
    ensures { result ≡ end_over end (tree_of expr.now) step from to }
{
    let count = count_of(step, from, to);
    if count == 0 {
        return None;
    }
    read_end(expr, end, multiple(step, from, to, behind(end, count)))
}

/// The same of any query, which is asked at each multiple.
#[cycle(times)]
fn end_at_multiples(expr: &Expr, end: End, step: u64, from: i64, to: i64) -> Option<i64>
    requires small { is_small (tree_of expr.now) ≡ true }
    requires step { step ≤ greatest_time }
    requires order { from ≤ℤ to }
    requires first { HasRoom (tree_of expr.now) from }
    requires last { HasRoom (tree_of expr.now) to }
    ensures { result ≡ end_over end (tree_of expr.now) step from to }
{
    let mut found = None;
    for k in 0..count_of(step, from, to) {
        let read = read_end(expr, end, multiple(step, from, to, k));
        found = farther_of(end, read, found);
    }
    found
}

#[cycle(times)]
fn end_over_all(args: &[Expr], end: End, step: u64, from: i64, to: i64) -> Option<i64>
    requires small { are_small (trees_of (map tree_of args.now)) ≡ true }
    requires step { step ≤ greatest_time }
    requires order { from ≤ℤ to }
    requires first { unsigned_abs from + 17592186044416 * heights (trees_of (map tree_of args.now)) ≤ 2251799813685248 }
    requires last { unsigned_abs to + 17592186044416 * heights (trees_of (map tree_of args.now)) ≤ 2251799813685248 }
    ensures { result ≡ end_over_all end (trees_of (map tree_of args.now)) step from to }
{
    let mut found = None;
    for arg in args {
        found = farther_of(end, found, end_over(arg, end, step, from, to));
    }
    found
}

/// The same in a window, none where there is none.
#[cycle(times)]
fn end_in_window(expr: &Expr, end: End, step: u64, window: Option<Window>) -> Option<i64>
    requires small { is_small (tree_of expr.now) ≡ true }
    requires step { step ≤ greatest_time }
    requires order { IfSome window (λ w. w.from ≤ℤ w.to) }
    requires first { IfSome window (λ w. HasRoom (tree_of expr.now) w.from) }
    requires last { IfSome window (λ w. HasRoom (tree_of expr.now) w.to) }
    ensures { result ≡ end_in_window end (tree_of expr.now) step window }
{
    let Window { from, to } = window?;
    end_over(expr, end, step, from, to)
}

/// An end of what a query reads at the multiples of a step in (from, to], none where it reads nothing. A subquery is asked at each
/// of them only where it isn't steady and its windows are apart.
#[cycle(times)]
fn end_over(expr: &Expr, end: End, step: u64, from: i64, to: i64) -> Option<i64>
    requires small { is_small (tree_of expr.now) ≡ true }
    requires step { step ≤ greatest_time }
    requires order { from ≤ℤ to }
    requires first { HasRoom (tree_of expr.now) from }
    requires last { HasRoom (tree_of expr.now) to }
    ensures { result ≡ end_over end (tree_of expr.now) step from to }
{
    match expr {
        Expr::Number { .. } => None,
        Expr::Text { .. } => None,
        Expr::Unary { arg, .. } => end_over(arg, end, step, from, to),
        Expr::Binary { left, right, .. } => farther_of(
            end,
            end_over(left, end, step, from, to),
            end_over(right, end, step, from, to),
        ),
        Expr::Call { args, .. } => end_over_all(args, end, step, from, to),
        Expr::Aggregate { args, .. } => end_over_all(args, end, step, from, to),
        Expr::Select { .. } => end_at_edge(expr, end, step, from, to),
        Expr::Subquery {
            arg,
            range,
            resolution,
            mods,
        } => {
            let inner = resolution.unwrap_or(MINUTE);
            if is_steady(expr) {
                end_at_edge(expr, end, step, from, to)
            } else if are_touching(*mods, *range, step) {
                end_in_window(
                    arg,
                    end,
                    inner,
                    joined_window(*mods, *range, step, from, to),
                )
            } else {
                end_at_multiples(expr, end, step, from, to)
            }
        }
    }
}

#[cycle(times)]
fn end_of_all(args: &[Expr], end: End, t: i64) -> Option<i64>
    requires small { are_small (trees_of (map tree_of args.now)) ≡ true }
    requires room { unsigned_abs t + 17592186044416 * heights (trees_of (map tree_of args.now)) ≤ 2251799813685248 }
    ensures { result ≡ end_of end (all_times_read (trees_of (map tree_of args.now)) t) }
{
    let mut found = None;
    for arg in args {
        found = farther_of(end, found, read_end(arg, end, t));
    }
    found
}

/// An end of the times that a query may read at a time, none where it reads nothing.
#[cycle(times)]
fn read_end(expr: &Expr, end: End, t: i64) -> Option<i64>
    requires small { is_small (tree_of expr.now) ≡ true }
    requires room { HasRoom (tree_of expr.now) t }
    ensures { result ≡ end_of end (times_read (tree_of expr.now) t) }
{
    match expr {
        Expr::Number { .. } => None,
        Expr::Text { .. } => None,
        Expr::Unary { arg, .. } => read_end(arg, end, t),
        Expr::Binary { left, right, .. } => farther_of(
            end,
            read_end(left, end, t),
            read_end(right, end, t),
        ),
        Expr::Call { args, .. } => end_of_all(args, end, t),
        Expr::Aggregate { args, .. } => end_of_all(args, end, t),
        Expr::Select { range, mods, .. } => {
            let to = read_time(*mods, t);
            Some(window_end(end, range.unwrap_or(LOOKBACK), to))
        }
        Expr::Subquery {
            arg,
            range,
            resolution,
            mods,
        } => {
            let to = read_time(*mods, t);
            let from = window_start(*range, to);
            let step = resolution.unwrap_or(MINUTE);
            end_over(arg, end, step, from, to)
        }
    }
}

/// The latest time in milliseconds that a query may read at a time, none where it reads nothing. It takes no memory, and calls
/// itself as deep as the tree is high. A subquery inside another is asked at each time of the one around it only where it isn't
/// steady and its windows are apart.
pub fn reach(expr: &Expr, t: i64) -> Option<i64>
    requires tall { height (tree_of expr.now) ≤ 64 }
    requires small { is_small (tree_of expr.now) ≡ true }
    requires time { (pos 0 ≤ℤ t) × (t ≤ℤ pos greatest_time) }
    ensures { result ≡ reach (tree_of expr.now) t }
{
    read_end(expr, End::Latest, t)
}

/// The earliest time in milliseconds that a query may read at a time, none where it reads nothing. It takes no memory, and calls
/// itself as deep as the tree is high. A subquery inside another is asked at each time of the one around it only where it isn't
/// steady and its windows are apart.
pub fn lowest(expr: &Expr, t: i64) -> Option<i64>
    requires tall { height (tree_of expr.now) ≤ 64 }
    requires small { is_small (tree_of expr.now) ≡ true }
    requires time { (pos 0 ≤ℤ t) × (t ≤ℤ pos greatest_time) }
    ensures { result ≡ lowest (tree_of expr.now) t }
{
    read_end(expr, End::Earliest, t)
}
