//! Functions of range selectors over a whole run.

ghost use Rattle.std.specs.Prelude.{◌≡◌, ◌<◌, ◌≤◌, ◌-ℤ◌, ◌≤ℤ◌, ℕ, pos, int_le, Bool, true, cond, is_some, None, Some, List, IfOk, OnOk, length, map};
ghost use Rattle.std.specs.List.{All, list_all};
ghost use Rattle.pf_base.specs.declared.plain.Row.{Row};
ghost use Rattle.pf_base.specs.LabelSets.{Pairs};
ghost use Rattle.pf_block.specs.Samples.{is_within, rises, until, window_of};
ghost use Rattle.pf_block.specs.Snaps.{samples_of};
ghost use Rattle.pf_columns.specs.Columns.{cell_at, value_in};
ghost use Rattle.pf_columns.specs.Steps.{step_at};
ghost use Rattle.pf_model.specs.declared.expr.Matcher.{Matcher};
ghost use Rattle.pf_model.specs.Binding.{accepted_ids};
ghost use Rattle.pf_model.specs.Cells.{cell_of, element};
ghost use Rattle.pf_model.specs.Evaluation.{windows};
ghost use Rattle.pf_model.specs.Log.{AreApart};
ghost use Rattle.pf_model.specs.Micros.{one};
ghost use Rattle.pf_model.specs.Outcomes.{of_series, ranged_labels};
ghost use Rattle.pf_range.specs.Windows.{IsTime};
ghost use Rattle.pf_store.specs.Standing.{StandsFor};
ghost use Rattle.pf_selectors.specs.Passing.{ids_passing, rows_passing};
ghost use Rattle.pf_selectors.specs.SeriesColumns.{range_column, unless_present, unless_some, values_over, window_at};
ghost use Rattle.pf_selectors.specs.Times.{AreStarts, AreTimes, time_at};

use crate::cursor::{moved, newest, read};
use crate::times::{Span, Times};
use pf_base::{Labels, OutOfMemory, Sample, Value};
use pf_block::{Snap, Window};
use pf_columns::{Column, StepCells, normalised};
use pf_model::RangeFn;
use pf_range::range_value;
use std::alloc::Global;

pub(crate) fn labels_over(f: RangeFn, labels: &Labels) -> Result<Labels, OutOfMemory>
    ensures { IfOk result (λ l. l ≡ ranged_labels f labels.now) }
{
    match f {
        RangeFn::LastOverTime => Ok(labels.clone()?),
        _ => labels.without_name(),
    }
}

/// The samples after `from`, up to and with `to`, where so many samples aren't after each of these.
fn window(samples: &[Sample], start: usize, end: usize, from: i64, to: i64) -> Window<'_>
    requires rises { rises samples.now ≡ true }
    requires start { start ≡ until from samples.now }
    requires end { end ≡ until to samples.now }
    requires order { start ≤ end }
    requires within { end ≤ length samples.now }
    requires rising { from ≤ℤ to }
    ensures window { result ≡ window_of samples.now from to }
    ensures within { list_all (is_within from to) result ≡ true }
{
    Window::of(&samples[start..end])
}

/// The values of a function over the windows of so many milliseconds before each step.
pub(crate) fn values_over(
    alloc: Global,
    f: RangeFn,
    range: u64,
    samples: &[Sample],
    times: &Times,
) -> Result<Vec<Option<Value>>, OutOfMemory>
    requires rises { rises samples.now ≡ true }
    requires times { AreTimes times.now }
    requires starts { AreStarts range times.now }
    ensures { IfOk result (λ v. v.items ≡ values_over f range samples.now times.now) }
{
    let mut found = Vec::with_capacity(alloc, times.len as usize)?;
    let mut start = 0;
    let mut end = 0;
    for i in 0..times.len {
        let to = times.at(i);
        let from = times.start_of(i, range);
        start = moved(samples, start, from);
        end = moved(samples, end, to);
        found.push(range_value(f, window(samples, start, end, from, to), from, to))?;
    }
    Ok(found)
}

/// The samples of a series in all windows of so many milliseconds. They are lent where one block has them all, else copied in
/// place of those that `room` holds.
fn read_windows<'a>(
    snap: &'a Snap,
    id: u32,
    range: u64,
    times: &Times,
    span: Span,
    room: &'a mut Vec<Sample>,
) -> Result<&'a [Sample], OutOfMemory>
    requires inside { id < length snap.now.labels }
    requires first { IsTime span.first }
    requires start { IsTime (span.first -ℤ pos range) }
    requires last { IsTime span.last }
    requires low { (k : ℕ) → k < times.now.len → int_le span.first (time_at times.now k) ≡ true }
    requires high { (k : ℕ) → k < times.now.len → int_le (time_at times.now k) span.last ≡ true }
    ensures rises { IfOk result (λ xs. rises xs.now ≡ true) }
    ensures windows { IfOk result (λ xs. (k : ℕ) → k < times.now.len → window_at range xs.now times.now k ≡ window_at range (samples_of snap.now id) times.now k) }
{
    let first = span.first - range as i64;
    read(snap, id, first, span.last, room)
}

/// The column of a series. `room` may be overwritten.
fn range_column(
    alloc: Global,
    f: RangeFn,
    range: u64,
    snap: &Snap,
    id: u32,
    times: &Times,
    span: Span,
    room: &mut Vec<Sample>,
) -> Result<Column, OutOfMemory>
    requires inside { id < length snap.now.labels }
    requires times { AreTimes times.now }
    requires starts { AreStarts range times.now }
    requires first { IsTime span.first }
    requires start { IsTime (span.first -ℤ pos range) }
    requires last { IsTime span.last }
    requires low { (k : ℕ) → k < times.now.len → int_le span.first (time_at times.now k) ≡ true }
    requires high { (k : ℕ) → k < times.now.len → int_le (time_at times.now k) span.last ≡ true }
    ensures { IfOk result (λ c. c ≡ range_column f range snap.now times.now id) }
{
    let samples = read_windows(snap, id, range, times, span, room)?;
    Ok(Column {
        labels: labels_over(f, snap.labels(id))?,
        values: values_over(alloc, f, range, samples, times)?,
    })
}

fn range_columns(
    alloc: Global,
    f: RangeFn,
    range: u64,
    snap: &Snap,
    ids: &[u32],
    times: &Times,
) -> Result<Vec<Column>, OutOfMemory>
    requires inside { All (λ id. id < length snap.now.labels) ids.now }
    requires times { AreTimes times.now }
    requires starts { AreStarts range times.now }
    requires some { 0 < times.now.len }
    ensures { IfOk result (λ v. v.items ≡ map (range_column f range snap.now times.now) ids.now) }
{
    let span = times.span();
    let mut columns = Vec::with_capacity(alloc, ids.len())?;
    let mut room = Vec::new(alloc);
    for id in ids {
        columns.push(range_column(alloc, f, range, snap, *id, times, span, &mut room)?)?;
    }
    Ok(columns)
}

/// The value, unless a sample is found.
fn unless(found: Option<Sample>, value: Option<Value>) -> Option<Value>
    ensures { result ≡ cond (is_some found) None value }
{
    if found.is_some() { None } else { value }
}

/// Takes the value from the steps in whose windows there are samples.
pub(crate) fn note_present(
    values: &mut [Option<Value>],
    range: u64,
    samples: &[Sample],
    times: &Times,
)
    requires rises { rises samples.now ≡ true }
    requires times { AreTimes times.now }
    requires starts { AreStarts range times.now }
    requires size { length values.old ≡ times.now.len }
    ensures size { length values.new ≡ times.now.len }
    ensures values { (k : ℕ) → k < times.now.len → value_in values.new k ≡ unless_some (window_at range samples.now times.now k) (value_in values.old k) }
{
    let mut count = 0;
    for i in 0..times.len {
        let from = times.start_of(i, range);
        count = moved(samples, count, times.at(i));
        let found = newest(samples, count, from);
        values[i as usize] = unless(found, values[i as usize]);
    }
}

/// One unit at each step in whose windows no series has samples.
fn absent_values(
    alloc: Global,
    range: u64,
    snap: &Snap,
    ids: &[u32],
    times: &Times,
) -> Result<Vec<Option<Value>>, OutOfMemory>
    requires inside { All (λ id. id < length snap.now.labels) ids.now }
    requires times { AreTimes times.now }
    requires starts { AreStarts range times.now }
    requires some { 0 < times.now.len }
    ensures { IfOk result (λ v. (k : ℕ) → k < times.now.len → value_in v.items k ≡ unless_present range snap.now times.now k ids.now (Some one)) }
{
    let mut values = vec![in alloc; Some(unit()); times.len as usize]?;
    let mut room = Vec::new(alloc);
    let span = times.span();
    for id in ids {
        let samples = read_windows(snap, *id, range, times, span, &mut room)?;
        note_present(&mut values, range, samples, times);
    }
    Ok(values)
}

/// One unit.
#[tactic(auto, unfolding(pf_base::specs::Arithmetic::clamp))]
pub(crate) fn unit() -> Value
    ensures { result ≡ one }
{
    Value::new(1_000_000)
}

/// What `absent_over_time` is at each step.
fn absent_cells(
    alloc: Global,
    labels: &Labels,
    range: u64,
    snap: &Snap,
    ids: &[u32],
    times: &Times,
) -> Result<StepCells, OutOfMemory>
    requires inside { All (λ id. id < length snap.now.labels) ids.now }
    requires times { AreTimes times.now }
    requires starts { AreStarts range times.now }
    requires some { 0 < times.now.len }
    ensures { IfOk result (λ s. (k : ℕ) → k < times.now.len → step_at s k ≡ cell_of (element labels.now (unless_present range snap.now times.now k ids.now (Some one)))) }
{
    let mut columns = Vec::new(alloc);
    columns.push(Column {
        labels: labels.clone()?,
        values: absent_values(alloc, range, snap, ids, times)?,
    })?;
    normalised(alloc, columns, Vec::new(alloc), times.len)
}

/// What another function is at each step.
fn over_each(
    alloc: Global,
    f: RangeFn,
    range: u64,
    snap: &Snap,
    ids: &[u32],
    times: &Times,
) -> Result<StepCells, OutOfMemory>
    requires inside { All (λ id. id < length snap.now.labels) ids.now }
    requires times { AreTimes times.now }
    requires starts { AreStarts range times.now }
    requires some { 0 < times.now.len }
    ensures { IfOk result (λ s. (k : ℕ) → k < times.now.len → step_at s k ≡ cell_of (cell_at (map (range_column f range snap.now times.now) ids.now) k)) }
{
    let columns = range_columns(alloc, f, range, snap, ids, times)?;
    normalised(alloc, columns, Vec::new(alloc), times.len)
}

/// What a function of a range selector is at each step, where `ids` are the series that its matchers accept, in label
/// order: for each of them the function of its samples in the window of `range` milliseconds before the time, open at the
/// left end. All functions but `last_over_time` drop the metric name. `absent_over_time` gives one element with the labels
/// `absent` where no series has a sample. Where `ids` are those of these series whose labels pass a test, it is that over the
/// rows of such labels. Prometheus, Query functions.
pub fn ranged(
    alloc: Global,
    f: RangeFn,
    absent: &Labels,
    range: u64,
    snap: &Snap,
    ids: &[u32],
    times: &Times,
) -> Result<StepCells, OutOfMemory>
    requires inside { All (λ id. id < length snap.now.labels) ids.now }
    requires times { AreTimes times.now }
    requires starts { AreStarts range times.now }
    ensures all { IfOk result (λ s. (samples : List Row) (ms : List Matcher) → StandsFor snap.now samples → AreApart samples → ids.now ≡ accepted_ids ms snap.now.labels → (k : ℕ) → k < times.now.len
        → step_at s k ≡ cell_of (of_series f absent.now (time_at times.now k -ℤ pos range) (time_at times.now k)
        (windows samples ms (time_at times.now k -ℤ pos range) (time_at times.now k)))) }
    ensures passing { IfOk result (λ s. (samples : List Row) (ms : List Matcher) (passes : Pairs → Bool) → StandsFor snap.now samples → AreApart samples
        → ids.now ≡ ids_passing passes snap.now.labels (accepted_ids ms snap.now.labels) → (k : ℕ) → k < times.now.len
        → step_at s k ≡ cell_of (of_series f absent.now (time_at times.now k -ℤ pos range) (time_at times.now k)
        (windows (rows_passing passes samples) ms (time_at times.now k -ℤ pos range) (time_at times.now k)))) }
{
    let _count = snap.series_count();
    if times.len == 0 {
        return Ok(StepCells {
            columns: Vec::new(alloc),
            bads: Vec::new(alloc),
        });
    }
    match f {
        RangeFn::AbsentOverTime => {
            let found = absent_cells(alloc, absent, range, snap, ids, times)?;
            Ok(found)
        }
        _ => {
            let found = over_each(alloc, f, range, snap, ids, times)?;
            Ok(found)
        }
    }
}
