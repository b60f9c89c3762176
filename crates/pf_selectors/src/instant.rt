//! Instant selectors over a whole run.

ghost use Rattle.std.specs.Prelude.{◌≡◌, ◌<◌, ◌≤◌, ℕ, int_le, Bool, true, None, Some, List, IfOk, OnOk, length, map, option_map};
ghost use Rattle.std.specs.List.{All};
ghost use Rattle.pf_base.specs.declared.plain.Row.{Row};
ghost use Rattle.pf_base.specs.LabelSets.{Pairs};
ghost use Rattle.pf_block.specs.Samples.{rises, until};
ghost use Rattle.pf_block.specs.Snaps.{IsSnap, labels_of, samples_of};
ghost use Rattle.pf_columns.specs.Columns.{cell_at, columns_labels};
ghost use Rattle.pf_columns.specs.Steps.{rise_above, step_at};
ghost use Rattle.pf_model.specs.declared.cell.StepCell.TheVariants.{Good};
ghost use Rattle.pf_model.specs.declared.expr.Matcher.{Matcher};
ghost use Rattle.pf_model.specs.Binding.{accepted_ids};
ghost use Rattle.pf_model.specs.Cells.{cell_of};
ghost use Rattle.pf_model.specs.Evaluation.{selected, timed};
ghost use Rattle.pf_model.specs.InstantFunctions.{each_value};
ghost use Rattle.pf_model.specs.Micros.{seconds};
ghost use Rattle.pf_range.specs.Windows.{IsTime};
ghost use Rattle.pf_store.specs.Standing.{StandsFor};
ghost use Rattle.pf_selectors.specs.Passing.{ids_passing, rows_passing};
ghost use Rattle.pf_selectors.specs.SeriesColumns.{labels_read, read_at, read_column, series_column, value_read, values_read};
ghost use Rattle.pf_selectors.specs.Times.{AreTimes, time_at};
ghost use Rattle.pf_selectors.specs.declared.times.Times.{Times};

use crate::cursor::{moved, newest, read};
use crate::times::{Span, Times};
use pf_base::{Labels, OutOfMemory, Sample, Value};
use pf_block::Snap;
use pf_columns::{Column, StepCells, normalised};
use std::alloc::Global;

/// How far back a sample is read, in milliseconds.
const LOOKBACK: i64 = 300_000;

/// What is read of a sample: its value, or its time.
#[derive(Clone, Copy)]
enum Reading {
    Value,
    Time,
}

/// A time in seconds.
fn seconds(time: i64) -> Value
    ensures { result ≡ seconds time }
{
    Value::new(time as i128 * 1_000)
}

fn value_read(reading: Reading, sample: Option<Sample>) -> Option<Value>
    ensures { result ≡ option_map (value_read reading) sample }
{
    match (sample, reading) {
        (None, _) => None,
        (Some(sample), Reading::Value) => Some(sample.value),
        (Some(sample), Reading::Time) => Some(seconds(sample.time)),
    }
}

fn labels_read(reading: Reading, labels: &Labels) -> Result<Labels, OutOfMemory>
    ensures { IfOk result (λ l. l ≡ labels_read reading labels.now) }
{
    match reading {
        Reading::Value => Ok(labels.clone()?),
        Reading::Time => labels.without_name(),
    }
}

/// The last sample in the look-back of a time, where so many samples aren't after it.
fn read_at(samples: &[Sample], count: usize, time: i64) -> Option<Sample>
    requires rises { rises samples.now ≡ true }
    requires time { IsTime time }
    requires count { count ≡ until time samples.now }
    requires within { count ≤ length samples.now }
    ensures { result ≡ read_at samples.now time }
{
    newest(samples, count, time - LOOKBACK)
}

/// Puts what is read of samples at each step in place of what `found` holds.
fn put_values(
    reading: Reading,
    samples: &[Sample],
    times: &Times,
    found: &mut Vec<Option<Value>>,
) -> Result<(), OutOfMemory>
    requires rises { rises samples.now ≡ true }
    requires times { AreTimes times.now }
    ensures { OnOk result (found.new.items ≡ values_read reading samples.now times.now) }
{
    found.clear();
    let mut count = 0;
    for i in 0..times.len {
        let time = times.at(i);
        count = moved(samples, count, time);
        found.push(value_read(reading, read_at(samples, count, time)))?;
    }
    Ok(())
}

/// Puts what is read of a series at each step in place of what `values` holds, where the times are within a span. `samples` may
/// be overwritten.
fn read_steps(
    reading: Reading,
    snap: &Snap,
    id: u32,
    times: &Times,
    span: Span,
    samples: &mut Vec<Sample>,
    values: &mut Vec<Option<Value>>,
) -> Result<(), OutOfMemory>
    requires inside { id < length snap.now.labels }
    requires times { AreTimes times.now }
    requires first { IsTime span.first }
    requires last { IsTime span.last }
    requires low { (k : ℕ) → k < times.now.len → int_le span.first (time_at times.now k) ≡ true }
    requires high { (k : ℕ) → k < times.now.len → int_le (time_at times.now k) span.last ≡ true }
    ensures { OnOk result (values.new.items ≡ values_read reading (samples_of snap.now id) times.now) }
{
    let samples = read(snap, id, span.first - LOOKBACK, span.last, samples)?;
    put_values(reading, samples, times, values)?;
    Ok(())
}

/// The column of a series, whose times are within a span. `samples` may be overwritten.
fn read_column(
    alloc: Global,
    reading: Reading,
    snap: &Snap,
    id: u32,
    times: &Times,
    span: Span,
    samples: &mut Vec<Sample>,
) -> Result<Column, OutOfMemory>
    requires inside { id < length snap.now.labels }
    requires times { AreTimes times.now }
    requires first { IsTime span.first }
    requires last { IsTime span.last }
    requires low { (k : ℕ) → k < times.now.len → int_le span.first (time_at times.now k) ≡ true }
    requires high { (k : ℕ) → k < times.now.len → int_le (time_at times.now k) span.last ≡ true }
    ensures { IfOk result (λ c. c ≡ read_column reading snap.now times.now id) }
{
    let labels = labels_read(reading, snap.labels(id))?;
    let mut values = Vec::with_capacity(alloc, times.len as usize)?;
    read_steps(reading, snap, id, times, span, samples, &mut values)?;
    Ok(Column { labels, values })
}

fn read_columns(
    alloc: Global,
    reading: Reading,
    snap: &Snap,
    ids: &[u32],
    times: &Times,
) -> Result<Vec<Column>, OutOfMemory>
    requires inside { All (λ id. id < length snap.now.labels) ids.now }
    requires times { AreTimes times.now }
    requires some { 0 < times.now.len }
    ensures { IfOk result (λ v. v.items ≡ map (read_column reading snap.now times.now) ids.now) }
{
    let span = times.span();
    let mut columns = Vec::with_capacity(alloc, ids.len())?;
    let mut samples = Vec::new(alloc);
    for id in ids {
        columns.push(read_column(alloc, reading, snap, *id, times, span, &mut samples)?)?;
    }
    Ok(columns)
}

/// Reads the values of an instant selector for one series at each step, in place of those that `values` holds, where `span` has
/// all times of the run. `samples` may be overwritten.
pub fn read_values(
    snap: &Snap,
    id: u32,
    times: &Times,
    span: Span,
    samples: &mut Vec<Sample>,
    values: &mut Vec<Option<Value>>,
) -> Result<(), OutOfMemory>
    requires inside { id < length snap.now.labels }
    requires times { AreTimes times.now }
    requires first { IsTime span.first }
    requires last { IsTime span.last }
    requires low { (k : ℕ) → k < times.now.len → int_le span.first (time_at times.now k) ≡ true }
    requires high { (k : ℕ) → k < times.now.len → int_le (time_at times.now k) span.last ≡ true }
    ensures { OnOk result (values.new.items ≡ (series_column snap.now times.now id).values) }
{
    read_steps(Reading::Value, snap, id, times, span, samples, values)?;
    Ok(())
}

/// Whether some series stand in label order, each once.
fn are_in_order(snap: &Snap, ids: &[u32]) -> bool
    requires { All (λ id. id < length snap.now.labels) ids.now }
    ensures { result ≡ true → rise_above None (map (labels_of snap.now) ids.now) ≡ true }
{
    let _count = snap.series_count();
    let mut last: Option<u32> = None;
    for id in ids {
        if let Some(last) = last {
            if !snap.is_before(last, *id) {
                return false;
            }
        }
        last = Some(*id);
    }
    true
}

/// Whether the label sets that are read of some series rise, as far as their places in label order tell it.
#[tactic(auto, using(crate::proofs::RankedSeries::rise_as_read))]
fn rise_as_read(reading: Reading, snap: &Snap, ids: &[u32]) -> bool
    requires { All (λ id. id < length snap.now.labels) ids.now }
    ensures { result ≡ true → (times : Times) → rise_above None (columns_labels (map (read_column reading snap.now times) ids.now)) ≡ true }
{
    match reading {
        Reading::Value => are_in_order(snap, ids),
        Reading::Time => false,
    }
}

/// What is read of some series at each step. Where their places in label order rise, no label sets are compared.
#[tactic(auto, using(pf_columns::proofs::Rising::rise_is, pf_columns::proofs::Rising::cell_rising))]
fn read_cells(
    alloc: Global,
    reading: Reading,
    snap: &Snap,
    ids: &[u32],
    times: &Times,
) -> Result<StepCells, OutOfMemory>
    requires inside { All (λ id. id < length snap.now.labels) ids.now }
    requires times { AreTimes times.now }
    ensures cells { IfOk result (λ s. (k : ℕ) → k < times.now.len → step_at s k ≡ cell_of (cell_at (map (read_column reading snap.now times.now) ids.now) k)) }
    ensures snap { IsSnap snap.now }
{
    let _count = snap.series_count();
    if times.len == 0 {
        return Ok(StepCells {
            columns: Vec::new(alloc),
            bads: Vec::new(alloc),
        });
    }
    let columns = read_columns(alloc, reading, snap, ids, times)?;
    if rise_as_read(reading, snap, ids) {
        return Ok(StepCells {
            columns,
            bads: Vec::new(alloc),
        });
    }
    let found = normalised(alloc, columns, Vec::new(alloc), times.len)?;
    Ok(found)
}

/// What an instant selector is at each step, where `ids` are the series that its matchers accept, in label order: for
/// each of them its last sample in the look-back of five minutes. Where they are those of these series whose labels pass a
/// test, it is the selector over the rows of such labels. Prometheus, Querying basics: Instant vector selectors.
pub fn selected(
    alloc: Global,
    snap: &Snap,
    ids: &[u32],
    times: &Times,
) -> Result<StepCells, OutOfMemory>
    requires inside { All (λ id. id < length snap.now.labels) ids.now }
    requires times { AreTimes times.now }
    ensures all { IfOk result (λ s. (samples : List Row) (ms : List Matcher) → StandsFor snap.now samples → ids.now ≡ accepted_ids ms snap.now.labels → (k : ℕ) → k < times.now.len
        → step_at s k ≡ Good (selected samples ms (time_at times.now k))) }
    ensures passing { IfOk result (λ s. (samples : List Row) (ms : List Matcher) (passes : Pairs → Bool) → StandsFor snap.now samples
        → ids.now ≡ ids_passing passes snap.now.labels (accepted_ids ms snap.now.labels) → (k : ℕ) → k < times.now.len
        → step_at s k ≡ Good (selected (rows_passing passes samples) ms (time_at times.now k))) }
{
    let found = read_cells(alloc, Reading::Value, snap, ids, times)?;
    Ok(found)
}

/// What the function `timestamp` of an instant selector is at each step, where `ids` are the series that its matchers
/// accept, in label order: the times in seconds of the samples that are read, without the metric name. It is that over the
/// rows of some labels where they are those of these series whose labels pass a test. Prometheus, Query functions.
pub fn sample_times(
    alloc: Global,
    snap: &Snap,
    ids: &[u32],
    times: &Times,
) -> Result<StepCells, OutOfMemory>
    requires inside { All (λ id. id < length snap.now.labels) ids.now }
    requires times { AreTimes times.now }
    ensures all { IfOk result (λ s. (samples : List Row) (ms : List Matcher) → StandsFor snap.now samples → ids.now ≡ accepted_ids ms snap.now.labels → (k : ℕ) → k < times.now.len
        → step_at s k ≡ cell_of (each_value Some (selected (map timed samples) ms (time_at times.now k)))) }
    ensures passing { IfOk result (λ s. (samples : List Row) (ms : List Matcher) (passes : Pairs → Bool) → StandsFor snap.now samples
        → ids.now ≡ ids_passing passes snap.now.labels (accepted_ids ms snap.now.labels) → (k : ℕ) → k < times.now.len
        → step_at s k ≡ cell_of (each_value Some (selected (map timed (rows_passing passes samples)) ms (time_at times.now k)))) }
{
    let found = read_cells(alloc, Reading::Time, snap, ids, times)?;
    Ok(found)
}
