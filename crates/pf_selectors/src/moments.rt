//! Functions of subqueries over a whole run.

ghost use Rattle.std.specs.Prelude.{◌≡◌, ◌<◌, ◌∷◌, ◌-ℤ◌, ℕ, ℤ, pos, true, Some, [], IfOk, OnOk, map};
ghost use Rattle.pf_block.specs.Samples.{rises};
ghost use Rattle.pf_columns.specs.Columns.{cell_at, value_in};
ghost use Rattle.pf_columns.specs.Steps.{bad_in, step_at, unless_bad};
ghost use Rattle.pf_model.specs.Cells.{cell_of, element};
ghost use Rattle.pf_model.specs.Evaluation.{moments as all_moments, multiples, subquery_over};
ghost use Rattle.pf_model.specs.Merging.{below};
ghost use Rattle.pf_model.specs.Micros.{one};
ghost use Rattle.pf_model.specs.Outcomes.{Outcome, of_cell, of_series, range_call};
ghost use Rattle.pf_selectors.specs.Subqueries.{AreInOrder, AreMoments, AreMultiplesOver, AreRising, bad_moments, bad_over, column_series, earliest, moment_column, moment_samples, unless_sampled};
ghost use Rattle.pf_selectors.specs.Times.{AreStarts, AreTimes, time_at};

use crate::times::Times;
use crate::windows::{labels_over, note_present, unit, values_over};
use pf_base::{Labels, OutOfMemory, Sample, Value};
use pf_columns::{Column, StepCells, normalised};
use pf_model::{ErrorKind, RangeFn};
use std::alloc::Global;

/// The error of the inner expression at a time, in milliseconds.
#[derive(Clone, Copy)]
struct BadMoment {
    time: i64,
    kind: ErrorKind,
}

/// The value of a step, if it has one.
fn value_of(values: &[Option<Value>], step: u32) -> Option<Value>
    ensures { result ≡ value_in values.now step }
{
    match values.get(step as usize) {
        Some(value) => *value,
        None => None,
    }
}

/// The error of a step, if it has one.
fn bad_of(bads: &[Option<ErrorKind>], step: u32) -> Option<ErrorKind>
    ensures { result ≡ bad_in bads.now step }
{
    match bads.get(step as usize) {
        Some(bad) => *bad,
        None => None,
    }
}

/// The values of a column with their times, in place of what `samples` holds.
fn push_values(
    values: &[Option<Value>],
    at: &Times,
    samples: &mut Vec<Sample>,
) -> Result<(), OutOfMemory>
    requires { AreTimes at.now }
    ensures { OnOk result (samples.new.items ≡ moment_samples at.now values.now) }
{
    samples.clear();
    for i in 0..at.len {
        if let Some(value) = value_of(values, i) {
            samples.push(Sample {
                time: at.at(i),
                value,
            })?;
        }
    }
    Ok(())
}

/// The same, of rising times.
fn read_values(
    values: &[Option<Value>],
    at: &Times,
    samples: &mut Vec<Sample>,
) -> Result<(), OutOfMemory>
    requires moments { AreTimes at.now }
    requires rising { AreRising at.now }
    ensures samples { OnOk result (samples.new.items ≡ moment_samples at.now values.now) }
    ensures rises { OnOk result (rises samples.new.items ≡ true) }
{
    push_values(values, at, samples)?;
    Ok(())
}

/// The errors with their times, which rise.
fn bad_moments(
    alloc: Global,
    bads: &[Option<ErrorKind>],
    at: &Times,
) -> Result<Vec<BadMoment>, OutOfMemory>
    requires moments { AreTimes at.now }
    requires rising { AreRising at.now }
    ensures moments { IfOk result (λ v. v.items ≡ bad_moments at.now bads.now) }
    ensures order { IfOk result (λ v. AreInOrder v.items) }
{
    let mut found = Vec::new(alloc);
    for i in 0..at.len {
        if let Some(kind) = bad_of(bads, i) {
            found.push(BadMoment {
                time: at.at(i),
                kind,
            })?;
        }
    }
    Ok(found)
}

/// The earliest error in (from, to], found by halves.
fn earliest(bads: &[BadMoment], from: i64, to: i64) -> Option<ErrorKind>
    requires { AreInOrder bads.now }
    ensures { result ≡ earliest from to bads.now }
{
    let place = bads.partition_point(|bad| bad.time <= from);
    if place == bads.len() {
        return None;
    }
    let bad = bads[place];
    if bad.time <= to { Some(bad.kind) } else { None }
}

/// The earliest errors in the windows of so many milliseconds before each step.
fn bads_over(
    alloc: Global,
    range: u64,
    bads: &[Option<ErrorKind>],
    at: &Times,
    times: &Times,
) -> Result<Vec<Option<ErrorKind>>, OutOfMemory>
    requires moments { AreTimes at.now }
    requires rising { AreRising at.now }
    requires times { AreTimes times.now }
    requires starts { AreStarts range times.now }
    ensures { IfOk result (λ v. v.items ≡ below (bad_over range at.now times.now bads.now) times.now.len) }
{
    let moments = bad_moments(alloc, bads, at)?;
    let mut found = Vec::with_capacity(alloc, times.len as usize)?;
    for i in 0..times.len {
        found.push(earliest(&moments, times.start_of(i, range), times.at(i)))?;
    }
    Ok(found)
}

/// The same, where the inner expression may be without errors.
fn window_bads(
    alloc: Global,
    range: u64,
    bads: &[Option<ErrorKind>],
    at: &Times,
    times: &Times,
) -> Result<Vec<Option<ErrorKind>>, OutOfMemory>
    requires moments { AreTimes at.now }
    requires rising { AreRising at.now }
    requires times { AreTimes times.now }
    requires starts { AreStarts range times.now }
    ensures { IfOk result (λ v. (k : ℕ) → k < times.now.len → bad_in v.items k ≡ bad_over range at.now times.now bads.now k) }
{
    if bads.is_empty() {
        return Ok(Vec::new(alloc));
    }
    let found = bads_over(alloc, range, bads, at, times)?;
    Ok(found)
}

/// A function of a column's values over the windows before the steps. `samples` is overwritten.
fn moment_column(
    alloc: Global,
    f: RangeFn,
    range: u64,
    column: &Column,
    at: &Times,
    times: &Times,
    samples: &mut Vec<Sample>,
) -> Result<Column, OutOfMemory>
    requires moments { AreTimes at.now }
    requires rising { AreRising at.now }
    requires times { AreTimes times.now }
    requires starts { AreStarts range times.now }
    ensures { IfOk result (λ c. c ≡ moment_column f range at.now times.now column.now) }
{
    read_values(&column.values, at, samples)?;
    Ok(Column {
        labels: labels_over(f, &column.labels)?,
        values: values_over(alloc, f, range, samples, times)?,
    })
}

fn moment_columns(
    alloc: Global,
    f: RangeFn,
    range: u64,
    columns: &[Column],
    at: &Times,
    times: &Times,
) -> Result<Vec<Column>, OutOfMemory>
    requires moments { AreTimes at.now }
    requires rising { AreRising at.now }
    requires times { AreTimes times.now }
    requires starts { AreStarts range times.now }
    ensures { IfOk result (λ v. v.items ≡ map (moment_column f range at.now times.now) columns.now) }
{
    let mut found = Vec::with_capacity(alloc, columns.len())?;
    let mut samples = Vec::new(alloc);
    for column in columns {
        found.push(moment_column(alloc, f, range, column, at, times, &mut samples)?)?;
    }
    Ok(found)
}

/// One unit at each step in whose window no column has a value.
fn absent_values(
    alloc: Global,
    range: u64,
    columns: &[Column],
    at: &Times,
    times: &Times,
) -> Result<Vec<Option<Value>>, OutOfMemory>
    requires moments { AreTimes at.now }
    requires rising { AreRising at.now }
    requires times { AreTimes times.now }
    requires starts { AreStarts range times.now }
    ensures { IfOk result (λ v. (k : ℕ) → k < times.now.len → value_in v.items k ≡ unless_sampled range at.now times.now k columns.now (Some one)) }
{
    let mut values = vec![in alloc; Some(unit()); times.len as usize]?;
    let mut samples = Vec::new(alloc);
    for column in columns {
        read_values(&column.values, at, &mut samples)?;
        note_present(&mut values, range, &samples, times);
    }
    Ok(values)
}

/// What `absent_over_time` is at each step.
fn absent_column(
    alloc: Global,
    labels: &Labels,
    range: u64,
    columns: &[Column],
    at: &Times,
    times: &Times,
) -> Result<Vec<Column>, OutOfMemory>
    requires moments { AreTimes at.now }
    requires rising { AreRising at.now }
    requires times { AreTimes times.now }
    requires starts { AreStarts range times.now }
    ensures { IfOk result (λ v. (k : ℕ) → k < times.now.len → cell_at v.items k ≡ element labels.now (unless_sampled range at.now times.now k columns.now (Some one))) }
{
    let mut found = Vec::new(alloc);
    found.push(Column {
        labels: labels.clone()?,
        values: absent_values(alloc, range, columns, at, times)?,
    })?;
    Ok(found)
}

/// The elements at each step, as columns of any labels.
fn columns_over(
    alloc: Global,
    f: RangeFn,
    absent: &Labels,
    range: u64,
    columns: &[Column],
    at: &Times,
    times: &Times,
) -> Result<Vec<Column>, OutOfMemory>
    requires moments { AreTimes at.now }
    requires rising { AreRising at.now }
    requires times { AreTimes times.now }
    requires starts { AreStarts range times.now }
    ensures { IfOk result (λ v. (k : ℕ) → k < times.now.len → cell_at v.items k ≡ of_series f absent.now (time_at times.now k -ℤ pos range) (time_at times.now k) (column_series range at.now times.now columns.now k)) }
{
    match f {
        RangeFn::AbsentOverTime => {
            let found = absent_column(alloc, absent, range, columns, at, times)?;
            Ok(found)
        }
        _ => {
            let found = moment_columns(alloc, f, range, columns, at, times)?;
            Ok(found)
        }
    }
}

/// What a function of a subquery is at each step of a run: `moments` is what the inner expression is at the times `at`, the
/// multiples of `resolution` that `multiples_over` gives; a scalar has no elements. Each label set's values in the window of
/// `range` milliseconds before a step are its samples there, and the earliest error in the window is the step's. All functions
/// but `last_over_time` drop the metric name. `absent_over_time` gives one element with the labels `absent` where the window
/// has no value. What is between the windows is read past. Prometheus, Querying basics: Subquery.
pub fn over_moments(
    alloc: Global,
    f: RangeFn,
    absent: &Labels,
    range: u64,
    resolution: u64,
    moments: &StepCells,
    at: &Times,
    times: &Times,
) -> Result<StepCells, OutOfMemory>
    requires multiples { AreMultiplesOver range resolution at.now times.now }
    requires times { AreTimes times.now }
    requires starts { AreStarts range times.now }
    ensures { IfOk result (λ s. (o : ℤ → Outcome) → AreMoments o at.now moments.now → (k : ℕ) → k < times.now.len
        → of_cell (step_at s k) ≡ range_call f absent.now (subquery_over (time_at times.now k -ℤ pos range) (time_at times.now k)
        (all_moments o (multiples resolution (time_at times.now k -ℤ pos range) (time_at times.now k))) ∷ [])) }
{
    let bads = window_bads(alloc, range, &moments.bads, at, times)?;
    let columns = columns_over(alloc, f, absent, range, &moments.columns, at, times)?;
    let found = normalised(alloc, columns, bads, times.len)?;
    Ok(found)
}
