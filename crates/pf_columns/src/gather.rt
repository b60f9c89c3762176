//! Rows of a matrix from columns.

ghost use Rattle.std.specs.Prelude.{◌≡◌, ◌+◌, ◌++◌, ◌≤◌, filter, is_some, length, vec_capacity, IfOk, OnOk};
ghost use Rattle.pf_base.specs.Grids.{points};
ghost use Rattle.pf_columns.specs.Columns.{points_in, row_with, rows_in};

use crate::column::{Column, value_of, window};
use pf_base::{Grid, OutOfMemory, Sample, Value};
use pf_matrix::MatrixRow;
use std::alloc::Global;

/// Pushes the points of a column at the times of a grid, the first of which is that of the step `from`.
pub(crate) fn push_points(
    found: &mut Vec<Sample>,
    values: &[Option<Value>],
    from: u32,
    grid: &Grid,
) -> Result<(), OutOfMemory>
    requires { from + grid.now.len ≤ 4294967295 }
    ensures { OnOk result (found.new.items ≡ found.old.items ++ points_in (points grid.now) from values.now) }
{
    for i in 0..grid.len() {
        let time = grid.at(i);
        if let Some(value) = value_of(values, from + i) {
            found.push(Sample {
                time: time as i64,
                value,
            })?;
        }
    }
    Ok(())
}

/// How many values there are.
fn count_of(values: &[Option<Value>]) -> usize
    ensures { result ≡ length (filter is_some values.now) }
{
    let mut count = 0;
    for value in values {
        if value.is_some() {
            count += 1;
        }
    }
    count
}

/// Pushes the points of a column at the times of a grid, the first of which is that of the step `from`. There is room for them.
fn put_points(found: &mut Vec<Sample>, values: &[Option<Value>], from: u32, grid: &Grid)
    requires steps { from + grid.now.len ≤ 4294967295 }
    requires room { length found.old.items + length (points_in (points grid.now) from values.now) ≤ vec_capacity found.old }
    ensures { found.new.items ≡ found.old.items ++ points_in (points grid.now) from values.now }
{
    for i in 0..grid.len() {
        let time = grid.at(i);
        if let Some(value) = value_of(values, from + i) {
            found.push_reserved(Sample {
                time: time as i64,
                value,
            });
        }
    }
}

/// The points of a column.
fn points_of(
    alloc: Global,
    values: &[Option<Value>],
    from: u32,
    grid: &Grid,
) -> Result<Vec<Sample>, OutOfMemory>
    requires { from + grid.now.len ≤ 4294967295 }
    ensures { IfOk result (λ v. v.items ≡ points_in (points grid.now) from values.now) }
{
    let count = count_of(window(values, from, grid.len()));
    let mut points = Vec::with_capacity(alloc, count)?;
    put_points(&mut points, values, from, grid);
    Ok(points)
}

/// Pushes the row of a column, if it has a point.
fn push_row(
    alloc: Global,
    rows: &mut Vec<MatrixRow>,
    column: &Column,
    from: u32,
    grid: &Grid,
) -> Result<(), OutOfMemory>
    requires { from + grid.now.len ≤ 4294967295 }
    ensures { OnOk result (rows.new.items ≡ rows.old.items ++ row_with column.now.labels (points_in (points grid.now) from column.now.values)) }
{
    let points = points_of(alloc, &column.values, from, grid)?;
    if points.is_empty() {
        return Ok(());
    }
    rows.push(MatrixRow {
        labels: column.labels.clone()?,
        points,
    })?;
    Ok(())
}

/// A row for each column that has a point.
pub(crate) fn rows_of(
    alloc: Global,
    columns: &[Column],
    from: u32,
    grid: &Grid,
) -> Result<Vec<MatrixRow>, OutOfMemory>
    requires { from + grid.now.len ≤ 4294967295 }
    ensures { IfOk result (λ v. v.items ≡ rows_in (points grid.now) from columns.now) }
{
    let mut rows = Vec::with_capacity(alloc, columns.len())?;
    for column in columns {
        push_row(alloc, &mut rows, column, from, grid)?;
    }
    Ok(rows)
}
