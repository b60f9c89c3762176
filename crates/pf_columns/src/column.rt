//! A column: a label set with its value at each step.

ghost use Rattle.std.specs.Prelude.{◌≡◌, IfOk, take, drop};
ghost use Rattle.pf_model.specs.Lists.{joined};
ghost use Rattle.pf_columns.specs.Columns.{cell_at, cut_column, has_value, value_in};

use pf_base::{Labels, OutOfMemory, Value};
use pf_model::{Cell, Element};
use std::alloc::Global;
use std::marker::Model;

/// A label set with its value at each step, if it has one there. A step behind the last value has none.
#[derive(Drop)]
pub struct Column {
    pub labels: Labels,
    pub values: Vec<Option<Value>>,
}

impl Model for Column {
    ghost use Rattle.pf_columns.specs.Columns.{ColumnData};

    ghost Value = { ColumnData };

    ghost view = { λ c. record { labels = c.labels; values = c.values.items } };
}

/// The value of a step, if it has one.
pub(crate) fn value_of(values: &[Option<Value>], step: u32) -> Option<Value>
    ensures { result ≡ value_in values.now step }
{
    match values.get(step as usize) {
        Some(value) => *value,
        None => None,
    }
}

/// The elements of a step.
pub(crate) fn cell_of(alloc: Global, columns: &[Column], step: u32) -> Result<Cell, OutOfMemory>
    ensures { IfOk result (λ c. c ≡ cell_at columns.now step) }
{
    let mut elements = Vec::new(alloc);
    for column in columns {
        if let Some(value) = value_of(&column.values, step) {
            elements.push(Element {
                labels: column.labels.clone()?,
                value,
            })?;
        }
    }
    Ok(Cell { elements })
}

/// The values of so many steps from one on.
pub(crate) fn window(values: &[Option<Value>], from: u32, len: u32) -> &[Option<Value>]
    ensures { result.now ≡ take len (drop from values.now) }
{
    let start = values.len().min(from as usize);
    let end = values.len().min(start + len as usize);
    &values[start..end]
}

/// A copy of some values, with room for so many in all.
fn copy_of(
    alloc: Global,
    values: &[Option<Value>],
    room: u32,
) -> Result<Vec<Option<Value>>, OutOfMemory>
    ensures { IfOk result (λ v. v.items ≡ values.now) }
{
    let mut found = Vec::with_capacity(alloc, values.len().max(room as usize))?;
    found.extend_from_slice(values)?;
    Ok(found)
}

/// Whether some step has a value.
pub fn has_value(values: &[Option<Value>]) -> bool
    ensures { result ≡ has_value values.now }
{
    for value in values {
        if value.is_some() {
            return true;
        }
    }
    false
}

/// A column of copies, with room for so many values in all.
fn copied(
    alloc: Global,
    labels: &Labels,
    values: &[Option<Value>],
    room: u32,
) -> Result<Column, OutOfMemory>
    ensures { IfOk result (λ c. c ≡ record { labels = labels.now; values = values.now }) }
{
    Ok(Column {
        labels: labels.clone()?,
        values: copy_of(alloc, values, room)?,
    })
}

/// The columns that have a value at one of so many steps, with these steps' values and room for so many in all.
pub(crate) fn cut_columns(
    alloc: Global,
    columns: &[Column],
    from: u32,
    len: u32,
    room: u32,
) -> Result<Vec<Column>, OutOfMemory>
    ensures { IfOk result (λ v. v.items ≡ joined (cut_column from len) columns.now) }
{
    let mut found = Vec::with_capacity(alloc, columns.len())?;
    for column in columns {
        let values = window(&column.values, from, len);
        if has_value(values) {
            found.push(copied(alloc, &column.labels, values, room)?)?;
        }
    }
    Ok(found)
}
