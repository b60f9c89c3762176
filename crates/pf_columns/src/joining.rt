//! The cells of runs of steps, one after another, as the cells of all.

ghost use Rattle.std.specs.Prelude.{◌≡◌, ◌+◌, ◌++◌, ◌∷◌, ◌<◌, ◌≤◌, [], IfOk, MatchOption, OnOk, length};
ghost use Rattle.std.specs.Option.{OnSome};
ghost use Rattle.pf_model.specs.Lists.{joined};
ghost use Rattle.pf_columns.specs.Joins.{AreColumnsOf, column_of_both, filled, fronts_cmp, joined_columns, later_column};

use crate::cells::Cells;
use crate::column::Column;
use crate::halves::halved;
use pf_base::{OutOfMemory, Value};
use std::alloc::Global;
use std::cmp::Ordering;
use std::collections::VecDeque;

/// Steps without a value, up to so many steps.
fn fill(values: &mut Vec<Option<Value>>, len: u32) -> Result<(), OutOfMemory>
    ensures { OnOk result (values.new.items ≡ filled len values.old.items) }
{
    while values.len() < len as usize {
        values.push(None)?;
    }
    Ok(())
}

/// Two columns of one label set, the first of so many steps. The values of the second are copied.
fn together(one: Column, other: Column, len: u32) -> Result<Column, OutOfMemory>
    ensures { IfOk result (λ c. c ≡ column_of_both len one other) }
{
    let Column { labels, mut values } = one;
    let mut more = other.values;
    fill(&mut values, len)?;
    values.append(&mut more)?;
    Ok(Column { labels, values })
}

/// A column so many steps later.
fn later(alloc: Global, column: Column, len: u32) -> Result<Column, OutOfMemory>
    ensures { IfOk result (λ c. c ≡ later_column len column) }
{
    let Column {
        labels,
        values: mut more,
    } = column;
    let mut values = Vec::with_capacity(alloc, len as usize + more.len())?;
    fill(&mut values, len)?;
    values.append(&mut more)?;
    Ok(Column { labels, values })
}

/// Which of two lists has the lesser label set in front. Where the second is at its end, the first; and else where the first is,
/// the second.
fn fronts_cmp(first: &VecDeque<Column>, second: &VecDeque<Column>) -> Ordering
    ensures { result ≡ fronts_cmp first.now.items second.now.items }
{
    let Some(other) = second.front() else {
        return Ordering::Less;
    };
    let Some(one) = first.front() else {
        return Ordering::Greater;
    };
    one.labels.cmp(&other.labels)
}

/// The next column of both of two lists in label order, the first of so many steps.
fn next_of(
    alloc: Global,
    first: &mut VecDeque<Column>,
    second: &mut VecDeque<Column>,
    len: u32,
) -> Result<Option<Column>, OutOfMemory>
    ensures next { IfOk result (λ o. MatchOption o (joined_columns len first.old.items second.old.items ≡ [])
        (λ c. joined_columns len first.old.items second.old.items ≡ c ∷ joined_columns len first.new.items second.new.items)) }
    ensures fewer { IfOk result (λ o. OnSome o (length first.new.items + length second.new.items < length first.old.items + length second.old.items)) }
{
    match fronts_cmp(first, second) {
        Ordering::Less => Ok(first.pop_front()),
        Ordering::Equal => {
            let Some(one) = first.pop_front() else {
                unreachable!()
            };
            let Some(other) = second.pop_front() else {
                unreachable!()
            };
            let column = together(one, other, len)?;
            Ok(Some(column))
        }
        Ordering::Greater => {
            let Some(other) = second.pop_front() else {
                unreachable!()
            };
            let column = later(alloc, other, len)?;
            Ok(Some(column))
        }
    }
}

/// The columns of both of two lists in label order, the first of so many steps. It goes once over both.
fn joined(
    alloc: Global,
    first: Vec<Column>,
    second: Vec<Column>,
    len: u32,
) -> Result<Vec<Column>, OutOfMemory>
    ensures { IfOk result (λ v. v.items ≡ joined_columns len first.items second.items) }
{
    let mut found = Vec::with_capacity(alloc, first.len().max(second.len()))?;
    let mut ones = VecDeque::from_vec(first);
    let mut others = VecDeque::from_vec(second);
    while let Some(column) = next_of(alloc, &mut ones, &mut others, len)? {
        found.push(column)?;
    }
    Ok(found)
}

/// Columns of so many steps.
#[derive(Drop)]
struct Stretch {
    columns: Vec<Column>,
    len: u32,
}

/// The columns of parts, one after another, those of the first part with room for so many steps in all. It calls itself as deep as
/// the number of parts can be halved.
fn stretch_over(alloc: Global, parts: &[Cells], room: u32) -> Result<Stretch, OutOfMemory>
    requires { length (joined (λ cells. cells) parts.now) ≤ 4294967295 }
    ensures columns { IfOk result (λ s. AreColumnsOf (joined (λ cells. cells) parts.now) s.columns.items) }
    ensures many { IfOk result (λ s. s.len ≡ length (joined (λ cells. cells) parts.now)) }
{
    if parts.is_empty() {
        return Ok(Stretch {
            columns: Vec::new(alloc),
            len: 0,
        });
    }
    if parts.len() == 1 {
        let part = &parts[0];
        let columns = part.cut_columns(alloc, room)?;
        return Ok(Stretch {
            columns,
            len: part.count(),
        });
    }
    let half = halved(parts);
    let first = stretch_over(alloc, half.front, room)?;
    let second = stretch_over(alloc, half.behind, 0)?;
    let columns = joined(alloc, first.columns, second.columns, first.len)?;
    Ok(Stretch {
        columns,
        len: first.len + second.len,
    })
}

/// How many steps all parts have, where the first has half of them or more, and else 0.
fn room_for(parts: &[Cells]) -> u32 {
    let Some(first) = parts.first() else {
        return 0;
    };
    let mut all = 0u32;
    for part in parts {
        all = all.saturating_add(part.count());
    }
    if first.count() < all / 2 { 0 } else { all }
}

/// The cells of runs, one after another. Those of one run alone are shared, not copied. Else a value is copied once, and at most
/// once more for each time that the number of parts can be halved; one of a first run that has half of all steps is copied once.
/// Label sets are compared only where two lists are joined.
pub fn join_cells(alloc: Global, parts: Vec<Cells>) -> Result<Cells, OutOfMemory>
    requires { length (joined (λ cells. cells) parts.items) ≤ 4294967295 }
    ensures { IfOk result (λ c. c ≡ joined (λ cells. cells) parts.items) }
{
    if parts.len() == 1 {
        return Ok(parts[0].clone()?);
    }
    let Stretch { columns, len } = stretch_over(alloc, &parts, room_for(&parts))?;
    Cells::of(alloc, columns, len)
}
