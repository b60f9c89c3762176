//! What a vector is at each step of a run, and the call that puts columns in order.

ghost use Rattle.std.specs.Prelude.{◌≡◌, ◌∷◌, ◌++◌, ℕ, [], ◌<◌, Some, None, true, false, IfOk, MatchOption, OnOk};
ghost use Rattle.pf_base.specs.Sorting.{isort};
ghost use Rattle.pf_model.specs.Cells.{cell_of};
ghost use Rattle.pf_model.specs.Merging.{below};
ghost use Rattle.pf_model.specs.Selection.{same_labels};
ghost use Rattle.pf_columns.specs.Columns.{cell_at, cells_from, columns_labels, value_in};
ghost use Rattle.pf_columns.specs.Steps.{AddsClashes, IsFirstBad, IsFusion, NoneBad, bad_in, clash, column_cmp, either, rise_above, step_at, unless_bad};

use crate::cells::Cells;
use crate::column::{self, Column, value_of};
use pf_base::{Labels, OutOfMemory, Value};
use pf_model::{ErrorKind, StepCell};
use std::alloc::Global;
use std::cmp::Ordering;
use std::marker::Model;
use std::mem;

/// What a vector is at each step of a run: columns by rising label sets, and the errors of steps. A step behind the last
/// error has none, and where no step has one, `bads` is empty.
#[derive(Drop)]
pub struct StepCells {
    pub columns: Vec<Column>,
    pub bads: Vec<Option<ErrorKind>>,
}

impl Model for StepCells {
    ghost use Rattle.pf_columns.specs.Columns.{AreRising, columns_labels};
    ghost use Rattle.pf_columns.specs.Steps.{StepsData};

    ghost Value = { StepsData };

    ghost view = { λ s. record { columns = s.columns.items; bads = s.bads.items } };

    ghost invariant = { λ s. AreRising (columns_labels s.columns.items) };
}

/// The error of a step, if it has one.
fn bad_of(bads: &[Option<ErrorKind>], step: u32) -> Option<ErrorKind>
    ensures { result ≡ bad_in bads.now step }
{
    match bads.get(step as usize) {
        Some(bad) => *bad,
        None => None,
    }
}

/// A step, counted from 0, and its error.
#[derive(Clone, Copy)]
pub struct BadStep {
    pub step: u32,
    pub kind: ErrorKind,
}

impl StepCells {
    /// What a step is.
    pub fn step(&self, alloc: Global, step: u32) -> Result<StepCell, OutOfMemory>
        ensures { IfOk result (λ c. c ≡ step_at self.now step) }
    {
        if let Some(kind) = bad_of(&self.bads, step) {
            return Ok(StepCell::Bad(kind));
        }
        let cell = column::cell_of(alloc, &self.columns, step)?;
        Ok(StepCell::Good(cell))
    }

    /// The first of so many steps that has an error. None where no one of them has.
    pub fn first_bad(&self, len: u32) -> Option<BadStep>
        ensures { MatchOption result (NoneBad self.now.bads len) (IsFirstBad self.now.bads len) }
    {
        for step in 0..len {
            if let Some(kind) = bad_of(&self.bads, step) {
                return Some(BadStep { step, kind });
            }
        }
        None
    }

    /// The cells of so many steps, of which none has an error.
    pub fn cells(self, alloc: Global, len: u32) -> Result<Cells, OutOfMemory>
        requires { NoneBad self.bads len }
        ensures { IfOk result (λ c. c ≡ cells_from self.columns 0 len) }
    {
        Cells::of(alloc, self.columns, len)
    }
}

/// Whether each label set is below the next.
fn is_rising(columns: &[Column]) -> bool
    ensures { result ≡ rise_above None (columns_labels columns.now) }
{
    let mut last: Option<&Labels> = None;
    for column in columns {
        if let Some(last) = last {
            if last.cmp(&column.labels) != Ordering::Less {
                return false;
            }
        }
        last = Some(&column.labels);
    }
    true
}

fn either(a: Option<Value>, b: Option<Value>) -> Option<Value>
    ensures { result ≡ either a b }
{
    match a {
        Some(a) => Some(a),
        None => b,
    }
}

fn clash(bad: Option<ErrorKind>, a: Option<Value>, b: Option<Value>) -> Option<ErrorKind>
    ensures { result ≡ clash bad a b }
{
    match (bad, a, b) {
        (Some(kind), _, _) => Some(kind),
        (None, Some(_), Some(_)) => Some(ErrorKind::DoubleLabels),
        _ => None,
    }
}

/// The values that either of two columns has.
fn merged(
    alloc: Global,
    a: &[Option<Value>],
    b: &[Option<Value>],
    len: u32,
) -> Result<Vec<Option<Value>>, OutOfMemory>
    ensures { IfOk result (λ v. v.items ≡ below (λ k. either (value_in a.now k) (value_in b.now k)) len) }
{
    let mut found = Vec::with_capacity(alloc, len as usize)?;
    for i in 0..len {
        found.push(either(value_of(a, i), value_of(b, i)))?;
    }
    Ok(found)
}

/// Whether no step has a value in both columns.
fn are_apart(a: &[Option<Value>], b: &[Option<Value>], len: u32) -> bool
    ensures { result ≡ true → (k : ℕ) → k < len → clash None (value_in a.now k) (value_in b.now k) ≡ None }
{
    for i in 0..len {
        if let Some(_) = clash(None, value_of(a, i), value_of(b, i)) {
            return false;
        }
    }
    true
}

/// The errors of steps, also where both columns have a value.
fn clashes(
    alloc: Global,
    bads: &[Option<ErrorKind>],
    a: &[Option<Value>],
    b: &[Option<Value>],
    len: u32,
) -> Result<Vec<Option<ErrorKind>>, OutOfMemory>
    ensures { IfOk result (λ v. v.items ≡ below (λ k. clash (bad_in bads.now k) (value_in a.now k) (value_in b.now k)) len) }
{
    let mut found = Vec::with_capacity(alloc, len as usize)?;
    for i in 0..len {
        found.push(clash(bad_of(bads, i), value_of(a, i), value_of(b, i)))?;
    }
    Ok(found)
}

/// Adds the errors of two columns of equal labels: a step where both have a value.
#[tactic(auto, using(crate::proofs::Fusing::no_clashes))]
fn add_clashes(
    alloc: Global,
    bads: &mut Vec<Option<ErrorKind>>,
    a: &Column,
    b: &Column,
    len: u32,
) -> Result<(), OutOfMemory>
    ensures { OnOk result (AddsClashes len bads.old.items a.now b.now bads.new.items) }
{
    if are_apart(&a.values, &b.values, len) {
        return Ok(());
    }
    *bads = clashes(alloc, bads, &a.values, &b.values, len)?;
    Ok(())
}

/// Adds the values of another column.
fn add_values(alloc: Global, a: &mut Column, b: &Column, len: u32) -> Result<(), OutOfMemory>
    ensures { OnOk result (IsFusion len a.old b.now a.new) }
{
    a.values = merged(alloc, &a.values, &b.values, len)?;
    Ok(())
}

/// The columns that are done, the one that those behind it may be fused with, and the errors of steps.
#[derive(Drop)]
struct Fusing {
    done: Vec<Column>,
    last: Column,
    bads: Vec<Option<ErrorKind>>,
}

#[tactic(auto, using(pf_base::specs::LabelOrder::labels_ties))]
fn have_same_labels(a: &Column, b: &Column) -> bool
    ensures { result ≡ same_labels a.now.labels b.now.labels }
{
    a.labels == b.labels
}

/// One column more: fused with the last one where their labels are equal.
fn fuse(alloc: Global, fusing: &mut Fusing, column: Column, len: u32) -> Result<(), OutOfMemory>
    ensures same { same_labels fusing.old.last.labels column.labels ≡ true → OnOk result ((fusing.new.done.items ≡ fusing.old.done.items)
        × IsFusion len fusing.old.last column fusing.new.last × AddsClashes len fusing.old.bads.items fusing.old.last column fusing.new.bads.items) }
    ensures other { same_labels fusing.old.last.labels column.labels ≡ false → OnOk result ((fusing.new.done.items ≡ fusing.old.done.items ++ fusing.old.last ∷ [])
        × (fusing.new.last ≡ column) × (fusing.new.bads.items ≡ fusing.old.bads.items)) }
{
    if have_same_labels(&fusing.last, &column) {
        add_clashes(alloc, &mut fusing.bads, &fusing.last, &column, len)?;
        return add_values(alloc, &mut fusing.last, &column, len);
    }
    let last = mem::replace(&mut fusing.last, column);
    fusing.done.push(last)?;
    Ok(())
}

fn in_label_order(mut columns: Vec<Column>) -> Result<Vec<Column>, OutOfMemory>
    ensures { IfOk result (λ v. v.items ≡ isort column_cmp columns.items) }
{
    columns.sort_by(|a, b| a.labels.cmp(&b.labels))?;
    Ok(columns)
}

/// Columns in label order, those of equal labels fused.
fn fused(
    alloc: Global,
    columns: Vec<Column>,
    bads: Vec<Option<ErrorKind>>,
    len: u32,
) -> Result<StepCells, OutOfMemory>
    ensures { IfOk result (λ s. (k : ℕ) → k < len → step_at s k ≡ unless_bad (bad_in bads.items k) (cell_of (cell_at columns.items k))) }
{
    let sorted = in_label_order(columns)?;
    let mut rest = sorted.into_iter();
    let Some(first) = rest.next() else {
        return Ok(StepCells {
            columns: Vec::new(alloc),
            bads,
        });
    };
    let mut fusing = Fusing {
        done: Vec::new(alloc),
        last: first,
        bads,
    };
    for column in rest {
        fuse(alloc, &mut fusing, column, len)?;
    }
    let Fusing {
        mut done,
        last,
        bads,
    } = fusing;
    done.push(last)?;
    Ok(StepCells {
        columns: done,
        bads,
    })
}

/// The steps of a vector from its columns, of any labels and in any order, and the errors that steps have already: at
/// each step the elements in label order, and the error `DoubleLabels` where two have equal labels.
#[tactic(auto, using(crate::proofs::Rising::rise_is, crate::proofs::Rising::cell_rising))]
pub fn normalised(
    alloc: Global,
    columns: Vec<Column>,
    bads: Vec<Option<ErrorKind>>,
    len: u32,
) -> Result<StepCells, OutOfMemory>
    ensures steps { IfOk result (λ s. (k : ℕ) → k < len → step_at s k ≡ unless_bad (bad_in bads.items k) (cell_of (cell_at columns.items k))) }
    ensures kept { rise_above None (columns_labels columns.items) ≡ true → IfOk result (λ s. (s.columns ≡ columns.items) × (s.bads ≡ bads.items)) }
{
    if is_rising(&columns) {
        return Ok(StepCells { columns, bads });
    }
    fused(alloc, columns, bads, len)
}
