//! Functions of instant vectors, scalars and texts.

ghost use Rattle.std.specs.Prelude.{◌≡◌, ◌<◌, ℕ, ℤ, Some, true, false, map, IfOk};
ghost use Rattle.std.specs.List.{list_any};
ghost use Rattle.std.specs.Option.{option_copied};
ghost use Rattle.std.specs.Str.{bytes_eq};
ghost use Rattle.pf_base.specs.LabelSets.{Pairs};
ghost use Rattle.pf_model.specs.Cells.{element, without_name};
ghost use Rattle.pf_model.specs.InstantFunctions.{each_value, first_scalar, only_value};
ghost use Rattle.pf_model.specs.Lists.{at};
ghost use Rattle.pf_model.specs.Merging.{below};
ghost use Rattle.pf_model.specs.Micros.{seconds};
ghost use Rattle.pf_model.specs.Outcomes.{instant_call};
ghost use Rattle.pf_model.specs.declared.cell.StepCell.TheVariants.{Good};
ghost use Rattle.pf_columns.specs.Columns.{cell_at, value_in};
ghost use Rattle.pf_columns.specs.Steps.{bad_in, step_at, unless_bad};
ghost use Rattle.pf_math.specs.EachValue.{changed, is_each_value, value_by};
ghost use Rattle.pf_math.specs.Relabelling.{has_lawful_target, is_relabelling, relabels};
ghost use Rattle.pf_selectors.specs.Times.{AreTimes, time_at};
ghost use Rattle.pf_eval.specs.Calls.{absent_value, beside_at, change_at, given, has_its_pattern, reads_time, scalars_at};
ghost use Rattle.pf_eval.specs.Nodes.{is_text, node_at, nodes_at, onto, texts_in};

use crate::arguments::{Arguments, arguments_of};
use crate::node::{Node, Scalars, no_labels, value_of};
use pf_base::{Labels, OutOfMemory, Text, Value};
use pf_columns::{Column, StepCells, normalised};
use pf_match::Pattern;
use pf_math::{Change, Relabelling, value_of as value_by};
use pf_model::{ErrorKind, InstantFn};
use pf_selectors::Times;
use std::alloc::Global;

/// What a function of each element by itself does to the values of each step: one change where it is the same at all steps.
#[derive(Drop)]
enum Changes {
    Same(Change),
    Steps(Vec<Change>),
}

impl Changes {
    /// The change of a step. A step behind the last one has no value.
    fn at(&self, step: usize) -> Change
        ensures { result ≡ change_at self.now step }
    {
        match self {
            Changes::Same(change) => *change,
            Changes::Steps(changes) => match changes.get(step) {
                Some(change) => *change,
                None => Change::Remove,
            },
        }
    }
}

fn reads_time(f: InstantFn) -> bool
    ensures { result ≡ reads_time f }
{
    matches!(f, InstantFn::Timestamp)
}

/// Whether a step has the first one's value, or neither has one.
fn is_as_first(values: &[Option<Value>], step: u32) -> bool
    ensures { result ≡ true → value_in values.now step ≡ value_in values.now 0 }
{
    value_of(values, step) == value_of(values, 0)
}

/// Whether a scalar has the same value at so many steps.
fn is_constant(values: &[Option<Value>], len: u32) -> bool
    ensures { result ≡ true → (k : ℕ) → k < len → value_in values.now k ≡ value_in values.now 0 }
{
    for step in 0..len {
        if !is_as_first(values, step) {
            return false;
        }
    }
    true
}

/// Whether each scalar has the same value at so many steps.
fn are_constant(scalars: &[Vec<Option<Value>>], len: u32) -> bool
    ensures { result ≡ true → (k : ℕ) → k < len → scalars_at scalars.now k ≡ scalars_at scalars.now 0 }
{
    for values in scalars {
        if !is_constant(values, len) {
            return false;
        }
    }
    true
}

/// The scalars of a step, in place of others.
fn scalars_at(
    mut found: Vec<Option<Value>>,
    scalars: &[Vec<Option<Value>>],
    step: u32,
) -> Result<Vec<Option<Value>>, OutOfMemory>
    ensures { IfOk result (λ v. v.items ≡ scalars_at scalars.now step) }
{
    found.clear();
    for values in scalars {
        found.push(value_of(values, step))?;
    }
    Ok(found)
}

/// The change that a function is, at a time in milliseconds.
fn change_of(f: InstantFn, scalars: &[Option<Value>], time: i64) -> Change
    requires { is_each_value f ≡ true }
    ensures { (v : ℤ) → changed result v ≡ value_by f scalars.now time v }
{
    let Some(change) = Change::of(f, scalars, time) else {
        unreachable!()
    };
    change
}

/// The change that a function is at each step.
fn changes_by_step(
    alloc: Global,
    f: InstantFn,
    scalars: &[Vec<Option<Value>>],
    times: &Times,
) -> Result<Vec<Change>, OutOfMemory>
    requires function { is_each_value f ≡ true }
    requires times { AreTimes times.now }
    ensures { IfOk result (λ c. (k : ℕ) → k < times.now.len → (v : ℤ) → changed (change_at (Changes.Steps c) k) v ≡ value_by f (scalars_at scalars.now k) (time_at times.now k) v) }
{
    let mut found = Vec::new(alloc);
    let mut read = Vec::new(alloc);
    for step in 0..times.len {
        read = scalars_at(read, scalars, step)?;
        found.push(change_of(f, &read, times.at(step)))?;
    }
    Ok(found)
}

/// The changes that a function is over a run.
fn changes_of(
    alloc: Global,
    f: InstantFn,
    scalars: &[Vec<Option<Value>>],
    times: &Times,
) -> Result<Changes, OutOfMemory>
    requires function { is_each_value f ≡ true }
    requires times { AreTimes times.now }
    ensures { IfOk result (λ c. (k : ℕ) → k < times.now.len → (v : ℤ) → changed (change_at c k) v ≡ value_by f (scalars_at scalars.now k) (time_at times.now k) v) }
{
    if !reads_time(f) && are_constant(scalars, times.len) {
        let first = scalars_at(Vec::new(alloc), scalars, 0)?;
        return Ok(Changes::Same(change_of(f, &first, 0)));
    }
    let found = changes_by_step(alloc, f, scalars, times)?;
    Ok(Changes::Steps(found))
}

fn changed(change: Change, value: Option<Value>) -> Option<Value>
    ensures { result ≡ onto value (changed change) }
{
    change.value(value?)
}

/// The values, each changed in its place.
fn changed_values(changes: &Changes, mut values: Vec<Option<Value>>) -> Vec<Option<Value>>
    ensures { (k : ℕ) → value_in result.items k ≡ onto (value_in values.items k) (changed (change_at changes.now k)) }
{
    for i in 0..values.len() {
        let value = values[i];
        values[i] = changed(changes.at(i), value);
    }
    values
}

/// A column without the metric name, each of its values changed in its place.
fn changed_column(changes: &Changes, column: Column) -> Result<Column, OutOfMemory>
    ensures labels { IfOk result (λ c. c.labels ≡ without_name column.labels) }
    ensures values { IfOk result (λ c. (k : ℕ) → value_in c.values k ≡ onto (value_in column.values k) (changed (change_at changes.now k))) }
{
    let Column { labels, values } = column;
    Ok(Column {
        labels: labels.without_name()?,
        values: changed_values(changes, values),
    })
}

fn changed_columns(
    alloc: Global,
    changes: &Changes,
    columns: Vec<Column>,
) -> Result<Vec<Column>, OutOfMemory>
    ensures { IfOk result (λ v. (k : ℕ) → cell_at v.items k ≡ each_value (changed (change_at changes.now k)) (cell_at columns.items k)) }
{
    let mut found = Vec::with_capacity(alloc, columns.len())?;
    let rest = columns.into_iter();
    for column in rest {
        found.push(changed_column(changes, column)?)?;
    }
    Ok(found)
}

/// A function of each element by itself.
fn each_value(
    alloc: Global,
    f: InstantFn,
    args: Arguments,
    times: &Times,
) -> Result<Node, OutOfMemory>
    requires function { is_each_value f ≡ true }
    requires times { AreTimes times.now }
    ensures value { IfOk result (λ n. (absent : Pairs) (k : ℕ) → k < times.now.len → node_at n k ≡ given f absent (time_at times.now k) args k) }
    ensures kind { IfOk result (λ n. is_text n ≡ false) }
{
    let Arguments {
        bads,
        columns,
        scalars,
        texts: _,
    } = args;
    let changes = changes_of(alloc, f, &scalars, times)?;
    let columns = changed_columns(alloc, &changes, columns)?;
    let found = normalised(alloc, columns, bads, times.len)?;
    Ok(Node::Vector(found))
}

/// The value of the only element of a step. None where there is none or more than one.
fn only_value(columns: &[Column], step: u32) -> Option<Value>
    ensures { result ≡ only_value (cell_at columns.now step) }
{
    let mut found = None;
    for column in columns {
        if let Some(value) = value_of(&column.values, step) {
            if let Some(_) = found {
                return None;
            }
            found = Some(value);
        }
    }
    found
}

fn only_values(
    alloc: Global,
    columns: &[Column],
    len: u32,
) -> Result<Vec<Option<Value>>, OutOfMemory>
    ensures { IfOk result (λ v. v.items ≡ below (λ k. only_value (cell_at columns.now k)) len) }
{
    let mut found = Vec::new(alloc);
    for step in 0..len {
        found.push(only_value(columns, step))?;
    }
    Ok(found)
}

/// `scalar`: at each step the value of the only element, if there is exactly one.
fn scalar(alloc: Global, args: Arguments, len: u32) -> Result<Node, OutOfMemory>
    ensures value { IfOk result (λ n. (absent : Pairs) (t : ℤ) (k : ℕ) → k < len → node_at n k ≡ given InstantFn.Scalar absent t args k) }
    ensures kind { IfOk result (λ n. is_text n ≡ false) }
{
    let values = only_values(alloc, &args.columns, len)?;
    Ok(Node::Scalar(Scalars {
        values,
        bads: args.bads,
    }))
}

fn times_in_seconds(alloc: Global, times: &Times) -> Result<Vec<Option<Value>>, OutOfMemory>
    requires { AreTimes times.now }
    ensures { IfOk result (λ v. v.items ≡ below (λ k. Some (seconds (time_at times.now k))) times.now.len) }
{
    let mut found = Vec::new(alloc);
    for step in 0..times.len {
        found.push(value_by(InstantFn::Timestamp, &[], times.at(step), Value::new(0)))?;
    }
    Ok(found)
}

/// `time`: at each step its time in seconds.
fn time(alloc: Global, args: Arguments, times: &Times) -> Result<Node, OutOfMemory>
    requires { AreTimes times.now }
    ensures value { IfOk result (λ n. (absent : Pairs) (k : ℕ) → k < times.now.len → node_at n k ≡ given InstantFn.Time absent (time_at times.now k) args k) }
    ensures kind { IfOk result (λ n. is_text n ≡ false) }
{
    let values = times_in_seconds(alloc, times)?;
    Ok(Node::Scalar(Scalars {
        values,
        bads: args.bads,
    }))
}

/// A vector of at most one element a step.
fn one_column(
    alloc: Global,
    labels: Labels,
    values: Vec<Option<Value>>,
    bads: Vec<Option<ErrorKind>>,
) -> Result<StepCells, OutOfMemory>
    ensures { IfOk result (λ s. (k : ℕ) → step_at s k ≡ unless_bad (bad_in bads.items k) (Good (element labels (value_in values.items k)))) }
{
    let mut columns = Vec::new(alloc);
    columns.push(Column { labels, values })?;
    Ok(StepCells { columns, bads })
}

/// The first scalar. Without one, no step has a value.
fn first_scalar(alloc: Global, scalars: Vec<Vec<Option<Value>>>) -> Vec<Option<Value>>
    ensures { (k : ℕ) → value_in result.items k ≡ first_scalar (scalars_at scalars.items k) }
{
    match scalars.into_iter().next() {
        Some(values) => values,
        None => Vec::new(alloc),
    }
}

/// `vector`: at each step the value of the scalar as an element without labels.
fn vector(alloc: Global, args: Arguments) -> Result<Node, OutOfMemory>
    ensures value { IfOk result (λ n. (absent : Pairs) (t : ℤ) (k : ℕ) → node_at n k ≡ given InstantFn.Vector absent t args k) }
    ensures kind { IfOk result (λ n. is_text n ≡ false) }
{
    let values = first_scalar(alloc, args.scalars);
    let found = one_column(alloc, no_labels(alloc)?, values, args.bads)?;
    Ok(Node::Vector(found))
}

/// 1 where no column has a value.
fn absent_value(columns: &[Column], step: u32) -> Option<Value>
    ensures { result ≡ absent_value (cell_at columns.now step) }
{
    for column in columns {
        if let Some(_) = value_of(&column.values, step) {
            return None;
        }
    }
    Some(Value::new(1_000_000))
}

fn absent_values(
    alloc: Global,
    columns: &[Column],
    len: u32,
) -> Result<Vec<Option<Value>>, OutOfMemory>
    ensures { IfOk result (λ v. v.items ≡ below (λ k. absent_value (cell_at columns.now k)) len) }
{
    let mut found = Vec::new(alloc);
    for step in 0..len {
        found.push(absent_value(columns, step))?;
    }
    Ok(found)
}

/// `absent`: at each step these labels with 1 where there is no element.
fn absent(alloc: Global, labels: Labels, args: Arguments, len: u32) -> Result<Node, OutOfMemory>
    ensures value { IfOk result (λ n. (t : ℤ) (k : ℕ) → k < len → node_at n k ≡ given InstantFn.Absent labels t args k) }
    ensures kind { IfOk result (λ n. is_text n ≡ false) }
{
    let values = absent_values(alloc, &args.columns, len)?;
    let found = one_column(alloc, labels, values, args.bads)?;
    Ok(Node::Vector(found))
}

fn with_text<'a>(patterns: &'a [Pattern], text: &str) -> Option<&'a Pattern>
    requires { list_any (λ p. bytes_eq p text.now) patterns.now ≡ true }
    ensures { option_copied result ≡ Some text.now }
{
    for pattern in patterns {
        if pattern.as_str() == text {
            return Some(pattern);
        }
    }
    unreachable!()
}

/// The pattern of `label_replace`, its fourth text.
fn pattern_of<'a>(f: InstantFn, texts: &[Text], patterns: &'a [Pattern]) -> Option<&'a Pattern>
    requires { has_its_pattern f texts.now patterns.now ≡ true }
    ensures { f ≡ InstantFn.LabelReplace → option_copied result ≡ at texts.now 3 }
{
    match (f, texts) {
        (InstantFn::LabelReplace, [_, _, _, pattern, ..]) => with_text(patterns, pattern.as_str()),
        _ => None,
    }
}

fn relabelled_columns(
    alloc: Global,
    mut relabelling: Relabelling<'_>,
    columns: Vec<Column>,
) -> Result<Vec<Column>, OutOfMemory>
    ensures { IfOk result (λ v. (k : ℕ) → cell_at v.items k ≡ map (λ e. record { labels = relabels relabelling.entry e.labels; value = e.value }) (cell_at columns.items k)) }
{
    let mut found = Vec::with_capacity(alloc, columns.len())?;
    let rest = columns.into_iter();
    for column in rest {
        found.push(Column {
            labels: relabelling.labels(&column.labels)?,
            values: column.values,
        })?;
    }
    Ok(found)
}

/// `label_replace` and `label_join`: other labels for each column.
fn relabelled(
    alloc: Global,
    f: InstantFn,
    patterns: &[Pattern],
    args: Arguments,
    len: u32,
) -> Result<Node, OutOfMemory>
    requires function { is_relabelling f ≡ true }
    requires target { has_lawful_target f args.texts.items ≡ true }
    requires pattern { has_its_pattern f args.texts.items patterns.now ≡ true }
    ensures value { IfOk result (λ n. (absent : Pairs) (t : ℤ) (k : ℕ) → k < len → node_at n k ≡ given f absent t args k) }
    ensures kind { IfOk result (λ n. is_text n ≡ false) }
{
    let Arguments {
        bads,
        columns,
        scalars: _,
        texts,
    } = args;
    let relabelling = Relabelling::of(alloc, f, &texts, pattern_of(f, &texts, patterns))?;
    let columns = relabelled_columns(alloc, relabelling, columns)?;
    let found = normalised(alloc, columns, bads, len)?;
    Ok(Node::Vector(found))
}

fn of_arguments(
    alloc: Global,
    f: InstantFn,
    labels: Labels,
    patterns: &[Pattern],
    args: Arguments,
    times: &Times,
) -> Result<Node, OutOfMemory>
    requires target { has_lawful_target f args.texts.items ≡ true }
    requires pattern { has_its_pattern f args.texts.items patterns.now ≡ true }
    requires times { AreTimes times.now }
    ensures value { IfOk result (λ n. (k : ℕ) → k < times.now.len → node_at n k ≡ given f labels (time_at times.now k) args k) }
    ensures kind { IfOk result (λ n. is_text n ≡ false) }
{
    match f {
        InstantFn::Absent => absent(alloc, labels, args, times.len),
        InstantFn::Scalar => scalar(alloc, args, times.len),
        InstantFn::Vector => vector(alloc, args),
        InstantFn::Time => time(alloc, args, times),
        InstantFn::LabelReplace | InstantFn::LabelJoin => {
            relabelled(alloc, f, patterns, args, times.len)
        }
        InstantFn::Abs
        | InstantFn::Ceil
        | InstantFn::Floor
        | InstantFn::Sgn
        | InstantFn::Round
        | InstantFn::Clamp
        | InstantFn::ClampMin
        | InstantFn::ClampMax
        | InstantFn::Timestamp => each_value(alloc, f, args, times),
    }
}

/// An instant function over a run: what it gives of its arguments at each step, or the first error that one of them has there.
/// `absent` are the labels that the function `absent` gives, and among `patterns` `label_replace` finds its own. A column's
/// labels are made once for the run, and its values are changed in place. `timestamp` gives the step's time to each element.
/// Prometheus, Query functions.
pub(crate) fn instant(
    alloc: Global,
    f: InstantFn,
    absent: Labels,
    patterns: &[Pattern],
    args: Vec<Node>,
    times: &Times,
) -> Result<Node, OutOfMemory>
    requires target { has_lawful_target f (texts_in args.items) ≡ true }
    requires patterns { has_its_pattern f (texts_in args.items) patterns.now ≡ true }
    requires times { AreTimes times.now }
    ensures value { IfOk result (λ n. (k : ℕ) → k < times.now.len → node_at n k ≡ instant_call f (beside_at absent (time_at times.now k) (nodes_at args.items k)) (nodes_at args.items k)) }
    ensures kind { IfOk result (λ n. is_text n ≡ false) }
{
    let args = arguments_of(alloc, args, times.len)?;
    let found = of_arguments(alloc, f, absent, patterns, args, times)?;
    Ok(found)
}
