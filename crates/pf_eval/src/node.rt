//! What a node of a query is over a run of steps.

ghost use Rattle.std.specs.Prelude.{◌≡◌, ◌<◌, ℕ, Some, false, [], IfOk};
ghost use Rattle.pf_model.specs.Merging.{below};
ghost use Rattle.pf_model.specs.Outcomes.{scalar};
ghost use Rattle.pf_columns.specs.Columns.{value_in};
ghost use Rattle.pf_columns.specs.Steps.{bad_in};
ghost use Rattle.pf_eval.specs.Nodes.{first_of, is_text, node_at};

use pf_base::{Labels, OutOfMemory, Text, Value};
use pf_columns::StepCells;
use pf_model::ErrorKind;
use std::alloc::Global;

/// A scalar at each step: its value, where it has one, or an error. A step behind the last error has none, and where no
/// step has one, `bads` is empty.
#[derive(Drop)]
pub(crate) struct Scalars {
    pub(crate) values: Vec<Option<Value>>,
    pub(crate) bads: Vec<Option<ErrorKind>>,
}

/// What a node is at each step of a run. A text is the same at each of them.
#[derive(Drop)]
pub(crate) enum Node {
    Scalar(Scalars),
    Vector(StepCells),
    Text(Text),
}

/// A number at each step.
pub(crate) fn number(alloc: Global, value: Value, len: u32) -> Result<Node, OutOfMemory>
    ensures value { IfOk result (λ n. (k : ℕ) → k < len → node_at n k ≡ scalar (Some value)) }
    ensures kind { IfOk result (λ n. is_text n ≡ false) }
{
    let mut values = Vec::with_capacity(alloc, len as usize)?;
    for _ in 0..len {
        values.push(Some(value))?;
    }
    Ok(Node::Scalar(Scalars {
        values,
        bads: Vec::new(alloc),
    }))
}

/// The value of a step, if it has one.
pub(crate) fn value_of(values: &[Option<Value>], step: u32) -> Option<Value>
    ensures { result ≡ value_in values.now step }
{
    match values.get(step as usize) {
        Some(value) => *value,
        None => None,
    }
}

/// The error of a step, if it has one.
pub(crate) fn bad_of(bads: &[Option<ErrorKind>], step: u32) -> Option<ErrorKind>
    ensures { result ≡ bad_in bads.now step }
{
    match bads.get(step as usize) {
        Some(bad) => *bad,
        None => None,
    }
}

fn first_of(a: Option<ErrorKind>, b: Option<ErrorKind>) -> Option<ErrorKind>
    ensures { result ≡ first_of a b }
{
    match a {
        Some(kind) => Some(kind),
        None => b,
    }
}

fn all_first(
    alloc: Global,
    a: &[Option<ErrorKind>],
    b: &[Option<ErrorKind>],
    len: u32,
) -> Result<Vec<Option<ErrorKind>>, OutOfMemory>
    ensures { IfOk result (λ v. v.items ≡ below (λ k. first_of (bad_in a.now k) (bad_in b.now k)) len) }
{
    let mut found = Vec::new(alloc);
    for i in 0..len {
        found.push(first_of(bad_of(a, i), bad_of(b, i)))?;
    }
    Ok(found)
}

/// At each step the first of two errors.
pub(crate) fn first_bads(
    alloc: Global,
    a: Vec<Option<ErrorKind>>,
    b: Vec<Option<ErrorKind>>,
    len: u32,
) -> Result<Vec<Option<ErrorKind>>, OutOfMemory>
    ensures { IfOk result (λ v. (k : ℕ) → k < len → bad_in v.items k ≡ first_of (bad_in a.items k) (bad_in b.items k)) }
{
    if b.is_empty() {
        return Ok(a);
    }
    if a.is_empty() {
        return Ok(b);
    }
    let found = all_first(alloc, &a, &b, len)?;
    Ok(found)
}

/// No labels.
pub(crate) fn no_labels(alloc: Global) -> Result<Labels, OutOfMemory>
    ensures { IfOk result (λ l. l ≡ []) }
{
    Labels::build(alloc, Vec::new(alloc)).map_err(|_| OutOfMemory)
}
