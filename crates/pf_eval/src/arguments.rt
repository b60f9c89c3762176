//! What a call reads of its arguments, split once for all steps.

ghost use Rattle.std.specs.Prelude.{◌≡◌, ◌∷◌, ℕ, [], List, IfOk};
ghost use Rattle.pf_columns.specs.Columns.{AreRising, ColumnData, columns_labels};
ghost use Rattle.pf_eval.specs.Arguments.{AreArguments, IsRising, Splits, vector_or};

use crate::node::{Node, Scalars, first_bads};
use pf_base::{OutOfMemory, Text, Value};
use pf_columns::{Column, StepCells};
use pf_model::ErrorKind;
use std::alloc::Global;

/// What a call reads of its arguments over a run: the first error of each step, the columns of the first vector, and the
/// scalars and the texts in order. `bads` is empty where no step has an error.
#[derive(Drop)]
pub(crate) struct Arguments {
    pub bads: Vec<Option<ErrorKind>>,
    pub columns: Vec<Column>,
    pub scalars: Vec<Vec<Option<Value>>>,
    pub texts: Vec<Text>,
}

/// What is read so far. There may be no vector among the arguments.
#[derive(Drop)]
struct Splitting {
    bads: Vec<Option<ErrorKind>>,
    vector: Option<Vec<Column>>,
    scalars: Vec<Vec<Option<Value>>>,
    texts: Vec<Text>,
}

/// The columns of a vector, unless there was one before.
fn first_vector(vector: Option<Vec<Column>>, columns: Vec<Column>) -> Option<Vec<Column>>
    requires { AreRising (columns_labels columns.items) }
    ensures columns { (cs : List ColumnData) → vector_or result cs ≡ vector_or vector columns.items }
    ensures rising { IsRising vector → IsRising result }
{
    match vector {
        Some(first) => Some(first),
        None => Some(columns),
    }
}

fn with_scalar(
    alloc: Global,
    splitting: Splitting,
    scalar: Scalars,
    len: u32,
) -> Result<Splitting, OutOfMemory>
    ensures { IfOk result (λ s. (all rest : List Node) → Splits len all splitting (Node.Scalar scalar ∷ rest) → Splits len all s rest) }
{
    let Splitting {
        bads,
        vector,
        mut scalars,
        texts,
    } = splitting;
    scalars.push(scalar.values)?;
    let bads = first_bads(alloc, bads, scalar.bads, len)?;
    Ok(Splitting {
        bads,
        vector,
        scalars,
        texts,
    })
}

fn with_vector(
    alloc: Global,
    splitting: Splitting,
    steps: StepCells,
    len: u32,
) -> Result<Splitting, OutOfMemory>
    ensures { IfOk result (λ s. (all rest : List Node) → Splits len all splitting (Node.Vector steps ∷ rest) → Splits len all s rest) }
{
    let Splitting {
        bads,
        vector,
        scalars,
        texts,
    } = splitting;
    let bads = first_bads(alloc, bads, steps.bads, len)?;
    Ok(Splitting {
        bads,
        vector: first_vector(vector, steps.columns),
        scalars,
        texts,
    })
}

fn with_text(splitting: Splitting, text: Text) -> Result<Splitting, OutOfMemory>
    ensures { IfOk result (λ s. (len : ℕ) (all rest : List Node) → Splits len all splitting (Node.Text text ∷ rest) → Splits len all s rest) }
{
    let Splitting {
        bads,
        vector,
        scalars,
        mut texts,
    } = splitting;
    texts.push(text)?;
    Ok(Splitting {
        bads,
        vector,
        scalars,
        texts,
    })
}

/// One argument more.
fn with_node(
    alloc: Global,
    splitting: Splitting,
    node: Node,
    len: u32,
) -> Result<Splitting, OutOfMemory>
    ensures { IfOk result (λ s. (all rest : List Node) → Splits len all splitting (node ∷ rest) → Splits len all s rest) }
{
    match node {
        Node::Scalar(scalar) => with_scalar(alloc, splitting, scalar, len),
        Node::Vector(steps) => with_vector(alloc, splitting, steps, len),
        Node::Text(text) => with_text(splitting, text),
    }
}

fn split(alloc: Global, args: Vec<Node>, len: u32) -> Result<Splitting, OutOfMemory>
    ensures { IfOk result (λ s. Splits len args.items s []) }
{
    let mut splitting = Splitting {
        bads: Vec::new(alloc),
        vector: None,
        scalars: Vec::new(alloc),
        texts: Vec::new(alloc),
    };
    let rest = args.into_iter();
    for arg in rest {
        splitting = with_node(alloc, splitting, arg, len)?;
    }
    Ok(splitting)
}

fn columns_of(alloc: Global, vector: Option<Vec<Column>>) -> Vec<Column>
    ensures { result.items ≡ vector_or vector [] }
{
    match vector {
        Some(columns) => columns,
        None => Vec::new(alloc),
    }
}

/// What a call reads of its arguments over so many steps.
pub(crate) fn arguments_of(
    alloc: Global,
    args: Vec<Node>,
    len: u32,
) -> Result<Arguments, OutOfMemory>
    ensures { IfOk result (λ a. AreArguments len args.items a) }
{
    let found = split(alloc, args, len)?;
    Ok(Arguments {
        bads: found.bads,
        columns: columns_of(alloc, found.vector),
        scalars: found.scalars,
        texts: found.texts,
    })
}
