//! Trees with their heights, built as they are read. Where a tree would be of more than 64 levels none is held, so no tree
//! that is taller is ever built or let go.

ghost use Rattle.std.specs.Prelude.{◌≡◌, IfOk, []};
ghost use Rattle.pf_model.specs.Trees as tree;
ghost use Rattle.pf_parse.specs.Held.{held_aggregate, held_binary, held_call, held_target, held_unary, mods_read, over, over_by, ranged, with_argument, with_mods};

use pf_base::{OutOfMemory, Text, Value};
use pf_model::{AggOp, At, BinaryOp, Expr, Function, Grouping, Matching, Mods, Selector};
use std::alloc::Global;
use std::marker::Model;

/// The most levels of a tree.
const MOST_LEVELS: u64 = 64;

/// A tree and its height, at most 64 levels.
#[derive(Drop)]
pub struct Measured {
    pub expr: Box<Expr>,
    pub levels: u64,
}

impl Model for Measured {
    ghost use Rattle.std.specs.Prelude.{◌≡◌, ◌≤◌};
    ghost use Rattle.pf_model.proofs.TreeCode.{coded_tree};
    ghost use Rattle.pf_model.specs.Trees.{Tree, height, tree_of};

    ghost Value = { Tree };

    ghost coded = { coded_tree };

    ghost view = { λ m. tree_of m.expr.value };

    ghost invariant = { λ m. (m.levels ≡ height (tree_of m.expr.value)) × (m.levels ≤ 64) };
}

/// Arguments and the height of the tallest.
#[derive(Drop)]
pub struct Arguments {
    pub exprs: Vec<Expr>,
    pub levels: u64,
}

impl Model for Arguments {
    ghost use Rattle.std.specs.Prelude.{◌≡◌, ◌≤◌, List, map};
    ghost use Rattle.std.specs.Coded.{coded_list};
    ghost use Rattle.pf_model.proofs.TreeCode.{coded_tree};
    ghost use Rattle.pf_model.specs.Trees.{Tree, heights, tree_of, trees_of};

    ghost Value = { List Tree };

    ghost coded = { coded_list coded_tree };

    ghost view = { λ a. map tree_of a.exprs.items };

    ghost invariant = { λ a. (a.levels ≡ heights (trees_of (map tree_of a.exprs.items))) × (a.levels ≤ 64) };
}

/// What modifiers stand behind. Milliseconds.
#[derive(Drop)]
pub enum Target {
    Selector {
        selector: Selector,
        range: Option<u64>,
    },
    Subquery {
        arg: Measured,
        range: u64,
        resolution: Option<u64>,
    },
}

/// The modifiers that were read, each none where its time is past the greatest.
#[derive(Clone, Copy)]
pub struct ModifiersRead {
    pub offset: Option<Option<i64>>,
    pub at: Option<Option<At>>,
}

/// No modifiers.
pub const NOTHING_READ: ModifiersRead = ModifiersRead {
    offset: None,
    at: None,
};

pub fn number(alloc: Global, value: Value) -> Result<Measured, OutOfMemory>
    ensures { IfOk result (λ m. m ≡ tree.number value) }
{
    Ok(Measured {
        expr: Box::new(alloc, Expr::Number { value })?,
        levels: 1,
    })
}

pub fn text(alloc: Global, text: Text) -> Result<Measured, OutOfMemory>
    ensures { IfOk result (λ m. m ≡ tree.text text) }
{
    Ok(Measured {
        expr: Box::new(alloc, Expr::Text { text })?,
        levels: 1,
    })
}

pub fn unary(
    alloc: Global,
    minus: bool,
    arg: Option<Measured>,
) -> Result<Option<Measured>, OutOfMemory>
    ensures { IfOk result (λ r. r ≡ held_unary minus arg) }
{
    let Some(arg) = arg else {
        return Ok(None);
    };
    if arg.levels >= MOST_LEVELS {
        return Ok(None);
    }
    Ok(Some(Measured {
        levels: arg.levels + 1,
        expr: Box::new(
            alloc,
            Expr::Unary {
                minus,
                arg: arg.expr,
            },
        )?,
    }))
}

pub fn binary(
    alloc: Global,
    op: BinaryOp,
    matching: Matching,
    left: Option<Measured>,
    right: Option<Measured>,
) -> Result<Option<Measured>, OutOfMemory>
    ensures { IfOk result (λ r. r ≡ held_binary op matching left right) }
{
    let Some(left) = left else {
        return Ok(None);
    };
    let Some(right) = right else {
        return Ok(None);
    };
    let levels = left.levels.max(right.levels);
    if levels >= MOST_LEVELS {
        return Ok(None);
    }
    Ok(Some(Measured {
        levels: levels + 1,
        expr: Box::new(
            alloc,
            Expr::Binary {
                op,
                matching,
                left: left.expr,
                right: right.expr,
            },
        )?,
    }))
}

pub fn no_arguments(alloc: Global) -> Arguments
    ensures { result ≡ [] }
{
    Arguments {
        exprs: Vec::new(alloc),
        levels: 0,
    }
}

/// Arguments with another behind them.
#[tactic(auto, using(crate::proofs::Heights::expr_heights))]
pub fn with_argument(
    args: Option<Arguments>,
    arg: Option<Measured>,
) -> Result<Option<Arguments>, OutOfMemory>
    ensures { IfOk result (λ r. r ≡ with_argument args arg) }
{
    let Some(args) = args else {
        return Ok(None);
    };
    let Some(arg) = arg else {
        return Ok(None);
    };
    let levels = args.levels.max(arg.levels);
    let mut exprs = args.exprs;
    exprs.push(Box::into_inner(arg.expr))?;
    Ok(Some(Arguments { exprs, levels }))
}

pub fn call(
    alloc: Global,
    function: Option<Function>,
    args: Option<Arguments>,
) -> Result<Option<Measured>, OutOfMemory>
    ensures { IfOk result (λ r. r ≡ held_call function args) }
{
    let Some(function) = function else {
        return Ok(None);
    };
    let Some(args) = args else {
        return Ok(None);
    };
    if args.levels >= MOST_LEVELS {
        return Ok(None);
    }
    Ok(Some(Measured {
        levels: args.levels + 1,
        expr: Box::new(
            alloc,
            Expr::Call {
                function,
                args: args.exprs,
            },
        )?,
    }))
}

pub fn aggregate(
    alloc: Global,
    op: AggOp,
    grouping: Grouping,
    args: Option<Arguments>,
) -> Result<Option<Measured>, OutOfMemory>
    ensures { IfOk result (λ r. r ≡ held_aggregate op grouping args) }
{
    let Some(args) = args else {
        return Ok(None);
    };
    if args.levels >= MOST_LEVELS {
        return Ok(None);
    }
    Ok(Some(Measured {
        levels: args.levels + 1,
        expr: Box::new(
            alloc,
            Expr::Aggregate {
                op,
                grouping,
                args: args.exprs,
            },
        )?,
    }))
}

fn mods_read(read: ModifiersRead) -> Option<Mods>
    ensures { result ≡ mods_read read }
{
    let offset = match read.offset {
        None => 0,
        Some(offset) => offset?,
    };
    let at = match read.at {
        None => None,
        Some(at) => Some(at?),
    };
    Some(Mods { at, offset })
}

fn with_mods(alloc: Global, mods: Mods, target: Target) -> Result<Option<Measured>, OutOfMemory>
    ensures { IfOk result (λ r. r ≡ with_mods mods target) }
{
    match target {
        Target::Selector { selector, range } => Ok(Some(Measured {
            levels: 1,
            expr: Box::new(
                alloc,
                Expr::Select {
                    selector,
                    range,
                    mods,
                },
            )?,
        })),
        Target::Subquery {
            arg,
            range,
            resolution,
        } => {
            if arg.levels >= MOST_LEVELS {
                return Ok(None);
            }
            Ok(Some(Measured {
                levels: arg.levels + 1,
                expr: Box::new(
                    alloc,
                    Expr::Subquery {
                        arg: arg.expr,
                        range,
                        resolution,
                        mods,
                    },
                )?,
            }))
        }
    }
}

/// A selector or a subquery with its modifiers.
pub fn modified(
    alloc: Global,
    target: Option<Target>,
    read: ModifiersRead,
) -> Result<Option<Measured>, OutOfMemory>
    ensures { IfOk result (λ r. r ≡ held_target target read) }
{
    let Some(mods) = mods_read(read) else {
        return Ok(None);
    };
    let Some(target) = target else {
        return Ok(None);
    };
    with_mods(alloc, mods, target)
}

/// A selector with a range.
pub fn ranged(selector: Selector, range: Option<u64>) -> Option<Target>
    ensures { result ≡ ranged selector range }
{
    let range = range?;
    Some(Target::Selector {
        selector,
        range: Some(range),
    })
}

/// A subquery without a resolution.
pub fn over(arg: Option<Measured>, range: Option<u64>) -> Option<Target>
    ensures { result ≡ over arg range }
{
    Some(Target::Subquery {
        arg: arg?,
        range: range?,
        resolution: None,
    })
}

/// A subquery with a resolution.
pub fn over_by(arg: Option<Measured>, range: Option<u64>, resolution: Option<u64>) -> Option<Target>
    ensures { result ≡ over_by arg range resolution }
{
    let resolution = resolution?;
    Some(Target::Subquery {
        arg: arg?,
        range: range?,
        resolution: Some(resolution),
    })
}
