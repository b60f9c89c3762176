//! The numbers of the aggregations that are evaluated shard by shard.

ghost use Rattle.std.specs.Prelude.{◌≡◌, ◌+◌, ◌*◌, ◌≤◌, ◌<◌, ◌++◌, ◌&&◌, ◌∷◌, [], cond, length, map, nat_le, IfOk, OnOk};
ghost use Rattle.pf_model.specs.Sharding.{is_mergeable, is_one_plain, legs_over, sharded_nodes};
ghost use Rattle.pf_model.specs.Trees.{size, sizes, tree_of, trees_of};
ghost use Rattle.pf_shard.specs.Numbers.{all_numbers_in, numbers_in};

use pf_base::OutOfMemory;
use pf_model::{AggOp, Expr};
use pf_resolve::{is_sharded, shardable};
use std::alloc::Global;

/// The most legs of a query that is evaluated shard by shard.
const MOST_LEGS: usize = 256;

/// The number of the next node. That there is none for want of numbers is told as want of memory.
fn next_to(number: u32) -> Result<u32, OutOfMemory>
    ensures { IfOk result (λ n. n ≡ number + 1) }
{
    match number.checked_add(1) {
        Some(next) => Ok(next),
        None => Err(OutOfMemory),
    }
}

/// Pushes the number of an aggregation, where it is evaluated shard by shard.
fn push_sharded(
    found: &mut Vec<u32>,
    number: u32,
    op: AggOp,
    args: &[Expr],
) -> Result<(), OutOfMemory>
    ensures { OnOk result (found.new.items ≡ found.old.items ++ cond (is_mergeable op && is_one_plain (trees_of (map tree_of args.now))) (number ∷ []) []) }
{
    if is_sharded(op, args) {
        found.push(number)?;
    }
    Ok(())
}

/// Pushes the numbers in some queries, the first of which has this number, and tells that of the node behind them.
#[cycle(numbers)]
fn push_all_numbers(found: &mut Vec<u32>, first: u32, args: &[Expr]) -> Result<u32, OutOfMemory>
    ensures next { IfOk result (λ n. n ≡ first + sizes (trees_of (map tree_of args.now))) }
    ensures numbers { OnOk result (found.new.items ≡ found.old.items ++ all_numbers_in first (trees_of (map tree_of args.now))) }
{
    let mut next = first;
    for arg in args {
        next = push_numbers(found, next, arg)?;
    }
    Ok(next)
}

/// Pushes the numbers in a query, which has this number, and tells that of the node behind it.
#[cycle(numbers)]
fn push_numbers(found: &mut Vec<u32>, number: u32, expr: &Expr) -> Result<u32, OutOfMemory>
    ensures next { IfOk result (λ n. n ≡ number + size (tree_of expr.now)) }
    ensures numbers { OnOk result (found.new.items ≡ found.old.items ++ numbers_in number (tree_of expr.now)) }
{
    let next = next_to(number)?;
    match expr {
        Expr::Number { .. } => Ok(next),
        Expr::Text { .. } => Ok(next),
        Expr::Unary { arg, .. } => push_numbers(found, next, arg),
        Expr::Binary { left, right, .. } => {
            let behind = push_numbers(found, next, left)?;
            push_numbers(found, behind, right)
        }
        Expr::Call { args, .. } => push_all_numbers(found, next, args),
        Expr::Aggregate { op, args, .. } => {
            push_sharded(found, number, *op, args)?;
            push_all_numbers(found, next, args)
        }
        Expr::Select { .. } => Ok(next),
        Expr::Subquery { arg, .. } => push_numbers(found, next, arg),
    }
}

/// The numbers of a query's aggregations that are evaluated shard by shard, in preorder.
#[tactic(auto, using(crate::proofs::Numbering::numbers_are))]
fn sharded_nodes(alloc: Global, expr: &Expr) -> Result<Vec<u32>, OutOfMemory>
    ensures { IfOk result (λ v. v.items ≡ sharded_nodes (tree_of expr.now)) }
{
    let mut found = Vec::new(alloc);
    push_numbers(&mut found, 0, expr)?;
    Ok(found)
}

/// Whether so many nodes have at most 256 legs.
fn are_few(nodes: usize, shards: u32) -> bool
    requires { 0 < shards }
    ensures { result ≡ nat_le (nodes * shards) 256 }
{
    nodes <= MOST_LEGS / shards as usize
}

/// The nodes of a query that are evaluated so many ways.
pub(crate) fn nodes_over(alloc: Global, expr: &Expr, shards: u32) -> Result<Vec<u32>, OutOfMemory>
    requires { 0 < shards }
    ensures { IfOk result (λ v. v.items ≡ legs_over (tree_of expr.now) shards) }
{
    if shards == 1 || !shardable(expr) {
        return Ok(Vec::new(alloc));
    }
    let nodes = sharded_nodes(alloc, expr)?;
    if !are_few(nodes.len(), shards) {
        return Ok(Vec::new(alloc));
    }
    Ok(nodes)
}
