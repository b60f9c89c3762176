//! The evaluation of a query over a run, node by node, from what all shards know of its aggregations that are evaluated shard by
//! shard.

ghost use Rattle.std.specs.Prelude.{◌≡◌, ◌<◌, ◌≤◌, ◌&&◌, ◌∷◌, ℕ, true, false, List, [], drop, length, map, take, IfOk, OnOk};
ghost use Rattle.pf_base.specs.declared.plain.Row.{Row};
ghost use Rattle.pf_model.specs.Binding.{pattern_of};
ghost use Rattle.pf_model.specs.Built.{are_arguments, is_lawful_call};
ghost use Rattle.pf_model.specs.Merging.{merged_cell};
ghost use Rattle.pf_model.specs.Outcomes.{of_cell};
ghost use Rattle.pf_model.specs.Sharding.{is_mergeable, is_one_plain};
ghost use Rattle.pf_model.specs.Trees.{aggregate, binary, call, tree_of, trees_of, unary};
ghost use Rattle.pf_selectors.specs.Times.{AreTimes, time_at};
ghost use Rattle.pf_shard.specs.Groups.{GroupStepsData, groups_at};
ghost use Rattle.pf_eval.specs.Bound.{AreThere};
ghost use Rattle.pf_eval.specs.Merged.{AreMerged, AreOfShards, Holds, IsMerged, all_sharded_in, behind_shards, sharded_in};
ghost use Rattle.pf_eval.specs.Nodes.{all_meant, is_text, meant, node_at, nodes_at, texts_in};
ghost use Rattle.pf_eval.specs.Strings.{strings_in};

use crate::aggregation::aggregation;
use crate::built::string_of;
use crate::called::called;
use crate::change::signed;
use crate::node::{Node, number};
use crate::operation::operation;
use pf_base::OutOfMemory;
use pf_match::Pattern;
use pf_model::{AggOp, BinaryOp, Expr, Function, Grouping, InstantFn, Matching};
use pf_resolve::is_sharded;
use pf_selectors::Times;
use pf_shard::{GroupSteps, merge_shards};
use std::alloc::Global;
use std::collections::VecDeque;

/// Takes the first parts.
fn take_groups(
    alloc: Global,
    parts: &mut VecDeque<GroupSteps>,
    count: u32,
) -> Result<Vec<GroupSteps>, OutOfMemory>
    requires { count ≤ length parts.old.items }
    ensures taken { IfOk result (λ v. v.items ≡ take count parts.old.items) }
    ensures left { OnOk result (parts.new.items ≡ drop count parts.old.items) }
{
    let mut found = Vec::with_capacity(alloc, count as usize)?;
    for _ in 0..count {
        let Some(part) = parts.pop_front() else {
            unreachable!()
        };
        found.push(part)?;
    }
    Ok(found)
}

/// An aggregation from the parts of its shards, which stand in front.
fn from_shards(
    alloc: Global,
    op: AggOp,
    shards: u32,
    parts: &mut VecDeque<GroupSteps>,
    len: u32,
) -> Result<Node, OutOfMemory>
    requires mergeable { is_mergeable op ≡ true }
    requires few { shards ≤ 64 }
    requires parts { shards ≤ length parts.old.items }
    ensures left { OnOk result (parts.new.items ≡ drop shards parts.old.items) }
    ensures kind { IfOk result (λ n. is_text n ≡ false) }
    ensures node { IfOk result (λ n. (k : ℕ) → k < len → node_at n k ≡ of_cell (merged_cell op (map (λ p. groups_at p k) (take shards parts.old.items)))) }
{
    let taken = take_groups(alloc, parts, shards)?;
    let steps = merge_shards(alloc, op, taken, len)?;
    Ok(Node::Vector(steps))
}

/// What the operand of a sign is merged from. This function and those below hand on what is known and do nothing.
fn needs_operand(
    query: &Expr,
    minus: bool,
    arg: &Expr,
    shards: u32,
    parts: &VecDeque<GroupSteps>,
    patterns: &[Pattern],
)
    requires tree { tree_of query.now ≡ unary minus (tree_of arg.now) }
    requires merged { IsMerged (tree_of query.now) shards parts.now.items patterns.now }
    ensures { IsMerged (tree_of arg.now) shards parts.now.items patterns.now }
{}

/// What the operands of an operator are, the right one behind the left one's parts.
fn needs_operands(
    query: &Expr,
    op: BinaryOp,
    matching: &Matching,
    left: &Expr,
    right: &Expr,
    shards: u32,
    parts: &VecDeque<GroupSteps>,
    patterns: &[Pattern],
    times: &Times,
)
    requires tree { tree_of query.now ≡ binary op matching.now (tree_of left.now) (tree_of right.now) }
    requires merged { IsMerged (tree_of query.now) shards parts.now.items patterns.now }
    ensures tree { tree_of query.now ≡ binary op matching.now (tree_of left.now) (tree_of right.now) }
    ensures left { IsMerged (tree_of left.now) shards parts.now.items patterns.now }
    ensures right { (rest : List GroupStepsData) → rest ≡ behind_shards shards (sharded_in (tree_of left.now)) parts.now.items → IsMerged (tree_of right.now) shards rest patterns.now }
    ensures behind { (rest last : List GroupStepsData) → rest ≡ behind_shards shards (sharded_in (tree_of left.now)) parts.now.items
        → last ≡ behind_shards shards (sharded_in (tree_of right.now)) rest → last ≡ behind_shards shards (sharded_in (tree_of query.now)) parts.now.items }
    ensures of_left { (samples : List Row) → AreOfShards samples shards times.now (sharded_in (tree_of query.now)) parts.now.items
        → AreOfShards samples shards times.now (sharded_in (tree_of left.now)) parts.now.items }
    ensures of_right { (samples : List Row) (rest : List GroupStepsData) → rest ≡ behind_shards shards (sharded_in (tree_of left.now)) parts.now.items
        → AreOfShards samples shards times.now (sharded_in (tree_of query.now)) parts.now.items → AreOfShards samples shards times.now (sharded_in (tree_of right.now)) rest }
{}

/// What an aggregation is that is evaluated shard by shard.
fn needs_shards(
    query: &Expr,
    op: AggOp,
    grouping: &Grouping,
    args: &[Expr],
    shards: u32,
    parts: &VecDeque<GroupSteps>,
    patterns: &[Pattern],
    times: &Times,
)
    requires tree { tree_of query.now ≡ aggregate op grouping.now (trees_of (map tree_of args.now)) }
    requires sharded { (is_mergeable op && is_one_plain (trees_of (map tree_of args.now))) ≡ true }
    requires positive { 0 < shards }
    requires merged { IsMerged (tree_of query.now) shards parts.now.items patterns.now }
    ensures mergeable { is_mergeable op ≡ true }
    ensures parts { shards ≤ length parts.now.items }
    ensures behind { (last : List GroupStepsData) → last ≡ drop shards parts.now.items → last ≡ behind_shards shards (sharded_in (tree_of query.now)) parts.now.items }
    ensures value { (samples : List Row) → AreOfShards samples shards times.now (sharded_in (tree_of query.now)) parts.now.items → (k : ℕ) → k < times.now.len
        → of_cell (merged_cell op (map (λ p. groups_at p k) (take shards parts.now.items))) ≡ meant samples (tree_of query.now) (time_at times.now k) }
{}

/// What the arguments of another aggregation are.
fn needs_aggregated(
    query: &Expr,
    op: AggOp,
    grouping: &Grouping,
    args: &[Expr],
    shards: u32,
    parts: &VecDeque<GroupSteps>,
    patterns: &[Pattern],
)
    requires tree { tree_of query.now ≡ aggregate op grouping.now (trees_of (map tree_of args.now)) }
    requires whole { (is_mergeable op && is_one_plain (trees_of (map tree_of args.now))) ≡ false }
    requires merged { IsMerged (tree_of query.now) shards parts.now.items patterns.now }
    ensures tree { tree_of query.now ≡ aggregate op grouping.now (trees_of (map tree_of args.now)) }
    ensures same { sharded_in (tree_of query.now) ≡ all_sharded_in (trees_of (map tree_of args.now)) }
    ensures merged { AreMerged (trees_of (map tree_of args.now)) shards parts.now.items patterns.now }
{}

/// What the arguments of a function of elements are.
fn needs_called(
    query: &Expr,
    f: InstantFn,
    args: &[Expr],
    shards: u32,
    parts: &VecDeque<GroupSteps>,
    patterns: &[Pattern],
)
    requires tree { tree_of query.now ≡ call (Function.Instant f) (trees_of (map tree_of args.now)) }
    requires merged { IsMerged (tree_of query.now) shards parts.now.items patterns.now }
    ensures tree { tree_of query.now ≡ call (Function.Instant f) (trees_of (map tree_of args.now)) }
    ensures same { sharded_in (tree_of query.now) ≡ all_sharded_in (trees_of (map tree_of args.now)) }
    ensures lawful { is_lawful_call f (trees_of (map tree_of args.now)) ≡ true }
    ensures patterns { AreThere (pattern_of (Function.Instant f) (trees_of (map tree_of args.now))) patterns.now }
    ensures merged { AreMerged (trees_of (map tree_of args.now)) shards parts.now.items patterns.now }
{}

/// What a query behind other ones is merged from.
fn needs_rest(query: &Expr, shards: u32, parts: &VecDeque<GroupSteps>, patterns: &[Pattern])
    requires { IsMerged (tree_of query.now) shards parts.now.items patterns.now }
    ensures { IsMerged (tree_of query.now) shards parts.now.items patterns.now }
{}

/// What arguments are over a run.
#[cycle(merged)]
fn merged_nodes(
    alloc: Global,
    patterns: &[Pattern],
    args: &[Expr],
    shards: u32,
    parts: &mut VecDeque<GroupSteps>,
    times: &Times,
) -> Result<Vec<Node>, OutOfMemory>
    requires merged { AreMerged (trees_of (map tree_of args.now)) shards parts.old.items patterns.now }
    requires times { AreTimes times.now }
    requires positive { 0 < shards }
    requires few { shards ≤ 64 }
    ensures left { OnOk result (parts.new.items ≡ behind_shards shards (all_sharded_in (trees_of (map tree_of args.now))) parts.old.items) }
    ensures strings { IfOk result (λ v. texts_in v.items ≡ strings_in (trees_of (map tree_of args.now))) }
    ensures nodes { IfOk result (λ v. (samples : List Row) → AreOfShards samples shards times.now (all_sharded_in (trees_of (map tree_of args.now))) parts.old.items → (k : ℕ) → k < times.now.len
        → nodes_at v.items k ≡ all_meant samples (trees_of (map tree_of args.now)) (time_at times.now k)) }
{
    let mut nodes = Vec::new(alloc);
    for arg in args {
        if let Some(string) = string_of(arg) {
            nodes.push(Node::Text(string.clone()?))?;
            continue;
        }
        needs_rest(arg, shards, parts, patterns);
        let node = merged_node(alloc, patterns, arg, shards, parts, times)?;
        nodes.push(node)?;
    }
    Ok(nodes)
}

/// What a node is over a run. It calls itself as deep as the tree is high.
#[cycle(merged)]
pub(crate) fn merged_node(
    alloc: Global,
    patterns: &[Pattern],
    query: &Expr,
    shards: u32,
    parts: &mut VecDeque<GroupSteps>,
    times: &Times,
) -> Result<Node, OutOfMemory>
    requires merged { IsMerged (tree_of query.now) shards parts.old.items patterns.now }
    requires times { AreTimes times.now }
    requires positive { 0 < shards }
    requires few { shards ≤ 64 }
    ensures left { OnOk result (parts.new.items ≡ behind_shards shards (sharded_in (tree_of query.now)) parts.old.items) }
    ensures kind { IfOk result (λ n. is_text n ≡ false) }
    ensures node { IfOk result (λ n. (samples : List Row) → AreOfShards samples shards times.now (sharded_in (tree_of query.now)) parts.old.items → (k : ℕ) → k < times.now.len
        → node_at n k ≡ meant samples (tree_of query.now) (time_at times.now k)) }
{
    match query {
        Expr::Number { value } => {
            let node = number(alloc, *value, times.len)?;
            Ok(node)
        }
        Expr::Unary { minus, arg } => {
            let operand: &Expr = arg;
            needs_operand(query, *minus, operand, shards, parts, patterns);
            let node = merged_node(alloc, patterns, operand, shards, parts, times)?;
            let node = signed(alloc, *minus, node, times.len)?;
            Ok(node)
        }
        Expr::Binary {
            op,
            matching,
            left,
            right,
        } => {
            let first: &Expr = left;
            let second: &Expr = right;
            needs_operands(
                query, *op, matching, first, second, shards, parts, patterns, times,
            );
            let left = merged_node(alloc, patterns, first, shards, parts, times)?;
            needs_rest(second, shards, parts, patterns);
            let right = merged_node(alloc, patterns, second, shards, parts, times)?;
            let node = operation(alloc, *op, matching, left, right, times.len)?;
            Ok(node)
        }
        Expr::Aggregate { op, grouping, args } => {
            let args: &[Expr] = args;
            if is_sharded(*op, args) {
                needs_shards(query, *op, grouping, args, shards, parts, patterns, times);
                let node = from_shards(alloc, *op, shards, parts, times.len)?;
                return Ok(node);
            }
            needs_aggregated(query, *op, grouping, args, shards, parts, patterns);
            let nodes = merged_nodes(alloc, patterns, args, shards, parts, times)?;
            let node = aggregation(alloc, *op, grouping, nodes, times.len)?;
            Ok(node)
        }
        Expr::Call {
            function: Function::Instant(f),
            args,
        } => {
            let args: &[Expr] = args;
            needs_called(query, *f, args, shards, parts, patterns);
            let nodes = merged_nodes(alloc, patterns, args, shards, parts, times)?;
            let node = called(alloc, *f, args, nodes, patterns, times)?;
            Ok(node)
        }
        _ => unreachable!(),
    }
}
