//! Plain expressions over the series of a shard. Such an expression has one selector, and each of its elements is found from one
//! series.

ghost use Rattle.std.specs.Prelude.{◌≡◌, ◌<◌, ◌≤◌, ◌+◌, ◌*◌, ◌∷◌, ℕ, ℤ, pos, true, false, [], List, length, map, drop, slice_index_or, IfOk};
ghost use Rattle.std.specs.List.{All, list_all};
ghost use Rattle.pf_base.specs.declared.plain.Row.{Row};
ghost use Rattle.pf_columns.specs.Steps.{step_at};
ghost use Rattle.pf_base.specs.LabelSets.{is_label_name};
ghost use Rattle.pf_model.specs.Binding.{pattern_of};
ghost use Rattle.pf_model.specs.Built.{is_evaluated, is_lawful_call, is_range};
ghost use Rattle.pf_model.specs.Evaluation.{eval};
ghost use Rattle.pf_model.specs.Legs.{of_shard};
ghost use Rattle.pf_model.specs.Log.{AreApart};
ghost use Rattle.pf_model.specs.Outcomes.{Outcome};
ghost use Rattle.pf_model.specs.Sharding.{are_literals, is_literal, is_plain, is_range_selector};
ghost use Rattle.pf_model.specs.Trees.{binary, call, height, more, none, tree_of, trees_of};
ghost use Rattle.pf_shard.specs.Bound.{shard_ids};
ghost use Rattle.pf_store.specs.Standing.{StandsFor};
ghost use Rattle.pf_selectors.specs.Times.{AreTimes, time_at};
ghost use Rattle.pf_eval.specs.Bound.{AreThere, HasRoom};
ghost use Rattle.pf_eval.specs.Nodes.{all_meant, is_text, meant, node_at, nodes_at, texts_in};
ghost use Rattle.pf_eval.specs.Plain.{IsPlainAt, is_number, plain_matchers};
ghost use Rattle.pf_eval.specs.Strings.{strings_in};

use crate::bound::{steps_of, times_of};
use crate::called::{called, timed_selector};
use crate::change::signed;
use crate::given::asks_one;
use crate::node::{Node, number};
use crate::operation::operation;
use crate::reading::{over_range, selection, timestamps};
use pf_base::{Grid, OutOfMemory};
use pf_block::Snap;
use pf_columns::StepCells;
use pf_model::{BinaryOp, Expr, Function, InstantFn, Matching, RangeFn};
use pf_selectors::Times;
use std::alloc::Global;

fn is_number(query: &Expr) -> bool
    ensures { result ≡ is_number (tree_of query.now) }
{
    matches!(query, Expr::Number { .. })
}

/// A number, or one sign before a number.
fn is_literal(query: &Expr) -> bool
    ensures { result ≡ is_literal (tree_of query.now) }
{
    match query {
        Expr::Number { .. } => true,
        Expr::Unary { arg, .. } => is_number(arg),
        _ => false,
    }
}

/// What a number, or a number with a sign, is over a run.
fn literal(alloc: Global, query: &Expr, len: u32) -> Result<Node, OutOfMemory>
    requires { is_literal (tree_of query.now) ≡ true }
    ensures kind { IfOk result (λ n. is_text n ≡ false) }
    ensures node { IfOk result (λ n. (samples : List Row) (t : ℤ) (k : ℕ) → k < len → node_at n k ≡ meant samples (tree_of query.now) t) }
{
    match query {
        Expr::Number { value } => {
            let node = number(alloc, *value, len)?;
            Ok(node)
        }
        Expr::Unary { minus, arg } => {
            let operand = literal(alloc, arg, len)?;
            let node = signed(alloc, *minus, operand, len)?;
            Ok(node)
        }
        _ => unreachable!(),
    }
}

/// A node, and those of literals behind it.
fn with_literals(
    alloc: Global,
    first: Node,
    args: &[Expr],
    len: u32,
) -> Result<Vec<Node>, OutOfMemory>
    requires literals { are_literals (trees_of (map tree_of args.now)) ≡ true }
    requires kind { is_text first ≡ false }
    ensures texts { IfOk result (λ v. texts_in v.items ≡ []) }
    ensures nodes { IfOk result (λ v. (samples : List Row) (t : ℤ) (k : ℕ) → k < len
        → nodes_at v.items k ≡ node_at first k ∷ all_meant samples (trees_of (map tree_of args.now)) t) }
{
    let mut nodes = Vec::new(alloc);
    nodes.push(first)?;
    for arg in args {
        nodes.push(literal(alloc, arg, len)?)?;
    }
    Ok(nodes)
}

/// A function of a range selector, whose argument is this selector.
fn over_selector(
    alloc: Global,
    f: RangeFn,
    arg: &Expr,
    snap: &Snap,
    ids: &[u32],
    times: &Times,
) -> Result<Node, OutOfMemory>
    requires selector { is_range_selector (more (tree_of arg.now) none) ≡ true }
    requires evaluated { is_range (tree_of arg.now) ≡ true }
    requires inside { All (λ id. id < length snap.now.labels) ids.now }
    requires room { HasRoom 1 times.now }
    ensures kind { IfOk result (λ n. is_text n ≡ false) }
    ensures node { IfOk result (λ n. (samples : List Row) (shard shards : ℕ) → StandsFor snap.now samples → AreApart samples
        → ids.now ≡ shard_ids shard shards (plain_matchers (tree_of arg.now)) snap.now.labels → (k : ℕ) → k < times.now.len
        → node_at n k ≡ meant (of_shard shard shards samples) (call (Function.Range f) (more (tree_of arg.now) none)) (time_at times.now k)) }
{
    let Expr::Select {
        selector,
        range: Some(range),
        mods,
    } = arg
    else {
        unreachable!()
    };
    let node = over_range(alloc, f, selector, *range, snap, ids, *mods, times)?;
    Ok(node)
}

/// What is known of a plain right operand, beside a literal left one.
fn asks_plain_right(
    query: &Expr,
    op: BinaryOp,
    matching: &Matching,
    left: &Expr,
    right: &Expr,
    times: &Times,
)
    requires tree { tree_of query.now ≡ binary op matching.now (tree_of left.now) (tree_of right.now) }
    requires plain { IsPlainAt (tree_of query.now) times.now }
    requires literal { is_literal (tree_of left.now) ≡ true }
    ensures plain { IsPlainAt (tree_of right.now) times.now }
    ensures named { list_all is_label_name matching.now.include ≡ true }
    ensures matchers { plain_matchers (tree_of query.now) ≡ plain_matchers (tree_of right.now) }
{}

/// What is known of a plain left operand, and that the right one is a literal.
fn asks_plain_left(
    query: &Expr,
    op: BinaryOp,
    matching: &Matching,
    left: &Expr,
    right: &Expr,
    times: &Times,
)
    requires tree { tree_of query.now ≡ binary op matching.now (tree_of left.now) (tree_of right.now) }
    requires plain { IsPlainAt (tree_of query.now) times.now }
    requires literal { is_literal (tree_of left.now) ≡ false }
    ensures plain { IsPlainAt (tree_of left.now) times.now }
    ensures literal { is_literal (tree_of right.now) ≡ true }
    ensures named { list_all is_label_name matching.now.include ≡ true }
    ensures matchers { plain_matchers (tree_of query.now) ≡ plain_matchers (tree_of left.now) }
{}

/// What is known of the range selector that a plain call is of.
fn asks_selector(query: &Expr, f: RangeFn, args: &[Expr], arg: &Expr, times: &Times)
    requires tree { tree_of query.now ≡ call (Function.Range f) (trees_of (map tree_of args.now)) }
    requires first { arg.now ≡ slice_index_or args.now 0 arg.now }
    requires plain { IsPlainAt (tree_of query.now) times.now }
    ensures tree { tree_of query.now ≡ call (Function.Range f) (more (tree_of arg.now) none) }
    ensures selector { is_range_selector (more (tree_of arg.now) none) ≡ true }
    ensures evaluated { is_range (tree_of arg.now) ≡ true }
    ensures room { HasRoom 1 times.now }
    ensures matchers { plain_matchers (tree_of query.now) ≡ plain_matchers (tree_of arg.now) }
{}

/// What is known of a plain call of a function of elements.
fn asks_elements(query: &Expr, f: InstantFn, args: &[Expr], times: &Times)
    requires tree { tree_of query.now ≡ call (Function.Instant f) (trees_of (map tree_of args.now)) }
    requires plain { IsPlainAt (tree_of query.now) times.now }
    ensures tree { tree_of query.now ≡ call (Function.Instant f) (trees_of (map tree_of args.now)) }
    ensures some { 0 < length args.now }
    ensures lawful { is_lawful_call f (trees_of (map tree_of args.now)) ≡ true }
    ensures times { AreTimes times.now }
{}

/// What is known of its first argument, and of the literals behind it.
fn asks_behind(query: &Expr, f: InstantFn, args: &[Expr], arg: &Expr, rest: &[Expr], times: &Times)
    requires tree { tree_of query.now ≡ call (Function.Instant f) (trees_of (map tree_of args.now)) }
    requires first { arg.now ≡ slice_index_or args.now 0 arg.now }
    requires rest { rest.now ≡ drop 1 args.now }
    requires plain { IsPlainAt (tree_of query.now) times.now }
    ensures plain { IsPlainAt (tree_of arg.now) times.now }
    ensures literals { are_literals (trees_of (map tree_of rest.now)) ≡ true }
    ensures strings { strings_in (trees_of (map tree_of args.now)) ≡ [] }
    ensures patterns { AreThere (pattern_of (Function.Instant f) (trees_of (map tree_of args.now))) [] }
    ensures matchers { plain_matchers (tree_of query.now) ≡ plain_matchers (tree_of arg.now) }
    ensures outcomes { (samples : List Row) (t : ℤ) (o : Outcome) (os : List Outcome) → o ≡ meant samples (tree_of arg.now) t
        → os ≡ o ∷ all_meant samples (trees_of (map tree_of rest.now)) t → os ≡ all_meant samples (trees_of (map tree_of args.now)) t }
{}

/// The arguments behind the first.
fn behind_first(args: &[Expr]) -> &[Expr]
    requires { 0 < length args.now }
    ensures { result.now ≡ drop 1 args.now }
{
    &args[1..]
}

/// What a plain expression is over a run, where `ids` are the series of a shard that its selector reads: what it is over the
/// samples of that shard. It calls itself as deep as the expression is high.
pub(crate) fn plain_node(
    alloc: Global,
    snap: &Snap,
    query: &Expr,
    ids: &[u32],
    times: &Times,
) -> Result<Node, OutOfMemory>
    requires plain { IsPlainAt (tree_of query.now) times.now }
    requires inside { All (λ id. id < length snap.now.labels) ids.now }
    ensures kind { IfOk result (λ n. is_text n ≡ false) }
    ensures node { IfOk result (λ n. (samples : List Row) (shard shards : ℕ) → StandsFor snap.now samples → AreApart samples
        → ids.now ≡ shard_ids shard shards (plain_matchers (tree_of query.now)) snap.now.labels → (k : ℕ) → k < times.now.len
        → node_at n k ≡ meant (of_shard shard shards samples) (tree_of query.now) (time_at times.now k)) }
{
    match query {
        Expr::Unary { minus, arg } => {
            let operand = plain_node(alloc, snap, arg, ids, times)?;
            let node = signed(alloc, *minus, operand, times.len)?;
            Ok(node)
        }
        Expr::Binary {
            op,
            matching,
            left,
            right,
        } => {
            let left: &Expr = left;
            let right: &Expr = right;
            if is_literal(left) {
                asks_plain_right(query, *op, matching, left, right, times);
                let first = literal(alloc, left, times.len)?;
                let second = plain_node(alloc, snap, right, ids, times)?;
                let node = operation(alloc, *op, matching, first, second, times.len)?;
                return Ok(node);
            }
            asks_plain_left(query, *op, matching, left, right, times);
            let first = plain_node(alloc, snap, left, ids, times)?;
            let second = literal(alloc, right, times.len)?;
            let node = operation(alloc, *op, matching, first, second, times.len)?;
            Ok(node)
        }
        Expr::Call { function, args } => match function {
            Function::Range(f) => {
                asks_one(query, *f, args);
                let arg = &args[0];
                asks_selector(query, *f, args, arg, times);
                let node = over_selector(alloc, *f, arg, snap, ids, times)?;
                Ok(node)
            }
            Function::Instant(f) => {
                let args: &[Expr] = args;
                asks_elements(query, *f, args, times);
                if let Some(arg) = timed_selector(*f, args) {
                    let node = timestamps(alloc, snap, ids, arg.mods, times)?;
                    return Ok(node);
                }
                let arg = &args[0];
                let rest = behind_first(args);
                asks_behind(query, *f, args, arg, rest, times);
                let first = plain_node(alloc, snap, arg, ids, times)?;
                let nodes = with_literals(alloc, first, rest, times.len)?;
                let node = called(alloc, *f, args, nodes, &[], times)?;
                Ok(node)
            }
        },
        Expr::Select { mods, .. } => {
            let node = selection(alloc, snap, ids, *mods, times)?;
            Ok(node)
        }
        Expr::Number { .. } => unreachable!(),
        Expr::Text { .. } => unreachable!(),
        Expr::Aggregate { .. } => unreachable!(),
        Expr::Subquery { .. } => unreachable!(),
    }
}

/// A plain expression over a run, from the series of a shard that its selector reads.
pub(crate) fn plain_steps(
    alloc: Global,
    snap: &Snap,
    query: &Expr,
    ids: &[u32],
    run: &Grid,
) -> Result<StepCells, OutOfMemory>
    requires plain { is_plain (tree_of query.now) ≡ true }
    requires evaluated { is_evaluated (tree_of query.now) ≡ true }
    requires low { height (tree_of query.now) ≤ 64 }
    requires inside { All (λ id. id < length snap.now.labels) ids.now }
    ensures { IfOk result (λ s. (samples : List Row) (shard shards : ℕ) → StandsFor snap.now samples → AreApart samples
        → ids.now ≡ shard_ids shard shards (plain_matchers (tree_of query.now)) snap.now.labels → (k : ℕ) → k < run.now.len
        → step_at s k ≡ eval (of_shard shard shards samples) (tree_of query.now) (pos (run.now.start + k * run.now.step))) }
{
    let times = times_of(run);
    let node = plain_node(alloc, snap, query, ids, &times)?;
    let steps = steps_of(alloc, node)?;
    Ok(steps)
}
