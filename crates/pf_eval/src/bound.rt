//! The evaluation of a query over its grid, node by node, from the series that its selectors take.

ghost use Rattle.std.specs.Prelude.{◌≡◌, ◌<◌, ◌≤◌, ◌+◌, ◌*◌, ◌∷◌, ℕ, pos, true, false, List, [], length, map, None, Some, IfErr, IfOk};
ghost use Rattle.std.specs.List.{All, list_any};
ghost use Rattle.std.specs.Str.{bytes_eq};
ghost use Rattle.pf_base.specs.declared.plain.Row.{Row};
ghost use Rattle.pf_base.specs.Grids.{points};
ghost use Rattle.pf_model.specs.declared.cell.ErrorKind.{ErrorKind};
ghost use Rattle.pf_model.specs.Binding.{bound_series, patterns_of};
ghost use Rattle.pf_model.specs.Built.{are_arguments, is_evaluated, is_range};
ghost use Rattle.pf_model.specs.Direct.{answered, evaluated, failed, gathered};
ghost use Rattle.pf_model.specs.Evaluation.{eval};
ghost use Rattle.pf_model.specs.Log.{AreApart};
ghost use Rattle.pf_model.specs.Outcomes.{step_cell};
ghost use Rattle.pf_model.specs.Trees.{aggregate, call, height, more, none, number, select, tree_of, trees_of};
ghost use Rattle.pf_store.specs.Standing.{StandsFor};
ghost use Rattle.pf_columns.specs.Ranks.{ranking};
ghost use Rattle.pf_columns.specs.Steps.{step_at};
ghost use Rattle.pf_selectors.specs.Times.{time_at};
ghost use Rattle.pf_eval.specs.Bound.{AreGiven, Begins, HasRoom, IsGiven, all_series_in, behind, series_in};
ghost use Rattle.pf_eval.specs.Nodes.{all_meant, is_text, meant, node_at, nodes_at, texts_in};
ghost use Rattle.pf_eval.specs.Strings.{strings_in};

use crate::aggregation::aggregation;
use crate::built::{resolution_or_minute, string_of};
use crate::called::{called, timed_selector};
use crate::change::signed;
use crate::given::{
    asks_aggregated, asks_argument, asks_called, asks_inner, asks_left, asks_one, asks_operand,
    asks_range, asks_right, asks_root, asks_subquery,
};
use crate::node::{Node, no_labels, number};
use crate::operation::operation;
use crate::ranked::{RankedSelector, ranked_selection, ranked_selector};
use crate::reading::{over_range, selection, timestamps};
use crate::subquery::{inner_run, over_subquery};
use pf_base::{Grid, OutOfMemory};
use pf_block::Snap;
use pf_columns::{Column, StepCells};
use pf_match::Pattern;
use pf_matrix::Matrix;
use pf_model::{ErrorKind, Expr, Function, Grouping, InstantFn, Mods, RangeFn, Selector};
use pf_selectors::Times;
use std::alloc::Global;

/// Why a query has no matrix.
#[derive(Clone, Copy)]
pub enum EvalError {
    /// The first step that has an error, by its time in milliseconds.
    Execution { step: u64, kind: ErrorKind },
    OutOfMemory,
}

impl From<OutOfMemory> for EvalError {
    ghost use Rattle.pf_eval.specs.declared.bound.EvalError.{EvalError};

    ghost from_gives = { λ _ e. e ≡ EvalError.OutOfMemory };

    fn from(_error: OutOfMemory) -> EvalError {
        EvalError::OutOfMemory
    }
}

/// What a node is, and the lists of series that are left for the nodes behind it.
#[derive(Drop)]
struct Found<'a> {
    node: Node,
    rest: &'a [Vec<u32>],
}

/// The same of the arguments of a node.
#[derive(Drop)]
struct AllFound<'a> {
    nodes: Vec<Node>,
    rest: &'a [Vec<u32>],
}

/// The first list of series, and those behind it.
#[derive(Drop)]
struct Taken<'a> {
    ids: &'a [u32],
    rest: &'a [Vec<u32>],
}

fn take_first<'a>(series: &'a [Vec<u32>]) -> Taken<'a>
    requires { 0 < length series.now }
    ensures { map (λ v. v.items) series.now ≡ result.ids.now ∷ map (λ v. v.items) result.rest.now }
{
    let Some((ids, rest)) = series.split_first() else {
        unreachable!()
    };
    Taken { ids, rest }
}

/// What an instant selector is.
fn selected<'a>(
    alloc: Global,
    query: &Expr,
    selector: &Selector,
    mods: Mods,
    snap: &Snap,
    series: &'a [Vec<u32>],
    times: &Times,
) -> Result<Found<'a>, OutOfMemory>
    requires tree { tree_of query.now ≡ select selector.now None mods }
    requires evaluated { is_evaluated (tree_of query.now) ≡ true }
    requires bound { Begins (series_in (tree_of query.now) snap.now.labels) (map (λ v. v.items) series.now) }
    requires room { HasRoom (height (tree_of query.now)) times.now }
    ensures rest { IfOk result (λ f. map (λ v. v.items) f.rest.now ≡ behind (series_in (tree_of query.now) snap.now.labels) (map (λ v. v.items) series.now)) }
    ensures kind { IfOk result (λ f. is_text f.node ≡ false) }
    ensures node { IfOk result (λ f. (samples : List Row) → StandsFor snap.now samples → AreApart samples → (k : ℕ) → k < times.now.len
        → node_at f.node k ≡ meant samples (tree_of query.now) (time_at times.now k)) }
{
    let list = take_first(series);
    let node = selection(alloc, snap, list.ids, mods, times)?;
    Ok(Found {
        node,
        rest: list.rest,
    })
}

/// What a function of a range selector is.
fn ranged<'a>(
    alloc: Global,
    f: RangeFn,
    query: &Expr,
    selector: &Selector,
    range: u64,
    mods: Mods,
    snap: &Snap,
    series: &'a [Vec<u32>],
    times: &Times,
) -> Result<Found<'a>, OutOfMemory>
    requires tree { tree_of query.now ≡ select selector.now (Some range) mods }
    requires evaluated { is_range (tree_of query.now) ≡ true }
    requires bound { Begins (series_in (tree_of query.now) snap.now.labels) (map (λ v. v.items) series.now) }
    requires room { HasRoom (height (tree_of query.now)) times.now }
    ensures rest { IfOk result (λ f. map (λ v. v.items) f.rest.now ≡ behind (series_in (tree_of query.now) snap.now.labels) (map (λ v. v.items) series.now)) }
    ensures kind { IfOk result (λ f. is_text f.node ≡ false) }
    ensures node { IfOk result (λ found. (samples : List Row) → StandsFor snap.now samples → AreApart samples → (k : ℕ) → k < times.now.len
        → node_at found.node k ≡ meant samples (call (Function.Range f) (more (tree_of query.now) none)) (time_at times.now k)) }
{
    let list = take_first(series);
    let node = over_range(alloc, f, selector, range, snap, list.ids, mods, times)?;
    Ok(Found {
        node,
        rest: list.rest,
    })
}

/// What `timestamp` of an instant selector is.
fn timed<'a>(
    alloc: Global,
    query: &Expr,
    selector: &Selector,
    mods: Mods,
    snap: &Snap,
    series: &'a [Vec<u32>],
    times: &Times,
) -> Result<Found<'a>, OutOfMemory>
    requires tree { tree_of query.now ≡ call (Function.Instant InstantFn.Timestamp) (more (select selector.now None mods) none) }
    requires evaluated { is_evaluated (tree_of query.now) ≡ true }
    requires bound { Begins (series_in (tree_of query.now) snap.now.labels) (map (λ v. v.items) series.now) }
    requires room { HasRoom (height (tree_of query.now)) times.now }
    ensures rest { IfOk result (λ f. map (λ v. v.items) f.rest.now ≡ behind (series_in (tree_of query.now) snap.now.labels) (map (λ v. v.items) series.now)) }
    ensures kind { IfOk result (λ f. is_text f.node ≡ false) }
    ensures node { IfOk result (λ f. (samples : List Row) → StandsFor snap.now samples → AreApart samples → (k : ℕ) → k < times.now.len
        → node_at f.node k ≡ meant samples (tree_of query.now) (time_at times.now k)) }
{
    let list = take_first(series);
    let node = timestamps(alloc, snap, list.ids, mods, times)?;
    Ok(Found {
        node,
        rest: list.rest,
    })
}

/// What `topk` or `bottomk` of an instant selector is.
fn ranked<'a>(
    alloc: Global,
    query: &Expr,
    asked: RankedSelector,
    grouping: &Grouping,
    snap: &Snap,
    series: &'a [Vec<u32>],
    times: &Times,
) -> Result<Found<'a>, OutOfMemory>
    requires tree { tree_of query.now ≡ aggregate (ranking asked.rank) grouping.now (more (number asked.param) (more (select asked.selector.now None asked.mods) none)) }
    requires evaluated { is_evaluated (tree_of query.now) ≡ true }
    requires bound { Begins (series_in (tree_of query.now) snap.now.labels) (map (λ v. v.items) series.now) }
    requires room { HasRoom (height (tree_of query.now)) times.now }
    ensures rest { IfOk result (λ f. map (λ v. v.items) f.rest.now ≡ behind (series_in (tree_of query.now) snap.now.labels) (map (λ v. v.items) series.now)) }
    ensures kind { IfOk result (λ f. is_text f.node ≡ false) }
    ensures node { IfOk result (λ f. (samples : List Row) → StandsFor snap.now samples → AreApart samples → (k : ℕ) → k < times.now.len
        → node_at f.node k ≡ meant samples (tree_of query.now) (time_at times.now k)) }
{
    let list = take_first(series);
    let node = ranked_selection(
        alloc,
        asked.rank,
        asked.param,
        grouping,
        snap,
        list.ids,
        asked.mods,
        times,
    )?;
    Ok(Found {
        node,
        rest: list.rest,
    })
}

/// What the arguments of a node are over a run.
#[cycle(nodes)]
fn nodes_of<'a>(
    alloc: Global,
    snap: &Snap,
    patterns: &[Pattern],
    args: &[Expr],
    series: &'a [Vec<u32>],
    times: &Times,
) -> Result<AllFound<'a>, OutOfMemory>
    requires evaluated { are_arguments (trees_of (map tree_of args.now)) ≡ true }
    requires given { AreGiven (trees_of (map tree_of args.now)) snap.now.labels (map (λ v. v.items) series.now) patterns.now times.now }
    ensures rest { IfOk result (λ f. map (λ v. v.items) f.rest.now ≡ behind (all_series_in (trees_of (map tree_of args.now)) snap.now.labels) (map (λ v. v.items) series.now)) }
    ensures strings { IfOk result (λ f. texts_in f.nodes.items ≡ strings_in (trees_of (map tree_of args.now))) }
    ensures nodes { IfOk result (λ f. (samples : List Row) → StandsFor snap.now samples → AreApart samples → (k : ℕ) → k < times.now.len
        → nodes_at f.nodes.items k ≡ all_meant samples (trees_of (map tree_of args.now)) (time_at times.now k)) }
{
    let mut nodes = Vec::new(alloc);
    let mut rest = series;
    for arg in args {
        if let Some(string) = string_of(arg) {
            nodes.push(Node::Text(string.clone()?))?;
            continue;
        }
        asks_argument(arg, snap, rest, patterns, times);
        let found = node_of(alloc, snap, patterns, arg, rest, times)?;
        rest = found.rest;
        nodes.push(found.node)?;
    }
    Ok(AllFound { nodes, rest })
}

/// What a function of a range is over a run.
#[cycle(nodes)]
fn range_of<'a>(
    alloc: Global,
    snap: &Snap,
    patterns: &[Pattern],
    f: RangeFn,
    query: &Expr,
    series: &'a [Vec<u32>],
    times: &Times,
) -> Result<Found<'a>, OutOfMemory>
    requires evaluated { is_range (tree_of query.now) ≡ true }
    requires given { IsGiven (tree_of query.now) snap.now.labels (map (λ v. v.items) series.now) patterns.now times.now }
    ensures rest { IfOk result (λ f. map (λ v. v.items) f.rest.now ≡ behind (series_in (tree_of query.now) snap.now.labels) (map (λ v. v.items) series.now)) }
    ensures kind { IfOk result (λ f. is_text f.node ≡ false) }
    ensures node { IfOk result (λ found. (samples : List Row) → StandsFor snap.now samples → AreApart samples → (k : ℕ) → k < times.now.len
        → node_at found.node k ≡ meant samples (call (Function.Range f) (more (tree_of query.now) none)) (time_at times.now k)) }
{
    match query {
        Expr::Select {
            selector,
            range: Some(range),
            mods,
        } => {
            let found = ranged(
                alloc, f, query, selector, *range, *mods, snap, series, times,
            )?;
            Ok(found)
        }
        Expr::Subquery {
            arg,
            range,
            resolution,
            mods,
        } => {
            let inner: &Expr = arg;
            asks_subquery(query, inner, *range, *resolution, *mods, times);
            let every = resolution_or_minute(*resolution);
            let mut list = Vec::new(alloc);
            let run = inner_run(*range, every, *mods, times, &mut list)?;
            asks_inner(
                query,
                inner,
                *range,
                *resolution,
                *mods,
                snap,
                series,
                patterns,
                times,
                &run.at,
            );
            let found = node_of(alloc, snap, patterns, inner, series, &run.at)?;
            let node = over_subquery(alloc, f, *range, every, found.node, &run)?;
            Ok(Found {
                node,
                rest: found.rest,
            })
        }
        _ => unreachable!(),
    }
}

/// What a node is over a run.
#[cycle(nodes)]
fn node_of<'a>(
    alloc: Global,
    snap: &Snap,
    patterns: &[Pattern],
    query: &Expr,
    series: &'a [Vec<u32>],
    times: &Times,
) -> Result<Found<'a>, OutOfMemory>
    requires evaluated { is_evaluated (tree_of query.now) ≡ true }
    requires given { IsGiven (tree_of query.now) snap.now.labels (map (λ v. v.items) series.now) patterns.now times.now }
    ensures rest { IfOk result (λ f. map (λ v. v.items) f.rest.now ≡ behind (series_in (tree_of query.now) snap.now.labels) (map (λ v. v.items) series.now)) }
    ensures kind { IfOk result (λ f. is_text f.node ≡ false) }
    ensures node { IfOk result (λ f. (samples : List Row) → StandsFor snap.now samples → AreApart samples → (k : ℕ) → k < times.now.len
        → node_at f.node k ≡ meant samples (tree_of query.now) (time_at times.now k)) }
{
    match query {
        Expr::Number { value } => {
            let node = number(alloc, *value, times.len)?;
            Ok(Found { node, rest: series })
        }
        Expr::Unary { minus, arg } => {
            let operand: &Expr = arg;
            asks_operand(query, *minus, operand, snap, series, patterns, times);
            let found = node_of(alloc, snap, patterns, operand, series, times)?;
            let node = signed(alloc, *minus, found.node, times.len)?;
            Ok(Found {
                node,
                rest: found.rest,
            })
        }
        Expr::Binary {
            op,
            matching,
            left,
            right,
        } => {
            let first: &Expr = left;
            let second: &Expr = right;
            asks_left(
                query, *op, matching, first, second, snap, series, patterns, times,
            );
            let left = node_of(alloc, snap, patterns, first, series, times)?;
            asks_right(
                query, *op, matching, first, second, snap, series, left.rest, patterns, times,
            );
            let right = node_of(alloc, snap, patterns, second, left.rest, times)?;
            let node = operation(alloc, *op, matching, left.node, right.node, times.len)?;
            Ok(Found {
                node,
                rest: right.rest,
            })
        }
        Expr::Aggregate { op, grouping, args } => {
            let args: &[Expr] = args;
            asks_aggregated(query, *op, grouping, args, snap, series, patterns, times);
            if let Some(asked) = ranked_selector(*op, args) {
                let found = ranked(alloc, query, asked, grouping, snap, series, times)?;
                return Ok(found);
            }
            let found = nodes_of(alloc, snap, patterns, args, series, times)?;
            let node = aggregation(alloc, *op, grouping, found.nodes, times.len)?;
            Ok(Found {
                node,
                rest: found.rest,
            })
        }
        Expr::Call {
            function: Function::Range(f),
            args,
        } => {
            asks_one(query, *f, args);
            let arg = &args[0];
            asks_range(query, *f, args, arg, snap, series, patterns, times);
            let found = range_of(alloc, snap, patterns, *f, arg, series, times)?;
            Ok(found)
        }
        Expr::Call {
            function: Function::Instant(f),
            args,
        } => {
            let args: &[Expr] = args;
            asks_called(query, *f, args, snap, series, patterns, times);
            if let Some(arg) = timed_selector(*f, args) {
                let found = timed(alloc, query, arg.selector, arg.mods, snap, series, times)?;
                return Ok(found);
            }
            let found = nodes_of(alloc, snap, patterns, args, series, times)?;
            let node = called(alloc, *f, args, found.nodes, patterns, times)?;
            Ok(Found {
                node,
                rest: found.rest,
            })
        }
        Expr::Select {
            selector,
            range: None,
            mods,
        } => {
            let found = selected(alloc, query, selector, *mods, snap, series, times)?;
            Ok(found)
        }
        _ => unreachable!(),
    }
}

/// A node as the value of a query: a scalar is an element without labels, or none, and a text is none.
pub(crate) fn steps_of(alloc: Global, node: Node) -> Result<StepCells, OutOfMemory>
    ensures { IfOk result (λ s. (k : ℕ) → step_at s k ≡ step_cell (node_at node k)) }
{
    match node {
        Node::Vector(steps) => Ok(steps),
        Node::Scalar(scalars) => {
            let mut columns = Vec::new(alloc);
            columns.push(Column {
                labels: no_labels(alloc)?,
                values: scalars.values,
            })?;
            Ok(StepCells {
                columns,
                bads: scalars.bads,
            })
        }
        Node::Text(_) => Ok(StepCells {
            columns: Vec::new(alloc),
            bads: Vec::new(alloc),
        }),
    }
}

/// The times of a grid.
pub(crate) fn times_of<'a>(grid: &Grid) -> Times<'a>
    ensures len { result.len ≡ grid.now.len }
    ensures room { HasRoom 64 result }
    ensures times { (k : ℕ) → k < grid.now.len → time_at result k ≡ pos (grid.now.start + k * grid.now.step) }
{
    let _last = grid.at(grid.len() - 1);
    Times {
        start: grid.start() as i64,
        step: grid.step() as i64,
        len: grid.len(),
        list: &[],
    }
}

/// The steps of a query over its grid.
pub(crate) fn steps_over(
    alloc: Global,
    expr: &Expr,
    series: &[Vec<u32>],
    patterns: &[Pattern],
    snap: &Snap,
    grid: &Grid,
) -> Result<StepCells, OutOfMemory>
    requires evaluated { is_evaluated (tree_of expr.now) ≡ true }
    requires height { height (tree_of expr.now) ≤ 64 }
    requires bound { map (λ v. v.items) series.now ≡ bound_series (tree_of expr.now) snap.now.labels }
    requires patterns { All (λ text. list_any (λ p. bytes_eq p text) patterns.now ≡ true) (patterns_of (tree_of expr.now)) }
    ensures { IfOk result (λ s. (samples : List Row) → StandsFor snap.now samples → AreApart samples → (k : ℕ) → k < grid.now.len
        → step_at s k ≡ eval samples (tree_of expr.now) (pos (grid.now.start + k * grid.now.step))) }
{
    let times = times_of(grid);
    asks_root(expr, snap, series, patterns, &times);
    let found = node_of(alloc, snap, patterns, expr, series, &times)?;
    let steps = steps_of(alloc, found.node)?;
    Ok(steps)
}

/// The evaluation of a query over its grid, from the ids of the series that each of its selectors takes, in preorder, and
/// the patterns of its `label_replace` calls, in any order. Prometheus, HTTP API: Range queries.
#[tactic(auto, using(pf_columns::proofs::Parts::length_cells))]
pub fn eval_bound(
    alloc: Global,
    expr: &Expr,
    series: &[Vec<u32>],
    patterns: &[Pattern],
    snap: &Snap,
    grid: &Grid,
) -> Result<Matrix, EvalError>
    requires evaluated { is_evaluated (tree_of expr.now) ≡ true }
    requires height { height (tree_of expr.now) ≤ 64 }
    requires series { map (λ v. v.items) series.now ≡ bound_series (tree_of expr.now) snap.now.labels }
    requires patterns { All (λ text. list_any (λ p. bytes_eq p text) patterns.now ≡ true) (patterns_of (tree_of expr.now)) }
    ensures answer { IfOk result (λ m. (samples : List Row) → StandsFor snap.now samples → AreApart samples
        → answered (evaluated samples (tree_of expr.now) (points grid.now)) ≡ gathered m) }
    ensures failure { IfErr result (λ e. (samples : List Row) → StandsFor snap.now samples → AreApart samples → (step : ℕ) (kind : ErrorKind) → e ≡ EvalError.Execution step kind
        → answered (evaluated samples (tree_of expr.now) (points grid.now)) ≡ failed step kind) }
{
    let steps = steps_over(alloc, expr, series, patterns, snap, grid)?;
    if let Some(bad) = steps.first_bad(grid.len()) {
        return Err(EvalError::Execution {
            step: grid.at(bad.step),
            kind: bad.kind,
        });
    }
    let cells = steps.cells(alloc, grid.len())?;
    Ok(cells.gather(alloc, grid)?)
}
