//! `topk` and `bottomk` of an instant selector, group by group: the values of one group's series are read, and columns are made of
//! those that are kept, before the next group is read. No label set of another series is copied.

ghost use Rattle.std.specs.Prelude.{◌≡◌, ◌<◌, ◌++◌, ℕ, Some, None, false, true, List, length, map, IfOk, IfSome, OnOk};
ghost use Rattle.std.specs.List.{All};
ghost use Rattle.pf_base.specs.declared.plain.Row.{Row};
ghost use Rattle.pf_block.specs.Snaps.{labels_of};
ghost use Rattle.pf_model.specs.Aggregation.{aggregate};
ghost use Rattle.pf_model.specs.Binding.{accepted_ids};
ghost use Rattle.pf_model.specs.Built.{are_near};
ghost use Rattle.pf_model.specs.declared.cell.StepCell.TheVariants.{Good};
ghost use Rattle.pf_model.specs.declared.expr.Matcher.{Matcher};
ghost use Rattle.pf_model.specs.Evaluation.{read_time, selected};
ghost use Rattle.pf_model.specs.Outcomes.{elements};
ghost use Rattle.pf_model.specs.Trees.{more, none, number, select, tree_of, trees_of};
ghost use Rattle.pf_columns.specs.Columns.{AreRising, cell_at, value_in};
ghost use Rattle.pf_columns.specs.Ranks.{labelled, ranking, valued};
ghost use Rattle.pf_columns.specs.Steps.{step_at};
ghost use Rattle.pf_store.specs.Standing.{StandsFor};
ghost use Rattle.pf_selectors.specs.SeriesColumns.{series_column};
ghost use Rattle.pf_selectors.specs.Times.{AreTimes, time_at};
ghost use Rattle.pf_eval.specs.Bound.{HasRoom};
ghost use Rattle.pf_eval.specs.Nodes.{is_text, node_at};
ghost use Rattle.pf_eval.specs.Ranked.{bare_at, each_first, first_at, labels_at};

use crate::called::instant_selector;
use crate::node::{Node, no_labels};
use crate::reading::read_times;
use pf_base::{OutOfMemory, Sample, Value};
use pf_block::Snap;
use pf_columns::{Column, Rank, StepCells, buckets_by, first_of_group, has_value, normalised};
use pf_model::{AggOp, Expr, Grouping, Mods, Selector};
use pf_selectors::{Times, read_values, series_groups};
use std::alloc::Global;

/// An instant selector of which `topk` or `bottomk` keeps as many elements as a number tells.
#[derive(Clone, Copy)]
pub(crate) struct RankedSelector<'a> {
    pub(crate) rank: Rank,
    pub(crate) param: Value,
    pub(crate) selector: &'a Selector,
    pub(crate) mods: Mods,
}

/// The number that a query is, if it is one.
fn number_of(expr: &Expr) -> Option<Value>
    ensures { IfSome result (λ v. tree_of expr.now ≡ number v) }
{
    match expr {
        Expr::Number { value } => Some(*value),
        _ => None,
    }
}

/// The instant selector that an aggregation with these arguments keeps elements of, if it is such a one.
pub(crate) fn ranked_selector(op: AggOp, args: &[Expr]) -> Option<RankedSelector>
    ensures rank { IfSome result (λ r. ranking r.rank ≡ op) }
    ensures tree { IfSome result (λ r. trees_of (map tree_of args.now) ≡ more (number r.param) (more (select r.selector.now None r.mods) none)) }
{
    if args.len() != 2 {
        return None;
    }
    let rank = Rank::of(op)?;
    let param = number_of(&args[0])?;
    let read = instant_selector(&args[1])?;
    Some(RankedSelector {
        rank,
        param,
        selector: read.selector,
        mods: read.mods,
    })
}

/// The columns of the series at some places, whose labels are not read. `samples` is overwritten.
fn columns_at(
    alloc: Global,
    snap: &Snap,
    ids: &[u32],
    places: &[usize],
    times: &Times,
    samples: &mut Vec<Sample>,
) -> Result<Vec<Column>, OutOfMemory>
    requires inside { All (λ id. id < length snap.now.labels) ids.now }
    requires times { AreTimes times.now }
    requires some { 0 < times.now.len }
    requires within { All (λ p. p < length ids.now) places.now }
    ensures { IfOk result (λ v. v.items ≡ map (bare_at snap.now times.now ids.now) places.now) }
{
    let span = times.span();
    let none = no_labels(alloc)?;
    let mut found = Vec::with_capacity(alloc, places.len())?;
    for place in places {
        let mut values = Vec::with_capacity(alloc, times.len as usize)?;
        read_values(snap, ids[*place], times, span, samples, &mut values)?;
        let labels = none.clone()?;
        found.push(Column { labels, values })?;
    }
    Ok(found)
}

/// Adds a column with the labels of a series, if it has a value at some step.
fn add_valued(
    snap: &Snap,
    id: u32,
    values: Vec<Option<Value>>,
    found: &mut Vec<Column>,
) -> Result<(), OutOfMemory>
    requires { id < length snap.now.labels }
    ensures { OnOk result (found.new.items ≡ found.old.items ++ valued (record { labels = labels_of snap.now id; values = values.items })) }
{
    if has_value(&values) {
        let labels = snap.labels(id).clone()?;
        found.push(Column { labels, values })?;
    }
    Ok(())
}

/// Adds those columns of the series at some places that have a value at some step, with their labels.
fn add_labelled(
    snap: &Snap,
    ids: &[u32],
    places: &[usize],
    columns: Vec<Column>,
    found: &mut Vec<Column>,
) -> Result<(), OutOfMemory>
    requires inside { All (λ id. id < length snap.now.labels) ids.now }
    requires within { All (λ p. p < length ids.now) places.now }
    ensures { OnOk result (found.new.items ≡ found.old.items ++ labelled (map (labels_at snap.now ids.now) places.now) columns.items) }
{
    let mut rest = columns.into_iter();
    for place in places {
        let Some(column) = rest.next() else {
            return Ok(());
        };
        add_valued(snap, ids[*place], column.values, found)?;
    }
    Ok(())
}

/// Adds what is kept of a group whose series stand at some places. `samples` is overwritten.
fn add_group(
    alloc: Global,
    rank: Rank,
    params: &[Option<Value>],
    snap: &Snap,
    ids: &[u32],
    places: &[usize],
    times: &Times,
    samples: &mut Vec<Sample>,
    found: &mut Vec<Column>,
) -> Result<(), OutOfMemory>
    requires inside { All (λ id. id < length snap.now.labels) ids.now }
    requires times { AreTimes times.now }
    requires some { 0 < times.now.len }
    requires within { All (λ p. p < length ids.now) places.now }
    ensures { OnOk result (found.new.items ≡ found.old.items ++ first_at rank params.now snap.now times.now ids.now places.now) }
{
    let columns = columns_at(alloc, snap, ids, places, times, samples)?;
    let first = first_of_group(alloc, rank, params, columns, times.len)?;
    add_labelled(snap, ids, places, first, found)?;
    Ok(())
}

/// What is kept of each group, where `buckets` has the places of each one's series.
fn each_group(
    alloc: Global,
    rank: Rank,
    params: &[Option<Value>],
    snap: &Snap,
    ids: &[u32],
    buckets: &[Vec<usize>],
    times: &Times,
) -> Result<Vec<Column>, OutOfMemory>
    requires inside { All (λ id. id < length snap.now.labels) ids.now }
    requires times { AreTimes times.now }
    requires some { 0 < times.now.len }
    requires within { All (λ b. All (λ p. p < length ids.now) b.items) buckets.now }
    ensures { IfOk result (λ v. v.items ≡ each_first rank params.now snap.now times.now ids.now (map (λ b. b.items) buckets.now)) }
{
    let mut samples = Vec::new(alloc);
    let mut found = Vec::new(alloc);
    for places in buckets {
        add_group(
            alloc,
            rank,
            params,
            snap,
            ids,
            places,
            times,
            &mut samples,
            &mut found,
        )?;
    }
    Ok(found)
}

/// What is kept of some series, in groups by their keys, at the times that they are read at.
fn series_ranked(
    alloc: Global,
    rank: Rank,
    grouping: &Grouping,
    params: &[Option<Value>],
    snap: &Snap,
    ids: &[u32],
    times: &Times,
) -> Result<StepCells, OutOfMemory>
    requires inside { All (λ id. id < length snap.now.labels) ids.now }
    requires times { AreTimes times.now }
    ensures { IfOk result (λ s. AreRising (map (labels_of snap.now) ids.now) → (k : ℕ) → k < times.now.len
        → step_at s k ≡ Good (aggregate (ranking rank) grouping.now.without grouping.now.labels (value_in params.now k) (cell_at (map (series_column snap.now times.now) ids.now) k))) }
{
    if times.len == 0 {
        return Ok(StepCells {
            columns: Vec::new(alloc),
            bads: Vec::new(alloc),
        });
    }
    let groups = series_groups(alloc, snap, ids, grouping)?;
    let buckets = buckets_by(alloc, &groups.of, groups.keys.len())?;
    let found = each_group(alloc, rank, params, snap, ids, &buckets, times)?;
    let steps = normalised(alloc, found, Vec::new(alloc), times.len)?;
    Ok(steps)
}

/// What `topk` or `bottomk` of an instant selector gives, with one number at all steps.
pub(crate) fn ranked_selection(
    alloc: Global,
    rank: Rank,
    param: Value,
    grouping: &Grouping,
    snap: &Snap,
    ids: &[u32],
    mods: Mods,
    times: &Times,
) -> Result<Node, OutOfMemory>
    requires inside { All (λ id. id < length snap.now.labels) ids.now }
    requires near { are_near mods ≡ true }
    requires room { HasRoom 1 times.now }
    ensures kind { IfOk result (λ n. is_text n ≡ false) }
    ensures value { IfOk result (λ n. (samples : List Row) (ms : List Matcher) → StandsFor snap.now samples → ids.now ≡ accepted_ids ms snap.now.labels → (k : ℕ) → k < times.now.len
        → node_at n k ≡ elements (aggregate (ranking rank) grouping.now.without grouping.now.labels (Some param) (selected samples ms (read_time mods (time_at times.now k))))) }
{
    let _count = snap.series_count();
    let read = read_times(mods, times);
    let params = vec![in alloc; Some(param); read.len as usize]?;
    let found = series_ranked(alloc, rank, grouping, &params, snap, ids, &read)?;
    Ok(Node::Vector(found))
}
