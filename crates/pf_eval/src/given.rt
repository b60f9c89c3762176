//! What the parts of a query are given: the lists of series, the patterns and the room of times that are left for them.
//!
//! Each function here hands on what is known and does nothing.

ghost use Rattle.std.specs.Prelude.{◌≡◌, ◌≤◌, ◌+◌, ℕ, true, List, length, map, slice_index_or};
ghost use Rattle.std.specs.List.{All, list_any};
ghost use Rattle.std.specs.Str.{bytes_eq};
ghost use Rattle.pf_model.specs.Binding.{bound_series, pattern_of, patterns_of};
ghost use Rattle.pf_model.specs.Built.{are_arguments, are_near, is_distance, is_evaluated, is_lawful_call, is_range, is_resolution};
ghost use Rattle.pf_model.specs.Evaluation.{resolution_or_minute};
ghost use Rattle.pf_model.specs.Trees.{aggregate, binary, call, height, more, none, subquery, tree_of, trees_of, unary};
ghost use Rattle.pf_selectors.specs.Times.{AreTimes};
ghost use Rattle.pf_eval.specs.Bound.{AreGiven, AreThere, HasRoom, IsGiven, behind, series_in};

use pf_block::Snap;
use pf_match::Pattern;
use pf_model::{AggOp, BinaryOp, Expr, Function, Grouping, InstantFn, Matching, Mods, RangeFn};
use pf_selectors::Times;

/// What is left for the operand of a sign.
pub(crate) fn asks_operand(
    query: &Expr,
    minus: bool,
    arg: &Expr,
    snap: &Snap,
    series: &[Vec<u32>],
    patterns: &[Pattern],
    times: &Times,
)
    requires tree { tree_of query.now ≡ unary minus (tree_of arg.now) }
    requires given { IsGiven (tree_of query.now) snap.now.labels (map (λ v. v.items) series.now) patterns.now times.now }
    ensures { IsGiven (tree_of arg.now) snap.now.labels (map (λ v. v.items) series.now) patterns.now times.now }
{}

/// What is left for a left operand.
pub(crate) fn asks_left(
    query: &Expr,
    op: BinaryOp,
    matching: &Matching,
    left: &Expr,
    right: &Expr,
    snap: &Snap,
    series: &[Vec<u32>],
    patterns: &[Pattern],
    times: &Times,
)
    requires tree { tree_of query.now ≡ binary op matching.now (tree_of left.now) (tree_of right.now) }
    requires evaluated { is_evaluated (tree_of query.now) ≡ true }
    requires given { IsGiven (tree_of query.now) snap.now.labels (map (λ v. v.items) series.now) patterns.now times.now }
    ensures evaluated { is_evaluated (tree_of left.now) ≡ true }
    ensures given { IsGiven (tree_of left.now) snap.now.labels (map (λ v. v.items) series.now) patterns.now times.now }
{}

/// What is left for a right operand, behind the left one's lists.
pub(crate) fn asks_right(
    query: &Expr,
    op: BinaryOp,
    matching: &Matching,
    left: &Expr,
    right: &Expr,
    snap: &Snap,
    series: &[Vec<u32>],
    rest: &[Vec<u32>],
    patterns: &[Pattern],
    times: &Times,
)
    requires tree { tree_of query.now ≡ binary op matching.now (tree_of left.now) (tree_of right.now) }
    requires evaluated { is_evaluated (tree_of query.now) ≡ true }
    requires given { IsGiven (tree_of query.now) snap.now.labels (map (λ v. v.items) series.now) patterns.now times.now }
    requires rest { map (λ v. v.items) rest.now ≡ behind (series_in (tree_of left.now) snap.now.labels) (map (λ v. v.items) series.now) }
    ensures evaluated { is_evaluated (tree_of right.now) ≡ true }
    ensures given { IsGiven (tree_of right.now) snap.now.labels (map (λ v. v.items) rest.now) patterns.now times.now }
    ensures behind { (last : List (List ℕ)) → last ≡ behind (series_in (tree_of right.now) snap.now.labels) (map (λ v. v.items) rest.now)
        → last ≡ behind (series_in (tree_of query.now) snap.now.labels) (map (λ v. v.items) series.now) }
{}

/// What is left for the arguments of an aggregation.
pub(crate) fn asks_aggregated(
    query: &Expr,
    op: AggOp,
    grouping: &Grouping,
    args: &[Expr],
    snap: &Snap,
    series: &[Vec<u32>],
    patterns: &[Pattern],
    times: &Times,
)
    requires tree { tree_of query.now ≡ aggregate op grouping.now (trees_of (map tree_of args.now)) }
    requires evaluated { is_evaluated (tree_of query.now) ≡ true }
    requires given { IsGiven (tree_of query.now) snap.now.labels (map (λ v. v.items) series.now) patterns.now times.now }
    ensures tree { tree_of query.now ≡ aggregate op grouping.now (trees_of (map tree_of args.now)) }
    ensures evaluated { are_arguments (trees_of (map tree_of args.now)) ≡ true }
    ensures given { AreGiven (trees_of (map tree_of args.now)) snap.now.labels (map (λ v. v.items) series.now) patterns.now times.now }
{}

/// What is left for the arguments of a function of elements.
pub(crate) fn asks_called(
    query: &Expr,
    f: InstantFn,
    args: &[Expr],
    snap: &Snap,
    series: &[Vec<u32>],
    patterns: &[Pattern],
    times: &Times,
)
    requires tree { tree_of query.now ≡ call (Function.Instant f) (trees_of (map tree_of args.now)) }
    requires evaluated { is_evaluated (tree_of query.now) ≡ true }
    requires given { IsGiven (tree_of query.now) snap.now.labels (map (λ v. v.items) series.now) patterns.now times.now }
    ensures tree { tree_of query.now ≡ call (Function.Instant f) (trees_of (map tree_of args.now)) }
    ensures lawful { is_lawful_call f (trees_of (map tree_of args.now)) ≡ true }
    ensures evaluated { are_arguments (trees_of (map tree_of args.now)) ≡ true }
    ensures patterns { AreThere (pattern_of (Function.Instant f) (trees_of (map tree_of args.now))) patterns.now }
    ensures times { AreTimes times.now }
    ensures given { AreGiven (trees_of (map tree_of args.now)) snap.now.labels (map (λ v. v.items) series.now) patterns.now times.now }
{}

/// A function of ranges has one argument.
pub(crate) fn asks_one(query: &Expr, f: RangeFn, args: &[Expr])
    requires tree { tree_of query.now ≡ call (Function.Range f) (trees_of (map tree_of args.now)) }
    requires evaluated { is_evaluated (tree_of query.now) ≡ true }
    ensures { length args.now ≡ 1 }
{}

/// What is left for the argument of a function of ranges.
pub(crate) fn asks_range(
    query: &Expr,
    f: RangeFn,
    args: &[Expr],
    arg: &Expr,
    snap: &Snap,
    series: &[Vec<u32>],
    patterns: &[Pattern],
    times: &Times,
)
    requires tree { tree_of query.now ≡ call (Function.Range f) (trees_of (map tree_of args.now)) }
    requires one { length args.now ≡ 1 }
    requires first { arg.now ≡ slice_index_or args.now 0 arg.now }
    requires evaluated { is_evaluated (tree_of query.now) ≡ true }
    requires given { IsGiven (tree_of query.now) snap.now.labels (map (λ v. v.items) series.now) patterns.now times.now }
    ensures tree { tree_of query.now ≡ call (Function.Range f) (more (tree_of arg.now) none) }
    ensures evaluated { is_range (tree_of arg.now) ≡ true }
    ensures given { IsGiven (tree_of arg.now) snap.now.labels (map (λ v. v.items) series.now) patterns.now times.now }
    ensures behind { (last : List (List ℕ)) → last ≡ behind (series_in (tree_of arg.now) snap.now.labels) (map (λ v. v.items) series.now)
        → last ≡ behind (series_in (tree_of query.now) snap.now.labels) (map (λ v. v.items) series.now) }
{}

/// What is asked of a subquery.
pub(crate) fn asks_subquery(
    query: &Expr,
    inner: &Expr,
    range: u64,
    resolution: Option<u64>,
    mods: Mods,
    times: &Times,
)
    requires tree { tree_of query.now ≡ subquery (tree_of inner.now) range resolution mods }
    requires evaluated { is_range (tree_of query.now) ≡ true }
    requires room { HasRoom (height (tree_of query.now)) times.now }
    ensures tree { tree_of query.now ≡ subquery (tree_of inner.now) range resolution mods }
    ensures evaluated { is_evaluated (tree_of inner.now) ≡ true }
    ensures range { is_distance range ≡ true }
    ensures resolution { is_resolution (resolution_or_minute resolution) ≡ true }
    ensures near { are_near mods ≡ true }
    ensures room { HasRoom 1 times.now }
{}

/// What is left for the inner expression of a subquery, over its run.
pub(crate) fn asks_inner(
    query: &Expr,
    inner: &Expr,
    range: u64,
    resolution: Option<u64>,
    mods: Mods,
    snap: &Snap,
    series: &[Vec<u32>],
    patterns: &[Pattern],
    times: &Times,
    at: &Times,
)
    requires tree { tree_of query.now ≡ subquery (tree_of inner.now) range resolution mods }
    requires given { IsGiven (tree_of query.now) snap.now.labels (map (λ v. v.items) series.now) patterns.now times.now }
    requires room { (levels : ℕ) → HasRoom (1 + levels) times.now → HasRoom levels at.now }
    ensures given { IsGiven (tree_of inner.now) snap.now.labels (map (λ v. v.items) series.now) patterns.now at.now }
    ensures behind { (last : List (List ℕ)) → last ≡ behind (series_in (tree_of inner.now) snap.now.labels) (map (λ v. v.items) series.now)
        → last ≡ behind (series_in (tree_of query.now) snap.now.labels) (map (λ v. v.items) series.now) }
{}

/// What is left for an argument that is no string.
pub(crate) fn asks_argument(
    arg: &Expr,
    snap: &Snap,
    series: &[Vec<u32>],
    patterns: &[Pattern],
    times: &Times,
)
    requires evaluated { is_evaluated (tree_of arg.now) ≡ true }
    requires given { IsGiven (tree_of arg.now) snap.now.labels (map (λ v. v.items) series.now) patterns.now times.now }
    ensures evaluated { is_evaluated (tree_of arg.now) ≡ true }
    ensures given { IsGiven (tree_of arg.now) snap.now.labels (map (λ v. v.items) series.now) patterns.now times.now }
{}

/// What a whole query is given.
pub(crate) fn asks_root(
    query: &Expr,
    snap: &Snap,
    series: &[Vec<u32>],
    patterns: &[Pattern],
    times: &Times,
)
    requires height { height (tree_of query.now) ≤ 64 }
    requires bound { map (λ v. v.items) series.now ≡ bound_series (tree_of query.now) snap.now.labels }
    requires patterns { All (λ text. list_any (λ p. bytes_eq p text) patterns.now ≡ true) (patterns_of (tree_of query.now)) }
    requires room { HasRoom 64 times.now }
    ensures { IsGiven (tree_of query.now) snap.now.labels (map (λ v. v.items) series.now) patterns.now times.now }
{}
