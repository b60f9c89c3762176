//! Queries whose aggregations are evaluated shard by shard.

ghost use Rattle.std.specs.Prelude.{◌≡◌, ◌<◌, ◌&&◌, length, map};
ghost use Rattle.pf_resolve.specs.Forms.{any_has_selector, has_selector, is_number, is_range};
ghost use Rattle.pf_model.specs.Sharding.{are_covered, are_literals, is_covered, is_elementwise, is_first_plain, is_literal, is_mergeable, is_one_plain, is_over_series, is_plain, is_plain_call, is_range_selector, is_shardable};
ghost use Rattle.pf_model.specs.Trees.{tree_of, trees_of};
ghost use Rattle.pf_model.specs.Words.{is_set_operator};

use pf_model::{AggOp, Expr, Function, InstantFn, RangeFn, Sign};

/// Whether a query has a selector, each stands in an aggregation that is evaluated shard by shard, and there is no subquery. It
/// takes no memory, and calls itself as deep as the tree is high.
#[tactic(auto, using(crate::proofs::Selectors::selectors_in))]
pub fn shardable(expr: &Expr) -> bool
    ensures { result ≡ is_shardable (tree_of expr.now) }
{
    has_selector(expr) && is_covered(expr)
}

#[cycle(selectors)]
fn any_has_selector(args: &[Expr]) -> bool
    ensures { result ≡ any_has_selector (trees_of (map tree_of args.now)) }
{
    for arg in args {
        if has_selector(arg) {
            return true;
        }
    }
    false
}

#[cycle(selectors)]
fn has_selector(expr: &Expr) -> bool
    ensures { result ≡ has_selector (tree_of expr.now) }
{
    match expr {
        Expr::Number { .. } => false,
        Expr::Text { .. } => false,
        Expr::Unary { arg, .. } => has_selector(arg),
        Expr::Binary { left, right, .. } => has_selector(left) || has_selector(right),
        Expr::Call { args, .. } => any_has_selector(args),
        Expr::Aggregate { args, .. } => any_has_selector(args),
        Expr::Select { .. } => true,
        Expr::Subquery { arg, .. } => has_selector(arg),
    }
}

fn is_number(expr: &Expr) -> bool
    ensures { result ≡ is_number (tree_of expr.now) }
{
    match expr {
        Expr::Number { .. } => true,
        Expr::Text { .. } => false,
        Expr::Unary { .. } => false,
        Expr::Binary { .. } => false,
        Expr::Call { .. } => false,
        Expr::Aggregate { .. } => false,
        Expr::Select { .. } => false,
        Expr::Subquery { .. } => false,
    }
}

/// A number, or one sign before a number.
fn is_literal(expr: &Expr) -> bool
    ensures { result ≡ is_literal (tree_of expr.now) }
{
    match expr {
        Expr::Number { .. } => true,
        Expr::Text { .. } => false,
        Expr::Unary { arg, .. } => is_number(arg),
        Expr::Binary { .. } => false,
        Expr::Call { .. } => false,
        Expr::Aggregate { .. } => false,
        Expr::Select { .. } => false,
        Expr::Subquery { .. } => false,
    }
}

fn are_literals(args: &[Expr]) -> bool
    ensures { result ≡ are_literals (trees_of (map tree_of args.now)) }
{
    for arg in args {
        if !is_literal(arg) {
            return false;
        }
    }
    true
}

fn is_range(expr: &Expr) -> bool
    ensures { result ≡ is_range (tree_of expr.now) }
{
    match expr {
        Expr::Number { .. } => false,
        Expr::Text { .. } => false,
        Expr::Unary { .. } => false,
        Expr::Binary { .. } => false,
        Expr::Call { .. } => false,
        Expr::Aggregate { .. } => false,
        Expr::Select { range, .. } => range.is_some(),
        Expr::Subquery { .. } => false,
    }
}

fn is_range_selector(args: &[Expr]) -> bool
    ensures { result ≡ is_range_selector (trees_of (map tree_of args.now)) }
{
    args.len() == 1 && is_range(&args[0])
}

fn is_elementwise(function: InstantFn) -> bool
    ensures { result ≡ is_elementwise function }
{
    matches!(
        function,
        InstantFn::Abs
            | InstantFn::Ceil
            | InstantFn::Floor
            | InstantFn::Sgn
            | InstantFn::Round
            | InstantFn::Clamp
            | InstantFn::ClampMin
            | InstantFn::ClampMax
            | InstantFn::Timestamp
    )
}

fn is_over_series(function: RangeFn) -> bool
    ensures { result ≡ is_over_series function }
{
    !matches!(function, RangeFn::AbsentOverTime)
}

fn is_set_operator(sign: Sign) -> bool
    ensures { result ≡ is_set_operator sign }
{
    matches!(sign, Sign::And | Sign::Or | Sign::Unless)
}

fn is_mergeable(op: AggOp) -> bool
    ensures { result ≡ is_mergeable op }
{
    matches!(
        op,
        AggOp::Sum | AggOp::Avg | AggOp::Min | AggOp::Max | AggOp::Count
    )
}

/// A call over a range selector, or of a function of each element by itself over a plain expression.
#[cycle(plain)]
fn is_plain_call(function: Function, args: &[Expr]) -> bool
    ensures { result ≡ is_plain_call function (trees_of (map tree_of args.now)) (is_first_plain (trees_of (map tree_of args.now))) }
{
    match function {
        Function::Range(f) => is_over_series(f) && is_range_selector(args),
        Function::Instant(f) => {
            !args.is_empty() && is_elementwise(f) && is_plain(&args[0]) && are_literals(&args[1..])
        }
    }
}

/// An expression whose value has one element for each series, found from that series alone.
#[cycle(plain)]
fn is_plain(expr: &Expr) -> bool
    ensures { result ≡ is_plain (tree_of expr.now) }
{
    match expr {
        Expr::Number { .. } => false,
        Expr::Text { .. } => false,
        Expr::Unary { arg, .. } => is_plain(arg),
        Expr::Binary {
            op,
            left,
            right,
            ..
        } => {
            !is_set_operator(op.sign)
                && ((is_plain(left) && is_literal(right)) || (is_literal(left) && is_plain(right)))
        }
        Expr::Call { function, args } => is_plain_call(*function, args),
        Expr::Aggregate { .. } => false,
        Expr::Select { range, .. } => range.is_none(),
        Expr::Subquery { .. } => false,
    }
}

fn is_one_plain(args: &[Expr]) -> bool
    ensures { result ≡ is_one_plain (trees_of (map tree_of args.now)) }
{
    args.len() == 1 && is_plain(&args[0])
}

/// Whether an aggregation is evaluated shard by shard: what shards know of its groups can be merged, and it has one argument,
/// whose value has one element for each series, found from that series alone. It takes no memory, and calls itself as deep as
/// the tree is high.
pub fn is_sharded(op: AggOp, args: &[Expr]) -> bool
    ensures { result ≡ (is_mergeable op && is_one_plain (trees_of (map tree_of args.now))) }
{
    is_mergeable(op) && is_one_plain(args)
}

#[cycle(covered)]
fn are_covered(args: &[Expr]) -> bool
    ensures { result ≡ are_covered (trees_of (map tree_of args.now)) }
{
    for arg in args {
        if !is_covered(arg) {
            return false;
        }
    }
    true
}

/// There is no subquery, and each selector stands in an aggregation that is evaluated shard by shard.
#[cycle(covered)]
fn is_covered(expr: &Expr) -> bool
    ensures { result ≡ is_covered (tree_of expr.now) }
{
    match expr {
        Expr::Number { .. } => true,
        Expr::Text { .. } => true,
        Expr::Unary { arg, .. } => is_covered(arg),
        Expr::Binary { left, right, .. } => is_covered(left) && is_covered(right),
        Expr::Call { args, .. } => are_covered(args),
        Expr::Aggregate { op, args, .. } => is_sharded(*op, args) || are_covered(args),
        Expr::Select { .. } => false,
        Expr::Subquery { .. } => false,
    }
}
