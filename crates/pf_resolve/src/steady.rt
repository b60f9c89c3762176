//! Queries whose subqueries have a time to be evaluated at in each of their windows.

ghost use Rattle.std.specs.Prelude.{◌≡◌, ◌&&◌, true, map, nat_le, nat_lt};
ghost use Rattle.pf_model.specs.Evaluation.{resolution_or_minute};
ghost use Rattle.pf_model.specs.Trees.{tree_of, trees_of};
ghost use Rattle.pf_resolve.specs.Steady.{ReachRises, are_steady, is_steady};

use pf_model::Expr;

/// One minute, in milliseconds.
const MINUTE: u64 = 60_000;

/// Whether a window of this range has a multiple of the resolution, wherever it ends.
fn is_never_empty(range: u64, resolution: Option<u64>) -> bool
    ensures { result ≡ (nat_lt 0 (resolution_or_minute resolution) && nat_le (resolution_or_minute resolution) range) }
{
    let step = resolution.unwrap_or(MINUTE);
    0 < step && step <= range
}

#[cycle(steady)]
fn are_all_steady(args: &[Expr]) -> bool
    ensures { result ≡ are_steady (trees_of (map tree_of args.now)) }
{
    for arg in args {
        if !is_all_steady(arg) {
            return false;
        }
    }
    true
}

#[cycle(steady)]
fn is_all_steady(expr: &Expr) -> bool
    ensures { result ≡ is_steady (tree_of expr.now) }
{
    match expr {
        Expr::Number { .. } => true,
        Expr::Text { .. } => true,
        Expr::Unary { arg, .. } => is_all_steady(arg),
        Expr::Binary { left, right, .. } => is_all_steady(left) && is_all_steady(right),
        Expr::Call { args, .. } => are_all_steady(args),
        Expr::Aggregate { args, .. } => are_all_steady(args),
        Expr::Select { .. } => true,
        Expr::Subquery {
            arg,
            range,
            resolution,
            ..
        } => is_all_steady(arg) && is_never_empty(*range, *resolution),
    }
}

/// Whether each subquery's resolution is above 0 and at most its range. Then the latest time that the query may read rises with the
/// time, and whether it reads anything doesn't depend on the time. It takes no memory, and calls itself as deep as the tree is high.
#[tactic(auto, using(crate::proofs::Rising::reach_rises))]
pub fn is_steady(expr: &Expr) -> bool
    ensures value { result ≡ is_steady (tree_of expr.now) }
    ensures rises { result ≡ true → ReachRises (tree_of expr.now) }
{
    is_all_steady(expr)
}
