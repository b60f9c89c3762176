//! `start()`, `end()` and absent resolutions put in.

ghost use Rattle.std.specs.Prelude.{◌≡◌, IfOk, true};
ghost use Rattle.pf_model.specs.Binding.{patterns_of, selectors_of};
ghost use Rattle.pf_model.specs.Built.{is_evaluated};
ghost use Rattle.pf_model.specs.Resolving.{resolved, resolved_at, resolved_mods, resolved_over};
ghost use Rattle.pf_model.specs.Trees.{height, tree_of};
ghost use Rattle.pf_resolve.specs.Settled.{is_settled};

use pf_base::{Grid, OutOfMemory, Value};
use pf_model::{At, Expr, Mods};
use std::mem;

/// One minute, in milliseconds.
const MINUTE: u64 = 60_000;

fn resolved_at(at: Option<At>, start: u64, end: u64) -> Option<At>
    ensures { result ≡ resolved_at start end at }
{
    match at {
        None => None,
        Some(At::Time { millis }) => Some(At::Time { millis }),
        Some(At::Start) => Some(At::Time { millis: start }),
        Some(At::End) => Some(At::Time { millis: end }),
    }
}

fn resolved_mods(mods: Mods, start: u64, end: u64) -> Mods
    ensures { result ≡ resolved_mods start end mods }
{
    Mods {
        at: resolved_at(mods.at, start, end),
        offset: mods.offset,
    }
}

/// What stands in a tree's place while it is resolved.
fn blank() -> Expr {
    Expr::Number {
        value: Value::new(0),
    }
}

/// A query with its range put in: the first and the last time of its range, in milliseconds, for `start()` and `end()`, and one
/// minute for an absent resolution. Prometheus, Querying basics: @ modifier, Subquery. It takes no memory, and calls itself as
/// deep as the tree is high.
pub fn resolve(expr: Expr, start: u64, end: u64) -> Expr
    ensures tree { tree_of result ≡ resolved start end (tree_of expr) }
    ensures settled { is_settled (tree_of result) ≡ true }
    ensures same { is_settled (tree_of expr) ≡ true → tree_of result ≡ tree_of expr }
{
    put_in(expr, start, end)
}

/// A copy of a query with the range of a grid put in: its first and its last time for `start()` and `end()`, and one minute for
/// an absent resolution. What is selected, and whether it is evaluated, stays.
pub fn resolved_over(expr: &Expr, grid: &Grid) -> Result<Expr, OutOfMemory>
    ensures tree { IfOk result (λ e. tree_of e ≡ resolved_over grid.now (tree_of expr.now)) }
    ensures evaluated { IfOk result (λ e. is_evaluated (tree_of e) ≡ is_evaluated (tree_of expr.now)) }
    ensures selectors { IfOk result (λ e. selectors_of (tree_of e) ≡ selectors_of (tree_of expr.now)) }
    ensures patterns { IfOk result (λ e. patterns_of (tree_of e) ≡ patterns_of (tree_of expr.now)) }
    ensures height { IfOk result (λ e. height (tree_of e) ≡ height (tree_of expr.now)) }
{
    let last = grid.at(grid.len() - 1);
    let copy = expr.clone()?;
    Ok(resolve(copy, grid.start(), last))
}

fn put_in(expr: Expr, start: u64, end: u64) -> Expr
    ensures { tree_of result ≡ resolved start end (tree_of expr) }
{
    match expr {
        Expr::Number { value } => Expr::Number { value },
        Expr::Text { text } => Expr::Text { text },
        Expr::Unary { minus, mut arg } => {
            let inner = mem::replace(&mut *arg, blank());
            *arg = put_in(inner, start, end);
            Expr::Unary { minus, arg }
        }
        Expr::Binary {
            op,
            matching,
            mut left,
            mut right,
        } => {
            let first = mem::replace(&mut *left, blank());
            *left = put_in(first, start, end);
            let second = mem::replace(&mut *right, blank());
            *right = put_in(second, start, end);
            Expr::Binary {
                op,
                matching,
                left,
                right,
            }
        }
        Expr::Call { function, mut args } => {
            for i in 0..args.len() {
                let inner = mem::replace(&mut args[i], blank());
                args[i] = put_in(inner, start, end);
            }
            Expr::Call { function, args }
        }
        Expr::Aggregate {
            op,
            grouping,
            mut args,
        } => {
            for k in 0..args.len() {
                let inner = mem::replace(&mut args[k], blank());
                args[k] = put_in(inner, start, end);
            }
            Expr::Aggregate { op, grouping, args }
        }
        Expr::Select {
            selector,
            range,
            mods,
        } => Expr::Select {
            selector,
            range,
            mods: resolved_mods(mods, start, end),
        },
        Expr::Subquery {
            mut arg,
            range,
            resolution,
            mods,
        } => {
            let inner = mem::replace(&mut *arg, blank());
            *arg = put_in(inner, start, end);
            Expr::Subquery {
                arg,
                range,
                resolution: Some(resolution.unwrap_or(MINUTE)),
                mods: resolved_mods(mods, start, end),
            }
        }
    }
}
