//! Calls of functions of elements.

ghost use Rattle.std.specs.Prelude.{◌≡◌, ◌<◌, ℕ, ℤ, None, true, false, List, map, IfOk, MatchOption};
ghost use Rattle.pf_base.specs.declared.plain.Row.{Row};
ghost use Rattle.pf_model.specs.declared.functions.InstantFn.TheVariants.{Timestamp};
ghost use Rattle.pf_model.specs.Binding.{pattern_of};
ghost use Rattle.pf_model.specs.Built.{is_absent_call, is_lawful_call, is_one};
ghost use Rattle.pf_model.specs.Evaluation.{absent_of, beside, instant_outcome, timestamps};
ghost use Rattle.pf_model.specs.Outcomes.{Outcome, instant_call};
ghost use Rattle.pf_model.specs.Trees.{more, none, select, tree_of, trees_of};
ghost use Rattle.pf_selectors.specs.Times.{AreTimes, time_at};
ghost use Rattle.pf_eval.specs.Bound.{AreThere};
ghost use Rattle.pf_eval.specs.Calls.{beside_at};
ghost use Rattle.pf_eval.specs.Nodes.{is_text, node_at, nodes_at, texts_in};
ghost use Rattle.pf_eval.specs.Strings.{is_instant_selector, strings_in};

use crate::instant::instant;
use crate::node::{Node, no_labels};
use pf_base::{Labels, OutOfMemory};
use pf_match::Pattern;
use pf_math::absent_labels;
use pf_model::{Expr, Function, InstantFn, Mods, Selector};
use pf_selectors::Times;
use std::alloc::Global;

/// The labels that `absent` gives of an argument: those of a selector.
fn absent_of(alloc: Global, arg: &Expr) -> Result<Labels, OutOfMemory>
    requires { is_absent_call (more (tree_of arg.now) none) ≡ true }
    ensures { IfOk result (λ l. l ≡ absent_of (more (tree_of arg.now) none)) }
{
    match arg {
        Expr::Select { selector, .. } => absent_labels(alloc, selector),
        Expr::Number { .. }
        | Expr::Text { .. }
        | Expr::Unary { .. }
        | Expr::Binary { .. }
        | Expr::Call { .. }
        | Expr::Aggregate { .. }
        | Expr::Subquery { .. } => no_labels(alloc),
    }
}

/// The same of the first of some arguments.
fn absent_of_first(alloc: Global, args: &[Expr]) -> Result<Labels, OutOfMemory>
    requires { is_absent_call (trees_of (map tree_of args.now)) ≡ true }
    ensures { IfOk result (λ l. l ≡ absent_of (trees_of (map tree_of args.now))) }
{
    match args.first() {
        Some(arg) => absent_of(alloc, arg),
        None => no_labels(alloc),
    }
}

/// The labels that a call gives where its vector is empty. Only `absent` has some.
fn labels_beside(alloc: Global, f: InstantFn, args: &[Expr]) -> Result<Labels, OutOfMemory>
    requires { is_lawful_call f (trees_of (map tree_of args.now)) ≡ true }
    ensures { IfOk result (λ l. (samples : List Row) (os : List Outcome) (t : ℤ) → instant_call f (beside_at l t os) os ≡ instant_call f (beside samples (trees_of (map tree_of args.now)) os t) os) }
{
    match f {
        InstantFn::Absent => absent_of_first(alloc, args),
        _ => no_labels(alloc),
    }
}

/// A call of a function of elements, from what its arguments are. That `timestamp` reads the times of a selector's samples
/// is not looked at here.
pub(crate) fn called(
    alloc: Global,
    f: InstantFn,
    args: &[Expr],
    nodes: Vec<Node>,
    patterns: &[Pattern],
    times: &Times,
) -> Result<Node, OutOfMemory>
    requires lawful { is_lawful_call f (trees_of (map tree_of args.now)) ≡ true }
    requires strings { texts_in nodes.items ≡ strings_in (trees_of (map tree_of args.now)) }
    requires patterns { AreThere (pattern_of (Function.Instant f) (trees_of (map tree_of args.now))) patterns.now }
    requires times { AreTimes times.now }
    ensures kind { IfOk result (λ n. is_text n ≡ false) }
    ensures value { IfOk result (λ n. (samples : List Row) (k : ℕ) → k < times.now.len
        → node_at n k ≡ instant_call f (beside samples (trees_of (map tree_of args.now)) (nodes_at nodes.items k) (time_at times.now k)) (nodes_at nodes.items k)) }
{
    let absent = labels_beside(alloc, f, args)?;
    let node = instant(alloc, f, absent, patterns, nodes, times)?;
    Ok(node)
}

/// An instant selector.
#[derive(Clone, Copy)]
pub(crate) struct InstantSelector<'a> {
    pub(crate) selector: &'a Selector,
    pub(crate) mods: Mods,
}

/// The instant selector that a query is, if it is one.
pub(crate) fn instant_selector(expr: &Expr) -> Option<InstantSelector>
    ensures { MatchOption result (is_instant_selector (tree_of expr.now) ≡ false) (λ s. tree_of expr.now ≡ select s.selector.now None s.mods) }
{
    match expr {
        Expr::Select {
            selector,
            range: None,
            mods,
        } => Some(InstantSelector {
            selector,
            mods: *mods,
        }),
        Expr::Select { range: Some(_), .. } => None,
        Expr::Number { .. } => None,
        Expr::Text { .. } => None,
        Expr::Unary { .. } => None,
        Expr::Binary { .. } => None,
        Expr::Call { .. } => None,
        Expr::Aggregate { .. } => None,
        Expr::Subquery { .. } => None,
    }
}

/// The instant selector that the only argument is, if it is one.
fn timed_argument(args: &[Expr]) -> Option<InstantSelector>
    requires { is_one (trees_of (map tree_of args.now)) ≡ true }
    ensures { MatchOption result
        ((samples : List Row) (t : ℤ) (o : Outcome) → timestamps samples (trees_of (map tree_of args.now)) t o ≡ o)
        (λ s. trees_of (map tree_of args.now) ≡ more (select s.selector.now None s.mods) none) }
{
    if args.len() != 1 {
        unreachable!()
    }
    instant_selector(&args[0])
}

/// The instant selector whose samples' times are asked for, if a call asks for them.
pub(crate) fn timed_selector(f: InstantFn, args: &[Expr]) -> Option<InstantSelector>
    requires { is_lawful_call f (trees_of (map tree_of args.now)) ≡ true }
    ensures { MatchOption result
        ((samples : List Row) (os : List Outcome) (t : ℤ) → instant_outcome samples f (trees_of (map tree_of args.now)) os t ≡ instant_call f (beside samples (trees_of (map tree_of args.now)) os t) os)
        (λ s. (f ≡ Timestamp) × (trees_of (map tree_of args.now) ≡ more (select s.selector.now None s.mods) none)) }
{
    match f {
        InstantFn::Timestamp => timed_argument(args),
        _ => None,
    }
}
