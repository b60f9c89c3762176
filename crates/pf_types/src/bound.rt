//! Queries with the matchers of their selectors and the patterns of their calls.

ghost use Rattle.std.specs.Prelude.{◌≡◌, ◌++◌, ◌∷◌, ◌≤◌, ℕ, [], IfOk, List, MatchOption, OnOk, cond, false, length, map, true};
ghost use Rattle.std.specs.List.{list_any};
ghost use Rattle.pf_model.specs.Binding.{fifth_text, matchers_in, pattern_of, patterns_in, patterns_of, selectors_of};
ghost use Rattle.pf_match.specs.Meaning.{is_pattern, is_refused};
ghost use Rattle.pf_match.specs.Tables.{Agrees, Stays};
ghost use Rattle.pf_model.specs.Queries.{IsBindable, are_meant, counted, is_empty_selector, is_label_replace, is_meant_node};
ghost use Rattle.pf_model.specs.Selection.{accepts_empty, all_meant};
ghost use Rattle.pf_model.specs.Built.{is_evaluated};
ghost use Rattle.pf_model.specs.Trees.{Tree, call, height, instant, size, tree_of, trees_of};
ghost use Rattle.pf_print.specs.OwnTexts.{HasText};
ghost use Rattle.pf_types.specs.Counted.{IsBindFate, IsCallFate, IsNodeFate, all_counted, text_in};

use crate::kinds::kind_of;
use pf_base::{OutOfMemory, Text};
use pf_match::{Pattern, PatternError, Patterns};
use pf_model::{Expr, Function, InstantFn, Kind, MatchError, Matchers, Selector};
use std::alloc::{AllocError, AllocFailed, Global};
use std::marker::Model;
use std::sync::Arc;

/// A query that the evaluator does, the matchers of its selectors and the patterns of its calls of `label_replace`, each in
/// preorder, and its kind, which is scalar or instant. It has at most 64 levels, no pattern without a meaning, and no selector that
/// accepts the empty text.
/// Contracts see it as its tree.
#[derive(Drop)]
pub struct BoundQuery {
    pub expr: Expr,
    pub matchers: Arc<Vec<Matchers>>,
    pub patterns: Arc<Vec<Pattern>>,
    pub kind: Kind,
}

impl Model for BoundQuery {
    ghost use Rattle.std.specs.Arc.{arc_value};
    ghost use Rattle.pf_model.proofs.TreeCode.{coded_tree};
    ghost use Rattle.pf_model.specs.Trees.{Tree, tree_of};
    ghost use Rattle.pf_types.specs.Asking.{IsBound};

    ghost Value = { Tree };

    ghost coded = { coded_tree };

    ghost view = { λ b. tree_of b.expr };

    ghost invariant = { λ b. IsBound (tree_of b.expr) (arc_value b.matchers).items (arc_value b.patterns).items b.kind };
}

/// Why a query is not bound. `which` counts selectors and calls of `label_replace` together, in preorder from 0.
#[derive(Clone, Copy)]
pub enum BindError {
    /// A pattern that is not plain, or the pattern of `label_replace`, is refused by `regex`.
    Pattern { which: u32 },
    /// A selector accepts the empty text.
    Empty { which: u32 },
    OutOfMemory,
}

impl From<OutOfMemory> for BindError {
    ghost use Rattle.pf_types.specs.declared.bound.BindError.{BindError};

    ghost from_gives = { λ _ e. e ≡ BindError.OutOfMemory };

    fn from(_error: OutOfMemory) -> BindError {
        BindError::OutOfMemory
    }
}

impl From<AllocError> for BindError {
    ghost use Rattle.pf_types.specs.declared.bound.BindError.{BindError};

    ghost from_gives = { λ _ e. e ≡ BindError.OutOfMemory };

    fn from(_error: AllocError) -> BindError {
        BindError::OutOfMemory
    }
}

impl<T: Drop> From<AllocFailed<T>> for BindError {
    ghost use Rattle.pf_types.specs.declared.bound.BindError.{BindError};

    ghost from_gives = { λ _ e. e ≡ BindError.OutOfMemory };

    fn from(_error: AllocFailed<T>) -> BindError {
        BindError::OutOfMemory
    }
}

fn is_label_replace(function: Function) -> bool
    ensures { result ≡ is_label_replace function }
{
    matches!(function, Function::Instant(InstantFn::LabelReplace))
}

// ---- the nodes that are counted

fn push_node<'a>(found: &mut Vec<&'a Expr>, expr: &'a Expr) -> Result<(), OutOfMemory>
    ensures { OnOk result (map (λ e. tree_of e.now) found.new.items ≡ map (λ e. tree_of e.now) found.old.items ++ tree_of expr.now ∷ []) }
{
    found.push(expr)?;
    Ok(())
}

/// Adds a call, where it is one of `label_replace`.
fn push_call<'a>(
    found: &mut Vec<&'a Expr>,
    function: Function,
    expr: &'a Expr,
) -> Result<(), OutOfMemory>
    ensures { OnOk result (map (λ e. tree_of e.now) found.new.items ≡ map (λ e. tree_of e.now) found.old.items ++ cond (is_label_replace function) (tree_of expr.now ∷ []) []) }
{
    if is_label_replace(function) {
        found.push(expr)?;
    }
    Ok(())
}

/// Adds the counted nodes of some queries.
#[cycle(counted)]
fn push_all<'a>(found: &mut Vec<&'a Expr>, args: &'a [Expr]) -> Result<(), OutOfMemory>
    ensures { OnOk result (map (λ e. tree_of e.now) found.new.items ≡ map (λ e. tree_of e.now) found.old.items ++ all_counted (trees_of (map tree_of args.now))) }
{
    for arg in args {
        push_counted(found, arg)?;
    }
    Ok(())
}

/// Adds the counted nodes of a query in preorder.
#[cycle(counted)]
fn push_counted<'a>(found: &mut Vec<&'a Expr>, expr: &'a Expr) -> Result<(), OutOfMemory>
    ensures { OnOk result (map (λ e. tree_of e.now) found.new.items ≡ map (λ e. tree_of e.now) found.old.items ++ counted (tree_of expr.now)) }
{
    match expr {
        Expr::Number { .. } => Ok(()),
        Expr::Text { .. } => Ok(()),
        Expr::Unary { arg, .. } => push_counted(found, arg),
        Expr::Binary { left, right, .. } => {
            push_counted(found, left)?;
            push_counted(found, right)
        }
        Expr::Call { function, args } => {
            push_call(found, *function, expr)?;
            push_all(found, args)
        }
        Expr::Aggregate { args, .. } => push_all(found, args),
        Expr::Select { .. } => push_node(found, expr),
        Expr::Subquery { arg, .. } => push_counted(found, arg),
    }
}

fn counted(alloc: Global, expr: &Expr) -> Result<Vec<&Expr>, OutOfMemory>
    ensures { IfOk result (λ v. map (λ e. tree_of e.now) v.items ≡ counted (tree_of expr.now)) }
{
    let mut found = Vec::new(alloc);
    push_counted(&mut found, expr)?;
    Ok(found)
}

// ---- matchers and patterns

/// Adds the matchers of a selector, whose number this is.
fn push_selector(
    known: &mut Patterns,
    found: &mut Vec<Matchers>,
    which: u32,
    selector: &Selector,
) -> Result<(), BindError>
    ensures added { OnOk result (found.new.items ≡ found.old.items ++ selector.now ∷ []) }
    ensures meant { OnOk result (all_meant selector.now ≡ true) }
    ensures selects { OnOk result (accepts_empty selector.now ≡ false) }
    ensures fate { (refused : List (List ℕ)) → Agrees known.new refused → IsNodeFate refused which (instant selector.now) result }
    ensures still { Stays known.old known.new }
{
    match Matchers::build_with(known, selector) {
        Ok(matchers) => {
            found.push(matchers)?;
            Ok(())
        }
        Err(MatchError::BadPattern) => Err(BindError::Pattern { which }),
        Err(MatchError::EmptySelector) => Err(BindError::Empty { which }),
        Err(MatchError::OutOfMemory) => Err(BindError::OutOfMemory),
    }
}

fn push_pattern(
    known: &mut Patterns,
    found: &mut Vec<Pattern>,
    which: u32,
    text: &Text,
) -> Result<(), BindError>
    ensures added { OnOk result (found.new.items ≡ found.old.items ++ text.now ∷ []) }
    ensures read { OnOk result (is_pattern text.now ≡ true) }
    ensures fate { (refused : List (List ℕ)) → Agrees known.new refused → IsCallFate which (is_refused refused text.now) result }
    ensures still { Stays known.old known.new }
{
    match known.pattern(text.as_str()) {
        Ok(pattern) => {
            found.push(pattern)?;
            Ok(())
        }
        Err(PatternError::BadPattern) => Err(BindError::Pattern { which }),
        Err(PatternError::TooBig) => Err(BindError::Pattern { which }),
        Err(PatternError::OutOfMemory) => Err(BindError::OutOfMemory),
    }
}

/// The text of a string.
fn text_in(expr: &Expr) -> Option<&Text>
    ensures { MatchOption result (text_in (tree_of expr.now) ≡ []) (λ t. text_in (tree_of expr.now) ≡ t.now ∷ []) }
{
    match expr {
        Expr::Text { text } => Some(text),
        _ => None,
    }
}

/// The fifth argument, where it is a string.
#[tactic(auto, using(crate::proofs::CountedNodes::fifth_is, crate::proofs::CountedNodes::no_fifth))]
fn fifth_text(args: &[Expr]) -> Option<&Text>
    ensures { MatchOption result (fifth_text (trees_of (map tree_of args.now)) ≡ []) (λ t. fifth_text (trees_of (map tree_of args.now)) ≡ t.now ∷ []) }
{
    if args.len() > 4 {
        text_in(&args[4])
    } else {
        None
    }
}

/// Adds the pattern of a call, whose number this is.
#[tactic(auto, using(crate::proofs::CountedNodes::own_pattern, crate::proofs::CountedNodes::other_pattern, crate::proofs::CountedNodes::other_meant, crate::proofs::CountedNodes::fifth_meant, crate::proofs::CountedNodes::no_fifth_meant, crate::proofs::CountedNodes::other_fate, crate::proofs::CountedNodes::no_fifth_fate))]
fn push_pattern_of(
    known: &mut Patterns,
    found: &mut Vec<Pattern>,
    which: u32,
    function: Function,
    args: &[Expr],
) -> Result<(), BindError>
    ensures added { OnOk result (found.new.items ≡ found.old.items ++ pattern_of function (trees_of (map tree_of args.now))) }
    ensures meant { OnOk result (is_meant_node (call function (trees_of (map tree_of args.now))) ≡ true) }
    ensures fate { (refused : List (List ℕ)) → Agrees known.new refused → IsNodeFate refused which (call function (trees_of (map tree_of args.now))) result }
    ensures still { Stays known.old known.new }
{
    if !is_label_replace(function) {
        return Ok(());
    }
    match fifth_text(args) {
        Some(text) => push_pattern(known, found, which, text),
        None => Ok(()),
    }
}

/// Adds what a counted node has, its matchers or its pattern. Its number is this one.
fn push_parts(
    known: &mut Patterns,
    selectors: &mut Vec<Matchers>,
    patterns: &mut Vec<Pattern>,
    which: u32,
    node: &Expr,
) -> Result<(), BindError>
    ensures selectors { OnOk result (selectors.new.items ≡ selectors.old.items ++ matchers_in (tree_of node.now ∷ [])) }
    ensures patterns { OnOk result (patterns.new.items ≡ patterns.old.items ++ patterns_in (tree_of node.now ∷ [])) }
    ensures meant { OnOk result (is_meant_node (tree_of node.now) ≡ true) }
    ensures selects { OnOk result (is_empty_selector (tree_of node.now) ≡ false) }
    ensures fate { (refused : List (List ℕ)) → Agrees known.new refused → IsNodeFate refused which (tree_of node.now) result }
    ensures still { Stays known.old known.new }
{
    match node {
        Expr::Select { selector, .. } => push_selector(known, selectors, which, selector),
        Expr::Call { function, args } => push_pattern_of(known, patterns, which, *function, args),
        _ => Ok(()),
    }
}

/// The matchers of selectors, and patterns.
#[derive(Drop)]
struct Parts {
    selectors: Vec<Matchers>,
    patterns: Vec<Pattern>,
}

/// What counted nodes have, where none of them is an empty selector.
fn parts_of(alloc: Global, known: &mut Patterns, nodes: &[&Expr]) -> Result<Parts, BindError>
    requires { length nodes.now ≤ 4294967295 }
    ensures selectors { IfOk result (λ p. p.selectors.items ≡ matchers_in (map (λ e. tree_of e.now) nodes.now)) }
    ensures patterns { IfOk result (λ p. p.patterns.items ≡ patterns_in (map (λ e. tree_of e.now) nodes.now)) }
    ensures meant { OnOk result (are_meant (map (λ e. tree_of e.now) nodes.now) ≡ true) }
    ensures select { OnOk result (list_any is_empty_selector (map (λ e. tree_of e.now) nodes.now) ≡ false) }
    ensures fate { (refused : List (List ℕ)) → Agrees known.new refused → (tree : Tree) → map (λ e. tree_of e.now) nodes.now ≡ counted tree → IsBindFate refused tree result }
    ensures still { Stays known.old known.new }
{
    let mut selectors = Vec::new(alloc);
    let mut patterns = Vec::new(alloc);
    for i in 0..nodes.len() {
        push_parts(known, &mut selectors, &mut patterns, i as u32, nodes[i])?;
    }
    Ok(Parts {
        selectors,
        patterns,
    })
}

/// What the counted nodes of a query have.
#[tactic(auto, using(crate::proofs::CountedNodes::counted_size, crate::proofs::CountedNodes::counted_matchers, crate::proofs::CountedNodes::counted_patterns, crate::proofs::BindSteps::bindable))]
fn query_parts(alloc: Global, known: &mut Patterns, expr: &Expr) -> Result<Parts, BindError>
    requires { size (tree_of expr.now) ≤ 4294967295 }
    ensures selectors { IfOk result (λ p. p.selectors.items ≡ selectors_of (tree_of expr.now)) }
    ensures patterns { IfOk result (λ p. p.patterns.items ≡ patterns_of (tree_of expr.now)) }
    ensures selects { OnOk result (IsBindable (tree_of expr.now)) }
    ensures fate { (refused : List (List ℕ)) → Agrees known.new refused → IsBindFate refused (tree_of expr.now) result }
    ensures still { Stays known.old known.new }
{
    let nodes = counted(alloc, expr)?;
    parts_of(alloc, known, &nodes)
}

/// A query with the matchers of its selectors and the patterns of its calls of `label_replace`, such as `read_query` gives. Of a
/// refused pattern and an empty selector the first in preorder is told, and of both at one node the pattern. It calls itself as
/// deep as the tree is high. The patterns that were read before keep their fates.
#[tactic(auto, using(crate::proofs::OverGrids::is_bound))]
pub fn bind(alloc: Global, patterns: &mut Patterns, expr: Expr) -> Result<BoundQuery, BindError>
    requires written { HasText (tree_of expr) }
    requires small { size (tree_of expr) ≤ 4294967295 }
    requires low { height (tree_of expr) ≤ 64 }
    requires evaluated { is_evaluated (tree_of expr) ≡ true }
    ensures bound { IfOk result (λ b. b ≡ tree_of expr) }
    ensures selects { OnOk result (IsBindable (tree_of expr)) }
    ensures fate { (refused : List (List ℕ)) → Agrees patterns.new refused → IsBindFate refused (tree_of expr) result }
    ensures still { Stays patterns.old patterns.new }
{
    let Parts {
        selectors,
        patterns,
    } = query_parts(alloc, patterns, &expr)?;
    let kind = kind_of(&expr);
    let matchers = Arc::new(alloc, selectors)?;
    let patterns = Arc::new(alloc, patterns)?;
    Ok(BoundQuery {
        expr,
        matchers,
        patterns,
        kind,
    })
}
