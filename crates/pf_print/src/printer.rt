//! Queries written as canonical texts.

ghost use Rattle.std.specs.Prelude.{◌≡◌, ◌++◌, ◌∷◌, codes, cond, map, not, IfOk, OnOk, List, ℕ, ◌≤◌, length};
ghost use Rattle.pf_model.specs.Lists.{all_behind};
ghost use Rattle.pf_model.specs.Canonical.{at_text, canonical, group_text, grouping_text, in_brackets, keys_text, names_text, matcher_text, mods_text, offset_text, range_text, resolution_text, selector_text};
ghost use Rattle.pf_lex.specs.CanonicalTokens.{HasTree};
ghost use Rattle.pf_model.specs.Parsing.{Parses, most_bytes};
ghost use Rattle.pf_model.specs.Trees.{Tree, height, tree_of};
ghost use Rattle.pf_print.specs.Printed.{IsDerivedBy, aggregate_text, args_text, call_text, comma_before, expr_text, has_keys, operator_between, over_text, right_text, select_text, subquery_text, unary_text};

use crate::output::{Output, push_millis, push_quoted, push_seconds, push_value};
use pf_base::{OutOfMemory, Text};
use pf_model::{
    AggOp, At, BinaryOp, Expr, Function, Grouping, Matcher, Matching, Mods, Side, aggregation_word,
    function_name, match_text, operator_text,
};
use std::alloc::Global;

#[tactic(auto, using(crate::proofs::Separated::labels_next, crate::proofs::Separated::take_whole))]
fn push_labels_behind(out: &mut Output, labels: &[Text]) -> Result<(), OutOfMemory>
    ensures { OnOk result (out.new ≡ out.old ++ all_behind (codes ", ") labels.now) }
{
    for label in labels {
        out.push(", ")?;
        out.push(label.as_str())?;
    }
    Ok(())
}

/// Labels in brackets.
fn push_labels(out: &mut Output, labels: &[Text]) -> Result<(), OutOfMemory>
    ensures { OnOk result (out.new ≡ out.old ++ names_text labels.now) }
{
    out.push("(")?;
    if let Some((first, behind)) = labels.split_first() {
        out.push(first.as_str())?;
        push_labels_behind(out, behind)?;
    }
    out.push(")")
}

fn push_matcher(alloc: Global, out: &mut Output, matcher: &Matcher) -> Result<(), OutOfMemory>
    ensures { OnOk result (out.new ≡ out.old ++ matcher_text matcher.now) }
{
    out.push(matcher.label.as_str())?;
    out.push(match_text(matcher.sign))?;
    push_quoted(alloc, out, matcher.text.as_str())
}

#[tactic(auto, using(crate::proofs::Separated::mapped_next, crate::proofs::Separated::take_whole))]
fn push_matchers_behind(
    alloc: Global,
    out: &mut Output,
    matchers: &[Matcher],
) -> Result<(), OutOfMemory>
    ensures { OnOk result (out.new ≡ out.old ++ all_behind (codes ",") (map matcher_text matchers.now)) }
{
    for matcher in matchers {
        out.push(",")?;
        push_matcher(alloc, out, matcher)?;
    }
    Ok(())
}

fn push_selector(alloc: Global, out: &mut Output, matchers: &[Matcher]) -> Result<(), OutOfMemory>
    ensures { OnOk result (out.new ≡ out.old ++ selector_text matchers.now) }
{
    out.push("{")?;
    if let Some((first, behind)) = matchers.split_first() {
        push_matcher(alloc, out, first)?;
        push_matchers_behind(alloc, out, behind)?;
    }
    out.push("}")
}

fn push_range(out: &mut Output, range: Option<u64>) -> Result<(), OutOfMemory>
    ensures { OnOk result (out.new ≡ out.old ++ range_text range) }
{
    let Some(range) = range else {
        return Ok(());
    };
    out.push("[")?;
    push_millis(out, range)?;
    out.push("]")
}

fn push_at(out: &mut Output, at: Option<At>) -> Result<(), OutOfMemory>
    ensures { OnOk result (out.new ≡ out.old ++ at_text at) }
{
    match at {
        None => Ok(()),
        Some(At::Time { millis }) => {
            out.push(" @ ")?;
            push_seconds(out, millis)
        }
        Some(At::Start) => out.push(" @ start()"),
        Some(At::End) => out.push(" @ end()"),
    }
}

fn push_offset(out: &mut Output, offset: i64) -> Result<(), OutOfMemory>
    ensures { OnOk result (out.new ≡ out.old ++ offset_text offset) }
{
    if offset == 0 {
        return Ok(());
    }
    if offset < 0 {
        out.push(" offset -")?;
    } else {
        out.push(" offset ")?;
    }
    push_millis(out, offset.unsigned_abs())
}

fn push_mods(out: &mut Output, mods: &Mods) -> Result<(), OutOfMemory>
    ensures { OnOk result (out.new ≡ out.old ++ mods_text mods.now) }
{
    push_at(out, mods.at)?;
    push_offset(out, mods.offset)
}

fn has_keys(matching: &Matching) -> bool
    ensures { result ≡ has_keys matching.now }
{
    !matching.labels.is_empty() || matching.on || matching.side != Side::One
}

/// `on` or `ignoring`, where its list is not empty, where it is `on`, and where a grouping follows.
fn push_keys(out: &mut Output, matching: &Matching) -> Result<(), OutOfMemory>
    ensures { OnOk result (out.new ≡ out.old ++ keys_text matching.now) }
{
    if !has_keys(matching) {
        return Ok(());
    }
    out.push(if matching.on { " on " } else { " ignoring " })?;
    push_labels(out, &matching.labels)
}

fn push_group(out: &mut Output, side: Side, include: &[Text]) -> Result<(), OutOfMemory>
    ensures { OnOk result (out.new ≡ out.old ++ group_text side include.now) }
{
    match side {
        Side::One => Ok(()),
        Side::Left => {
            out.push(" group_left ")?;
            push_labels(out, include)
        }
        Side::Right => {
            out.push(" group_right ")?;
            push_labels(out, include)
        }
    }
}

/// What stands between the operands.
fn push_operator(out: &mut Output, op: BinaryOp, matching: &Matching) -> Result<(), OutOfMemory>
    ensures { OnOk result (out.new ≡ out.old ++ operator_between op matching.now) }
{
    out.push(" ")?;
    out.push(operator_text(op.sign))?;
    if op.with_bool {
        out.push(" bool")?;
    }
    push_keys(out, matching)?;
    push_group(out, matching.side, &matching.include)?;
    out.push(" ")
}

/// A clause and the blank behind it.
fn push_grouping(out: &mut Output, grouping: &Grouping) -> Result<(), OutOfMemory>
    ensures { OnOk result (out.new ≡ out.old ++ (grouping_text grouping.now ++ codes " ")) }
{
    out.push(if grouping.without {
        " without "
    } else {
        " by "
    })?;
    push_labels(out, &grouping.labels)?;
    out.push(" ")
}

fn push_resolution(out: &mut Output, resolution: Option<u64>) -> Result<(), OutOfMemory>
    ensures { OnOk result (out.new ≡ out.old ++ resolution_text resolution) }
{
    match resolution {
        None => Ok(()),
        Some(resolution) => push_millis(out, resolution),
    }
}

/// A subquery's range and what stands behind it.
fn push_over(
    out: &mut Output,
    range: u64,
    resolution: Option<u64>,
    mods: &Mods,
) -> Result<(), OutOfMemory>
    ensures { OnOk result (out.new ≡ out.old ++ over_text range resolution mods.now) }
{
    out.push("[")?;
    push_millis(out, range)?;
    out.push(":")?;
    push_resolution(out, resolution)?;
    out.push("]")?;
    push_mods(out, mods)
}

/// A comma before each argument but the first.
fn push_comma(out: &mut Output, number: usize) -> Result<(), OutOfMemory>
    ensures { OnOk result (out.new ≡ out.old ++ comma_before number) }
{
    if number == 0 {
        return Ok(());
    }
    out.push(", ")
}

/// Arguments in brackets.
#[cycle(push_query)]
fn push_args(alloc: Global, out: &mut Output, args: &[Expr]) -> Result<(), OutOfMemory>
    ensures { OnOk result (out.new ≡ out.old ++ args_text args.now) }
{
    out.push("(")?;
    for (number, arg) in args.iter().enumerate() {
        push_comma(out, number)?;
        push_expr(alloc, out, arg)?;
    }
    out.push(")")
}

#[cycle(push_query)]
fn push_bracketed(alloc: Global, out: &mut Output, expr: &Expr) -> Result<(), OutOfMemory>
    ensures { OnOk result (out.new ≡ out.old ++ in_brackets (expr_text expr.now)) }
{
    out.push("(")?;
    push_expr(alloc, out, expr)?;
    out.push(")")
}

#[cycle(push_query)]
fn push_unary(alloc: Global, out: &mut Output, minus: bool, arg: &Expr) -> Result<(), OutOfMemory>
    ensures { OnOk result (out.new ≡ out.old ++ unary_text minus arg.now) }
{
    out.push(if minus { "-" } else { "+" })?;
    push_bracketed(alloc, out, arg)
}

/// An operator and its right operand.
#[cycle(push_query)]
fn push_right(
    alloc: Global,
    out: &mut Output,
    op: BinaryOp,
    matching: &Matching,
    right: &Expr,
) -> Result<(), OutOfMemory>
    ensures { OnOk result (out.new ≡ out.old ++ right_text op matching.now right.now) }
{
    push_operator(out, op, matching)?;
    push_bracketed(alloc, out, right)
}

#[cycle(push_query)]
fn push_call(
    alloc: Global,
    out: &mut Output,
    function: Function,
    args: &[Expr],
) -> Result<(), OutOfMemory>
    ensures { OnOk result (out.new ≡ out.old ++ call_text function args.now) }
{
    out.push(function_name(function))?;
    push_args(alloc, out, args)
}

#[cycle(push_query)]
fn push_aggregate(
    alloc: Global,
    out: &mut Output,
    op: AggOp,
    grouping: &Grouping,
    args: &[Expr],
) -> Result<(), OutOfMemory>
    ensures { OnOk result (out.new ≡ out.old ++ aggregate_text op grouping.now args.now) }
{
    out.push(aggregation_word(op))?;
    push_grouping(out, grouping)?;
    push_args(alloc, out, args)
}

fn push_select(
    alloc: Global,
    out: &mut Output,
    matchers: &[Matcher],
    range: Option<u64>,
    mods: &Mods,
) -> Result<(), OutOfMemory>
    ensures { OnOk result (out.new ≡ out.old ++ select_text matchers.now range mods.now) }
{
    push_selector(alloc, out, matchers)?;
    push_range(out, range)?;
    push_mods(out, mods)
}

#[cycle(push_query)]
fn push_subquery(
    alloc: Global,
    out: &mut Output,
    arg: &Expr,
    range: u64,
    resolution: Option<u64>,
    mods: &Mods,
) -> Result<(), OutOfMemory>
    ensures { OnOk result (out.new ≡ out.old ++ subquery_text arg.now range resolution mods.now) }
{
    push_bracketed(alloc, out, arg)?;
    push_over(out, range, resolution, mods)
}

#[cycle(push_query)]
fn push_expr(alloc: Global, out: &mut Output, expr: &Expr) -> Result<(), OutOfMemory>
    ensures { OnOk result (out.new ≡ out.old ++ expr_text expr.now) }
{
    match expr {
        Expr::Number { value } => push_value(alloc, out, *value),
        Expr::Text { text } => push_quoted(alloc, out, text.as_str()),
        Expr::Unary { minus, arg } => push_unary(alloc, out, *minus, arg),
        Expr::Binary {
            op,
            matching,
            left,
            right,
        } => {
            push_bracketed(alloc, out, left)?;
            push_right(alloc, out, *op, matching, right)
        }
        Expr::Call { function, args } => push_call(alloc, out, *function, args),
        Expr::Aggregate { op, grouping, args } => push_aggregate(alloc, out, *op, grouping, args),
        Expr::Select {
            selector,
            range,
            mods,
        } => push_select(alloc, out, &selector.matchers, *range, mods),
        Expr::Subquery {
            arg,
            range,
            resolution,
            mods,
        } => push_subquery(alloc, out, arg, *range, *resolution, mods),
    }
}

fn printed(alloc: Global, expr: &Expr) -> Result<Text, OutOfMemory>
    ensures { IfOk result (λ t. t ≡ canonical (tree_of expr.now)) }
{
    let mut out = Output::new(alloc);
    push_expr(alloc, &mut out, expr)?;
    Ok(out.into_text())
}

/// The canonical text of a query: numbers without exponents, durations in milliseconds, brackets round every operand,
/// names and keywords in small letters: `rate(a[5m]) + 2` is written as `(rate({__name__="a"}[300000ms])) + (2)`.
///
/// Where some text of any length derives the query's tree, its times within the limit, this text derives it too, and no
/// other tree if it has at most 64 levels: `pf_parse::parse` then reads this text as this tree if it has at most 65,536
/// bytes.
pub fn print(alloc: Global, expr: &Expr) -> Result<Text, OutOfMemory>
    ensures canonical { IfOk result (λ t. t ≡ canonical (tree_of expr.now)) }
    ensures derives { (text : List ℕ) → HasTree text (tree_of expr.now) → IfOk result (λ t. IsDerivedBy t (tree_of expr.now)) }
    ensures only { (text : List ℕ) → HasTree text (tree_of expr.now) → height (tree_of expr.now) ≤ 64 → IfOk result (λ t. (u : Tree) → IsDerivedBy t u → u ≡ tree_of expr.now) }
    ensures read_back { (text : List ℕ) → HasTree text (tree_of expr.now) → height (tree_of expr.now) ≤ 64 → IfOk result (λ t. length t ≤ most_bytes → Parses t (tree_of expr.now)) }
{
    printed(alloc, expr)
}
