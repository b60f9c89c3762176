//! The kinds of a query's nodes, in post-order.

ghost use Rattle.std.specs.Prelude.{◌≡◌, ◌+◌, ◌≤◌, map, IfOk};
ghost use Rattle.std.specs.Option.{option_map};
ghost use Rattle.pf_model.specs.Trees.{size, sizes, tree_of, trees_of};
ghost use Rattle.pf_model.specs.Typing.{first_wrong, joint_kind, kind_of, only, typing};
ghost use Rattle.pf_types.specs.Faults.{all_from, capped, capped_result, fault_from, fault_in, fault_of, seen};
ghost use Rattle.pf_types.specs.Rules.{arguments_fault, operation_fault, wanted_kinds};

use crate::arguments::{
    Wants, aggregation_wants, function_kind, function_wants, label_names, of_kind, wrong_argument,
};
use crate::error::TypeError;
use crate::operators::{joint_kind, label_clauses, operand, signed, with_bool};
use crate::subquery::fineness;
use pf_model::{BinaryOp, Expr, Kind, Matching};

/// A node that breaks no rule, nor does any below it: its kind, and the number behind the last of these nodes.
#[derive(Clone, Copy)]
struct Lawful {
    kind: Kind,
    next: u32,
}

/// Operands that break no rule: the number behind the last node of theirs, and what is wrong with the first of another
/// kind than is wanted.
#[derive(Clone, Copy)]
struct Operands {
    next: u32,
    wrong: Option<TypeError>,
}

impl Lawful {
    fn of(kind: Kind, next: u32) -> Lawful
        ensures { (result.kind ≡ kind) × (result.next ≡ next) }
    {
        Lawful { kind, next }
    }
}

/// The number behind a node's own.
fn after(at: u32) -> u32
    ensures { result ≡ capped (at + 1) }
{
    at.saturating_add(1)
}

/// The kind of a binary operator's node.
fn operation(
    at: u32,
    op: BinaryOp,
    matching: &Matching,
    left: Kind,
    right: Kind,
) -> Result<Kind, TypeError>
    ensures kind { IfOk result (λ k. k ≡ joint_kind left right) }
    ensures fault { fault_in result ≡ operation_fault at op matching.now left right }
{
    operand(at, op, left)?;
    operand(at, op, right)?;
    with_bool(at, op, left, right)?;
    label_clauses(at, op, matching, left, right)?;
    Ok(joint_kind(left, right))
}

/// Goes through an operator's operands.
#[cycle(kinds)]
fn operands_from(at: u32, wants: Wants, args: &[Expr]) -> Result<Operands, TypeError>
    ensures wrong { IfOk result (λ o. option_map fault_of o.wrong ≡ first_wrong at (map only (wanted_kinds wants)) (map tree_of args.now)) }
    ensures next { IfOk result (λ o. o.next ≡ capped (capped (at + 1) + sizes (trees_of (map tree_of args.now)))) }
    ensures fault { fault_in result ≡ all_from (capped (at + 1)) (trees_of (map tree_of args.now)) }
{
    let mut next = after(at);
    let mut wrong = None;
    for (place, arg) in args.iter().enumerate() {
        let arg = kind_from(next, arg)?;
        next = arg.next;
        wrong = wrong.or(wrong_argument(at, wants.get(place), arg.kind));
    }
    Ok(Operands { next, wrong })
}

/// Checks a tree whose nodes are numbered from this number on.
#[cycle(kinds)]
fn kind_from(at: u32, expr: &Expr) -> Result<Lawful, TypeError>
    ensures kind { IfOk result (λ l. l.kind ≡ kind_of (tree_of expr.now)) }
    ensures next { IfOk result (λ l. l.next ≡ capped (at + size (tree_of expr.now))) }
    ensures fault { fault_in result ≡ fault_from at (tree_of expr.now) }
{
    match expr {
        Expr::Number { .. } => Ok(Lawful::of(Kind::Scalar, after(at))),
        Expr::Text { .. } => Ok(Lawful::of(Kind::Text, after(at))),
        Expr::Unary { arg, .. } => {
            let arg = kind_from(after(at), arg)?;
            signed(at, arg.kind)?;
            Ok(arg)
        }
        Expr::Binary {
            op,
            matching,
            left,
            right,
        } => {
            let left = kind_from(after(at), left)?;
            let right = kind_from(left.next, right)?;
            let kind = operation(at, *op, matching, left.kind, right.kind)?;
            Ok(Lawful::of(kind, right.next))
        }
        Expr::Call { function, args } => {
            let next = arguments(at, function_wants(*function, args.len()), args)?;
            label_names(at, *function, args)?;
            Ok(Lawful::of(function_kind(*function), next))
        }
        Expr::Aggregate { op, args, .. } => {
            let next = arguments(at, aggregation_wants(*op), args)?;
            Ok(Lawful::of(Kind::Instant, next))
        }
        Expr::Select { range: None, .. } => Ok(Lawful::of(Kind::Instant, after(at))),
        Expr::Select { range: Some(_), .. } => Ok(Lawful::of(Kind::Range, after(at))),
        Expr::Subquery {
            arg,
            range,
            resolution,
            ..
        } => {
            let arg = kind_from(after(at), arg)?;
            of_kind(at, Kind::Instant, arg.kind)?;
            fineness(at, *range, *resolution)?;
            Ok(Lawful::of(Kind::Range, arg.next))
        }
    }
}

/// Checks an operator's operands, and then their number and their kinds. Gives the number behind the last node of theirs.
#[cycle(kinds)]
fn arguments(at: u32, wants: Wants, args: &[Expr]) -> Result<u32, TypeError>
    ensures next { IfOk result (λ n. n ≡ capped (capped (at + 1) + sizes (trees_of (map tree_of args.now)))) }
    ensures fault { fault_in result ≡ arguments_fault at (wanted_kinds wants) (map tree_of args.now) }
{
    let operands = operands_from(at, wants, args)?;
    if !wants.are(args.len()) {
        return Err(TypeError::ArgCount { at });
    }
    match operands.wrong {
        Some(error) => Err(error),
        None => Ok(operands.next),
    }
}

/// The kind of a query, or what is wrong with the first of its nodes, children before their node, that breaks a rule.
/// Prometheus, Querying basics; Operators; Query functions. At one node the rules are tried in this order: the number of
/// arguments; their kinds, from the left; the names of labels; `bool`; the labels and the grouping of a binary operator;
/// and how fine a subquery is. It takes no memory, and calls itself as deep as the tree is high.
#[tactic(auto, using(crate::proofs::Exact::exact_from), unfolding(crate::specs::Faults::fault_from))]
pub fn check(expr: &Expr) -> Result<Kind, TypeError>
    ensures exact { size (tree_of expr.now) ≤ 4294967296 → seen result ≡ typing (tree_of expr.now) }
    ensures capped { seen result ≡ capped_result (typing (tree_of expr.now)) }
{
    let query = kind_from(0, expr)?;
    Ok(query.kind)
}

/// The kind of a query whose kinds are lawful. It takes no memory, and calls itself as deep as the tree is high.
pub(crate) fn kind_of(expr: &Expr) -> Kind
    ensures { result ≡ kind_of (tree_of expr.now) }
{
    match expr {
        Expr::Number { .. } => Kind::Scalar,
        Expr::Text { .. } => Kind::Text,
        Expr::Unary { arg, .. } => kind_of(arg),
        Expr::Binary { left, right, .. } => joint_kind(kind_of(left), kind_of(right)),
        Expr::Call { function, .. } => function_kind(*function),
        Expr::Aggregate { .. } => Kind::Instant,
        Expr::Select { range: None, .. } => Kind::Instant,
        Expr::Select { range: Some(_), .. } => Kind::Range,
        Expr::Subquery { .. } => Kind::Range,
    }
}
