//! What calls and aggregations want of their arguments. Prometheus, Query functions; Operators: Aggregation operators.

ghost use Rattle.std.specs.Prelude.{◌≡◌, drop, length, map, nat_eq, take};
ghost use Rattle.std.specs.List.{list_all};
ghost use Rattle.std.specs.Option.{option_map};
ghost use Rattle.pf_model.specs.Lists.{at};
ghost use Rattle.pf_model.specs.Trees.{tree_of};
ghost use Rattle.pf_model.specs.Typing.{aggregation_wants, function_kind, function_wants, label_arguments, names_label, only};
ghost use Rattle.pf_types.specs.Faults.{fault_in, fault_of};
ghost use Rattle.pf_types.specs.Rules.{argument_fault, name_fault, operand_fault, wanted_kinds};

use crate::error::TypeError;
use pf_base::is_label_name;
use pf_model::{AggOp, Expr, Function, InstantFn, Kind};

/// What a call or an aggregation wants of its arguments: these kinds, and texts behind them.
#[derive(Clone, Copy)]
pub(crate) struct Wants {
    kinds: &'static [Kind],
    texts: usize,
}

/// What a function wants where so many arguments are given. `label_join` has one source at least.
pub(crate) fn function_wants(function: Function, given: usize) -> Wants
    ensures { wanted_kinds result ≡ function_wants function given }
{
    let Function::Instant(function) = function else {
        return Wants {
            kinds: &[Kind::Range],
            texts: 0,
        };
    };
    Wants {
        kinds: match function {
            InstantFn::Clamp => &[Kind::Instant, Kind::Scalar, Kind::Scalar],
            InstantFn::ClampMin | InstantFn::ClampMax => &[Kind::Instant, Kind::Scalar],
            InstantFn::Round if given > 1 => &[Kind::Instant, Kind::Scalar],
            InstantFn::Vector => &[Kind::Scalar],
            InstantFn::Time => &[],
            _ => &[Kind::Instant],
        },
        texts: match function {
            InstantFn::LabelReplace => 4,
            InstantFn::LabelJoin => given.saturating_sub(1).max(3),
            _ => 0,
        },
    }
}

/// What an aggregation wants.
pub(crate) fn aggregation_wants(op: AggOp) -> Wants
    ensures { wanted_kinds result ≡ aggregation_wants op }
{
    let kinds: &[Kind] = match op {
        AggOp::Topk | AggOp::Bottomk | AggOp::Quantile => &[Kind::Scalar, Kind::Instant],
        _ => &[Kind::Instant],
    };
    Wants { kinds, texts: 0 }
}

impl Wants {
    /// The kind of the argument at a place.
    pub(crate) fn get(self, place: usize) -> Option<Kind>
        ensures { result ≡ at (wanted_kinds self) place }
    {
        if place < self.kinds.len() {
            return Some(self.kinds[place]);
        }
        if place - self.kinds.len() < self.texts {
            Some(Kind::Text)
        } else {
            None
        }
    }

    /// Whether so many arguments are right.
    pub(crate) fn are(self, given: usize) -> bool
        ensures { result ≡ nat_eq (length (wanted_kinds self)) given }
    {
        given >= self.kinds.len() && given - self.kinds.len() == self.texts
    }
}

/// An operand of which one kind is wanted.
pub(crate) fn of_kind(at: u32, wanted: Kind, kind: Kind) -> Result<(), TypeError>
    ensures { fault_in result ≡ operand_fault at (only wanted) kind }
{
    if kind == wanted {
        Ok(())
    } else {
        Err(TypeError::Wrong {
            at,
            wanted,
            found: kind,
        })
    }
}

/// What is wrong with an argument, where one is wanted at its place.
pub(crate) fn wrong_argument(at: u32, wanted: Option<Kind>, kind: Kind) -> Option<TypeError>
    ensures { option_map fault_of result ≡ argument_fault at wanted kind }
{
    of_kind(at, wanted?, kind).err()
}

fn names_label(arg: &Expr) -> bool
    ensures { result ≡ names_label (tree_of arg.now) }
{
    match arg {
        Expr::Text { text } => is_label_name(text.as_str()),
        _ => false,
    }
}

/// Whether the argument at a place names a label, where there is one.
#[tactic(auto, using(crate::proofs::Names::one_at, crate::proofs::Names::none_at))]
fn names_label_at(args: &[Expr], place: usize) -> bool
    ensures { result ≡ list_all (λ a. names_label (tree_of a)) (take 1 (drop place args.now)) }
{
    place >= args.len() || names_label(&args[place])
}

/// Whether the arguments from a place on name labels.
fn name_labels_from(args: &[Expr], place: usize) -> bool
    ensures { result ≡ list_all (λ a. names_label (tree_of a)) (drop place args.now) }
{
    args.iter().skip(place).all(names_label)
}

/// Whether the targets and sources of `label_replace` and `label_join` name labels.
#[tactic(auto, using(crate::proofs::Names::names, crate::proofs::Names::names_behind))]
fn are_named(function: Function, args: &[Expr]) -> bool
    ensures { result ≡ list_all names_label (label_arguments function (map tree_of args.now)) }
{
    match function {
        Function::Instant(InstantFn::LabelReplace) => {
            names_label_at(args, 1) && names_label_at(args, 3)
        }
        Function::Instant(InstantFn::LabelJoin) => {
            names_label_at(args, 1) && name_labels_from(args, 3)
        }
        _ => true,
    }
}

/// The names of labels among a call's arguments.
pub(crate) fn label_names(at: u32, function: Function, args: &[Expr]) -> Result<(), TypeError>
    ensures { fault_in result ≡ name_fault at function (map tree_of args.now) }
{
    if are_named(function, args) {
        Ok(())
    } else {
        Err(TypeError::BadName { at })
    }
}

/// What a call gives.
pub(crate) fn function_kind(function: Function) -> Kind
    ensures { result ≡ function_kind function }
{
    match function {
        Function::Instant(InstantFn::Scalar | InstantFn::Time) => Kind::Scalar,
        _ => Kind::Instant,
    }
}
