//! The rules of signs and binary operators. Prometheus, Operators.

ghost use Rattle.std.specs.Prelude.{◌≡◌, ◌&&◌};
ghost use Rattle.std.specs.List.{list_any};
ghost use Rattle.std.specs.Str.{bytes_eq};
ghost use Rattle.pf_model.specs.Canonical.{is_one};
ghost use Rattle.pf_model.specs.Grammar.{is_nil};
ghost use Rattle.pf_model.specs.Typing.{has_common, joint_kind, mismatches, operator_wants, scalar_or_instant};
ghost use Rattle.pf_model.specs.Words.{is_comparison, is_set_operator};
ghost use Rattle.pf_types.specs.Faults.{fault_in};
ghost use Rattle.pf_types.specs.Rules.{bool_fault, matching_fault, operand_fault};

use crate::error::TypeError;
use pf_base::Text;
use pf_model::{BinaryOp, Kind, Matching, Side, Sign};

/// The operand of a sign.
pub(crate) fn signed(at: u32, kind: Kind) -> Result<(), TypeError>
    ensures { fault_in result ≡ operand_fault at scalar_or_instant kind }
{
    if kind == Kind::Scalar || kind == Kind::Instant {
        Ok(())
    } else {
        Err(TypeError::Wrong {
            at,
            wanted: Kind::Instant,
            found: kind,
        })
    }
}

/// `and or unless`
fn is_set_operator(sign: Sign) -> bool
    ensures { result ≡ is_set_operator sign }
{
    matches!(sign, Sign::And | Sign::Or | Sign::Unless)
}

/// `== != < <= > >=`
fn is_comparison(sign: Sign) -> bool
    ensures { result ≡ is_comparison sign }
{
    matches!(
        sign,
        Sign::Equal
            | Sign::NotEqual
            | Sign::Less
            | Sign::LessOrEqual
            | Sign::Greater
            | Sign::GreaterOrEqual
    )
}

/// An operand of a binary operator.
pub(crate) fn operand(at: u32, op: BinaryOp, kind: Kind) -> Result<(), TypeError>
    ensures { fault_in result ≡ operand_fault at (operator_wants op) kind }
{
    if kind == Kind::Instant || kind == Kind::Scalar && !is_set_operator(op.sign) {
        Ok(())
    } else {
        Err(TypeError::Wrong {
            at,
            wanted: Kind::Instant,
            found: kind,
        })
    }
}

/// `bool` on a comparison of two scalars.
pub(crate) fn with_bool(at: u32, op: BinaryOp, left: Kind, right: Kind) -> Result<(), TypeError>
    ensures { fault_in result ≡ bool_fault at op left right }
{
    let scalars = left == Kind::Scalar && right == Kind::Scalar;
    if is_comparison(op.sign) && scalars && !op.with_bool {
        Err(TypeError::BoolNeeded { at })
    } else {
        Ok(())
    }
}

fn stands_in(label: &Text, labels: &[Text]) -> bool
    ensures { result ≡ list_any (bytes_eq label.now) labels.now }
{
    labels.iter().any(|other| label.as_str() == other.as_str())
}

/// Whether a label stands in both lists.
fn has_common(labels: &[Text], others: &[Text]) -> bool
    ensures { result ≡ has_common labels.now others.now }
{
    labels.iter().any(|label| stands_in(label, others))
}

/// Whether there is no clause on labels, or one that says nothing.
fn is_plain(matching: &Matching) -> bool
    ensures { result ≡ (is_nil matching.now.labels && is_one matching.now.side) }
{
    matching.labels.is_empty() && matching.side == Side::One
}

/// Whether an operator's clauses on labels are wrong, where both operands are vectors or not.
fn mismatches(op: BinaryOp, matching: &Matching, vectors: bool) -> bool
    ensures { result ≡ mismatches op matching.now vectors }
{
    (!vectors && !is_plain(matching))
        || (is_set_operator(op.sign) && matching.side != Side::One)
        || (matching.on && has_common(&matching.labels, &matching.include))
}

/// The labels and the grouping of a binary operator.
pub(crate) fn label_clauses(
    at: u32,
    op: BinaryOp,
    matching: &Matching,
    left: Kind,
    right: Kind,
) -> Result<(), TypeError>
    ensures { fault_in result ≡ matching_fault at op matching.now left right }
{
    let vectors = left == Kind::Instant && right == Kind::Instant;
    if mismatches(op, matching, vectors) {
        Err(TypeError::BadMatching { at })
    } else {
        Ok(())
    }
}

/// What an arithmetic operator or a comparison gives.
pub(crate) fn joint_kind(left: Kind, right: Kind) -> Kind
    ensures { result ≡ joint_kind left right }
{
    if left == Kind::Scalar && right == Kind::Scalar {
        Kind::Scalar
    } else {
        Kind::Instant
    }
}
