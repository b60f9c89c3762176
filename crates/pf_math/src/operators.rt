//! Binary operators at one value, and of scalars.

ghost use Rattle.std.specs.Prelude.{◌≡◌, ◌||◌, pos, cond, IfOk};
ghost use Rattle.pf_model.specs.Micros.{one};
ghost use Rattle.pf_model.specs.Matching.{compared, is_arithmetic, of_scalars, operated, result_labels};

use pf_base::{Labels, OutOfMemory, Value};
use pf_model::{BinaryOp, Sign};

/// 1 or 0.
#[tactic(auto, using(crate::proofs::Signs::one_is, crate::proofs::Signs::nothing_is))]
fn flag(holds: bool) -> Value
    ensures { result ≡ cond holds one (pos 0) }
{
    if holds {
        Value::new(1_000_000)
    } else {
        Value::new(0)
    }
}

/// A comparison's value, where it has one.
fn compared(with_bool: bool, operand: Value, holds: bool) -> Option<Value>
    ensures { result ≡ compared with_bool operand holds }
{
    if with_bool {
        Some(flag(holds))
    } else if holds {
        Some(operand)
    } else {
        None
    }
}

/// The value of an operator at two operands; `filtered` is the one that a comparison without `bool` keeps: of two vectors
/// the left one's, of a scalar and a vector the vector's. None for a zero divisor, where a comparison without `bool`
/// doesn't hold, and for `and`, `or` and `unless`. Prometheus, Operators: Arithmetic and Comparison binary operators.
pub fn operated(op: BinaryOp, filtered: Value, a: Value, b: Value) -> Option<Value>
    ensures { result ≡ operated op filtered a b }
{
    match op.sign {
        Sign::Add => Some(a.add(b)),
        Sign::Sub => Some(a.sub(b)),
        Sign::Mul => Some(a.mul(b)),
        Sign::Div => a.div(b),
        Sign::Rem => a.rem(b),
        Sign::Equal => compared(op.with_bool, filtered, a == b),
        Sign::NotEqual => compared(op.with_bool, filtered, a != b),
        Sign::Less => compared(op.with_bool, filtered, a.micros() < b.micros()),
        Sign::LessOrEqual => compared(op.with_bool, filtered, a.micros() <= b.micros()),
        Sign::Greater => compared(op.with_bool, filtered, b.micros() < a.micros()),
        Sign::GreaterOrEqual => compared(op.with_bool, filtered, b.micros() <= a.micros()),
        Sign::And | Sign::Or | Sign::Unless => None,
    }
}

fn is_arithmetic(sign: Sign) -> bool
    ensures { result ≡ is_arithmetic sign }
{
    matches!(
        sign,
        Sign::Add | Sign::Sub | Sign::Mul | Sign::Div | Sign::Rem
    )
}

/// Whether an operator's result has no metric name: arithmetic, and comparisons with `bool`.
pub fn drops_name(op: BinaryOp) -> bool
    ensures { result ≡ (is_arithmetic op.sign || op.with_bool) }
{
    is_arithmetic(op.sign) || op.with_bool
}

/// The labels of an operator's result.
pub fn result_labels(op: BinaryOp, labels: &Labels) -> Result<Labels, OutOfMemory>
    ensures { IfOk result (λ l. l ≡ result_labels op labels.now) }
{
    if drops_name(op) {
        labels.without_name()
    } else {
        Ok(labels.clone()?)
    }
}

/// The value of an operator at two scalars. None where one of them has none.
pub fn of_scalars(op: BinaryOp, a: Option<Value>, b: Option<Value>) -> Option<Value>
    ensures { result ≡ of_scalars op a b }
{
    match (a, b) {
        (Some(a), Some(b)) => operated(op, a, a, b),
        _ => None,
    }
}
