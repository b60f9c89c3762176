//! Quotients that are cut toward zero.

ghost use Rattle.std.specs.Prelude.{◌≡◌, pos, ◌<ℤ◌, int_div};

/// The quotient, cut toward zero. Short numbers are divided as such, which is faster.
pub(crate) fn quotient(dividend: i128, divisor: i128) -> i128
    requires { pos 0 <ℤ divisor }
    ensures { result ≡ int_div dividend divisor }
{
    match (i64::try_from(dividend), i64::try_from(divisor)) {
        (Ok(dividend), Ok(divisor)) => (dividend / divisor) as i128,
        _ => dividend / divisor,
    }
}
