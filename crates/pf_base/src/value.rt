//! Values: whole millionths within bounds.

ghost use Rattle.std.specs.Prelude.{◌≡◌, ℤ};
ghost use Rattle.pf_base.specs.Arithmetic.{clamp, difference, IsValue, product, quotient, remainder, sum_of};

use std::marker::Model;

/// A value in micros (millionths of a unit), from −10^18 to 10^18. Contracts see it as that whole number. That values
/// are whole micros within bounds is this project's own.
#[derive(Clone, Copy, PartialEq, Eq, PartialOrd, Ord, Hash)]
pub struct Value {
    micros: i64,
}

impl Model for Value {
    ghost use Rattle.std.specs.Prelude.{ℤ};
    ghost use Rattle.pf_base.specs.Arithmetic.{IsValue};

    ghost Value = { ℤ };

    ghost view = { λ v. v.micros };

    ghost invariant = { λ v. IsValue v.micros };

    ghost inverse = { λ z. record { micros = z } };
}

/// The greatest size of a value, in micros.
pub const LIM: i64 = 1_000_000_000_000_000_000;

/// The number of micros in a unit.
const MICROS: i128 = 1_000_000;

#[tactic(auto, unfolding(crate::specs::Arithmetic::clamp))]
fn clamped(micros: i128) -> i64
    ensures value { result ≡ clamp micros }
    ensures within { IsValue result }
{
    if micros > LIM as i128 {
        LIM
    } else if micros < -(LIM as i128) {
        -LIM
    } else {
        micros as i64
    }
}

impl Value {
    /// The value of this many micros, moved into the bounds.
    pub fn new(micros: i128) -> Value
        ensures { result ≡ clamp micros }
    {
        Value {
            micros: clamped(micros),
        }
    }

    /// The value in micros.
    pub fn micros(self) -> i64
        ensures value { result ≡ self }
        ensures within { IsValue result }
    {
        self.micros
    }

    /// The sum, moved into the bounds.
    pub fn add(self, other: Value) -> Value
        ensures { result ≡ sum_of self other }
    {
        Value::new(self.micros as i128 + other.micros as i128)
    }

    /// The difference, moved into the bounds.
    pub fn sub(self, other: Value) -> Value
        ensures { result ≡ difference self other }
    {
        Value::new(self.micros as i128 - other.micros as i128)
    }

    /// The product, cut toward zero to whole micros and moved into the bounds.
    pub fn mul(self, other: Value) -> Value
        ensures { result ≡ product self other }
    {
        Value::new(self.micros as i128 * other.micros as i128 / MICROS)
    }

    /// The quotient, cut toward zero to whole micros and moved into the bounds. None for a zero divisor.
    pub fn div(self, other: Value) -> Option<Value>
        ensures { result ≡ quotient self other }
    {
        if other.micros == 0 {
            return None;
        }
        Some(Value::new(self.micros as i128 * MICROS / other.micros as i128))
    }

    /// What the quotient in whole numbers leaves, with the dividend's sign. None for a zero divisor.
    pub fn rem(self, other: Value) -> Option<Value>
        ensures { result ≡ remainder self other }
    {
        if other.micros == 0 {
            return None;
        }
        Some(Value {
            micros: self.micros % other.micros,
        })
    }
}
