//! The functions of each element by itself, at one value.

ghost use Rattle.std.specs.Prelude.{◌≡◌, ◌≤◌, ◌≤ℤ◌, ◌<ℤ◌, ◌+ℤ◌, ◌*ℤ◌, ℤ, pos, neg_ℤ, unsigned_abs, true, false, MatchOption};
ghost use Rattle.std.specs.Int.{int_div_euclid, int_max, int_min};
ghost use Rattle.pf_base.specs.Limits.{greatest_value};
ghost use Rattle.pf_model.specs.InstantFunctions.{bounded, ceil, floor, rounded, sign_of};
ghost use Rattle.pf_model.specs.Micros.{seconds};
ghost use Rattle.pf_math.specs.EachValue.{IsOfEachValue, changed, is_each_value, value_by};

use pf_base::Value;
use pf_model::InstantFn;

/// The number of micros in a unit.
const ONE: i128 = 1_000_000;

/// What a function of each element by itself does to a value, with its scalars. A column takes it once and asks it of each
/// value.
#[derive(Clone, Copy)]
pub enum Change {
    Abs,
    Ceil,
    Floor,
    /// 1, 0 or -1.
    Sgn,
    /// To the nearest multiple, ties upward. There is none of 0.
    Round { to: Value },
    /// Moved into the bounds. Nothing where they are crossed.
    Clamp { low: Value, high: Value },
    ClampMin { low: Value },
    ClampMax { high: Value },
    /// This value in place of each.
    Put { value: Value },
    /// No value: a scalar of the call has none.
    Remove,
}

/// The value with its sign turned, as a unary minus has it.
#[tactic(auto, using(crate::proofs::Signs::negated_is))]
pub fn negated(value: Value) -> Value
    ensures { result ≡ neg_ℤ value }
{
    Value::new(0).sub(value)
}

fn absolute(value: Value) -> Value
    ensures { result ≡ pos (unsigned_abs value) }
{
    if value.micros() < 0 {
        negated(value)
    } else {
        value
    }
}

/// To whole units, down.
fn floor(value: Value) -> Value
    ensures { result ≡ floor value }
{
    Value::new((value.micros() as i128).div_euclid(ONE) * ONE)
}

/// To whole units, up.
fn ceil(value: Value) -> Value
    ensures { result ≡ ceil value }
{
    negated(floor(negated(value)))
}

/// 1, 0 or -1.
#[tactic(auto, using(crate::proofs::Signs::one_is, crate::proofs::Signs::nothing_is))]
fn sign_of(value: Value) -> Value
    ensures { result ≡ sign_of value }
{
    if value.micros() > 0 {
        Value::new(ONE)
    } else if value.micros() < 0 {
        negated(Value::new(ONE))
    } else {
        Value::new(0)
    }
}

/// A value without its sign, in micros.
fn size_of(value: Value) -> i128
    ensures size { result ≡ pos (unsigned_abs value) }
    ensures bound { result ≤ℤ greatest_value }
{
    value.micros().unsigned_abs() as i128
}

/// Twice a value and this many micros.
fn twice_and(value: Value, more: i128) -> i128
    requires low { pos 0 <ℤ more }
    requires high { more ≤ℤ greatest_value }
    ensures sum { result ≡ pos 2 *ℤ value +ℤ more }
    ensures bound { unsigned_abs result ≤ 3000000000000000000 }
{
    2 * value.micros() as i128 + more
}

/// A number by twice another, cut down.
#[tactic(auto, using(crate::proofs::Euclid::euclid_within))]
fn by_twice(number: i128, to: i128) -> i128
    requires bound { unsigned_abs number ≤ 3000000000000000000 }
    requires low { pos 0 <ℤ to }
    requires high { to ≤ℤ greatest_value }
    ensures quotient { result ≡ int_div_euclid number (pos 2 *ℤ to) }
    ensures within { unsigned_abs result ≤ 3000000000000000000 }
{
    number.div_euclid(2 * to)
}

fn multiple(count: i128, of: i128) -> i128
    requires bound { unsigned_abs count ≤ 3000000000000000000 }
    requires low { pos 0 <ℤ of }
    requires high { of ≤ℤ greatest_value }
    ensures { result ≡ count *ℤ of }
{
    count * of
}

/// To the nearest multiple, ties upward. None of 0.
fn rounded(to: Value, value: Value) -> Option<Value>
    ensures { result ≡ rounded (unsigned_abs to) value }
{
    let to = size_of(to);
    if to == 0 {
        return None;
    }
    let sum = twice_and(value, to);
    let count = by_twice(sum, to);
    Some(Value::new(multiple(count, to)))
}

fn less(a: Value, b: Value) -> Value
    ensures { result ≡ int_min a b }
{
    if a.micros() <= b.micros() { a } else { b }
}

fn greater(a: Value, b: Value) -> Value
    ensures { result ≡ int_max a b }
{
    if a.micros() <= b.micros() { b } else { a }
}

/// Moved into the bounds. None where they are crossed.
fn bounded(low: Value, high: Value, value: Value) -> Option<Value>
    ensures { result ≡ bounded low high value }
{
    if high.micros() < low.micros() {
        None
    } else {
        Some(greater(low, less(value, high)))
    }
}

/// A time in milliseconds, as seconds.
pub(crate) fn seconds(time: i64) -> Value
    ensures { result ≡ seconds time }
{
    Value::new(time as i128 * 1000)
}

#[tactic(auto, using(crate::proofs::Signs::one_is))]
fn round_of(scalars: &[Option<Value>]) -> Change
    ensures { (v : ℤ) → changed result v ≡ value_by InstantFn.Round scalars.now (pos 0) v }
{
    match scalars {
        [] => Change::Round {
            to: Value::new(ONE),
        },
        [None, ..] => Change::Remove,
        [Some(to), ..] => Change::Round { to: *to },
    }
}

fn clamp_of(scalars: &[Option<Value>]) -> Change
    ensures { (v : ℤ) → changed result v ≡ value_by InstantFn.Clamp scalars.now (pos 0) v }
{
    match scalars {
        [Some(low), Some(high), ..] => Change::Clamp {
            low: *low,
            high: *high,
        },
        _ => Change::Remove,
    }
}

fn clamp_min_of(scalars: &[Option<Value>]) -> Change
    ensures { (v : ℤ) → changed result v ≡ value_by InstantFn.ClampMin scalars.now (pos 0) v }
{
    match scalars {
        [Some(low), ..] => Change::ClampMin { low: *low },
        _ => Change::Remove,
    }
}

fn clamp_max_of(scalars: &[Option<Value>]) -> Change
    ensures { (v : ℤ) → changed result v ≡ value_by InstantFn.ClampMax scalars.now (pos 0) v }
{
    match scalars {
        [Some(high), ..] => Change::ClampMax { high: *high },
        _ => Change::Remove,
    }
}

impl Change {
    /// The change that a function of each element by itself is, at a time in milliseconds. None for the other functions.
    #[tactic(auto, using(crate::proofs::EachFunction::each_value_is))]
    pub fn of(f: InstantFn, scalars: &[Option<Value>], time: i64) -> Option<Change>
        ensures value { MatchOption result (is_each_value f ≡ false) (λ c. (is_each_value f ≡ true) × ((v : ℤ) → changed c v ≡ value_by f scalars.now time v)) }
        ensures law { is_each_value f ≡ true → IsOfEachValue f }
    {
        let change = match f {
            InstantFn::Abs => Change::Abs,
            InstantFn::Ceil => Change::Ceil,
            InstantFn::Floor => Change::Floor,
            InstantFn::Sgn => Change::Sgn,
            InstantFn::Round => round_of(scalars),
            InstantFn::Clamp => clamp_of(scalars),
            InstantFn::ClampMin => clamp_min_of(scalars),
            InstantFn::ClampMax => clamp_max_of(scalars),
            InstantFn::Timestamp => Change::Put {
                value: seconds(time),
            },
            _ => return None,
        };
        Some(change)
    }

    /// What it makes of a value.
    pub fn value(&self, value: Value) -> Option<Value>
        ensures { result ≡ changed self.now value }
    {
        match *self {
            Change::Abs => Some(absolute(value)),
            Change::Ceil => Some(ceil(value)),
            Change::Floor => Some(floor(value)),
            Change::Sgn => Some(sign_of(value)),
            Change::Round { to } => rounded(to, value),
            Change::Clamp { low, high } => bounded(low, high, value),
            Change::ClampMin { low } => Some(greater(low, value)),
            Change::ClampMax { high } => Some(less(high, value)),
            Change::Put { value } => Some(value),
            Change::Remove => None,
        }
    }
}

/// What a function of each element by itself makes of a value, at a time in milliseconds, and nothing for the other
/// functions. For many values take a `Change`.
pub fn value_of(f: InstantFn, scalars: &[Option<Value>], time: i64, value: Value) -> Option<Value>
    ensures { result ≡ value_by f scalars.now time value }
{
    Change::of(f, scalars, time)?.value(value)
}
