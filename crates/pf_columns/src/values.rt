//! What is computed of values.

ghost use Rattle.std.specs.Prelude.{◌≡◌, ◌<◌, ◌≤◌, ◌+ℤ◌, ◌-ℤ◌, ◌*ℤ◌, ◌-◌, ◌*◌, int_div, pos, length, slice_index_or, unsigned_abs, IfOk};
ghost use Rattle.std.specs.Int.{int_max, int_min};
ghost use Rattle.std.specs.Ordering.{int_cmp};
ghost use Rattle.pf_base.specs.Arithmetic.{IsValue};
ghost use Rattle.pf_base.specs.Sorting.{isort};
ghost use Rattle.pf_model.specs.Aggregation.{at_rank, between, quantile};
ghost use Rattle.pf_model.specs.Micros.{greatest, least, mean, total};

use pf_base::{OutOfMemory, Value};

/// The exact sum, in micros.
pub(crate) fn total(values: &[Value]) -> i128
    ensures { result ≡ total values.now }
{
    let mut sum = 0;
    for value in values {
        sum += value.micros() as i128;
    }
    sum
}

/// The exact sum by the number, cut toward zero.
pub(crate) fn mean(values: &[Value]) -> Value
    ensures { result ≡ mean values.now }
{
    if values.is_empty() {
        return Value::new(0);
    }
    Value::new(total(values) / values.len() as i128)
}

fn less(a: Value, b: Value) -> Value
    ensures { result ≡ int_min a b }
{
    if a.micros() <= b.micros() { a } else { b }
}

fn greater(a: Value, b: Value) -> Value
    ensures { result ≡ int_max a b }
{
    if a.micros() <= b.micros() { b } else { a }
}

/// The least value, or 0 of none.
pub(crate) fn least(values: &[Value]) -> Value
    ensures { result ≡ least values.now }
{
    let Some((first, rest)) = values.split_first() else {
        return Value::new(0);
    };
    let mut found = *first;
    for value in rest {
        found = less(found, *value);
    }
    found
}

/// The greatest value, or 0 of none.
pub(crate) fn greatest(values: &[Value]) -> Value
    ensures { result ≡ greatest values.now }
{
    let Some((first, rest)) = values.split_first() else {
        return Value::new(0);
    };
    let mut found = *first;
    for value in rest {
        found = greater(found, *value);
    }
    found
}

/// A value by its place, or 0.
#[tactic(auto, using(crate::proofs::Bounds::nothing_is))]
fn value_or_zero(values: &[Value], place: usize) -> Value
    ensures { result ≡ slice_index_or values.now place (pos 0) }
{
    match values.get(place) {
        Some(value) => *value,
        None => Value::new(0),
    }
}

/// The number of micros from one value to another.
fn span(low: Value, high: Value) -> i128
    ensures span { result ≡ high -ℤ low }
    ensures bound { unsigned_abs result ≤ 2000000000000000000 }
    ensures low { IsValue low }
    ensures high { IsValue high }
{
    high.micros() as i128 - low.micros() as i128
}

/// So many millionths of a number, cut toward zero.
#[tactic(auto, using(crate::proofs::Ways::part_abs))]
fn part_of(number: i128, millionths: u32) -> i128
    requires bound { unsigned_abs number ≤ 2000000000000000000 }
    requires part { millionths < 1000000 }
    ensures part { result ≡ int_div (number *ℤ pos millionths) (pos 1000000) }
    ensures bound { unsigned_abs result ≤ 2000000000000000000 }
{
    number * millionths as i128 / 1_000_000
}

/// The micros of a value and so many more.
fn micros_from(low: Value, more: i128) -> i128
    requires { unsigned_abs more ≤ 2000000000000000000 }
    ensures { result ≡ low +ℤ more }
{
    low.micros() as i128 + more
}

/// The number between two values, so many millionths of the way.
fn way(low: Value, high: Value, millionths: u32) -> i128
    requires { millionths < 1000000 }
    ensures way { result ≡ low +ℤ int_div ((high -ℤ low) *ℤ pos millionths) (pos 1000000) }
    ensures within { IsValue result }
{
    micros_from(low, part_of(span(low, high), millionths))
}

/// Between two values, so many millionths of the way.
#[tactic(auto, using(crate::proofs::Ways::within_kept))]
fn on_the_way(low: Value, high: Value, millionths: u32) -> Value
    requires { millionths < 1000000 }
    ensures { result ≡ low +ℤ int_div ((high -ℤ low) *ℤ pos millionths) (pos 1000000) }
{
    Value::new(way(low, high, millionths))
}

/// Between the value at a place and the next one, so many millionths of the way.
fn between(values: &[Value], place: usize, millionths: u32) -> Value
    requires place { place < length values.now }
    requires part { millionths < 1000000 }
    ensures { result ≡ between values.now place millionths }
{
    let next = (place + 1).min(values.len() - 1);
    on_the_way(
        value_or_zero(values, place),
        value_or_zero(values, next),
        millionths,
    )
}

/// The value at a share of the places of sorted values, in millionths.
#[tactic(auto, using(crate::proofs::Ways::place_most, crate::proofs::Ways::of_none, crate::proofs::Bounds::nothing_is))]
fn at_share(values: &[Value], share: u32) -> Value
    requires { share ≤ 1000000 }
    ensures { result ≡ at_rank values.now (pos (share * (length values.now - 1))) }
{
    if values.is_empty() {
        return Value::new(0);
    }
    let rank = share as u128 * (values.len() - 1) as u128;
    between(
        values,
        (rank / 1_000_000) as usize,
        (rank % 1_000_000) as u32,
    )
}

fn in_order(mut values: Vec<Value>) -> Result<Vec<Value>, OutOfMemory>
    ensures { IfOk result (λ v. v.items ≡ isort int_cmp values.items) }
{
    values.sort()?;
    Ok(values)
}

/// The value at a share of the places of values that are sorted first. The least and the greatest value of all, where the
/// share is below 0 or above 1.
#[tactic(auto, using(crate::proofs::Ways::share_is))]
pub fn quantile(q: Value, values: Vec<Value>) -> Result<Value, OutOfMemory>
    ensures { IfOk result (λ v. v ≡ quantile q values.items) }
{
    if q.micros() < 0 {
        return Ok(Value::new(-1_000_000_000_000_000_000));
    }
    if q.micros() > 1_000_000 {
        return Ok(Value::new(1_000_000_000_000_000_000));
    }
    let sorted = in_order(values)?;
    Ok(at_share(&sorted, q.micros() as u32))
}
