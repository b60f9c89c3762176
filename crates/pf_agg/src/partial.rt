//! What is known of each group, so that it can be merged with the same group of other elements.

ghost use Rattle.std.specs.Prelude.{◌≡◌, map, length, IfOk};
ghost use Rattle.std.specs.Int.{int_max, int_min};
ghost use Rattle.pf_model.specs.Cells.{values_of};
ghost use Rattle.pf_model.specs.Legs.{partial_of};
ghost use Rattle.pf_agg.specs.Buckets.{grouped};
ghost use Rattle.pf_columns.specs.Partials.{partials_of, parts_of};

use pf_base::{Labels, OutOfMemory, Partial, Value};
use pf_model::Element;
use std::alloc::Global;

fn less(a: Value, b: Value) -> Value
    ensures { result ≡ int_min a b }
{
    if a.micros() <= b.micros() { a } else { b }
}

fn greater(a: Value, b: Value) -> Value
    ensures { result ≡ int_max a b }
{
    if a.micros() <= b.micros() { b } else { a }
}

/// The exact sum, the number, the least and the greatest of the values of some elements; 0 of none.
fn partial_of(elements: &[&Element]) -> Partial
    ensures { result ≡ partial_of (values_of (map (λ e. e.now) elements.now)) }
{
    let Some((first, _)) = elements.split_first() else {
        return Partial {
            sum: 0,
            count: 0,
            least: Value::new(0),
            greatest: Value::new(0),
        };
    };
    let mut sum = 0;
    let mut least = first.value;
    let mut greatest = first.value;
    for element in elements {
        sum += element.value.micros() as i128;
        least = less(least, element.value);
        greatest = greater(greatest, element.value);
    }
    Partial {
        sum,
        count: elements.len() as u64,
        least,
        greatest,
    }
}

/// The key of each group, and what is known of it.
pub(crate) fn partials_of(
    alloc: Global,
    keys: &[Labels],
    buckets: &[Vec<&Element>],
) -> Result<Vec<(Labels, Partial)>, OutOfMemory>
    requires { length buckets.now ≡ length keys.now }
    ensures { IfOk result (λ v. parts_of v.items ≡ partials_of (grouped keys.now (map (λ b. map (λ e. e.now) b.items) buckets.now))) }
{
    let mut found = Vec::with_capacity(alloc, keys.len())?;
    for i in 0..keys.len() {
        found.push((keys[i].clone()?, partial_of(&buckets[i])))?;
    }
    Ok(found)
}
