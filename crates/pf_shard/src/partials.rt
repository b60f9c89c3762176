//! What shards know of the groups of an aggregation, merged by key.

ghost use Rattle.std.specs.Prelude.{◌≡◌, ◌++◌, ◌∷◌, [], map, IfOk, OnErr, OnOk};
ghost use Rattle.std.specs.Int.{int_max, int_min};
ghost use Rattle.pf_model.specs.Lists.{Each};
ghost use Rattle.pf_model.specs.Merging.{merged, merged_groups};
ghost use Rattle.pf_columns.specs.Columns.{AreRising};
ghost use Rattle.pf_columns.specs.Partials.{keys_of, parts_of};
ghost use Rattle.pf_shard.specs.Parts.{AddUp, Fit};

use pf_base::{Labels, OutOfMemory, Partial, Value};
use std::alloc::Global;
use std::cmp::Ordering;

fn less(a: Value, b: Value) -> Value
    ensures { result ≡ int_min a b }
{
    if a.micros() <= b.micros() { a } else { b }
}

fn greater(a: Value, b: Value) -> Value
    ensures { result ≡ int_max a b }
{
    if a.micros() <= b.micros() { b } else { a }
}

/// What two shards know of one group, together.
pub(crate) fn together(a: Partial, b: Partial) -> Partial
    requires { Fit a b }
    ensures { result ≡ merged (a ∷ b ∷ []) }
{
    Partial {
        sum: a.sum + b.sum,
        count: a.count + b.count,
        least: less(a.least, b.least),
        greatest: greater(a.greatest, b.greatest),
    }
}

fn push_group(
    found: &mut Vec<(Labels, Partial)>,
    key: &Labels,
    partial: Partial,
) -> Result<(), OutOfMemory>
    ensures { OnOk result (found.new.items ≡ found.old.items ++ (key.now, partial) ∷ []) }
{
    found.push((key.clone()?, partial))?;
    Ok(())
}

/// Pushes copies of groups.
fn push_all(
    found: &mut Vec<(Labels, Partial)>,
    groups: &[(Labels, Partial)],
) -> Result<(), OutOfMemory>
    ensures { OnOk result (found.new.items ≡ found.old.items ++ groups.now) }
{
    for group in groups {
        push_group(found, &group.0, group.1)?;
    }
    Ok(())
}

/// The groups of two lists by rising keys, those of equal keys in one.
fn merged(
    alloc: Global,
    first: &[(Labels, Partial)],
    second: &[(Labels, Partial)],
) -> Result<Vec<(Labels, Partial)>, OutOfMemory>
    requires first { AreRising (keys_of first.now) }
    requires second { AreRising (keys_of second.now) }
    requires fits { AddUp first.now second.now }
    ensures { IfOk result (λ v. parts_of v.items ≡ merged_groups (parts_of first.now ++ parts_of second.now)) }
{
    let mut found = Vec::with_capacity(alloc, first.len().max(second.len()))?;
    let mut i = 0;
    let mut j = 0;
    while i < first.len() && j < second.len() {
        let one = &first[i];
        let other = &second[j];
        match one.0.cmp(&other.0) {
            Ordering::Less => {
                push_group(&mut found, &one.0, one.1)?;
                i += 1;
            }
            Ordering::Equal => {
                let partial = together(one.1, other.1);
                push_group(&mut found, &one.0, partial)?;
                i += 1;
                j += 1;
            }
            Ordering::Greater => {
                push_group(&mut found, &other.0, other.1)?;
                j += 1;
            }
        }
    }
    push_all(&mut found, &first[i..])?;
    push_all(&mut found, &second[j..])?;
    Ok(found)
}

/// Adds what further shards know of the groups of an aggregation: the exact sums in micros and the numbers of equal keys are
/// added, and the least and the greatest of both stay. The groups stand by rising keys, in label order. This project's own,
/// after Mimir's query sharding. It goes once over both lists; where memory runs out the groups stay as they were.
pub fn add_partials(
    into: &mut Vec<(Labels, Partial)>,
    more: &[(Labels, Partial)],
) -> Result<(), OutOfMemory>
    requires into { AreRising (keys_of into.old.items) }
    requires more { AreRising (keys_of more.now) }
    requires fits { AddUp into.old.items more.now }
    ensures groups { OnOk result (parts_of into.new.items ≡ merged_groups (parts_of into.old.items ++ parts_of more.now)) }
    ensures unchanged { OnErr result (into.new ≡ into.old) }
{
    let found = merged(*into.allocator(), into, more)?;
    *into = found;
    Ok(())
}
