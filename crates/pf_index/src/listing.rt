//! Matchers that ask for some values of a label, and the series that have one of them.

ghost use Rattle.std.specs.Prelude.{◌≡◌, ◌<◌, IfOk, IfSome, length, map};
ghost use Rattle.std.specs.List.{list_any};
ghost use Rattle.pf_base.specs.LabelSets.{is_empty};
ghost use Rattle.pf_index.specs.Listing.{all_from, all_listed, listed_in, listed_values, values_of};
ghost use Rattle.pf_model.specs.Patterns.{alternatives};

use pf_base::OutOfMemory;
use pf_block::Snap;
use pf_model::{MatchSign, Matcher, Matchers, is_plain};
use std::alloc::{AllocError, Global};

/// The alternatives of a plain pattern.
fn alternatives(alloc: Global, pattern: &str) -> Result<Vec<&str>, AllocError>
    ensures { IfOk result (λ v. map (λ x. x.now) v.items ≡ alternatives pattern.now) }
{
    pattern.split('|').collect(alloc)
}

fn has_empty(values: &[&str]) -> bool
    ensures { result ≡ list_any is_empty (map (λ x. x.now) values.now) }
{
    for value in values {
        if value.is_empty() {
            return true;
        }
    }
    false
}

fn asked_values(alloc: Global, matcher: &Matcher) -> Result<Vec<&str>, OutOfMemory>
    ensures { IfOk result (λ v. map (λ x. x.now) v.items ≡ values_of matcher.now.sign matcher.now.text) }
{
    let text = matcher.text.as_str();
    match matcher.sign {
        MatchSign::Equal => {
            let mut values = Vec::new(alloc);
            values.push(text)?;
            Ok(values)
        }
        MatchSign::Like if is_plain(text) => {
            let values = alternatives(alloc, text)?;
            Ok(values)
        }
        _ => Ok(Vec::new(alloc)),
    }
}

/// The values of which each series that a matcher accepts has one: none where it also accepts others.
pub fn listed_values(alloc: Global, matcher: &Matcher) -> Result<Vec<&str>, OutOfMemory>
    ensures { IfOk result (λ v. map (λ x. x.now) v.items ≡ listed_values matcher.now) }
{
    let values = asked_values(alloc, matcher)?;
    if has_empty(&values) {
        return Ok(Vec::new(alloc));
    }
    Ok(values)
}

/// The number of ids in the lists of a plain pattern's alternatives, none where one is empty.
fn count_of_alternatives(snap: &Snap, name: &str, pattern: &str) -> Option<usize> {
    let mut count = 0usize;
    for value in pattern.split('|') {
        if value.is_empty() {
            return None;
        }
        count = count.saturating_add(snap.postings(name, value).len());
    }
    Some(count)
}

/// The number of ids in the lists of the values that a matcher asks for, none where it asks for none.
fn count_of(snap: &Snap, matcher: &Matcher) -> Option<usize> {
    let name = matcher.label.as_str();
    let text = matcher.text.as_str();
    match matcher.sign {
        MatchSign::Equal if !text.is_empty() => Some(snap.postings(name, text).len()),
        MatchSign::Like if is_plain(text) => count_of_alternatives(snap, name, text),
        _ => None,
    }
}

/// The place of the matcher whose lists are the shortest.
pub fn shortest(snap: &Snap, matchers: &Matchers) -> Option<usize>
    ensures { IfSome result (λ i. i < length matchers.now) }
{
    let mut place = None;
    let mut least = usize::MAX;
    for i in 0..matchers.count() {
        if let Some(count) = count_of(snap, matchers.matcher(i)) {
            if count < least {
                place = Some(i);
                least = count;
            }
        }
    }
    place
}

/// The ids of the series that have one of some values of a label, by rising id.
pub fn listed_ids(
    alloc: Global,
    snap: &Snap,
    name: &str,
    values: &[&str],
) -> Result<Vec<u32>, OutOfMemory>
    ensures { IfOk result (λ v. v.items ≡ listed_in name.now (map (λ x. x.now) values.now) snap.now.labels) }
{
    let mut ids = all_listed(alloc, snap, name, values)?;
    if values.len() > 1 {
        ids.sort_unstable();
        ids.dedup();
    }
    Ok(ids)
}

/// The lists of some values of a label, one after another.
fn all_listed(
    alloc: Global,
    snap: &Snap,
    name: &str,
    values: &[&str],
) -> Result<Vec<u32>, OutOfMemory>
    ensures { IfOk result (λ v. v.items ≡ all_listed name.now (map (λ x. x.now) values.now) snap.now.labels) }
{
    let mut ids = Vec::new(alloc);
    for value in values {
        snap.postings(name, value).add_to(&mut ids)?;
    }
    Ok(ids)
}

/// The ids of all series, by rising id.
pub fn all_ids(alloc: Global, snap: &Snap) -> Result<Vec<u32>, OutOfMemory>
    ensures { IfOk result (λ v. v.items ≡ all_from 0 snap.now.labels) }
{
    let mut ids = Vec::new(alloc);
    for id in 0..snap.series_count() {
        ids.push(id)?;
    }
    Ok(ids)
}
