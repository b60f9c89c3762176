//! Matchers that sieve series one after another, each by its own label. A value is asked of once for all series that have it.

ghost use Rattle.std.specs.Prelude.{◌≡◌, ◌<◌, ℕ, IfOk, IfSome, Option, None, Some, cond, length, nat_eq, slice_index_or, true};
ghost use Rattle.std.specs.List.{All, list_any};
ghost use Rattle.pf_index.specs.Listing.{accepted_in};
ghost use Rattle.pf_index.specs.Sieving.{AreKnown, asked, held_in, holds_of};
ghost use Rattle.pf_model.specs.Selection.{is_compared};
ghost use Rattle.pf_model.specs.declared.expr.Matcher.{Matcher};

use pf_base::OutOfMemory;
use pf_block::{Postings, Snap};
use pf_model::{MatchSign, Matcher, Matchers, MatchersAsker, is_plain};
use std::alloc::Global;

/// Of fewer series than this each is asked of by itself, and so of those that are fewer than one in this many.
const FEW: usize = 64;

const SPARSE: usize = 16;

/// What a matcher says of series by their values of its label, as far as it was asked: of the series by id, where these are
/// noted, and of those without the label. `spare` counts the values that may still be looked up.
#[derive(Drop)]
struct Verdicts {
    by_series: Vec<Option<bool>>,
    without: bool,
    spare: usize,
}

/// What is noted of a series.
fn noted(known: &[Option<bool>], id: u32) -> Option<bool>
    ensures { result ≡ slice_index_or known.now id None }
{
    match known.get(id as usize) {
        Some(verdict) => *verdict,
        None => None,
    }
}

/// Notes a verdict on some series.
fn note(known: &mut Vec<Option<bool>>, ids: Postings<'_>, verdict: bool)
    ensures count { length known.new.items ≡ length known.old.items }
    ensures noted { (k : ℕ) → k < length known.old.items → slice_index_or known.new.items k None ≡ cond (list_any (nat_eq k) ids.entry) (Some verdict) (slice_index_or known.old.items k None) }
{
    for id in ids {
        let place = id as usize;
        if place < known.len() {
            known[place] = Some(verdict);
        }
    }
}

impl Verdicts {
    /// None is noted yet, of the `count` series that will be asked of.
    fn start(
        alloc: Global,
        snap: &Snap,
        asker: &mut MatchersAsker<'_>,
        place: usize,
        matcher: &Matcher,
        count: usize,
    ) -> Result<Verdicts, OutOfMemory>
        requires asked { (place < length asker.old) × ((d : Matcher) → matcher.now ≡ slice_index_or asker.old place d) }
        ensures same { asker.new ≡ asker.old }
        ensures known { IfOk result (λ v. AreKnown matcher.now snap.now.labels v.by_series.items v.without) }
    {
        let without = asker.holds(place, "");
        let all = snap.series_count() as usize;
        if count < FEW || count < all / SPARSE {
            return Ok(Verdicts {
                by_series: Vec::new(alloc),
                without,
                spare: 0,
            });
        }
        Ok(Verdicts {
            by_series: vec![in alloc; None; all]?,
            without,
            spare: FEW + count / FEW,
        })
    }

    /// What a matcher says of a series. It is noted for the series that have the same value: a value that few of them have
    /// costs more to look up than to ask of, so no more are looked up once many were in vain.
    fn of(
        &mut self,
        snap: &Snap,
        asker: &mut MatchersAsker<'_>,
        place: usize,
        matcher: &Matcher,
        id: u32,
    ) -> bool
        requires within { id < length snap.now.labels }
        requires asked { (place < length asker.old) × ((d : Matcher) → matcher.now ≡ slice_index_or asker.old place d) }
        requires known { AreKnown matcher.now snap.now.labels self.old.by_series.items self.old.without }
        ensures value { result ≡ holds_of matcher.now snap.now.labels id }
        ensures same { asker.new ≡ asker.old }
        ensures known { AreKnown matcher.now snap.now.labels self.new.by_series.items self.new.without }
    {
        if let Some(verdict) = noted(&self.by_series, id) {
            self.spare = self.spare.saturating_add(1);
            return verdict;
        }
        let name = matcher.label.as_str();
        let value = snap.labels(id).get(name);
        if value.is_empty() {
            return self.without;
        }
        let verdict = asker.holds(place, value);
        if self.spare > 0 {
            let _count = snap.series_count();
            self.spare -= 1;
            note(&mut self.by_series, snap.postings(name, value), verdict);
        }
        verdict
    }
}

/// Leaves those of some series of which the matcher at a place holds.
fn sieve(
    alloc: Global,
    snap: &Snap,
    asker: &mut MatchersAsker<'_>,
    place: usize,
    matcher: &Matcher,
    ids: &mut Vec<u32>,
) -> Result<(), OutOfMemory>
    requires within { All (λ id. id < length snap.now.labels) ids.old.items }
    requires asked { (place < length asker.old) × ((d : Matcher) → matcher.now ≡ slice_index_or asker.old place d) }
    ensures same { asker.new ≡ asker.old }
    ensures held { IfOk result (λ _. ids.new.items ≡ held_in matcher.now snap.now.labels ids.old.items) }
{
    let mut verdicts = Verdicts::start(alloc, snap, asker, place, matcher, ids.len())?;
    let mut kept = 0usize;
    for i in 0..ids.len() {
        let id = ids[i];
        if verdicts.of(snap, asker, place, matcher, id) {
            ids[kept] = id;
            kept += 1;
        }
    }
    ids.truncate(kept);
    Ok(())
}

/// Whether a matcher compares texts. A pattern that isn't plain takes longer to ask.
fn is_compared(matcher: &Matcher) -> bool
    ensures { result ≡ is_compared matcher.now.sign matcher.now.text }
{
    match matcher.sign {
        MatchSign::Like | MatchSign::NotLike => is_plain(matcher.text.as_str()),
        _ => true,
    }
}

/// Leaves those of some series that the matchers accept which compare texts, or those which ask patterns. The matcher at
/// `listed` holds of each, and isn't asked.
fn sieve_by(
    alloc: Global,
    snap: &Snap,
    matchers: &Matchers,
    asker: &mut MatchersAsker<'_>,
    listed: Option<usize>,
    compares: bool,
    ids: &mut Vec<u32>,
) -> Result<(), OutOfMemory>
    requires within { All (λ id. id < length snap.now.labels) ids.old.items }
    requires asker { asker.old ≡ matchers.now }
    requires listed { IfSome listed (λ i. (d : Matcher) → All (λ id. holds_of (slice_index_or matchers.now i d) snap.now.labels id ≡ true) ids.old.items) }
    ensures same { asker.new ≡ asker.old }
    ensures sieved { IfOk result (λ _. ids.new.items ≡ accepted_in (asked compares matchers.now) snap.now.labels ids.old.items) }
{
    for i in 0..matchers.count() {
        let matcher = matchers.matcher(i);
        if listed != Some(i) && is_compared(matcher) == compares {
            sieve(alloc, snap, asker, i, matcher, ids)?;
        }
    }
    Ok(())
}

/// Those of some series that matchers accept. The matcher at `listed` holds of each.
pub fn sieved(
    alloc: Global,
    snap: &Snap,
    matchers: &Matchers,
    listed: Option<usize>,
    ids: Vec<u32>,
) -> Result<Vec<u32>, OutOfMemory>
    requires within { All (λ id. id < length snap.now.labels) ids.items }
    requires listed { IfSome listed (λ i. (d : Matcher) → All (λ id. holds_of (slice_index_or matchers.now i d) snap.now.labels id ≡ true) ids.items) }
    ensures { IfOk result (λ v. v.items ≡ accepted_in matchers.now snap.now.labels ids.items) }
{
    if matchers.count() == 1 && listed.is_some() {
        return Ok(ids);
    }
    let mut ids = ids;
    let mut asker = matchers.asker()?;
    sieve_by(alloc, snap, matchers, &mut asker, listed, true, &mut ids)?;
    sieve_by(alloc, snap, matchers, &mut asker, listed, false, &mut ids)?;
    Ok(ids)
}
