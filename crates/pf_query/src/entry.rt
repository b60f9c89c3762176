//! What is kept of each query.

ghost use Rattle.std.specs.HashMap.{get};
ghost use Rattle.std.specs.Option.{option_map};
ghost use Rattle.std.specs.Prelude.{◌≡◌, ℕ, ◌<◌, false, IfSome, OnErr, OnOk, Some, cond, length, nat_eq};
ghost use Rattle.pf_model.specs.Lists.{Each};
ghost use Rattle.pf_query.specs.Entries.{GathersAt, back_entry, exhausted_entry, given_entry, may_be_in_hand, may_wait, offered_entry, opened_entry, planned_entry, state_of, stop_after, stopped_entry, stored_entry, taken_entry, tried_entry, with_change};
ghost use Rattle.pf_query.specs.Tables.{data_of, is_covered_in};
ghost use Rattle.pf_query.specs.Works.{IsFilled};

use crate::gathered::Gathered;
use crate::state::EntryState;
use crate::stop::Stop;
use crate::work::Work;
use pf_base::OutOfMemory;
use pf_extent::DoneCells;
use pf_shard::Part;
use std::collections::HashMap;

/// A query's tenant, why it was stopped, if it was, what is kept of it once it is planned, how many of its jobs wait and are in
/// hand, which is kept until it is stopped, and how often its jobs failed, all together, up to 2^64 - 1.
#[derive(Drop)]
pub struct Entry {
    pub tenant: u32,
    pub stop: Option<Stop>,
    pub work: Option<Work>,
    pub queued: u32,
    pub in_hand: u32,
    pub tried: u64,
}

/// Entries by their queries.
pub type Entries = HashMap<u64, Entry>;

/// Whether a job of a query may wait, of which so many waited until it was stopped. Once it is, none waits.
pub fn may_wait(stop: Option<Stop>, queued: u32) -> bool
    ensures { result ≡ may_wait stop queued }
{
    stop.is_none() && queued > 0
}

/// Whether a job of a query may be in hand, of which so many were until it was stopped.
pub fn may_be_in_hand(stop: Option<Stop>, in_hand: u32) -> bool
    ensures { result ≡ may_be_in_hand stop in_hand }
{
    stop.is_some() || in_hand > 0
}

/// What is told of a query.
pub fn state(entries: &Entries, query: u64) -> Option<EntryState>
    ensures { result ≡ option_map state_of (get nat_eq entries.now query) }
{
    let entry = entries.get(&query)?;
    let (planned, given) = match &entry.work {
        Some(work) => (true, work.is_given()),
        None => (false, false),
    };
    let (offered, cached) = match &entry.work {
        Some(work) => (work.is_offered(), work.cached_steps()),
        None => (false, 0),
    };
    Some(EntryState {
        tenant: entry.tenant,
        stop: entry.stop,
        planned,
        given,
        offered,
        cached,
        queued: entry.queued,
        in_hand: entry.in_hand,
    })
}

/// Opens a query of a tenant.
pub fn add(entries: &mut Entries, query: u64, tenant: u32) -> Result<(), OutOfMemory>
    ensures ok { OnOk result ((q : ℕ) → get nat_eq entries.new q ≡ cond (nat_eq query q) (Some (opened_entry tenant)) (get nat_eq entries.old q)) }
    ensures err { OnErr result ((q : ℕ) → get nat_eq entries.new q ≡ get nat_eq entries.old q) }
{
    entries.insert(
        query,
        Entry {
            tenant,
            stop: None,
            work: None,
            queued: 0,
            in_hand: 0,
            tried: 0,
        },
    )?;
    Ok(())
}

/// Notes that a query is planned, and so many of its jobs wait.
pub fn plan(entries: &mut Entries, query: u64, work: Work, jobs: u32)
    ensures { (q : ℕ) → get nat_eq entries.new q ≡ with_change query (planned_entry work jobs) (get nat_eq entries.old) q }
{
    if let Some(entry) = entries.get_mut(&query) {
        entry.work = Some(work);
        entry.queued = jobs;
    }
}

/// Notes that a job of a query that waited is in hand.
pub fn take(entries: &mut Entries, query: u64)
    requires { IfSome (get nat_eq entries.old query) (λ e. (0 < e.queued) × (e.in_hand < 4294967295)) }
    ensures { (q : ℕ) → get nat_eq entries.new q ≡ with_change query taken_entry (get nat_eq entries.old) q }
{
    if let Some(entry) = entries.get_mut(&query) {
        entry.queued -= 1;
        entry.in_hand += 1;
    }
}

/// Notes that a job of a query that was in hand failed, and waits again.
pub fn put_back(entries: &mut Entries, query: u64)
    requires { IfSome (get nat_eq entries.old query) (λ e. (0 < e.in_hand) × (e.queued < 4294967295)) }
    ensures { (q : ℕ) → get nat_eq entries.new q ≡ with_change query back_entry (get nat_eq entries.old) q }
{
    if let Some(entry) = entries.get_mut(&query) {
        entry.in_hand -= 1;
        entry.queued += 1;
        entry.tried = entry.tried.saturating_add(1);
    }
}

/// Notes that a job of a query failed.
pub fn count_try(entries: &mut Entries, query: u64)
    ensures { (q : ℕ) → get nat_eq entries.new q ≡ with_change query tried_entry (get nat_eq entries.old) q }
{
    if let Some(entry) = entries.get_mut(&query) {
        entry.tried = entry.tried.saturating_add(1);
    }
}

/// Puts in the part of a job of a query that was in hand.
pub fn store(entries: &mut Entries, query: u64, job: u32, part: Part)
    requires { IfSome (get nat_eq entries.old query) (λ e. (0 < e.in_hand) × IfSome e.work (λ w. job < length w.slots)) }
    ensures { (q : ℕ) → get nat_eq entries.new q ≡ with_change query (stored_entry job part) (get nat_eq entries.old) q }
{
    if let Some(entry) = entries.get_mut(&query) {
        entry.in_hand -= 1;
        if let Some(work) = &mut entry.work {
            work.fill(job, part);
        }
    }
}

/// Why a query is stopped, where it may be already.
fn stop_with(stop: Option<Stop>, why: Stop) -> Stop
    ensures { result ≡ stop_after stop why }
{
    match (stop, why) {
        (_, Stop::Cancelled { place }) => Stop::Cancelled { place },
        (Some(first), _) => first,
        (None, why) => why,
    }
}

/// Stops a query.
pub fn stop(entries: &mut Entries, query: u64, why: Stop)
    ensures { (q : ℕ) → get nat_eq entries.new q ≡ with_change query (stopped_entry why) (get nat_eq entries.old) q }
{
    if let Some(entry) = entries.get_mut(&query) {
        entry.stop = Some(stop_with(entry.stop, why));
    }
}

/// Stops a query, since this job of it failed for the fifth time.
pub fn exhaust(entries: &mut Entries, query: u64, job: u32)
    ensures { (q : ℕ) → get nat_eq entries.new q ≡ with_change query (exhausted_entry job) (get nat_eq entries.old) q }
{
    if let Some(entry) = entries.get_mut(&query) {
        entry.stop = Some(stop_with(entry.stop, Stop::Exhausted { job }));
        entry.tried = entry.tried.saturating_add(1);
    }
}

/// Notes that a query is offered, if it is planned.
pub fn offer(entries: &mut Entries, query: u64)
    ensures { (q : ℕ) → get nat_eq entries.new q ≡ with_change query offered_entry (get nat_eq entries.old) q }
{
    if let Some(entry) = entries.get_mut(&query) {
        if let Some(work) = &mut entry.work {
            work.offer();
        }
    }
}

/// Whether cells cover the runs of a query's jobs: none do where it isn't planned.
pub fn is_covered(entries: &Entries, query: u64, cells: &[DoneCells]) -> bool
    ensures { result ≡ is_covered_in (option_map data_of (get nat_eq entries.now query)) cells.now }
{
    match entries.get(&query) {
        Some(entry) => match &entry.work {
            Some(work) => work.is_covered(cells),
            None => false,
        },
        None => false,
    }
}

/// Hands out the parts of a query, all of which are there.
pub fn hand_out(entries: &mut Entries, query: u64) -> Option<Gathered>
    requires { IfSome (get nat_eq entries.old query) (λ e. IfSome e.work (λ w. (w.given ≡ false) × Each IsFilled w.slots)) }
    ensures gathered { GathersAt result (get nat_eq entries.old query) }
    ensures after { (q : ℕ) → get nat_eq entries.new q ≡ with_change query given_entry (get nat_eq entries.old) q }
{
    match entries.get_mut(&query) {
        Some(entry) => match &mut entry.work {
            Some(work) => Some(work.hand_out()),
            None => None,
        },
        None => None,
    }
}
