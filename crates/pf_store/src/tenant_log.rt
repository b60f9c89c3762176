//! A tenant's log.

ghost use Rattle.std.specs.Prelude.{◌≡◌, ◌≤◌, ◌+◌, true, [], List, IfOk, OnErr, OnOk};
ghost use Rattle.pf_block.specs.Snaps.{are_timed};
ghost use Rattle.pf_model.specs.Log.{Change, Rules, floor_below, log_with, log_without, newest_with, verdicts_of};
ghost use Rattle.pf_store.specs.Standing.{AreAccepted, IsLog, IsPin, deleted_after, verdicts_after};

use crate::judged::judge_rows;
use crate::verdict::Verdicts;
use pf_base::{Batch, OutOfMemory, Row};
use pf_block::Snap;
use pf_index::select;
use pf_model::Matchers;
use std::alloc::{AllocError, Global};
use std::marker::Model;
use std::sync::Arc;

/// The generation after a deletion, and the number of the log's entries with it.
#[derive(Clone, Copy)]
pub struct Deleted {
    pub generation: u64,
    pub entry: u64,
}

/// A log as it stood at a moment: the number of its entries, its floor in milliseconds (none where nothing was ever
/// taken), its generation, and its samples.
#[derive(Drop)]
pub struct Pin {
    pub number: u64,
    pub floor: Option<u64>,
    pub generation: u64,
    pub snap: Arc<Snap>,
}

impl Model for Pin {
    ghost use Rattle.std.specs.Arc.{arc_value};
    ghost use Rattle.pf_store.specs.Standing.{PinData};

    ghost Value = { PinData };

    ghost view = { λ p. record { number = p.number; floor = p.floor; generation = p.generation; snap = arc_value p.snap } };
}

/// A tenant's log: its samples, and what verdicts and pins need of its past.
#[derive(Drop)]
pub struct TenantLog {
    alloc: Global,
    window: u64,
    entries: u64,
    newest: Option<u64>,
    generation: u64,
    snap: Arc<Snap>,
}

impl Model for TenantLog {
    ghost use Rattle.std.specs.Arc.{arc_value};
    ghost use Rattle.pf_store.specs.Standing.{IsKept, LogData};

    ghost Value = { LogData };

    ghost view = { λ l. record { window = l.window; entries = l.entries; newest = l.newest; generation = l.generation; snap = arc_value l.snap } };

    ghost invariant = { λ l. IsKept (record { window = l.window; entries = l.entries; newest = l.newest; generation = l.generation; snap = arc_value l.snap }) };
}

/// A copy, which shares the samples.
impl Clone for TenantLog {
    ghost is_clone = { λ x y. y ≡ x };

    fn clone(&self) -> Result<TenantLog, AllocError>
        ensures { IfOk result (λ l. l ≡ self.now) }
    {
        Ok(TenantLog {
            alloc: self.alloc,
            window: self.window,
            entries: self.entries,
            newest: self.newest,
            generation: self.generation,
            snap: Arc::try_clone(&self.snap)?,
        })
    }
}

/// The greatest time, with those of some rows.
fn newest_with(newest: Option<u64>, rows: &[Row]) -> Option<u64>
    ensures { result ≡ newest_with newest rows.now }
{
    let mut newest = newest;
    for row in rows {
        newest = match newest {
            Some(time) => Some(time.max(row.time)),
            None => Some(row.time),
        };
    }
    newest
}

fn floor_below(window: u64, newest: Option<u64>) -> Option<u64>
    ensures { result ≡ floor_below window newest }
{
    match newest {
        Some(time) => Some(time.saturating_sub(window)),
        None => None,
    }
}

/// The number of entries with a further one. No memory holds 2^64 of them.
fn with_entry(entries: u64) -> Result<u64, OutOfMemory>
    ensures { IfOk result (λ n. n ≡ entries + 1) }
{
    entries.checked_add(1).ok_or(OutOfMemory)
}

/// The series whose labels the matchers accept.
fn accepted(alloc: Global, snap: &Snap, matchers: &Matchers) -> Result<Vec<u32>, OutOfMemory>
    ensures { IfOk result (λ v. AreAccepted matchers.now snap.now v.items) }
{
    let ids = select(alloc, snap, matchers)?;
    Ok(ids)
}

impl TenantLog {
    /// A log without entries. `window` is in milliseconds.
    pub fn open(alloc: Global, window: u64) -> Result<TenantLog, OutOfMemory>
        ensures window { IfOk result (λ l. l.window ≡ window) }
        ensures stands { IfOk result (λ l. IsLog (record { window = window }) l []) }
    {
        Ok(TenantLog {
            alloc,
            window,
            entries: 0,
            newest: None,
            generation: 0,
            snap: Snap::empty(alloc)?,
        })
    }

    /// Takes in a batch: the verdict on each row by the floor before the batch, and by what the log and the rows
    /// before it hold. There is a further entry exactly where a row is taken.
    pub fn append(&mut self, batch: &Batch) -> Result<Verdicts, OutOfMemory>
        requires { are_timed batch.now.rows ≡ true }
        ensures verdicts { IfOk result (λ v. (rules : Rules) (log : List Change) → IsLog rules self.old log → v ≡ verdicts_after rules log batch.now.rows) }
        ensures stands { OnOk result ((rules : Rules) (log : List Change) → IsLog rules self.old log → IsLog rules self.new (log_with log batch.now.rows (verdicts_of rules log batch.now.rows))) }
        ensures window { self.new.window ≡ self.old.window }
        ensures refused { OnErr result (self.new ≡ self.old) }
    {
        let judged = judge_rows(
            self.alloc,
            &self.snap,
            floor_below(self.window, self.newest),
            &batch.rows,
        )?;
        if judged.taken.is_empty() {
            return Ok(Verdicts {
                list: judged.list,
                entry: self.entries,
            });
        }
        let entries = with_entry(self.entries)?;
        self.snap = self.snap.with_ids(&judged.taken, &judged.ids)?;
        self.newest = newest_with(self.newest, &judged.taken);
        self.entries = entries;
        Ok(Verdicts {
            list: judged.list,
            entry: entries,
        })
    }

    /// Removes the samples that the matchers accept at times from `from` to `to`, both ends included. There is always a
    /// further entry.
    pub fn delete(
        &mut self,
        matchers: &Matchers,
        from: u64,
        to: u64,
    ) -> Result<Deleted, OutOfMemory>
        requires { from ≤ to }
        ensures deleted { IfOk result (λ d. (rules : Rules) (log : List Change) → IsLog rules self.old log → d ≡ deleted_after rules (log_without log matchers.now from to)) }
        ensures stands { OnOk result ((rules : Rules) (log : List Change) → IsLog rules self.old log → IsLog rules self.new (log_without log matchers.now from to)) }
        ensures window { self.new.window ≡ self.old.window }
        ensures refused { OnErr result (self.new ≡ self.old) }
    {
        let entries = with_entry(self.entries)?;
        let series = accepted(self.alloc, &self.snap, matchers)?;
        self.snap = self.snap.without(&series, from, to)?;
        self.generation += 1;
        self.entries = entries;
        Ok(Deleted {
            generation: self.generation,
            entry: entries,
        })
    }

    /// A pin of the log as it stands. It copies no sample.
    #[tactic(auto, using(crate::proofs::ApartRows::apart_of_log))]
    pub fn pin(&self) -> Result<Pin, OutOfMemory>
        ensures { IfOk result (λ p. (rules : Rules) (log : List Change) → IsLog rules self.now log → IsPin p rules log) }
    {
        Ok(Pin {
            number: self.entries,
            floor: floor_below(self.window, self.newest),
            generation: self.generation,
            snap: Arc::try_clone(&self.snap)?,
        })
    }
}
