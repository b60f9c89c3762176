//! Rows with the ids of their series.

ghost use Rattle.std.specs.Prelude.{◌≡◌, ◌++◌, ℕ, true, IfOk, length, map, nat_le};
ghost use Rattle.pf_base.specs.Limits.{greatest_time};
ghost use Rattle.pf_base.specs.declared.plain.Sample.{Sample};
ghost use Rattle.pf_block.specs.Blocks.{ascends, entries_with, entry_of, labels_with, row_ids, samples_in, times_in};
ghost use Rattle.pf_block.specs.Snaps.{are_apart, are_timed, sample_of};

use crate::block::{Block, Entry, is_upto};
use crate::snap::Snap;
use pf_base::{Labels, OutOfMemory, Row, Sample};
use std::alloc::Global;

/// A row as an entry.
pub fn entry(row: &Row, id: u32) -> Entry
    requires { nat_le row.now.time greatest_time ≡ true }
    ensures { entry_of result ≡ (id, sample_of row.now) }
{
    (id, (row.time as i64, row.value))
}

fn sample(row: &Row) -> Sample
    requires { nat_le row.now.time greatest_time ≡ true }
    ensures { result ≡ sample_of row.now }
{
    Sample {
        time: row.time as i64,
        value: row.value,
    }
}

/// The label sets of the new series among rows, in the order of their first rows.
pub fn new_labels(
    alloc: Global,
    snap: &Snap,
    rows: &[Row],
    ids: &[u32],
) -> Result<Vec<Labels>, OutOfMemory>
    requires { ids.now ≡ row_ids snap.now.labels rows.now }
    ensures labels { IfOk result (λ v. snap.now.labels ++ v.items ≡ labels_with snap.now.labels rows.now) }
    ensures apart { are_apart snap.now.labels ≡ true }
{
    let mut new = Vec::new(alloc);
    let mut next = snap.series_count() as usize;
    for i in 0..rows.len() {
        if ids[i] as usize == next {
            new.push(rows[i].labels.clone()?)?;
            next += 1;
        }
    }
    Ok(new)
}

/// Whether rows ascend as they come: by id, and each series' by time.
fn do_ascend(rows: &[Row], ids: &[u32]) -> bool
    requires timed { are_timed rows.now ≡ true }
    requires alike { length ids.now ≡ length rows.now }
    ensures { result ≡ ascends (entries_with ids.now rows.now) }
{
    for i in 1..rows.len() {
        let before = (ids[i - 1], sample(&rows[i - 1]));
        if !is_upto(before, (ids[i], sample(&rows[i]))) {
            return false;
        }
    }
    true
}

/// A block of rows that ascend.
fn written(alloc: Global, rows: &[Row], ids: &[u32]) -> Result<Block, OutOfMemory>
    requires timed { are_timed rows.now ≡ true }
    requires alike { length ids.now ≡ length rows.now }
    requires ascends { ascends (entries_with ids.now rows.now) ≡ true }
    ensures { IfOk result (λ b. b ≡ entries_with ids.now rows.now) }
{
    let mut block = Block::with_room(alloc, rows.len())?;
    for i in 0..rows.len() {
        block = block.with(ids[i], sample(&rows[i]))?;
    }
    Ok(block)
}

/// Rows as entries.
fn entries(alloc: Global, rows: &[Row], ids: &[u32]) -> Result<Vec<Entry>, OutOfMemory>
    requires timed { are_timed rows.now ≡ true }
    requires alike { length ids.now ≡ length rows.now }
    ensures { IfOk result (λ v. map entry_of v.items ≡ entries_with ids.now rows.now) }
{
    let mut entries = Vec::with_capacity(alloc, rows.len())?;
    for i in 0..rows.len() {
        entries.push(entry(&rows[i], ids[i]))?;
    }
    Ok(entries)
}

/// A block of rows. Rows that ascend are written into it as they come, others are sorted before.
pub fn block_of(alloc: Global, rows: &[Row], ids: &[u32]) -> Result<Block, OutOfMemory>
    requires timed { are_timed rows.now ≡ true }
    requires alike { length ids.now ≡ length rows.now }
    ensures samples { IfOk result (λ b. (id : ℕ) → (x : Sample) → times_in x (samples_in id b) ≡ times_in x (samples_in id (entries_with ids.now rows.now))) }
    ensures ascends { IfOk result (λ b. ascends b ≡ true) }
{
    if do_ascend(rows, ids) {
        return written(alloc, rows, ids);
    }
    Block::of(alloc, entries(alloc, rows, ids)?)
}
