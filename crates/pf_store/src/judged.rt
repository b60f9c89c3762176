//! Verdicts on the rows of a batch.

ghost use Rattle.std.specs.Prelude.{◌≡◌, ◌<◌, ◌++◌, ◌∷◌, [], None, true, cond, List, length, map, IfOk, IfSome, OnOk};
ghost use Rattle.pf_base.specs.declared.plain.Row.{Row};
ghost use Rattle.pf_block.specs.Blocks.{row_ids};
ghost use Rattle.pf_block.specs.Snaps.{are_new, are_timed, held_by};
ghost use Rattle.pf_model.specs.Log.{is_taken, taken_rows, verdict_on, verdicts_on};
ghost use Rattle.pf_store.specs.Keys.{AreIds, Finds, Gives};
ghost use Rattle.pf_store.specs.Standing.{IsAlike, IsFresh, StandsFor};
ghost use Rattle.pf_store.specs.Verdicts.{verdict_of};

use crate::taken::{TakenRows, compared};
use crate::verdict::Verdict;
use pf_base::{OutOfMemory, Row, Value};
use pf_block::Snap;
use std::alloc::Global;

/// The verdicts on some rows in order, and the rows that are taken, with the ids of their series.
#[derive(Drop)]
pub struct Judged {
    pub list: Vec<Verdict>,
    pub taken: Vec<Row>,
    pub ids: Vec<u32>,
}

/// The value that a snapshot holds for a series at a time, none where it has no such series.
fn held_by(snap: &Snap, id: Option<u32>, time: u64) -> Option<Value>
    requires { IfSome id (λ n. n < length snap.now.labels) }
    ensures { result ≡ held_by snap.now id time }
{
    snap.held(id?, time)
}

/// The verdict on a row by the snapshot and the rows taken before it; it is added to these if it is taken.
fn judge_held(snap: &Snap, taken: &mut TakenRows, row: &Row) -> Result<Verdict, OutOfMemory>
    requires found { Finds taken.old.series taken.old.values taken.old.rows.items }
    requires ids { AreIds snap.now taken.old.series }
    requires gives { Gives snap.now taken.old.series taken.old.rows.items taken.old.ids.items taken.old.given.ids.items taken.old.given.next taken.old.last }
    ensures verdict { IfOk result (λ v. (xs : List Row) → StandsFor snap.now xs → verdict_of v ≡ verdict_on None (xs ++ taken.old.rows.items) row.now) }
    ensures rows { IfOk result (λ v. taken.new.rows.items ≡ taken.old.rows.items ++ cond (is_taken (verdict_of v)) (row.now ∷ []) []) }
    ensures fresh { IfOk result (λ v. is_taken (verdict_of v) ≡ true → IsFresh snap.now taken.old.rows.items row.now) }
    ensures found { OnOk result (Finds taken.new.series taken.new.values taken.new.rows.items) }
    ensures ids { OnOk result (AreIds snap.now taken.new.series) }
    ensures gives { OnOk result (Gives snap.now taken.new.series taken.new.rows.items taken.new.ids.items taken.new.given.ids.items taken.new.given.next taken.new.last) }
{
    let numbered = taken.number(snap, &row.labels)?;
    if let Some(held) = held_by(snap, numbered.id, row.time) {
        return Ok(compared(held, row.value));
    }
    let verdict = taken.add(numbered, row)?;
    Ok(verdict)
}

/// The same, with the floor before it.
fn judge(
    snap: &Snap,
    floor: Option<u64>,
    taken: &mut TakenRows,
    row: &Row,
) -> Result<Verdict, OutOfMemory>
    requires found { Finds taken.old.series taken.old.values taken.old.rows.items }
    requires ids { AreIds snap.now taken.old.series }
    requires gives { Gives snap.now taken.old.series taken.old.rows.items taken.old.ids.items taken.old.given.ids.items taken.old.given.next taken.old.last }
    ensures verdict { IfOk result (λ v. (xs : List Row) → StandsFor snap.now xs → verdict_of v ≡ verdict_on floor (xs ++ taken.old.rows.items) row.now) }
    ensures rows { IfOk result (λ v. taken.new.rows.items ≡ taken.old.rows.items ++ cond (is_taken (verdict_of v)) (row.now ∷ []) []) }
    ensures fresh { IfOk result (λ v. is_taken (verdict_of v) ≡ true → IsFresh snap.now taken.old.rows.items row.now) }
    ensures found { OnOk result (Finds taken.new.series taken.new.values taken.new.rows.items) }
    ensures ids { OnOk result (AreIds snap.now taken.new.series) }
    ensures gives { OnOk result (Gives snap.now taken.new.series taken.new.rows.items taken.new.ids.items taken.new.given.ids.items taken.new.given.next taken.new.last) }
{
    if let Some(floor) = floor {
        if row.time < floor {
            return Ok(Verdict::TooOld { floor });
        }
    }
    let verdict = judge_held(snap, taken, row)?;
    Ok(verdict)
}

/// The verdicts on rows in order, with the floor before them.
pub fn judge_rows(
    alloc: Global,
    snap: &Snap,
    floor: Option<u64>,
    rows: &[Row],
) -> Result<Judged, OutOfMemory>
    requires alike { IsAlike snap.now }
    requires timed { are_timed rows.now ≡ true }
    ensures list { IfOk result (λ j. (xs : List Row) → StandsFor snap.now xs → map verdict_of j.list.items ≡ verdicts_on floor xs rows.now) }
    ensures taken { IfOk result (λ j. (xs : List Row) → StandsFor snap.now xs → j.taken.items ≡ taken_rows rows.now (verdicts_on floor xs rows.now)) }
    ensures ids { IfOk result (λ j. j.ids.items ≡ row_ids snap.now.labels j.taken.items) }
    ensures fresh { IfOk result (λ j. are_new snap.now j.taken.items ≡ true) }
    ensures timed { IfOk result (λ j. are_timed j.taken.items ≡ true) }
{
    let mut list = Vec::new(alloc);
    let mut taken = TakenRows::new(alloc, snap);
    for row in rows {
        list.push(judge(snap, floor, &mut taken, row)?)?;
    }
    Ok(Judged {
        list,
        taken: taken.rows,
        ids: taken.ids,
    })
}
