//! The rows of a batch that were taken so far.

ghost use Rattle.std.specs.Prelude.{◌≡◌, ◌++◌, ◌∷◌, [], true, cond, length, IfOk, OnOk, Some};
ghost use Rattle.std.specs.HashMap.{get, hash_map_len};
ghost use Rattle.pf_base.specs.LabelOrder.{labels_eq};
ghost use Rattle.pf_model.specs.Log.{compared, held_value, is_taken};
ghost use Rattle.pf_block.specs.Snaps.{SnapData};
ghost use Rattle.pf_store.specs.Keys.{AreIds, Finds, Gives, IsLast};
ghost use Rattle.pf_store.specs.Verdicts.{verdict_of};
ghost use Rattle.pf_store.specs.declared.taken.Numbered.{Numbered};

use crate::given::GivenIds;
use crate::verdict::Verdict;
use pf_base::{Labels, OutOfMemory, Row, Value};
use pf_block::Snap;
use std::alloc::Global;
use std::collections::HashMap;

/// A label set of a batch: its number among those that were met, and its id in the snapshot, if it has one.
#[derive(Clone, Copy)]
pub struct Numbered {
    pub number: usize,
    pub id: Option<u32>,
}

/// Rows in order with the ids of their series, the numbers of the label sets that were met, the ids by number, the number of
/// the last row's label set, and the value that the rows hold for each number and time.
#[derive(Drop)]
pub struct TakenRows {
    pub rows: Vec<Row>,
    pub ids: Vec<u32>,
    pub series: HashMap<Labels, Numbered>,
    pub given: GivenIds,
    pub last: Numbered,
    pub values: HashMap<(usize, u64), Value>,
}

/// The verdict on a value where another is held.
pub fn compared(held: Value, value: Value) -> Verdict
    ensures { verdict_of result ≡ compared (Some held) value }
{
    if held == value {
        Verdict::Repeated
    } else {
        Verdict::Differs { held }
    }
}

fn copied(row: &Row) -> Result<Row, OutOfMemory>
    ensures { IfOk result (λ r. r ≡ row.now) }
{
    Ok(Row {
        labels: row.labels.clone()?,
        time: row.time,
        value: row.value,
    })
}

impl TakenRows {
    /// No rows.
    pub fn new(alloc: Global, snap: &Snap) -> TakenRows
        ensures rows { result.rows.items ≡ [] }
        ensures found { Finds result.series result.values result.rows.items }
        ensures ids { AreIds snap.now result.series }
        ensures gives { Gives snap.now result.series result.rows.items result.ids.items result.given.ids.items result.given.next result.last }
    {
        TakenRows {
            rows: Vec::new(alloc),
            ids: Vec::new(alloc),
            series: HashMap::new(alloc),
            given: GivenIds {
                ids: Vec::new(alloc),
                next: snap.series_count(),
            },
            last: Numbered {
                number: 0,
                id: None,
            },
            values: HashMap::new(alloc),
        }
    }

    /// Whether the last row has these labels.
    fn ends_with(&self, labels: &Labels) -> bool
        ensures { result ≡ true → (n : Numbered) → IsLast self.now.series self.now.rows.items n → get labels_eq self.now.series labels.now ≡ Some n }
    {
        match self.rows.last() {
            Some(row) => row.labels == *labels,
            None => false,
        }
    }

    /// The number of a label set, which has one afterwards. That of the last row is not searched for.
    pub fn number(&mut self, snap: &Snap, labels: &Labels) -> Result<Numbered, OutOfMemory>
        requires found { Finds self.old.series self.old.values self.old.rows.items }
        requires ids { AreIds snap.now self.old.series }
        requires gives { Gives snap.now self.old.series self.old.rows.items self.old.ids.items self.old.given.ids.items self.old.given.next self.old.last }
        ensures known { IfOk result (λ n. get labels_eq self.new.series labels.now ≡ Some n) }
        ensures rows { OnOk result (self.new.rows ≡ self.old.rows) }
        ensures found { OnOk result (Finds self.new.series self.new.values self.new.rows.items) }
        ensures ids { OnOk result (AreIds snap.now self.new.series) }
        ensures gives { OnOk result (Gives snap.now self.new.series self.new.rows.items self.new.ids.items self.new.given.ids.items self.new.given.next self.new.last) }
    {
        if self.ends_with(labels) {
            return Ok(self.last);
        }
        self.searched(snap, labels)
    }

    /// The same, by a search.
    fn searched(&mut self, snap: &Snap, labels: &Labels) -> Result<Numbered, OutOfMemory>
        requires found { Finds self.old.series self.old.values self.old.rows.items }
        requires ids { AreIds snap.now self.old.series }
        requires gives { Gives snap.now self.old.series self.old.rows.items self.old.ids.items self.old.given.ids.items self.old.given.next self.old.last }
        ensures known { IfOk result (λ n. get labels_eq self.new.series labels.now ≡ Some n) }
        ensures rows { OnOk result (self.new.rows ≡ self.old.rows) }
        ensures found { OnOk result (Finds self.new.series self.new.values self.new.rows.items) }
        ensures ids { OnOk result (AreIds snap.now self.new.series) }
        ensures gives { OnOk result (Gives snap.now self.new.series self.new.rows.items self.new.ids.items self.new.given.ids.items self.new.given.next self.new.last) }
    {
        if let Some(numbered) = self.series.get(labels) {
            return Ok(*numbered);
        }
        let numbered = Numbered {
            number: self.series.len(),
            id: snap.find(labels),
        };
        self.series.insert(labels.clone()?, numbered)?;
        self.given.ids.push(numbered.id)?;
        Ok(numbered)
    }

    /// The verdict on a further row by these rows, which have it afterwards if it is taken.
    pub fn add(&mut self, numbered: Numbered, row: &Row) -> Result<Verdict, OutOfMemory>
        requires found { Finds self.old.series self.old.values self.old.rows.items }
        requires known { get labels_eq self.old.series row.now.labels ≡ Some numbered }
        requires count { length self.old.given.ids.items ≡ hash_map_len self.old.series }
        ensures verdict { IfOk result (λ v. verdict_of v ≡ compared (held_value self.old.rows.items row.now.labels row.now.time) row.now.value) }
        ensures rows { IfOk result (λ v. self.new.rows.items ≡ self.old.rows.items ++ cond (is_taken (verdict_of v)) (row.now ∷ []) []) }
        ensures found { OnOk result (Finds self.new.series self.new.values self.new.rows.items) }
        ensures series { OnOk result (self.new.series ≡ self.old.series) }
        ensures gives { OnOk result ((snap : SnapData) → Gives snap self.old.series self.old.rows.items self.old.ids.items self.old.given.ids.items self.old.given.next self.old.last → Gives snap self.new.series self.new.rows.items self.new.ids.items self.new.given.ids.items self.new.given.next self.new.last) }
    {
        let key = (numbered.number, row.time);
        if let Some(held) = self.values.get(&key) {
            return Ok(compared(*held, row.value));
        }
        let copy = copied(row)?;
        let id = self.given.give(numbered.number)?;
        self.values.insert(key, row.value)?;
        self.ids.push(id)?;
        self.rows.push(copy)?;
        self.last = numbered;
        Ok(Verdict::Taken)
    }
}
