//! A tenant's series and samples at a point of its log.

ghost use Rattle.std.specs.Prelude.{◌≡◌, ◌<◌, ◌≤◌, ◌++◌, ◌^◌, ℕ, true, IfOk, IfSome, length, vec_len, slice_index_or, nat_lt, map, drop};
ghost use Rattle.std.specs.List.{All, list_all};
ghost use Rattle.std.specs.Arc.{arc_value};
ghost use Rattle.pf_base.specs.declared.plain.Sample.{Sample};
ghost use Rattle.pf_block.specs.Blocks.{ascends, entries_of, entry_of, labels_with, noted, number_of_labels, row_ids, samples_in, times_in};
ghost use Rattle.pf_block.specs.Samples.{rises, window_of, last_of};
ghost use Rattle.pf_base.specs.LabelSets.{IsLabels};
ghost use Rattle.pf_base.specs.ShardHash.{shard_of};
ghost use Rattle.std.specs.Ordering.{is_lt};
ghost use Rattle.pf_base.specs.LabelOrder.{labels_cmp};
ghost use Rattle.pf_block.specs.IndexStacks.{AreBehind};
ghost use Rattle.pf_block.specs.LabelOrders.{in_label_order, rise_from};
ghost use Rattle.pf_block.specs.SeriesIds.{id_of, ids_with};
ghost use Rattle.pf_block.specs.Stacks.{doubles, total};
ghost use Rattle.pf_block.specs.Snaps.{IsSnap, empty_snap, labels_of, samples_of, held_at, with_rows, are_new, are_timed, without_rows};

use crate::block::{Block, Entry};
use crate::grown::grown;
use crate::index::Index;
use crate::index_stack::IndexStack;
use crate::layer::Layer;
use crate::lending::lent;
use crate::postings::Postings;
use crate::reads::last_within;
use crate::rows::{block_of, entry, new_labels};
use crate::sizes::BlockSizes;
use crate::stack::{Order, cut, put};
use crate::window::Window;
use pf_base::{Labels, MAXT, OutOfMemory, Row, Sample, Value};
use std::alloc::Global;
use std::marker::Model;
use std::sync::Arc;

/// A tenant's series, each with its samples. It never changes, and is shared.
#[derive(Drop)]
pub struct Snap {
    alloc: Global,
    index: Arc<IndexStack>,
    blocks: Vec<Arc<Layer>>,
    sizes: Vec<usize>,
    order: Order,
}

impl Model for Snap {
    ghost use Rattle.std.specs.Prelude.{map};
    ghost use Rattle.std.specs.Arc.{arc_value};
    ghost use Rattle.pf_block.specs.Stacks.{IsKept, snap_of};
    ghost use Rattle.pf_block.specs.Snaps.{SnapData};

    ghost Value = { SnapData };

    ghost view = { λ s. snap_of (arc_value s.index) (map arc_value s.blocks.items) };

    ghost invariant = { λ s. IsKept (arc_value s.index) (map arc_value s.blocks.items) s.sizes.items s.order };
}

/// The first rows that are of known series, as entries.
fn known(alloc: Global, index: &IndexStack, rows: &[Row]) -> Result<Vec<Entry>, OutOfMemory>
    requires { are_timed rows.now ≡ true }
    ensures entries { IfOk result (λ v. map entry_of v.items ++ entries_of index.now (drop (vec_len v) rows.now) ≡ entries_of index.now rows.now) }
    ensures labels { IfOk result (λ v. labels_with index.now (drop (vec_len v) rows.now) ≡ labels_with index.now rows.now) }
    ensures within { IfOk result (λ v. vec_len v ≤ length rows.now) }
{
    let mut entries = Vec::with_capacity(alloc, rows.len())?;
    for row in rows {
        let Some(id) = index.find(&row.labels) else {
            return Ok(entries);
        };
        entries.push(entry(row, id))?;
    }
    Ok(entries)
}

/// The id of a series that may be among the new ones, and these with its labels.
fn numbered_in(index: &IndexStack, new: Index, labels: &Labels) -> Result<(Index, u32), OutOfMemory>
    requires { AreBehind index.now new }
    ensures index { IfOk result (λ p. index.now ++ p.0 ≡ noted (index.now ++ new) labels.now) }
    ensures id { IfOk result (λ p. p.1 ≡ number_of_labels (index.now ++ new) labels.now) }
    ensures behind { IfOk result (λ p. AreBehind index.now p.0) }
{
    if let Some(id) = index.find(labels) {
        return Ok((new, id));
    }
    let first = index.count();
    if let Some(id) = new.find(labels) {
        return Ok((new, first + id));
    }
    let count = new.count();
    if count >= u32::MAX - first {
        return Err(OutOfMemory);
    }
    Ok((new.with(labels.clone()?)?, first + count))
}

/// The entries with those of further rows, and the labels of new series.
fn noted(
    index: &IndexStack,
    new: Index,
    entries: Vec<Entry>,
    rows: &[Row],
) -> Result<(Index, Vec<Entry>), OutOfMemory>
    requires timed { are_timed rows.now ≡ true }
    requires behind { AreBehind index.now new }
    ensures entries { IfOk result (λ p. map entry_of p.1.items ≡ map entry_of entries.items ++ entries_of (index.now ++ new) rows.now) }
    ensures labels { IfOk result (λ p. index.now ++ p.0 ≡ labels_with (index.now ++ new) rows.now) }
    ensures behind { IfOk result (λ p. AreBehind index.now p.0) }
{
    let mut new = new;
    let mut entries = entries;
    for row in rows {
        let (next, id) = numbered_in(index, new, &row.labels)?;
        new = next;
        entries.push(entry(row, id))?;
    }
    Ok((new, entries))
}

/// The rows as entries, and the index with their labels: the same one where no series is new.
fn numbered(
    alloc: Global,
    index: &Arc<IndexStack>,
    rows: &[Row],
) -> Result<(Arc<IndexStack>, Vec<Entry>), OutOfMemory>
    requires { are_timed rows.now ≡ true }
    ensures entries { IfOk result (λ p. map entry_of p.1.items ≡ entries_of (arc_value index.now) rows.now) }
    ensures labels { IfOk result (λ p. arc_value p.0 ≡ labels_with (arc_value index.now) rows.now) }
{
    let entries = known(alloc, index, rows)?;
    let place = entries.len();
    if place == rows.len() {
        return Ok((Arc::try_clone(index)?, entries));
    }
    let _count = index.count();
    let (new, entries) = noted(index, Index::new(alloc), entries, &rows[place..])?;
    Ok((Arc::new(alloc, index.with(alloc, new)?)?, entries))
}

impl Snap {
    /// A snapshot without series.
    pub fn empty(alloc: Global) -> Result<Arc<Snap>, OutOfMemory>
        ensures { IfOk result (λ s. arc_value s ≡ empty_snap) }
    {
        let snap = Snap {
            alloc,
            index: Arc::new(alloc, IndexStack::new(alloc))?,
            blocks: Vec::new(alloc),
            sizes: Vec::new(alloc),
            order: Order {
                ordered: 0,
                clear: 0,
            },
        };
        Ok(Arc::new(alloc, snap)?)
    }

    /// With these rows. New series stand at the end in the order of their first row. Where there is no further id below
    /// 2^32, this is told as want of memory.
    pub fn with(&self, rows: &[Row]) -> Result<Arc<Snap>, OutOfMemory>
        requires timed { are_timed rows.now ≡ true }
        requires fresh { are_new self.now rows.now ≡ true }
        ensures { IfOk result (λ s. arc_value s ≡ with_rows self.now rows.now) }
    {
        let (index, entries) = numbered(self.alloc, &self.index, rows)?;
        let _few = index.count();
        let block = Block::of(self.alloc, entries)?;
        self.with_block(rows, index, block)
    }

    /// The same, where `ids` are those of the rows' series: the ones that it has, and for new series the next ones in the
    /// order of their first rows. No label set is searched for.
    pub fn with_ids(&self, rows: &[Row], ids: &[u32]) -> Result<Arc<Snap>, OutOfMemory>
        requires timed { are_timed rows.now ≡ true }
        requires fresh { are_new self.now rows.now ≡ true }
        requires numbered { ids.now ≡ row_ids self.now.labels rows.now }
        ensures { IfOk result (λ s. arc_value s ≡ with_rows self.now rows.now) }
    {
        let fresh = new_labels(self.alloc, self, rows, ids)?;
        let index = grown(self.alloc, &self.index, &fresh)?;
        let block = block_of(self.alloc, rows, ids)?;
        self.with_block(rows, index, block)
    }

    /// With rows of which an index has the series and a block the samples.
    fn with_block(
        &self,
        rows: &[Row],
        index: Arc<IndexStack>,
        block: Block,
    ) -> Result<Arc<Snap>, OutOfMemory>
        requires timed { are_timed rows.now ≡ true }
        requires fresh { are_new self.now rows.now ≡ true }
        requires labels { arc_value index ≡ labels_with self.now.labels rows.now }
        requires few { length (arc_value index) < 2 ^ 32 }
        requires ascends { ascends block ≡ true }
        requires samples { (id : ℕ) → (x : Sample) → times_in x (samples_in id block) ≡ times_in x (samples_in id (entries_of self.now.labels rows.now)) }
        ensures { IfOk result (λ s. arc_value s ≡ with_rows self.now rows.now) }
    {
        let (blocks, sizes, order) = put(self.alloc, &self.blocks, &self.sizes, self.order, block)?;
        let snap = Snap {
            alloc: self.alloc,
            index,
            blocks,
            sizes,
            order,
        };
        Ok(Arc::new(self.alloc, snap)?)
    }

    /// Without the samples of these series at times from `from` to `to`, in milliseconds. The series stay.
    pub fn without(&self, series: &[u32], from: u64, to: u64) -> Result<Arc<Snap>, OutOfMemory>
        ensures { IfOk result (λ s. arc_value s ≡ without_rows self.now series.now from to) }
    {
        let from = from.min(MAXT + 1) as i64;
        let to = to.min(MAXT) as i64;
        let (blocks, sizes, order) = cut(
            self.alloc,
            &self.blocks,
            &self.sizes,
            self.order,
            series,
            from,
            to,
        )?;
        let snap = Snap {
            alloc: self.alloc,
            index: Arc::try_clone(&self.index)?,
            blocks,
            sizes,
            order,
        };
        Ok(Arc::new(self.alloc, snap)?)
    }

    /// The number of series. What each snapshot and each of its label sets is like stands here too.
    pub fn series_count(&self) -> u32
        ensures value { result ≡ length self.now.labels }
        ensures snap { IsSnap self.now }
        ensures labels { All IsLabels self.now.labels }
    {
        let _blocks = &self.blocks;
        self.index.count()
    }

    /// The series with these labels.
    pub fn find(&self, labels: &Labels) -> Option<u32>
        ensures { result ≡ id_of labels.now self.now.labels }
    {
        self.index.find(labels)
    }

    /// The series whose labels have this pair of a name and a value, by rising id.
    pub fn postings<'a>(&'a self, name: &'a str, value: &'a str) -> Postings<'a>
        ensures { result ≡ ids_with name.now value.now self.now.labels }
    {
        self.index.postings(name, value)
    }

    /// Whether a series stands before another in label order.
    pub fn is_before(&self, id: u32, other: u32) -> bool
        requires first { id < length self.now.labels }
        requires second { other < length self.now.labels }
        ensures { result ≡ is_lt (labels_cmp (labels_of self.now id) (labels_of self.now other)) }
    {
        self.index.is_before(id, other)
    }

    /// Some series in label order, given by rising id.
    pub fn in_label_order(&self, alloc: Global, ids: &[u32]) -> Result<Vec<u32>, OutOfMemory>
        requires rising { rise_from 0 ids.now ≡ true }
        requires within { All (λ id. id < length self.now.labels) ids.now }
        ensures { IfOk result (λ v. v.items ≡ in_label_order self.now.labels ids.now) }
    {
        self.index.in_label_order(alloc, ids)
    }

    /// The shard of a series among n, found without its labels.
    pub fn shard(&self, id: u32, n: u32) -> u32
        requires within { id < length self.now.labels }
        requires some { 1 ≤ n }
        ensures { result ≡ shard_of (labels_of self.now id) n }
    {
        self.index.shard(id, n)
    }

    /// The labels of a series.
    pub fn labels(&self, id: u32) -> &Labels
        requires { id < length self.now.labels }
        ensures { result.now ≡ labels_of self.now id }
    {
        self.index.labels(id)
    }

    /// The samples of a series after `after`, up to and with `upto`, in milliseconds.
    pub fn window(&self, id: u32, after: i64, upto: i64) -> Window<'_>
        requires { id < length self.now.labels }
        ensures { result ≡ window_of (samples_of self.now id) after upto }
    {
        Window::over(&self.blocks, self.order.ordered, id, after, upto)
    }

    /// The samples that `window` gives, as they lie in one block. `None` where several blocks have some.
    pub fn lent(&self, id: u32, after: i64, upto: i64) -> Option<&[Sample]>
        requires { id < length self.now.labels }
        ensures window { IfSome result (λ xs. xs.now ≡ window_of (samples_of self.now id) after upto) }
        ensures rises { IfSome result (λ xs. rises xs.now ≡ true) }
    {
        lent(&self.blocks, id, after, upto)
    }

    /// The last of the samples that `window` gives.
    pub fn last(&self, id: u32, after: i64, upto: i64) -> Option<Sample>
        requires { id < length self.now.labels }
        ensures { result ≡ last_of (window_of (samples_of self.now id) after upto) }
    {
        last_within(&self.blocks, self.order.ordered, id, after, upto)
    }

    /// The value of a series at a time in milliseconds.
    pub fn held(&self, id: u32, time: u64) -> Option<Value>
        requires { id < length self.now.labels }
        ensures { result ≡ held_at self.now id time }
    {
        let _count = self.series_count();
        if time > MAXT {
            return None;
        }
        let sample = self.last(id, time as i64 - 1, time as i64)?;
        Some(sample.value)
    }

    /// The numbers of samples that the blocks were built of, the oldest first. Each is at least twice the next, and together
    /// they are at least the snapshot's samples: those that deletions took since are counted.
    pub fn block_sizes(&self) -> BlockSizes<'_>
        ensures doubles { doubles result ≡ true }
        ensures rows { total (map length self.now.samples) ≤ total result }
        ensures filled { list_all (nat_lt 0) result ≡ true }
        ensures few { length result ≤ 64 }
    {
        let _blocks = &self.blocks;
        BlockSizes::of(&self.sizes)
    }
}
