//! A block with what deletions left of it.

ghost use Rattle.std.specs.Prelude.{◌≡◌, ◌≤ℤ◌, ℕ, ◌<◌, [], true, pos, filter, length, slice_index_or, IfOk};
ghost use Rattle.std.specs.Arc.{arc_value};
ghost use Rattle.std.specs.BTreeMap.{get};
ghost use Rattle.std.specs.Ordering.{nat_cmp};
ghost use Rattle.pf_base.specs.declared.plain.Sample.{Sample};
ghost use Rattle.pf_block.specs.Blocks.{ascends, merged, samples_in};
ghost use Rattle.pf_block.specs.Layers.{cut_by, has_time, is_spared, left, left_in, stays_by};
ghost use Rattle.pf_block.specs.Samples.{rises, window_of};

use crate::block::Block;
use crate::part::Part;
use crate::samples::{count_until, within};
use pf_base::{OutOfMemory, Sample};
use std::alloc::Global;
use std::collections::BTreeMap;
use std::marker::Model;
use std::sync::Arc;

/// For each series of which a sample was deleted, what is left of it.
type Parts = BTreeMap<u32, Part>;

/// A block that is shared, and what deletions left of it: reads of other series know nothing of them.
#[derive(Drop)]
pub struct Layer {
    block: Arc<Block>,
    parts: Parts,
    gone: usize,
    deletions: u32,
}

impl Model for Layer {
    ghost use Rattle.std.specs.Arc.{arc_value};
    ghost use Rattle.pf_block.specs.Blocks.{Entries};
    ghost use Rattle.pf_block.specs.Layers.{IsLayer, left};

    ghost Value = { Entries };

    ghost view = { λ l. left (arc_value l.block) l.parts };

    ghost invariant = { λ l. IsLayer (arc_value l.block) l.parts };
}

/// Whether a sample has this time.
fn has_time(samples: &[Sample], time: i64) -> bool
    requires { rises samples.now ≡ true }
    ensures { result ≡ has_time samples.now time }
{
    let count = count_until(samples, time);
    count > 0 && samples[count - 1].time >= time
}

/// Whether the sample of a series at a time is left.
fn stays(parts: &Parts, id: u32, time: i64) -> bool
    ensures { result ≡ stays_by (get nat_cmp parts.now id) time }
{
    match parts.get(&id) {
        Some(part) => has_time(part.samples(), time),
        None => true,
    }
}

/// What is left of a block, copied.
fn copied(alloc: Global, block: &Block, parts: &Parts) -> Result<Block, OutOfMemory>
    requires { ascends (left block.now parts.now) ≡ true }
    ensures { IfOk result (λ b. b ≡ left block.now parts.now) }
{
    let mut copy = Block::new(alloc);
    let mut near = 0;
    for i in 0..block.rows() {
        let (run, (id, sample)) = block.entry_near(i, near);
        near = run;
        if !stays(parts, id, sample.time) {
            continue;
        }
        copy = copy.with(id, sample)?;
    }
    Ok(copy)
}

/// What is left of a series.
fn part_of(block: &Arc<Block>, parts: &Parts, id: u32) -> Result<Part, OutOfMemory>
    requires { rises (left_in parts.now (arc_value block.now) id) ≡ true }
    ensures { IfOk result (λ p. p ≡ left_in parts.now (arc_value block.now) id) }
{
    if let Some(part) = parts.get(&id) {
        return Ok(part.clone()?);
    }
    Part::whole(block, id)
}

impl Layer {
    /// A block of which nothing was deleted.
    pub fn of(alloc: Global, block: Block) -> Result<Layer, OutOfMemory>
        ensures { IfOk result (λ l. l ≡ block) }
    {
        let _rows = block.rows();
        Ok(Layer {
            block: Arc::new(alloc, block)?,
            parts: BTreeMap::new(alloc),
            gone: 0,
            deletions: 0,
        })
    }

    /// The same, before a further deletion.
    fn copied(&self) -> Result<Layer, OutOfMemory>
        ensures { IfOk result (λ l. l ≡ self.now) }
    {
        Ok(Layer {
            block: Arc::try_clone(&self.block)?,
            parts: self.parts.clone()?,
            gone: self.gone,
            deletions: self.deletions.saturating_add(1),
        })
    }

    /// The samples of a series.
    pub fn series(&self, id: u32) -> &[Sample]
        ensures { result.now ≡ samples_in id self.now }
    {
        match self.parts.get(&id) {
            Some(part) => part.samples(),
            None => self.block.series(id),
        }
    }

    /// The samples of a series after `after`, up to and with `upto`.
    pub fn window(&self, id: u32, after: i64, upto: i64) -> &[Sample]
        requires { rises (samples_in id self.now) ≡ true }
        ensures { result.now ≡ window_of (samples_in id self.now) after upto }
    {
        within(self.series(id), after, upto)
    }

    /// Whether it is to be built anew: most of its samples are deleted, or there were many deletions.
    pub fn is_worn(&self) -> bool {
        self.deletions >= 64 || self.gone > self.block.rows() / 2
    }

    /// The samples of this and of a block, copied.
    pub fn merged(&self, alloc: Global, top: &Block) -> Result<Block, OutOfMemory>
        ensures { IfOk result (λ b. b ≡ merged self.now top.now) }
    {
        if self.parts.len() == 0 {
            return self.block.merged(top);
        }
        let left = copied(alloc, &self.block, &self.parts)?;
        left.merged(top)
    }

    /// Without the samples of a series at times from `from` to `to`.
    fn without_of(self, alloc: Global, id: u32, from: i64, to: i64) -> Result<Layer, OutOfMemory>
        requires from { pos 0 ≤ℤ from }
        requires rises { rises (samples_in id self) ≡ true }
        ensures { IfOk result (λ l. l ≡ filter (is_spared id from to) self) }
    {
        let gone = self.window(id, from - 1, to).len();
        if gone == 0 {
            return Ok(self);
        }
        let Layer {
            block,
            mut parts,
            gone: before,
            deletions,
        } = self;
        let part = part_of(&block, &parts, id)?.without(alloc, from, to)?;
        parts.insert(id, part)?;
        Ok(Layer {
            block,
            parts,
            gone: before.saturating_add(gone),
            deletions,
        })
    }

    /// Whether it has no sample of these series after `after`, up to and with `upto`.
    pub fn is_free_of(&self, series: &[u32], after: i64, upto: i64) -> bool
        requires { (id : ℕ) → rises (samples_in id self.now) ≡ true }
        ensures { result ≡ true → (k : ℕ) → k < length series.now → (d : ℕ) → window_of (samples_in (slice_index_or series.now k d) self.now) after upto ≡ [] }
    {
        for id in series {
            if self.window(*id, after, upto).len() > 0 {
                return false;
            }
        }
        true
    }

    /// Without the samples of these series at times from `from` to `to`. The block stays shared.
    pub fn without(
        &self,
        alloc: Global,
        series: &[u32],
        from: i64,
        to: i64,
    ) -> Result<Layer, OutOfMemory>
        requires from { pos 0 ≤ℤ from }
        requires rises { (id : ℕ) → rises (samples_in id self.now) ≡ true }
        ensures { IfOk result (λ l. l ≡ cut_by series.now from to self.now) }
    {
        let mut layer = self.copied()?;
        for id in series {
            layer = layer.without_of(alloc, *id, from, to)?;
        }
        Ok(layer)
    }
}
