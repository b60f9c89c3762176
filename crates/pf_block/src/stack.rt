//! Blocks on one another, the newest last.

ghost use Rattle.std.specs.Prelude.{◌≡◌, ℕ, ◌+◌, ◌-◌, ◌<◌, ◌≤◌, ◌≤ℤ◌, ◌++◌, true, IfOk, length, map, pos, slice_index_or, take};
ghost use Rattle.std.specs.Arc.{arc_value};
ghost use Rattle.std.specs.List.{list_all};
ghost use Rattle.pf_base.specs.declared.plain.Sample.{Sample};
ghost use Rattle.pf_block.specs.Blocks.{samples_in};
ghost use Rattle.pf_block.specs.Layers.{cut_by};
ghost use Rattle.pf_block.specs.Samples.{rises};
ghost use Rattle.pf_block.specs.Stacks.{IsCut, IsPut, IsStacked, doubles, is_clear, is_not_after, joined_in, order_on, series_in, takes_in, topped};

use crate::block::Block;
use crate::layer::Layer;
use pf_base::{OutOfMemory, Sample};
use std::alloc::Global;
use std::sync::Arc;

/// How blocks lie: in the first `ordered` each series' samples rise from block to block, and none of the first `clear` has a
/// sample after one of its series behind those.
#[derive(Clone, Copy)]
pub struct Order {
    pub ordered: usize,
    pub clear: usize,
}

/// How many of the first blocks have no sample of a series after a time. They lie in order up to `ordered`.
fn clear_below(blocks: &[Arc<Layer>], ordered: usize, id: u32, time: i64) -> usize
    requires rises { rises (series_in id (map arc_value blocks.now)) ≡ true }
    requires front { rises (joined_in id (take ordered (map arc_value blocks.now))) ≡ true }
    ensures within { result ≤ length blocks.now }
    ensures clear { list_all (is_not_after time) (joined_in id (take result (map arc_value blocks.now))) ≡ true }
{
    let mut clear = blocks.len();
    let mut count = clear;
    while count > 0 {
        count -= 1;
        let block = &blocks[count];
        let Some(sample) = block.series(id).last() else {
            continue;
        };
        if sample.time > time {
            clear = count;
        } else if count < ordered {
            return clear;
        }
    }
    clear
}

/// Whether the entry at a place is of the series of the one before it. They are found at once in the run `near` or behind it.
fn follows(block: &Block, place: usize, near: usize) -> bool
    requires { place < length block.now }
    ensures { result ≡ true → (e : ℕ × Sample) → (0 < place) × ((slice_index_or block.now (place - 1) e).0 ≡ (slice_index_or block.now place e).0) }
{
    if place == 0 {
        return false;
    }
    block.entry_near(place - 1, near).1.0 == block.entry_near(place, near).1.0
}

/// The run of a further entry of the block, and the same number with that entry.
fn clear_with(
    blocks: &[Arc<Layer>],
    ordered: usize,
    block: &Block,
    place: usize,
    near: usize,
    clear: usize,
) -> (usize, usize)
    requires rises { (id : ℕ) → rises (series_in id (map arc_value blocks.now)) ≡ true }
    requires front { (id : ℕ) → rises (joined_in id (take ordered (map arc_value blocks.now))) ≡ true }
    requires inside { place < length block.now }
    requires within { clear ≤ length blocks.now }
    requires clear { is_clear (take clear (map arc_value blocks.now)) (take place block.now) ≡ true }
    ensures within { result.1 ≤ length blocks.now }
    ensures clear { is_clear (take result.1 (map arc_value blocks.now)) (take (place + 1) block.now) ≡ true }
{
    let _rows = block.rows();
    let (run, (id, sample)) = block.entry_near(place, near);
    if follows(block, place, near) {
        return (run, clear);
    }
    (
        run,
        clear.min(clear_below(blocks, ordered, id, sample.time)),
    )
}

/// How many of the first blocks have no sample after one of its series in a further block.
fn clear_of(blocks: &[Arc<Layer>], ordered: usize, block: &Block) -> usize
    requires rises { (id : ℕ) → rises (series_in id (map arc_value blocks.now)) ≡ true }
    requires front { (id : ℕ) → rises (joined_in id (take ordered (map arc_value blocks.now))) ≡ true }
    ensures within { result ≤ length blocks.now }
    ensures clear { is_clear (take result (map arc_value blocks.now)) block.now ≡ true }
{
    let mut clear = blocks.len();
    let mut near = 0;
    for i in 0..block.rows() {
        (near, clear) = clear_with(blocks, ordered, block, i, near, clear);
    }
    clear
}

/// A block on others, where it is not empty.
fn on_first(
    alloc: Global,
    blocks: &[Arc<Layer>],
    top: Block,
) -> Result<Vec<Arc<Layer>>, OutOfMemory>
    ensures { IfOk result (λ v. map arc_value v.items ≡ map arc_value blocks.now ++ topped top) }
{
    let mut stack = Vec::with_capacity(alloc, blocks.len() + 1)?;
    for block in blocks {
        stack.push(Arc::try_clone(block)?)?;
    }
    if top.rows() > 0 {
        stack.push(Arc::new(alloc, Layer::of(alloc, top)?)?)?;
    }
    Ok(stack)
}

/// The numbers of samples of blocks, and that of a further one, where it is not empty.
fn numbered(alloc: Global, sizes: &[usize], top: &Block) -> Result<Vec<usize>, OutOfMemory>
    ensures { IfOk result (λ v. v.items ≡ sizes.now ++ map length (topped top.now)) }
{
    let mut numbers = Vec::with_capacity(alloc, sizes.len() + 1)?;
    for size in sizes {
        numbers.push(*size)?;
    }
    if top.rows() > 0 {
        numbers.push(top.rows())?;
    }
    Ok(numbers)
}

/// Whether the last of the first `count` blocks goes into a further one.
fn takes_in(sizes: &[usize], kept: usize, count: usize, top: &Block) -> bool
    requires { count ≤ length sizes.now }
    ensures { result ≡ takes_in sizes.now kept count top.now }
{
    if count == 0 {
        return false;
    }
    count > kept || sizes[count - 1] / 2 < top.rows()
}

/// The order of the first `count` blocks of some with a further one, `blocks` in all. None of the first `clear` has a sample
/// after one of its series in that.
fn order_on(old: Order, clear: usize, count: usize, blocks: usize) -> Order
    ensures { result ≡ order_on old clear count blocks }
{
    let clear = old.clear.min(clear);
    if count <= old.ordered && count <= clear {
        return Order {
            ordered: blocks,
            clear: blocks,
        };
    }
    Order {
        ordered: old.ordered.min(count),
        clear,
    }
}

/// A further block on the first `kept` blocks. It takes in the others, and then the last one as long as that was built of
/// fewer than twice its samples. None of the first `clear` has a sample after one of its series.
fn stacked(
    alloc: Global,
    blocks: &[Arc<Layer>],
    sizes: &[usize],
    order: Order,
    kept: usize,
    clear: usize,
    block: Block,
) -> Result<(Vec<Arc<Layer>>, Vec<usize>, Order), OutOfMemory>
    requires count { length sizes.now ≡ length blocks.now }
    requires within { kept ≤ length blocks.now }
    requires doubles { doubles sizes.now ≡ true }
    ensures { IfOk result (λ p. IsStacked (map arc_value blocks.now) sizes.now order kept clear block (map arc_value p.0.items) p.1.items p.2) }
{
    let mut count = blocks.len();
    let mut top = block;
    while takes_in(sizes, kept, count, &top) {
        count -= 1;
        top = blocks[count].merged(alloc, &top)?;
    }
    let numbers = numbered(alloc, &sizes[..count], &top)?;
    let stack = on_first(alloc, &blocks[..count], top)?;
    let order = order_on(order, clear, count, stack.len());
    Ok((stack, numbers, order))
}

/// A further block on blocks. Its samples may come late: before ones of their series that are there.
pub fn put(
    alloc: Global,
    blocks: &[Arc<Layer>],
    sizes: &[usize],
    order: Order,
    block: Block,
) -> Result<(Vec<Arc<Layer>>, Vec<usize>, Order), OutOfMemory>
    requires rises { (id : ℕ) → rises (series_in id (map arc_value blocks.now)) ≡ true }
    requires front { (id : ℕ) → rises (joined_in id (take order.ordered (map arc_value blocks.now))) ≡ true }
    requires count { length sizes.now ≡ length blocks.now }
    requires doubles { doubles sizes.now ≡ true }
    ensures { IfOk result (λ p. IsPut (map arc_value blocks.now) sizes.now order block (map arc_value p.0.items) p.1.items p.2) }
{
    let clear = clear_of(blocks, order.ordered, &block);
    let stack = stacked(alloc, blocks, sizes, order, blocks.len(), clear, block)?;
    Ok(stack)
}

/// How many of the first blocks need not be built anew.
fn unworn(blocks: &[Arc<Layer>]) -> usize
    ensures { result ≤ length blocks.now }
{
    for i in 0..blocks.len() {
        if blocks[i].is_worn() {
            return i;
        }
    }
    blocks.len()
}

/// A block without the samples of some series: the same one where it has none of them.
fn cut_block(
    alloc: Global,
    block: &Arc<Layer>,
    series: &[u32],
    from: i64,
    to: i64,
) -> Result<Arc<Layer>, OutOfMemory>
    requires from { pos 0 ≤ℤ from }
    requires rises { (id : ℕ) → rises (samples_in id (arc_value block.now)) ≡ true }
    ensures { IfOk result (λ b. arc_value b ≡ cut_by series.now from to (arc_value block.now)) }
{
    if block.is_free_of(series, from - 1, to) {
        return Ok(Arc::try_clone(block)?);
    }
    Ok(Arc::new(alloc, block.without(alloc, series, from, to)?)?)
}

/// Each block without them.
fn cut_blocks(
    alloc: Global,
    blocks: &[Arc<Layer>],
    series: &[u32],
    from: i64,
    to: i64,
) -> Result<Vec<Arc<Layer>>, OutOfMemory>
    requires from { pos 0 ≤ℤ from }
    requires rises { (id : ℕ) → rises (series_in id (map arc_value blocks.now)) ≡ true }
    ensures { IfOk result (λ v. map arc_value v.items ≡ map (cut_by series.now from to) (map arc_value blocks.now)) }
{
    let mut left = Vec::with_capacity(alloc, blocks.len())?;
    for block in blocks {
        left.push(cut_block(alloc, block, series, from, to)?)?;
    }
    Ok(left)
}

/// The blocks without the samples of these series at times from `from` to `to`. What is worn by deletions is built anew.
pub fn cut(
    alloc: Global,
    blocks: &[Arc<Layer>],
    sizes: &[usize],
    order: Order,
    series: &[u32],
    from: i64,
    to: i64,
) -> Result<(Vec<Arc<Layer>>, Vec<usize>, Order), OutOfMemory>
    requires from { pos 0 ≤ℤ from }
    requires rises { (id : ℕ) → rises (series_in id (map arc_value blocks.now)) ≡ true }
    requires count { length sizes.now ≡ length blocks.now }
    requires doubles { doubles sizes.now ≡ true }
    ensures { IfOk result (λ p. IsCut series.now from to (map arc_value blocks.now) sizes.now order (map arc_value p.0.items) p.1.items p.2) }
{
    let left = cut_blocks(alloc, blocks, series, from, to)?;
    let unworn = unworn(&left);
    let stack = stacked(
        alloc,
        &left,
        sizes,
        order,
        unworn,
        left.len(),
        Block::new(alloc),
    )?;
    Ok(stack)
}
