//! Indexes of series with further ones.

ghost use Rattle.std.specs.Prelude.{◌≡◌, ◌<◌, ◌^◌, ◌++◌, true, IfOk, length};
ghost use Rattle.std.specs.Arc.{arc_value};
ghost use Rattle.pf_block.specs.Snaps.{are_apart};

use crate::index::Index;
use crate::index_stack::IndexStack;
use pf_base::{Labels, OutOfMemory};
use std::alloc::Global;
use std::sync::Arc;

/// An index with further series at the end.
fn with_each(index: Index, fresh: &[Labels]) -> Result<Index, OutOfMemory>
    requires { are_apart (index ++ fresh.now) ≡ true }
    ensures { IfOk result (λ i. i ≡ index ++ fresh.now) }
{
    let mut index = index;
    for labels in fresh {
        index = index.with(labels.clone()?)?;
    }
    Ok(index)
}

/// The indexes with further series at the end: the same ones where there are none. Where there is no further id below 2^32,
/// this is told as want of memory.
pub fn grown(
    alloc: Global,
    index: &Arc<IndexStack>,
    fresh: &[Labels],
) -> Result<Arc<IndexStack>, OutOfMemory>
    requires { are_apart (arc_value index.now ++ fresh.now) ≡ true }
    ensures value { IfOk result (λ r. arc_value r ≡ arc_value index.now ++ fresh.now) }
    ensures few { IfOk result (λ r. length (arc_value r) < 2 ^ 32) }
{
    let count = index.count();
    if fresh.is_empty() {
        return Ok(Arc::try_clone(index)?);
    }
    let new = with_each(Index::new(alloc), fresh)?;
    if new.count() > u32::MAX - count {
        return Err(OutOfMemory);
    }
    let all = index.with(alloc, new)?;
    let _few = all.count();
    Ok(Arc::new(alloc, all)?)
}
