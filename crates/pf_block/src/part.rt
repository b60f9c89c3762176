//! Samples of a series of a block, side by side.

ghost use Rattle.std.specs.Prelude.{◌≡◌, ◌≤ℤ◌, true, pos, filter, IfOk};
ghost use Rattle.std.specs.Arc.{arc_value};
ghost use Rattle.pf_base.specs.declared.plain.Sample.{Sample};
ghost use Rattle.pf_block.specs.Blocks.{samples_in};
ghost use Rattle.pf_block.specs.Layers.{labelled};
ghost use Rattle.pf_block.specs.Samples.{is_outside, rises};

use crate::block::Block;
use crate::samples::count_until;
use pf_base::{OutOfMemory, Sample};
use std::alloc::{AllocError, Global};
use std::clone::Clone;
use std::marker::Model;
use std::sync::Arc;

/// Samples of one series of a block, which is shared: so many behind some that are passed over.
#[derive(Drop)]
pub struct Part {
    block: Arc<Block>,
    id: u32,
    passed: usize,
    count: usize,
}

impl Model for Part {
    ghost use Rattle.std.specs.Prelude.{◌≡◌, true, List, take, drop};
    ghost use Rattle.std.specs.Arc.{arc_value};
    ghost use Rattle.pf_base.specs.declared.plain.Sample.{Sample};
    ghost use Rattle.pf_block.specs.Blocks.{samples_in};
    ghost use Rattle.pf_block.specs.Samples.{rises};

    ghost Value = { List Sample };

    ghost view = { λ p. take p.count (drop p.passed (samples_in p.id (arc_value p.block))) };

    ghost invariant = { λ p. rises (take p.count (drop p.passed (samples_in p.id (arc_value p.block)))) ≡ true };
}

impl Clone for Part {
    ghost is_clone = { λ p q. q ≡ p };

    fn clone(&self) -> Result<Part, AllocError>
        ensures { IfOk result (λ q. q ≡ self.now) }
    {
        Ok(Part {
            block: Arc::try_clone(&self.block)?,
            id: self.id,
            passed: self.passed,
            count: self.count,
        })
    }
}

/// Whether the time of a sample lies outside those from `from` to `to`.
fn is_outside(sample: &Sample, from: i64, to: i64) -> bool
    ensures { result ≡ is_outside from to sample.now }
{
    sample.time < from || to < sample.time
}

/// A block of the samples of a series outside the times from `from` to `to`.
fn outside(
    alloc: Global,
    id: u32,
    samples: &[Sample],
    from: i64,
    to: i64,
) -> Result<Block, OutOfMemory>
    requires { rises samples.now ≡ true }
    ensures { IfOk result (λ b. b ≡ labelled id (filter (is_outside from to) samples.now)) }
{
    let mut block = Block::new(alloc);
    for sample in samples {
        if !is_outside(sample, from, to) {
            continue;
        }
        block = block.with(id, *sample)?;
    }
    Ok(block)
}

impl Part {
    /// All samples of a series.
    pub fn whole(block: &Arc<Block>, id: u32) -> Result<Part, OutOfMemory>
        requires { rises (samples_in id (arc_value block.now)) ≡ true }
        ensures { IfOk result (λ p. p ≡ samples_in id (arc_value block.now)) }
    {
        Ok(Part {
            block: Arc::try_clone(block)?,
            id,
            passed: 0,
            count: block.series(id).len(),
        })
    }

    /// The samples.
    pub fn samples(&self) -> &[Sample]
        ensures value { result.now ≡ self.now }
        ensures rises { rises self.now ≡ true }
    {
        let all = self.block.series(self.id);
        let behind = &all[self.passed.min(all.len())..];
        &behind[..self.count.min(behind.len())]
    }

    /// Those outside the times from `from` to `to`. They are copied only where they lie on both sides.
    pub fn without(&self, alloc: Global, from: i64, to: i64) -> Result<Part, OutOfMemory>
        requires from { pos 0 ≤ℤ from }
        requires to { from ≤ℤ to }
        ensures { IfOk result (λ p. p ≡ filter (is_outside from to) self.now) }
    {
        let samples = self.samples();
        let first = count_until(samples, from - 1);
        let behind = count_until(samples, to);
        if first == 0 {
            let Some(passed) = self.passed.checked_add(behind) else {
                return Err(OutOfMemory);
            };
            return Ok(Part {
                block: Arc::try_clone(&self.block)?,
                id: self.id,
                passed,
                count: self.count - behind,
            });
        }
        if behind == samples.len() {
            return Ok(Part {
                block: Arc::try_clone(&self.block)?,
                id: self.id,
                passed: self.passed,
                count: first,
            });
        }
        let block = outside(alloc, self.id, samples, from, to)?;
        let count = block.rows();
        Ok(Part {
            block: Arc::new(alloc, block)?,
            id: self.id,
            passed: 0,
            count,
        })
    }
}
