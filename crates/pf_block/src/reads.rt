//! The samples of a series, read from blocks: one block behind the other where they rise so, and else of all blocks.

ghost use Rattle.std.specs.Prelude.{◌≡◌, ◌++◌, true, [], map, take};
ghost use Rattle.std.specs.Arc.{arc_value};
ghost use Rattle.pf_base.specs.declared.plain.Sample.{Sample};
ghost use Rattle.pf_block.specs.Samples.{ends_at, last_of, later_of, rises, stretch_of, window_of};
ghost use Rattle.pf_block.specs.Stacks.{joined_in, series_in};

use crate::layer::Layer;
use crate::samples::count_until;
use pf_base::Sample;
use std::sync::Arc;

/// Whether samples of a series end before others begin, or there are none of one of them.
fn ends_before(ones: &[Sample], others: &[Sample]) -> bool
    requires ones { rises ones.now ≡ true }
    requires others { rises others.now ≡ true }
    ensures { result ≡ true → rises (ones.now ++ others.now) ≡ true }
{
    let Some(last) = ones.last() else {
        return true;
    };
    let Some(first) = others.first() else {
        return true;
    };
    last.time < first.time
}

/// Whether the samples of a series rise from block to block.
fn are_joined(blocks: &[Arc<Layer>], id: u32) -> bool
    requires { rises (series_in id (map arc_value blocks.now)) ≡ true }
    ensures { result ≡ true → rises (joined_in id (map arc_value blocks.now)) ≡ true }
{
    let mut behind: &[Sample] = &[];
    let mut count = blocks.len();
    while count > 0 {
        count -= 1;
        let block = &blocks[count];
        let samples = block.series(id);
        if !ends_before(samples, behind) {
            return false;
        }
        if !samples.is_empty() {
            behind = samples;
        }
    }
    true
}

/// The same of blocks that lie in order up to `ordered`: those are not looked at where they are all.
pub fn is_joined(blocks: &[Arc<Layer>], ordered: usize, id: u32) -> bool
    requires rises { rises (series_in id (map arc_value blocks.now)) ≡ true }
    requires front { rises (joined_in id (take ordered (map arc_value blocks.now))) ≡ true }
    ensures { result ≡ true → rises (joined_in id (map arc_value blocks.now)) ≡ true }
{
    if ordered >= blocks.len() {
        return true;
    }
    are_joined(blocks, id)
}

/// The samples with the earlier first one, up to the first of the others.
fn stretch_of<'a>(ones: &'a [Sample], others: &'a [Sample]) -> &'a [Sample]
    requires ones { rises ones.now ≡ true }
    requires others { rises others.now ≡ true }
    ensures { result.now ≡ stretch_of ones.now others.now }
{
    let Some(one) = ones.first() else {
        return others;
    };
    let Some(other) = others.first() else {
        return ones;
    };
    if one.time <= other.time {
        &ones[..count_until(ones, other.time)]
    } else {
        &others[..count_until(others, one.time)]
    }
}

/// Some first samples of a series after `after`, up to and with `upto`, side by side in one block. There are none only where
/// nothing is left.
pub fn next_stretch<'a>(blocks: &'a [Arc<Layer>], id: u32, after: i64, upto: i64) -> &'a [Sample]
    requires { rises (series_in id (map arc_value blocks.now)) ≡ true }
    ensures left { result.now ++ window_of (series_in id (map arc_value blocks.now)) (ends_at after result.now) upto ≡ window_of (series_in id (map arc_value blocks.now)) after upto }
    ensures none { result.now ≡ [] → window_of (series_in id (map arc_value blocks.now)) after upto ≡ [] }
{
    let mut stretch: &[Sample] = &[];
    let mut count = blocks.len();
    while count > 0 {
        count -= 1;
        let block = &blocks[count];
        stretch = stretch_of(block.window(id, after, upto), stretch);
    }
    stretch
}

/// The later of two samples.
fn later(one: Option<Sample>, other: Option<Sample>) -> Option<Sample>
    ensures { result ≡ later_of one other }
{
    let Some(sample) = one else {
        return other;
    };
    let Some(further) = other else {
        return Some(sample);
    };
    if sample.time <= further.time {
        return Some(further);
    }
    Some(sample)
}

/// The last sample of a series after `after`, up to and with `upto`, where its samples rise from block to block.
fn last_joined(blocks: &[Arc<Layer>], id: u32, after: i64, upto: i64) -> Option<Sample>
    requires { rises (joined_in id (map arc_value blocks.now)) ≡ true }
    ensures { result ≡ last_of (window_of (joined_in id (map arc_value blocks.now)) after upto) }
{
    let mut count = blocks.len();
    while count > 0 {
        count -= 1;
        let block = &blocks[count];
        if let Some(sample) = block.window(id, after, upto).last() {
            return Some(*sample);
        }
    }
    None
}

/// The same, in whatever order its samples lie.
fn last_of_all(blocks: &[Arc<Layer>], id: u32, after: i64, upto: i64) -> Option<Sample>
    requires { rises (series_in id (map arc_value blocks.now)) ≡ true }
    ensures { result ≡ last_of (window_of (series_in id (map arc_value blocks.now)) after upto) }
{
    let mut last = None;
    let mut count = blocks.len();
    while count > 0 {
        count -= 1;
        let block = &blocks[count];
        last = later(block.window(id, after, upto).last().copied(), last);
    }
    last
}

/// The last sample of a series after `after`, up to and with `upto`. The blocks lie in order up to `ordered`.
pub fn last_within(
    blocks: &[Arc<Layer>],
    ordered: usize,
    id: u32,
    after: i64,
    upto: i64,
) -> Option<Sample>
    requires rises { rises (series_in id (map arc_value blocks.now)) ≡ true }
    requires front { rises (joined_in id (take ordered (map arc_value blocks.now))) ≡ true }
    ensures { result ≡ last_of (window_of (series_in id (map arc_value blocks.now)) after upto) }
{
    let ordered = ordered.min(blocks.len());
    let first = last_joined(&blocks[..ordered], id, after, upto);
    let behind = last_of_all(&blocks[ordered..], id, after, upto);
    later(first, behind)
}
