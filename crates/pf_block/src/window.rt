//! Samples walked in order of time.

ghost use Rattle.std.specs.Prelude.{◌≡◌, ◌++◌, true, IfSome, map, take, []};
ghost use Rattle.std.specs.Arc.{arc_value};
ghost use Rattle.std.specs.Iterator.{YieldsFirst, item_count};
ghost use Rattle.pf_block.specs.Stacks.{joined_in, read_in, series_in};
ghost use Rattle.pf_block.specs.Samples.{rises, window_of};

use crate::layer::Layer;
use crate::reads::{is_joined, next_stretch};
use pf_base::Sample;
use std::iter::Iterator;
use std::marker::Model;
use std::sync::Arc;

/// An iterator over samples by rising time. Contracts see the samples that are left: some first ones, and those of blocks.
/// `joined` is set where they rise from block to block.
#[derive(Drop)]
pub struct Window<'a> {
    rest: &'a [Sample],
    more: &'a [Arc<Layer>],
    id: u32,
    joined: bool,
    after: i64,
    upto: i64,
}

impl<'a> Model for Window<'a> {
    ghost use Rattle.std.specs.Prelude.{◌≡◌, ◌++◌, true, List, map};
    ghost use Rattle.std.specs.Arc.{arc_value};
    ghost use Rattle.pf_base.specs.declared.plain.Sample.{Sample};
    ghost use Rattle.pf_block.specs.Stacks.{read_in};
    ghost use Rattle.pf_block.specs.Samples.{rises, window_of};

    ghost Value = { List Sample };

    ghost view = { λ w. w.rest.now ++ window_of (read_in w.joined w.id (map arc_value w.more.now)) w.after w.upto };

    ghost invariant = { λ w. (rises (w.rest.now ++ window_of (read_in w.joined w.id (map arc_value w.more.now)) w.after w.upto) ≡ true) × (rises (read_in w.joined w.id (map arc_value w.more.now)) ≡ true) };
}

/// The samples that come first, and the blocks behind them, where they rise from block to block. There are none only where
/// nothing is left.
fn first_joined<'a>(
    more: &'a [Arc<Layer>],
    id: u32,
    after: i64,
    upto: i64,
) -> (&'a [Sample], &'a [Arc<Layer>])
    requires { rises (joined_in id (map arc_value more.now)) ≡ true }
    ensures left { result.0.now ++ window_of (joined_in id (map arc_value result.1.now)) after upto ≡ window_of (joined_in id (map arc_value more.now)) after upto }
    ensures none { result.0.now ≡ [] → result.1.now ≡ [] }
    ensures rises { rises (joined_in id (map arc_value result.1.now)) ≡ true }
{
    let mut rest: &[Sample] = &[];
    let mut more = more;
    while rest.is_empty() {
        let Some((block, behind)) = more.split_first() else {
            break;
        };
        rest = block.window(id, after, upto);
        more = behind;
    }
    (rest, more)
}

/// The samples that come first, the blocks that have more, and the time after which these are. There are none only where
/// nothing is left.
#[inline(never)]
fn first_of<'a>(
    more: &'a [Arc<Layer>],
    id: u32,
    joined: bool,
    after: i64,
    upto: i64,
) -> (&'a [Sample], &'a [Arc<Layer>], i64)
    requires { rises (read_in joined id (map arc_value more.now)) ≡ true }
    ensures left { result.0.now ++ window_of (read_in joined id (map arc_value result.1.now)) result.2 upto ≡ window_of (read_in joined id (map arc_value more.now)) after upto }
    ensures none { result.0.now ≡ [] → result.1.now ≡ [] }
    ensures rises { rises (read_in joined id (map arc_value result.1.now)) ≡ true }
{
    if joined {
        let (rest, more) = first_joined(more, id, after, upto);
        return (rest, more, after);
    }
    let rest = next_stretch(more, id, after, upto);
    match rest.last() {
        Some(last) => (rest, more, last.time),
        None => (rest, &[], after),
    }
}

impl<'a> Window<'a> {
    /// Walks this list.
    pub fn of(samples: &'a [Sample]) -> Window<'a>
        requires { rises samples.now ≡ true }
        ensures { result ≡ samples.now }
    {
        Window {
            rest: samples,
            more: &[],
            id: 0,
            joined: true,
            after: 0,
            upto: 0,
        }
    }

    /// The samples that are left, where they lie together. `None` where blocks are behind them.
    pub fn lent(&self) -> Option<&'a [Sample]>
        ensures { IfSome result (λ xs. xs.now ≡ self.now) }
    {
        if self.more.is_empty() {
            Some(self.rest)
        } else {
            None
        }
    }

    /// Walks the samples of a series after `after`, up to and with `upto`. The blocks lie in order up to `ordered`.
    pub(crate) fn over(
        blocks: &'a [Arc<Layer>],
        ordered: usize,
        id: u32,
        after: i64,
        upto: i64,
    ) -> Window<'a>
        requires rises { rises (series_in id (map arc_value blocks.now)) ≡ true }
        requires front { rises (joined_in id (take ordered (map arc_value blocks.now))) ≡ true }
        ensures { result ≡ window_of (series_in id (map arc_value blocks.now)) after upto }
    {
        Window {
            rest: &[],
            more: blocks,
            id,
            joined: is_joined(blocks, ordered, id),
            after,
            upto,
        }
    }
}

impl<'a> Iterator for Window<'a> {
    type Item = Sample;

    ghost next_gives = { YieldsFirst (λ w. w) };

    ghost remaining = { item_count (λ w. w) };

    #[inline(always)]
    fn next(&mut self) -> Option<Sample> {
        if self.rest.is_empty() {
            let (rest, more, after) = first_of(
                self.more,
                self.id,
                self.joined,
                self.after,
                self.upto,
            );
            self.after = after;
            self.more = more;
            self.rest = rest;
        }
        let (first, rest) = self.rest.split_first()?;
        self.rest = rest;
        Some(*first)
    }
}
