//! The series that have a pair of a name and a value, by rising id.

ghost use Rattle.std.specs.Prelude.{◌≡◌, ◌+◌, ◌++◌, ◌<◌, ◌^◌, [], OnOk, length, map};
ghost use Rattle.std.specs.Arc.{arc_value};
ghost use Rattle.std.specs.Iterator.{YieldsFirst, item_count};
ghost use Rattle.std.specs.List.{All};
ghost use Rattle.pf_block.specs.IndexStacks.{ArePostings, joined};
ghost use Rattle.pf_block.specs.SeriesIds.{ids_from, ids_with};

use crate::ranked::Ranked;
use pf_base::OutOfMemory;
use std::iter::Iterator;
use std::marker::Model;
use std::sync::Arc;

/// An iterator over ids by rising id. Contracts see the ids that are left.
#[derive(Drop)]
pub struct Postings<'a> {
    rest: &'a [u32],
    first: u32,
    more: &'a [Arc<Ranked>],
    behind: u32,
    name: &'a str,
    value: &'a str,
}

impl<'a> Model for Postings<'a> {
    ghost use Rattle.std.specs.Prelude.{◌+◌, ◌++◌, List, map, ℕ};
    ghost use Rattle.std.specs.Arc.{arc_value};
    ghost use Rattle.pf_block.specs.IndexStacks.{ArePostings, joined};
    ghost use Rattle.pf_block.specs.SeriesIds.{ids_from};

    ghost Value = { List ℕ };

    ghost view = { λ p. map (λ id. p.first + id) p.rest.now ++ ids_from p.behind p.name.now p.value.now (joined (map arc_value p.more.now)) };

    ghost invariant = { λ p. ArePostings p.rest.now p.first p.behind (map arc_value p.more.now) };
}

/// The ids of the next index that has some, where they begin, the indexes behind it, and where these begin. There are none
/// only where no index is left.
#[inline(never)]
fn first_of<'a>(
    more: &'a [Arc<Ranked>],
    behind: u32,
    name: &str,
    value: &str,
) -> (&'a [u32], u32, &'a [Arc<Ranked>], u32)
    requires { behind + length (joined (map arc_value more.now)) < 2 ^ 32 }
    ensures left { map (λ id. result.1 + id) result.0.now ++ ids_from result.3 name.now value.now (joined (map arc_value result.2.now)) ≡ ids_from behind name.now value.now (joined (map arc_value more.now)) }
    ensures none { result.0.now ≡ [] → result.2.now ≡ [] }
    ensures are { ArePostings result.0.now result.1 result.3 (map arc_value result.2.now) }
{
    let mut rest: &[u32] = &[];
    let mut first = behind;
    let mut more = more;
    let mut behind = behind;
    while rest.is_empty() {
        let Some((layer, others)) = more.split_first() else {
            break;
        };
        rest = layer.index().postings(name, value);
        first = behind;
        behind += layer.index().count();
        more = others;
    }
    (rest, first, more, behind)
}

/// Adds some ids of an index, whose series begin at `first`.
fn add(ids: &mut Vec<u32>, locals: &[u32], first: u32) -> Result<(), OutOfMemory>
    requires { All (λ id. first + id < 2 ^ 32) locals.now }
    ensures { OnOk result (ids.new.items ≡ ids.old.items ++ map (λ id. first + id) locals.now) }
{
    if first == 0 {
        ids.extend_from_slice(locals)?;
        return Ok(());
    }
    for id in locals {
        ids.push(first + *id)?;
    }
    Ok(())
}

impl<'a> Postings<'a> {
    /// The ids of the series in some indexes that have a pair.
    pub(crate) fn over(layers: &'a [Arc<Ranked>], name: &'a str, value: &'a str) -> Postings<'a>
        requires { length (joined (map arc_value layers.now)) < 2 ^ 32 }
        ensures { result ≡ ids_with name.now value.now (joined (map arc_value layers.now)) }
    {
        Postings {
            rest: &[],
            first: 0,
            more: layers,
            behind: 0,
            name,
            value,
        }
    }

    /// How many ids are left.
    pub fn len(&self) -> usize
        ensures { result ≡ length self.now }
    {
        let mut count = self.rest.len();
        for layer in self.more {
            count += layer.index().postings(self.name, self.value).len();
        }
        count
    }

    /// Adds the ids that are left to a list, an index's ids at a time. Where memory is wanting, some of them may have been added.
    pub fn add_to(self, ids: &mut Vec<u32>) -> Result<(), OutOfMemory>
        ensures { OnOk result (ids.new.items ≡ ids.old.items ++ self.entry) }
    {
        add(ids, self.rest, self.first)?;
        let mut behind = self.behind;
        for layer in self.more {
            add(ids, layer.index().postings(self.name, self.value), behind)?;
            behind += layer.index().count();
        }
        Ok(())
    }
}

impl<'a> Iterator for Postings<'a> {
    type Item = u32;

    ghost next_gives = { YieldsFirst (λ p. p) };

    ghost remaining = { item_count (λ p. p) };

    #[inline(always)]
    fn next(&mut self) -> Option<u32> {
        if self.rest.is_empty() {
            let (rest, first, more, behind) = first_of(
                self.more,
                self.behind,
                self.name,
                self.value,
            );
            self.rest = rest;
            self.first = first;
            self.more = more;
            self.behind = behind;
        }
        let (id, rest) = self.rest.split_first()?;
        self.rest = rest;
        Some(self.first + *id)
    }
}
