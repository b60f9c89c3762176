//! Pairs that lie one after another in one text.

ghost use Rattle.std.specs.Prelude.{◌≡◌, ◌<◌, ◌^◌, ◌++◌, ◌∷◌, [], length, IfOk};
ghost use Rattle.std.specs.List.{fold};
ghost use Rattle.std.specs.Hash as fed;
ghost use Rattle.pf_base.specs.LabelSets.{name_at, value_at};
ghost use Rattle.pf_base.specs.LabelChanges.{metric_name, others};
ghost use Rattle.pf_base.specs.LabelOrder.{pair_cmp, pair_eq, labels_cmp, labels_eq};
ghost use Rattle.pf_base.specs.ShardHash.{labels_hash};

use crate::labels::shard::{OFFSET_BASIS, hash_with};
use crate::memory::OutOfMemory;
use std::alloc::Global;
use std::cmp::Ordering;
use std::hash::{Hash, Hasher};
use std::marker::Model;

/// Pairs of a name and a value: the names and values in one text, the places where the first begins and where each
/// ends, and the FNV-1a hash of all pairs but the metric name's.
#[derive(Drop)]
pub struct PackedPairs {
    hash: u64,
    text: String,
    bounds: Vec<u32>,
}

impl Model for PackedPairs {
    ghost use Rattle.std.specs.Prelude.{List, ℕ};
    ghost use Rattle.std.specs.String.{string_bytes};
    ghost use Rattle.pf_base.specs.LabelPacking.{IsPacked, pairs_in};

    ghost Value = { List (List ℕ × List ℕ) };

    ghost view = { λ p. pairs_in (string_bytes p.text) p.bounds.items };

    ghost invariant = { λ p. IsPacked (pairs_in (string_bytes p.text) p.bounds.items) (string_bytes p.text) p.bounds.items p.hash };
}

impl PackedPairs {
    /// No pairs, with room for so many, and for so many bytes of their names and values.
    pub fn with_capacity(
        alloc: Global,
        pairs: usize,
        bytes: usize,
    ) -> Result<PackedPairs, OutOfMemory>
        ensures { IfOk result (λ p. p ≡ []) }
    {
        let text = String::with_capacity(alloc, bytes)?;
        let mut bounds = Vec::with_capacity(alloc, pairs.saturating_mul(2).saturating_add(1))?;
        bounds.push(0)?;
        Ok(PackedPairs {
            hash: OFFSET_BASIS,
            text,
            bounds,
        })
    }

    /// These pairs and one more. Pairs whose size would pass 32 bits are past any memory.
    #[inline(always)]
    pub fn with_pair(self, name: &str, value: &str) -> Result<PackedPairs, OutOfMemory>
        ensures pairs { IfOk result (λ p. p ≡ self ++ (name.now, value.now) ∷ []) }
        ensures few { IfOk result (λ p. length p < 2 ^ 32) }
    {
        let PackedPairs {
            hash,
            mut text,
            mut bounds,
        } = self;
        text.push_str(name)?;
        let middle = text.len();
        text.push_str(value)?;
        let end = text.len();
        if end > u32::MAX as usize || bounds.len() > u32::MAX as usize {
            return Err(OutOfMemory);
        }
        bounds.push(middle as u32)?;
        bounds.push(end as u32)?;
        Ok(PackedPairs {
            hash: hash_with(hash, name, value),
            text,
            bounds,
        })
    }

    /// The hash of all pairs but the metric name's.
    pub fn hash(&self) -> u64
        ensures { result ≡ labels_hash (others metric_name self.now) }
    {
        self.hash
    }

    pub fn allocator(&self) -> Global {
        *self.bounds.allocator()
    }

    pub fn count(&self) -> usize
        ensures value { result ≡ length self.now }
        ensures few { length self.now < 2 ^ 32 }
    {
        self.bounds.len() / 2
    }

    pub fn name(&self, i: usize) -> &str
        requires { i < length self.now }
        ensures { result.now ≡ name_at self.now i }
    {
        let start = self.bounds[2 * i] as usize;
        let end = self.bounds[2 * i + 1] as usize;
        &self.text.as_str()[start..end]
    }

    pub fn value(&self, i: usize) -> &str
        requires { i < length self.now }
        ensures { result.now ≡ value_at self.now i }
    {
        let start = self.bounds[2 * i + 1] as usize;
        let end = self.bounds[2 * i + 2] as usize;
        &self.text.as_str()[start..end]
    }

    /// Whether the other pairs are these.
    pub fn equals(&self, other: &PackedPairs) -> bool
        ensures { result ≡ labels_eq self.now other.now }
    {
        self.hash == other.hash && self.bounds == other.bounds && self.text == other.text
    }

    /// Whether the pair at a place is the one at a place of others.
    pub fn equals_at(&self, i: usize, other: &PackedPairs, k: usize) -> bool
        requires own { i < length self.now }
        requires other { k < length other.now }
        ensures { result ≡ pair_eq (name_at self.now i, value_at self.now i) (name_at other.now k, value_at other.now k) }
    {
        self.name(i) == other.name(k) && self.value(i) == other.value(k)
    }

    /// The order of the pairs at one place of both.
    fn order_at(&self, other: &PackedPairs, i: usize) -> Ordering
        requires own { i < length self.now }
        requires other { i < length other.now }
        ensures { result ≡ pair_cmp (name_at self.now i, value_at self.now i) (name_at other.now i, value_at other.now i) }
    {
        match self.name(i).cmp(other.name(i)) {
            Ordering::Equal => self.value(i).cmp(other.value(i)),
            order => order,
        }
    }

    /// The order of the pairs, one after another.
    pub fn order(&self, other: &PackedPairs) -> Ordering
        ensures { result ≡ labels_cmp self.now other.now }
    {
        for i in 0..self.count().min(other.count()) {
            match self.order_at(other, i) {
                Ordering::Equal => {}
                order => return order,
            }
        }
        self.count().cmp(&other.count())
    }

    /// Feeds a hasher with the number of pairs, and with each name and value.
    pub fn feed<H: Hasher>(&self, state: &mut H)
        ensures { state.new ≡ fold H.write state.old (fed.slice (λ p. fed.str p.0 ++ fed.str p.1) self.now) }
    {
        state.write_usize(self.count());
        for i in 0..self.count() {
            self.name(i).hash(state);
            self.value(i).hash(state);
        }
    }
}
