//! The map.

ghost use Rattle.std.specs.Prelude.{◌≡◌, ◌≤◌, ◌<◌, [], length, IfOk, OnOk, OnErr, option_copied};
ghost use Rattle.std.specs.Borrow.{sem};
ghost use Rattle.std.specs.Map.{lookup};
ghost use Rattle.lru.specs.LruCache.{IsValid, lru_cache, promoted, put_entries};

use lru::{Iter, LruCache};
use pf_base::OutOfMemory;
use std::alloc::Global;
use std::hash::Hash;
use std::marker::Model;
use std::num::NonZeroUsize;

/// Pairs of a key and what is kept under it, in the order of recent use.
#[derive(Drop)]
pub struct Bounded<K: Eq + Hash + Drop, L: Drop> {
    cache: LruCache<K, L>,
}

impl<K: Eq + Hash + Drop, L: Drop> Model for Bounded<K, L> {
    ghost use Rattle.lru.specs.LruCache.{LruCache, lru_cache_code};

    ghost Value = { LruCache K L };

    ghost coded = { lru_cache_code K.code L.code };

    ghost view = { λ c. c.cache };
}

impl<K: Eq + Hash + Drop, L: Drop> Bounded<K, L> {
    ghost use Rattle.pf_cache.specs.Ends.{ends_as};

    /// A map with no pair.
    pub fn open(alloc: Global, capacity: u32) -> Result<Bounded<K, L>, OutOfMemory>
        requires { 1 ≤ capacity }
        ensures { IfOk result (λ c. c ≡ lru_cache [] capacity) }
    {
        let Some(most) = NonZeroUsize::new(capacity as usize) else {
            unreachable!()
        };
        Ok(Bounded {
            cache: LruCache::sparse(alloc, most)?,
        })
    }

    /// How many pairs there are.
    pub fn len(&self) -> usize
        ensures len { result ≡ length self.now.entries }
        ensures valid { IsValid K.eq self.now }
    {
        self.cache.len()
    }

    /// The pairs, the one used last first. No use of them counts.
    pub fn pairs(&self) -> Iter<'_, K, L>
        ensures { result ≡ self.now.entries }
    {
        self.cache.iter()
    }

    /// What is kept under a key, which is then the one used last. No memory is taken.
    pub fn list(&mut self, key: &K) -> Option<&L>
        ensures* promotes { sem 𝓛 (ends_as K.row L.row K.Hash self.entry (lru_cache (promoted (K.eq key.now) self.old.entries) self.old.cap)) }
        ensures value { option_copied result ≡ lookup (K.eq key.now) self.old.entries }
    {
        self.cache.get(key)
    }

    /// What is kept under a key. This is no use of it.
    pub fn peek(&self, key: &K) -> Option<&L>
        ensures { option_copied result ≡ lookup (K.eq key.now) self.now.entries }
    {
        self.cache.peek(key)
    }

    /// Puts a key's pair first, as the one used last, if there is one. No memory is taken.
    pub fn touch(&mut self, key: &K)
        ensures { self.new ≡ lru_cache (promoted (K.eq key.now) self.old.entries) self.old.cap }
    {
        self.cache.promote(key);
    }

    /// Keeps a value under a key, in place of the one that is there, as the pair used last. Where the key is new and the map
    /// full, the pair that wasn't used for longest goes. A refused call leaves the pairs as they were.
    pub fn set(&mut self, key: K, list: L) -> Result<(), OutOfMemory>
        ensures ok { OnOk result (self.new ≡ lru_cache (put_entries K.eq self.old key list) self.old.cap) }
        ensures err { OnErr result (self.new ≡ self.old) }
    {
        self.cache.put(key, list)?;
        Ok(())
    }
}
