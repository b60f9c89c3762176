//! Label sets.

ghost use Rattle.std.specs.Prelude.{◌≡◌, ◌<◌, length, IfOk, Some, ◌++◌};
ghost use Rattle.std.specs.Cmp.{partial_equiv_from_equiv, partial_order_from_agreeing_total};
ghost use Rattle.std.specs.Cmp.Rules.{hashing};
ghost use Rattle.std.specs.Hash as fed;
ghost use Rattle.std.proofs.Common.{rules, refl};
ghost use Rattle.pf_base.specs.LabelSets.{IsLabels, value_of, name_at, value_at};
ghost use Rattle.pf_base.specs.LabelOrder.{labels_cmp, labels_eq, labels_total, labels_equiv, labels_ties, labels_decides};

mod build;
mod changes;
mod packed;
mod shard;

use crate::labels::packed::PackedPairs;
use crate::memory::OutOfMemory;
use crate::text::Text;
pub use build::is_label_name;
pub use shard::shard_of_hash;
use std::alloc::AllocError;
use std::cmp::Ordering;
use std::hash::{Hash, Hasher};
use std::marker::Model;
use std::sync::Arc;

/// The label that holds the metric name.
pub const METRIC_NAME: &str = "__name__";

/// Why pairs make no label set.
#[derive(Drop)]
pub enum LabelsError {
    /// A name that is not `[a-zA-Z_][a-zA-Z0-9_]*`: the first of the given pairs.
    BadName { name: Text },
    /// A name that stands twice: the least such.
    Repeated { name: Text },
    /// More than 64 pairs.
    TooMany,
    OutOfMemory,
}

/// A label set: pairs of a name and a value in the order of their names, with distinct names and no empty value. The
/// pairs are shared, so that a copy costs a reference count.
#[derive(Drop)]
pub struct Labels {
    pairs: Arc<PackedPairs>,
}

impl Model for Labels {
    ghost use Rattle.std.specs.Prelude.{List, ℕ};
    ghost use Rattle.std.specs.Arc.{arc_value};
    ghost use Rattle.pf_base.specs.LabelSets.{IsLabels};

    ghost Value = { List (List ℕ × List ℕ) };

    ghost view = { λ l. arc_value l.pairs };

    ghost invariant = { λ l. IsLabels (arc_value l.pairs) };
}

impl Clone for Labels {
    ghost is_clone = { λ x y. y ≡ x };

    fn clone(&self) -> Result<Labels, AllocError>
        ensures { IfOk result (λ l. l ≡ self.now) }
    {
        Ok(Labels {
            pairs: Arc::try_clone(&self.pairs)?,
        })
    }
}

impl PartialEq for Labels {
    ghost eq = { labels_eq };

    ghost laws = { partial_equiv_from_equiv labels_equiv };

    fn eq(&self, other: &Labels) -> bool {
        self.pairs.equals(&other.pairs)
    }
}

impl Eq for Labels {
    ghost laws = { labels_equiv };
}

impl PartialOrd for Labels {
    ghost partial_cmp = { λ x y. Some (labels_cmp x y) };

    ghost laws = { partial_order_from_agreeing_total labels_cmp labels_total (λ x y. refl) labels_ties };

    fn partial_cmp(&self, other: &Labels) -> Option<Ordering> {
        Some(self.cmp(other))
    }
}

impl Ord for Labels {
    ghost cmp = { labels_cmp };

    ghost total = { labels_total };

    ghost matches_partial_cmp = { λ x y. refl };

    ghost matches_eq = { labels_ties };

    fn cmp(&self, other: &Labels) -> Ordering {
        self.pairs.order(&other.pairs)
    }
}

impl Hash for Labels {
    ghost hash_input = { fed.slice (λ p. fed.str p.0 ++ fed.str p.1) };

    ghost respects_eq = { Prim.search (hashing, rules, labels_decides) };

    fn hash<H: Hasher>(&self, state: &mut H) {
        self.pairs.feed(state);
    }
}

impl Labels {
    /// The number of pairs. What each label set is like stands here too.
    pub fn count(&self) -> u32
        ensures value { result ≡ length self.now }
        ensures labels { IsLabels self.now }
    {
        self.pairs.count() as u32
    }

    /// The label set of these pairs.
    fn of(pairs: PackedPairs) -> Result<Labels, OutOfMemory>
        requires { IsLabels pairs }
        ensures { IfOk result (λ l. l ≡ pairs) }
    {
        Ok(Labels {
            pairs: Arc::new(pairs.allocator(), pairs)?,
        })
    }

    /// The value of a name, empty where there is none.
    pub fn get(&self, name: &str) -> &str
        ensures { result.now ≡ value_of self.now name.now }
    {
        for i in 0..self.pairs.count() {
            if self.pairs.name(i) == name {
                return self.pairs.value(i);
            }
        }
        ""
    }

    /// The name of a pair, in label order.
    pub fn name(&self, i: u32) -> &str
        requires { i < length self.now }
        ensures { result.now ≡ name_at self.now i }
    {
        self.pairs.name(i as usize)
    }

    /// The value of a pair, in label order.
    pub fn value(&self, i: u32) -> &str
        requires { i < length self.now }
        ensures { result.now ≡ value_at self.now i }
    {
        self.pairs.value(i as usize)
    }
}
