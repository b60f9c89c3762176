//! The shard of a label set.

ghost use Rattle.std.specs.Prelude.{◌≡◌, ◌∷◌, ◌≤◌, ◌%◌, []};
ghost use Rattle.pf_base.specs.LabelChanges.{metric_name, others};
ghost use Rattle.pf_base.specs.ShardHash.{hash_step, hash_onto, label_bytes, labels_hash, labels_onto, shard_of};

use crate::labels::{Labels, METRIC_NAME};

/// The offset basis of FNV with 64 bits: the hash of no pairs.
pub const OFFSET_BASIS: u64 = 14_695_981_039_346_656_037;

/// Its prime.
const PRIME: u64 = 1_099_511_628_211;

/// What follows each name and each value: no byte of a text.
const END: u8 = 255;

fn hash_byte(hash: u64, byte: u8) -> u64
    ensures { result ≡ hash_step hash byte }
{
    (hash ^ byte as u64).wrapping_mul(PRIME)
}

fn hash_bytes(mut hash: u64, bytes: &[u8]) -> u64
    ensures { result ≡ hash_onto hash bytes.now }
{
    for byte in bytes {
        hash = hash_byte(hash, *byte);
    }
    hash
}

/// The hash after one more pair.
#[tactic(auto, using(crate::proofs::ShardSteps::label_steps))]
fn hash_label(hash: u64, name: &str, value: &str) -> u64
    ensures { result ≡ hash_onto hash (label_bytes (name.now, value.now)) }
{
    let named = hash_bytes(hash, name.as_bytes());
    let parted = hash_byte(named, END);
    let valued = hash_bytes(parted, value.as_bytes());
    hash_byte(valued, END)
}

/// The hash after one more pair. The metric name's leaves it.
pub fn hash_with(hash: u64, name: &str, value: &str) -> u64
    ensures { result ≡ labels_onto hash (others metric_name ((name.now, value.now) ∷ [])) }
{
    if name == METRIC_NAME {
        hash
    } else {
        hash_label(hash, name, value)
    }
}

/// The shard among n of a label set with this hash.
pub fn shard_of_hash(hash: u64, n: u32) -> u32
    requires { 1 ≤ n }
    ensures { result ≡ hash % n }
{
    (hash % n as u64) as u32
}

impl Labels {
    /// The hash that gives this label set's shard: FNV-1a with 64 bits of all pairs but the metric name's.
    pub fn shard_hash(&self) -> u64
        ensures { result ≡ labels_hash (others metric_name self.now) }
    {
        self.pairs.hash()
    }

    /// The shard of this label set among n. The metric name takes no part, so that label sets which differ in it alone
    /// have one shard.
    pub fn shard(&self, n: u32) -> u32
        requires { 1 ≤ n }
        ensures { result ≡ shard_of self.now n }
    {
        shard_of_hash(self.shard_hash(), n)
    }
}
