//! A map of bounded size in the order of recent use.
//!
//! What the layer above uses: contracts see a `Bounded` as its pairs, the one used last first, all under different keys and at
//! most as many as its capacity. `list` finds what is kept under a key, and puts it first; `peek` only finds it, and `touch` only
//! puts it first; `set` puts a pair first, and drops the last one where a new key comes to a full map. With an allocator, and `day`
//! and `extents` of any types:
//!
//! ```text
//! let mut kept = Bounded::open(alloc, 1000)?;
//! kept.set(day, extents)?;
//! match kept.list(&day) {
//!     Some(extents) => serve(extents),
//!     None => evaluate(day),
//! }
//! ```
#![tactic(auto)]

mod bounded;

pub use bounded::Bounded;
