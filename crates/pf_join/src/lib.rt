//! Binary operators of two vectors.
//!
//! What the layers above use: `join` is the value of a binary operator at two vectors, as one cell. For what is matched once
//! for many steps: `matching_key` and `pair_labels` of one label set or a pair, `KeyPlaces`, which finds the places of a key by
//! halves, and `has_equal`.
#![tactic(auto)]

mod cells;
mod keys;
mod matching;
mod places;

pub use cells::has_equal;
pub use matching::{join, matching_key, pair_labels};
pub use places::{KeyPlace, KeyPlaces};
