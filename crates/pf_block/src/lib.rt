//! Snapshots of a tenant's series and samples, unchanging and shared.
//!
//! What the layers above use: contracts see a snapshot as two lists by id, the labels of its series and their samples in
//! order of time. A window of a series is a filter over its samples, `find` and `postings` are look-ups in the list of
//! labels, and `with`, `with_ids` and `without` give the two lists that they leave.
//!
//! The code keeps the samples in blocks that are shared, each sorted by series and time and built of at least twice the
//! samples of the next; beside each block, what deletions left of the series that they touched there; and indexes of series
//! that are shared likewise, each with at least twice the series of the next. An index has a map from label sets to ids, a list
//! of ids for each pair of a name and a value, the ids in label order with the place of each, and by id the hash that gives each
//! one's shard. Windows and look-ups search by halves and take no memory. `lent` gives a window as it lies in the one block that
//! has all of its samples. A block takes in others by size alone, also where its samples come late. A window walks block by
//! block where a series' samples rise so, and else takes the next ones of all blocks.
#![tactic(auto)]

mod block;
mod grown;
mod index;
mod index_layers;
mod index_stack;
mod interleaving;
mod layer;
mod lending;
mod ordering;
mod part;
mod postings;
mod ranked;
mod reads;
mod rows;
mod samples;
mod sizes;
mod snap;
mod stack;
mod window;

pub use postings::Postings;
pub use sizes::BlockSizes;
pub use snap::Snap;
pub use window::Window;
