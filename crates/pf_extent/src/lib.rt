//! Extents of a results cache: the cells of consecutive steps of a query, kept with what they are of.
//!
//! What the layers above use: an `Extent` has the cells of the steps from a first to a last one, with the pin and the
//! generation of the samples that they were evaluated over. `usable` says whether an asker may use one at a step. A `List`
//! keeps at most 64 of them in order, apart from one another; `combine` adds one, which wins where others have its steps.
//! A `Key` is what a list is kept under. `DoneCells` are cells that were evaluated, with their run.
//!
//! No call copies a cell but where a part of under half of an extent is kept.
#![tactic(auto)]

mod done;
mod extent;
mod key;
mod list;
mod shared;

pub use done::DoneCells;
pub use extent::{Asker, Extent, is_below, usable};
pub use key::Key;
pub use list::{List, combine};
