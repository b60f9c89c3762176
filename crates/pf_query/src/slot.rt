//! Slots.

use pf_shard::Part;

/// What is kept of a job's part: nothing yet, the part, or nothing again once it was handed out.
#[derive(Drop)]
pub enum Slot {
    Empty,
    Filled(Part),
    Handed,
}
