//! Why queries stop.

/// Why a query was stopped: by a cancel at this place of the journal, by a job that failed five times, or for want of memory.
#[derive(Clone, Copy)]
pub enum Stop {
    Cancelled { place: u64 },
    Exhausted { job: u32 },
    Starved,
}
