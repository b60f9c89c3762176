//! The series of a snapshot that matchers accept.
#![tactic(auto)]

mod listing;
mod selection;
mod sieving;

pub use selection::{select, select_all};
