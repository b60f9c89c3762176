//! The definitions of what several clients are told: the lines of scripts, the one journal, how the journal is woven from the
//! scripts, and the printed report.
#![tactic(auto)]

mod laws;

pub use laws::{frozen_steps, kept_cells, kept_steps, shared_weave};
