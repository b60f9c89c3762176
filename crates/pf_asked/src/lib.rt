//! What is asked: `Asked`, a query over a grid that is lawful by its type, and that threads may share.
#![tactic(auto)]

mod asked;
mod shared;

pub use asked::Asked;
