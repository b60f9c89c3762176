//! Generated sessions: pages of four tenants, and a script that takes them in and asks a hundred queries, all by one seed.
//!
//! What the layer above uses: `session` gives the texts, which the definition gives for the seed, the same on every machine. For
//! the seed 7 the first page begins with the line `m{i="0"} 278 0`.
#![tactic(auto)]

mod draws;
mod generated;
mod pages;
mod script;
mod texts;

pub use generated::{Generated, session};
