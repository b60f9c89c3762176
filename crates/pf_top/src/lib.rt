//! The one call that does all that the program does.
//!
//! What `prom_front` uses: `run` takes the words, files, output, hops, gate and doors that are handed in, and answers the
//! status. Its contract is the program's whole promise, `Correct` of `specs/Correct.antt`: for example, with
//! status 0 the bytes written are the report of a legal journal that is woven from the scripts which the words name. `run_within`
//! does the same with any limits where the words choose none.
#![tactic(auto)]

mod driver;
mod evaluate;
mod evaluation;
mod options;
mod pages;
mod session;
mod words;

pub use driver::{DEFAULT_LIMITS, run, run_within};
