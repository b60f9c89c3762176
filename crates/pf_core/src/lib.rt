//! The state that clients share: the tenants with their logs, the open queries with their jobs, and the journal.
//!
//! What the layers above use: contracts see a `Core` as its limits, the names of its tenants and its journal, of which the
//! journal machine says the rest, and beside them what is said of each tenant's jobs, the ring of the tenants that are served in
//! turn, and the counts of failed tries. The journal of every core is legal. Each call adds the entry that it says, or leaves the
//! core as it was; the open queries, with what they pinned, are those of the machine. What an open query needs for its cancel and
//! its answer is kept at its ask, so these two calls take no memory.
//!
//! A query that is open goes so: `plan` finds which of its steps are cached, and divides the others and its legs into jobs, `take`
//! hands them to actors in turn, `finish` keeps their parts, or `fail` lets them wait again, and `collect` hands out the cached cells
//! and all parts once they are there. A part is the value of a leg of the query over the samples that its tenant had at the ask, and
//! so is a cached cell the query's. `keep` offers what was evaluated to the cache, and `answer` ends the query.
#![tactic(auto)]

mod answers;
mod entry;
mod error;
mod jobs;
mod keep;
mod plan;
mod query;
mod session;
mod shared;
mod state;
mod tenants;

pub use answers::{Admitted, CancelAnswer, Kept, Opened};
pub use entry::{Entry, What};
pub use error::{AskError, CoreError};
pub use session::Core;
