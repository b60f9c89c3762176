//! The table of the outstanding queries with their jobs.
//!
//! What the layers above use:
//!
//! - `Asked` of `pf_asked`, what is asked.
//! - `Queues`, the jobs of each tenant: those that wait, first in first out, and those in the hands of actors. `take` serves the
//!   tenants with a job that waits in turn; `put_back` lets a job wait again, tried once more.
//! - `Table`, the outstanding queries over such queues, each with the cells of its steps that were cached, and a slot for each of
//!   its jobs. Of a query that isn't stopped a job
//!   waits or is in hand exactly where its slot is empty, and failed less than five times:
//!
//! ```text
//!                plan             take              finish               collect
//!     (no job) --------> waiting --------> in hand --------> its slot --------> handed out
//!                           ^                 |               is filled
//!                           +------ fail -----+
//! ```
//!
//!   Where it fails for the fifth time, its query is stopped. `cancel`, `lack_query`, `lack_job` and that let none of its jobs wait any
//!   more; one in hand goes by `finish`, `fail` or `lack_job`, and `close` takes out all.
#![tactic(auto)]

mod answers;
mod cover;
mod done;
mod entry;
mod gathered;
mod job;
mod plan;
mod queue;
mod queues;
mod shared;
mod slot;
mod state;
mod stop;
mod table;
mod work;

pub use answers::{Collected, FailedTry, Finished, PlanError, Planned, Progress};
pub use cover::cover_more;
pub use gathered::Gathered;
pub use job::{Hand, Held, Job};
pub use pf_asked::Asked;
pub use queues::{MOST_TENANTS, Queues};
pub use stop::Stop;
pub use table::Table;
