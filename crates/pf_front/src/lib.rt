//! The work on open queries, over a core on one thread.
//!
//! What the layers above use:
//!
//! - `plan` binds an open query over its tenant's samples at the ask, and lets a job wait for each run of its steps that aren't cached
//!   and each of its legs.
//! - `work` does a job in hand: past its actor's hop and the gate its leg is evaluated over its run, and the part is kept. A try fails
//!   only where the count of the hop's faults rose.
//! - `keep` gathers the parts of an open query, if all are there, and keeps what was evaluated of it for the queries behind.
//! - `answer` does all that is left of an open query, keeps what was evaluated of it, and answers it. What comes out with code 200 or
//!   422 is the direct evaluation of the query over its tenant's samples at the ask, however many of its steps were cached; with 503
//!   exactly that it was cancelled, with 500 that the job it names failed five times, and with 507 that memory ran out, as the core's
//!   stop of the query says. Before the answer no entry is added, and the same jobs are in the hands of others.
//!
//! An answer of a query of tenant A of one leg over two runs, while a job of tenant B waits in front:
//!
//! ```text
//! ring      jobs that wait     done
//! B         B0                 A is planned
//! B A       B0, A0, A1         B0
//! A         A0, A1             A0
//! A         A1                 A1
//!                              both parts are gathered, and A is answered
//! ```
//!
//! The cells of a range are joined interval by interval, those that were cached and those that were evaluated. Of an interval in
//! which a step was evaluated all cells are kept, so that its steps lie in one piece again; one that was cached whole is left as it
//! is:
//!
//! ```text
//! intervals    |    first    |   second    |   third    |
//! steps        | c c c c c c | c c c e e e | e e e e    |      c: cached, e: evaluated
//! kept                       | k k k k k k | k k k k    |
//! ```
#![tactic(auto)]

mod answering;
mod joining;
mod keeping;
mod outcome;
mod parts;
mod planning;
mod whole;
mod working;

pub use answering::{Answering, Reply, answer};
pub use keeping::{Keeping, keep};
pub use outcome::Outcome;
pub use planning::plan;
pub use working::{Worked, work};
