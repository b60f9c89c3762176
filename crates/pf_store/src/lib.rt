//! A tenant's log: appends with a verdict on each row, deletions, and pins.
//!
//! What the layers above use: contracts say of a `TenantLog` for which lists of changes it stands. Each call gives what the
//! definitions of logs give over such a list, and stands for the changed list afterwards; a refused call changes
//! nothing. A pin's snapshot stands for the samples of its list, whatever the log does later.
//!
//! The code keeps no list: it keeps the snapshot of the samples, the greatest time ever taken, and two counts.
#![tactic(auto)]

mod given;
mod judged;
mod taken;
mod tenant_log;
mod verdict;

pub use tenant_log::{Deleted, Pin, TenantLog};
pub use verdict::{Verdict, Verdicts};
