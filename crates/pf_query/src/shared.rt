//! That threads may share jobs.

use crate::job::{Held, Job};
use crate::queues::Queues;
use crate::table::Table;

/// Takes what may be sent to another thread, and lent to several at once.
fn is_shared<T: Send + Sync>(_item: &T) {}

/// Proved only where jobs are of that kind.
fn jobs_are_shared(job: &Job, held: &Held) {
    is_shared(job);
    is_shared(held);
}

/// Proved only where the queues of jobs are of that kind.
fn queues_are_shared(queues: &Queues) {
    is_shared(queues);
}

/// Proved only where the table is of that kind.
fn table_is_shared(table: &Table) {
    is_shared(table);
}
