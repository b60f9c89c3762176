//! That threads may share legs.

use crate::legs::{Legs, Resolved};
use crate::parts::Part;

/// Takes what may be sent to another thread, and lent to several at once.
fn is_shared<T: Send + Sync>(_item: &T) {}

/// Proved only where queries over a snapshot are of that kind.
fn queries_are_shared(resolved: &Resolved) {
    is_shared(resolved);
}

/// Proved only where legs are of that kind.
fn legs_are_shared(legs: &Legs) {
    is_shared(legs);
}

/// Proved only where parts are of that kind.
fn parts_are_shared(part: &Part) {
    is_shared(part);
}
