//! That threads may share matchers.

use crate::matchers::Matchers;

/// Takes what may be sent to another thread, and lent to several at once.
fn is_shared<T: Send + Sync>(_item: &T) {}

/// Proved only where matchers are of that kind.
fn matchers_are_shared(matchers: &Matchers) {
    is_shared(matchers);
}
