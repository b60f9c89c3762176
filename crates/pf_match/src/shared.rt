//! That threads may share a pattern.

use crate::pattern::Pattern;

/// Takes what may be sent to another thread, and lent to several at once.
fn is_shared<T: Send + Sync>(_item: &T) {}

/// Proved only where a pattern is of that kind.
fn patterns_are_shared(pattern: &Pattern) {
    is_shared(pattern);
}
