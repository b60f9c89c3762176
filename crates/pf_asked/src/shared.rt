//! That threads may share what is asked.

use crate::asked::Asked;

/// Takes what may be sent to another thread, and lent to several at once.
fn is_shared<T: Send + Sync>(_item: &T) {}

/// Proved only where what is asked is of that kind.
fn asked_is_shared(asked: &Asked) {
    is_shared(asked);
}
