//! That threads may share the core.

use crate::session::Core;

/// Takes what may be sent to another thread, and lent to several at once.
fn is_shared<T: Send + Sync>(_item: &T) {}

/// Proved only where the core is of that kind.
fn core_is_shared(core: &Core) {
    is_shared(core);
}
