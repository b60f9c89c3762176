//! That threads may share extents, their lists and their keys.

use crate::extent::Extent;
use crate::key::Key;
use crate::list::List;

/// Takes what may be sent to another thread, and lent to several at once.
fn is_shared<T: Send + Sync>(_item: &T) {}

/// Proved only where these are of that kind.
fn extents_are_shared(extent: &Extent, list: &List, key: &Key) {
    is_shared(extent);
    is_shared(list);
    is_shared(key);
}
