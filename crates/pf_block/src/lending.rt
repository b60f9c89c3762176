//! Samples that lie together, lent as they are.

ghost use Rattle.std.specs.Prelude.{◌≡◌, true, IfSome, map};
ghost use Rattle.std.specs.Arc.{arc_value};
ghost use Rattle.pf_block.specs.Stacks.{series_in};
ghost use Rattle.pf_block.specs.Samples.{rises, window_of};

use crate::layer::Layer;
use pf_base::Sample;
use std::sync::Arc;

/// The samples of a series after `after`, up to and with `upto`, as they lie in one block. `None` where several blocks have
/// some.
pub fn lent(blocks: &[Arc<Layer>], id: u32, after: i64, upto: i64) -> Option<&[Sample]>
    requires { rises (series_in id (map arc_value blocks.now)) ≡ true }
    ensures { IfSome result (λ xs. xs.now ≡ window_of (series_in id (map arc_value blocks.now)) after upto) }
{
    let mut found: &[Sample] = &[];
    for block in blocks {
        let here = block.window(id, after, upto);
        if here.is_empty() {
            continue;
        }
        if !found.is_empty() {
            return None;
        }
        found = here;
    }
    Some(found)
}
