//! What a list of extents is kept under.

ghost use Rattle.std.specs.Prelude.{◌≡◌, IfOk};

use pf_base::Text;
use std::alloc::AllocError;

/// What a list of extents is kept under: the tenant, the canonical text of the query, the distance of its steps in
/// milliseconds, and the number of the interval that the steps are in. Keys are equal where all four are.
#[derive(Drop, PartialEq, Eq, Hash)]
pub struct Key {
    pub tenant: u32,
    pub text: Text,
    pub step: u64,
    pub interval: u64,
}

impl Clone for Key {
    ghost is_clone = { λ x y. y ≡ x };

    fn clone(&self) -> Result<Key, AllocError>
        ensures { IfOk result (λ k. k ≡ self.now) }
    {
        Ok(Key {
            tenant: self.tenant,
            text: self.text.clone()?,
            step: self.step,
            interval: self.interval,
        })
    }
}
