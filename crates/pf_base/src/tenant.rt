//! Tenants' names.

ghost use Rattle.std.specs.Prelude.{◌≡◌, ◌↔◌, true, false, IfOk, nat_eq};
ghost use Rattle.std.specs.List.{list_all};
ghost use Rattle.std.specs.Cmp.Lexicographic.{pointwise};
ghost use Rattle.std.specs.Cmp.Rules.{comparing};
ghost use Rattle.std.proofs.Common.{rules};
ghost use Rattle.pf_base.specs.Tenants.{is_tenant, is_tenant_byte};

use crate::memory::OutOfMemory;
use crate::text::Text;
use std::alloc::{AllocError, Global};
use std::marker::Model;

/// Why a text names no tenant.
#[derive(Clone, Copy)]
pub enum TenantError {
    BadTenant,
    OutOfMemory,
}

impl From<OutOfMemory> for TenantError {
    ghost use Rattle.pf_base.specs.declared.tenant.TenantError.TheVariants.{OutOfMemory};

    ghost from_gives = { λ _ e. e ≡ OutOfMemory };

    fn from(_error: OutOfMemory) -> TenantError {
        TenantError::OutOfMemory
    }
}

/// A tenant's name, by the rule of Mimir's tenant IDs: 1 to 150 letters, digits and `!-_.*'()`, and neither `.` nor
/// `..`.
#[derive(Drop)]
pub struct Tenant {
    name: Text,
}

impl Model for Tenant {
    ghost use Rattle.std.specs.Prelude.{List, ℕ};
    ghost use Rattle.pf_base.specs.Tenants.{is_tenant};
    ghost use Rattle.std.specs.Prelude.{◌≡◌, true};

    ghost Value = { List ℕ };

    ghost view = { λ t. t.name };

    ghost invariant = { λ t. is_tenant t.name ≡ true };
}

/// Whether a byte may stand in a tenant's name.
fn may_stand(byte: u8) -> bool
    ensures { result ≡ is_tenant_byte byte }
{
    byte.is_ascii_alphanumeric() || b"!-_.*'()".contains(&byte)
}

/// Whether each of these bytes may stand in a tenant's name.
fn all_may_stand(bytes: &[u8]) -> bool
    ensures { result ≡ list_all is_tenant_byte bytes.now }
{
    bytes.iter().all(|byte| may_stand(*byte))
}

/// Whether a text is a tenant's name.
fn names_tenant(name: &str) -> bool
    ensures { result ≡ is_tenant name.now }
{
    !name.is_empty()
        && name.len() <= 150
        && all_may_stand(name.as_bytes())
        && name != "."
        && name != ".."
}

impl Tenant {
    /// The tenant of this name: a copy of the text.
    pub fn read(alloc: Global, name: &str) -> Result<Tenant, TenantError>
        ensures ok { IfOk result (λ t. t ≡ name.now) }
        ensures refused { result ≡ Err TenantError.BadTenant ↔ is_tenant name.now ≡ false }
    {
        if !names_tenant(name) {
            return Err(TenantError::BadTenant);
        }
        Ok(Tenant {
            name: Text::of(alloc, name)?,
        })
    }

    /// The name as it was read.
    pub fn as_str(&self) -> &str
        ensures value { result.now ≡ self.now }
        ensures named { is_tenant result.now ≡ true }
    {
        self.name.as_str()
    }
}

impl Clone for Tenant {
    ghost is_clone = { λ x y. y ≡ x };

    fn clone(&self) -> Result<Tenant, AllocError>
        ensures { IfOk result (λ t. t ≡ self.now) }
    {
        Ok(Tenant {
            name: self.name.clone()?,
        })
    }
}

impl PartialEq for Tenant {
    ghost eq = { pointwise nat_eq };

    ghost laws = { Prim.search (comparing, rules) };

    fn eq(&self, other: &Tenant) -> bool {
        self.name == other.name
    }
}

impl Eq for Tenant {
    ghost laws = { Prim.search (comparing, rules) };
}
