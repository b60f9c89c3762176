//! Why calls are refused.

use pf_base::OutOfMemory;

/// Why an append or a deletion was refused: the journal, of so many entries, has no room for one more beside those that open
/// queries keep; as many tenants are known as may be; or memory ran out.
#[derive(Clone, Copy)]
pub enum CoreError {
    JournalFull { entries: u64 },
    TooManyTenants,
    OutOfMemory,
}

impl From<OutOfMemory> for CoreError {
    ghost use Rattle.std.specs.Prelude.{◌≡◌};
    ghost use Rattle.pf_core.specs.declared.error.CoreError.{CoreError};

    ghost from_gives = { λ _ e. e ≡ CoreError.OutOfMemory };

    fn from(_error: OutOfMemory) -> CoreError {
        CoreError::OutOfMemory
    }
}

/// Why an ask was refused: the journal, of so many entries, has no room for its entry, its cancel and its answer; as many
/// tenants are known as may be; the tenant has so many open queries, which is as many as it may have; or memory ran out.
#[derive(Clone, Copy)]
pub enum AskError {
    JournalFull { entries: u64 },
    TooManyTenants,
    Full { outstanding: u32 },
    OutOfMemory,
}

impl From<OutOfMemory> for AskError {
    ghost use Rattle.std.specs.Prelude.{◌≡◌};
    ghost use Rattle.pf_core.specs.declared.error.AskError.{AskError};

    ghost from_gives = { λ _ e. e ≡ AskError.OutOfMemory };

    fn from(_error: OutOfMemory) -> AskError {
        AskError::OutOfMemory
    }
}
