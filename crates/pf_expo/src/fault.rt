//! Why a file or a part of a line was not read.

use pf_base::OutOfMemory;
use std::alloc::{AllocError, AllocFailed};

/// Why a file is not taken. Lines count from 1; every line past number 2^32 - 1 has that number.
#[derive(Clone, Copy)]
pub enum ExpoError {
    /// The first line not to be taken is of no form, or has labels that make no label set.
    BadLine { line: u32 },
    /// It is a sample line with a timestamp over `pf_base::MAXT`.
    TimeTooLarge { line: u32 },
    /// It is the line of the 2,000,001st row.
    TooMany { line: u32 },
    OutOfMemory,
}

/// Why a line or a part of it was not read: it is of another form, its time is too large, or memory ran out.
#[derive(Clone, Copy)]
pub enum ReadFault {
    Bad,
    Late,
    OutOfMemory,
}

impl<T: Drop> From<AllocFailed<T>> for ExpoError {
    ghost use Rattle.std.specs.Prelude.{◌≡◌};
    ghost use Rattle.pf_expo.specs.declared.fault.ExpoError.TheVariants.{OutOfMemory};

    ghost from_gives = { λ _ e. e ≡ OutOfMemory };

    fn from(_error: AllocFailed<T>) -> ExpoError {
        ExpoError::OutOfMemory
    }
}

impl From<AllocError> for ReadFault {
    ghost use Rattle.std.specs.Prelude.{◌≡◌};
    ghost use Rattle.pf_expo.specs.declared.fault.ReadFault.TheVariants.{OutOfMemory};

    ghost from_gives = { λ _ e. e ≡ OutOfMemory };

    fn from(_error: AllocError) -> ReadFault {
        ReadFault::OutOfMemory
    }
}

impl<T: Drop> From<AllocFailed<T>> for ReadFault {
    ghost use Rattle.std.specs.Prelude.{◌≡◌};
    ghost use Rattle.pf_expo.specs.declared.fault.ReadFault.TheVariants.{OutOfMemory};

    ghost from_gives = { λ _ e. e ≡ OutOfMemory };

    fn from(_error: AllocFailed<T>) -> ReadFault {
        ReadFault::OutOfMemory
    }
}

impl From<OutOfMemory> for ReadFault {
    ghost use Rattle.std.specs.Prelude.{◌≡◌};
    ghost use Rattle.pf_expo.specs.declared.fault.ReadFault.TheVariants.{OutOfMemory};

    ghost from_gives = { λ _ e. e ≡ OutOfMemory };

    fn from(_error: OutOfMemory) -> ReadFault {
        ReadFault::OutOfMemory
    }
}
