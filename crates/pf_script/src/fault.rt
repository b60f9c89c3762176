//! Why a script, or a line of one, was not read.

ghost use Rattle.std.specs.Prelude.{◌≡◌};
ghost use Rattle.pf_script.specs.Lines.{at_line};

use std::alloc::AllocFailed;

/// A script has a line that is of no form, or memory ran out.
#[derive(Clone, Copy)]
pub enum ScriptError {
    /// The first such line, from 1; 0 where the script is longer than 67,108,864 bytes.
    Line { line: u32 },
    OutOfMemory,
}

/// A line is of no form, or memory ran out.
#[derive(Clone, Copy)]
pub enum LineError {
    Refused,
    OutOfMemory,
}

impl LineError {
    /// The error of a script at the line with this number.
    pub fn at(self, line: u32) -> ScriptError
        ensures { result ≡ at_line line self }
    {
        match self {
            LineError::Refused => ScriptError::Line { line },
            LineError::OutOfMemory => ScriptError::OutOfMemory,
        }
    }
}

impl<T: Drop> From<AllocFailed<T>> for LineError {
    ghost use Rattle.std.specs.Prelude.{◌≡◌};
    ghost use Rattle.pf_script.specs.declared.fault.LineError.TheVariants.{OutOfMemory};

    ghost from_gives = { λ _ e. e ≡ OutOfMemory };

    fn from(_error: AllocFailed<T>) -> LineError {
        LineError::OutOfMemory
    }
}

impl From<pf_base::OutOfMemory> for LineError {
    ghost use Rattle.std.specs.Prelude.{◌≡◌};
    ghost use Rattle.pf_script.specs.declared.fault.LineError.TheVariants.{OutOfMemory};

    ghost from_gives = { λ _ e. e ≡ OutOfMemory };

    fn from(_error: pf_base::OutOfMemory) -> LineError {
        LineError::OutOfMemory
    }
}
