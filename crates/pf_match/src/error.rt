//! Why a text gives no pattern.

ghost use Rattle.std.specs.Prelude.{◌≡◌};
ghost use Rattle.pf_match.specs.declared.error.PatternError.{PatternError};

use std::alloc::AllocError;

#[derive(Clone, Copy)]
pub enum PatternError {
    /// The text is no expression, or nests too deep.
    BadPattern,
    /// The text is an expression that compiles to more than 10 MiB.
    TooBig,
    OutOfMemory,
}

impl From<AllocError> for PatternError {
    ghost from_gives = { λ _ e. e ≡ PatternError.OutOfMemory };

    fn from(_error: AllocError) -> PatternError {
        PatternError::OutOfMemory
    }
}

impl From<regex::Error> for PatternError {
    ghost use Rattle.pf_match.specs.Kept.{pattern_error};

    ghost from_gives = { λ error e. e ≡ pattern_error error };

    // `Regex::new` is proved not to give `Internal`.
    fn from(error: regex::Error) -> PatternError {
        match error {
            regex::Error::OutOfMemory => PatternError::OutOfMemory,
            regex::Error::Syntax(_) => PatternError::BadPattern,
            regex::Error::CompiledTooBig | regex::Error::Internal => PatternError::TooBig,
        }
    }
}
