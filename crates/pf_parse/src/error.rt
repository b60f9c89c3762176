//! Why a text is no query.

ghost use Rattle.std.specs.Prelude.{◌≡◌};
ghost use Rattle.pf_parse.specs.Refusals.{lexed};

use pf_base::OutOfMemory;
use pf_lex::LexError;

/// Why a text is no query. Places are in bytes.
#[derive(Clone, Copy, Debug)]
pub enum ParseError {
    /// It has more than 65,536 bytes.
    TooLong,
    /// The first place where no token begins: 2 in `x & y`.
    BadToken { at: u32 },
    /// The first opening bracket with 64 open before it: 64 in 65 opening brackets.
    TooDeep { at: u32 },
    /// The first token, or the end, with which no query begins: 2 in `x y`, and 4 in `sum(`.
    Unexpected { at: u32 },
    /// The first called name that is no function: 0 in `foo(x)`.
    UnknownName { at: u32 },
    /// The first duration, or time of an `@`, that is over 4,398,046,511,103 milliseconds: 2 in `x[99999999999d]`.
    TimeTooLarge { at: u32 },
    /// A tree of more than 64 levels, as of 64 signs before a name.
    TooTall,
    OutOfMemory,
}

impl From<OutOfMemory> for ParseError {
    ghost use Rattle.std.specs.Prelude.{◌≡◌};
    ghost use Rattle.pf_parse.specs.declared.error.ParseError.TheVariants.{OutOfMemory};

    ghost from_gives = { λ _ e. e ≡ OutOfMemory };

    fn from(_error: OutOfMemory) -> ParseError {
        ParseError::OutOfMemory
    }
}

/// A text that has no tokens.
pub fn lexed(error: LexError) -> ParseError
    ensures { result ≡ lexed error }
{
    match error {
        LexError::TooLong => ParseError::TooLong,
        LexError::BadToken { at } => ParseError::BadToken { at },
        LexError::OutOfMemory => ParseError::OutOfMemory,
    }
}
