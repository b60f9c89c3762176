//! Tokens.

use pf_base::Value;
use std::alloc::AllocFailed;

/// A sign. Prometheus, Querying basics and Operators.
#[derive(Clone, Copy, PartialEq, Eq)]
pub enum Mark {
    /// `(`
    Open,
    /// `)`
    Close,
    /// `{`
    OpenBrace,
    /// `}`
    CloseBrace,
    /// `[`
    OpenSquare,
    /// `]`
    CloseSquare,
    /// `,`
    Comma,
    /// `:`, inside square brackets
    Colon,
    /// `@`
    At,
    /// `+`
    Plus,
    /// `-`
    Minus,
    /// `*`
    Times,
    /// `/`
    Over,
    /// `%`
    Percent,
    /// `==`
    DoubleEqual,
    /// `!=`
    NotEqual,
    /// `<=`
    AtMost,
    /// `<`
    Below,
    /// `>=`
    AtLeast,
    /// `>`
    Above,
    /// `=`
    Equal,
    /// `=~`
    Like,
    /// `!~`
    NotLike,
}

/// What a token is. What a word or a string says is read from its slice of the text.
#[derive(Clone, Copy, PartialEq, Eq)]
pub enum TokenSort {
    Word,
    /// A number, or the word `inf`.
    Number(Value),
    /// Milliseconds, where they are at most the greatest time, `pf_base::MAXT`.
    Duration(Option<u64>),
    String,
    Mark(Mark),
}

/// A token: the place of its first byte in the text, the place behind its last byte, and what it is.
#[derive(Clone, Copy)]
pub struct Token {
    pub from: u32,
    pub to: u32,
    pub sort: TokenSort,
}

/// Why a text has no tokens.
#[derive(Clone, Copy)]
pub enum LexError {
    /// It has more than 65,536 bytes.
    TooLong,
    /// At this byte, the first such, a token should begin and none does: 2 in `x & y`.
    BadToken { at: u32 },
    OutOfMemory,
}

impl<T: Drop> From<AllocFailed<T>> for LexError {
    ghost use Rattle.std.specs.Prelude.{◌≡◌};
    ghost use Rattle.pf_lex.specs.declared.token.LexError.TheVariants.{OutOfMemory};

    ghost from_gives = { λ _ e. e ≡ OutOfMemory };

    fn from(_error: AllocFailed<T>) -> LexError {
        LexError::OutOfMemory
    }
}
