//! What the reader sees of a token.

ghost use Rattle.std.specs.Prelude.{◌≡◌, Some};
ghost use Rattle.pf_parse.specs.Lexemes.{follow_of, seen, sign};

use crate::keyword::Keyword;
use crate::words::operator_mark;
use pf_base::Value;
use pf_lex::Mark;
use pf_model::Sign;

#[derive(Clone, Copy)]
pub enum Lexeme<'a> {
    Word {
        keyword: Option<Keyword>,
        text: &'a str,
    },
    Number {
        value: &'a Value,
    },
    /// Milliseconds, none where they are past the greatest time.
    Duration {
        millis: Option<u64>,
    },
    /// A string, with its quotes.
    Text {
        quoted: &'a str,
    },
    Mark {
        mark: Mark,
    },
}

/// What goes on behind a whole operand.
#[derive(Clone, Copy)]
pub enum Follow {
    /// A binary operator.
    Operates { sign: Sign },
    OpensSquare,
    Separates,
    Closes,
    Stops,
}

fn follow_of_mark(mark: Mark) -> Follow
    ensures { result ≡ follow_of (sign (Some mark)) }
{
    match mark {
        Mark::OpenSquare => Follow::OpensSquare,
        Mark::Comma => Follow::Separates,
        Mark::Close => Follow::Closes,
        _ => match operator_mark(mark) {
            Some(sign) => Follow::Operates { sign },
            None => Follow::Stops,
        },
    }
}

impl Lexeme<'_> {
    pub fn follow(&self) -> Follow
        ensures { result ≡ follow_of (seen self.now) }
    {
        match self {
            Lexeme::Word {
                keyword: Some(Keyword::Operator { sign }),
                ..
            } => Follow::Operates { sign: *sign },
            Lexeme::Mark { mark } => follow_of_mark(*mark),
            _ => Follow::Stops,
        }
    }
}
