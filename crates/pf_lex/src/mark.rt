//! Signs.

ghost use Rattle.std.specs.Prelude.{◌≡◌, ◌∷◌, [], false, true};
ghost use Rattle.pf_model.specs.FirstBytes.{begins_mark, first_passes};
ghost use Rattle.pf_lex.specs.Scans.{Finds, Marks, MarksTwo};

use crate::token::{Mark, TokenSort};

/// The sign of one byte.
fn short_mark(inside: bool, byte: u8) -> Option<Mark>
    ensures { Marks inside (byte ∷ []) result }
{
    match byte {
        b'(' => Some(Mark::Open),
        b')' => Some(Mark::Close),
        b'{' => Some(Mark::OpenBrace),
        b'}' => Some(Mark::CloseBrace),
        b'[' => Some(Mark::OpenSquare),
        b']' => Some(Mark::CloseSquare),
        b',' => Some(Mark::Comma),
        b':' if inside => Some(Mark::Colon),
        b'@' => Some(Mark::At),
        b'+' => Some(Mark::Plus),
        b'-' => Some(Mark::Minus),
        b'*' => Some(Mark::Times),
        b'/' => Some(Mark::Over),
        b'%' => Some(Mark::Percent),
        b'<' => Some(Mark::Below),
        b'>' => Some(Mark::Above),
        b'=' => Some(Mark::Equal),
        _ => None,
    }
}

/// The sign of two bytes.
fn long_mark(first: u8, second: u8) -> Option<Mark>
    ensures { Marks false (first ∷ second ∷ []) result }
{
    match (first, second) {
        (b'=', b'=') => Some(Mark::DoubleEqual),
        (b'!', b'=') => Some(Mark::NotEqual),
        (b'<', b'=') => Some(Mark::AtMost),
        (b'>', b'=') => Some(Mark::AtLeast),
        (b'=', b'~') => Some(Mark::Like),
        (b'!', b'~') => Some(Mark::NotLike),
        _ => None,
    }
}

fn long_mark_in_front(bytes: &[u8]) -> Option<Mark>
    ensures { MarksTwo bytes.now result }
{
    if bytes.len() < 2 {
        return None;
    }
    long_mark(bytes[0], bytes[1])
}

/// A sign in front. Inside square brackets `:` is one.
pub fn mark_in_front(inside: bool, bytes: &[u8]) -> Option<(TokenSort, usize)>
    requires { first_passes (begins_mark inside) bytes.now ≡ true }
    ensures { Finds inside bytes.now result }
{
    if let Some(mark) = long_mark_in_front(bytes) {
        return Some((TokenSort::Mark(mark), 2));
    }
    let mark = short_mark(inside, bytes[0])?;
    Some((TokenSort::Mark(mark), 1))
}
