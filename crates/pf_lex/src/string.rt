//! Strings.

ghost use Rattle.std.specs.Prelude.{◌≡◌, ◌+◌, ◌<◌, ◌≤◌, Bool, drop, length, slice_index, true, zero, IfSome};
ghost use Rattle.std.specs.Char.{digit_value, is_ascii_hexdigit};
ghost use Rattle.std.specs.List.{list_all};
ghost use Rattle.pf_model.specs.Tokens.{character, escape, escaped_by, escapes, hexadecimal, piece};
ghost use Rattle.pf_model.specs.FirstBytes.{begins_string, first_passes};
ghost use Rattle.pf_lex.specs.Quotes.{further_of, piece_of, quoted_end, raw_end, string_end};
ghost use Rattle.pf_lex.specs.Scans.{Finds};

use crate::token::TokenSort;

/// What a part of a string stands for.
#[derive(Clone, Copy)]
pub enum Written {
    Byte(u8),
    Character(char),
}

/// What stands next in a string: its end, nothing lawful, or what stands for something and takes so many more bytes.
#[derive(Clone, Copy)]
pub enum Piece {
    End,
    Wrong,
    Writes { written: Written, further: usize },
}

/// The value of a hexadecimal digit.
fn digit_value(byte: u8) -> u32
    requires { is_ascii_hexdigit byte ≡ true }
    ensures value { result ≡ digit_value byte }
    ensures small { result < 16 }
{
    if byte <= b'9' {
        (byte - b'0') as u32
    } else if byte <= b'F' {
        (byte - b'A') as u32 + 10
    } else {
        (byte - b'a') as u32 + 10
    }
}

/// The number that at most eight hexadecimal digits write.
fn hexadecimal(digits: &[u8]) -> u32
    requires digits { list_all is_ascii_hexdigit digits.now ≡ true }
    requires few { length digits.now ≤ 8 }
    ensures { result ≡ hexadecimal 0 digits.now }
{
    let mut number = 0;
    for digit in digits {
        number = number * 16 + digit_value(*digit);
    }
    number
}

fn are_hexadecimal(bytes: &[u8]) -> bool
    ensures { result ≡ list_all is_ascii_hexdigit bytes.now }
{
    bytes.iter().all(|byte| byte.is_ascii_hexdigit())
}

/// The character that so many hexadecimal digits in front name.
fn character(count: usize, bytes: &[u8]) -> Piece
    requires { count ≤ 8 }
    ensures piece { piece_of result ≡ character count bytes.now }
    ensures further { further_of result ≤ 9 }
{
    if bytes.len() < count {
        return Piece::Wrong;
    }
    let (digits, _) = bytes.split_at(count);
    if !are_hexadecimal(digits) {
        return Piece::Wrong;
    }
    match char::from_u32(hexadecimal(digits)) {
        Some(character) => Piece::Writes {
            written: Written::Character(character),
            further: 1 + count,
        },
        None => Piece::Wrong,
    }
}

/// What a letter behind a backslash writes.
fn escaped_by(byte: u8) -> Piece
    ensures piece { piece_of result ≡ escaped_by byte escapes }
    ensures further { further_of result ≤ 9 }
{
    let byte = match byte {
        b'a' => 7,
        b'b' => 8,
        b'f' => 12,
        b'n' => b'\n',
        b'r' => b'\r',
        b't' => b'\t',
        b'v' => 11,
        b'\\' => b'\\',
        _ => return Piece::Wrong,
    };
    Piece::Writes {
        written: Written::Byte(byte),
        further: 1,
    }
}

/// What stands behind a backslash.
fn escape(quote: u8, bytes: &[u8]) -> Piece
    ensures piece { piece_of result ≡ escape quote bytes.now }
    ensures further { further_of result ≤ 9 }
{
    let Some((byte, behind)) = bytes.split_first() else {
        return Piece::Wrong;
    };
    if *byte == quote {
        Piece::Writes {
            written: Written::Byte(*byte),
            further: 1,
        }
    } else if *byte == b'u' {
        character(4, behind)
    } else if *byte == b'U' {
        character(8, behind)
    } else {
        escaped_by(*byte)
    }
}

fn next_piece(quote: u8, byte: u8, behind: &[u8]) -> Piece
    ensures piece { piece_of result ≡ piece quote byte behind.now }
    ensures further { further_of result ≤ 9 }
{
    if byte == quote {
        Piece::End
    } else if byte == b'\n' {
        Piece::Wrong
    } else if byte == b'\\' {
        escape(quote, behind)
    } else {
        Piece::Writes {
            written: Written::Byte(byte),
            further: 0,
        }
    }
}

/// What stands at a place in a string.
pub fn piece_at(quote: u8, bytes: &[u8], place: usize) -> Piece
    requires { place < length bytes.now }
    ensures piece { piece_of result ≡ piece quote (slice_index bytes.now place) (drop (place + 1) bytes.now) }
    ensures further { further_of result ≤ 9 }
{
    let (_, behind) = bytes.split_at(place + 1);
    next_piece(quote, bytes[place], behind)
}

/// The number of bytes behind an opening quote up to the closing one, with it.
fn quoted_len(quote: u8, bytes: &[u8]) -> Option<usize>
    ensures len { result ≡ quoted_end quote zero bytes.now }
    ensures within { IfSome result (λ n. n ≤ length bytes.now) }
{
    let mut i = 0;
    while i < bytes.len() {
        match piece_at(quote, bytes, i) {
            Piece::End => return Some(i + 1),
            Piece::Wrong => return None,
            Piece::Writes { further, .. } => i += 1 + further,
        }
    }
    None
}

/// The number of bytes behind an opening backquote up to the closing one, with it.
pub fn raw_len(bytes: &[u8]) -> Option<usize>
    ensures len { result ≡ raw_end bytes.now }
    ensures within { IfSome result (λ n. n ≤ length bytes.now) }
{
    for (i, byte) in bytes.iter().enumerate() {
        if *byte == b'`' {
            return Some(i + 1);
        }
    }
    None
}

/// The length of a string that stands in front, with its quotes.
fn string_len(bytes: &[u8]) -> Option<usize>
    ensures len { result ≡ string_end bytes.now }
    ensures within { IfSome result (λ n. n ≤ length bytes.now) }
{
    let (quote, behind) = bytes.split_first()?;
    let len = if *quote == b'`' {
        raw_len(behind)?
    } else {
        quoted_len(*quote, behind)?
    };
    Some(1 + len)
}

/// A string in front.
pub fn string_in_front(bytes: &[u8]) -> Option<(TokenSort, usize)>
    requires { first_passes begins_string bytes.now ≡ true }
    ensures { (inside : Bool) → Finds inside bytes.now result }
{
    let len = string_len(bytes)?;
    Some((TokenSort::String, len))
}
