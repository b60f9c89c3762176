//! The tokens of a text.

ghost use Rattle.std.specs.Prelude.{◌≡◌, ◌<◌, ◌≤◌, ℕ, length, map, Err, IfErr, IfOk, List};
ghost use Rattle.std.specs.List.{All};
ghost use Rattle.pf_model.specs.Parsing.{most_bytes};
ghost use Rattle.pf_model.specs.Tokens.{AreTokens, inside_behind, next_at, sign};
ghost use Rattle.pf_model.specs.FirstBytes.{begins_quantity, begins_string, begins_word};
ghost use Rattle.pf_lex.specs.Scans.{Finds, FindsAt, Steps};
ghost use Rattle.pf_lex.specs.Seen.{IsTokenOf, IsFault, mark_text, sort_of, token_of};
ghost use Rattle.pf_lex.specs.declared.token.LexError.TheVariants.{TooLong};

use crate::mark::mark_in_front;
use crate::number::quantity_in_front;
use crate::spans::separators_len;
use crate::string::string_in_front;
use crate::token::{LexError, Mark, Token, TokenSort};
use crate::word::word_in_front;
use std::alloc::Global;

/// The most bytes of a query's text.
const MOST_BYTES: usize = 65_536;

fn begins_quantity(byte: u8) -> bool
    ensures { result ≡ begins_quantity byte }
{
    byte.is_ascii_digit() || byte == b'.'
}

fn begins_string(byte: u8) -> bool
    ensures { result ≡ begins_string byte }
{
    byte == b'"' || byte == b'\'' || byte == b'`'
}

fn begins_word(byte: u8) -> bool
    ensures { result ≡ begins_word byte }
{
    byte.is_ascii_alphabetic() || byte == b'_' || byte == b':'
}

/// The token in front, and its length.
fn token_in_front(inside: bool, bytes: &[u8]) -> Option<(TokenSort, usize)>
    requires { 0 < length bytes.now }
    ensures { Finds inside bytes.now result }
{
    let byte = bytes[0];
    if begins_quantity(byte) {
        quantity_in_front(bytes)
    } else if begins_string(byte) {
        string_in_front(bytes)
    } else if !inside && begins_word(byte) {
        word_in_front(bytes)
    } else {
        mark_in_front(inside, bytes)
    }
}

/// The token that begins at a place.
fn token_at(inside: bool, text: &[u8], at: usize) -> Option<Token>
    requires within { at < length text.now }
    requires short { length text.now ≤ most_bytes }
    ensures { FindsAt inside text.now at result }
{
    let (_, behind) = text.split_at(at);
    let (sort, len) = token_in_front(inside, behind)?;
    Some(Token {
        from: at as u32,
        to: (at + len) as u32,
        sort,
    })
}

/// Whether what follows a sign is inside square brackets.
fn inside_behind_mark(inside: bool, mark: Mark) -> bool
    ensures { result ≡ inside_behind inside (sign (mark_text mark)) }
{
    match mark {
        Mark::OpenSquare => true,
        Mark::CloseSquare => false,
        _ => inside,
    }
}

/// Whether what follows a token is inside square brackets.
fn inside_behind(inside: bool, token: &Token) -> bool
    ensures { (text : List ℕ) → result ≡ inside_behind inside (sort_of text token.now.sort) }
{
    match token.sort {
        TokenSort::Mark(mark) => inside_behind_mark(inside, mark),
        _ => inside,
    }
}

/// The place behind what separates tokens.
fn next_at(text: &[u8], at: usize) -> usize
    requires { at ≤ length text.now }
    ensures place { result ≡ next_at text.now at }
    ensures low { at ≤ result }
    ensures within { result ≤ length text.now }
{
    let (_, behind) = text.split_at(at);
    at + separators_len(behind)
}

/// The token that begins at a place, whether what follows it is inside square brackets, and the place of the next.
fn step_at(inside: bool, text: &[u8], at: usize) -> Option<(Token, bool, usize)>
    requires within { at < length text.now }
    requires short { length text.now ≤ most_bytes }
    ensures { Steps inside text.now at result }
{
    let token = token_at(inside, text, at)?;
    let inside = inside_behind(inside, &token);
    let next = next_at(text, token.to as usize);
    Some((token, inside, next))
}

/// The tokens of a text in order.
pub fn tokens(alloc: Global, text: &str) -> Result<Vec<Token>, LexError>
    ensures tokens { IfOk result (λ v. AreTokens text.now (map (token_of text.now) v.items)) }
    ensures parts { IfOk result (λ v. All (IsTokenOf text.now) v.items) }
    ensures fault { IfErr result (IsFault text.now) }
    ensures long { most_bytes < length text.now → result ≡ Err TooLong }
{
    let bytes = text.as_bytes();
    if bytes.len() > MOST_BYTES {
        return Err(LexError::TooLong);
    }
    let mut found = Vec::new(alloc);
    let mut inside = false;
    let mut at = next_at(bytes, 0);
    while at < bytes.len() {
        let Some((token, behind, next)) = step_at(inside, bytes, at) else {
            return Err(LexError::BadToken { at: at as u32 });
        };
        found.push(token)?;
        inside = behind;
        at = next;
    }
    Ok(found)
}
