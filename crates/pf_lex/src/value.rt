//! What tokens say.

ghost use Rattle.std.specs.Prelude.{◌≡◌, ◌++◌, [], encode_utf8, unwrap_or, zero, IfOk, OnErr, OnOk};
ghost use Rattle.std.specs.Str.{IsUtf8};
ghost use Rattle.pf_model.specs.Tokens.{raw_from, string_from};
ghost use Rattle.pf_lex.specs.Quotes.{bytes_of};
ghost use Rattle.pf_lex.specs.Seen.{IsTokenOf, text_of, written};

use crate::string::{Piece, Written, piece_at, raw_len};
use crate::token::Token;
use pf_base::{OutOfMemory, Text};
use std::alloc::Global;

/// The token's part of its text.
pub fn token_text<'a>(text: &'a str, token: &Token) -> &'a str
    requires { IsTokenOf text.now token.now }
    ensures { result.now ≡ text_of text.now token.now }
{
    &text[token.from as usize..token.to as usize]
}

fn push_character(out: &mut Vec<u8>, character: char) -> Result<(), OutOfMemory>
    ensures ok { OnOk result (out.new.items ≡ out.old.items ++ encode_utf8 character) }
    ensures err { OnErr result (out.new.items ≡ out.old.items) }
{
    let mut buffer = [0; 4];
    out.extend_from_slice(character.encode_utf8(&mut buffer).as_bytes())?;
    Ok(())
}

fn push_written(out: &mut Vec<u8>, written: Written) -> Result<(), OutOfMemory>
    ensures ok { OnOk result (out.new.items ≡ out.old.items ++ bytes_of written) }
    ensures err { OnErr result (out.new.items ≡ out.old.items) }
{
    match written {
        Written::Byte(byte) => Ok(out.push(byte)?),
        Written::Character(character) => push_character(out, character),
    }
}

/// What the bytes behind an opening quote stand for, where the last of them closes the string.
fn quoted_value(alloc: Global, quote: u8, bytes: &[u8]) -> Result<Vec<u8>, OutOfMemory>
    ensures { IfOk result (λ v. v.items ≡ unwrap_or (string_from quote zero bytes.now) []) }
{
    let mut value = Vec::new(alloc);
    let mut i = 0;
    while i < bytes.len() {
        match piece_at(quote, bytes, i) {
            Piece::End if i + 1 == bytes.len() => return Ok(value),
            Piece::End | Piece::Wrong => return Ok(Vec::new(alloc)),
            Piece::Writes { written, further } => {
                push_written(&mut value, written)?;
                i += 1 + further;
            }
        }
    }
    Ok(Vec::new(alloc))
}

/// What the bytes behind an opening backquote stand for, where the last of them closes the string.
fn raw_value(bytes: &[u8]) -> &[u8]
    ensures { result.now ≡ unwrap_or (raw_from bytes.now) [] }
{
    if raw_len(bytes) == Some(bytes.len()) {
        bytes.split_at(bytes.len() - 1).0
    } else {
        bytes.split_at(0).0
    }
}

fn value_of(alloc: Global, bytes: &[u8]) -> Result<Vec<u8>, OutOfMemory>
    ensures { IfOk result (λ v. v.items ≡ written bytes.now) }
{
    match bytes.split_first() {
        Some((b'`', behind)) => Ok(Vec::from_slice(alloc, raw_value(behind))?),
        Some((b'"', behind)) => quoted_value(alloc, b'"', behind),
        Some((b'\'', behind)) => quoted_value(alloc, b'\'', behind),
        _ => Ok(Vec::new(alloc)),
    }
}

/// The bytes as a text, without a copy.
fn text_of(bytes: Vec<u8>) -> Text
    requires { IsUtf8 bytes.items }
    ensures { result ≡ bytes.items }
{
    match String::from_utf8(bytes) {
        Ok(text) => Text::take(text),
        Err(_) => unreachable!(),
    }
}

/// What the text of a string stands for, with its escapes undone. It is empty for a text that is no string's.
pub fn unquoted(alloc: Global, quoted: &str) -> Result<Text, OutOfMemory>
    ensures { IfOk result (λ t. t ≡ written quoted.now) }
{
    let value = value_of(alloc, quoted.as_bytes())?;
    Ok(text_of(value))
}

/// What a string stands for, with its escapes undone. It is empty for a token of another sort.
pub fn string_value(alloc: Global, text: &str, token: &Token) -> Result<Text, OutOfMemory>
    requires { IsTokenOf text.now token.now }
    ensures { IfOk result (λ t. t ≡ written (text_of text.now token.now)) }
{
    unquoted(alloc, token_text(text, token))
}
