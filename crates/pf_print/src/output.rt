//! A text as it is written.

ghost use Rattle.std.specs.Prelude.{◌≡◌, ◌++◌, ◌<◌, ◌*◌, pos, [], OnErr, OnOk, IfOk};
ghost use Rattle.std.specs.Fmt.{decimal};
ghost use Rattle.std.specs.Str.{IsUtf8};
ghost use Rattle.std.specs.String.{string_bytes};
ghost use Rattle.pf_base.specs.NumberTexts.{fraction_text, value_text};
ghost use Rattle.pf_model.specs.Canonical.{millis_text, string_byte, string_bytes_of, string_text};

use itoa::Buffer;
use pf_base::{OutOfMemory, Text, Value};
use std::alloc::Global;
use std::marker::Model;
use std::string::String;

#[derive(Drop)]
pub struct Output {
    text: String,
}

impl Model for Output {
    ghost use Rattle.std.specs.Prelude.{List, ℕ};
    ghost use Rattle.std.specs.String.{string_bytes};

    ghost Value = { List ℕ };

    ghost view = { λ o. string_bytes o.text };
}

impl Output {
    pub fn new(alloc: Global) -> Output
        ensures { result ≡ [] }
    {
        Output {
            text: String::new(alloc),
        }
    }

    pub fn push(&mut self, text: &str) -> Result<(), OutOfMemory>
        ensures { OnOk result (self.new ≡ self.old ++ text.now) }
    {
        Ok(self.text.push_str(text)?)
    }

    pub fn into_text(self) -> Text
        ensures { result ≡ self }
    {
        Text::take(self.text)
    }
}

/// The bytes as a text, without a copy.
fn text_of(bytes: Vec<u8>) -> String
    requires { IsUtf8 bytes.items }
    ensures { string_bytes result ≡ bytes.items }
{
    match String::from_utf8(bytes) {
        Ok(text) => text,
        Err(_) => unreachable!(),
    }
}

pub fn push_decimal(out: &mut Output, number: u64) -> Result<(), OutOfMemory>
    ensures { OnOk result (out.new ≡ out.old ++ decimal number) }
{
    let mut buffer = Buffer::new();
    out.push(buffer.format(number))
}

/// Milliseconds as a duration.
pub fn push_millis(out: &mut Output, millis: u64) -> Result<(), OutOfMemory>
    ensures { OnOk result (out.new ≡ out.old ++ millis_text millis) }
{
    push_decimal(out, millis)?;
    out.push("ms")
}

fn value_bytes(alloc: Global, value: Value) -> Result<Vec<u8>, OutOfMemory>
    ensures { IfOk result (λ v. v.items ≡ value_text value) }
{
    let mut bytes = Vec::new(alloc);
    pf_base::push_value(&mut bytes, value)?;
    Ok(bytes)
}

pub fn push_value(alloc: Global, out: &mut Output, value: Value) -> Result<(), OutOfMemory>
    ensures { OnOk result (out.new ≡ out.old ++ value_text value) }
{
    let _micros = value.micros();
    let bytes = value_bytes(alloc, value)?;
    let text = text_of(bytes);
    out.push(text.as_str())
}

fn push_escaped(out: &mut Vec<u8>, byte: u8) -> Result<(), OutOfMemory>
    ensures ok { OnOk result (out.new.items ≡ out.old.items ++ string_byte byte) }
    ensures err { OnErr result (out.new.items ≡ out.old.items) }
{
    match byte {
        b'\\' => Ok(out.extend_from_slice(b"\\\\")?),
        b'"' => Ok(out.extend_from_slice(b"\\\"")?),
        b'\n' => Ok(out.extend_from_slice(b"\\n")?),
        _ => Ok(out.push(byte)?),
    }
}

fn escaped_bytes(alloc: Global, text: &str) -> Result<Vec<u8>, OutOfMemory>
    ensures { IfOk result (λ v. v.items ≡ string_bytes_of text.now) }
{
    let mut bytes = Vec::new(alloc);
    for byte in text.as_bytes() {
        push_escaped(&mut bytes, *byte)?;
    }
    Ok(bytes)
}

/// A text in double quotes, with `\`, `"` and line feeds escaped.
pub fn push_quoted(alloc: Global, out: &mut Output, text: &str) -> Result<(), OutOfMemory>
    ensures { OnOk result (out.new ≡ out.old ++ string_text text.now) }
{
    let bytes = escaped_bytes(alloc, text)?;
    let escaped = text_of(bytes);
    out.push("\"")?;
    out.push(escaped.as_str())?;
    out.push("\"")
}

/// A fraction of a second, after a point; nothing where it is none.
#[tactic(auto, using(crate::proofs::Fractions::no_fraction, crate::proofs::Fractions::one_digit, crate::proofs::Fractions::two_digits, crate::proofs::Fractions::three_digits))]
fn push_fraction(out: &mut Output, millis: u64) -> Result<(), OutOfMemory>
    requires { millis < 1000 }
    ensures { OnOk result (out.new ≡ out.old ++ fraction_text (millis * 1000)) }
{
    if millis == 0 {
        return Ok(());
    }
    out.push(".")?;
    push_decimal(out, millis / 100)?;
    if millis % 100 == 0 {
        return Ok(());
    }
    push_decimal(out, millis / 10 % 10)?;
    if millis % 10 == 0 {
        return Ok(());
    }
    push_decimal(out, millis % 10)
}

/// Milliseconds as seconds.
#[tactic(auto, using(crate::proofs::Escapes::seconds_text))]
pub fn push_seconds(out: &mut Output, millis: u64) -> Result<(), OutOfMemory>
    ensures { OnOk result (out.new ≡ out.old ++ value_text (pos (millis * 1000))) }
{
    push_decimal(out, millis / 1000)?;
    push_fraction(out, millis % 1000)
}
