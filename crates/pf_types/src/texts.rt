//! The texts of errors.

ghost use Rattle.std.specs.Prelude.{◌≡◌, ◌++◌, IfOk};
ghost use Rattle.std.specs.Fmt.{decimal};
ghost use Rattle.std.specs.Str.{IsUtf8};
ghost use Rattle.std.specs.String.{string_bytes};
ghost use Rattle.pf_model.specs.ErrorTexts.{fault_text, grid_text};
ghost use Rattle.pf_types.specs.Errors.{words_of_error};
ghost use Rattle.pf_types.specs.Faults.{fault_of};
ghost use Rattle.pf_types.specs.declared.query.QueryError.TheVariants.{Parse};

use crate::error::TypeError;
use crate::query::QueryError;
use itoa::Buffer;
use pf_base::{GridError, OutOfMemory, Text};
use pf_parse::ParseError;
use std::alloc::Global;
use std::string::String;

/// The bytes as a text, without a copy.
fn text_of(bytes: Vec<u8>) -> Text
    requires { IsUtf8 bytes.items }
    ensures { result ≡ bytes.items }
{
    match String::from_utf8(bytes) {
        Ok(text) => Text::take(text),
        Err(_) => unreachable!(),
    }
}

/// What is wrong, and its place.
fn place_text(alloc: Global, what: &str, at: u32) -> Result<Text, OutOfMemory>
    ensures { IfOk result (λ t. t ≡ what.now ++ decimal at) }
{
    let mut buffer = Buffer::new();
    let mut text = String::new(alloc);
    text.push_str(what)?;
    text.push_str(buffer.format(at))?;
    Ok(Text::take(text))
}

/// A number between words.
fn number_text(alloc: Global, before: &str, number: u32, behind: &str) -> Result<Text, OutOfMemory>
    ensures { IfOk result (λ t. t ≡ before.now ++ (decimal number ++ behind.now)) }
{
    let mut buffer = Buffer::new();
    let mut text = String::new(alloc);
    text.push_str(before)?;
    text.push_str(buffer.format(number))?;
    text.push_str(behind)?;
    Ok(Text::take(text))
}

fn grammar_text(alloc: Global, error: ParseError) -> Result<Text, OutOfMemory>
    ensures { IfOk result (λ t. t ≡ words_of_error (Parse error)) }
{
    match error {
        ParseError::TooLong => Text::of(alloc, "query too long"),
        ParseError::BadToken { at } => place_text(alloc, "bad token at ", at),
        ParseError::TooDeep { at } => place_text(alloc, "nested too deep at ", at),
        ParseError::Unexpected { at } => place_text(alloc, "unexpected at ", at),
        ParseError::UnknownName { at } => place_text(alloc, "unknown function at ", at),
        ParseError::TimeTooLarge { at } => place_text(alloc, "time too large at ", at),
        ParseError::TooTall => Text::of(alloc, "expression too tall"),
        ParseError::OutOfMemory => Text::of(alloc, "out of memory"),
    }
}

fn kinds_text(alloc: Global, error: TypeError) -> Result<Text, OutOfMemory>
    ensures { IfOk result (λ t. t ≡ fault_text (fault_of error)) }
{
    let mut bytes = Vec::new(alloc);
    error.push_text(&mut bytes)?;
    Ok(text_of(bytes))
}

/// The text of a query's error, as `unexpected at 3` or `node 0: bool needed`. Places are in bytes.
pub fn error_text(alloc: Global, error: &QueryError) -> Result<Text, OutOfMemory>
    ensures { IfOk result (λ t. t ≡ words_of_error error.now) }
{
    match error {
        QueryError::Parse(error) => grammar_text(alloc, *error),
        QueryError::Typing(error) => kinds_text(alloc, *error),
        QueryError::Pattern { which } => number_text(alloc, "pattern ", *which, " refused"),
        QueryError::Empty { which } => number_text(alloc, "selector ", *which, " is empty"),
        QueryError::OutOfMemory => Text::of(alloc, "out of memory"),
    }
}

fn grid_words(error: GridError) -> &'static str
    ensures { result.now ≡ grid_text error }
{
    match error {
        GridError::ZeroStep => "zero step",
        GridError::TimeTooLarge => "time too large",
        GridError::EndBeforeStart => "end before start",
        GridError::TooManySteps => "too many steps",
    }
}

/// The text of a refused grid, as `zero step`.
pub fn grid_text(alloc: Global, error: GridError) -> Result<Text, OutOfMemory>
    ensures { IfOk result (λ t. t ≡ grid_text error) }
{
    Text::of(alloc, grid_words(error))
}
