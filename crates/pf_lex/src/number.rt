//! Numbers and durations.

ghost use Rattle.std.specs.Prelude.{◌≡◌, ◌≤◌, Bool, true, length, take, IfSome, Some};
ghost use Rattle.std.specs.Char.{is_ascii_digit};
ghost use Rattle.std.specs.Option.{is_some};
ghost use Rattle.pf_base.specs.Limits.{greatest_exponent};
ghost use Rattle.pf_base.specs.NumberScans.{decimal_of};
ghost use Rattle.pf_model.specs.TokenScans.{number_form};
ghost use Rattle.pf_model.specs.Tokens.{number};
ghost use Rattle.pf_model.specs.FirstBytes.{begins_quantity, first_passes};
ghost use Rattle.pf_lex.specs.Scans.{Finds};
ghost use Rattle.pf_lex.specs.Stages.{behind_exponent, behind_fraction, behind_letter, behind_point, behind_start, behind_whole, FindsDuration, FindsNumber, further, is_number, is_small, longest_from, longest_number, stage_behind};
ghost use Rattle.pf_lex.specs.declared.number.Stage.TheVariants.{Start};

use crate::spans::{has_letter, letters_len};
use crate::token::TokenSort;
use pf_base::{DurationError, Read, Value, read_duration, read_value};

/// The most bytes of a number.
const MOST_BYTES: usize = 128;

/// The greatest size of an exponent.
const MOST_EXPONENT: u32 = 9999;

/// How far a number has been read.
#[derive(Clone, Copy)]
enum Stage {
    Start,
    Whole,
    /// Behind a point with no digit before it.
    Point,
    /// Behind a point with a digit before or behind it.
    Fraction,
    Letter,
    Sign,
    Exponent(u32),
    Over,
}

/// Behind one more digit of an exponent.
fn further(size: u32, byte: u8) -> Stage
    requires size { size ≤ greatest_exponent }
    requires digit { is_ascii_digit byte ≡ true }
    ensures stage { result ≡ further size byte }
    ensures small { is_small result ≡ true }
{
    let size = size * 10 + (byte - b'0') as u32;
    if size > MOST_EXPONENT {
        Stage::Over
    } else {
        Stage::Exponent(size)
    }
}

/// How far a number has been read behind one more byte.
fn stage_behind(stage: Stage, byte: u8) -> Stage
    requires { is_small stage ≡ true }
    ensures stage { result ≡ stage_behind stage byte }
    ensures small { is_small result ≡ true }
{
    match stage {
        Stage::Start => behind_start(byte),
        Stage::Whole => behind_whole(byte),
        Stage::Point => behind_point(byte),
        Stage::Fraction => behind_fraction(byte),
        Stage::Letter => behind_letter(byte),
        Stage::Sign => behind_exponent(0, byte),
        Stage::Exponent(size) => behind_exponent(size, byte),
        Stage::Over => Stage::Over,
    }
}

fn behind_start(byte: u8) -> Stage
    ensures stage { result ≡ behind_start byte }
    ensures small { is_small result ≡ true }
{
    if byte.is_ascii_digit() {
        Stage::Whole
    } else if byte == b'.' {
        Stage::Point
    } else {
        Stage::Over
    }
}

fn behind_whole(byte: u8) -> Stage
    ensures stage { result ≡ behind_whole byte }
    ensures small { is_small result ≡ true }
{
    if byte.is_ascii_digit() {
        Stage::Whole
    } else if byte == b'.' {
        Stage::Fraction
    } else if byte == b'e' || byte == b'E' {
        Stage::Letter
    } else {
        Stage::Over
    }
}

fn behind_point(byte: u8) -> Stage
    ensures stage { result ≡ behind_point byte }
    ensures small { is_small result ≡ true }
{
    if byte.is_ascii_digit() {
        Stage::Fraction
    } else {
        Stage::Over
    }
}

fn behind_fraction(byte: u8) -> Stage
    ensures stage { result ≡ behind_fraction byte }
    ensures small { is_small result ≡ true }
{
    if byte.is_ascii_digit() {
        Stage::Fraction
    } else if byte == b'e' || byte == b'E' {
        Stage::Letter
    } else {
        Stage::Over
    }
}

fn behind_letter(byte: u8) -> Stage
    ensures stage { result ≡ behind_letter byte }
    ensures small { is_small result ≡ true }
{
    if byte == b'+' || byte == b'-' {
        Stage::Sign
    } else {
        behind_exponent(0, byte)
    }
}

fn behind_exponent(size: u32, byte: u8) -> Stage
    requires { size ≤ greatest_exponent }
    ensures stage { result ≡ behind_exponent size byte }
    ensures small { is_small result ≡ true }
{
    if byte.is_ascii_digit() {
        further(size, byte)
    } else {
        Stage::Over
    }
}

/// Whether what has been read is a number.
fn is_number(stage: Stage) -> bool
    ensures { result ≡ is_number stage }
{
    match stage {
        Stage::Whole | Stage::Fraction | Stage::Exponent(_) => true,
        _ => false,
    }
}

/// The length of the longest number in front.
fn number_len(bytes: &[u8]) -> Option<usize>
    ensures len { result ≡ longest_from Start 0 None bytes.now }
    ensures within { IfSome result (λ n. n ≤ length bytes.now) }
{
    let mut stage = Stage::Start;
    let mut found = None;
    for (i, byte) in bytes.iter().enumerate() {
        stage = stage_behind(stage, *byte);
        if let Stage::Over = stage {
            return found;
        }
        if is_number(stage) {
            found = Some(i + 1);
        }
    }
    found
}

/// The micros of a number.
fn number_of(bytes: &[u8]) -> Value
    requires form { is_some (decimal_of bytes.now) ≡ true }
    requires short { length bytes.now ≤ 128 }
    ensures { number_form bytes.now ≡ Some (number result) }
{
    let Ok(read) = read_value(bytes) else {
        unreachable!()
    };
    let Read::Number(value) = read else {
        unreachable!()
    };
    value
}

/// The length of the longest number of a lawful size in front.
#[tactic(auto, using(std::proofs::lemmas::List::take_min))]
fn longest_number(bytes: &[u8]) -> Option<usize>
    ensures len { result ≡ longest_number bytes.now }
    ensures within { IfSome result (λ n. n ≤ length bytes.now) }
{
    number_len(&bytes[..MOST_BYTES.min(bytes.len())])
}

/// The longest number in front, where no letter, digit or `_` follows it.
fn number_in_front(bytes: &[u8]) -> Option<(TokenSort, usize)>
    ensures { FindsNumber bytes.now result }
{
    let len = longest_number(bytes)?;
    let (number, behind) = bytes.split_at(len);
    if has_letter(behind) {
        return None;
    }
    Some((TokenSort::Number(number_of(number)), len))
}

/// The letters and digits in front, where they are a duration.
fn duration_in_front(bytes: &[u8]) -> Option<(TokenSort, usize)>
    ensures { FindsDuration bytes.now result }
{
    let (letters, _) = bytes.split_at(letters_len(bytes));
    match read_duration(letters) {
        Ok(millis) => Some((TokenSort::Duration(Some(millis)), letters.len())),
        Err(DurationError::TooLarge) => Some((TokenSort::Duration(None), letters.len())),
        Err(DurationError::BadForm) => None,
    }
}

/// A number or a duration in front.
pub fn quantity_in_front(bytes: &[u8]) -> Option<(TokenSort, usize)>
    requires { first_passes begins_quantity bytes.now ≡ true }
    ensures { (inside : Bool) → Finds inside bytes.now result }
{
    match number_in_front(bytes) {
        Some(found) => Some(found),
        None => duration_in_front(bytes),
    }
}
