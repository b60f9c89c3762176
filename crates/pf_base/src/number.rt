//! Numbers as text.

ghost use Rattle.std.specs.Prelude.{◌≡◌, ◌↔◌, ◌+◌, ◌*◌, ◌^◌, ◌≤◌, ◌++◌, true, length, map, IfOk, OnOk, OnErr};
ghost use Rattle.std.specs.Str.{all_ascii_digits};
ghost use Rattle.std.specs.Char.{to_ascii_lowercase};
ghost use Rattle.pf_base.specs.Limits.{greatest_exponent, greatest_size};
ghost use Rattle.pf_base.specs.NumberTexts.{fraction_digits, number_after, Reads, value_text};
ghost use Rattle.pf_base.specs.NumberScans.{capped, decimal_of, digits_in_front, exponent_of, fraction_in_front, is_minus, is_word, past_digits, past_fraction, past_sign, placed, read_of, sign_in_front, signed_by, sizes, small_of, tens_of};
ghost use Rattle.pf_base.specs.declared.number.Read.{Read};

use crate::memory::OutOfMemory;
use crate::number_text::write_value;
use crate::value::{LIM, Value};

/// The greatest size of a value, in micros.
const MOST: u64 = LIM as u64;

/// What a number's text says.
#[derive(Clone, Copy)]
pub enum Read {
    Number(Value),
    NotANumber,
}

/// A text of another form than a number's.
#[derive(Clone, Copy)]
pub struct BadNumber;

/// The power of ten by which an exponent multiplies, and the one by which it divides.
#[derive(Clone, Copy)]
struct Tens {
    up: usize,
    down: usize,
}

/// Reads a decimal of at most 128 bytes with an exponent of at most 9,999, cut toward zero to whole micros and moved into
/// the bounds; `inf` or `infinity` as the greatest size; or `nan`. Each may have a sign, and words any case of letters.
pub fn read_value(bytes: &[u8]) -> Result<Read, BadNumber>
    ensures { (r : Read) → (result ≡ Ok r) ↔ Reads bytes.now r }
{
    read_text(bytes)
}

/// Appends the value's decimal text: no exponent, no zeros at the fraction's end, and `-` only for a negative value.
pub fn push_value(out: &mut Vec<u8>, value: Value) -> Result<(), OutOfMemory>
    ensures ok { OnOk result (out.new.items ≡ out.old.items ++ value_text value) }
    ensures err { OnErr result (out.new.items ≡ out.old.items) }
    ensures read_back { Reads (value_text value) (Read.Number value) }
{
    let mut buffer = [0; 28];
    let end = write_value(value, &mut buffer, 0);
    out.extend_from_slice(&buffer[..end])?;
    Ok(())
}

/// Whether a `-` stands in front, and what is behind the sign.
fn split_sign(bytes: &[u8]) -> (bool, &[u8])
    ensures sign { result.0 ≡ is_minus (sign_in_front bytes.now) }
    ensures rest { result.1.now ≡ past_sign bytes.now }
{
    match bytes.split_first() {
        Some((b'-', rest)) => (true, rest),
        Some((b'+', rest)) => (false, rest),
        _ => (false, bytes),
    }
}

/// The digits in front, and what is behind them.
pub fn split_digits(bytes: &[u8]) -> (&[u8], &[u8])
    ensures digits { result.0.now ≡ digits_in_front bytes.now }
    ensures rest { result.1.now ≡ past_digits bytes.now }
    ensures all { all_ascii_digits result.0.now ≡ true }
    ensures len { length result.0.now + length result.1.now ≡ length bytes.now }
{
    for (i, byte) in bytes.iter().enumerate() {
        if !byte.is_ascii_digit() {
            return bytes.split_at(i);
        }
    }
    bytes.split_at(bytes.len())
}

/// The digits behind a point in front, and what is behind them.
fn split_fraction(bytes: &[u8]) -> (&[u8], &[u8])
    ensures digits { result.0.now ≡ fraction_digits (fraction_in_front bytes.now) }
    ensures rest { result.1.now ≡ past_fraction bytes.now }
    ensures all { all_ascii_digits result.0.now ≡ true }
    ensures len { length result.0.now ≤ length bytes.now }
{
    match bytes.split_first() {
        Some((b'.', rest)) => split_digits(rest),
        _ => bytes.split_at(0),
    }
}

/// The number that the digits write behind those of another, at most the greatest size.
pub fn read_on(size: u64, digits: &[u8]) -> u64
    requires capped { size ≤ greatest_size }
    requires digits { all_ascii_digits digits.now ≡ true }
    ensures { result ≡ capped (number_after size digits.now) }
{
    let mut size = size;
    for digit in digits {
        size = (size * 10 + (*digit - b'0') as u64).min(MOST);
    }
    size
}

/// The number that digits alone write, where it is at most 9,999.
fn small_number(bytes: &[u8]) -> Option<usize>
    ensures { result ≡ small_of bytes.now }
{
    let (digits, rest) = split_digits(bytes);
    if digits.is_empty() || !rest.is_empty() {
        return None;
    }
    let number = read_on(0, digits);
    if number > 9999 {
        None
    } else {
        Some(number as usize)
    }
}

/// The powers of an exponent, or of nothing.
fn read_exponent(bytes: &[u8]) -> Result<Tens, BadNumber>
    ensures tens { result ≡ tens_of (exponent_of bytes.now) }
    ensures small { IfOk result (λ t. t.up ≤ greatest_exponent) }
{
    let Some((letter, rest)) = bytes.split_first() else {
        return Ok(Tens { up: 0, down: 0 });
    };
    if *letter != b'e' && *letter != b'E' {
        return Err(BadNumber);
    }
    let (minus, digits) = split_sign(rest);
    match small_number(digits) {
        None => Err(BadNumber),
        Some(size) if minus => Ok(Tens { up: 0, down: size }),
        Some(size) => Ok(Tens { up: size, down: 0 }),
    }
}

/// A size with zeros behind it, at most the greatest.
fn with_zeros(size: u64, zeros: usize) -> u64
    requires { size ≤ greatest_size }
    ensures { result ≡ capped (size * 10 ^ zeros) }
{
    let mut size = size;
    let mut zeros = zeros;
    while zeros > 0 && 0 < size && size < MOST {
        size = (size * 10).min(MOST);
        zeros -= 1;
    }
    size
}

/// The first so many of the digits before and behind the point, with zeros where there are fewer, as a size.
fn placed(whole: &[u8], fraction: &[u8], places: usize) -> u64
    requires whole { all_ascii_digits whole.now ≡ true }
    requires fraction { all_ascii_digits fraction.now ≡ true }
    ensures { result ≡ capped (placed (whole.now ++ fraction.now) places) }
{
    let front = places.min(whole.len());
    let size = read_on(0, &whole[..front]);
    let behind = (places - front).min(fraction.len());
    let size = read_on(size, &fraction[..behind]);
    with_zeros(size, places - front - behind)
}

/// The size in micros of a number without its sign.
fn read_size(bytes: &[u8]) -> Result<u64, BadNumber>
    requires { length bytes.now ≤ 128 }
    ensures size { result ≡ sizes (decimal_of bytes.now) }
    ensures capped { IfOk result (λ n. n ≤ greatest_size) }
{
    let (whole, rest) = split_digits(bytes);
    let (fraction, rest) = split_fraction(rest);
    let tens = read_exponent(rest)?;
    if whole.len() + fraction.len() == 0 {
        return Err(BadNumber);
    }
    let places = (whole.len() + 6 + tens.up).saturating_sub(tens.down);
    Ok(placed(whole, fraction, places))
}

#[tactic(auto, unfolding(crate::specs::Arithmetic::clamp))]
fn signed_value(minus: bool, size: u64) -> Value
    requires { size ≤ greatest_size }
    ensures { result ≡ signed_by minus size }
{
    if minus {
        Value::new(-(size as i128))
    } else {
        Value::new(size as i128)
    }
}

/// Whether bytes are this word of small letters, in any case of letters.
fn is_word(bytes: &[u8], word: &[u8]) -> bool
    requires { map to_ascii_lowercase word.now ≡ word.now }
    ensures { result ≡ is_word word.now bytes.now }
{
    bytes.eq_ignore_ascii_case(word)
}

/// What bytes are read as, from the left.
fn read_text(bytes: &[u8]) -> Result<Read, BadNumber>
    ensures { result ≡ read_of bytes.now }
{
    let (minus, rest) = split_sign(bytes);
    if is_word(rest, b"nan") {
        return Ok(Read::NotANumber);
    }
    if is_word(rest, b"inf") || is_word(rest, b"infinity") {
        return Ok(Read::Number(signed_value(minus, MOST)));
    }
    if bytes.len() > 128 {
        return Err(BadNumber);
    }
    let size = read_size(rest)?;
    Ok(Read::Number(signed_value(minus, size)))
}
