//! The texts of numbers, written into a buffer: each call writes at a place, leaves what stands before it, and answers the
//! place behind what it wrote.

ghost use Rattle.std.specs.Prelude.{◌≡◌, ◌+◌, ◌<◌, ◌≤◌, ◌++◌, ◌∷◌, length, take, unsigned_abs};
ghost use Rattle.std.specs.Fmt.{decimal};
ghost use Rattle.pf_base.specs.NumberTexts.{fraction_text, micros_text, Reads, six_digits, value_text, without_end_zeros};
ghost use Rattle.pf_base.specs.declared.number.Read.{Read};

use crate::value::Value;
use itoa::write_digits;

/// How many decimal digits a number has.
fn digits_in(number: u64) -> usize
    ensures count { result ≡ length (decimal number) }
    ensures most { result ≤ 20 }
{
    if number == 0 {
        return 1;
    }
    number.ilog10() as usize + 1
}

/// Writes a number below a hundred. Where it has one digit, that is written over the zero before it, so that nothing branches.
fn write_short(number: u64, buffer: &mut [u8], at: usize) -> usize
    requires number { number < 100 }
    requires room { at + 2 ≤ length buffer.old }
    ensures written { take result buffer.new ≡ take at buffer.old ++ decimal number }
    ensures within { (at ≤ result) × (result ≤ at + 2) }
{
    let last = if number < 10 { at } else { at + 1 };
    buffer[at] = b'0' + (number / 10) as u8;
    buffer[last] = b'0' + (number % 10) as u8;
    last + 1
}

/// Writes a number's decimal digits.
pub fn write_number(number: u64, buffer: &mut [u8], at: usize) -> usize
    requires { at + 20 ≤ length buffer.old }
    ensures written { take result buffer.new ≡ take at buffer.old ++ decimal number }
    ensures within { (at ≤ result) × (result ≤ at + 20) }
{
    if number < 100 {
        return write_short(number, buffer, at);
    }
    let end = at + digits_in(number);
    write_digits(number, buffer, end);
    end
}

/// The digits before the zeros at the end. It goes over all digits, so that it takes as long for any.
fn without_zeros(digits: &[u8]) -> &[u8]
    ensures { result.now ≡ without_end_zeros digits.now }
{
    let mut end = 0;
    for i in 0..digits.len() {
        if digits[i] != b'0' {
            end = i + 1;
        }
    }
    &digits[..end]
}

/// Writes a point and six digits, by the digits of a million and so many micros.
fn write_six_places(micros: u64, buffer: &mut [u8], at: usize)
    requires micros { micros < 1000000 }
    requires room { at + 7 ≤ length buffer.old }
    ensures { take (at + 7) buffer.new ≡ take at buffer.old ++ 46 ∷ six_digits micros }
{
    write_digits(1_000_000 + micros, buffer, at + 7);
    buffer[at] = b'.';
}

/// Writes a point and the digits of micros without the zeros at their end, and nothing for none.
fn write_fraction(micros: u64, buffer: &mut [u8], at: usize) -> usize
    requires micros { micros < 1000000 }
    requires room { at + 7 ≤ length buffer.old }
    ensures written { take result buffer.new ≡ take at buffer.old ++ fraction_text micros }
    ensures within { (at ≤ result) × (result ≤ at + 7) }
{
    if micros == 0 {
        return at;
    }
    write_six_places(micros, buffer, at);
    at + 1 + without_zeros(&buffer[at + 1..at + 7]).len()
}

fn write_micros(micros: u64, buffer: &mut [u8], at: usize) -> usize
    requires { at + 27 ≤ length buffer.old }
    ensures written { take result buffer.new ≡ take at buffer.old ++ micros_text micros }
    ensures within { (at ≤ result) × (result ≤ at + 27) }
{
    let point = write_number(micros / 1_000_000, buffer, at);
    write_fraction(micros % 1_000_000, buffer, point)
}

/// Writes a `-` for a negative number of micros.
fn write_sign(micros: i64, buffer: &mut [u8], at: usize) -> usize
    requires { at + 1 ≤ length buffer.old }
    ensures written { take result buffer.new ++ micros_text (unsigned_abs micros) ≡ take at buffer.old ++ value_text micros }
    ensures within { (at ≤ result) × (result ≤ at + 1) }
{
    if micros >= 0 {
        return at;
    }
    buffer[at] = b'-';
    at + 1
}

/// Writes the value's decimal text, as `push_value` appends it.
pub fn write_value(value: Value, buffer: &mut [u8], at: usize) -> usize
    requires { at + 28 ≤ length buffer.old }
    ensures written { take result buffer.new ≡ take at buffer.old ++ value_text value }
    ensures within { (at ≤ result) × (result ≤ at + 28) }
    ensures read_back { Reads (value_text value) (Read.Number value) }
{
    let micros = value.micros();
    let at = write_sign(micros, buffer, at);
    write_micros(micros.unsigned_abs(), buffer, at)
}
