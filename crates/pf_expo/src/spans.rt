//! Bytes of one kind in front of others.

ghost use Rattle.std.specs.Prelude.{◌≡◌, ◌<◌, IfSome, drop, length, not, position, take, true, unwrap_or};
ghost use Rattle.std.specs.Char.{is_ascii_digit};
ghost use Rattle.std.specs.List.{list_all};
ghost use Rattle.pf_base.specs.LabelSets.{goes_on, is_label_name, starts_name};
ghost use Rattle.pf_model.specs.Exposition.{begins_with, goes_on_metric, is_blank, is_metric_name, is_no_blank, starts_metric};
ghost use Rattle.pf_expo.specs.Readings.{Reads};
ghost use Rattle.pf_expo.specs.Scans.{behind_byte, begins_blank, front_of, past};

use crate::fault::ReadFault;

pub fn is_blank(byte: u8) -> bool
    ensures { result ≡ is_blank byte }
{
    byte == b' ' || byte == b'\t'
}

fn goes_on_label(byte: u8) -> bool
    ensures { result ≡ goes_on byte }
{
    byte.is_ascii_alphanumeric() || byte == b'_'
}

fn starts_metric(byte: u8) -> bool
    ensures { result ≡ starts_metric byte }
{
    byte.is_ascii_alphabetic() || byte == b'_' || byte == b':'
}

fn goes_on_metric(byte: u8) -> bool
    ensures { result ≡ goes_on_metric byte }
{
    byte.is_ascii_alphanumeric() || byte == b'_' || byte == b':'
}

/// Whether the letters, digits, `_` and `:` in front are `[a-zA-Z_:][a-zA-Z0-9_:]*`.
#[tactic(auto, using(crate::proofs::Words::metric_begun))]
pub fn begins_metric_name(bytes: &[u8]) -> bool
    ensures { result ≡ is_metric_name (front_of goes_on_metric bytes.now) }
{
    match bytes.split_first() {
        Some((first, _)) => starts_metric(*first),
        None => false,
    }
}

fn starts_label(byte: u8) -> bool
    ensures { result ≡ starts_name byte }
{
    byte.is_ascii_alphabetic() || byte == b'_'
}

/// Whether the letters, digits and `_` in front are `[a-zA-Z_][a-zA-Z0-9_]*`.
#[tactic(auto, using(crate::proofs::Words::label_begun))]
pub fn begins_label_name(bytes: &[u8]) -> bool
    ensures { result ≡ is_label_name (front_of goes_on bytes.now) }
{
    match bytes.split_first() {
        Some((first, _)) => starts_label(*first),
        None => false,
    }
}

fn first_no_blank(bytes: &[u8]) -> Option<usize>
    ensures place { result ≡ position (λ b. not (is_blank b)) bytes.now }
    ensures within { IfSome result (λ n. n < length bytes.now) }
{
    bytes.iter().position(|byte| !is_blank(*byte))
}

fn first_blank(bytes: &[u8]) -> Option<usize>
    ensures place { result ≡ position is_blank bytes.now }
    ensures within { IfSome result (λ n. n < length bytes.now) }
{
    bytes.iter().position(|byte| is_blank(*byte))
}

fn first_behind_label_name(bytes: &[u8]) -> Option<usize>
    ensures place { result ≡ position (λ b. not (goes_on b)) bytes.now }
    ensures within { IfSome result (λ n. n < length bytes.now) }
{
    bytes.iter().position(|byte| !goes_on_label(*byte))
}

fn first_behind_metric_name(bytes: &[u8]) -> Option<usize>
    ensures place { result ≡ position (λ b. not (goes_on_metric b)) bytes.now }
    ensures within { IfSome result (λ n. n < length bytes.now) }
{
    bytes.iter().position(|byte| !goes_on_metric(*byte))
}

fn first_no_digit(bytes: &[u8]) -> Option<usize>
    ensures place { result ≡ position (λ b. not (is_ascii_digit b)) bytes.now }
    ensures within { IfSome result (λ n. n < length bytes.now) }
{
    bytes.iter().position(|byte| !byte.is_ascii_digit())
}

/// The bytes before a place and those from there on. All stand before none.
fn split_where(bytes: &[u8], place: Option<usize>) -> (&[u8], &[u8])
    requires { IfSome place (λ n. n < length bytes.now) }
    ensures front { result.0.now ≡ take (unwrap_or place (length bytes.now)) bytes.now }
    ensures behind { result.1.now ≡ drop (unwrap_or place (length bytes.now)) bytes.now }
{
    match place {
        Some(place) => bytes.split_at(place),
        None => bytes.split_at(bytes.len()),
    }
}

/// What stands behind the blanks in front.
pub fn past_blanks(bytes: &[u8]) -> &[u8]
    ensures { result.now ≡ past is_blank bytes.now }
{
    split_where(bytes, first_no_blank(bytes)).1
}

/// The bytes in front that are no blanks, and what stands behind them.
pub fn split_word(bytes: &[u8]) -> (&[u8], &[u8])
    ensures front { result.0.now ≡ front_of is_no_blank bytes.now }
    ensures behind { result.1.now ≡ past is_no_blank bytes.now }
{
    split_where(bytes, first_blank(bytes))
}

/// The letters, digits and `_` in front, and what stands behind them.
pub fn split_label_name(bytes: &[u8]) -> (&[u8], &[u8])
    ensures front { result.0.now ≡ front_of goes_on bytes.now }
    ensures behind { result.1.now ≡ past goes_on bytes.now }
{
    split_where(bytes, first_behind_label_name(bytes))
}

/// The letters, digits, `_` and `:` in front, and what stands behind them.
pub fn split_metric_name(bytes: &[u8]) -> (&[u8], &[u8])
    ensures front { result.0.now ≡ front_of goes_on_metric bytes.now }
    ensures behind { result.1.now ≡ past goes_on_metric bytes.now }
{
    split_where(bytes, first_behind_metric_name(bytes))
}

/// The digits in front, and what stands behind them.
pub fn split_digits(bytes: &[u8]) -> (&[u8], &[u8])
    ensures front { result.0.now ≡ front_of is_ascii_digit bytes.now }
    ensures behind { result.1.now ≡ past is_ascii_digit bytes.now }
    ensures all { list_all is_ascii_digit result.0.now ≡ true }
{
    split_where(bytes, first_no_digit(bytes))
}

/// Whether such a byte begins the bytes.
pub fn begins_with(byte: u8, bytes: &[u8]) -> bool
    ensures { result ≡ begins_with byte bytes.now }
{
    match bytes.split_first() {
        Some((first, _)) => *first == byte,
        None => false,
    }
}

/// Whether a blank begins the bytes.
pub fn begins_blank(bytes: &[u8]) -> bool
    ensures { result ≡ begins_blank bytes.now }
{
    match bytes.split_first() {
        Some((first, _)) => is_blank(*first),
        None => false,
    }
}

/// What stands behind such a byte that begins the bytes.
pub fn behind_byte(byte: u8, bytes: &[u8]) -> Result<&[u8], ReadFault>
    ensures { Reads (λ b. b.now) result (behind_byte byte bytes.now) }
{
    match bytes.split_first() {
        Some((first, behind)) if *first == byte => Ok(behind),
        _ => Err(ReadFault::Bad),
    }
}
