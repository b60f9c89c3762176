//! What separates tokens, and words.

ghost use Rattle.std.specs.Prelude.{◌≡◌, ◌≤◌, false, length};
ghost use Rattle.std.specs.List.{prefix_len};
ghost use Rattle.pf_base.specs.LabelSets.{goes_on};
ghost use Rattle.pf_model.specs.Tokens.{has_letter, is_blank, separators};
ghost use Rattle.pf_lex.specs.Scans.{is_word_byte};

fn is_blank(byte: u8) -> bool
    ensures { result ≡ is_blank byte }
{
    byte == b' ' || byte == b'\t' || byte == b'\r' || byte == b'\n'
}

/// Whether a byte is a letter, a digit or `_`.
fn goes_on(byte: u8) -> bool
    ensures { result ≡ goes_on byte }
{
    byte.is_ascii_alphanumeric() || byte == b'_'
}

/// Whether a letter, a digit or `_` stands in front.
pub fn has_letter(bytes: &[u8]) -> bool
    ensures { result ≡ has_letter bytes.now }
{
    match bytes.first() {
        Some(byte) => goes_on(*byte),
        None => false,
    }
}

/// The number of bytes in front that separate tokens: blanks, ends of lines, and comments from `#` to the line's end.
pub fn separators_len(bytes: &[u8]) -> usize
    ensures len { result ≡ separators false bytes.now }
    ensures within { result ≤ length bytes.now }
{
    let mut in_comment = false;
    for (i, byte) in bytes.iter().enumerate() {
        if !in_comment && !is_blank(*byte) && *byte != b'#' {
            return i;
        }
        in_comment = *byte != b'\n' && (in_comment || *byte == b'#');
    }
    bytes.len()
}

/// Whether a byte is a letter, a digit, `_` or `:`.
fn is_word_byte(byte: u8) -> bool
    ensures { result ≡ is_word_byte byte }
{
    goes_on(byte) || byte == b':'
}

/// The number of letters, digits, `_` and `:` in front.
pub fn word_len(bytes: &[u8]) -> usize
    ensures len { result ≡ prefix_len is_word_byte bytes.now }
    ensures within { result ≤ length bytes.now }
{
    for (i, byte) in bytes.iter().enumerate() {
        if !is_word_byte(*byte) {
            return i;
        }
    }
    bytes.len()
}

/// The number of letters, digits and `_` in front.
pub fn letters_len(bytes: &[u8]) -> usize
    ensures len { result ≡ prefix_len goes_on bytes.now }
    ensures within { result ≤ length bytes.now }
{
    for (i, byte) in bytes.iter().enumerate() {
        if !goes_on(*byte) {
            return i;
        }
    }
    bytes.len()
}
