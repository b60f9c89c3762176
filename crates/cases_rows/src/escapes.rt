//! The escapes of case files.
//!
//! `\n`, `\r` and `\t` are a line feed, a carriage return and a tab, `\s` is a blank, `\e` is nothing, `\xHH` is the byte of
//! this hexadecimal number, and `\\` is a backslash. `{{COUNT*TEXT}}` is the text so many times, and in it `\#` is the number
//! of the copy from 0, and `\+` from 1.

use crate::output::Output;

/// The most copies of a text.
const MOST_COPIES: u64 = 100_000_000;

/// Appends the byte of two hexadecimal digits, and what is behind them.
fn push_byte(out: &mut Output, text: &str) {
    let (digits, behind) = text.split_at_checked(2).unwrap_or(("", ""));
    match u8::from_str_radix(digits, 16) {
        Ok(byte) => out.bytes(&[byte]),
        Err(_) => out.refuse(),
    }
    out.text(behind);
}

/// Appends what the escape of a letter stands for.
fn push_letter(out: &mut Output, letter: char) {
    match letter {
        'n' => out.text("\n"),
        'r' => out.text("\r"),
        't' => out.text("\t"),
        's' => out.text(" "),
        'e' => {}
        _ => out.refuse(),
    }
}

/// Appends what stands behind a backslash.
fn push_escape(out: &mut Output, text: &str, copy: u64) {
    let mut characters = text.chars();
    match characters.next() {
        Some('x') => return push_byte(out, characters.as_str()),
        Some('#') => out.show(copy),
        Some('+') => out.show(copy.saturating_add(1)),
        Some(letter) => push_letter(out, letter),
        None => out.refuse(),
    }
    out.text(characters.as_str());
}

/// Appends a text without copies, its escapes undone.
fn push_plain(out: &mut Output, text: &str, copy: u64) {
    // Between two backslashes nothing stands: the two are one.
    let mut is_literal = true;
    for piece in text.split('\\') {
        if is_literal {
            out.text(piece);
            is_literal = false;
        } else if piece.is_empty() {
            out.text("\\");
            is_literal = true;
        } else {
            push_escape(out, piece, copy);
        }
    }
    if is_literal {
        out.refuse();
    }
}

/// Appends the copies of a text, and what is behind them.
fn push_copies(out: &mut Output, text: &str) {
    let Some((copies, behind)) = text.split_once("}}") else {
        return out.refuse();
    };
    let Some((count, copied)) = copies.split_once('*') else {
        return out.refuse();
    };
    let count = out.number::<u64>(count).min(MOST_COPIES);
    for copy in 0..count {
        push_plain(out, copied, copy);
    }
    push_plain(out, behind, 0);
}

/// Appends the bytes that a text of a case file stands for.
pub fn push_unescaped(out: &mut Output, text: &str) {
    let mut is_first = true;
    for piece in text.split("{{") {
        if is_first {
            push_plain(out, piece, 0);
            is_first = false;
        } else {
            push_copies(out, piece);
        }
    }
}

/// The most bytes of a text that are shown.
const MOST_SHOWN: usize = 400;

fn push_shown_byte(out: &mut Output, byte: u8) {
    match byte {
        b'\n' => out.text("\\n"),
        b'\r' => out.text("\\r"),
        b'\t' => out.text("\\t"),
        b'\\' => out.text("\\\\"),
        b' '..=b'~' => out.bytes(&[byte]),
        _ => out.show(format_args!("\\x{byte:02x}")),
    }
}

/// Appends bytes as a text of one line, cut where they are many.
pub fn push_shown(out: &mut Output, bytes: &[u8]) {
    for byte in bytes.iter().take(MOST_SHOWN) {
        push_shown_byte(out, *byte);
    }
    if bytes.len() > MOST_SHOWN {
        let count = bytes.len();
        out.show(format_args!(".. of {count} bytes"));
    }
}
