//! Rows of the lines of reports, each with the text that is appended.

use cases_rows::output::Output;
use pf_report::{Word, push_actors, push_client, push_journal_head, push_line};

/// What stands before the text that is appended.
const BEFORE: &[u8] = b"before\n";

/// What stands for no words.
const NO_WORDS: &str = "none";

/// Writes what is found of a row, and says whether its form is one of these.
pub fn answer(out: &mut Output, form: &str, given: &str) -> bool {
    let mut line = Vec::new(out.alloc());
    if line.extend_from_slice(BEFORE).is_err() {
        out.lose();
    }
    if !push(out, form, &mut line, given) {
        return false;
    }
    match line.strip_prefix(BEFORE) {
        Some(behind) => out.bytes(behind),
        None => out.text("what stood before is lost"),
    }
    true
}

/// Appends what is found to a line, behind what stands there, and says whether the form is one of these.
fn push(out: &mut Output, form: &str, line: &mut Vec<u8>, given: &str) -> bool {
    let pushed = match form {
        // Words with `|` between them, where those of digits alone are numbers; `none` is no words.
        "words" => push_line(line, &words_of(out, given)),
        // `CLIENT`.
        "client" => push_client(line, out.number(given)),
        // `ENTRIES`.
        "journal head" => push_journal_head(line, out.number(given)),
        // The numbers of tries of the actors.
        "actors" => push_actors(line, &numbers_of(out, given)),
        _ => return false,
    };
    if pushed.is_err() {
        out.lose();
    }
    true
}

/// A number, where it is one of digits alone, or a text.
fn word_of(word: &str) -> Word<'_> {
    match word.parse::<u64>() {
        Ok(number) => Word::Number(number),
        Err(_) => Word::Text(word),
    }
}

/// The words of a line.
fn words_of<'a>(out: &mut Output, text: &'a str) -> Vec<Word<'a>> {
    let mut words = Vec::new(out.alloc());
    if text != NO_WORDS {
        for word in text.split('|') {
            out.push(&mut words, word_of(word));
        }
    }
    words
}

fn numbers_of(out: &mut Output, text: &str) -> Vec<u64> {
    let mut numbers = Vec::new(out.alloc());
    for word in text.split_ascii_whitespace() {
        let number = out.number(word);
        out.push(&mut numbers, number);
    }
    numbers
}
