//! Lines of words.

ghost use Rattle.std.specs.Prelude.{◌≡◌, ◌<◌, [], ◌∷◌, ◌++◌, length, map, OnOk, take, vec_len};
ghost use Rattle.pf_base.specs.NumberTexts.{value_text};
ghost use Rattle.pf_journal.specs.Replies.{line_text};
ghost use Rattle.pf_report.specs.Words.{word_text, words_behind, words_joined};

use crate::json_text::push_number;
use pf_base::{OutOfMemory, Value, push_value};

/// A word of a line: a text, or a number in decimal.
#[derive(Clone, Copy)]
pub enum Word<'a> {
    Text(&'a str),
    Number(u64),
}

fn push_word(out: &mut Vec<u8>, word: Word<'_>) -> Result<(), OutOfMemory>
    ensures ok { OnOk result (out.new.items ≡ out.old.items ++ word_text word.entry) }
    ensures kept { take (vec_len out.old) out.new.items ≡ out.old.items }
{
    match word {
        Word::Text(text) => {
            out.extend_from_slice(text.as_bytes())?;
            Ok(())
        }
        Word::Number(number) => push_number(out, number),
    }
}

fn push_next_word(out: &mut Vec<u8>, word: Word<'_>) -> Result<(), OutOfMemory>
    ensures ok { OnOk result (out.new.items ≡ out.old.items ++ 32 ∷ word_text word.entry) }
    ensures kept { take (vec_len out.old) out.new.items ≡ out.old.items }
{
    out.push(b' ')?;
    push_word(out, word)
}

/// Appends words, each behind a blank.
fn push_more_words(out: &mut Vec<u8>, words: &[Word<'_>]) -> Result<(), OutOfMemory>
    ensures ok { OnOk result (out.new.items ≡ out.old.items ++ words_behind (map word_text words.now)) }
    ensures kept { take (vec_len out.old) out.new.items ≡ out.old.items }
{
    for word in words {
        push_next_word(out, *word)?;
    }
    Ok(())
}

fn push_words(out: &mut Vec<u8>, words: &[Word<'_>]) -> Result<(), OutOfMemory>
    ensures ok { OnOk result (out.new.items ≡ out.old.items ++ words_joined (map word_text words.now)) }
    ensures kept { take (vec_len out.old) out.new.items ≡ out.old.items }
{
    let Some((first, others)) = words.split_first() else {
        return Ok(());
    };
    push_word(out, *first)?;
    push_more_words(out, others)
}

/// Appends a line: words with one blank between them, and a line feed.
#[tactic(auto, using(crate::proofs::Lines::line_after))]
pub fn push_line(out: &mut Vec<u8>, words: &[Word<'_>]) -> Result<(), OutOfMemory>
    ensures ok { OnOk result (out.new.items ≡ out.old.items ++ line_text (map word_text words.now)) }
    ensures kept { take (vec_len out.old) out.new.items ≡ out.old.items }
{
    push_words(out, words)?;
    out.push(b'\n')?;
    Ok(())
}

/// Appends a line of first words and further ones.
#[tactic(auto, using(crate::proofs::Lines::line_after_both))]
pub fn push_line_of(
    out: &mut Vec<u8>,
    first: &[Word<'_>],
    further: &[Word<'_>],
) -> Result<(), OutOfMemory>
    requires { 0 < length first.now }
    ensures ok { OnOk result (out.new.items ≡ out.old.items ++ line_text (map word_text first.now ++ map word_text further.now)) }
    ensures kept { take (vec_len out.old) out.new.items ≡ out.old.items }
{
    push_words(out, first)?;
    push_more_words(out, further)?;
    out.push(b'\n')?;
    Ok(())
}

fn push_next_value(out: &mut Vec<u8>, value: Value) -> Result<(), OutOfMemory>
    ensures ok { OnOk result (out.new.items ≡ out.old.items ++ 32 ∷ value_text value) }
    ensures kept { take (vec_len out.old) out.new.items ≡ out.old.items }
{
    out.push(b' ')?;
    push_value(out, value)
}

/// Appends a line of words and a value.
#[tactic(auto, using(crate::proofs::Lines::line_with_last))]
pub fn push_line_with_value(
    out: &mut Vec<u8>,
    words: &[Word<'_>],
    value: Value,
) -> Result<(), OutOfMemory>
    requires { 0 < length words.now }
    ensures ok { OnOk result (out.new.items ≡ out.old.items ++ line_text (map word_text words.now ++ value_text value ∷ [])) }
    ensures kept { take (vec_len out.old) out.new.items ≡ out.old.items }
{
    push_words(out, words)?;
    push_next_value(out, value)?;
    out.push(b'\n')?;
    Ok(())
}
