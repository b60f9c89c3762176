//! Words.

ghost use Rattle.std.specs.Prelude.{◌≡◌, true, false, pos};
ghost use Rattle.std.specs.Str.{str_eq_ignore_ascii_case};
ghost use Rattle.pf_base.specs.Limits.{greatest_value};
ghost use Rattle.pf_model.specs.FirstBytes.{begins_word, first_passes};
ghost use Rattle.pf_lex.specs.Scans.{Finds};

use crate::spans::word_len;
use crate::token::TokenSort;
use pf_base::Value;

/// The greatest value, in micros.
const GREATEST: i128 = 1_000_000_000_000_000_000;

#[tactic(auto, unfolding(pf_base::specs::Arithmetic::clamp))]
fn greatest() -> Value
    ensures { result ≡ greatest_value }
{
    Value::new(GREATEST)
}

fn is_same(word: &[u8], other: &[u8]) -> bool
    ensures { result ≡ str_eq_ignore_ascii_case word.now other.now }
{
    word.eq_ignore_ascii_case(other)
}

/// A word in front, outside square brackets. The word `inf` is a number, and `nan` is none.
pub fn word_in_front(bytes: &[u8]) -> Option<(TokenSort, usize)>
    requires { first_passes begins_word bytes.now ≡ true }
    ensures { Finds false bytes.now result }
{
    let len = word_len(bytes);
    let (word, _) = bytes.split_at(len);
    if is_same(word, b"nan") {
        None
    } else if is_same(word, b"inf") {
        Some((TokenSort::Number(greatest()), len))
    } else {
        Some((TokenSort::Word, len))
    }
}
