//! The scans of a query's tokens for brackets, names and times.

ghost use Rattle.std.specs.Prelude.{◌≡◌, ◌≤◌, ◌&&◌, false, length, not};
ghost use Rattle.std.specs.List.{All};
ghost use Rattle.pf_model.specs.Parsing.{most_bytes};
ghost use Rattle.pf_lex.specs.Seen.{IsTokenOf};
ghost use Rattle.pf_parse.specs.Scans.{begins_open, closes, deep_at, is_at, is_behind_at, is_deep, is_front, is_late, is_lost, is_open, is_word, late_at, lost_at, names_nothing, open_behind, opens, place_at};

use crate::words::{function_of, keyword_of};
use pf_base::MAXT;
use pf_lex::{Mark, Token, TokenSort, token_text};

/// The most brackets that are open at once.
const MOST_OPEN: u64 = 64;

fn opens(sort: &TokenSort) -> bool
    ensures { result ≡ opens sort.now }
{
    matches!(
        sort,
        TokenSort::Mark(Mark::Open | Mark::OpenSquare | Mark::OpenBrace)
    )
}

fn closes(sort: &TokenSort) -> bool
    ensures { result ≡ closes sort.now }
{
    matches!(
        sort,
        TokenSort::Mark(Mark::Close | Mark::CloseSquare | Mark::CloseBrace)
    )
}

fn is_deep(count: u64, sort: &TokenSort) -> bool
    ensures { result ≡ is_deep count sort.now }
{
    opens(sort) && MOST_OPEN <= count
}

/// A closing bracket of any kind closes the last open one, and none where none is open.
fn open_behind(count: u64, sort: &TokenSort) -> u64
    requires { count ≤ 64 }
    ensures { result ≡ open_behind count sort.now }
{
    if opens(sort) {
        count + 1
    } else if closes(sort) {
        count.saturating_sub(1)
    } else {
        count
    }
}

/// The place of the first opening bracket with 64 open before it.
#[tactic(auto, using(crate::proofs::Scanning::deep_found, crate::proofs::Scanning::deep_passed, crate::proofs::Scanning::deep_bound))]
pub fn too_deep_at(tokens: &[Token]) -> Option<u32>
    ensures { result ≡ deep_at 0 tokens.now }
{
    let mut count = 0;
    for token in tokens {
        if is_deep(count, &token.sort) {
            return Some(token.from);
        }
        count = open_behind(count, &token.sort);
    }
    None
}

fn names_nothing(word: &str) -> bool
    ensures { result ≡ names_nothing word.now }
{
    keyword_of(word).is_none() && function_of(word).is_none()
}

fn begins_open(tokens: &[Token]) -> bool
    ensures { result ≡ begins_open tokens.now }
{
    match tokens.first() {
        Some(token) => token.sort == TokenSort::Mark(Mark::Open),
        None => false,
    }
}

fn is_word(sort: &TokenSort) -> bool
    ensures { result ≡ is_word sort.now }
{
    matches!(sort, TokenSort::Word)
}

/// A word before `(` that is no keyword and no function's name, and not behind `@`.
fn is_lost(behind_at: bool, text: &str, token: &Token, behind: &[Token]) -> bool
    requires { IsTokenOf text.now token.now }
    ensures { result ≡ (not behind_at && is_lost text.now token.now behind.now) }
{
    !behind_at
        && is_word(&token.sort)
        && begins_open(behind)
        && names_nothing(token_text(text, token))
}

fn is_at(sort: &TokenSort) -> bool
    ensures { result ≡ is_at sort.now }
{
    matches!(sort, TokenSort::Mark(Mark::At))
}

/// The place of the first called name that is no function.
pub fn unknown_at(text: &str, tokens: &[Token]) -> Option<u32>
    requires { All (IsTokenOf text.now) tokens.now }
    ensures { result ≡ lost_at text.now false tokens.now }
{
    let mut behind_at = false;
    for (i, token) in tokens.iter().enumerate() {
        if is_lost(behind_at, text, token, &tokens[i + 1..]) {
            return Some(token.from);
        }
        behind_at = is_at(&token.sort);
    }
    None
}

fn is_late(behind_at: bool, sort: &TokenSort) -> bool
    ensures { result ≡ is_late behind_at sort.now }
{
    match sort {
        TokenSort::Number(value) => behind_at && value.micros().unsigned_abs() / 1000 > MAXT,
        TokenSort::Duration(millis) => millis.is_none(),
        _ => false,
    }
}

fn is_front(sort: &TokenSort) -> bool
    ensures { result ≡ is_front sort.now }
{
    matches!(sort, TokenSort::Mark(Mark::Plus | Mark::Minus))
}

/// A number is that of an `@` behind it, or behind it and a sign.
fn is_behind_at(behind_at: bool, sort: &TokenSort) -> bool
    ensures { result ≡ is_behind_at behind_at sort.now }
{
    is_at(sort) || (behind_at && is_front(sort))
}

/// The place of the first duration, or number behind `@`, past the greatest time.
#[tactic(auto, using(crate::proofs::Scanning::late_found, crate::proofs::Scanning::late_passed))]
pub fn too_large_at(tokens: &[Token]) -> Option<u32>
    ensures { result ≡ late_at false tokens.now }
{
    let mut behind_at = false;
    for token in tokens {
        if is_late(behind_at, &token.sort) {
            return Some(token.from);
        }
        behind_at = is_behind_at(behind_at, &token.sort);
    }
    None
}

/// The place of the token with this number, or of the text's end.
#[tactic(auto, using(crate::proofs::Scanning::place_within, crate::proofs::Scanning::place_behind))]
pub fn place_at(text: &str, tokens: &[Token], number: usize) -> u32
    requires { length text.now ≤ most_bytes }
    ensures { result ≡ place_at text.now tokens.now number }
{
    if number < tokens.len() {
        tokens[number].from
    } else {
        text.len() as u32
    }
}
