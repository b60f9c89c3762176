//! Words of a line, and numbers.

ghost use Rattle.std.specs.Prelude.{◌≡◌, ◌<◌, IfSome, length, not, position};
ghost use Rattle.std.specs.List.{list_all};
ghost use Rattle.pf_model.specs.Exposition.{is_blank, is_no_blank, is_word};
ghost use Rattle.pf_journal.specs.Scripts.{behind_word, next_word, number_of, past_blanks, trimmed_text, without_blanks};
ghost use Rattle.pf_script.specs.Cuts.{Finds};

/// The first number that is too large.
const TOO_LARGE: u64 = 1 << 63;

fn is_blank(byte: u8) -> bool
    ensures { result ≡ is_blank byte }
{
    byte == b' ' || byte == b'\t'
}

fn first_blank(bytes: &[u8]) -> Option<usize>
    ensures place { result ≡ position is_blank bytes.now }
    ensures within { IfSome result (λ n. n < length bytes.now) }
{
    bytes.iter().position(|byte| is_blank(*byte))
}

fn first_no_blank(bytes: &[u8]) -> Option<usize>
    ensures place { result ≡ position (λ b. not (is_blank b)) bytes.now }
    ensures within { IfSome result (λ n. n < length bytes.now) }
{
    bytes.iter().position(|byte| !is_blank(*byte))
}

/// What stands behind the blanks in front.
#[tactic(auto, using(crate::proofs::Blanks::past_rules))]
pub fn past_blanks(text: &str) -> &str
    ensures { result.now ≡ past_blanks text.now }
{
    match first_no_blank(text.as_bytes()) {
        Some(place) => &text[place..],
        None => "",
    }
}

/// A word with a blank or more behind it, and what stands behind the blanks.
#[tactic(auto, using(crate::proofs::Blanks::word_rules))]
pub fn next_word(text: &str) -> Option<(&str, &str)>
    ensures { Finds (λ c. record { front = c.0.now; behind = c.1.now }) result (next_word text.now) }
{
    let end = first_blank(text.as_bytes())?;
    if end == 0 {
        return None;
    }
    Some((&text[..end], past_blanks(&text[end..])))
}

/// What stands behind a word of its own.
#[tactic(auto, unfolding(pf_journal::specs::Scripts::behind_word))]
pub fn behind_word<'a>(word: &str, text: &'a str) -> Option<&'a str>
    ensures { Finds (λ t. t.now) result (behind_word word.now text.now) }
{
    let (front, behind) = next_word(text)?;
    if front == word { Some(behind) } else { None }
}

fn has_no_blank(bytes: &[u8]) -> bool
    ensures { result ≡ list_all is_no_blank bytes.now }
{
    bytes.iter().all(|byte| !is_blank(*byte))
}

/// Whether a text is one word and nothing else.
pub fn is_word(text: &str) -> bool
    ensures { result ≡ is_word text.now }
{
    !text.is_empty() && has_no_blank(text.as_bytes())
}

/// The bytes without the blanks at their end.
#[tactic(auto, using(crate::proofs::Blanks::end_rules))]
fn front_of(bytes: &[u8]) -> &[u8]
    ensures { result.now ≡ without_blanks bytes.now }
{
    let mut front = bytes;
    while let Some((last, before)) = front.split_last() {
        if !is_blank(*last) {
            return front;
        }
        front = before;
    }
    front
}

/// A text without the blanks at its end.
pub fn without_blanks(text: &str) -> &str
    ensures { result.now ≡ without_blanks text.now }
{
    let length = front_of(text.as_bytes()).len();
    &text[..length]
}

/// A text without the blanks at its end, where anything else stands in it.
#[tactic(auto, using(crate::proofs::Blanks::text_rules))]
pub fn text_of(text: &str) -> Option<&str>
    ensures { Finds (λ t. t.now) result (trimmed_text text.now) }
{
    let text = without_blanks(text);
    if text.is_empty() { None } else { Some(text) }
}

/// The number of one decimal digit or more, below 2^63.
#[tactic(auto, unfolding(pf_journal::specs::Scripts::number_of))]
pub fn number_of(digits: &[u8]) -> Option<u64>
    ensures { result ≡ number_of digits.now }
{
    if digits.is_empty() {
        return None;
    }
    let mut number: u64 = 0;
    for digit in digits {
        if !digit.is_ascii_digit() {
            return None;
        }
        number = number.checked_mul(10)?.checked_add((*digit - b'0') as u64)?;
    }
    if number < TOO_LARGE {
        Some(number)
    } else {
        None
    }
}
