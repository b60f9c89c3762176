//! The options among the words of a replay.

ghost use Rattle.std.specs.Prelude.{◌≡◌, ◌<◌, ◌≤◌, IfSome, length, nat_eq, option_map, position};
ghost use Rattle.std.specs.Result.{result_ok};
ghost use Rattle.pf_base.specs.DurationScans.{duration_of};
ghost use Rattle.pf_top.specs.Words.{cut_at_equals, duration_from, is_dashed, number_within, option_name, option_word, replay_behind, word_of};
ghost use Rattle.pf_top.specs.WordSteps.{any, behind_dash, given_in, name_in, next_in, nothing_given, once, read_all, replay_by, replay_in, state_in, step, with_option, with_script, word_in};

use crate::words::Replay;
use pf_base::{Text, read_duration};
use pf_script::number_of;

/// An option.
#[derive(Clone, Copy)]
enum Name {
    Limit,
    Window,
    Interval,
    Shards,
    Extents,
    Journal,
}

/// A word where an option may stand.
#[derive(Clone, Copy)]
enum Word<'a> {
    /// It doesn't begin with `-`, or is `-` alone.
    Plain,
    /// `--`, behind which no word is an option.
    LastDashes,
    /// `--NAME`, whose value is the next word.
    Named(Name),
    /// `--NAME=VALUE`.
    Valued(Name, &'a [u8]),
}

/// What the next word may be.
#[derive(Clone, Copy)]
enum Next {
    Any,
    /// The value of this option.
    ValueOf(Name),
    /// No option.
    Other,
}

/// What the words so far choose. The window and the interval are in milliseconds.
#[derive(Clone, Copy)]
struct Given<'a> {
    limit: Option<u32>,
    window: Option<u64>,
    interval: Option<u64>,
    shards: Option<u32>,
    extents: Option<u32>,
    journal: Option<u64>,
    script: Option<&'a str>,
}

/// What stands behind a `-` in front.
fn behind_dash(word: &[u8]) -> Option<&[u8]>
    ensures { option_map (λ s. s.now) result ≡ behind_dash word.now }
{
    let (first, behind) = word.split_first()?;
    if *first == b'-' { Some(behind) } else { None }
}

pub fn is_dashed(word: &[u8]) -> bool
    ensures { result ≡ is_dashed word.now }
{
    match word.split_first() {
        Some((first, _)) => *first == b'-',
        None => false,
    }
}

fn option_name(text: &[u8]) -> Option<Name>
    ensures { option_map name_in result ≡ option_name text.now }
{
    if text == b"limit".as_slice() {
        Some(Name::Limit)
    } else if text == b"window".as_slice() {
        Some(Name::Window)
    } else if text == b"interval".as_slice() {
        Some(Name::Interval)
    } else if text == b"shards".as_slice() {
        Some(Name::Shards)
    } else if text == b"extents".as_slice() {
        Some(Name::Extents)
    } else if text == b"journal".as_slice() {
        Some(Name::Journal)
    } else {
        None
    }
}

fn first_equals(text: &[u8]) -> Option<usize>
    ensures place { result ≡ position (λ b. nat_eq b 61) text.now }
    ensures within { IfSome result (λ n. n < length text.now) }
{
    text.iter().position(|byte| *byte == b'=')
}

/// The bytes up to the first `=`, and those behind it.
fn cut_at_equals(text: &[u8]) -> Option<(&[u8], &[u8])>
    ensures { option_map (λ c. record { front = c.0.now; behind = c.1.now }) result ≡ cut_at_equals text.now }
{
    let place = first_equals(text)?;
    Some((&text[..place], &text[place + 1..]))
}

/// An option, by what stands behind `--`.
fn option_word(text: &[u8]) -> Option<Word<'_>>
    ensures { option_map word_in result ≡ option_word text.now (cut_at_equals text.now) }
{
    match cut_at_equals(text) {
        Some((name, value)) => Some(Word::Valued(option_name(name)?, value)),
        None => Some(Word::Named(option_name(text)?)),
    }
}

fn word_of(word: &[u8]) -> Option<Word<'_>>
    ensures { option_map word_in result ≡ word_of word.now }
{
    let Some(behind) = behind_dash(word) else {
        return Some(Word::Plain);
    };
    if behind.is_empty() {
        return Some(Word::Plain);
    }
    let text = behind_dash(behind)?;
    if text.is_empty() {
        Some(Word::LastDashes)
    } else {
        option_word(text)
    }
}

/// A number from a least to a greatest.
fn number_within(value: &[u8], least: u64, most: u64) -> Option<u64>
    ensures value { result ≡ number_within least most value.now }
    ensures within { IfSome result (λ n. (least ≤ n) × (n ≤ most)) }
{
    let number = number_of(value)?;
    if least <= number && number <= most {
        Some(number)
    } else {
        None
    }
}

fn limit_of(value: &[u8]) -> Option<u32>
    ensures { result ≡ number_within 1 10000 value.now }
{
    let number = number_within(value, 1, 10_000)?;
    Some(number as u32)
}

fn shards_of(value: &[u8]) -> Option<u32>
    ensures { result ≡ number_within 1 64 value.now }
{
    let number = number_within(value, 1, 64)?;
    Some(number as u32)
}

fn extents_of(value: &[u8]) -> Option<u32>
    ensures { result ≡ number_within 1 4096 value.now }
{
    let number = number_within(value, 1, 4096)?;
    Some(number as u32)
}

fn millis_of(value: &[u8]) -> Option<u64>
    ensures { result ≡ result_ok (duration_of value.now) }
{
    read_duration(value).ok()
}

/// A duration of so many milliseconds or more.
fn duration_from(value: &[u8], least: u64) -> Option<u64>
    ensures { result ≡ duration_from least value.now }
{
    let millis = millis_of(value)?;
    if least <= millis { Some(millis) } else { None }
}

/// What may stand once.
fn once<X: Copy>(before: Option<X>, now: Option<X>) -> Option<X>
    ensures { result ≡ once before now }
{
    match before {
        None => now,
        Some(_) => None,
    }
}

impl<'a> Given<'a> {
    fn with_option(self, name: Name, value: &[u8]) -> Option<Given<'a>>
        ensures { option_map given_in result ≡ with_option (given_in self.entry) (name_in name) value.now }
    {
        let mut given = self;
        match name {
            Name::Limit => given.limit = Some(once(self.limit, limit_of(value))?),
            Name::Window => given.window = Some(once(self.window, duration_from(value, 0))?),
            Name::Interval => given.interval = Some(once(
                self.interval,
                duration_from(value, 1000),
            )?),
            Name::Shards => given.shards = Some(once(self.shards, shards_of(value))?),
            Name::Extents => given.extents = Some(once(self.extents, extents_of(value))?),
            Name::Journal => {
                given.journal = Some(once(self.journal, number_within(value, 1, 4_000_000))?)
            }
        }
        Some(given)
    }

    fn with_script(self, word: &'a str) -> Option<Given<'a>>
        ensures { option_map given_in result ≡ with_script (given_in self.entry) word.now }
    {
        match self.script {
            None => Some(Given {
                script: Some(word),
                ..self
            }),
            Some(_) => None,
        }
    }

    /// With a word that may be an option.
    fn with_word(self, word: &'a str) -> Option<(Given<'a>, Next)>
        ensures { option_map state_in result ≡ step (given_in self.entry) any word.now }
    {
        match word_of(word.as_bytes())? {
            Word::Plain => Some((self.with_script(word)?, Next::Any)),
            Word::LastDashes => Some((self, Next::Other)),
            Word::Named(name) => Some((self, Next::ValueOf(name))),
            Word::Valued(name, value) => Some((self.with_option(name, value)?, Next::Any)),
        }
    }

    fn with(self, next: Next, word: &'a str) -> Option<(Given<'a>, Next)>
        ensures { option_map state_in result ≡ step (given_in self.entry) (next_in next) word.now }
    {
        match next {
            Next::Any => self.with_word(word),
            Next::ValueOf(name) => {
                if is_dashed(word.as_bytes()) {
                    return None;
                }
                Some((self.with_option(name, word.as_bytes())?, Next::Any))
            }
            Next::Other => Some((self.with_script(word)?, Next::Other)),
        }
    }

    /// The replay, where no option waits for its value.
    fn replay(self, next: Next) -> Option<Replay<'a>>
        ensures { option_map replay_in result ≡ replay_by (given_in self.entry) (given_in self.entry).script (next_in next) }
    {
        if let Next::ValueOf(_) = next {
            return None;
        }
        Some(Replay {
            limit: self.limit,
            window: self.window,
            interval: self.interval,
            shards: self.shards,
            extents: self.extents,
            journal: self.journal,
            script: self.script?,
        })
    }
}

fn read_all(words: &[Text]) -> Option<(Given<'_>, Next)>
    ensures { option_map state_in result ≡ read_all nothing_given any words.now }
{
    let mut given = Given {
        limit: None,
        window: None,
        interval: None,
        shards: None,
        extents: None,
        journal: None,
        script: None,
    };
    let mut next = Next::Any;
    for word in words {
        (given, next) = given.with(next, word.as_str())?;
    }
    Some((given, next))
}

/// The replay that the words behind the command name.
pub fn replay_behind(words: &[Text]) -> Option<Replay<'_>>
    ensures { option_map replay_in result ≡ replay_behind words.now }
{
    let (given, next) = read_all(words)?;
    given.replay(next)
}
