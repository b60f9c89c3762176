//! The words that the program is called with.

ghost use Rattle.std.specs.Prelude.{◌≡◌, option_map};
ghost use Rattle.pf_top.specs.Commands.{command_of};
ghost use Rattle.pf_top.specs.Words.{evaluation_words, limits_with, load_words, replay_words, seed_of, with_times};
ghost use Rattle.pf_top.specs.WordSteps.{command_in, evaluation_in, replay_in};

use crate::options::{is_dashed, replay_behind};
use pf_base::{Limits, Text};
use pf_script::number_of;

/// A script to be replayed, and the limits that are chosen. The window and the interval are in milliseconds.
#[derive(Clone, Copy)]
pub struct Replay<'a> {
    pub limit: Option<u32>,
    pub window: Option<u64>,
    pub interval: Option<u64>,
    pub shards: Option<u32>,
    pub extents: Option<u32>,
    pub journal: Option<u64>,
    pub script: &'a str,
}

/// The replay in the words `replay [options] SCRIPT`.
fn replay_words(words: &[Text]) -> Option<Replay<'_>>
    ensures { option_map replay_in result ≡ replay_words words.now }
{
    let (command, words) = words.split_first()?;
    if command.as_str() == "replay" {
        replay_behind(words)
    } else {
        None
    }
}

/// The limits that a replay chooses, and these where it chooses none.
pub fn limits_with(limits: Limits, replay: &Replay<'_>) -> Limits
    ensures { result ≡ limits_with limits (replay_in replay.now) }
{
    Limits {
        outstanding: replay.limit.unwrap_or(limits.outstanding),
        window: replay.window.unwrap_or(limits.window),
        interval: replay.interval.unwrap_or(limits.interval),
        shards: replay.shards.unwrap_or(limits.shards),
        extents: replay.extents.unwrap_or(limits.extents),
        journal: replay.journal.unwrap_or(limits.journal),
    }
}

/// A query over a file, from a start to an end by a step in milliseconds.
#[derive(Clone, Copy)]
pub struct Evaluation<'a> {
    pub file: &'a str,
    pub query: &'a str,
    pub start: u64,
    pub end: u64,
    pub step: u64,
}

fn with_times<'a>(
    file: &'a str,
    query: &'a str,
    start: Option<u64>,
    end: Option<u64>,
    step: Option<u64>,
) -> Option<Evaluation<'a>>
    ensures { option_map evaluation_in result ≡ with_times file.now query.now start end step }
{
    let (Some(start), Some(end), Some(step)) = (start, end, step) else {
        return None;
    };
    Some(Evaluation {
        file,
        query,
        start,
        end,
        step,
    })
}

/// The evaluation in the words `eval FILE QUERY START END STEP`, where neither FILE nor QUERY begins with `-`.
fn evaluation_words(words: &[Text]) -> Option<Evaluation<'_>>
    ensures { option_map evaluation_in result ≡ evaluation_words words.now }
{
    let [command, file, query, start, end, step] = words else {
        return None;
    };
    if command.as_str() == "eval"
        && !is_dashed(file.as_str().as_bytes())
        && !is_dashed(query.as_str().as_bytes())
    {
        with_times(
            file.as_str(),
            query.as_str(),
            number_of(start.as_str().as_bytes()),
            number_of(end.as_str().as_bytes()),
            number_of(step.as_str().as_bytes()),
        )
    } else {
        None
    }
}

/// The number of one decimal digit or more, below 2^64.
#[tactic(auto, unfolding(crate::specs::Words::seed_of))]
fn seed_of(digits: &[u8]) -> Option<u64>
    ensures { result ≡ seed_of digits.now }
{
    if digits.is_empty() {
        return None;
    }
    let mut number: u64 = 0;
    for digit in digits {
        if !digit.is_ascii_digit() {
            return None;
        }
        number = number.checked_mul(10)?.checked_add((*digit - b'0') as u64)?;
    }
    Some(number)
}

/// The seed in the words `load SEED`.
fn load_words(words: &[Text]) -> Option<u64>
    ensures { result ≡ load_words words.now }
{
    let [command, seed] = words else {
        return None;
    };
    if command.as_str() == "load" {
        seed_of(seed.as_str().as_bytes())
    } else {
        None
    }
}

/// What the words ask for.
#[derive(Clone, Copy)]
pub enum Command<'a> {
    Replay(Replay<'a>),
    Evaluate(Evaluation<'a>),
    Load(u64),
}

/// The command that the words name, where it is built.
pub fn command_of(words: &[Text]) -> Option<Command<'_>>
    ensures { option_map command_in result ≡ command_of words.now }
{
    if let Some(replay) = replay_words(words) {
        return Some(Command::Replay(replay));
    }
    if let Some(named) = evaluation_words(words) {
        return Some(Command::Evaluate(named));
    }
    let seed = load_words(words)?;
    Some(Command::Load(seed))
}
