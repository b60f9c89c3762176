//! Names and labels of a sample line.

ghost use Rattle.std.specs.Prelude.{◌≡◌, false};
ghost use Rattle.std.specs.Str.{is_utf8};
ghost use Rattle.pf_expo.specs.Readings.{Reads};
ghost use Rattle.pf_expo.specs.Scans.{all_labels, behind_label, braces_at, kept, label_at, label_name_at, metric_name_at, middle_at, quoted_at, quoted_from, step_of, series_at, with_pairs};

use crate::fault::ReadFault;
use crate::spans::{
    begins_blank, begins_label_name, begins_metric_name, begins_with, behind_byte, past_blanks,
    split_label_name, split_metric_name,
};
use pf_base::Text;
use std::alloc::Global;

/// The label whose value is the metric name.
const METRIC_NAME: &str = "__name__";

/// The bytes as a text.
fn text_of(alloc: Global, bytes: &[u8]) -> Result<Text, ReadFault>
    ensures { Reads (λ t. t) result (kept (is_utf8 bytes.now) bytes.now) }
{
    match std::str::from_utf8(bytes) {
        Ok(text) => Ok(Text::of(alloc, text)?),
        Err(_) => Err(ReadFault::Bad),
    }
}

/// A metric name in front of bytes, and what stands behind it.
#[tactic(auto, using(crate::proofs::Words::metric_rules))]
fn metric_name_at(alloc: Global, bytes: &[u8]) -> Result<(Text, &[u8]), ReadFault>
    ensures { Reads (λ x. (x.0, x.1.now)) result (metric_name_at bytes.now) }
{
    if !begins_metric_name(bytes) {
        return Err(ReadFault::Bad);
    }
    let (name, behind) = split_metric_name(bytes);
    let name = text_of(alloc, name)?;
    Ok((name, behind))
}

#[tactic(auto, using(crate::proofs::Words::label_rules))]
fn label_name_at(alloc: Global, bytes: &[u8]) -> Result<(Text, &[u8]), ReadFault>
    ensures { Reads (λ x. (x.0, x.1.now)) result (label_name_at bytes.now) }
{
    if !begins_label_name(bytes) {
        return Err(ReadFault::Bad);
    }
    let (name, behind) = split_label_name(bytes);
    let name = text_of(alloc, name)?;
    Ok((name, behind))
}

/// What a byte of a label's value does.
#[derive(Clone, Copy)]
enum Step {
    Byte(u8),
    Backslash,
    End,
    Refused,
}

fn step_of(escaping: bool, byte: u8) -> Step
    ensures { result ≡ step_of escaping byte }
{
    match byte {
        b'n' if escaping => Step::Byte(b'\n'),
        b'\\' | b'"' if escaping => Step::Byte(byte),
        _ if escaping => Step::Refused,
        b'"' => Step::End,
        b'\\' => Step::Backslash,
        b'\n' => Step::Refused,
        _ => Step::Byte(byte),
    }
}

/// A label's value up to its quote, with its escapes undone, and what stands behind the quote.
fn quoted_from(alloc: Global, bytes: &[u8]) -> Result<(Vec<u8>, &[u8]), ReadFault>
    ensures { Reads (λ x. (x.0.items, x.1.now)) result (quoted_from bytes.now false) }
{
    let mut text = Vec::new(alloc);
    let mut escaping = false;
    for (i, byte) in bytes.iter().enumerate() {
        match step_of(escaping, *byte) {
            Step::Byte(byte) => {
                text.push(byte)?;
                escaping = false;
            }
            Step::Backslash => escaping = true,
            Step::End => return Ok((text, &bytes[i + 1..])),
            Step::Refused => return Err(ReadFault::Bad),
        }
    }
    Err(ReadFault::Bad)
}

/// The bytes as a text, without a copy.
fn text_taken(bytes: Vec<u8>) -> Result<Text, ReadFault>
    ensures { Reads (λ t. t) result (kept (is_utf8 bytes.items) bytes.items) }
{
    match String::from_utf8(bytes) {
        Ok(text) => Ok(Text::take(text)),
        Err(_) => Err(ReadFault::Bad),
    }
}

/// A label's value in quotes, and what stands behind it.
#[tactic(auto, unfolding(crate::specs::Scans::quoted_at))]
fn quoted_at(alloc: Global, bytes: &[u8]) -> Result<(Text, &[u8]), ReadFault>
    ensures { Reads (λ x. (x.0, x.1.now)) result (quoted_at bytes.now) }
{
    let quoted = behind_byte(b'"', bytes)?;
    let (value, behind) = quoted_from(alloc, quoted)?;
    let value = text_taken(value)?;
    Ok((value, behind))
}

/// What stands behind a label's comma and the blanks behind that, or what the closing brace begins.
#[tactic(auto, unfolding(crate::specs::Scans::behind_label))]
fn behind_label(bytes: &[u8]) -> Result<&[u8], ReadFault>
    ensures { Reads (λ b. b.now) result (behind_label bytes.now) }
{
    match bytes.split_first() {
        Some((b',', behind)) => Ok(past_blanks(behind)),
        Some((b'}', _)) => Ok(bytes),
        _ => Err(ReadFault::Bad),
    }
}

/// A label, and what stands behind it, its comma and the blanks.
#[tactic(auto, unfolding(crate::specs::Scans::label_at))]
fn label_at(alloc: Global, bytes: &[u8]) -> Result<((Text, Text), &[u8]), ReadFault>
    ensures { Reads (λ x. (x.0, x.1.now)) result (label_at bytes.now) }
{
    let (name, behind) = label_name_at(alloc, bytes)?;
    let quoted = behind_byte(b'=', past_blanks(behind))?;
    let (value, behind) = quoted_at(alloc, past_blanks(quoted))?;
    let behind = behind_label(past_blanks(behind))?;
    Ok(((name, value), behind))
}

/// The pairs with those of the labels behind them up to the closing brace, and what stands behind that.
fn push_labels(
    alloc: Global,
    pairs: Vec<(Text, Text)>,
    bytes: &[u8],
) -> Result<(Vec<(Text, Text)>, &[u8]), ReadFault>
    ensures { Reads (λ x. (x.0.items, x.1.now)) result (with_pairs pairs.items (all_labels bytes.now)) }
{
    let mut pairs = pairs;
    let mut rest = bytes;
    while !begins_with(b'}', rest) {
        let (pair, behind) = label_at(alloc, rest)?;
        pairs.push(pair)?;
        rest = behind;
    }
    let behind = behind_byte(b'}', rest)?;
    Ok((pairs, behind))
}

/// The pairs with those in braces, and what stands behind them and blanks.
#[tactic(auto, using(crate::proofs::Pairs::brace_rules))]
fn braces_at(
    alloc: Global,
    pairs: Vec<(Text, Text)>,
    bytes: &[u8],
) -> Result<(Vec<(Text, Text)>, &[u8]), ReadFault>
    ensures { Reads (λ x. (x.0.items, x.1.now)) result (with_pairs pairs.items (braces_at bytes.now)) }
{
    let labels = past_blanks(behind_byte(b'{', bytes)?);
    let (pairs, behind) = push_labels(alloc, pairs, labels)?;
    Ok((pairs, past_blanks(behind)))
}

/// The pairs with those that stand behind a metric name, and the value and what stands behind it.
#[tactic(auto, using(crate::proofs::Pairs::middle_rules))]
fn middle_at(
    alloc: Global,
    pairs: Vec<(Text, Text)>,
    bytes: &[u8],
) -> Result<(Vec<(Text, Text)>, &[u8]), ReadFault>
    ensures { Reads (λ x. (x.0.items, x.1.now)) result (with_pairs pairs.items (middle_at bytes.now)) }
{
    let behind = past_blanks(bytes);
    if begins_with(b'{', behind) {
        braces_at(alloc, pairs, behind)
    } else if begins_blank(bytes) {
        Ok((pairs, behind))
    } else {
        Err(ReadFault::Bad)
    }
}

/// The metric name as a label with the labels behind it, and what stands behind them and blanks.
#[tactic(auto, unfolding(crate::specs::Scans::series_at))]
pub fn series_at(alloc: Global, bytes: &[u8]) -> Result<(Vec<(Text, Text)>, &[u8]), ReadFault>
    ensures { Reads (λ x. (x.0.items, x.1.now)) result (series_at bytes.now) }
{
    let (name, behind) = metric_name_at(alloc, past_blanks(bytes))?;
    let label = Text::of(alloc, METRIC_NAME)?;
    let pairs = vec![in alloc; (label, name)]?;
    middle_at(alloc, pairs, behind)
}
