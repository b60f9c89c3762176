//! Label sets from pairs.

ghost use Rattle.std.specs.Prelude.{◌≡◌, ◌<◌, length, filter, IfOk, MatchOption, None, Some};
ghost use Rattle.std.specs.List.{list_all};
ghost use Rattle.pf_base.specs.LabelSets.{is_label_name, starts_name, goes_on, has_value, name_at};
ghost use Rattle.pf_base.specs.LabelOrder.{pair_cmp};
ghost use Rattle.pf_base.specs.LabelBuild.{bad_name, build_of, Answers};
ghost use Rattle.pf_base.specs.LabelWalk.{repeated_name};
ghost use Rattle.pf_base.specs.Sorting.{isort};

use crate::labels::packed::PackedPairs;
use crate::labels::{Labels, LabelsError};
use crate::memory::OutOfMemory;
use crate::text::Text;
use std::alloc::{AllocError, Global};

/// The greatest number of pairs that `build` takes.
const MOST_PAIRS: usize = 64;

impl From<AllocError> for LabelsError {
    ghost use Rattle.pf_base.specs.declared.labels.LabelsError.{LabelsError};

    ghost from_gives = { λ _ e. e ≡ LabelsError.OutOfMemory };

    fn from(_error: AllocError) -> LabelsError {
        LabelsError::OutOfMemory
    }
}

impl From<OutOfMemory> for LabelsError {
    ghost use Rattle.pf_base.specs.declared.labels.LabelsError.{LabelsError};

    ghost from_gives = { λ _ e. e ≡ LabelsError.OutOfMemory };

    fn from(_error: OutOfMemory) -> LabelsError {
        LabelsError::OutOfMemory
    }
}

fn is_name_start(byte: u8) -> bool
    ensures { result ≡ starts_name byte }
{
    byte.is_ascii_alphabetic() || byte == b'_'
}

fn is_name_rest(byte: u8) -> bool
    ensures { result ≡ goes_on byte }
{
    is_name_start(byte) || byte.is_ascii_digit()
}

fn all_go_on(bytes: &[u8]) -> bool
    ensures { result ≡ list_all goes_on bytes.now }
{
    bytes.iter().all(|b| is_name_rest(*b))
}

/// Whether a text is `[a-zA-Z_][a-zA-Z0-9_]*`, as each name in a label set is.
pub fn is_label_name(name: &str) -> bool
    ensures { result ≡ is_label_name name.now }
{
    match name.as_bytes().split_first() {
        Some((first, rest)) => is_name_start(*first) && all_go_on(rest),
        None => false,
    }
}

/// The place of the first name that is no label name.
fn bad_name_at(pairs: &[(Text, Text)]) -> Option<usize>
    ensures { MatchOption result (bad_name pairs.now ≡ None)
        (λ i. (i < length pairs.now) × (bad_name pairs.now ≡ Some (name_at pairs.now i))) }
{
    for (i, pair) in pairs.iter().enumerate() {
        if !is_label_name(pair.0.as_str()) {
            return Some(i);
        }
    }
    None
}

/// In pairs that ascend, the place of the first name that the next pair has too.
#[tactic(auto, using(crate::proofs::Repeats::step_at, crate::proofs::Repeats::at_end))]
fn repeated_at(pairs: &[(Text, Text)]) -> Option<usize>
    ensures { MatchOption result (repeated_name pairs.now ≡ None)
        (λ i. (i < length pairs.now) × (repeated_name pairs.now ≡ Some (name_at pairs.now i))) }
{
    for i in 1..pairs.len() {
        let before = &pairs[i - 1];
        let pair = &pairs[i];
        if before.0 == pair.0 {
            return Some(i - 1);
        }
    }
    None
}

fn in_order(mut pairs: Vec<(Text, Text)>) -> Result<Vec<(Text, Text)>, AllocError>
    ensures { IfOk result (λ v. v.items ≡ isort pair_cmp pairs.items) }
{
    pairs.sort()?;
    Ok(pairs)
}

fn with_values(mut pairs: Vec<(Text, Text)>) -> Vec<(Text, Text)>
    ensures { result.items ≡ filter has_value pairs.items }
{
    pairs.retain(|pair| !pair.1.as_str().is_empty());
    pairs
}

/// The bytes of all names and values: `usize::MAX` where they are more.
fn byte_count(pairs: &[(Text, Text)]) -> usize {
    let mut bytes: usize = 0;
    for pair in pairs {
        bytes = bytes
            .saturating_add(pair.0.as_str().len())
            .saturating_add(pair.1.as_str().len());
    }
    bytes
}

fn pack(alloc: Global, pairs: &[(Text, Text)]) -> Result<PackedPairs, OutOfMemory>
    ensures { IfOk result (λ p. p ≡ pairs.now) }
{
    let mut found = PackedPairs::with_capacity(alloc, pairs.len(), byte_count(pairs))?;
    for pair in pairs {
        found = found.with_pair(pair.0.as_str(), pair.1.as_str())?;
    }
    Ok(found)
}

impl Labels {
    /// The label set of these pairs, where those with an empty value count as absent. Refusals come in the order of
    /// `LabelsError`'s variants; the first two look at the pairs with an empty value too.
    #[tactic(auto, using(crate::proofs::LeastRepeated::least_is))]
    pub fn build(alloc: Global, mut pairs: Vec<(Text, Text)>) -> Result<Labels, LabelsError>
        ensures { Answers (build_of pairs.items) result }
    {
        if let Some(i) = bad_name_at(&pairs) {
            let name = pairs.swap_remove(i).0;
            return Err(LabelsError::BadName { name });
        }
        let mut sorted = in_order(pairs)?;
        if let Some(i) = repeated_at(&sorted) {
            let name = sorted.swap_remove(i).0;
            return Err(LabelsError::Repeated { name });
        }
        let kept = with_values(sorted);
        if kept.len() > MOST_PAIRS {
            return Err(LabelsError::TooMany);
        }
        Ok(Labels::of(pack(alloc, &kept)?)?)
    }
}
