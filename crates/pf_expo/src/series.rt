//! The series in front of a line's number, and the label sets of those that were read before.

ghost use Rattle.std.specs.Prelude.{◌≡◌, ◌<◌, ◌≤◌, ◌∷◌, ◌++◌, [], length, IfOk, IfSome, OnOk};
ghost use Rattle.std.specs.Cmp.Rules.{comparing, hashing};
ghost use Rattle.std.specs.Result.{result_ok};
ghost use Rattle.std.specs.Str.{bytes_eq};
ghost use Rattle.std.proofs.Common.{rules};
ghost use Rattle.pf_base.specs.LabelBuild.{build_of};
ghost use Rattle.pf_expo.specs.Readings.{Reads};
ghost use Rattle.pf_expo.specs.Series.{AreRead, IsSeries};

use crate::fault::ReadFault;
use crate::labels::series_at;
use crate::spans::{past_blanks, split_word};
use pf_base::{Labels, LabelsError, OutOfMemory, Text};
use std::alloc::Global;
use std::collections::HashMap;
use std::hash::{Hash, Hasher};
use std::marker::Model;

/// The bytes of a series as a key. A hasher is fed them at once.
#[derive(Drop)]
pub struct SeriesBytes<'a> {
    bytes: &'a [u8],
}

impl<'a> Model for SeriesBytes<'a> {
    ghost use Rattle.std.specs.Prelude.{List, ℕ};

    ghost Value = { List ℕ };

    ghost view = { λ s. s.bytes.now };
}

impl<'a> PartialEq for SeriesBytes<'a> {
    ghost eq = { bytes_eq };

    ghost laws = { Prim.search (comparing, rules) };

    fn eq(&self, other: &SeriesBytes<'a>) -> bool {
        self.bytes == other.bytes
    }
}

impl<'a> Eq for SeriesBytes<'a> {
    ghost laws = { Prim.search (comparing, rules) };
}

impl<'a> Hash for SeriesBytes<'a> {
    ghost hash_input = { λ s. s ∷ [] };

    ghost respects_eq = { Prim.search (hashing, rules) };

    fn hash<H: Hasher>(&self, state: &mut H) {
        state.write(self.bytes);
    }
}

/// The label sets of a file's series, by their bytes.
#[derive(Drop)]
pub struct KnownSeries<'a> {
    pub labels: HashMap<SeriesBytes<'a>, Labels>,
}

pub fn labels_of(alloc: Global, pairs: Vec<(Text, Text)>) -> Result<Labels, ReadFault>
    ensures { Reads (λ l. l) result (result_ok (build_of pairs.items)) }
{
    match Labels::build(alloc, pairs) {
        Ok(labels) => Ok(labels),
        Err(LabelsError::OutOfMemory) => Err(ReadFault::OutOfMemory),
        Err(_) => Err(ReadFault::Bad),
    }
}

/// The place of the last closing brace.
fn last_brace(line: &[u8]) -> Option<usize>
    ensures { IfSome result (λ i. i < length line.now) }
{
    line.iter().rposition(|byte| *byte == b'}')
}

/// What stands behind the last closing brace, or else behind the first word.
#[tactic(auto, using(crate::proofs::Shorter::past_short))]
fn behind_series(line: &[u8]) -> &[u8]
    ensures { length result.now ≤ length line.now }
{
    match last_brace(line) {
        Some(place) => &line[place + 1..],
        None => split_word(past_blanks(line)).1,
    }
}

/// A line cut where its number begins, if it is a sample.
#[tactic(auto, using(crate::proofs::Shorter::past_short))]
pub fn split_series(line: &[u8]) -> (&[u8], &[u8])
    ensures { line.now ≡ result.0.now ++ result.1.now }
{
    let behind = past_blanks(behind_series(line));
    line.split_at(line.len() - behind.len())
}

/// The label set of a series.
fn read_series(alloc: Global, bytes: &[u8]) -> Result<Labels, ReadFault>
    ensures { IfOk result (λ l. IsSeries bytes.now l) }
{
    let (pairs, behind) = series_at(alloc, bytes)?;
    if !behind.is_empty() {
        return Err(ReadFault::Bad);
    }
    let labels = labels_of(alloc, pairs)?;
    Ok(labels)
}

impl<'a> KnownSeries<'a> {
    /// No series.
    pub fn new(alloc: Global) -> KnownSeries<'a>
        ensures { AreRead result.labels }
    {
        KnownSeries {
            labels: HashMap::new(alloc),
        }
    }

    /// The label set of a series, which is known afterwards. None for other bytes.
    pub fn labels_of(
        &mut self,
        alloc: Global,
        series: &'a [u8],
    ) -> Result<Option<Labels>, OutOfMemory>
        requires { AreRead self.old.labels }
        ensures found { IfOk result (λ o. IfSome o (λ l. IsSeries series.now l)) }
        ensures read { OnOk result (AreRead self.new.labels) }
    {
        let key = SeriesBytes { bytes: series };
        if let Some(labels) = self.labels.get(&key) {
            return Ok(Some(labels.clone()?));
        }
        match read_series(alloc, series) {
            Ok(labels) => {
                self.labels.insert(key, labels.clone()?)?;
                Ok(Some(labels))
            }
            Err(ReadFault::OutOfMemory) => Err(OutOfMemory),
            Err(_) => Ok(None),
        }
    }
}
