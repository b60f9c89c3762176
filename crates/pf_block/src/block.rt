//! Blocks of samples, sorted by series and time.

ghost use Rattle.std.specs.Prelude.{◌≡◌, ◌+◌, ◌++◌, ◌∷◌, ℕ, ◌<◌, ◌≤◌, true, [], IfOk, drop, length, map, nat_le, nat_lt, slice_index_or};
ghost use Rattle.pf_base.specs.declared.plain.Sample.{Sample};
ghost use Rattle.pf_block.specs.Blocks.{ascends, entry_of, is_upto, leads, merged, samples_in, times_in};
ghost use Rattle.pf_block.specs.Runs.{are_apart, are_runs, count_by, ends_with, run_end, run_noted};
ghost use Rattle.pf_block.specs.Samples.{last_of, rises, window_of};

use crate::samples::within;
use pf_base::{OutOfMemory, Sample, Value};
use std::alloc::Global;
use std::marker::Model;

/// A sample as it is sorted: the id of its series, its time and its value.
pub type Entry = (u32, (i64, Value));

/// The id of a series and the place of its first sample.
type Run = (u32, usize);

/// Samples by rising id of their series, and each series' by time.
#[derive(Drop)]
pub struct Block {
    runs: Vec<Run>,
    samples: Vec<Sample>,
}

impl Model for Block {
    ghost use Rattle.std.specs.Prelude.{◌≡◌, true, length};
    ghost use Rattle.pf_block.specs.Blocks.{Entries, ascends};
    ghost use Rattle.pf_block.specs.Runs.{are_runs, laid};

    ghost Value = { Entries };

    ghost view = { λ b. laid b.runs.items b.samples.items };

    ghost invariant = { λ b. (are_runs b.runs.items (length b.samples.items) ≡ true) × (ascends (laid b.runs.items b.samples.items) ≡ true) };
}

/// Whether a run is of an id.
#[tactic(auto, using(crate::proofs::Runs::below_at))]
fn is_of(runs: &[Run], run: usize, id: u32) -> bool
    requires { are_apart runs.now ≡ true }
    ensures within { result ≡ true → run ≤ length runs.now }
    ensures value { result ≡ true → run ≡ count_by (λ r. nat_lt r.0 id) runs.now }
{
    if run >= runs.len() {
        return false;
    }
    runs[run].0 == id
}

/// The number of runs of ids below one. Where ids follow one another, it is as far from the first as the id is, and is looked
/// for there before it is found by halves.
fn count_below(runs: &[Run], id: u32) -> usize
    requires { are_apart runs.now ≡ true }
    ensures within { result ≤ length runs.now }
    ensures value { result ≡ count_by (λ r. nat_lt r.0 id) runs.now }
{
    let first = match runs.first() {
        Some(run) => run.0,
        None => 0,
    };
    let near = id.saturating_sub(first) as usize;
    if is_of(runs, near, id) {
        return near;
    }
    runs.partition_point(|r| r.0 < id)
}

/// The number of runs that begin at a place or before it.
fn count_begun(runs: &[Run], place: usize) -> usize
    requires { are_apart runs.now ≡ true }
    ensures within { result ≤ length runs.now }
    ensures value { result ≡ count_by (λ r. nat_le r.1 place) runs.now }
{
    runs.partition_point(|r| r.1 <= place)
}

/// The place where a run begins, or all `rows` samples end.
fn start_of(runs: &[Run], rows: usize, run: usize) -> usize
    requires { are_runs runs.now rows ≡ true }
    ensures within { result ≤ rows }
    ensures value { result ≡ run_end (drop run runs.now) rows }
{
    if run >= runs.len() {
        return rows;
    }
    runs[run].1
}

/// The number of runs of ids up to and with one, of which there are `below` below it.
fn count_upto(runs: &[Run], id: u32, below: usize) -> usize
    requires apart { are_apart runs.now ≡ true }
    requires below { below ≡ count_by (λ r. nat_lt r.0 id) runs.now }
    ensures { result ≡ count_by (λ r. nat_le r.0 id) runs.now }
{
    if below >= runs.len() {
        return below;
    }
    let run = runs[below];
    if run.0 == id {
        return below + 1;
    }
    below
}

/// Whether a place is of a run.
fn is_run_at(runs: &[Run], rows: usize, place: usize, run: usize) -> bool
    requires { are_runs runs.now rows ≡ true }
    ensures { result ≡ true → (run < length runs.now) × (run + 1 ≡ count_by (λ r. nat_le r.1 place) runs.now) }
{
    if run >= runs.len() || place < runs[run].1 {
        return false;
    }
    place < start_of(runs, rows, run + 1)
}

/// The run of a place. First it is looked for at `near` and behind it.
fn run_at(runs: &[Run], rows: usize, place: usize, near: usize) -> usize
    requires runs { are_runs runs.now rows ≡ true }
    requires inside { place < rows }
    ensures within { result < length runs.now }
    ensures value { result + 1 ≡ count_by (λ r. nat_le r.1 place) runs.now }
{
    if is_run_at(runs, rows, place, near) {
        return near;
    }
    let next = near.saturating_add(1);
    if is_run_at(runs, rows, place, next) {
        return next;
    }
    count_begun(runs, place) - 1
}

/// Whether the last run is of a series.
fn ends_with(runs: &[Run], id: u32) -> bool
    ensures { result ≡ ends_with id runs.now }
{
    match runs.last() {
        Some(last) => last.0 == id,
        None => false,
    }
}

/// A run, where the last one is of another series.
fn note_run(runs: &mut Vec<Run>, id: u32, start: usize) -> Result<(), OutOfMemory>
    ensures { IfOk result (λ _. runs.new.items ≡ run_noted runs.old.items (id, start)) }
{
    if ends_with(runs, id) {
        return Ok(());
    }
    runs.push((id, start))?;
    Ok(())
}

/// Whether an entry stands before another one, or is of its series and time.
pub fn is_upto(one: (u32, Sample), other: (u32, Sample)) -> bool
    ensures { result ≡ is_upto one other }
{
    one.0 < other.0 || one.0 == other.0 && one.1.time <= other.1.time
}

/// A block of entries that are sorted.
fn sorted(alloc: Global, entries: &[Entry]) -> Result<Block, OutOfMemory>
    requires { ascends (map entry_of entries.now) ≡ true }
    ensures { IfOk result (λ b. b ≡ map entry_of entries.now) }
{
    let mut block = Block::with_room(alloc, entries.len())?;
    for entry in entries {
        let (id, (time, value)) = *entry;
        block = block.with(id, Sample { time, value })?;
    }
    Ok(block)
}

impl Block {
    /// A block without samples.
    pub fn new(alloc: Global) -> Block
        ensures { result ≡ [] }
    {
        Block {
            runs: Vec::new(alloc),
            samples: Vec::new(alloc),
        }
    }

    /// A block without samples, with room for so many.
    pub fn with_room(alloc: Global, rows: usize) -> Result<Block, OutOfMemory>
        ensures { IfOk result (λ b. b ≡ []) }
    {
        Ok(Block {
            runs: Vec::new(alloc),
            samples: Vec::with_capacity(alloc, rows)?,
        })
    }

    /// With a further entry at the end.
    pub fn with(self, id: u32, sample: Sample) -> Result<Block, OutOfMemory>
        requires { ascends (self ++ (id, sample) ∷ []) ≡ true }
        ensures { IfOk result (λ b. b ≡ self ++ (id, sample) ∷ []) }
    {
        let Block { runs, samples } = self;
        let mut runs = runs;
        let mut samples = samples;
        note_run(&mut runs, id, samples.len())?;
        samples.push(sample)?;
        Ok(Block { runs, samples })
    }

    /// A block of these entries.
    pub fn of(alloc: Global, mut entries: Vec<Entry>) -> Result<Block, OutOfMemory>
        ensures samples { IfOk result (λ b. (id : ℕ) → (x : Sample) → times_in x (samples_in id b) ≡ times_in x (samples_in id (map entry_of entries.items))) }
        ensures ascends { IfOk result (λ b. ascends b ≡ true) }
    {
        entries.sort_unstable();
        let block = sorted(alloc, &entries)?;
        Ok(block)
    }

    /// The number of samples.
    pub fn rows(&self) -> usize
        ensures rows { result ≡ length self.now }
        ensures ascends { ascends self.now ≡ true }
    {
        self.samples.len()
    }

    /// A sample and the id of its series, by their place, behind its run, which is found at once at `near` or behind it.
    pub fn entry_near(&self, place: usize, near: usize) -> (usize, (u32, Sample))
        requires { place < length self.now }
        ensures { (e : ℕ × Sample) → result.1 ≡ slice_index_or self.now place e }
    {
        let run = run_at(&self.runs, self.samples.len(), place, near);
        (run, (self.runs[run].0, self.samples[place]))
    }

    /// The samples of a series.
    pub fn series(&self, id: u32) -> &[Sample]
        ensures { result.now ≡ samples_in id self.now }
    {
        let rows = self.samples.len();
        let below = count_below(&self.runs, id);
        let upto = count_upto(&self.runs, id, below);
        let from = start_of(&self.runs, rows, below);
        let to = start_of(&self.runs, rows, upto);
        let behind = &self.samples[from..];
        &behind[..to - from]
    }

    /// The samples of a series after `after`, up to and with `upto`.
    pub fn window(&self, id: u32, after: i64, upto: i64) -> &[Sample]
        requires { rises (samples_in id self.now) ≡ true }
        ensures { result.now ≡ window_of (samples_in id self.now) after upto }
    {
        within(self.series(id), after, upto)
    }

    /// Whether the entry at a place comes before that of another block: it is not after it, or the only
    /// one. The entries are found at once in the runs `near` and `far` or behind them.
    fn leads(&self, place: usize, near: usize, other: &Block, behind: usize, far: usize) -> bool
        ensures { result ≡ leads self.now place other.now behind }
    {
        if behind >= other.rows() {
            return true;
        }
        place < self.rows()
            && is_upto(
                self.entry_near(place, near).1,
                other.entry_near(behind, far).1,
            )
    }

    /// The samples of two blocks.
    pub fn merged(&self, other: &Block) -> Result<Block, OutOfMemory>
        ensures { IfOk result (λ b. b ≡ merged self.now other.now) }
    {
        let alloc = *self.samples.allocator();
        let Some(rows) = self.rows().checked_add(other.rows()) else {
            return Err(OutOfMemory);
        };
        let mut block = Block::with_room(alloc, rows)?;
        let mut i = 0;
        let mut j = 0;
        let mut near = 0;
        let mut far = 0;
        while i + j < rows {
            if self.leads(i, near, other, j, far) {
                let (run, (id, sample)) = self.entry_near(i, near);
                near = run;
                block = block.with(id, sample)?;
                i += 1;
            } else {
                let (run, (id, sample)) = other.entry_near(j, far);
                far = run;
                block = block.with(id, sample)?;
                j += 1;
            }
        }
        Ok(block)
    }
}
