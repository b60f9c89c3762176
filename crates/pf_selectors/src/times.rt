//! The times of a run.

ghost use Rattle.std.specs.Prelude.{◌≡◌, ◌<◌, ◌-ℤ◌, ◌≤ℤ◌, ℕ, ℤ, pos, int_le, true, [], Some, slice_index_or};
ghost use Rattle.pf_range.specs.Windows.{IsTime};
ghost use Rattle.pf_selectors.specs.Times.{AreStarts, AreTimes, Spans, away, time_at};

/// The times of so many steps, in milliseconds: that of the step k is `start + k * step`, or `start + list[k]` where there is
/// a list.
#[derive(Clone, Copy)]
pub struct Times<'a> {
    pub start: i64,
    pub step: i64,
    pub len: u32,
    pub list: &'a [i64],
}

/// From the least of some times to the greatest, in milliseconds.
#[derive(Clone, Copy)]
pub struct Span {
    pub first: i64,
    pub last: i64,
}

/// The time of a list at a step, 0 behind its last.
fn listed(list: &[i64], step: u32) -> i64
    ensures { result ≡ slice_index_or list.now step (pos 0) }
{
    match list.get(step as usize) {
        Some(time) => *time,
        None => 0,
    }
}

impl<'a> Times<'a> {
    /// How far the time of a step is from the start.
    fn away(&self, step: u32) -> i64
        requires times { AreTimes self.now }
        requires below { step < self.now.len }
        ensures { result ≡ away self.now.list.now self.now.step step }
    {
        if self.list.is_empty() {
            return step as i64 * self.step;
        }
        listed(self.list, step)
    }

    /// The time of a step, counted from 0.
    pub fn at(&self, step: u32) -> i64
        requires times { AreTimes self.now }
        requires below { step < self.now.len }
        ensures value { result ≡ time_at self.now step }
        ensures within { IsTime result }
    {
        self.start + self.away(step)
    }

    /// Where the window of so many milliseconds before a step begins.
    pub(crate) fn start_of(&self, step: u32, range: u64) -> i64
        requires times { AreTimes self.now }
        requires starts { AreStarts range self.now }
        requires below { step < self.now.len }
        ensures value { result ≡ time_at self.now step -ℤ pos range }
        ensures within { IsTime result }
    {
        self.at(step) - range as i64
    }

    /// The lesser and the greater of the first time and the last, where there is no list.
    fn span_of_ends(&self) -> Span
        requires times { AreTimes self.now }
        requires some { 0 < self.now.len }
        requires run { self.now.list.now ≡ [] }
        ensures { Spans result.first result.last self.now.len self.now }
    {
        let start = self.at(0);
        let end = self.at(self.len - 1);
        Span {
            first: start.min(end),
            last: start.max(end),
        }
    }

    /// The least and the greatest of all times.
    fn span_of_all(&self) -> Span
        requires times { AreTimes self.now }
        requires some { 0 < self.now.len }
        ensures { Spans result.first result.last self.now.len self.now }
    {
        let mut first = self.at(0);
        let mut last = first;
        for i in 1..self.len {
            let time = self.at(i);
            first = first.min(time);
            last = last.max(time);
        }
        Span { first, last }
    }

    /// The least and the greatest time of a run of at least one step.
    pub fn span(&self) -> Span
        requires times { AreTimes self.now }
        requires some { 0 < self.now.len }
        ensures low { (k : ℕ) → k < self.now.len → int_le result.first (time_at self.now k) ≡ true }
        ensures high { (k : ℕ) → k < self.now.len → int_le (time_at self.now k) result.last ≡ true }
        ensures first { IsTime result.first }
        ensures last { IsTime result.last }
        ensures starts { (range : ℕ) → AreStarts range self.now → IsTime (result.first -ℤ pos range) }
        ensures least { (bound : ℤ) → ((k : ℕ) → k < self.now.len → bound ≤ℤ time_at self.now k) → bound ≤ℤ result.first }
        ensures greatest { (bound : ℤ) → ((k : ℕ) → k < self.now.len → time_at self.now k ≤ℤ bound) → result.last ≤ℤ bound }
    {
        if self.list.is_empty() {
            self.span_of_ends()
        } else {
            self.span_of_all()
        }
    }
}
