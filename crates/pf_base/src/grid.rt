//! The steps of a query.

ghost use Rattle.std.specs.Prelude.{◌≡◌, ◌<◌, ◌≤◌, ◌+◌, ◌*◌, length, slice_get, IfOk, Some};
ghost use Rattle.pf_base.specs.GridLists.{AreMultiples};
ghost use Rattle.pf_base.specs.Grids.{grid_of, single_of, points};
ghost use Rattle.pf_base.specs.Limits.{greatest_time, most_steps};

use std::marker::Model;

/// The greatest time, in milliseconds since 1970.
pub const MAXT: u64 = 4_398_046_511_103;

/// The greatest number of steps after the first.
const MOST_STEPS: u64 = 11_000;

/// Why times make no grid.
#[derive(Clone, Copy)]
pub enum GridError {
    ZeroStep,
    TimeTooLarge,
    EndBeforeStart,
    TooManySteps,
}

/// The times at which a query is evaluated: a start, and further ones at equal distances, or one time alone. Times are
/// in milliseconds since 1970.
#[derive(Clone, Copy)]
pub struct Grid {
    start: u64,
    step: u64,
    len: u32,
}

impl Model for Grid {
    ghost use Rattle.std.specs.Prelude.{ℕ};
    ghost use Rattle.pf_base.specs.GridLists.{GridData, IsGrid};

    ghost Value = { GridData };

    ghost view = { λ g. record { start = g.start; step = g.step; len = g.len } };

    ghost invariant = { λ g. IsGrid (record { start = g.start; step = g.step; len = g.len }) };

    ghost inverse = { λ d. record { start = d.start; step = d.step; len = d.len } };
}

impl Grid {
    /// The multiples of the step from the start to the end, both cut down to multiples of it. Refusals come in the
    /// order of `GridError`'s variants: a step of zero, a time past the greatest, an end before the start as given, more
    /// than 11,001 steps.
    #[tactic(auto, using(crate::proofs::GridTimes::aligned_is_grid, crate::proofs::GridTimes::aligned_multiples))]
    pub fn aligned(start: u64, end: u64, step: u64) -> Result<Grid, GridError>
        ensures value { result ≡ grid_of start end step }
        ensures times { IfOk result (λ g. AreMultiples start end step (points g)) }
    {
        if step == 0 {
            return Err(GridError::ZeroStep);
        }
        if start > MAXT || end > MAXT || step > MAXT {
            return Err(GridError::TimeTooLarge);
        }
        if end < start {
            return Err(GridError::EndBeforeStart);
        }
        let first = start / step;
        let last = end / step;
        if last - first > MOST_STEPS {
            return Err(GridError::TooManySteps);
        }
        Ok(Grid {
            start: first * step,
            step,
            len: (last - first) as u32 + 1,
        })
    }

    /// This one time, as it is. The one refusal is `TimeTooLarge`.
    pub fn single(time: u64) -> Result<Grid, GridError>
        ensures { result ≡ single_of time }
    {
        if time > MAXT {
            return Err(GridError::TimeTooLarge);
        }
        Ok(Grid {
            start: time,
            step: 0,
            len: 1,
        })
    }

    /// The number of the times.
    #[tactic(auto, using(crate::proofs::GridTimes::lengths))]
    pub fn len(&self) -> u32
        ensures value { result ≡ self.now.len }
        ensures all { result ≡ length (points self.now) }
        ensures within { 1 ≤ result × result ≤ most_steps + 1 }
    {
        self.len
    }

    /// The time at a place, counted from 0.
    #[tactic(auto, using(crate::proofs::GridTimes::places))]
    pub fn at(&self, i: u32) -> u64
        requires { i < self.now.len }
        ensures value { result ≡ self.now.start + i * self.now.step }
        ensures point { slice_get (points self.now) i ≡ Some result }
        ensures within { result ≤ greatest_time }
    {
        self.start + i as u64 * self.step
    }

    /// The first time.
    #[tactic(auto, using(crate::proofs::GridTimes::places))]
    pub fn start(&self) -> u64
        ensures value { result ≡ self.now.start }
        ensures point { slice_get (points self.now) 0 ≡ Some result }
        ensures within { result ≤ greatest_time }
    {
        self.start
    }

    /// The distance from one time to the next, and 0 where the grid was made by `single`.
    pub fn step(&self) -> u64
        ensures value { result ≡ self.now.step }
        ensures within { result ≤ greatest_time }
    {
        self.step
    }
}
