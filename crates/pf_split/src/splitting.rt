//! The pieces of a grid.

ghost use Rattle.std.specs.Prelude.{◌≡◌, ◌≤◌, ◌∷◌, [], MatchOption, Ok};
ghost use Rattle.std.specs.Iterator.{YieldsFirst, item_count};
ghost use Rattle.pf_base.specs.Grids.{points};
ghost use Rattle.pf_base.specs.GridLists.{IsGrid};
ghost use Rattle.pf_split.specs.Lefts.{run_data, steps_within};
ghost use Rattle.pf_split.specs.Pieces.{AreIntervals, pieces_of, steps_of};

use pf_base::{Grid, GridError};
use std::marker::Model;

/// The steps of a grid in one interval.
#[derive(Clone, Copy)]
pub struct Piece {
    /// The number of the interval: the time of each step divided by the interval's length, cut down.
    pub interval: u64,
    pub run: Grid,
}

/// The pieces that are left, in rising order.
#[derive(Drop)]
pub struct PieceIter {
    start: u64,
    step: u64,
    len: u32,
    interval: u64,
}

impl Model for PieceIter {
    ghost use Rattle.std.specs.Prelude.{List};
    ghost use Rattle.pf_base.specs.GridLists.{times_from};
    ghost use Rattle.pf_split.specs.declared.splitting.Piece.{Piece};
    ghost use Rattle.pf_split.specs.Lefts.{AreLeft};
    ghost use Rattle.pf_split.specs.Pieces.{pieces_of};

    ghost Value = { List Piece };

    ghost view = { λ p. pieces_of p.interval p.step (times_from p.start p.step p.len) };

    ghost invariant = { λ p. AreLeft p.interval p.start p.step p.len };
}

/// The pieces of a grid, by intervals of a length in milliseconds. Mimir, query frontend: Splitting queries by interval.
pub fn pieces(grid: &Grid, interval: u64) -> PieceIter
    requires { 1000 ≤ interval }
    ensures pieces { result ≡ pieces_of interval grid.now.step (points grid.now) }
    ensures all { steps_of result ≡ points grid.now }
    ensures own { AreIntervals interval result }
{
    all_pieces(*grid, interval)
}

/// The same of a grid at hand.
#[tactic(auto, using(crate::proofs::Intervals::laws))]
fn all_pieces(grid: Grid, interval: u64) -> PieceIter
    requires { 1000 ≤ interval }
    ensures pieces { result ≡ pieces_of interval grid.step (points grid) }
    ensures all { steps_of result ≡ points grid }
    ensures own { AreIntervals interval result }
{
    PieceIter {
        start: grid.start(),
        step: grid.step(),
        len: grid.len(),
        interval,
    }
}

/// How many of the steps lie in the interval of the first.
fn first_steps(start: u64, step: u64, len: u32, interval: u64) -> u32
    requires length { 1 ≤ interval }
    requires grid { IsGrid (run_data start step len) }
    ensures value { result ≡ steps_within interval start step len }
    ensures some { 1 ≤ result × result ≤ len }
{
    if step == 0 {
        return len;
    }
    let more = (interval - 1 - start % interval) / step;
    if more < len as u64 {
        more as u32 + 1
    } else {
        len
    }
}

/// The grid of some of a grid's steps.
#[tactic(auto, using(crate::proofs::Runs::made))]
fn run_made(start: u64, step: u64, len: u32) -> Result<Grid, GridError>
    requires { IsGrid (run_data start step len) }
    ensures { result ≡ Ok (run_data start step len) }
{
    if step == 0 {
        return Grid::single(start);
    }
    Grid::aligned(start, start + (len as u64 - 1) * step, step)
}

fn run_of(start: u64, step: u64, len: u32) -> Grid
    requires { IsGrid (run_data start step len) }
    ensures { result ≡ run_data start step len }
{
    let Ok(run) = run_made(start, step, len) else {
        unreachable!()
    };
    run
}

impl PieceIter {
    fn first(&mut self) -> Option<Piece>
        ensures { MatchOption result ((self.old ≡ []) × (self.new ≡ [])) (λ p. self.old ≡ p ∷ self.new) }
    {
        if self.len == 0 {
            return None;
        }
        let count = first_steps(self.start, self.step, self.len, self.interval);
        let interval = self.start / self.interval;
        let run = run_of(self.start, self.step, count);
        self.start += count as u64 * self.step;
        self.len -= count;
        Some(Piece { interval, run })
    }
}

impl Iterator for PieceIter {
    type Item = Piece;

    ghost next_gives = { YieldsFirst (λ p. p) };

    ghost remaining = { item_count (λ p. p) };

    fn next(&mut self) -> Option<Piece> {
        self.first()
    }
}
