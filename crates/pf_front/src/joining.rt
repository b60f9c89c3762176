//! The cells of a query, piece by piece.

ghost use Rattle.std.specs.Prelude.{◌≡◌, ◌<◌, ◌≤◌, ◌∷◌, ◌++◌, [], false, IfOk, MatchOption, OnOk, length};
ghost use Rattle.pf_base.specs.Grids.{points};
ghost use Rattle.pf_extent.specs.Done.{AreWhole};
ghost use Rattle.pf_front.specs.Spans.{AreInLine, ArePieceCells, IsNextPiece, IsTakenFrom, begin_at, noted_of, runs_in};
ghost use Rattle.pf_results.specs.Woven.{AreWoven};
ghost use Rattle.pf_split.specs.Pieces.{pieces_of};

use pf_base::{Grid, OutOfMemory};
use pf_columns::{Cells, join_cells};
use pf_extent::DoneCells;
use pf_split::{PieceIter, pieces};
use std::alloc::Global;
use std::collections::VecDeque;

/// What is left of a query's cells, of those that were cached and of those that were evaluated, both by rising time.
#[derive(Drop)]
pub(crate) struct LeftCells {
    pub(crate) cached: VecDeque<DoneCells>,
    pub(crate) evaluated: VecDeque<DoneCells>,
}

/// Whether the first of some cells begin at a time, in milliseconds.
fn begin_at(cells: &VecDeque<DoneCells>, time: u64) -> bool
    ensures { result ≡ begin_at time cells.now.items }
{
    match cells.front() {
        Some(done) => done.run.start() == time,
        None => false,
    }
}

/// Takes the cells that begin at a time, in milliseconds.
fn next_cells(left: &mut LeftCells, time: u64) -> DoneCells
    requires { begin_at time left.old.cached.items ≡ false → 0 < length left.old.evaluated.items }
    ensures { IsTakenFrom (begin_at time left.old.cached.items) left.old.cached.items left.old.evaluated.items result left.new.cached.items left.new.evaluated.items }
{
    if begin_at(&left.cached, time) {
        let Some(done) = left.cached.pop_front() else {
            unreachable!()
        };
        return done;
    }
    let Some(done) = left.evaluated.pop_front() else {
        unreachable!()
    };
    done
}

/// The cells of a piece, and whether one of its steps was evaluated.
#[derive(Drop)]
struct PieceCells {
    run: Grid,
    cells: Cells,
    evaluated: bool,
}

/// The cells of the next piece, those that were cached and those that were evaluated, in order.
fn next_piece(
    alloc: Global,
    left: &mut LeftCells,
    pieces: &mut PieceIter,
) -> Result<Option<PieceCells>, OutOfMemory>
    requires line { AreInLine pieces.old }
    requires woven { AreWoven pieces.old left.old.cached.items (runs_in left.old.evaluated.items) }
    requires whole { AreWhole left.old.evaluated.items }
    ensures { IfOk result (λ o. MatchOption o (pieces.old ≡ [])
        (λ found. IsNextPiece pieces.old left.old.cached.items left.old.evaluated.items found pieces.new left.new.cached.items left.new.evaluated.items)) }
{
    let Some(piece) = pieces.next() else {
        return Ok(None);
    };
    let run = piece.run;
    let before = left.evaluated.len();
    let mut parts = Vec::new(alloc);
    let mut done = 0;
    while done < run.len() {
        let span = next_cells(left, run.at(done));
        done += span.run.len();
        parts.push(span.cells)?;
    }
    let cells = join_cells(alloc, parts)?;
    Ok(Some(PieceCells {
        run,
        cells,
        evaluated: left.evaluated.len() < before,
    }))
}

/// Notes the cells of a piece, if one of its steps was evaluated.
fn note(noted: &mut Vec<DoneCells>, piece: &PieceCells) -> Result<(), OutOfMemory>
    ensures { OnOk result (noted.new.items ≡ noted.old.items ++ noted_of piece.now) }
{
    if piece.evaluated {
        noted.push(DoneCells {
            run: piece.run,
            cells: piece.cells.clone()?,
        })?;
    }
    Ok(())
}

/// The cells of all pieces of a grid, and again those of each piece in which a step was evaluated, with its run.
#[derive(Drop)]
pub(crate) struct JoinedPieces {
    pub(crate) cells: Vec<Cells>,
    pub(crate) noted: Vec<DoneCells>,
}

/// The cells of a grid by its intervals of a length in milliseconds, from those that were cached and those that were evaluated.
pub(crate) fn joined_pieces(
    alloc: Global,
    grid: Grid,
    interval: u64,
    left: LeftCells,
) -> Result<JoinedPieces, OutOfMemory>
    requires cut { 1000 ≤ interval }
    requires woven { AreWoven (pieces_of interval grid.step (points grid)) left.cached.items (runs_in left.evaluated.items) }
    requires whole { AreWhole left.evaluated.items }
    ensures { IfOk result (λ j. ArePieceCells interval grid left.cached.items left.evaluated.items j.cells.items j.noted.items) }
{
    let mut left = left;
    let mut pieces = pieces(&grid, interval);
    let mut cells = Vec::new(alloc);
    let mut noted = Vec::new(alloc);
    while let Some(piece) = next_piece(alloc, &mut left, &mut pieces)? {
        note(&mut noted, &piece)?;
        cells.push(piece.cells)?;
    }
    Ok(JoinedPieces { cells, noted })
}
