//! What comes out of a query.

ghost use Rattle.std.specs.Prelude.{◌≡◌, [], IfOk, IsSome, Some, nat_eq};
ghost use Rattle.pf_core.specs.Cores.{machine_of};
ghost use Rattle.pf_front.specs.Settling.{AreCellsOver, HasParts, IsFoundOf, IsWholeFound, whole_runs};
ghost use Rattle.pf_front.specs.Spans.{all_of};
ghost use Rattle.pf_journal.specs.Machine.{Open, answer_of, open_at};
ghost use Rattle.pf_model.specs.Direct.{gathered};

use crate::joining::{JoinedPieces, LeftCells, joined_pieces};
use crate::parts::all_cells;
use crate::whole::whole_parts;
use pf_base::{Grid, OutOfMemory};
use pf_columns::{Cells, join_cells};
use pf_core::Core;
use pf_extent::DoneCells;
use pf_matrix::Matrix;
use pf_model::ErrorKind;
use pf_query::{Asked, Gathered};
use std::alloc::Global;
use std::collections::VecDeque;

/// What came out of a query: the matrix; the first step that has an error, by its time in milliseconds; or why it was stopped: by
/// a cancel, by a job that failed five times, or for want of memory.
#[derive(Drop)]
pub enum Outcome {
    Matrix(Matrix),
    Failed { step: u64, kind: ErrorKind },
    Cancelled,
    Exhausted { job: u32 },
    Starved,
}

/// What was found of an open query: the cells of its pieces, and again those of each piece in which a step was evaluated, with its
/// run; or the first step that has an error, by its time in milliseconds.
#[derive(Drop)]
pub(crate) enum Found {
    Cells {
        pieces: Vec<Cells>,
        noted: Vec<DoneCells>,
    },
    Failed {
        step: u64,
        kind: ErrorKind,
    },
}

/// The grid of an open query.
pub(crate) fn grid_of(core: &Core, query: u64) -> Grid
    requires { IsSome (open_at query (machine_of core.now).queries) }
    ensures grid { (o : Open) → open_at query (machine_of core.now).queries ≡ Some o → result ≡ o.asked.query.grid }
    ensures instant { (o : Open) → open_at query (machine_of core.now).queries ≡ Some o → o.asked.instant ≡ nat_eq o.asked.query.grid.step 0 }
{
    let Some(opened) = core.look(query) else {
        unreachable!()
    };
    let asked: &Asked = opened.asked;
    asked.grid
}

/// What is found of an open query by its parts.
pub(crate) fn found_of_parts(
    alloc: Global,
    core: &Core,
    query: u64,
    gathered: Gathered,
) -> Result<Found, OutOfMemory>
    requires { HasParts core.now (open_at query (machine_of core.now).queries) gathered }
    ensures found { IfOk result (λ found. (o : Open) → open_at query (machine_of core.now).queries ≡ Some o → IsFoundOf core.now.limits o gathered.runs.items found) }
    ensures whole { gathered.cached.items ≡ [] → IfOk result (λ found. (o : Open) → open_at query (machine_of core.now).queries ≡ Some o → IsWholeFound core.now.limits o found) }
{
    let grid = grid_of(core, query);
    let Gathered {
        legs,
        runs,
        parts,
        cached,
    } = gathered;
    match all_cells(alloc, &legs, &runs, parts)? {
        Ok(evaluated) => {
            let left = LeftCells {
                cached: VecDeque::from_vec(cached),
                evaluated: VecDeque::from_vec(evaluated),
            };
            let JoinedPieces { cells, noted } = joined_pieces(alloc, grid, core.interval(), left)?;
            Ok(Found::Cells {
                pieces: cells,
                noted,
            })
        }
        Err(failed) => Ok(Found::Failed {
            step: failed.time,
            kind: failed.kind,
        }),
    }
}

/// What is found of an open query, which is evaluated anew at all its steps.
pub(crate) fn found_of_whole(alloc: Global, core: &Core, query: u64) -> Result<Found, OutOfMemory>
    requires { IsSome (open_at query (machine_of core.now).queries) }
    ensures found { IfOk result (λ found. (o : Open) → open_at query (machine_of core.now).queries ≡ Some o
        → IsFoundOf core.now.limits o (whole_runs core.now.limits o) found) }
    ensures whole { IfOk result (λ found. (o : Open) → open_at query (machine_of core.now).queries ≡ Some o → IsWholeFound core.now.limits o found) }
{
    let gathered = whole_parts(alloc, core, query)?;
    found_of_parts(alloc, core, query, gathered)
}

/// The matrix of the cells of an open query's pieces.
pub(crate) fn matrix_of(
    alloc: Global,
    core: &Core,
    query: u64,
    pieces: Vec<Cells>,
) -> Result<Matrix, OutOfMemory>
    requires open { IsSome (open_at query (machine_of core.now).queries) }
    requires cells { (o : Open) → open_at query (machine_of core.now).queries ≡ Some o → AreCellsOver core.now.limits o (all_of pieces.items) }
    ensures { IfOk result (λ m. (o : Open) → open_at query (machine_of core.now).queries ≡ Some o → answer_of core.now.limits o ≡ gathered m) }
{
    let grid = grid_of(core, query);
    let cells = join_cells(alloc, pieces)?;
    let matrix = cells.gather(alloc, &grid)?;
    Ok(matrix)
}
