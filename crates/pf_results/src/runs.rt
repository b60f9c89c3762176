//! Parts of runs.

ghost use Rattle.std.specs.Prelude.{◌≡◌, ◌≤◌, ◌+◌, Ok};
ghost use Rattle.pf_results.specs.Runs.{part_of};

use pf_base::{Grid, GridError};

#[tactic(auto, using(crate::proofs::Parts::part_made))]
fn part_made(run: Grid, from: u32, len: u32) -> Result<Grid, GridError>
    requires step { 1 ≤ run.step }
    requires some { 1 ≤ len }
    requires within { from + len ≤ run.len }
    ensures { result ≡ Ok (part_of run from len) }
{
    Grid::aligned(run.at(from), run.at(from + (len - 1)), run.step())
}

/// So many of a run's steps from one on.
pub fn part(run: Grid, from: u32, len: u32) -> Grid
    requires step { 1 ≤ run.step }
    requires some { 1 ≤ len }
    requires within { from + len ≤ run.len }
    ensures { result ≡ part_of run from len }
{
    let Ok(part) = part_made(run, from, len) else {
        unreachable!()
    };
    part
}
