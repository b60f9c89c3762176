//! Cells that were evaluated.

use pf_base::Grid;
use pf_columns::Cells;

/// The cells of a run of steps, a cell for each, which were evaluated without error. They are shared with whoever has them too.
#[derive(Drop)]
pub struct DoneCells {
    pub run: Grid,
    pub cells: Cells,
}
