//! The cells of consecutive steps, which parts and copies share.

ghost use Rattle.std.specs.Prelude.{◌≡◌, ◌+◌, ◌<◌, ◌≤◌, drop, length, take, IfOk};
ghost use Rattle.pf_base.specs.Grids.{points};
ghost use Rattle.pf_model.specs.Direct.{gather};
ghost use Rattle.pf_columns.specs.Columns.{AreRising, cells_from, columns_labels, timed};
ghost use Rattle.pf_columns.specs.Joins.{AreColumnsOf};

use crate::column::{Column, cut_columns};
use crate::gather::rows_of;
use pf_base::{Grid, OutOfMemory};
use pf_matrix::Matrix;
use std::alloc::{AllocError, Global};
use std::marker::Model;
use std::sync::Arc;

/// The cells of consecutive steps, none of them an error. They lie as columns that copies and parts share, so that
/// neither copies an element.
#[derive(Drop)]
pub struct Cells {
    columns: Arc<Vec<Column>>,
    /// How many steps the columns were made for.
    held: u32,
    from: u32,
    len: u32,
}

impl Model for Cells {
    ghost use Rattle.std.specs.Prelude.{List, ◌+◌, ◌≤◌};
    ghost use Rattle.std.specs.Arc.{arc_value};
    ghost use Rattle.pf_model.specs.declared.cell.Element.{Element};
    ghost use Rattle.pf_columns.specs.Columns.{AreRising, cells_from, columns_labels};

    ghost Value = { List (List Element) };

    ghost view = { λ c. cells_from (arc_value c.columns).items c.from c.len };

    ghost invariant = { λ c. AreRising (columns_labels (arc_value c.columns).items) × (c.from + c.len ≤ c.held) × (c.held ≤ 4294967295) };
}

impl Clone for Cells {
    ghost is_clone = { λ x y. y ≡ x };

    fn clone(&self) -> Result<Cells, AllocError>
        ensures { IfOk result (λ c. c ≡ self.now) }
    {
        Ok(Cells {
            columns: Arc::try_clone(&self.columns)?,
            held: self.held,
            from: self.from,
            len: self.len,
        })
    }
}

impl Cells {
    /// The cells of the first steps of columns whose label sets rise.
    pub fn of(alloc: Global, columns: Vec<Column>, len: u32) -> Result<Cells, OutOfMemory>
        requires { AreRising (columns_labels columns.items) }
        ensures { IfOk result (λ c. c ≡ cells_from columns.items 0 len) }
    {
        Ok(Cells {
            columns: Arc::new(alloc, columns)?,
            held: len,
            from: 0,
            len,
        })
    }

    /// The number of steps.
    #[tactic(auto, using(crate::proofs::Parts::length_cells))]
    pub fn count(&self) -> u32
        ensures { result ≡ length self.now }
    {
        self.len
    }

    /// So many of the cells from one on. No element is copied.
    #[tactic(auto, using(crate::proofs::Parts::length_cells, crate::proofs::Parts::part_is))]
    pub fn part(&self, from: u32, len: u32) -> Result<Cells, OutOfMemory>
        requires { from + len ≤ length self.now }
        ensures { IfOk result (λ c. c ≡ take len (drop from self.now)) }
    {
        Ok(Cells {
            columns: Arc::try_clone(&self.columns)?,
            held: self.held,
            from: self.from + from,
            len,
        })
    }

    /// A part that may outlive these cells. One of under half of the steps that are shared is a copy, without the columns
    /// that have no value there, so that it keeps no others alive.
    #[tactic(auto, using(crate::proofs::Parts::length_cells, crate::proofs::Parts::part_is, crate::proofs::Parts::cut_is, crate::proofs::Parts::cut_rises))]
    pub fn cut(&self, alloc: Global, from: u32, len: u32) -> Result<Cells, OutOfMemory>
        requires { from + len ≤ length self.now }
        ensures { IfOk result (λ c. c ≡ take len (drop from self.now)) }
    {
        if len as u64 * 2 >= self.held as u64 {
            return self.part(from, len);
        }
        let columns = cut_columns(alloc, &self.columns, self.from + from, len, 0)?;
        Cells::of(alloc, columns, len)
    }

    /// Columns of these cells alone, each with room for so many steps in all.
    #[tactic(auto, using(crate::proofs::JoinedCells::columns_of_part))]
    pub(crate) fn cut_columns(&self, alloc: Global, room: u32) -> Result<Vec<Column>, OutOfMemory>
        ensures { IfOk result (λ v. AreColumnsOf self.now v.items) }
    {
        cut_columns(alloc, &self.columns, self.from, self.len, room)
    }

    /// The matrix of the cells at the times of a grid, a cell for each time.
    #[tactic(auto, using(crate::proofs::Parts::length_cells))]
    pub fn gather(&self, alloc: Global, grid: &Grid) -> Result<Matrix, OutOfMemory>
        requires { length self.now ≡ grid.now.len }
        ensures { IfOk result (λ m. m ≡ gather (timed (points grid.now) self.now)) }
    {
        let rows = rows_of(alloc, &self.columns, self.from, grid)?;
        Ok(Matrix { rows })
    }
}
