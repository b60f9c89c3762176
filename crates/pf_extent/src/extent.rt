//! Extents, and when one may be used.

ghost use Rattle.std.specs.Prelude.{◌≡◌, IfOk};
ghost use Rattle.pf_model.specs.Reach.{is_below};
ghost use Rattle.pf_extent.specs.Uses.{is_usable};

use pf_columns::Cells;
use std::alloc::AllocError;

/// The cells of the steps from `first` to `last`, which are `step` apart: milliseconds, the former two since 1970. They are of
/// the samples that stood after the first `pin` changes of the tenant's log, whose generation was `generation` then.
#[derive(Drop)]
pub struct Extent {
    pub first: u64,
    pub last: u64,
    pub step: u64,
    pub pin: u64,
    pub generation: u64,
    pub cells: Cells,
}

impl Clone for Extent {
    ghost is_clone = { λ x y. y ≡ x };

    fn clone(&self) -> Result<Extent, AllocError>
        ensures { IfOk result (λ e. e ≡ self.now) }
    {
        Ok(Extent {
            first: self.first,
            last: self.last,
            step: self.step,
            pin: self.pin,
            generation: self.generation,
            cells: self.cells.clone()?,
        })
    }
}

/// Who would use an extent: the pin and the generation of the samples that are asked, and the floor at that pin, in
/// milliseconds since 1970, below which no sample is taken any more. None is no floor.
#[derive(Clone, Copy)]
pub struct Asker {
    pub pin: u64,
    pub floor: Option<u64>,
    pub generation: u64,
}

/// Whether the floor is above the reach, the latest time in milliseconds that a query may read at a step: then no sample that is
/// taken later changes its value there. A query that reads nothing has no reach.
pub fn is_below(reach: Option<i64>, floor: Option<u64>) -> bool
    ensures { result ≡ is_below reach floor }
{
    let Some(latest) = reach else {
        return true;
    };
    let Some(floor) = floor else {
        return false;
    };
    latest < 0 || (latest as u64) < floor
}

/// Whether the cell of a step may be used, where `reach` is the latest time in milliseconds that the query may read at that
/// step, none where it reads nothing.
pub fn usable(extent: &Extent, reach: Option<i64>, asker: &Asker) -> bool
    ensures { result ≡ is_usable extent.now reach asker.now }
{
    extent.generation == asker.generation
        && (extent.pin <= asker.pin || is_below(reach, asker.floor))
}
