//! How many samples the blocks of a snapshot have.

ghost use Rattle.std.specs.Prelude.{◌≡◌, ◌<◌, ◌≤◌, true, length, nat_lt, slice_index_or};
ghost use Rattle.std.specs.List.{list_all};
ghost use Rattle.pf_block.specs.Stacks.{doubles};

use std::marker::Model;

/// The numbers of samples of a snapshot's blocks, the oldest first.
#[derive(Drop)]
pub struct BlockSizes<'a> {
    sizes: &'a [usize],
}

impl<'a> Model for BlockSizes<'a> {
    ghost use Rattle.std.specs.Prelude.{ℕ, List};

    ghost Value = { List ℕ };

    ghost view = { λ s. s.sizes.now };
}

/// The number of samples of a block.
fn rows_of(sizes: &[usize], place: usize) -> u64
    requires { place < length sizes.now }
    ensures { result ≡ slice_index_or sizes.now place 0 }
{
    sizes[place] as u64
}

/// The number of samples of the oldest block, 0 where there is none.
fn oldest(sizes: &[usize]) -> u64
    ensures { result ≡ slice_index_or sizes.now 0 0 }
{
    if sizes.is_empty() {
        0
    } else {
        rows_of(sizes, 0)
    }
}

impl<'a> BlockSizes<'a> {
    /// Over numbers none of which is 0, and each at least twice the next: the oldest fits 64 bits, so they are few.
    pub(crate) fn of(sizes: &'a [usize]) -> BlockSizes<'a>
        requires filled { list_all (nat_lt 0) sizes.now ≡ true }
        requires doubles { doubles sizes.now ≡ true }
        ensures sizes { result ≡ sizes.now }
        ensures few { length sizes.now ≤ 64 }
    {
        let _most = oldest(sizes);
        BlockSizes { sizes }
    }

    /// The number of blocks.
    pub fn count(&self) -> usize
        ensures { result ≡ length self.now }
    {
        self.sizes.len()
    }

    /// The number of samples of a block.
    pub fn rows(&self, place: usize) -> u64
        requires { place < length self.now }
        ensures { result ≡ slice_index_or self.now place 0 }
    {
        rows_of(self.sizes, place)
    }
}
