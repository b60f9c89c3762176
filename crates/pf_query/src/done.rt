//! Cells that were evaluated.

ghost use Rattle.std.specs.Prelude.{◌≡◌, ◌≤◌};
ghost use Rattle.pf_extent.specs.Done.{steps_in};

use pf_extent::DoneCells;

/// How many steps these are.
pub fn count_steps(done: &[DoneCells]) -> u32
    requires { steps_in done.now ≤ 4294967295 }
    ensures { result ≡ steps_in done.now }
{
    let mut count = 0;
    for part in done {
        count += part.run.len();
    }
    count
}
