//! Whether evaluated cells cover runs.

ghost use Rattle.std.specs.Prelude.{◌≡◌, ◌≤◌, drop, length};
ghost use Rattle.pf_query.specs.Covers.{CoverMore, beyond, covers, lies_in};

use pf_base::Grid;
use pf_extent::DoneCells;

/// Whether a run begins and ends within another.
fn lies_in(run: Grid, whole: Grid) -> bool
    ensures { result ≡ lies_in run whole }
{
    let last = run.at(run.len() - 1);
    whole.start() <= run.start() && last <= whole.at(whole.len() - 1)
}

/// The place of the first run from one on that doesn't lie in a run.
fn pass(runs: &[Grid], from: usize, whole: Grid) -> usize
    requires { from ≤ length runs.now }
    ensures within { result ≤ length runs.now }
    ensures rest { drop result runs.now ≡ beyond whole (drop from runs.now) }
{
    for i in from..runs.len() {
        if !lies_in(runs[i], whole) {
            return i;
        }
    }
    runs.len()
}

/// Whether each run lies in that of some cells, in their order. It goes over both once.
pub fn covers(runs: &[Grid], cells: &[DoneCells]) -> bool
    ensures { result ≡ covers runs.now cells.now }
{
    let mut from = 0;
    for done in cells {
        from = pass(runs, from, done.run);
    }
    from == runs.len()
}

/// Does nothing. Its contract is a law: cells in front, which runs in front lie in, cover these as well.
pub fn cover_more()
    ensures { CoverMore }
{}
