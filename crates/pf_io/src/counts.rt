//! Counts that stop at their greatest value, and calls that are to fail.

ghost use Rattle.std.specs.Prelude.{◌≡◌, ◌≤◌};
ghost use Rattle.pf_io.specs.InMemory.{fails};
ghost use Rattle.pf_io.specs.Outside.{Rose, UpByOne};

/// One more, or the same where there is no greater number.
pub(crate) fn one_more(count: u64) -> u64
    ensures up { UpByOne count result }
    ensures rose { Rose count result }
    ensures kept { count ≤ result }
{
    count.saturating_add(1)
}

/// Whether the call of this number is one that fails.
pub(crate) fn is_listed(failing: &[u64], call: u64) -> bool
    ensures { result ≡ fails failing.now call }
{
    failing.contains(&call)
}
