//! How fine a subquery may be. Prometheus, Querying basics: Subquery.

ghost use Rattle.std.specs.Prelude.{◌≡◌};
ghost use Rattle.pf_types.specs.Faults.{fault_in};
ghost use Rattle.pf_types.specs.Rules.{fineness_fault};

use crate::error::TypeError;

/// The most points of a subquery's range.
const MOST_POINTS: u128 = 11_000;

/// A subquery's resolution where it has none, in milliseconds.
const RESOLUTION: u64 = 60_000;

/// A subquery's range and resolution, in milliseconds.
pub(crate) fn fineness(at: u32, range: u64, resolution: Option<u64>) -> Result<(), TypeError>
    ensures { fault_in result ≡ fineness_fault at range resolution }
{
    if MOST_POINTS * (resolution.unwrap_or(RESOLUTION) as u128) < range as u128 {
        Err(TypeError::SubqueryTooFine { at })
    } else {
        Ok(())
    }
}
