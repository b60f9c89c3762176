//! What became of asks, by line.

ghost use Rattle.std.specs.Prelude.{◌≡◌, ℕ, MatchOption, None, OnOk, Some, cond, nat_eq};
ghost use Rattle.std.specs.BTreeMap.{get};
ghost use Rattle.std.specs.Ordering.{nat_cmp};
ghost use Rattle.pf_client.specs.Asks.{IsNoQuery};
ghost use Rattle.pf_client.specs.declared.slots.Slot.TheVariants.{Asked};

use pf_base::{GridError, OutOfMemory};
use pf_types::QueryError;
use std::collections::BTreeMap;

/// What became of an ask.
#[derive(Clone, Copy)]
pub enum Slot {
    /// A query was opened: the place of its ask in the journal.
    Asked { query: u64 },
    /// The grid was refused.
    BadGrid(GridError),
    /// The query was refused.
    BadQuery(QueryError),
    Full,
    TooManyTenants,
    NoMemory,
}

/// What became of asks, by the numbers of their lines.
pub type Slots = BTreeMap<u32, Slot>;

/// Notes what became of the ask of a line.
pub fn keep(slots: &mut Slots, line: u32, slot: Slot) -> Result<(), OutOfMemory>
    ensures { OnOk result ((k : ℕ) → get nat_cmp slots.new k ≡ cond (nat_eq line k) (Some slot) (get nat_cmp slots.old k)) }
{
    slots.insert(line, slot)?;
    Ok(())
}

/// What became of the ask of a line.
pub fn kept(slots: &Slots, line: u32) -> Option<Slot>
    ensures { result ≡ get nat_cmp slots.now line }
{
    match slots.get(&line) {
        Some(slot) => Some(*slot),
        None => None,
    }
}

/// Lets go what became of the ask of a line.
pub fn forget(slots: &mut Slots, line: u32)
    ensures { (k : ℕ) → get nat_cmp slots.new k ≡ cond (nat_eq line k) None (get nat_cmp slots.old k) }
{
    let _slot = slots.remove(&line);
}

/// The query that the ask of a line opened, unless it was answered.
pub fn query_of(slots: &Slots, line: u32) -> Option<u64>
    ensures { MatchOption result (IsNoQuery (get nat_cmp slots.now line)) (λ q. get nat_cmp slots.now line ≡ Some (Asked q)) }
{
    match slots.get(&line) {
        Some(Slot::Asked { query }) => Some(*query),
        _ => None,
    }
}
