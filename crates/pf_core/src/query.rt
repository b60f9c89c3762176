//! The open queries by the places of their asks.

ghost use Rattle.std.specs.HashMap.{get, spare};
ghost use Rattle.std.specs.Prelude.{◌≡◌, ℕ, ◌<◌, None, Some, cond, nat_eq};
ghost use Rattle.pf_core.specs.States.{cancelled_query};

use pf_asked::Asked;
use pf_store::Pin;
use std::collections::HashMap;
use std::sync::Arc;

/// An open query: its tenant's number, what was asked, its tenant's log as it stood at the ask, and the place of its cancel.
#[derive(Drop)]
pub struct Query {
    pub tenant: u32,
    pub asked: Arc<Asked>,
    pub pin: Pin,
    pub cancelled: Option<u64>,
}

/// Open queries by their places.
pub type Queries = HashMap<u64, Query>;

/// Opens a query, for which there is room.
pub fn open(queries: &mut Queries, place: u64, query: Query)
    requires { 0 < spare queries.old }
    ensures { (p : ℕ) → get nat_eq queries.new p ≡ cond (nat_eq place p) (Some query) (get nat_eq queries.old p) }
{
    let Ok(_) = queries.insert(place, query) else {
        unreachable!()
    };
}

/// Notes the place of the cancel of a query.
pub fn cancel(queries: &mut Queries, query: u64, place: u64)
    ensures { (p : ℕ) → get nat_eq queries.new p ≡ cond (nat_eq query p) (cancelled_query place (get nat_eq queries.old p)) (get nat_eq queries.old p) }
{
    if let Some(open) = queries.get_mut(&query) {
        open.cancelled = Some(place);
    }
}
