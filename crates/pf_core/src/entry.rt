//! The entries of the journal.

use pf_asked::Asked;
use pf_base::{Batch, By, Tenant};
use pf_model::Matchers;
use pf_store::{Deleted, Verdicts};
use std::sync::Arc;

/// What an entry says. A tenant is known by its number, a query by the place of its ask in the journal, from 0; times are in
/// milliseconds.
#[derive(Drop)]
pub enum What {
    Append {
        tenant: u32,
        batch: Arc<Batch>,
        verdicts: Arc<Verdicts>,
    },
    Delete {
        tenant: u32,
        matchers: Arc<Matchers>,
        from: u64,
        to: u64,
        deleted: Deleted,
    },
    /// The pin is the number of entries of the tenant's log.
    Ask {
        tenant: u32,
        asked: Arc<Asked>,
        pin: u64,
        generation: u64,
        floor: Option<u64>,
    },
    /// The tenant had as many open queries as it may.
    Full {
        tenant: u32,
        outstanding: u32,
    },
    /// As many tenants were known as may be.
    NoTenant {
        name: Tenant,
    },
    Cancel {
        query: u64,
    },
    Answer {
        query: u64,
        code: u16,
        cached: u32,
        evaluated: u32,
    },
}

/// An entry, with the client and the line that made it.
#[derive(Drop)]
pub struct Entry {
    pub by: By,
    pub what: What,
}
