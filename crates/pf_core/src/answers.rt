//! What calls answer.

use pf_query::{Asked, Stop};
use pf_store::Pin;
use std::sync::Arc;

/// A query that was opened: the place of its ask in the journal, from 0, and its tenant's log as it stood then.
#[derive(Drop)]
pub struct Admitted {
    pub query: u64,
    pub pin: Pin,
}

/// An open query: its tenant's number, the tenant's log as it stood at the ask, what was asked, and the place of its cancel in
/// the journal, if it was cancelled; whether it is planned, how many of its steps were cached then, whether it is offered to the
/// cache, and why it was stopped, if it was.
#[derive(Clone, Copy)]
pub struct Opened<'a> {
    pub tenant: u32,
    pub pin: &'a Pin,
    pub asked: &'a Arc<Asked>,
    pub cancelled: Option<u64>,
    pub planned: bool,
    pub cached: u32,
    pub offered: bool,
    pub stop: Option<Stop>,
}

/// What is told of a cancel: it was done; no query is open there; another tenant, of this number, asked; or it was cancelled
/// before, at this place.
#[derive(Clone, Copy)]
pub enum CancelAnswer {
    Done,
    NotOutstanding,
    OtherTenant { owner: u32 },
    Already { place: u64 },
}

/// What came of a keep: samples of the tenant were deleted since the ask, and this is the generation now; so many steps are kept; or
/// memory ran out.
#[derive(Clone, Copy)]
pub enum Kept {
    Outdated { generation: u64 },
    Steps(u32),
    NoMemory,
}
