//! What is told of an entry.

use crate::stop::Stop;

/// A query's tenant, why it was stopped, if it was, whether it is planned, its parts were handed out and it is offered, how many
/// of its steps were cached, and how many of its jobs wait and are in hand.
#[derive(Clone, Copy)]
pub struct EntryState {
    pub tenant: u32,
    pub stop: Option<Stop>,
    pub planned: bool,
    pub given: bool,
    pub offered: bool,
    pub cached: u32,
    pub queued: u32,
    pub in_hand: u32,
}
