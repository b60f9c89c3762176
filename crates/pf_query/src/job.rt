//! Jobs.

ghost use Rattle.std.specs.Prelude.{◌≡◌};
ghost use Rattle.pf_query.specs.Jobs.{hand_of};

use pf_base::{Grid, JobHead};
use pf_block::Snap;
use pf_shard::Legs;
use std::sync::Arc;

/// A job that waits: a leg of a query over a run, with what it is evaluated by.
#[derive(Drop)]
pub struct Job {
    pub head: JobHead,
    pub legs: Arc<Legs>,
    pub run: Grid,
    pub snap: Arc<Snap>,
}

/// A job in an actor's hand.
#[derive(Drop)]
pub struct Held {
    pub head: JobHead,
    pub actor: u32,
    pub legs: Arc<Legs>,
    pub run: Grid,
    pub snap: Arc<Snap>,
}

/// What is kept of a job that was handed to an actor.
#[derive(Clone, Copy, PartialEq, Eq)]
pub struct Hand {
    pub head: JobHead,
    pub actor: u32,
}

impl Held {
    /// What is kept of it while it is in hand.
    pub fn hand(&self) -> Hand
        ensures { result ≡ hand_of self.now }
    {
        Hand {
            head: self.head,
            actor: self.actor,
        }
    }
}
