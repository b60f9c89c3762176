//! The jobs of open queries: they are handed to actors, and collected.

ghost use Rattle.std.specs.Prelude.{◌≡◌, ◌<◌, ◌≤◌};
ghost use Rattle.pf_core.specs.Calls.{IsCollected, IsFailed, IsFinished, IsLacked, IsLackedBy, IsPartOf, IsTried, StandsForAsk, Takes, TriesAfter, counted};
ghost use Rattle.pf_core.specs.Cores.{tries_left};
ghost use Rattle.pf_core.specs.States.{IsAhead, IsState, core_of};

use crate::state::State;
use pf_query::{Collected, FailedTry, Finished, Held};
use pf_shard::Part;

impl State {
    /// Hands the first job of the first tenant to an actor.
    pub fn take(&mut self, actor: u32) -> Option<Held>
        requires state { IsState self.old }
        ensures state { IsState self.new }
        ensures taken { Takes (core_of self.old) actor result (core_of self.new) }
    {
        self.table.take(actor)
    }

    /// Puts the part of a job in hand into its slot.
    pub fn finish(&mut self, held: Held, part: Part) -> Finished
        requires state { IsState self.old }
        requires stands { StandsForAsk (core_of self.old) held }
        requires part { IsPartOf (core_of self.old) held part }
        ensures state { IsState self.new }
        ensures finished { IsFinished (core_of self.old) held result (core_of self.new) }
        ensures tries { tries_left (core_of self.new) ≡ tries_left (core_of self.old) }
    {
        self.table.finish(held, part)
    }

    /// Counts a failed try of an actor, up to the greatest total.
    fn count_failed(&mut self, actor: u32)
        requires state { IsState self.old }
        requires known { actor < 32 }
        ensures state { IsState self.new }
        ensures counted { core_of self.new ≡ counted (core_of self.old) actor }
        ensures ahead { IsAhead (core_of self.new) }
    {
        if self.total < u64::MAX {
            self.failed[actor as usize] += 1;
            self.total += 1;
        }
    }

    /// Lets a job whose try was counted wait again.
    fn try_again(&mut self, held: Held) -> FailedTry
        requires state { IsState self.old }
        requires ahead { IsAhead (core_of self.old) }
        requires stands { StandsForAsk (core_of self.old) held }
        ensures state { IsState self.new }
        ensures tried { IsTried (core_of self.old) held result (core_of self.new) }
        ensures tries { TriesAfter (core_of self.old) result (core_of self.new) }
    {
        self.table.fail(held)
    }

    /// Counts a failed try, and lets its job wait again.
    pub fn fail(&mut self, held: Held) -> FailedTry
        requires state { IsState self.old }
        requires stands { StandsForAsk (core_of self.old) held }
        requires known { held.actor < 32 }
        ensures state { IsState self.new }
        ensures failed { IsFailed (core_of self.old) held result (core_of self.new) }
        ensures tries { TriesAfter (core_of self.old) result (core_of self.new) }
    {
        self.count_failed(held.actor);
        self.try_again(held)
    }

    /// Takes a job out of its actor's hand, and stops its query for want of memory.
    pub fn lack_job(&mut self, held: Held)
        requires state { IsState self.old }
        ensures state { IsState self.new }
        ensures lacked { IsLackedBy (core_of self.old) held (core_of self.new) }
        ensures tries { tries_left (core_of self.new) ≤ tries_left (core_of self.old) }
    {
        self.table.lack_job(held);
    }

    /// Stops a query for want of memory.
    pub fn lack_query(&mut self, query: u64)
        requires state { IsState self.old }
        ensures state { IsState self.new }
        ensures lacked { IsLacked (core_of self.old) query (core_of self.new) }
    {
        self.table.lack_query(query);
    }

    /// What a query has.
    pub fn collect(&mut self, query: u64) -> Option<Collected>
        requires state { IsState self.old }
        ensures state { IsState self.new }
        ensures collected { IsCollected (core_of self.old) query result (core_of self.new) }
        ensures tries { tries_left (core_of self.new) ≡ tries_left (core_of self.old) }
    {
        self.table.collect(query)
    }
}
