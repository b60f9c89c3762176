//! The jobs of all tenants.

ghost use Rattle.std.specs.Prelude.{◌≡◌, ◌+◌, ◌-◌, ◌<◌, ◌≤◌, true, false, cond, filter, IfOk, OnErr, OnOk};
ghost use Rattle.pf_journal.specs.Machine.{most_tenants};
ghost use Rattle.pf_query.specs.Jobs.{has_hand, hand_of, is_other_hand, is_other_job, tries_left_in};
ghost use Rattle.pf_query.specs.Queueing.{AreAdded, AreEmpty, AreNotInHand, AreNotWaiting, AreQueues, AreSame, IsPutBack, IsReleased, Takes, TakesTries, hands_in, tries_left, waiting_in};

use crate::job::{Held, Job};
use crate::queue::Queue;
use pf_base::OutOfMemory;
use pf_queue::Ring;
use std::alloc::Global;

/// The greatest number of tenants.
pub const MOST_TENANTS: u32 = 1024;

/// The jobs of each of 1,024 tenants, by number: those that wait, first in first out, and those in the hands of actors; and the
/// ring of the tenants with a job that waits.
#[derive(Drop)]
pub struct Queues {
    by_tenant: Vec<Queue>,
    ring: Ring,
}

impl Queues {
    /// No jobs.
    pub fn open(alloc: Global) -> Result<Queues, OutOfMemory>
        ensures empty { IfOk result (λ q. AreEmpty q) }
        ensures queues { IfOk result (λ q. AreQueues q) }
    {
        let mut by_tenant = Vec::with_capacity(alloc, MOST_TENANTS as usize)?;
        for _tenant in 0..MOST_TENANTS {
            by_tenant.push(Queue::new(alloc))?;
        }
        Ok(Queues {
            by_tenant,
            ring: Ring::open(alloc, MOST_TENANTS)?,
        })
    }

    /// Adds jobs of a tenant last. Where memory runs out, nothing is changed.
    pub fn add(&mut self, tenant: u32, jobs: Vec<Job>) -> Result<(), OutOfMemory>
        requires queues { AreQueues self.old }
        requires known { tenant < most_tenants }
        ensures ok { OnOk result (AreAdded self.old tenant jobs.items self.new) }
        ensures ok_tries { OnOk result (tries_left self.new ≡ tries_left self.old + tries_left_in jobs.items) }
        ensures err { OnErr result (AreSame self.old self.new) }
        ensures err_tries { OnErr result (tries_left self.new ≡ tries_left self.old) }
        ensures queues { AreQueues self.new }
    {
        let queue = &mut self.by_tenant[tenant as usize];
        let enters = queue.is_idle() && !jobs.is_empty();
        queue.add(jobs)?;
        if enters {
            self.ring.add(tenant);
        }
        Ok(())
    }

    /// Hands the first job of the first tenant to an actor, and puts the tenant last if it has more. None exactly where no job
    /// waits. Takes no memory, as all calls below.
    pub fn take(&mut self, actor: u32) -> Option<Held>
        requires { AreQueues self.old }
        ensures taken { Takes self.old actor result self.new }
        ensures tries { TakesTries self.old result self.new }
        ensures queues { AreQueues self.new }
    {
        let tenant = self.ring.take()?;
        let queue = &mut self.by_tenant[tenant as usize];
        let held = queue.take(actor);
        if !queue.is_idle() {
            self.ring.add(tenant);
        }
        held
    }

    /// Takes a job out of its actor's hand. Whether it was there.
    pub fn release(&mut self, held: &Held) -> bool
        requires { AreQueues self.old }
        ensures found { result ≡ has_hand (hand_of held.now) (hands_in self.old held.now.head.tenant) }
        ensures released { IsReleased self.old held.now self.new }
        ensures tries { tries_left self.new ≡ tries_left self.old }
        ensures queues { AreQueues self.new }
    {
        let hand = held.hand();
        let tenant = hand.head.tenant;
        if tenant >= MOST_TENANTS {
            return false;
        }
        let queue = &mut self.by_tenant[tenant as usize];
        queue.release(hand)
    }

    /// Puts a job back, last in its tenant's queue, tried once more. Whether it was in hand; if not, nothing is changed.
    pub fn put_back(&mut self, held: Held) -> bool
        requires queues { AreQueues self.old }
        requires tries { held.head.tries < 5 }
        ensures found { result ≡ has_hand (hand_of held) (hands_in self.old held.head.tenant) }
        ensures back { result ≡ true → IsPutBack self.old held self.new }
        ensures unchanged { result ≡ false → AreSame self.old self.new }
        ensures tries { tries_left self.new ≡ tries_left self.old + cond result (5 - (held.head.tries + 1)) 0 }
        ensures queues { AreQueues self.new }
    {
        let tenant = held.head.tenant;
        if tenant >= MOST_TENANTS {
            return false;
        }
        let queue = &mut self.by_tenant[tenant as usize];
        let enters = queue.is_idle();
        let found = queue.put_back(held);
        if found && enters {
            self.ring.add(tenant);
        }
        found
    }

    /// Takes out the jobs of a query that wait. Its tenant leaves the ring where no other job waits.
    pub fn drop_waiting(&mut self, tenant: u32, query: u64)
        requires queues { AreQueues self.old }
        requires known { tenant < most_tenants }
        ensures dropped { AreNotWaiting self.old tenant query self.new }
        ensures tries { tries_left self.new ≤ tries_left self.old }
        ensures queues { AreQueues self.new }
    {
        let queue = &mut self.by_tenant[tenant as usize];
        queue.drop_waiting(query);
        if queue.is_idle() {
            self.ring.leave(tenant);
        }
    }

    /// Takes out the jobs of a query in hand.
    pub fn drop_hands(&mut self, tenant: u32, query: u64)
        requires queues { AreQueues self.old }
        requires known { tenant < most_tenants }
        ensures dropped { AreNotInHand self.old tenant query self.new }
        ensures tries { tries_left self.new ≡ tries_left self.old }
        ensures queues { AreQueues self.new }
    {
        let queue = &mut self.by_tenant[tenant as usize];
        queue.drop_hands(query);
    }

    /// Takes out the jobs of a query that wait, as `drop_waiting` does. Where none of them waits, no job is gone over.
    pub(crate) fn drop_some_waiting(&mut self, tenant: u32, query: u64, some: bool)
        requires queues { AreQueues self.old }
        requires known { tenant < most_tenants }
        requires none { some ≡ false → filter (is_other_job query) (waiting_in self.old tenant) ≡ waiting_in self.old tenant }
        ensures dropped { AreNotWaiting self.old tenant query self.new }
        ensures tries { tries_left self.new ≤ tries_left self.old }
        ensures queues { AreQueues self.new }
    {
        if some {
            self.drop_waiting(tenant, query);
        }
    }

    /// Takes out the jobs of a query in hand, as `drop_hands` does. Where none of them is in hand, no hand is gone over.
    pub(crate) fn drop_some_hands(&mut self, tenant: u32, query: u64, some: bool)
        requires queues { AreQueues self.old }
        requires known { tenant < most_tenants }
        requires none { some ≡ false → filter (is_other_hand query) (hands_in self.old tenant) ≡ hands_in self.old tenant }
        ensures dropped { AreNotInHand self.old tenant query self.new }
        ensures tries { tries_left self.new ≡ tries_left self.old }
        ensures queues { AreQueues self.new }
    {
        if some {
            self.drop_hands(tenant, query);
        }
    }
}
