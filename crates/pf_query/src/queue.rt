//! The queue of a tenant.

ghost use Rattle.std.specs.Prelude.{◌≡◌, ◌+◌, ◌<◌, ◌++◌, ◌∷◌, [], true, false, filter, MatchOption, OnErr, OnOk, position};
ghost use Rattle.pf_query.specs.Jobs.{has_hand, hand_of, is_empty, is_hand, is_other_hand, is_other_job, job_of_held, no_queue, without_hand, IsHanded};

use crate::job::{Hand, Held, Job};
use pf_base::{JobHead, OutOfMemory};
use std::alloc::Global;
use std::collections::VecDeque;
use std::marker::Model;

/// The jobs of a tenant that wait, and what is kept of those in hand. There is room for each of them among both, so that a job
/// goes from one to the other without memory.
#[derive(Drop)]
pub(crate) struct Queue {
    waiting: VecDeque<Job>,
    hands: Vec<Hand>,
}

impl Model for Queue {
    ghost use Rattle.std.specs.Prelude.{◌+◌, ◌≤◌, length, vec_capacity};
    ghost use Rattle.std.specs.VecDeque.{deque_capacity};
    ghost use Rattle.pf_query.specs.Jobs.{QueueData};

    ghost Value = { QueueData };

    ghost use Rattle.pf_query.specs.JobCode.{queue_code};

    ghost coded = { queue_code };

    ghost view = { λ q. record { waiting = q.waiting.items; hands = q.hands.items } };

    ghost invariant = { λ q. (length q.waiting.items + length q.hands.items ≤ deque_capacity q.waiting) × (length q.waiting.items + length q.hands.items ≤ vec_capacity q.hands) };
}

/// The place of a job's first hand.
fn place_of(hands: &[Hand], hand: &Hand) -> Option<usize>
    ensures { result ≡ position (λ h. is_hand h hand.now) hands.now }
{
    hands.iter().position(|h| h == hand)
}

/// The job in hand, tried once more.
fn tried_once_more(held: Held) -> Job
    requires { held.head.tries < 5 }
    ensures { result ≡ job_of_held (held.head.tries + 1) held }
{
    let Held {
        head,
        actor: _,
        legs,
        run,
        snap,
    } = held;
    let tries = head.tries + 1;
    Job {
        head: JobHead { tries, ..head },
        legs,
        run,
        snap,
    }
}

impl Queue {
    /// No jobs.
    pub(crate) fn new(alloc: Global) -> Queue
        ensures { result ≡ no_queue }
    {
        Queue {
            waiting: VecDeque::new(alloc),
            hands: Vec::new(alloc),
        }
    }

    /// Whether no job waits.
    pub(crate) fn is_idle(&self) -> bool
        ensures { result ≡ is_empty self.now.waiting }
    {
        self.waiting.is_empty()
    }

    /// Adds jobs last. Where memory runs out, nothing is changed.
    pub(crate) fn add(&mut self, jobs: Vec<Job>) -> Result<(), OutOfMemory>
        ensures ok { OnOk result (self.new ≡ record { waiting = self.old.waiting ++ jobs.items; hands = self.old.hands }) }
        ensures err { OnErr result (self.new ≡ self.old) }
    {
        self.hands.reserve(self.waiting.len() + jobs.len())?;
        self.waiting.reserve(jobs.len() + self.hands.len())?;
        self.waiting.append(&mut VecDeque::from_vec(jobs))?;
        Ok(())
    }

    /// Hands the first job to an actor.
    pub(crate) fn take(&mut self, actor: u32) -> Option<Held>
        ensures { MatchOption result ((self.old.waiting ≡ []) × (self.new ≡ self.old)) (λ h. IsHanded self.old actor h self.new) }
    {
        let job = self.waiting.pop_front()?;
        let Job {
            head,
            legs,
            run,
            snap,
        } = job;
        self.hands.push_reserved(Hand { head, actor });
        Some(Held {
            head,
            actor,
            legs,
            run,
            snap,
        })
    }

    /// Takes a job out of its actor's hand. Whether it was there.
    pub(crate) fn release(&mut self, hand: Hand) -> bool
        ensures found { result ≡ has_hand hand self.old.hands }
        ensures left { self.new ≡ record { waiting = self.old.waiting; hands = without_hand hand self.old.hands } }
    {
        match place_of(&self.hands, &hand) {
            None => false,
            Some(place) => {
                let _hand = self.hands.remove(place);
                true
            }
        }
    }

    /// Puts a job back last, tried once more. Whether it was in hand.
    pub(crate) fn put_back(&mut self, held: Held) -> bool
        requires { held.head.tries < 5 }
        ensures found { result ≡ has_hand (hand_of held) self.old.hands }
        ensures back { result ≡ true → self.new ≡ record { waiting = self.old.waiting ++ job_of_held (held.head.tries + 1) held ∷ []; hands = without_hand (hand_of held) self.old.hands } }
        ensures unchanged { result ≡ false → self.new ≡ self.old }
    {
        match place_of(&self.hands, &held.hand()) {
            None => false,
            Some(place) => {
                let _hand = self.hands.remove(place);
                self.waiting.push_back_reserved(tried_once_more(held));
                true
            }
        }
    }

    /// Takes out the jobs of a query that wait.
    pub(crate) fn drop_waiting(&mut self, query: u64)
        ensures { self.new ≡ record { waiting = filter (is_other_job query) self.old.waiting; hands = self.old.hands } }
    {
        self.waiting.retain(|job| job.head.query != query);
    }

    /// Takes out the jobs of a query in hand.
    pub(crate) fn drop_hands(&mut self, query: u64)
        ensures { self.new ≡ record { waiting = self.old.waiting; hands = filter (is_other_hand query) self.old.hands } }
    {
        self.hands.retain(|hand| hand.head.query != query);
    }
}
