//! The ring.

ghost use Rattle.std.specs.Prelude.{◌≡◌, ◌++◌, ◌∷◌, [], drop, slice_get, false, IfOk, IfSome};
ghost use Rattle.pf_queue.specs.Rings.{AreDifferent, MayWait, waits, without};

use crate::links::{link_last, unlink};
use pf_base::OutOfMemory;
use std::alloc::Global;
use std::marker::Model;

/// Tenants that wait, by their numbers from 0 to below the capacity.
#[derive(Drop)]
pub struct Ring {
    next: Vec<u32>,
    previous: Vec<u32>,
    end: u32,
}

impl Model for Ring {
    ghost use Rattle.pf_queue.specs.Links.{IsRing, waiting_of};
    ghost use Rattle.pf_queue.specs.Rings.{RingData};

    ghost Value = { RingData };

    ghost view = { λ r. record { capacity = r.end; waiting = waiting_of r.next.items r.end } };

    ghost invariant = { λ r. IsRing r.next.items r.previous.items r.end (waiting_of r.next.items r.end) };
}

impl Ring {
    /// A ring in which none waits. No other call takes memory.
    pub fn open(alloc: Global, capacity: u32) -> Result<Ring, OutOfMemory>
        ensures { IfOk result (λ r. (r.capacity ≡ capacity) × (r.waiting ≡ [])) }
    {
        let places = capacity as usize + 1;
        let mut next = Vec::with_capacity(alloc, places)?;
        let mut previous = Vec::with_capacity(alloc, places)?;
        for tenant in 0..places {
            next.push(tenant as u32)?;
            previous.push(tenant as u32)?;
        }
        Ok(Ring {
            next,
            previous,
            end: capacity,
        })
    }

    /// Puts a tenant last.
    pub fn add(&mut self, tenant: u32)
        requires { MayWait self.old tenant }
        ensures waiting { self.new.waiting ≡ self.old.waiting ++ tenant ∷ [] }
        ensures capacity { self.new.capacity ≡ self.old.capacity }
    {
        link_last(&mut self.next, &mut self.previous, self.end, tenant);
    }

    /// Takes out the first, if one waits. It may be put in again at once.
    pub fn take(&mut self) -> Option<u32>
        ensures first { result ≡ slice_get self.old.waiting 0 }
        ensures others { self.new.waiting ≡ drop 1 self.old.waiting }
        ensures capacity { self.new.capacity ≡ self.old.capacity }
        ensures free { IfSome result (λ t. MayWait self.new t) }
    {
        let first = self.next[self.end as usize];
        if first == self.end {
            return None;
        }
        unlink(&mut self.next, &mut self.previous, first);
        Some(first)
    }

    /// Takes out a tenant if it waits. The others keep their order.
    pub fn leave(&mut self, tenant: u32)
        ensures waiting { self.new.waiting ≡ without tenant self.old.waiting }
        ensures capacity { self.new.capacity ≡ self.old.capacity }
        ensures gone { waits tenant self.new.waiting ≡ false }
    {
        if self.contains(tenant) {
            unlink(&mut self.next, &mut self.previous, tenant);
        }
    }

    /// Whether a tenant waits.
    pub fn contains(&self, tenant: u32) -> bool
        ensures value { result ≡ waits tenant self.now.waiting }
        ensures once { AreDifferent self.now.waiting }
    {
        tenant < self.end && self.next[tenant as usize] != tenant
    }
}
