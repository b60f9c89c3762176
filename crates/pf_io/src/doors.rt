//! Doors over connections in memory.

ghost use Rattle.std.specs.Prelude.{◌≡◌, ◌≤◌, ◌∷◌, [], IsOk, IfOk, OnErr, MatchOption};
ghost use Rattle.pf_io.specs.Outside.{UpByOne};

use crate::counts::one_more;
use crate::outside::{Doors, Failed};
use std::marker::Model;
use std::vec::IntoIter;

/// Doors that hand out the connections that they were made of, in order, and never fail.
#[derive(Drop)]
pub struct MemDoors<I: Drop> {
    connections: IntoIter<I>,
    given: u64,
    nones: u64,
}

impl<I: Drop> Model for MemDoors<I> {
    ghost use Rattle.std.specs.Vec.Iter.{into_iter_items};
    ghost use Rattle.pf_io.specs.InMemory.{DoorsData};

    ghost Value = { DoorsData I };

    ghost view = { λ d. record { waiting = into_iter_items d.connections; given = d.given; nones = d.nones } };
}

impl<I: Drop> MemDoors<I> {
    pub fn new(connections: Vec<I>) -> MemDoors<I>
        ensures { result ≡ record { waiting = connections.items; given = 0; nones = 0 } }
    {
        MemDoors {
            connections: connections.into_iter(),
            given: 0,
            nones: 0,
        }
    }
}

impl<I: Drop> Doors for MemDoors<I> {
    type Io = I;

    ghost faults = { λ _. 0 };

    ghost given = { λ d. d.given };

    ghost nones = { λ d. d.nones };

    fn next(&mut self) -> Result<Option<I>, Failed>
        ensures answers { IsOk result }
        ensures order { IfOk result (λ io. MatchOption io ((self.old.waiting ≡ []) × (self.new.waiting ≡ [])) (λ x. self.old.waiting ≡ x ∷ self.new.waiting)) }
        ensures handed { IfOk result (λ io. MatchOption io (self.new.given ≡ self.old.given) (λ _. UpByOne self.old.given self.new.given)) }
        ensures ended { IfOk result (λ io. MatchOption io (UpByOne self.old.nones self.new.nones) (λ _. self.new.nones ≡ self.old.nones)) }
        ensures none_given { OnErr result (self.new.given ≡ self.old.given) }
        ensures none_ended { OnErr result (self.new.nones ≡ self.old.nones) }
        ensures given_rises { self.old.given ≤ self.new.given }
        ensures nones_rise { self.old.nones ≤ self.new.nones }
    {
        let next = self.connections.next();
        if next.is_some() {
            self.given = one_more(self.given);
        } else {
            self.nones = one_more(self.nones);
        }
        Ok(next)
    }
}
