//! The lock, its passes and its turns.
ghost use Rattle.std.specs.Prelude.{◌≡◌, ℕ, ◌+◌, ◌-◌, ◌*◌, ◌^◌, ◌<◌, List, [], ◌∷◌, ◌++◌, length, Option, Some, None, IfOk, IfErr, MatchOption};
ghost use mathlib.Core.List.{IsPrefix};
ghost use Rattle.pf_pass.specs.Places.{AreBelow, OwnsAll, ClosesWithin, Spares, Shuts};
ghost use Rattle.pf_pass.specs.Passes.{Known, first_of, longer, Adds, Left, Found};

use crate::logged::Logged;
use crate::steps::{Agree, Begin, Cut, Glue, Lower, Raise, Turns, View};
use atomic_table::{Refused, Seat, Table};
use std::alloc::{AllocFailed, Global};
use std::hint;
use std::marker::Model;
use std::snapshot::Snapshot;
use std::sync::Wait;
use std::sync::atomic::{AtomicU64, Ordering};

// How often a thread tries to begin a turn before it sleeps.
const SPINS: u32 = 100;

/// A value that one thread at a time may have. Contracts see which lock it is.
#[derive(Drop)]
pub struct PassLock<S: Logged> {
    table: Table<Option<S>, View<S::Entry, S::Base>, Snapshot<S>, Turns<S>, Global>,
    // how many threads sleep, or are about to
    sleepers: AtomicU64,
}

impl<S: Logged> Model for PassLock<S> {
    ghost use Rattle.std.specs.Prelude.{◌≡◌};
    ghost use Rattle.pf_pass.specs.Passes.{TableId, table_id_coded};

    ghost Value = { TableId };

    ghost view = { λ l. l.table.shared.table_id };

    ghost invariant = { λ l. (l.table.shared.table_id.words ≡ 1) × (l.table.shared.table_id.slots ≡ 1) };
}

/// The right to enter a lock, with what its holder knows of the history. All passes of a lock together have 64 parts. A pass
/// that is dropped takes its parts with it, and its lock can't be closed.
#[derive(Drop)]
pub struct Pass<S: Logged> {
    seat: Seat<Option<S>, View<S::Entry, S::Base>>,
    // how many entries were seen
    count: u64,
}

impl<S: Logged> Model for Pass<S> {
    ghost use Rattle.pf_pass.specs.Passes.{Known};
    ghost use Rattle.pf_pass.specs.Rule.{known, Sound};

    ghost Value = { Known S.Entry S.Base };

    ghost view = { λ p. known p.seat.table_id p.seat.me.0 };

    ghost invariant = { λ p. Sound p.count p.seat.me };
}

/// The value, out of its lock. It can't be dropped: `leave` takes it.
pub struct Turn<S> {
    pub value: S,
}

/// Why no lock was made.
#[derive(Drop)]
pub enum NewError<S> {
    /// There was no memory. The value comes back.
    OutOfMemory(S),
}

impl<S: Logged> PassLock<S> {
    /// A lock over the value, and the pass that has all parts.
    pub fn new(alloc: Global, value: S) -> Result<(PassLock<S>, Pass<S>), NewError<S>>
        requires room { length (S.history value) < 2 ^ 62 }
        requires within { ClosesWithin S.closes (S.history value) }
        ensures ok { IfOk result (λ r. r.1 ≡ first_of r.0 (S.history value) (S.base value)) }
        ensures err { IfErr result (λ e. e ≡ NewError.OutOfMemory value) }
    {
        let count = value.count();
        let key = Snapshot::of(&value);
        let mut slots = Vec::new(alloc);
        if let Err(AllocFailed { value }) = slots.push(Some(value)) {
            slots.destroy_empty();
            return Err(NewError::OutOfMemory(value.unwrap()));
        }
        match Table::new(alloc, &[2 * count], slots, &key) {
            Ok((table, seat)) => {
                let sleepers = AtomicU64::new(0);
                Ok((PassLock { table, sleepers }, Pass { seat, count }))
            }
            Err(Refused { mut slots }) => {
                let value = slots.pop().unwrap();
                slots.destroy_empty();
                Err(NewError::OutOfMemory(value.unwrap()))
            }
        }
    }

    // A turn, where none was held at that moment.
    fn try_enter(&self, pass: &mut Pass<S>) -> Option<Turn<S>>
        requires lock { pass.old.lock ≡ self.now }
        requires idle { pass.old.turn ≡ 0 }
        ensures { MatchOption result (pass.new ≡ pass.old) (λ t. (pass.new ≡ record pass.old { seen = S.history t.value; turn = 1 }) × (0 < pass.old.parts)
            × Found S.history S.base S.closes pass.old t.value) }
    {
        let even = self.table.shared.peek(0);
        if even % 2 == 1 {
            return None;
        }
        let found = self
            .table
            .shared
            .compare_exchange::<Begin<S>>(&mut pass.seat, 0, even, even + 1);
        if found != even {
            return None;
        }
        pass.count = even / 2;
        let value = self.table.shared.exchange(&mut pass.seat, 0, None).unwrap();
        Some(Turn { value })
    }

    /// Cuts a pass of one part off, for another thread.
    pub fn split(&self, pass: &mut Pass<S>) -> Pass<S>
        requires lock { pass.old.lock ≡ self.now }
        requires idle { pass.old.turn ≡ 0 }
        requires parts { 1 < pass.old.parts }
        ensures kept { pass.new ≡ record pass.old { parts = pass.old.parts - 1 } }
        ensures given { result ≡ record pass.old { own = []; parts = 1 } }
    {
        let seat = self.table.shared.split_seat::<Cut>(&mut pass.seat);
        Pass {
            seat,
            count: pass.count,
        }
    }

    /// Takes another pass in.
    pub fn join(&self, pass: &mut Pass<S>, other: Pass<S>)
        requires lock { (pass.old.lock ≡ self.now) × (other.lock ≡ self.now) }
        requires idle { (pass.old.turn ≡ 0) × (other.turn ≡ 0) }
        ensures pass { pass.new ≡ record pass.old { seen = longer pass.old.seen other.seen; own = pass.old.own ++ other.own; parts = pass.old.parts + other.parts } }
        ensures this { IsPrefix pass.old.seen pass.new.seen }
        ensures that { IsPrefix other.seen pass.new.seen }
    {
        let Pass { seat, count } = other;
        self.table.shared.join_seat::<Glue>(&mut pass.seat, seat);
        self.table.shared.load::<Agree>(&mut pass.seat, 0);
        if pass.count < count {
            pass.count = count;
        }
    }

    // Sleeps while a turn is held. Who leaves that turn finds the sleeper counted, since it was before the word was looked at.
    fn sleep<R: Wait>(&self, rt: &R) {
        let held = self.table.shared.peek(0);
        if held % 2 == 1 {
            self.sleepers.fetch_add(1, Ordering::SeqCst);
            self.table.shared.park(rt, 0, (held & 0xffff_ffff) as u32);
            self.sleepers.fetch_sub(1, Ordering::SeqCst);
        }
    }

    // Wakes one of those that sleep.
    fn wake(&self) {
        if self.sleepers.load(Ordering::SeqCst) > 0 {
            self.table.shared.wake_one(0);
        }
    }

    /// Begins a turn, once no other is held: it tries again for a while, and then sleeps until the turn that is held ends.
    pub fn enter<R: Wait>(&self, rt: &R, pass: &mut Pass<S>) -> Turn<S>
        requires lock { pass.old.lock ≡ self.now }
        requires idle { pass.old.turn ≡ 0 }
        ensures pass { pass.new ≡ record pass.old { seen = S.history result.value; turn = 1 } }
        ensures grows { IsPrefix pass.old.seen (S.history result.value) }
        ensures part { 0 < pass.old.parts }
        ensures own { AreBelow (length pass.old.seen) pass.old.own }
        ensures spares { Spares S.closes (S.history result.value) (length pass.old.seen) pass.old.own }
        ensures shuts { Shuts S.closes (S.history result.value) pass.old.own }
        ensures base { pass.old.base ≡ Some (S.base result.value) }
        ensures room { length (S.history result.value) < 2 ^ 62 }
        ensures alone { pass.old.parts ≡ 64 → (S.history result.value ≡ pass.old.seen) × OwnsAll (length pass.old.seen) pass.old.own }
    {
        let mut tries = 0;
        for _ in rt.forever() {
            if let Some(turn) = self.try_enter(pass) {
                return turn;
            }
            if tries < SPINS {
                tries += 1;
                hint::spin_loop();
            } else {
                self.sleep(rt);
            }
        }
        unreachable!()
    }

    /// Ends the turn that the pass is in. It may have added one entry.
    pub fn leave(&self, pass: &mut Pass<S>, turn: Turn<S>)
        requires lock { pass.old.lock ≡ self.now }
        requires turn { pass.old.turn ≡ 1 }
        requires base { pass.old.base ≡ Some (S.base turn.value) }
        requires entry { Adds S.closes pass.old.own pass.old.seen (S.history turn.value) }
        requires room { length (S.history turn.value) < 2 ^ 62 }
        ensures { Left pass.old (S.history turn.value) pass.new }
    {
        let Turn { value } = turn;
        let count = value.count();
        let slot = self.table.shared.exchange(&mut pass.seat, 0, Some(value));
        let None = slot else { unreachable!() };
        if count == pass.count {
            self.table.shared.fetch_sub::<Lower>(&mut pass.seat, 0, 1);
        } else {
            self.table
                .shared
                .fetch_add::<Raise<S>>(&mut pass.seat, 0, 1);
        }
        pass.count = count;
        self.wake();
    }

    /// Gives the value, to the pass that all others were joined to.
    pub fn close(self, pass: Pass<S>) -> S
        requires lock { pass.lock ≡ self }
        requires idle { pass.turn ≡ 0 }
        requires parts { pass.parts ≡ 64 }
        ensures seen { S.history result ≡ pass.seen }
        ensures base { pass.base ≡ Some (S.base result) }
        ensures own { OwnsAll (length pass.seen) pass.own }
    {
        let PassLock { table, sleepers: _ } = self;
        let Pass { seat, count: _ } = pass;
        let mut closed = table.close_with(seat);
        let slot = closed.take(0);
        closed.free();
        slot.unwrap()
    }
}
