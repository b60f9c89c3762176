//! A sink in memory.

ghost use Rattle.std.specs.Prelude.{◌≡◌, ◌≤◌, ◌<◌, Some, IsTrue, [], length, take, IfOk, IsErr, OnOk, OnErr};
ghost use Rattle.pf_io.specs.InMemory.{fails, takes};
ghost use Rattle.pf_io.specs.Outside.{Rose, UpByOne, Grows};

use crate::counts::{is_listed, one_more};
use crate::outside::{Failed, Sink};
use std::alloc::Global;
use std::marker::Model;

/// A sink that keeps the bytes. It fails at the calls whose numbers are listed, and for want of memory.
#[derive(Drop)]
pub struct MemSink {
    written: Vec<u8>,
    failing: Vec<u64>,
    most_a_call: usize,
    calls: u64,
    faults: u64,
}

impl Model for MemSink {
    ghost use Rattle.pf_io.specs.InMemory.{SinkData};

    ghost Value = { SinkData };

    ghost view = { λ s. record { bytes = s.written.items; failing = s.failing.items; most_a_call = s.most_a_call; calls = s.calls; faults = s.faults } };
}

impl MemSink {
    /// An empty sink that fails at these calls, the first of which is 0, and takes at most this many bytes in one call,
    /// with 0 for no bound.
    pub fn new(alloc: Global, failing: Vec<u64>, most_a_call: usize) -> MemSink
        ensures { result ≡ record { bytes = []; failing = failing.items; most_a_call = most_a_call; calls = 0; faults = 0 } }
    {
        MemSink {
            written: Vec::new(alloc),
            failing,
            most_a_call,
            calls: 0,
            faults: 0,
        }
    }

    /// What was written so far.
    pub fn bytes(&self) -> &[u8]
        ensures { result.now ≡ self.now.bytes }
    {
        self.written.as_slice()
    }
}

impl Sink for MemSink {
    ghost faults = { λ s. s.faults };

    ghost told = { λ s. Some s.bytes };

    fn write(&mut self, piece: &[u8]) -> Result<usize, Failed>
        ensures within { IfOk result (λ taken. taken ≤ length piece.now) }
        ensures some { 0 < length piece.now → IfOk result (λ taken. 0 < taken) }
        ensures written { IfOk result (λ taken. Grows (Some self.old.bytes) (Some self.new.bytes) (take taken piece.now)) }
        ensures failed { OnErr result (Rose self.old.faults self.new.faults) }
        ensures unchanged { OnErr result (Grows (Some self.old.bytes) (Some self.new.bytes) []) }
        ensures counted { self.old.faults ≤ self.new.faults }
        ensures listed { IsTrue (fails self.old.failing self.old.calls) → IsErr result }
        ensures taken { IfOk result (λ taken. taken ≡ takes self.old.most_a_call (length piece.now)) }
        ensures called { UpByOne self.old.calls self.new.calls }
        ensures risen { OnErr result (UpByOne self.old.faults self.new.faults) }
        ensures steady { OnOk result (self.new.faults ≡ self.old.faults) }
        ensures same_failing { self.new.failing ≡ self.old.failing }
        ensures same_most { self.new.most_a_call ≡ self.old.most_a_call }
    {
        let call = self.calls;
        self.calls = one_more(call);
        let taken = at_most(self.most_a_call, piece.len());
        if !is_listed(self.failing.as_slice(), call)
            && self.written.extend_from_slice(&piece[..taken]).is_ok()
        {
            return Ok(taken);
        }
        self.faults = one_more(self.faults);
        Err(Failed)
    }
}

/// How many of so many bytes are taken in one call.
fn at_most(most_a_call: usize, size: usize) -> usize
    ensures takes { result ≡ takes most_a_call size }
    ensures within { result ≤ size }
    ensures some { 0 < size → 0 < result }
{
    if most_a_call == 0 {
        size
    } else {
        most_a_call.min(size)
    }
}
