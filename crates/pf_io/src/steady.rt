//! The hop and the gate of a run in one process.

ghost use Rattle.std.specs.Prelude.{Some};
ghost use Rattle.std.proofs.Common.{rules};

use crate::outside::{Failed, Gate, Hop};
use pf_base::JobHead;

/// A hop that never fails.
#[derive(Drop)]
pub struct SteadyHop;

impl Hop for SteadyHop {
    ghost faults = { λ _. 0 };

    ghost most = { λ _. Some 0 };

    fn call(&mut self, _head: &JobHead) -> Result<(), Failed> {
        Ok(())
    }

    ghost within_most = { λ hop. Prim.search rules };
}

/// A gate that holds nobody.
#[derive(Drop)]
pub struct OpenGate;

impl Gate for OpenGate {
    fn at(&self, _actor: u32, _head: &JobHead) {}
}
