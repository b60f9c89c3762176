//! The hops of a run.

ghost use Rattle.std.specs.Prelude.{◌≡◌, IfOk, None, vec_len};

use cases_rows::output::Output;
use cases_rows::outside::failing;
use cases_rows::setting::Setting;
use pf_base::JobHead;
use pf_io::{Failed, Hop};
use std::alloc::AllocError;

/// One hop for each actor.
pub const ACTORS: u32 = 32;

/// A hop that fails at the calls whose numbers are listed, from 0.
#[derive(Drop)]
pub struct ListedHop {
    failing: Vec<u64>,
    calls: u64,
    faults: u64,
}

impl Hop for ListedHop {
    ghost faults = { λ hop. hop.faults };

    ghost most = { λ _. None };

    fn call(&mut self, _head: &JobHead) -> Result<(), Failed> {
        let call = self.calls;
        self.calls = call.saturating_add(1);
        if !self.failing.contains(&call) {
            return Ok(());
        }
        self.faults = self.faults.saturating_add(1);
        Err(Failed)
    }

    ghost within_most = { λ _. tt };
}

/// The calls of an actor's hop that fail, by a part `failing hop ACTOR: NUMBERS`.
fn failing_calls(out: &mut Output, setting: &Setting, actor: u32) -> Vec<u64> {
    let mut what = Output::new(out.alloc());
    what.text("hop ");
    what.show(actor);
    what.text(":");
    let what = out.utf8(what.as_slice());
    failing(out, setting, what)
}

/// The hops of all actors.
pub fn hops_of(out: &mut Output, setting: &Setting) -> Result<Vec<ListedHop>, AllocError>
    ensures { IfOk result (λ v. vec_len v ≡ 32) }
{
    let mut hops = Vec::with_capacity(out.alloc(), ACTORS as usize)?;
    for actor in 0..ACTORS {
        let failing = failing_calls(out, setting, actor);
        hops.push(ListedHop {
            failing,
            calls: 0,
            faults: 0,
        })?;
    }
    Ok(hops)
}
