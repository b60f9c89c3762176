//! The standard output.

ghost use Rattle.std.specs.Prelude.{◌≡◌, ◌≤◌, ◌<◌, length, None, IfSome};

use crate::counts::one_more;
use crate::outside::{Failed, Sink};
use std::io::ErrorKind;
use std::marker::Model;

/// The standard output of a runtime. It tells nothing of what was written.
#[derive(Drop)]
pub struct StdSink<R: Print + Drop> {
    rt: R,
    faults: u64,
}

impl<R: Print + Drop> Model for StdSink<R> {
    ghost use Rattle.std.specs.Prelude.{ℕ};

    ghost Value = { ℕ };

    ghost view = { λ s. s.faults };
}

impl<R: Print + Drop> StdSink<R> {
    pub fn new(rt: R) -> StdSink<R>
        ensures { result ≡ 0 }
    {
        StdSink { rt, faults: 0 }
    }
}

impl<R: Print + Drop> Sink for StdSink<R> {
    ghost faults = { λ count. count };

    ghost told = { λ _. None };

    fn write(&mut self, piece: &[u8]) -> Result<usize, Failed> {
        if piece.is_empty() {
            return Ok(0);
        }
        if let Some(taken) = taken_of(&self.rt, piece) {
            return Ok(taken);
        }
        self.faults = one_more(self.faults);
        Err(Failed)
    }
}

/// How many bytes of the piece were written, which are some, or `None` where none were. A write that a signal
/// interrupted is made again.
fn taken_of<R: Print>(rt: &R, piece: &[u8]) -> Option<usize>
    ensures within { IfSome result (λ taken. taken ≤ length piece.now) }
    ensures some { IfSome result (λ taken. 0 < taken) }
{
    for _ in 0..u64::MAX {
        match rt.write_some(piece) {
            Ok(0) => return None,
            Ok(taken) => return Some(taken),
            Err(error) => {
                if error.kind() != ErrorKind::Interrupted {
                    return None;
                }
            }
        }
    }
    None
}
