//! Files on disk.

ghost use Rattle.std.specs.Prelude.{◌≡◌, ◌≤◌, [], false, length, None, OnOk};
ghost use Rattle.pf_io.specs.Outside.{Holds, LongerThan};

use crate::counts::one_more;
use crate::outside::{Files, ReadError};
use std::fs;
use std::io::{ErrorKind, Read};
use std::marker::Model;

/// The files that a runtime reaches. It tells nothing of what they hold, and which are there.
#[derive(Drop)]
pub struct DiskFiles<R: std::rt::Files + Drop> {
    rt: R,
    faults: u64,
    failed: bool,
}

impl<R: std::rt::Files + Drop> Model for DiskFiles<R> {
    ghost use Rattle.pf_io.specs.InMemory.{DiskData};

    ghost Value = { DiskData };

    ghost view = { λ f. record { faults = f.faults; failed = f.failed } };
}

impl<R: std::rt::Files + Drop> DiskFiles<R> {
    pub fn new(rt: R) -> DiskFiles<R>
        ensures { result ≡ record { faults = 0; failed = false } }
    {
        DiskFiles {
            rt,
            faults: 0,
            failed: false,
        }
    }
}

impl<R: std::rt::Files + Drop> Files for DiskFiles<R> {
    ghost faults = { λ d. d.faults };

    ghost told = { λ _ _. None };

    ghost sure = { λ _ _. false };

    ghost lost = { λ _ _. false };

    ghost failed = { λ d. d.failed };

    fn read(&mut self, name: &str, into: &mut Vec<u8>, most: usize) -> Result<(), ReadError> {
        into.clear();
        let answer = match fs::open(&self.rt, name) {
            Ok(mut file) => fill(&mut file, into, most),
            Err(_) => Err(ReadError::Failed),
        };
        self.failed = false;
        if let Err(ReadError::Failed) = answer {
            self.failed = true;
            self.faults = one_more(self.faults);
        }
        answer
    }
}

/// Adds what is left in the file to `into`, as long as there are at most `most` bytes. A read that a signal interrupted
/// is made again.
fn fill<F: Read>(file: &mut F, into: &mut Vec<u8>, most: usize) -> Result<(), ReadError>
    requires { into.old.items ≡ [] }
    ensures contents { OnOk result (Holds (F.remaining file.old) into.new.items) }
    ensures within { OnOk result (length into.new.items ≤ most) }
    ensures too_long { result ≡ Err ReadError.TooLong → LongerThan (F.remaining file.old) most }
{
    let mut buffer = [0u8; 8192];
    for _ in 0..u64::MAX {
        match file.read(&mut buffer) {
            Ok(0) => return Ok(()),
            Ok(taken) => {
                if taken > most - into.len() {
                    return Err(ReadError::TooLong);
                }
                into.extend_from_slice(&buffer[..taken])?;
            }
            Err(error) => {
                if error.kind() != ErrorKind::Interrupted {
                    return Err(ReadError::Failed);
                }
            }
        }
    }
    Err(ReadError::Failed)
}
