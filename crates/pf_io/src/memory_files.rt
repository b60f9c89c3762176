//! Files in memory.

ghost use Rattle.std.specs.Prelude.{◌≡◌, ◌≢◌, ◌⊎◌, ◌≤◌, ◌<◌, ℕ, List, Some, None, IsTrue, false, true, length, OnOk, MatchOption};
ghost use Rattle.pf_io.specs.InMemory.{contents, held, fails, is_lost, is_sure};
ghost use Rattle.pf_io.specs.Outside.{Rose, UpByOne, Holds, LongerThan, StayKnown};

use crate::counts::{is_listed, one_more};
use crate::outside::{Files, ReadError};
use pf_base::Text;
use std::marker::Model;

/// Pairs of a name and what it holds, of which the first counts. A read of another name fails, and so do the calls
/// whose numbers are listed.
#[derive(Drop)]
pub struct MemFiles {
    files: Vec<(Text, Vec<u8>)>,
    failing: Vec<u64>,
    calls: u64,
    faults: u64,
    failed: bool,
}

impl Model for MemFiles {
    ghost use Rattle.pf_io.specs.InMemory.{FilesData, contents};

    ghost Value = { FilesData };

    ghost view = { λ f. record { files = contents f.files.items; failing = f.failing.items; calls = f.calls; faults = f.faults; failed = f.failed } };
}

impl MemFiles {
    /// These files, with the numbers of the calls that fail, the first of which is 0.
    pub fn new(files: Vec<(Text, Vec<u8>)>, failing: Vec<u64>) -> MemFiles
        ensures { result ≡ record { files = contents files.items; failing = failing.items; calls = 0; faults = 0; failed = false } }
    {
        MemFiles {
            files,
            failing,
            calls: 0,
            faults: 0,
            failed: false,
        }
    }
}

impl Files for MemFiles {
    ghost faults = { λ f. f.faults };

    ghost told = { λ f. held f.files };

    ghost sure = { is_sure };

    ghost lost = { λ f. is_lost f.files };

    ghost failed = { λ f. f.failed };

    #[tactic(auto, using(crate::proofs::Sureness::sure_read, crate::proofs::Sureness::lost_read, crate::proofs::Sureness::sure_stays))]
    fn read(&mut self, name: &str, into: &mut Vec<u8>, most: usize) -> Result<(), ReadError>
        ensures contents { OnOk result (Holds (held self.old.files name.now) into.new.items) }
        ensures within { OnOk result (length into.new.items ≤ most) }
        ensures too_long { result ≡ Err ReadError.TooLong → LongerThan (held self.old.files name.now) most }
        ensures failed { result ≡ Err ReadError.Failed → Rose self.old.faults self.new.faults }
        ensures counted { self.old.faults ≤ self.new.faults }
        ensures sure { IsTrue (is_sure self.old name.now) → result ≢ Err ReadError.Failed }
        ensures lost { IsTrue (is_lost self.old.files name.now) → result ≡ Err ReadError.Failed }
        ensures last_failed { result ≡ Err ReadError.Failed → self.new.failed ≡ true }
        ensures last_done { result ≢ Err ReadError.Failed → self.new.failed ≡ false }
        ensures kept { (other : List ℕ) → held self.new.files other ≡ held self.old.files other }
        ensures kept_sure { StayKnown (is_sure self.old) (is_sure self.new) }
        ensures kept_lost { (other : List ℕ) → is_lost self.new.files other ≡ is_lost self.old.files other }
        ensures listed { IsTrue (fails self.old.failing self.old.calls) → result ≡ Err ReadError.Failed }
        ensures missing { held self.old.files name.now ≡ None → result ≡ Err ReadError.Failed }
        ensures cause { result ≡ Err ReadError.Failed → IsTrue (fails self.old.failing self.old.calls) ⊎ (held self.old.files name.now ≡ None) }
        ensures called { UpByOne self.old.calls self.new.calls }
        ensures risen { result ≡ Err ReadError.Failed → UpByOne self.old.faults self.new.faults }
        ensures steady { result ≢ Err ReadError.Failed → self.new.faults ≡ self.old.faults }
        ensures same_files { self.new.files ≡ self.old.files }
        ensures same_failing { self.new.failing ≡ self.old.failing }
    {
        let call = self.calls;
        self.calls = one_more(call);
        self.failed = false;
        if is_listed(self.failing.as_slice(), call) {
            self.failed = true;
            self.faults = one_more(self.faults);
            return Err(ReadError::Failed);
        }
        let answer = copy_of(self.files.as_slice(), name, into, most);
        if let Err(ReadError::Failed) = answer {
            self.failed = true;
            self.faults = one_more(self.faults);
        }
        answer
    }
}

/// Empties `into` and fills it with the bytes of the first file of this name, as `Files::read` does.
fn copy_of(
    files: &[(Text, Vec<u8>)],
    name: &str,
    into: &mut Vec<u8>,
    most: usize,
) -> Result<(), ReadError>
    ensures contents { OnOk result (held (contents files.now) name.now ≡ Some into.new.items) }
    ensures within { OnOk result (length into.new.items ≤ most) }
    ensures too_long { result ≡ Err ReadError.TooLong → LongerThan (held (contents files.now) name.now) most }
    ensures missing { held (contents files.now) name.now ≡ None → result ≡ Err ReadError.Failed }
    ensures cause { result ≡ Err ReadError.Failed → held (contents files.now) name.now ≡ None }
{
    into.clear();
    let Some(bytes) = bytes_of(files, name) else {
        return Err(ReadError::Failed);
    };
    if bytes.len() > most {
        return Err(ReadError::TooLong);
    }
    into.extend_from_slice(bytes)?;
    Ok(())
}

/// The bytes of the first file of this name.
fn bytes_of<'a>(files: &'a [(Text, Vec<u8>)], name: &str) -> Option<&'a [u8]>
    ensures { MatchOption result (held (contents files.now) name.now ≡ None) (λ bytes. held (contents files.now) name.now ≡ Some bytes.now) }
{
    for (file_name, bytes) in files {
        if file_name.as_str() == name {
            return Some(bytes.as_slice());
        }
    }
    None
}
