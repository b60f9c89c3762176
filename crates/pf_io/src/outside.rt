//! The outside as traits. Each that can fail has a count of faults that never falls: it rises, or stands at its greatest
//! value, 2^64 - 1, where `Failed` is answered, and stays as it is with every other answer.

ghost use Rattle.std.specs.Prelude.{◌≡◌, ◌≢◌, ℕ, ◌<◌, ◌≤◌, Bool, IsTrue, false, true, List, [], codes, Some, length, take, Option, IfOk, OnOk, OnErr, MatchOption};
ghost use Rattle.pf_io.specs.Errors.{read_error_text};
ghost use Rattle.pf_io.specs.Outside.{Rose, UpByOne, Grows, Holds, LongerThan, StayKnown, WithinMost};
ghost use Rattle.pf_io.specs.declared.outside.ReadError.TheVariants.{OutOfMemory};

use pf_base::JobHead;
use std::alloc::{AllocError, AllocFailed};
use std::error::Error;
use std::fmt;

/// The outside did not do what it was asked for.
#[derive(Clone, Copy, Debug)]
pub struct Failed;

/// Why a file was not read.
#[derive(Clone, Copy, Debug)]
pub enum ReadError {
    /// There is no such name, or it could not be read.
    Failed,
    /// It holds more bytes than the caller takes.
    TooLong,
    OutOfMemory,
}

impl fmt::Display for Failed {
    ghost output = { λ _. Some (codes "failed") };

    fn fmt<W: fmt::Write>(&self, f: &mut fmt::Formatter<W>) -> fmt::Result {
        write!(f, "failed")
    }
}

impl Error for Failed {}

impl fmt::Display for ReadError {
    ghost output = { λ error. Some (read_error_text error) };

    fn fmt<W: fmt::Write>(&self, f: &mut fmt::Formatter<W>) -> fmt::Result {
        match self {
            ReadError::Failed => write!(f, "not read"),
            ReadError::TooLong => write!(f, "too long"),
            ReadError::OutOfMemory => write!(f, "out of memory"),
        }
    }
}

impl Error for ReadError {}

impl From<AllocError> for ReadError {
    ghost from_gives = { λ _ error. error ≡ OutOfMemory };

    fn from(_error: AllocError) -> ReadError {
        ReadError::OutOfMemory
    }
}

impl<T: Drop> From<AllocFailed<T>> for ReadError {
    ghost from_gives = { λ _ error. error ≡ OutOfMemory };

    fn from(_error: AllocFailed<T>) -> ReadError {
        ReadError::OutOfMemory
    }
}

/// Files by name.
pub trait Files {
    ghost faults: { Self → ℕ };

    // What a name holds, where that is known.
    ghost told: { Self → List ℕ → Option (List ℕ) };

    // The names of which no read answers `Failed`, and those of which every read does, as far as they are known.
    ghost sure: { Self → List ℕ → Bool };

    ghost lost: { Self → List ℕ → Bool };

    // Whether the last read answered `Failed`.
    ghost failed: { Self → Bool };

    /// Empties `into` and fills it with what the name holds, of at most `most` bytes. After an `Err` it holds nothing
    /// of use.
    fn read(&mut self, name: &str, into: &mut Vec<u8>, most: usize) -> Result<(), ReadError>
        ensures contents { OnOk result (Holds (told self.old name.now) into.new.items) }
        ensures within { OnOk result (length into.new.items ≤ most) }
        ensures too_long { result ≡ Err ReadError.TooLong → LongerThan (told self.old name.now) most }
        ensures failed { result ≡ Err ReadError.Failed → Rose (faults self.old) (faults self.new) }
        ensures steady { result ≢ Err ReadError.Failed → faults self.new ≡ faults self.old }
        ensures counted { faults self.old ≤ faults self.new }
        ensures sure { IsTrue (sure self.old name.now) → result ≢ Err ReadError.Failed }
        ensures lost { IsTrue (lost self.old name.now) → result ≡ Err ReadError.Failed }
        ensures last_failed { result ≡ Err ReadError.Failed → failed self.new ≡ true }
        ensures last_done { result ≢ Err ReadError.Failed → failed self.new ≡ false }
        ensures kept { (other : List ℕ) → told self.new other ≡ told self.old other }
        ensures kept_sure { StayKnown (sure self.old) (sure self.new) }
        ensures kept_lost { (other : List ℕ) → lost self.new other ≡ lost self.old other };
}

/// Where bytes are written to.
pub trait Sink {
    ghost faults: { Self → ℕ };

    // What was written so far, where that is known.
    ghost told: { Self → Option (List ℕ) };

    /// Takes the first bytes of the piece, at least one of a nonempty one, and answers how many. An `Err` took none.
    fn write(&mut self, piece: &[u8]) -> Result<usize, Failed>
        ensures within { IfOk result (λ taken. taken ≤ length piece.now) }
        ensures some { 0 < length piece.now → IfOk result (λ taken. 0 < taken) }
        ensures written { IfOk result (λ taken. Grows (told self.old) (told self.new) (take taken piece.now)) }
        ensures failed { OnErr result (Rose (faults self.old) (faults self.new)) }
        ensures steady { OnOk result (faults self.new ≡ faults self.old) }
        ensures unchanged { OnErr result (Grows (told self.old) (told self.new) []) }
        ensures counted { faults self.old ≤ faults self.new };
}

/// The way from the queue to a querier. Each actor has one of its own.
pub trait Hop {
    ghost faults: { Self → ℕ };

    // A number that the count of faults never exceeds, where there is one.
    ghost most: { Self → Option ℕ };

    /// Carries the job over.
    fn call(&mut self, head: &JobHead) -> Result<(), Failed>
        ensures failed { OnErr result (Rose (faults self.old) (faults self.new)) }
        ensures steady { OnOk result (faults self.new ≡ faults self.old) }
        ensures counted { faults self.old ≤ faults self.new }
        ensures kept { most self.new ≡ most self.old };

    ghost within_most: { (hop : Self) → WithinMost (most hop) (faults hop) };
}

/// A place between the hop and the evaluation of a job, where a test may hold an actor.
pub trait Gate {
    fn at(&self, actor: u32, head: &JobHead);
}

/// Where connections come from.
pub trait Doors {
    type Io;

    ghost faults: { Self → ℕ };

    // How many connections were handed out.
    ghost given: { Self → ℕ };

    // How often there was no further connection.
    ghost nones: { Self → ℕ };

    /// The next connection, or `None` where there are no more.
    fn next(&mut self) -> Result<Option<Self::Io>, Failed>
        ensures handed { IfOk result (λ io. MatchOption io (given self.new ≡ given self.old) (λ _. UpByOne (given self.old) (given self.new))) }
        ensures ended { IfOk result (λ io. MatchOption io (UpByOne (nones self.old) (nones self.new)) (λ _. nones self.new ≡ nones self.old)) }
        ensures failed { OnErr result (Rose (faults self.old) (faults self.new)) }
        ensures steady { OnOk result (faults self.new ≡ faults self.old) }
        ensures none_given { OnErr result (given self.new ≡ given self.old) }
        ensures none_ended { OnErr result (nones self.new ≡ nones self.old) }
        ensures counted { faults self.old ≤ faults self.new }
        ensures given_rises { given self.old ≤ given self.new }
        ensures nones_rise { nones self.old ≤ nones self.new };
}
