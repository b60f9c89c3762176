//! What is said of the rows of a batch.

use pf_base::Value;
use std::marker::Model;

/// What is said of a row. Times are in milliseconds.
#[derive(Clone, Copy)]
pub enum Verdict {
    Taken,
    /// Its time is below the floor before its batch.
    TooOld { floor: u64 },
    /// The log or an earlier row of the batch has its series, time and value.
    Repeated,
    /// The log or an earlier row of the batch has another value of its series at its time.
    Differs { held: Value },
}

/// The verdicts on the rows of a batch in order, and the number of the log's entries afterwards.
#[derive(Drop)]
pub struct Verdicts {
    pub list: Vec<Verdict>,
    pub entry: u64,
}

impl Model for Verdicts {
    ghost use Rattle.std.specs.Prelude.{map};
    ghost use Rattle.pf_store.specs.Verdicts.{VerdictsData, verdict_of};

    ghost Value = { VerdictsData };

    ghost view = { λ v. record { list = map verdict_of v.list.items; entry = v.entry } };
}
