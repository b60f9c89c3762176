//! How many verdicts of each kind there are.

ghost use Rattle.std.specs.Prelude.{◌≡◌, ◌+◌, ◌∷◌, ◌<◌, ◌^◌, [], map};
ghost use Rattle.pf_journal.specs.Replies.{count_refused, count_repeated, count_taken};
ghost use Rattle.pf_store.specs.Verdicts.{verdict_of};

use pf_store::Verdict;

/// The numbers of rows that were taken, that repeat what is held, and that were refused.
#[derive(Clone, Copy)]
pub struct Counts {
    pub taken: u64,
    pub repeated: u64,
    pub refused: u64,
}

impl Counts {
    fn with(self, verdict: Verdict) -> Counts
        requires { self.taken + self.repeated + self.refused < 2 ^ 63 }
        ensures taken { result.taken ≡ self.taken + count_taken (verdict_of verdict ∷ []) }
        ensures repeated { result.repeated ≡ self.repeated + count_repeated (verdict_of verdict ∷ []) }
        ensures refused { result.refused ≡ self.refused + count_refused (verdict_of verdict ∷ []) }
        ensures all { result.taken + result.repeated + result.refused ≡ self.taken + self.repeated + self.refused + 1 }
    {
        match verdict {
            Verdict::Taken => Counts {
                taken: self.taken + 1,
                ..self
            },
            Verdict::Repeated => Counts {
                repeated: self.repeated + 1,
                ..self
            },
            Verdict::TooOld { .. } | Verdict::Differs { .. } => Counts {
                refused: self.refused + 1,
                ..self
            },
        }
    }

    /// The counts of some verdicts.
    pub fn of(verdicts: &[Verdict]) -> Counts
        ensures taken { result.taken ≡ count_taken (map verdict_of verdicts.now) }
        ensures repeated { result.repeated ≡ count_repeated (map verdict_of verdicts.now) }
        ensures refused { result.refused ≡ count_refused (map verdict_of verdicts.now) }
    {
        let mut counts = Counts {
            taken: 0,
            repeated: 0,
            refused: 0,
        };
        for verdict in verdicts {
            counts = counts.with(*verdict);
        }
        counts
    }
}
