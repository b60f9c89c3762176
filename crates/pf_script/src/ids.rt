//! The IDs that a script issued.

ghost use Rattle.std.specs.Prelude.{◌≡◌, ◌∷◌, [], IfSome, OnErr, OnOk};
ghost use Rattle.pf_journal.specs.Scripts.{answered_as, is_new, issued_as, issued_at, kept_as};
ghost use Rattle.pf_script.specs.Cuts.{Finds};
ghost use Rattle.pf_script.specs.IdLists.{Alike, as_issued, issued_in, unanswered_as, unkept_as};

use pf_base::OutOfMemory;
use std::alloc::Global;
use std::collections::BTreeMap;

/// The line that asked, and whether lines behind it answer and keep.
#[derive(Clone, Copy)]
pub struct Asked {
    pub line: u32,
    pub answered: bool,
    pub kept: bool,
}

/// What was asked so far, by its ID.
#[derive(Drop)]
pub struct Ids<'a> {
    asked: BTreeMap<&'a [u8], Asked>,
}

impl<'a> Ids<'a> {
    pub fn new(alloc: Global) -> Ids<'a>
        ensures { issued_in result ≡ [] }
    {
        Ids {
            asked: BTreeMap::new(alloc),
        }
    }

    /// Whether no line issued this ID.
    #[tactic(auto)]
    pub fn is_new(&self, id: &[u8]) -> bool
        ensures { result ≡ is_new id.now (issued_in self.now) }
    {
        !self.asked.contains_key(id)
    }

    /// A line that asks under an ID. Where memory ran out, it issued none.
    pub fn issue(&mut self, id: &'a [u8], line: u32) -> Result<(), OutOfMemory>
        ensures ok { OnOk result (Alike (issued_at id.now line ∷ issued_in self.old) (issued_in self.new)) }
        ensures err { OnErr result (issued_in self.new ≡ issued_in self.old) }
    {
        self.asked.insert(
            id,
            Asked {
                line,
                answered: false,
                kept: false,
            },
        )?;
        Ok(())
    }

    /// What was asked under an ID.
    pub fn find(&self, id: &[u8]) -> Option<Asked>
        ensures { Finds (as_issued id.now) result (issued_as id.now (issued_in self.now)) }
    {
        self.asked.get(id).copied()
    }

    /// What was asked under an ID, where no line answered it so far.
    pub fn find_unanswered(&self, id: &[u8]) -> Option<Asked>
        ensures { Finds (as_issued id.now) result (unanswered_as id.now (issued_in self.now)) }
    {
        let asked = self.find(id)?;
        if asked.answered {
            return None;
        }
        Some(asked)
    }

    /// What was asked under an ID, where no line answered it so far. From now on one did.
    pub fn answer(&mut self, id: &[u8]) -> Option<Asked>
        ensures found { Finds (as_issued id.now) result (unanswered_as id.now (issued_in self.old)) }
        ensures marked { IfSome result (λ a. Alike (answered_as id.now (issued_in self.old)) (issued_in self.new)) }
    {
        let asked = self.asked.get_mut(id)?;
        if asked.answered {
            return None;
        }
        let found = *asked;
        asked.answered = true;
        Some(found)
    }

    /// What was asked under an ID, where no line answered or kept it so far. From now on one kept it.
    pub fn keep(&mut self, id: &[u8]) -> Option<Asked>
        ensures found { Finds (as_issued id.now) result (unkept_as id.now (issued_in self.old)) }
        ensures marked { IfSome result (λ a. Alike (kept_as id.now (issued_in self.old)) (issued_in self.new)) }
    {
        let asked = self.asked.get_mut(id)?;
        if asked.answered || asked.kept {
            return None;
        }
        let found = *asked;
        asked.kept = true;
        Some(found)
    }
}
