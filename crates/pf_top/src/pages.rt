//! The pages of a generated session, as files.

ghost use Rattle.std.specs.Prelude.{◌≡◌, ◌≢◌, ◌≤◌, ◌<◌, ℕ, List, Some, IsTrue, false, true, length, map, OnOk};
ghost use Rattle.pf_io.specs.Outside.{Holds, LongerThan, Rose, StayKnown};
ghost use Rattle.pf_top.specs.Pages.{page_in};

use pf_base::Text;
use pf_io::{Files, ReadError};
use std::marker::Model;

/// Pages by name. A file of another name holds nothing, and no read fails.
#[derive(Drop)]
pub struct Pages {
    pub pages: Vec<(Text, Vec<u8>)>,
}

impl Model for Pages {
    ghost use Rattle.std.specs.Prelude.{List, ℕ, map};

    ghost Value = { List (List ℕ × List ℕ) };

    ghost view = { λ p. map (λ f. (f.0, f.1.items)) p.pages.items };
}

/// What the first page of this name holds, and nothing where there is none.
fn page_in<'a>(pages: &'a [(Text, Vec<u8>)], name: &str) -> &'a [u8]
    ensures { result.now ≡ page_in (map (λ f. (f.0, f.1.items)) pages.now) name.now }
{
    for (page, bytes) in pages {
        if page.as_str() == name {
            return bytes.as_slice();
        }
    }
    &[]
}

impl Files for Pages {
    ghost faults = { λ _. 0 };

    ghost told = { λ p name. Some (page_in p name) };

    ghost sure = { λ _ _. true };

    ghost lost = { λ _ _. false };

    ghost failed = { λ _. false };

    fn read(&mut self, name: &str, into: &mut Vec<u8>, most: usize) -> Result<(), ReadError> {
        into.clear();
        let page = page_in(self.pages.as_slice(), name);
        if page.len() > most {
            return Err(ReadError::TooLong);
        }
        into.extend_from_slice(page)?;
        Ok(())
    }
}
