//! Ids for series by the numbers of their label sets.

ghost use Rattle.std.specs.Prelude.{◌≡◌, ◌<◌, None, IfOk, OnOk, length, slice_index_or};
ghost use Rattle.pf_store.specs.Keys.{given_by, id_by, next_by};

use pf_base::OutOfMemory;

/// By number the id that a series has, if it has one, and the next id.
#[derive(Drop)]
pub struct GivenIds {
    pub ids: Vec<Option<u32>>,
    pub next: u32,
}

impl GivenIds {
    /// The id of a series: the one that it has, or the next one, which it has then. Where there is no further id below 2^32,
    /// this is told as want of memory.
    pub fn give(&mut self, number: usize) -> Result<u32, OutOfMemory>
        requires { number < length self.old.ids.items }
        ensures id { IfOk result (λ n. n ≡ id_by self.old.next (slice_index_or self.old.ids.items number None)) }
        ensures ids { OnOk result (self.new.ids.items ≡ given_by self.old.ids.items number self.old.next (slice_index_or self.old.ids.items number None)) }
        ensures next { OnOk result (self.new.next ≡ next_by self.old.next (slice_index_or self.old.ids.items number None)) }
    {
        if let Some(id) = self.ids[number] {
            return Ok(id);
        }
        let id = self.next;
        if id == u32::MAX {
            return Err(OutOfMemory);
        }
        self.next = id + 1;
        self.ids[number] = Some(id);
        Ok(id)
    }
}
