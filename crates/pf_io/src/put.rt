//! Writing a whole text.

ghost use Rattle.std.specs.Prelude.{◌≡◌, ℕ, ◌≤◌, length, take, OnOk, OnErr};
ghost use Rattle.pf_io.specs.Outside.{Rose, Grows};

use crate::outside::{Failed, Sink};

/// Writes all of the bytes, in as many calls as the sink wants. After an `Err` a front of them was written.
pub fn put_all<O: Sink>(out: &mut O, bytes: &[u8]) -> Result<(), Failed>
    ensures ok { OnOk result (Grows (O.told out.old) (O.told out.new) bytes.now) }
    ensures failed { OnErr result (Rose (O.faults out.old) (O.faults out.new)) }
    ensures steady { OnOk result (O.faults out.new ≡ O.faults out.old) }
    ensures some { OnErr result ((n : ℕ) × (n ≤ length bytes.now) × Grows (O.told out.old) (O.told out.new) (take n bytes.now)) }
    ensures counted { O.faults out.old ≤ O.faults out.new }
{
    let mut at = 0;
    while at < bytes.len() {
        at += out.write(&bytes[at..])?;
    }
    Ok(())
}
