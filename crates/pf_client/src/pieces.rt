//! The pieces in which a report is written.

ghost use Rattle.std.specs.Prelude.{◌≡◌, ◌≤◌, [], IfErr, OnErr, OnOk, length};
ghost use Rattle.pf_client.specs.Sent.{WritesFront, WritesTo};
ghost use Rattle.pf_client.specs.declared.pieces.ReportError.{ReportError};
ghost use Rattle.pf_io.specs.Outside.{Rose};

use pf_base::OutOfMemory;
use pf_io::{Failed, Sink, put_all};

/// How many bytes of a report are held, at most, when the next line runs.
const PIECE: usize = 65_536;

/// The output didn't take a report, or memory ran out.
#[derive(Clone, Copy)]
pub enum ReportError {
    WriteFault,
    OutOfMemory,
}

impl From<Failed> for ReportError {
    ghost use Rattle.std.specs.Prelude.{◌≡◌};
    ghost use Rattle.pf_client.specs.declared.pieces.ReportError.{ReportError};

    ghost from_gives = { λ _ e. e ≡ ReportError.WriteFault };

    fn from(_error: Failed) -> ReportError {
        ReportError::WriteFault
    }
}

impl From<OutOfMemory> for ReportError {
    ghost use Rattle.std.specs.Prelude.{◌≡◌};
    ghost use Rattle.pf_client.specs.declared.pieces.ReportError.{ReportError};

    ghost from_gives = { λ _ e. e ≡ ReportError.OutOfMemory };

    fn from(_error: OutOfMemory) -> ReportError {
        ReportError::OutOfMemory
    }
}

/// Writes what is held.
pub(crate) fn write_held<O: Sink>(held: &[u8], out: &mut O) -> Result<(), ReportError>
    ensures written { OnOk result (WritesTo (O.told out.old) (O.told out.new) held.now []) }
    ensures begun { OnErr result (WritesFront (O.told out.old) (O.told out.new) held.now) }
    ensures fault { OnErr result (Rose (O.faults out.old) (O.faults out.new)) }
    ensures cause { IfErr result (λ e. e ≡ ReportError.WriteFault) }
    ensures steady { OnOk result (O.faults out.new ≡ O.faults out.old) }
{
    put_all(out, held)?;
    Ok(())
}

/// Writes what is held of a report once it is more than a piece. The room for it stays.
pub(crate) fn hand_on<O: Sink>(held: &mut Vec<u8>, out: &mut O) -> Result<(), ReportError>
    ensures written { OnOk result (WritesTo (O.told out.old) (O.told out.new) held.old.items held.new.items) }
    ensures short { OnOk result (length held.new.items ≤ 65536) }
    ensures begun { OnErr result (WritesFront (O.told out.old) (O.told out.new) held.old.items) }
    ensures fault { OnErr result (Rose (O.faults out.old) (O.faults out.new)) }
    ensures cause { IfErr result (λ e. e ≡ ReportError.WriteFault) }
    ensures steady { OnOk result (O.faults out.new ≡ O.faults out.old) }
{
    if held.len() > PIECE {
        write_held(held.as_slice(), out)?;
        held.clear();
    }
    Ok(())
}
