//! The lines of the rows of a batch that were refused.

ghost use Rattle.std.specs.Prelude.{◌≡◌, ◌++◌, map, OnOk, take, vec_len};
ghost use Rattle.pf_model.specs.Log.{differs, too_old};
ghost use Rattle.pf_journal.specs.Replies.{refusal_text, refusals_from};
ghost use Rattle.pf_store.specs.Verdicts.{verdict_of};

use crate::word::{Word, push_line, push_line_with_value};
use pf_base::{OutOfMemory, Value};
use pf_store::Verdict;

fn push_too_old(out: &mut Vec<u8>, row: u64, floor: u64) -> Result<(), OutOfMemory>
    ensures ok { OnOk result (out.new.items ≡ out.old.items ++ refusal_text row (too_old floor)) }
    ensures kept { take (vec_len out.old) out.new.items ≡ out.old.items }
{
    let words = [
        Word::Text("sample"),
        Word::Number(row),
        Word::Text("too_old"),
        Word::Number(floor),
    ];
    out.extend_from_slice(b"  ")?;
    push_line(out, &words)
}

fn push_differs(out: &mut Vec<u8>, row: u64, held: Value) -> Result<(), OutOfMemory>
    ensures ok { OnOk result (out.new.items ≡ out.old.items ++ refusal_text row (differs held)) }
    ensures kept { take (vec_len out.old) out.new.items ≡ out.old.items }
{
    let words = [
        Word::Text("sample"),
        Word::Number(row),
        Word::Text("differs"),
    ];
    out.extend_from_slice(b"  ")?;
    push_line_with_value(out, &words, held)
}

/// Appends the line of the row of this number, and nothing where it was not refused.
fn push_refused_row(out: &mut Vec<u8>, row: u64, verdict: Verdict) -> Result<(), OutOfMemory>
    ensures ok { OnOk result (out.new.items ≡ out.old.items ++ refusal_text row (verdict_of verdict)) }
    ensures kept { take (vec_len out.old) out.new.items ≡ out.old.items }
{
    match verdict {
        Verdict::Taken | Verdict::Repeated => Ok(()),
        Verdict::TooOld { floor } => push_too_old(out, row, floor),
        Verdict::Differs { held } => push_differs(out, row, held),
    }
}

/// Appends a line for each row that was refused, with its number in the batch from 0.
pub fn push_refused_rows(out: &mut Vec<u8>, verdicts: &[Verdict]) -> Result<(), OutOfMemory>
    ensures ok { OnOk result (out.new.items ≡ out.old.items ++ refusals_from 0 (map verdict_of verdicts.now)) }
    ensures kept { take (vec_len out.old) out.new.items ≡ out.old.items }
{
    for (row, verdict) in verdicts.iter().enumerate() {
        push_refused_row(out, row as u64, *verdict)?;
    }
    Ok(())
}
