//! The replies to `answer`.

ghost use Rattle.std.specs.Prelude.{◌≡◌, ◌++◌, ◌∷◌, [], codes, decimal, OnOk, take, vec_len};
ghost use Rattle.pf_journal.specs.Replies.{answered, reply_line};
ghost use Rattle.pf_report.specs.Bodies.{text_of_body};
ghost use Rattle.pf_report.specs.Replies.{answer_line};

use crate::bodies::{Body, push_body};
use crate::replies::push_reply;
use crate::word::Word;
use pf_base::OutOfMemory;
use std::alloc::Global;

/// Appends the reply to an `answer`, without its body.
fn push_code(
    out: &mut Vec<u8>,
    number: u32,
    id: &str,
    code: u16,
    cached: u32,
    evaluated: u32,
) -> Result<(), OutOfMemory>
    ensures ok { OnOk result (out.new.items ≡ out.old.items ++ answer_line number id.now code cached evaluated) }
    ensures kept { take (vec_len out.old) out.new.items ≡ out.old.items }
{
    let words = [
        Word::Number(u64::from(code)),
        Word::Text("cached"),
        Word::Number(u64::from(cached)),
        Word::Text("evaluated"),
        Word::Number(u64::from(evaluated)),
    ];
    push_reply(out, number, "answer", id, &words)
}

/// Appends the reply to the `answer` of this number, and its body on a line of its own. The numbers are those of the steps
/// that were cached and evaluated, 0 where nothing was planned.
#[tactic(auto, using(crate::proofs::BodyLines::answer_after))]
pub fn push_answered(
    alloc: Global,
    out: &mut Vec<u8>,
    number: u32,
    id: &str,
    code: u16,
    cached: u32,
    evaluated: u32,
    body: &Body,
) -> Result<(), OutOfMemory>
    ensures ok { OnOk result (out.new.items ≡ out.old.items ++ answered number id.now (decimal code) cached evaluated (text_of_body body.now)) }
    ensures kept { take (vec_len out.old) out.new.items ≡ out.old.items }
{
    push_code(out, number, id, code, cached, evaluated)?;
    push_body(alloc, out, body)?;
    out.push(b'\n')?;
    Ok(())
}

/// Appends the reply to the `answer` of a query that waits for so many jobs in workers' hands.
pub fn push_waiting(out: &mut Vec<u8>, number: u32, id: &str, jobs: u32) -> Result<(), OutOfMemory>
    ensures ok { OnOk result (out.new.items ≡ out.old.items ++ reply_line number (codes "answer") id.now (codes "waiting" ∷ decimal jobs ∷ [])) }
    ensures kept { take (vec_len out.old) out.new.items ≡ out.old.items }
{
    let words = [Word::Text("waiting"), Word::Number(u64::from(jobs))];
    push_reply(out, number, "answer", id, &words)
}
