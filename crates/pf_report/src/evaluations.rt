//! What the evaluation of one query prints.

ghost use Rattle.std.specs.Prelude.{◌≡◌, ◌++◌, ◌∷◌, [], decimal, OnOk, take, vec_len};
ghost use Rattle.pf_journal.specs.Evaluations.{evaluation_text};
ghost use Rattle.pf_journal.specs.Replies.{line_text};
ghost use Rattle.pf_report.specs.Bodies.{code_in, text_of_body};

use crate::bodies::{Body, push_body};
use crate::word::{Word, push_line};
use pf_base::OutOfMemory;
use std::alloc::Global;

/// Appends a code on a line of its own.
fn push_code_line(out: &mut Vec<u8>, code: u16) -> Result<(), OutOfMemory>
    ensures ok { OnOk result (out.new.items ≡ out.old.items ++ line_text (decimal code ∷ [])) }
    ensures kept { take (vec_len out.old) out.new.items ≡ out.old.items }
{
    push_line(out, &[Word::Number(u64::from(code))])
}

/// Appends the code of a body on a line, and the body on a line.
#[tactic(auto, using(crate::proofs::BodyLines::answer_after))]
pub fn push_evaluation(alloc: Global, out: &mut Vec<u8>, body: &Body) -> Result<(), OutOfMemory>
    ensures ok { OnOk result (out.new.items ≡ out.old.items ++ evaluation_text (decimal (code_in body.now)) (text_of_body body.now)) }
    ensures kept { take (vec_len out.old) out.new.items ≡ out.old.items }
{
    push_code_line(out, body.code())?;
    push_body(alloc, out, body)?;
    out.push(b'\n')?;
    Ok(())
}
