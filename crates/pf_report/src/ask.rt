//! The replies to `ask` and `instant`.

ghost use Rattle.std.specs.Prelude.{◌≡◌, ◌++◌, OnOk, take, vec_len};
ghost use Rattle.pf_report.specs.Replies.{ask_text};

use crate::replies::{push_journal_full, push_reply};
use crate::word::Word;
use pf_base::OutOfMemory;

/// What became of an ask.
#[derive(Clone, Copy)]
pub enum AskReply {
    /// How many entries its tenant's log has, and the place of its entry in the journal.
    Asked { pin: u64, place: u64 },
    /// By the code of its answer: 400, 429, 503 or 507.
    Refused { code: u16 },
    JournalFull,
}

/// Appends the reply to the `ask` or `instant` of this number.
pub fn push_ask_reply(
    out: &mut Vec<u8>,
    number: u32,
    id: &str,
    reply: &AskReply,
) -> Result<(), OutOfMemory>
    ensures ok { OnOk result (out.new.items ≡ out.old.items ++ ask_text number id.now reply.now) }
    ensures kept { take (vec_len out.old) out.new.items ≡ out.old.items }
{
    match *reply {
        AskReply::Asked { pin, place } => push_reply(
            out,
            number,
            "ask",
            id,
            &[
                Word::Text("pin"),
                Word::Number(pin),
                Word::Text("place"),
                Word::Number(place),
            ],
        ),
        AskReply::Refused { code } => push_reply(
            out,
            number,
            "ask",
            id,
            &[Word::Text("refused"), Word::Number(u64::from(code))],
        ),
        AskReply::JournalFull => push_journal_full(out, number, "ask", id),
    }
}
