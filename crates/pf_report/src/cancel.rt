//! The replies to `cancel`.

ghost use Rattle.std.specs.Prelude.{◌≡◌, ◌++◌, OnOk, take, vec_len};
ghost use Rattle.pf_report.specs.Replies.{cancel_text};

use crate::replies::push_reply;
use crate::word::Word;
use pf_base::OutOfMemory;

/// What became of a `cancel`.
#[derive(Clone, Copy)]
pub enum CancelReply<'a> {
    Done,
    /// The ask was refused, or its query is answered.
    NotOutstanding,
    /// The tenant that asked the query.
    OtherTenant { owner: &'a str },
    /// The place of the entry by which it was cancelled before.
    Already { place: u64 },
}

/// Appends the reply to the `cancel` of this number.
pub fn push_cancel_reply(
    out: &mut Vec<u8>,
    number: u32,
    id: &str,
    reply: &CancelReply<'_>,
) -> Result<(), OutOfMemory>
    ensures ok { OnOk result (out.new.items ≡ out.old.items ++ cancel_text number id.now reply.now) }
    ensures kept { take (vec_len out.old) out.new.items ≡ out.old.items }
{
    match *reply {
        CancelReply::Done => push_reply(out, number, "cancel", id, &[Word::Text("done")]),
        CancelReply::NotOutstanding => push_reply(
            out,
            number,
            "cancel",
            id,
            &[Word::Text("not"), Word::Text("outstanding")],
        ),
        CancelReply::OtherTenant { owner } => push_reply(
            out,
            number,
            "cancel",
            id,
            &[Word::Text("other"), Word::Text("tenant"), Word::Text(owner)],
        ),
        CancelReply::Already { place } => push_reply(
            out,
            number,
            "cancel",
            id,
            &[Word::Text("already"), Word::Number(place)],
        ),
    }
}
