//! The replies to `delete`.

ghost use Rattle.std.specs.Prelude.{◌≡◌, ◌++◌, OnOk, take, vec_len};
ghost use Rattle.pf_report.specs.Replies.{delete_text};

use crate::replies::{push_journal_full, push_no_memory, push_reply, push_too_many_tenants};
use crate::word::Word;
use pf_base::OutOfMemory;

/// What became of a `delete`.
#[derive(Clone, Copy)]
pub enum DeleteReply {
    /// The tenant's generation and the number of its log's entries afterwards.
    Deleted { generation: u64, entry: u64 },
    BadRange,
    BadSelector,
    JournalFull,
    OutOfMemory,
    TooManyTenants,
}

/// Appends the reply to a `delete` that was entered.
fn push_deleted(
    out: &mut Vec<u8>,
    number: u32,
    tenant: &str,
    generation: u64,
    entry: u64,
) -> Result<(), OutOfMemory>
    ensures ok { OnOk result (out.new.items ≡ out.old.items ++ delete_text number tenant.now (DeleteReply.Deleted generation entry)) }
    ensures kept { take (vec_len out.old) out.new.items ≡ out.old.items }
{
    let words = [
        Word::Text("generation"),
        Word::Number(generation),
        Word::Text("entry"),
        Word::Number(entry),
    ];
    push_reply(out, number, "delete", tenant, &words)
}

/// Appends the reply to the `delete` of this number.
pub fn push_delete_reply(
    out: &mut Vec<u8>,
    number: u32,
    tenant: &str,
    reply: &DeleteReply,
) -> Result<(), OutOfMemory>
    ensures ok { OnOk result (out.new.items ≡ out.old.items ++ delete_text number tenant.now reply.now) }
    ensures kept { take (vec_len out.old) out.new.items ≡ out.old.items }
{
    match *reply {
        DeleteReply::Deleted { generation, entry } => {
            push_deleted(out, number, tenant, generation, entry)
        }
        DeleteReply::BadRange => push_reply(
            out,
            number,
            "delete",
            tenant,
            &[Word::Text("bad"), Word::Text("range")],
        ),
        DeleteReply::BadSelector => push_reply(
            out,
            number,
            "delete",
            tenant,
            &[Word::Text("bad"), Word::Text("selector")],
        ),
        DeleteReply::JournalFull => push_journal_full(out, number, "delete", tenant),
        DeleteReply::OutOfMemory => push_no_memory(out, number, "delete", tenant),
        DeleteReply::TooManyTenants => push_too_many_tenants(out, number, "delete", tenant),
    }
}
