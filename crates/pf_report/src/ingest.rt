//! The replies to `ingest`.

ghost use Rattle.std.specs.Prelude.{◌≡◌, ◌++◌, codes, OnOk, take, vec_len};
ghost use Rattle.pf_journal.specs.Replies.{ingested, refusal_words, reply_line};
ghost use Rattle.pf_report.specs.Replies.{fault_of, ingest_line, ingest_text};

use crate::counts::Counts;
use crate::refused_rows::push_refused_rows;
use crate::replies::{push_journal_full, push_no_memory, push_reply, push_too_many_tenants};
use crate::word::Word;
use pf_base::OutOfMemory;
use pf_store::Verdicts;

/// Why a file is refused. Lines count from 1.
#[derive(Clone, Copy)]
pub enum FileFault {
    BadLine(u32),
    TimeTooLarge(u32),
    /// The line of the first row that is too many.
    TooMany(u32),
    TooLong,
}

/// What became of an `ingest`.
#[derive(Clone, Copy)]
pub enum IngestReply<'a> {
    /// A batch with these verdicts. `skipped` counts the sample lines of its file whose value is no number.
    Taken {
        skipped: u64,
        verdicts: &'a Verdicts,
    },
    Refused(FileFault),
    JournalFull,
    OutOfMemory,
    TooManyTenants,
}

/// Appends the reply to an `ingest` whose batch was taken in, without the lines of rows that were refused.
fn push_counts(
    out: &mut Vec<u8>,
    number: u32,
    tenant: &str,
    skipped: u64,
    verdicts: &Verdicts,
) -> Result<(), OutOfMemory>
    ensures ok { OnOk result (out.new.items ≡ out.old.items ++ ingest_line number tenant.now skipped verdicts.now.list verdicts.now.entry) }
    ensures kept { take (vec_len out.old) out.new.items ≡ out.old.items }
{
    let counts = Counts::of(&verdicts.list);
    let words = [
        Word::Text("taken"),
        Word::Number(counts.taken),
        Word::Text("repeated"),
        Word::Number(counts.repeated),
        Word::Text("refused"),
        Word::Number(counts.refused),
        Word::Text("skipped"),
        Word::Number(skipped),
        Word::Text("entry"),
        Word::Number(verdicts.entry),
    ];
    push_reply(out, number, "ingest", tenant, &words)
}

/// Appends the reply to an `ingest` whose batch was taken in, and a line for each row that was refused, with its number in
/// the batch from 0.
fn push_taken(
    out: &mut Vec<u8>,
    number: u32,
    tenant: &str,
    skipped: u64,
    verdicts: &Verdicts,
) -> Result<(), OutOfMemory>
    ensures ok { OnOk result (out.new.items ≡ out.old.items ++ ingested number tenant.now skipped verdicts.now.list verdicts.now.entry) }
    ensures kept { take (vec_len out.old) out.new.items ≡ out.old.items }
{
    push_counts(out, number, tenant, skipped, verdicts)?;
    push_refused_rows(out, &verdicts.list)
}

/// Appends the reply to an `ingest` with a line at fault.
fn push_bad_line(out: &mut Vec<u8>, number: u32, tenant: &str, line: u32) -> Result<(), OutOfMemory>
    ensures ok { OnOk result (out.new.items ≡ out.old.items ++ reply_line number (codes "ingest") tenant.now (refusal_words (fault_of (FileFault.BadLine line)))) }
    ensures kept { take (vec_len out.old) out.new.items ≡ out.old.items }
{
    let words = [
        Word::Text("bad"),
        Word::Text("line"),
        Word::Number(u64::from(line)),
    ];
    push_reply(out, number, "ingest", tenant, &words)
}

/// Appends the reply to an `ingest` with a time that is too large.
fn push_late_line(
    out: &mut Vec<u8>,
    number: u32,
    tenant: &str,
    line: u32,
) -> Result<(), OutOfMemory>
    ensures ok { OnOk result (out.new.items ≡ out.old.items ++ reply_line number (codes "ingest") tenant.now (refusal_words (fault_of (FileFault.TimeTooLarge line)))) }
    ensures kept { take (vec_len out.old) out.new.items ≡ out.old.items }
{
    let words = [
        Word::Text("time"),
        Word::Text("too"),
        Word::Text("large"),
        Word::Text("line"),
        Word::Number(u64::from(line)),
    ];
    push_reply(out, number, "ingest", tenant, &words)
}

/// Appends the reply to an `ingest` whose file is refused.
fn push_refused(
    out: &mut Vec<u8>,
    number: u32,
    tenant: &str,
    fault: FileFault,
) -> Result<(), OutOfMemory>
    ensures ok { OnOk result (out.new.items ≡ out.old.items ++ reply_line number (codes "ingest") tenant.now (refusal_words (fault_of fault))) }
    ensures kept { take (vec_len out.old) out.new.items ≡ out.old.items }
{
    match fault {
        FileFault::BadLine(line) => push_bad_line(out, number, tenant, line),
        FileFault::TimeTooLarge(line) => push_late_line(out, number, tenant, line),
        FileFault::TooMany(_) => push_reply(
            out,
            number,
            "ingest",
            tenant,
            &[Word::Text("too"), Word::Text("many"), Word::Text("samples")],
        ),
        FileFault::TooLong => push_reply(
            out,
            number,
            "ingest",
            tenant,
            &[Word::Text("file"), Word::Text("too"), Word::Text("long")],
        ),
    }
}

/// Appends the reply to the `ingest` of this number, and a line for each row of its batch that was refused, with its number
/// in the batch from 0.
pub fn push_ingest_reply(
    out: &mut Vec<u8>,
    number: u32,
    tenant: &str,
    reply: &IngestReply<'_>,
) -> Result<(), OutOfMemory>
    ensures ok { OnOk result (out.new.items ≡ out.old.items ++ ingest_text number tenant.now reply.now) }
    ensures kept { take (vec_len out.old) out.new.items ≡ out.old.items }
{
    match *reply {
        IngestReply::Taken { skipped, verdicts } => {
            push_taken(out, number, tenant, skipped, verdicts)
        }
        IngestReply::Refused(fault) => push_refused(out, number, tenant, fault),
        IngestReply::JournalFull => push_journal_full(out, number, "ingest", tenant),
        IngestReply::OutOfMemory => push_no_memory(out, number, "ingest", tenant),
        IngestReply::TooManyTenants => push_too_many_tenants(out, number, "ingest", tenant),
    }
}
