//! The replies to step lines.

ghost use Rattle.std.specs.Prelude.{◌≡◌, ◌∷◌, ◌++◌, codes, decimal, map, OnOk, take, vec_len};
ghost use Rattle.pf_journal.specs.Rest.{of_done, of_keep, of_plan};
ghost use Rattle.pf_journal.specs.Replies.{done_words, keep_words, plan_words, reply_line, stop_words};
ghost use Rattle.pf_report.specs.Steps.{done_of, keep_of, plan_of, stop_of, take_text};
ghost use Rattle.pf_report.specs.Words.{word_text};

use crate::replies::push_reply;
use crate::word::{Word, push_line_of};
use pf_base::OutOfMemory;

/// Why a query was stopped: by the cancel at a place of the journal, by a job whose tries all failed, or for want of memory.
#[derive(Clone, Copy)]
pub enum Stop {
    Cancelled { place: u64 },
    Exhausted { job: u32 },
    Starved,
}

/// What became of a `plan`.
#[derive(Clone, Copy)]
pub enum PlanReply {
    /// How many steps are cached, and how many jobs evaluate the others.
    Planned { cached: u32, jobs: u32 },
    PlannedBefore,
    Stopped,
    /// The ask was refused.
    Refused,
}

/// What became of a `take`.
#[derive(Clone, Copy)]
pub enum TakeReply<'a> {
    /// A job of a query, with the name of the tenant that asked it. The query is the place of its ask in the journal; `first`
    /// and `last` are the ends of the job's run in milliseconds.
    Took {
        tenant: &'a str,
        query: u64,
        job: u32,
        leg: u32,
        first: u64,
        last: u64,
    },
    NoneWaits,
    /// The worker has a job in hand.
    Busy,
}

/// What became of a `done`.
#[derive(Clone, Copy)]
pub enum DoneReply {
    Stored,
    /// The try failed, after which the job was tried so often.
    Again { tries: u32 },
    /// The last try of this job failed.
    Exhausted { job: u32 },
    Lacked,
    Gone(Stop),
    /// The job is no longer in hand.
    NotHeld,
    /// The worker has no job.
    Empty,
}

/// What became of a `keep`.
#[derive(Clone, Copy)]
pub enum KeepReply {
    Kept { steps: u32 },
    /// A deletion of this generation came after the ask.
    Outdated { generation: u64 },
    Lacked,
    /// The query has an error.
    Failed,
    /// So many jobs wait or are in hand.
    Waits { jobs: u32 },
    Stopped,
    /// The ask was refused.
    Refused,
    Unplanned,
}

/// Appends the reply to the `plan` of this number.
pub fn push_plan_reply(
    out: &mut Vec<u8>,
    number: u32,
    id: &str,
    reply: &PlanReply,
) -> Result<(), OutOfMemory>
    ensures ok { OnOk result (out.new.items ≡ out.old.items ++ reply_line number (codes "plan") id.now (plan_words (of_plan (plan_of reply.now)))) }
    ensures kept { take (vec_len out.old) out.new.items ≡ out.old.items }
{
    match *reply {
        PlanReply::Planned { cached, jobs } => push_reply(
            out,
            number,
            "plan",
            id,
            &[
                Word::Text("cached"),
                Word::Number(u64::from(cached)),
                Word::Text("jobs"),
                Word::Number(u64::from(jobs)),
            ],
        ),
        PlanReply::PlannedBefore => push_reply(out, number, "plan", id, &[Word::Text("planned")]),
        PlanReply::Stopped => push_reply(out, number, "plan", id, &[Word::Text("stopped")]),
        PlanReply::Refused => push_reply(out, number, "plan", id, &[Word::Text("refused")]),
    }
}

/// Appends the reply to a line of a worker: the worker stands where other lines name an ID.
fn push_worker_reply(
    out: &mut Vec<u8>,
    number: u32,
    verb: &str,
    worker: u32,
    words: &[Word<'_>],
) -> Result<(), OutOfMemory>
    ensures ok { OnOk result (out.new.items ≡ out.old.items ++ reply_line number verb.now (decimal worker) (map word_text words.now)) }
    ensures kept { take (vec_len out.old) out.new.items ≡ out.old.items }
{
    let first = [
        Word::Number(u64::from(number)),
        Word::Text(verb),
        Word::Number(u64::from(worker)),
    ];
    push_line_of(out, &first, words)
}

/// Appends the reply to the `take` of this number by a worker.
pub fn push_take_reply(
    out: &mut Vec<u8>,
    number: u32,
    worker: u32,
    reply: &TakeReply<'_>,
) -> Result<(), OutOfMemory>
    ensures ok { OnOk result (out.new.items ≡ out.old.items ++ take_text number worker reply.now) }
    ensures kept { take (vec_len out.old) out.new.items ≡ out.old.items }
{
    match *reply {
        TakeReply::Took {
            tenant,
            query,
            job,
            leg,
            first,
            last,
        } => push_worker_reply(
            out,
            number,
            "take",
            worker,
            &[
                Word::Text(tenant),
                Word::Text("query"),
                Word::Number(query),
                Word::Text("job"),
                Word::Number(u64::from(job)),
                Word::Text("leg"),
                Word::Number(u64::from(leg)),
                Word::Text("first"),
                Word::Number(first),
                Word::Text("last"),
                Word::Number(last),
            ],
        ),
        TakeReply::NoneWaits => {
            push_worker_reply(out, number, "take", worker, &[Word::Text("none")])
        }
        TakeReply::Busy => push_worker_reply(out, number, "take", worker, &[Word::Text("busy")]),
    }
}

/// Appends the reply to the `done` of a worker whose job's query is stopped.
fn push_gone(out: &mut Vec<u8>, number: u32, worker: u32, why: Stop) -> Result<(), OutOfMemory>
    ensures ok { OnOk result (out.new.items ≡ out.old.items ++ reply_line number (codes "done") (decimal worker) (codes "gone" ∷ stop_words (stop_of why))) }
    ensures kept { take (vec_len out.old) out.new.items ≡ out.old.items }
{
    match why {
        Stop::Cancelled { place } => push_worker_reply(
            out,
            number,
            "done",
            worker,
            &[
                Word::Text("gone"),
                Word::Text("cancelled"),
                Word::Number(place),
            ],
        ),
        Stop::Exhausted { job } => push_worker_reply(
            out,
            number,
            "done",
            worker,
            &[
                Word::Text("gone"),
                Word::Text("exhausted"),
                Word::Number(u64::from(job)),
            ],
        ),
        Stop::Starved => push_worker_reply(
            out,
            number,
            "done",
            worker,
            &[Word::Text("gone"), Word::Text("starved")],
        ),
    }
}

/// Appends the reply to the `done` of this number by a worker.
pub fn push_done_reply(
    out: &mut Vec<u8>,
    number: u32,
    worker: u32,
    reply: &DoneReply,
) -> Result<(), OutOfMemory>
    ensures ok { OnOk result (out.new.items ≡ out.old.items ++ reply_line number (codes "done") (decimal worker) (done_words (of_done (done_of reply.now)))) }
    ensures kept { take (vec_len out.old) out.new.items ≡ out.old.items }
{
    match *reply {
        DoneReply::Stored => {
            push_worker_reply(out, number, "done", worker, &[Word::Text("stored")])
        }
        DoneReply::Again { tries } => push_worker_reply(
            out,
            number,
            "done",
            worker,
            &[Word::Text("again"), Word::Number(u64::from(tries))],
        ),
        DoneReply::Exhausted { job } => push_worker_reply(
            out,
            number,
            "done",
            worker,
            &[Word::Text("exhausted"), Word::Number(u64::from(job))],
        ),
        DoneReply::Lacked => {
            push_worker_reply(out, number, "done", worker, &[Word::Text("lacked")])
        }
        DoneReply::Gone(why) => push_gone(out, number, worker, why),
        DoneReply::NotHeld => push_worker_reply(
            out,
            number,
            "done",
            worker,
            &[Word::Text("not"), Word::Text("held")],
        ),
        DoneReply::Empty => push_worker_reply(out, number, "done", worker, &[Word::Text("empty")]),
    }
}

/// Appends the reply to the `keep` of this number.
pub fn push_keep_reply(
    out: &mut Vec<u8>,
    number: u32,
    id: &str,
    reply: &KeepReply,
) -> Result<(), OutOfMemory>
    ensures ok { OnOk result (out.new.items ≡ out.old.items ++ reply_line number (codes "keep") id.now (keep_words (of_keep (keep_of reply.now)))) }
    ensures kept { take (vec_len out.old) out.new.items ≡ out.old.items }
{
    match *reply {
        KeepReply::Kept { steps } => push_reply(
            out,
            number,
            "keep",
            id,
            &[Word::Text("steps"), Word::Number(u64::from(steps))],
        ),
        KeepReply::Outdated { generation } => push_reply(
            out,
            number,
            "keep",
            id,
            &[Word::Text("outdated"), Word::Number(generation)],
        ),
        KeepReply::Lacked => push_reply(
            out,
            number,
            "keep",
            id,
            &[Word::Text("no"), Word::Text("memory")],
        ),
        KeepReply::Failed => push_reply(out, number, "keep", id, &[Word::Text("failed")]),
        KeepReply::Waits { jobs } => push_reply(
            out,
            number,
            "keep",
            id,
            &[Word::Text("waiting"), Word::Number(u64::from(jobs))],
        ),
        KeepReply::Stopped => push_reply(out, number, "keep", id, &[Word::Text("stopped")]),
        KeepReply::Refused => push_reply(out, number, "keep", id, &[Word::Text("refused")]),
        KeepReply::Unplanned => push_reply(out, number, "keep", id, &[Word::Text("unplanned")]),
    }
}
