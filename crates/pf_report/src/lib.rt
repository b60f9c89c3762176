//! The texts of the report: replies to a script's lines, the bodies of answers, and the journal's lines.
//!
//! What the layers above use: each `push_..` appends to the report exactly the text that its definition gives, and leaves
//! what stands before it. Lines are words with one blank between them, and end with a line feed; bodies are JSON.
//! `push_line` writes any line, and each other call one kind: the line of a client and the replies to its lines, the
//! journal's first line and its entries, the lines of actors, what an evaluation prints, and the line of a session. Where memory ran out, nothing
//! more is to be read from the report: a part of the text may stand there.
#![tactic(auto)]

mod actors;
mod answers;
mod ask;
mod bodies;
mod cancel;
mod counts;
mod delete;
mod entries;
mod error_json;
mod evaluations;
mod heads;
mod ingest;
mod json_text;
mod points;
mod refused_rows;
mod replies;
mod steps;
mod summaries;
mod vectors;
mod word;

pub use actors::{push_actors, push_client};
pub use answers::{push_answered, push_waiting};
pub use ask::{AskReply, push_ask_reply};
pub use bodies::{Body, push_body};
pub use cancel::{CancelReply, push_cancel_reply};
pub use delete::{DeleteReply, push_delete_reply};
pub use entries::{EntryWords, push_entry, push_journal_head};
pub use error_json::push_error;
pub use evaluations::push_evaluation;
pub use ingest::{FileFault, IngestReply, push_ingest_reply};
pub use steps::{
    DoneReply, KeepReply, PlanReply, Stop, TakeReply, push_done_reply, push_keep_reply,
    push_plan_reply, push_take_reply,
};
pub use summaries::{Tally, push_summary};
pub use word::{Word, push_line};
