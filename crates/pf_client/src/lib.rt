//! A client that runs the lines of its script over the core.
//!
//! What the layer above uses: `load_all` reads the files that a script names, each once and in the order of first mention, and
//! `read_queries` its queries and selectors; `run_script` runs the lines over them, and writes the report in pieces as they run:
//! the replies to the lines, the journal, and the actors' failed tries; `run_session` runs them likewise, and counts the answers.
//! The journal is legal and woven from the lines, and each reply has its cause in the line, what the file or the query is read as,
//! and the lines before it.
#![tactic(auto)]

mod answers;
mod client;
mod drive;
mod journal;
mod loaded;
mod pieces;
mod queries;
mod session;
mod slots;
mod step_lines;

pub use client::{FileRead, read_content};
pub use drive::run_script;
pub use loaded::{
    Content, Contents, LoadError, Loaded, MOST_BYTES, ReadFile, let_go, load_all, only, read_file,
};
pub use pieces::ReportError;
pub use queries::{Queries, QueryRead, SelectorRead, TextRead, query_of, read_queries, read_text};
pub use session::{Summary, run_session};
