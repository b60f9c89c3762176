//! Queries written as canonical texts.
//!
//! What the layers above use: `print` writes a tree as its canonical text, which derives this tree. The contract of
//! `have_own_texts` is that no other tree has this text, and that of `keep_texts` that a query with its range put in has one.
#![tactic(auto)]

mod law;
mod output;
mod printer;

pub use law::{have_own_texts, keep_texts};
pub use printer::print;
