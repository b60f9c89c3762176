//! Queries read from texts.
//!
//! What the layers above use: `parse` reads a text as its tree, or names the first refusal and its place; its contract is the
//! grammar of queries, in both directions.
//!
//! The reader is a machine over the tokens with a stack of what is open, and nothing in it recurses over the text. A tree is
//! held only while it has at most 64 levels, so no taller one is ever built.
#![tactic(auto)]

mod aggregations;
mod error;
mod held;
mod keyword;
mod lexeme;
mod mode;
mod modifiers;
mod operands;
mod operators;
mod parser;
mod ranges;
mod reader;
mod scans;
mod selectors;
mod stack;
mod words;

pub use error::ParseError;
pub use parser::parse;
