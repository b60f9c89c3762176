//! The tokens of a query's text.
//!
//! What the layers above use: `tokens` cuts a text into words, numbers, durations, strings and signs, each with its place,
//! or names the first place where none begins. Its contract is the definition of the tokens, each the longest that fits.
#![tactic(auto)]

mod canonical;
mod lexer;
mod mark;
mod number;
mod spans;
mod string;
mod token;
mod value;
mod word;

pub use canonical::canonical_texts_are_cut;
pub use lexer::tokens;
pub use token::{LexError, Mark, Token, TokenSort};
pub use value::{string_value, token_text, unquoted};
