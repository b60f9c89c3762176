//! Patterns: regular expressions that have to match a whole value, as matchers with `=~` and `!~` and `label_replace`
//! have them.
//!
//! What the layers above use: `Pattern::build` reads `^(?s:TEXT)$` by the crate `regex`, or refuses it. Contracts see a
//! pattern as its text, and what a text means is defined over that crate's reading of it: which values it matches, and
//! what a template such as `$1` stands for at a value. `matches` and `expand` answer exactly that, or that memory is
//! wanting.
//!
//! A text is refused where it is no expression, where it nests too deep, or where it compiles too big. Only the last can't be
//! said of the text beforehand, so a `Patterns` keeps what it found: in it the same text has one fate.
//!
//! A pattern doesn't change, and it is proved that threads may share it. What a search writes to stands beside it:
//! `matches` and `expand` make it for one value, `matcher` and `expander` for any number of them.
//!
//! ```
//! let pattern = Pattern::build(alloc, "(.*)-([0-9]+)")?;
//! pattern.matches("api-7")?                  // true
//! pattern.expand("api-7", "$2 of $1")?       // Some("7 of api")
//!
//! let mut matcher = pattern.matcher()?;
//! for value in values {
//!     if matcher.matches(value) { .. }
//! }
//! ```
#![tactic(auto)]

mod error;
mod expander;
mod matcher;
mod pattern;
mod shared;
mod table;

pub use error::PatternError;
pub use expander::PatternExpander;
pub use matcher::PatternMatcher;
pub use pattern::Pattern;
pub use table::Patterns;
