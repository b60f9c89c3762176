//! Queries read from texts, their kinds, and why a text is no query.
//!
//! What the layers above use: `read_query` gives the tree of a text whose kinds are lawful, or the first error; `check` gives
//! the kind of a tree, or the error of the first node in post-order that breaks a rule, with the number that the node has in
//! preorder, from 0 on, and takes no memory. `bind` gives a query the matchers of its selectors and the patterns of its calls, or
//! tells the first refused pattern or empty selector. `BoundQuery::asked` is what it asks over a grid, and `read_asked` what a
//! text asks. `error_text` and `grid_text` are the texts of errors.
#![tactic(auto)]

mod arguments;
mod asking;
mod bound;
mod error;
mod kinds;
mod operators;
mod query;
mod subquery;
mod texts;

pub use asking::{When, read_asked};
pub use bound::{BindError, BoundQuery, bind};
pub use error::TypeError;
pub use kinds::check;
pub use query::{QueryError, read_query};
pub use texts::{error_text, grid_text};
