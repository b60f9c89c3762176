//! The tree of a query, the lines of a text, and the definitions of what the query frontend answers.
#![tactic(auto)]

mod cell;
mod expr;
mod functions;
mod lines;
mod matchers;
mod shared;
mod words;

pub use cell::{Cell, Element, ErrorKind, StepCell};
pub use expr::{
    At, BinaryOp, Expr, Function, Grouping, Kind, MatchSign, Matcher, Matching, Mods, Selector,
    Side,
};
pub use functions::{AggOp, InstantFn, RangeFn, Sign};
pub use lines::next_line;
pub use matchers::{MatchError, Matchers, MatchersAsker, is_plain};
pub use words::{aggregation_word, function_name, match_text, operator_text};
