//! The words that stand for themselves. Prometheus, Querying: Operators.

use pf_model::{AggOp, Sign};

/// A keyword, in any case of letters.
#[derive(Clone, Copy)]
pub enum Keyword {
    /// `and`, `or`, `unless`
    Operator { sign: Sign },
    /// `bool`
    Bool,
    /// `on`, or else `ignoring`
    Keys { on: bool },
    /// `group_left`, or else `group_right`
    Group { left: bool },
    /// `without`, or else `by`
    Clause { without: bool },
    /// `offset`
    Offset,
    /// `sum` and the like
    Aggregation { op: AggOp },
}
