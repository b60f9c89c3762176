//! What was read last of a query, and what is open.
//!
//! The modes, each with texts that lead to it. Behind a whole operand come an operator, `[`, `,`, `)` or the end.
//!
//! | Mode | Behind | What may come |
//! |---|---|---|
//! | `Due` | nothing, `(`, `-`, `a +`, `sum(`, `f(x,` | an operand |
//! | `FirstDue` | `f(` | an operand, `)` |
//! | `Named` | `up` | `(`, `{`, as behind `Modified` |
//! | `Selecting`, `Label` due | `{`, `up{`, `{a="x",` | a label, `}` |
//! | `Selecting`, `Sign` due | `{a` | `=`, `!=`, `=~`, `!~` |
//! | `Selecting`, `Text` due | `{a=` | a string |
//! | `Selecting`, `Comma` due | `{a="x"` | `,`, `}` |
//! | `Modified` | `{a="x"}`, `up[5m]`, `up[5m:1m]`, `up offset 5m` | `offset`, `@`, `[`, as behind an operand |
//! | `Modifying`, `Offset` due | `up offset` | a duration, `-` |
//! | `Modifying`, `MinusOffset` due | `up offset -` | a duration |
//! | `Modifying`, `Time` due | `up @` | a number, `+`, `-`, `start`, `end` |
//! | `Modifying`, `SignedTime` due | `up @ -` | a number |
//! | `Modifying`, `Open` due | `up @ start` | `(` |
//! | `Modifying`, `Close` due | `up @ start(` | `)` |
//! | `Ranging`, `RangeDue` | `up[` | a duration |
//! | `Ranging`, `Range` | `up[5m` | `]` behind a bare selector, `:` |
//! | `Ranging`, `ResolutionDue` | `up[5m:` | a duration, `]` |
//! | `Ranging`, `Resolution` | `up[5m:1m` | `]` |
//! | `Whole` | `1`, `"x"`, `f(x)`, `(x)` | as behind an operand |
//! | `Operating`, `Operated` | `a +`, `a == bool` | `bool`, `on`, `ignoring`, an operand |
//! | `Operating`, `Keyed` | `a + on(x)` | `group_left`, `group_right`, an operand |
//! | `Operating`, `Grouped` | `a + on(x) group_left` | `(`, an operand |
//! | `Aggregating`, `ClauseDue` | `sum` | `by`, `without`, `(` |
//! | `Aggregating`, `ArgumentsDue` | `sum by (x)` | `(` |
//! | `Aggregating`, `Aggregated` | `sum(x)` | `by`, `without`, as behind an operand |
//! | `Labelling`, `BracketDue` | `sum by`, `a + on` | `(` |
//! | `Labelling`, `LabelDue` | `sum by (`, `sum by (x,` | a label, `)` |
//! | `Labelling`, `CommaDue` | `sum by (x` | `,`, `)` |

use crate::held::{Arguments, Measured, ModifiersRead, Target};
use pf_base::Text;
use pf_model::{AggOp, At, BinaryOp, Function, Grouping, MatchSign, Matching, Selector};
use std::marker::Model;

/// Whose arguments are read.
#[derive(Drop)]
pub enum Callee {
    /// Of a called name that is no function's, none.
    Function {
        function: Option<Function>,
    },
    /// With the clause before the arguments.
    Aggregation {
        op: AggOp,
        grouping: Option<Grouping>,
    },
}

/// What is open.
#[derive(Drop)]
pub enum Frame {
    Signed {
        minus: bool,
    },
    /// An operator and its left operand.
    Left {
        op: BinaryOp,
        matching: Matching,
        left: Option<Measured>,
    },
    Bracket,
    /// The bracket of a call or an aggregation, with the arguments read before.
    Calling {
        callee: Callee,
        args: Option<Arguments>,
    },
}

/// Labels in order.
#[derive(Drop)]
pub struct LabelList {
    pub labels: Vec<Text>,
}

impl Model for LabelList {
    ghost use Rattle.std.specs.Prelude.{List, ℕ};

    ghost Value = { List (List ℕ) };

    ghost view = { λ l. l.labels.items };
}

/// Whose labels are read.
#[derive(Drop)]
pub enum Purpose {
    /// An aggregation's, before its arguments.
    GroupsNext {
        op: AggOp,
        without: bool,
    },
    /// An aggregation's, behind its arguments.
    Groups {
        op: AggOp,
        args: Option<Arguments>,
        without: bool,
    },
    /// Those of `on` or `ignoring`.
    Matches {
        op: BinaryOp,
        left: Option<Measured>,
        on: bool,
    },
    /// Those of `group_left` or `group_right`.
    Includes {
        op: BinaryOp,
        matching: Matching,
        left: Option<Measured>,
    },
}

/// What stands before a square bracket.
#[derive(Drop)]
pub enum Base {
    /// A selector without a range and without modifiers.
    Matchers { selector: Selector },
    Operand { arg: Option<Measured> },
}

/// A selector's matchers so far, behind a name or not.
#[derive(Drop)]
pub struct Selecting {
    pub has_name: bool,
    pub selector: Selector,
}

/// What is due in a selector's braces.
#[derive(Drop)]
pub enum SelectorDue {
    /// A label or the closing brace.
    Label,
    /// The sign of a matcher.
    Sign { label: Text },
    /// The text of a matcher.
    Text { label: Text, sign: MatchSign },
    /// A comma or the closing brace.
    Comma,
}

/// A selector or a subquery, with the modifiers read so far.
#[derive(Drop)]
pub struct Modifying {
    pub target: Option<Target>,
    pub read: ModifiersRead,
}

/// What is due in a modifier.
#[derive(Clone, Copy)]
pub enum ModifierDue {
    /// Behind `offset`.
    Offset,
    /// Behind `offset -`.
    MinusOffset,
    /// Behind `@`.
    Time,
    /// Behind `@` and a sign.
    SignedTime { minus: bool },
    /// Behind `@ start` or `@ end`.
    Open { at: At },
    /// Behind `@ start(` or `@ end(`.
    Close { at: At },
}

/// A range or a resolution. Times are in milliseconds, none where they are past the greatest.
#[derive(Drop)]
pub enum Ranging {
    /// Behind a square bracket.
    RangeDue {
        base: Base,
    },
    Range {
        base: Base,
        millis: Option<u64>,
    },
    /// Behind a subquery's colon.
    ResolutionDue {
        arg: Option<Measured>,
        range: Option<u64>,
    },
    Resolution {
        arg: Option<Measured>,
        range: Option<u64>,
        millis: Option<u64>,
    },
}

/// A binary operator with its labels and its left operand.
#[derive(Drop)]
pub struct Operation {
    pub op: BinaryOp,
    pub matching: Matching,
    pub left: Option<Measured>,
}

/// A binary operator.
#[derive(Drop)]
pub enum Operating {
    /// Alone, or with `bool`.
    Operated {
        op: BinaryOp,
        left: Option<Measured>,
    },
    /// With `on` or `ignoring` and their labels.
    Keyed(Operation),
    /// Behind `group_left` or `group_right`.
    Grouped(Operation),
}

/// An aggregation.
#[derive(Drop)]
pub enum Aggregating {
    /// Its word.
    ClauseDue { op: AggOp },
    /// With a clause before its arguments.
    ArgumentsDue { op: AggOp, grouping: Grouping },
    /// Without a clause, behind its arguments.
    Aggregated { op: AggOp, args: Option<Arguments> },
}

/// Labels in brackets.
#[derive(Drop)]
pub enum Labelling {
    /// The opening bracket is due.
    BracketDue { purpose: Purpose },
    /// A label or the closing bracket is due.
    LabelDue { purpose: Purpose, labels: LabelList },
    /// A comma or the closing bracket is due.
    CommaDue { purpose: Purpose, labels: LabelList },
}

/// What was read last.
#[derive(Drop)]
pub enum Mode {
    Due,
    /// A call's bracket, of a called name that is no function's, none.
    FirstDue {
        function: Option<Function>,
    },
    /// A name, of a function or a metric.
    Named {
        name: Text,
    },
    Selecting {
        selecting: Selecting,
        due: SelectorDue,
    },
    Modified(Modifying),
    Modifying {
        modifying: Modifying,
        due: ModifierDue,
    },
    Ranging(Ranging),
    Whole {
        arg: Option<Measured>,
    },
    Operating(Operating),
    Aggregating(Aggregating),
    Labelling(Labelling),
}
