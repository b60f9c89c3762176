//! The tree of a query.

ghost use Rattle.std.specs.Prelude.{◌≡◌, IfOk, map};
ghost use Rattle.pf_model.specs.Trees.{tree_of};

use crate::functions::{AggOp, InstantFn, RangeFn, Sign};
use pf_base::{Text, Value};
use std::alloc::AllocError;
use std::marker::Model;

/// How a matcher compares a label's value with its text.
#[derive(Clone, Copy)]
pub enum MatchSign {
    /// `=`
    Equal,
    /// `!=`
    NotEqual,
    /// `=~`
    Like,
    /// `!~`
    NotLike,
}

/// A matcher, as `job="api"`. A label that a series lacks has the empty value.
#[derive(Drop)]
pub struct Matcher {
    pub label: Text,
    pub sign: MatchSign,
    pub text: Text,
}

impl Clone for Matcher {
    ghost is_clone = { λ x y. y ≡ x };

    fn clone(&self) -> Result<Matcher, AllocError>
        ensures { IfOk result (λ m. m ≡ self.now) }
    {
        Ok(Matcher {
            label: self.label.clone()?,
            sign: self.sign,
            text: self.text.clone()?,
        })
    }
}

/// A selector's matchers in order. A metric name is a matcher on `__name__`.
#[derive(Drop)]
pub struct Selector {
    pub matchers: Vec<Matcher>,
}

impl Clone for Selector {
    ghost is_clone = { λ x y. y ≡ x };

    #[tactic(auto, using(crate::proofs::Copied::same_matchers))]
    fn clone(&self) -> Result<Selector, AllocError>
        ensures { IfOk result (λ s. s ≡ self.now) }
    {
        let matchers = self.matchers.clone()?;
        Ok(Selector { matchers })
    }
}

impl Model for Selector {
    ghost use Rattle.std.specs.Prelude.{List};
    ghost use Rattle.pf_model.specs.declared.expr.Matcher.{Matcher};

    ghost Value = { List Matcher };

    ghost view = { λ s. s.matchers.items };
}

/// The time that an `@` fixes.
#[derive(Clone, Copy)]
pub enum At {
    /// Milliseconds since 1970.
    Time { millis: u64 },
    /// `start()`, the first time of the query's range.
    Start,
    /// `end()`, the last time of the query's range.
    End,
}

/// The time that a selector or a subquery reads at: that of `@`, or else the evaluation's, less the offset in
/// milliseconds.
#[derive(Clone, Copy)]
pub struct Mods {
    pub at: Option<At>,
    pub offset: i64,
}

/// A called function.
#[derive(Clone, Copy)]
pub enum Function {
    Range(RangeFn),
    Instant(InstantFn),
}

/// The labels of an aggregation's clause. No clause is `by ()`.
#[derive(Drop)]
pub struct Grouping {
    /// `without`, in place of `by`.
    pub without: bool,
    pub labels: Vec<Text>,
}

impl Clone for Grouping {
    ghost is_clone = { λ x y. y ≡ x };

    #[tactic(auto, using(crate::proofs::Copied::same_texts))]
    fn clone(&self) -> Result<Grouping, AllocError>
        ensures { IfOk result (λ g. g ≡ self.now) }
    {
        let labels = self.labels.clone()?;
        Ok(Grouping {
            without: self.without,
            labels,
        })
    }
}

impl Model for Grouping {
    ghost use Rattle.pf_model.specs.Clauses.{Grouped};

    ghost Value = { Grouped };

    ghost view = { λ g. record { without = g.without; labels = g.labels.items } };
}

/// The side of a binary operator that may have many elements to one of the other.
#[derive(Clone, Copy)]
pub enum Side {
    /// Neither.
    One,
    /// `group_left`
    Left,
    /// `group_right`
    Right,
}

/// Which elements of two vectors match. No clause is `ignoring ()`.
#[derive(Drop)]
pub struct Matching {
    /// `on`, in place of `ignoring`.
    pub on: bool,
    pub labels: Vec<Text>,
    pub side: Side,
    /// The labels taken from the one side.
    pub include: Vec<Text>,
}

impl Clone for Matching {
    ghost is_clone = { λ x y. y ≡ x };

    #[tactic(auto, using(crate::proofs::Copied::same_texts))]
    fn clone(&self) -> Result<Matching, AllocError>
        ensures { IfOk result (λ m. m ≡ self.now) }
    {
        let labels = self.labels.clone()?;
        let include = self.include.clone()?;
        Ok(Matching {
            on: self.on,
            labels,
            side: self.side,
            include,
        })
    }
}

impl Model for Matching {
    ghost use Rattle.pf_model.specs.Clauses.{Matched};

    ghost Value = { Matched };

    ghost view = { λ m. record { on = m.on; labels = m.labels.items; side = m.side; include = m.include.items } };
}

/// A binary operator.
#[derive(Clone, Copy)]
pub struct BinaryOp {
    pub sign: Sign,
    /// `bool`: a comparison gives 0 or 1.
    pub with_bool: bool,
}

/// A query as a tree. Contracts see it through `tree_of`. Times are in milliseconds.
#[derive(Drop)]
pub enum Expr {
    Number {
        value: Value,
    },
    Text {
        text: Text,
    },
    Unary {
        minus: bool,
        arg: Box<Expr>,
    },
    Binary {
        op: BinaryOp,
        matching: Matching,
        left: Box<Expr>,
        right: Box<Expr>,
    },
    Call {
        function: Function,
        args: Vec<Expr>,
    },
    Aggregate {
        op: AggOp,
        grouping: Grouping,
        args: Vec<Expr>,
    },
    /// An instant selector, or with a range a range selector.
    Select {
        selector: Selector,
        range: Option<u64>,
        mods: Mods,
    },
    /// An absent resolution is one minute.
    Subquery {
        arg: Box<Expr>,
        range: u64,
        resolution: Option<u64>,
        mods: Mods,
    },
}

impl Clone for Expr {
    ghost is_clone = { λ x y. tree_of y ≡ tree_of x };

    /// Calls itself as deep as the tree is high.
    fn clone(&self) -> Result<Expr, AllocError>
        ensures { IfOk result (λ e. tree_of e ≡ tree_of self.now) }
    {
        copy(self)
    }
}

#[cycle(copy)]
fn copy(expr: &Expr) -> Result<Expr, AllocError>
    ensures { IfOk result (λ e. tree_of e ≡ tree_of expr.now) }
{
    match expr {
        Expr::Number { value } => Ok(Expr::Number { value: *value }),
        Expr::Text { text } => Ok(Expr::Text {
            text: text.clone()?,
        }),
        Expr::Unary { minus, arg } => Ok(Expr::Unary {
            minus: *minus,
            arg: copy_boxed(arg)?,
        }),
        Expr::Binary {
            op,
            matching,
            left,
            right,
        } => Ok(Expr::Binary {
            op: *op,
            matching: matching.clone()?,
            left: copy_boxed(left)?,
            right: copy_boxed(right)?,
        }),
        Expr::Call { function, args } => Ok(Expr::Call {
            function: *function,
            args: copy_all(args)?,
        }),
        Expr::Aggregate { op, grouping, args } => Ok(Expr::Aggregate {
            op: *op,
            grouping: grouping.clone()?,
            args: copy_all(args)?,
        }),
        Expr::Select {
            selector,
            range,
            mods,
        } => Ok(Expr::Select {
            selector: selector.clone()?,
            range: *range,
            mods: *mods,
        }),
        Expr::Subquery {
            arg,
            range,
            resolution,
            mods,
        } => Ok(Expr::Subquery {
            arg: copy_boxed(arg)?,
            range: *range,
            resolution: *resolution,
            mods: *mods,
        }),
    }
}

#[cycle(copy)]
fn copy_boxed(arg: &Box<Expr>) -> Result<Box<Expr>, AllocError>
    ensures { IfOk result (λ b. tree_of b.value ≡ tree_of arg.now.value) }
{
    let inner = copy(arg)?;
    Ok(Box::new(*Box::allocator(arg), inner)?)
}

#[cycle(copy)]
fn copy_all(args: &Vec<Expr>) -> Result<Vec<Expr>, AllocError>
    ensures { IfOk result (λ v. map tree_of v.items ≡ map tree_of args.now.items) }
{
    let mut copies = Vec::with_capacity(*args.allocator(), args.len())?;
    for arg in args {
        copies.push(copy(arg)?)?;
    }
    Ok(copies)
}

/// What a query's value is. Prometheus, Querying basics: Expression language data types.
#[derive(Clone, Copy, Debug, PartialEq, Eq)]
pub enum Kind {
    Scalar,
    /// An instant vector.
    Instant,
    /// A range vector.
    Range,
    Text,
}
