//! The words and signs of functions, aggregations and binary operators.

/// A function of a range vector. Prometheus, Query functions.
#[derive(Clone, Copy)]
pub enum RangeFn {
    Increase,
    Rate,
    Delta,
    Irate,
    Idelta,
    Changes,
    Resets,
    AvgOverTime,
    SumOverTime,
    MinOverTime,
    MaxOverTime,
    CountOverTime,
    LastOverTime,
    PresentOverTime,
    AbsentOverTime,
}

/// A function of instant vectors, scalars and texts. Prometheus, Query functions.
#[derive(Clone, Copy)]
pub enum InstantFn {
    Abs,
    Ceil,
    Floor,
    Sgn,
    Round,
    Clamp,
    ClampMin,
    ClampMax,
    Absent,
    Scalar,
    Vector,
    Time,
    Timestamp,
    LabelReplace,
    LabelJoin,
}

/// An aggregation. Prometheus, Operators: Aggregation operators.
#[derive(Clone, Copy)]
pub enum AggOp {
    Sum,
    Avg,
    Min,
    Max,
    Count,
    Group,
    Topk,
    Bottomk,
    Quantile,
}

/// A binary operator. Prometheus, Operators: Binary operators.
#[derive(Clone, Copy)]
pub enum Sign {
    /// `+`
    Add,
    /// `-`
    Sub,
    /// `*`
    Mul,
    /// `/`
    Div,
    /// `%`
    Rem,
    /// `==`
    Equal,
    /// `!=`
    NotEqual,
    /// `<`
    Less,
    /// `<=`
    LessOrEqual,
    /// `>`
    Greater,
    /// `>=`
    GreaterOrEqual,
    And,
    Or,
    Unless,
}
