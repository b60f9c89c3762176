//! The words and signs of the language. Prometheus, Querying: Operators, Functions.

ghost use Rattle.std.specs.Prelude.{◌≡◌};
ghost use Rattle.pf_model.specs.Words.{aggregation_word, function_name, instant_name, match_text, operator_text, range_name};

use crate::expr::{Function, MatchSign};
use crate::functions::{AggOp, InstantFn, RangeFn, Sign};

fn range_name(function: RangeFn) -> &'static str
    ensures { result.now ≡ range_name function }
{
    match function {
        RangeFn::Increase => "increase",
        RangeFn::Rate => "rate",
        RangeFn::Delta => "delta",
        RangeFn::Irate => "irate",
        RangeFn::Idelta => "idelta",
        RangeFn::Changes => "changes",
        RangeFn::Resets => "resets",
        RangeFn::AvgOverTime => "avg_over_time",
        RangeFn::SumOverTime => "sum_over_time",
        RangeFn::MinOverTime => "min_over_time",
        RangeFn::MaxOverTime => "max_over_time",
        RangeFn::CountOverTime => "count_over_time",
        RangeFn::LastOverTime => "last_over_time",
        RangeFn::PresentOverTime => "present_over_time",
        RangeFn::AbsentOverTime => "absent_over_time",
    }
}

fn instant_name(function: InstantFn) -> &'static str
    ensures { result.now ≡ instant_name function }
{
    match function {
        InstantFn::Abs => "abs",
        InstantFn::Ceil => "ceil",
        InstantFn::Floor => "floor",
        InstantFn::Sgn => "sgn",
        InstantFn::Round => "round",
        InstantFn::Clamp => "clamp",
        InstantFn::ClampMin => "clamp_min",
        InstantFn::ClampMax => "clamp_max",
        InstantFn::Absent => "absent",
        InstantFn::Scalar => "scalar",
        InstantFn::Vector => "vector",
        InstantFn::Time => "time",
        InstantFn::Timestamp => "timestamp",
        InstantFn::LabelReplace => "label_replace",
        InstantFn::LabelJoin => "label_join",
    }
}

/// A function's name, as `avg_over_time`.
pub fn function_name(function: Function) -> &'static str
    ensures { result.now ≡ function_name function }
{
    match function {
        Function::Range(function) => range_name(function),
        Function::Instant(function) => instant_name(function),
    }
}

/// An aggregation's word, as `topk`.
pub fn aggregation_word(op: AggOp) -> &'static str
    ensures { result.now ≡ aggregation_word op }
{
    match op {
        AggOp::Sum => "sum",
        AggOp::Avg => "avg",
        AggOp::Min => "min",
        AggOp::Max => "max",
        AggOp::Count => "count",
        AggOp::Group => "group",
        AggOp::Topk => "topk",
        AggOp::Bottomk => "bottomk",
        AggOp::Quantile => "quantile",
    }
}

/// A binary operator as it is written, as `!=` or `unless`.
pub fn operator_text(sign: Sign) -> &'static str
    ensures { result.now ≡ operator_text sign }
{
    match sign {
        Sign::Add => "+",
        Sign::Sub => "-",
        Sign::Mul => "*",
        Sign::Div => "/",
        Sign::Rem => "%",
        Sign::Equal => "==",
        Sign::NotEqual => "!=",
        Sign::Less => "<",
        Sign::LessOrEqual => "<=",
        Sign::Greater => ">",
        Sign::GreaterOrEqual => ">=",
        Sign::And => "and",
        Sign::Or => "or",
        Sign::Unless => "unless",
    }
}

/// A matcher's sign as it is written, as `=~`.
pub fn match_text(sign: MatchSign) -> &'static str
    ensures { result.now ≡ match_text sign }
{
    match sign {
        MatchSign::Equal => "=",
        MatchSign::NotEqual => "!=",
        MatchSign::Like => "=~",
        MatchSign::NotLike => "!~",
    }
}
