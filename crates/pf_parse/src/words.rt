//! The words and signs that the reader looks for. Prometheus, Querying: Operators, Functions.

ghost use Rattle.std.specs.Prelude.{◌≡◌};
ghost use Rattle.std.specs.Str.{str_to_ascii_lowercase};
ghost use Rattle.pf_model.specs.Words.{function_of, is_comparison, level_of, named_among};
ghost use Rattle.pf_parse.specs.Lexemes.{keyword_among, keyword_of, keyword_text, match_mark, operator_mark};

use crate::keyword::Keyword;
use pf_lex::Mark;
use pf_model::{
    AggOp, Function, InstantFn, MatchSign, RangeFn, Sign, aggregation_word, function_name,
    operator_text,
};

const FUNCTIONS: [Function; 30] = [
    Function::Range(RangeFn::Increase),
    Function::Range(RangeFn::Rate),
    Function::Range(RangeFn::Delta),
    Function::Range(RangeFn::Irate),
    Function::Range(RangeFn::Idelta),
    Function::Range(RangeFn::Changes),
    Function::Range(RangeFn::Resets),
    Function::Range(RangeFn::AvgOverTime),
    Function::Range(RangeFn::SumOverTime),
    Function::Range(RangeFn::MinOverTime),
    Function::Range(RangeFn::MaxOverTime),
    Function::Range(RangeFn::CountOverTime),
    Function::Range(RangeFn::LastOverTime),
    Function::Range(RangeFn::PresentOverTime),
    Function::Range(RangeFn::AbsentOverTime),
    Function::Instant(InstantFn::Abs),
    Function::Instant(InstantFn::Ceil),
    Function::Instant(InstantFn::Floor),
    Function::Instant(InstantFn::Sgn),
    Function::Instant(InstantFn::Round),
    Function::Instant(InstantFn::Clamp),
    Function::Instant(InstantFn::ClampMin),
    Function::Instant(InstantFn::ClampMax),
    Function::Instant(InstantFn::Absent),
    Function::Instant(InstantFn::Scalar),
    Function::Instant(InstantFn::Vector),
    Function::Instant(InstantFn::Time),
    Function::Instant(InstantFn::Timestamp),
    Function::Instant(InstantFn::LabelReplace),
    Function::Instant(InstantFn::LabelJoin),
];

#[tactic(auto, using(crate::proofs::Among::function_found, crate::proofs::Among::function_passed))]
fn named_among(functions: &[Function], name: &str) -> Option<Function>
    ensures { result ≡ named_among functions.now name.now }
{
    for function in functions {
        if function_name(*function) == name {
            return Some(*function);
        }
    }
    None
}

/// The function of a name, in small letters alone.
pub fn function_of(name: &str) -> Option<Function>
    ensures { result ≡ function_of name.now }
{
    named_among(&FUNCTIONS, name)
}

/// The level of an operator; a lower one binds closer.
pub fn level_of(sign: Sign) -> u64
    ensures { result ≡ level_of sign }
{
    match sign {
        Sign::Mul | Sign::Div | Sign::Rem => 2,
        Sign::Add | Sign::Sub => 3,
        Sign::Equal
        | Sign::NotEqual
        | Sign::Less
        | Sign::LessOrEqual
        | Sign::Greater
        | Sign::GreaterOrEqual => 4,
        Sign::And | Sign::Unless => 5,
        Sign::Or => 6,
    }
}

pub fn is_comparison(sign: Sign) -> bool
    ensures { result ≡ is_comparison sign }
{
    matches!(
        sign,
        Sign::Equal
            | Sign::NotEqual
            | Sign::Less
            | Sign::LessOrEqual
            | Sign::Greater
            | Sign::GreaterOrEqual
    )
}

fn keyword_text(keyword: Keyword) -> &'static str
    ensures { result.now ≡ keyword_text keyword }
{
    match keyword {
        Keyword::Operator { sign } => operator_text(sign),
        Keyword::Bool => "bool",
        Keyword::Keys { on: true } => "on",
        Keyword::Keys { on: false } => "ignoring",
        Keyword::Group { left: true } => "group_left",
        Keyword::Group { left: false } => "group_right",
        Keyword::Clause { without: true } => "without",
        Keyword::Clause { without: false } => "by",
        Keyword::Offset => "offset",
        Keyword::Aggregation { op } => aggregation_word(op),
    }
}

const KEYWORDS: [Keyword; 20] = [
    Keyword::Operator { sign: Sign::And },
    Keyword::Operator { sign: Sign::Or },
    Keyword::Operator { sign: Sign::Unless },
    Keyword::Bool,
    Keyword::Keys { on: true },
    Keyword::Keys { on: false },
    Keyword::Group { left: true },
    Keyword::Group { left: false },
    Keyword::Clause { without: false },
    Keyword::Clause { without: true },
    Keyword::Offset,
    Keyword::Aggregation { op: AggOp::Sum },
    Keyword::Aggregation { op: AggOp::Avg },
    Keyword::Aggregation { op: AggOp::Min },
    Keyword::Aggregation { op: AggOp::Max },
    Keyword::Aggregation { op: AggOp::Count },
    Keyword::Aggregation { op: AggOp::Group },
    Keyword::Aggregation { op: AggOp::Topk },
    Keyword::Aggregation { op: AggOp::Bottomk },
    Keyword::Aggregation {
        op: AggOp::Quantile,
    },
];

#[tactic(auto, using(crate::proofs::Among::keyword_found, crate::proofs::Among::keyword_passed))]
fn keyword_among(keywords: &[Keyword], word: &str) -> Option<Keyword>
    ensures { result ≡ keyword_among keywords.now (str_to_ascii_lowercase word.now) }
{
    for keyword in keywords {
        if word.eq_ignore_ascii_case(keyword_text(*keyword)) {
            return Some(*keyword);
        }
    }
    None
}

/// The keyword that a word is, in any case of letters.
pub fn keyword_of(word: &str) -> Option<Keyword>
    ensures { result ≡ keyword_of word.now }
{
    keyword_among(&KEYWORDS, word)
}

/// The binary operator that a sign is.
pub fn operator_mark(mark: Mark) -> Option<Sign>
    ensures { result ≡ operator_mark mark }
{
    match mark {
        Mark::Plus => Some(Sign::Add),
        Mark::Minus => Some(Sign::Sub),
        Mark::Times => Some(Sign::Mul),
        Mark::Over => Some(Sign::Div),
        Mark::Percent => Some(Sign::Rem),
        Mark::DoubleEqual => Some(Sign::Equal),
        Mark::NotEqual => Some(Sign::NotEqual),
        Mark::AtMost => Some(Sign::LessOrEqual),
        Mark::Below => Some(Sign::Less),
        Mark::AtLeast => Some(Sign::GreaterOrEqual),
        Mark::Above => Some(Sign::Greater),
        _ => None,
    }
}

/// The matcher's sign that a sign is.
pub fn match_mark(mark: Mark) -> Option<MatchSign>
    ensures { result ≡ match_mark mark }
{
    match mark {
        Mark::Equal => Some(MatchSign::Equal),
        Mark::NotEqual => Some(MatchSign::NotEqual),
        Mark::Like => Some(MatchSign::Like),
        Mark::NotLike => Some(MatchSign::NotLike),
        _ => None,
    }
}
