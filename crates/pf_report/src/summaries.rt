//! The line of a session: what is counted of its answers.

ghost use Rattle.std.specs.Prelude.{◌≡◌, ◌++◌, OnOk, fold, length, take, vec_len};
ghost use Rattle.pf_journal.specs.Summaries.{nothing_counted, summary_text, with_answer, with_micros, with_row};
ghost use Rattle.pf_report.specs.Bodies.{code_in};
ghost use Rattle.pf_report.specs.Summaries.{rows_in};

use crate::bodies::Body;
use crate::word::{Word, push_line};
use pf_base::{OutOfMemory, Sample};
use pf_matrix::MatrixRow;
use std::marker::Model;

/// How many answers have the code 200, how many steps of all answers were cached and evaluated, and how many points all their
/// matrices have, with the sum of these points' micros; all modulo 2^64.
#[derive(Clone, Copy)]
pub struct Tally {
    pub ok: u64,
    pub cached: u64,
    pub evaluated: u64,
    pub elements: u64,
    pub sum: u64,
}

impl Model for Tally {
    ghost use Rattle.pf_journal.specs.Summaries.{Tally as TallyData};

    ghost Value = { TallyData };

    ghost view = { λ t. record { ok = t.ok; cached = t.cached; evaluated = t.evaluated; elements = t.elements; sum = t.sum } };

    ghost inverse = { λ t. record { ok = t.ok; cached = t.cached; evaluated = t.evaluated; elements = t.elements; sum = t.sum } };
}

/// A sum with the micros of points.
fn with_points(sum: u64, points: &[Sample]) -> u64
    ensures { result ≡ fold with_micros sum points.now }
{
    points.iter().fold(
        sum,
        |sum, point| sum.wrapping_add_signed(point.value.micros()),
    )
}

impl Tally {
    /// No answer.
    pub fn nothing() -> Tally
        ensures { result ≡ nothing_counted }
    {
        Tally {
            ok: 0,
            cached: 0,
            evaluated: 0,
            elements: 0,
            sum: 0,
        }
    }

    fn with_row(self, row: &MatrixRow) -> Tally
        ensures { result ≡ with_row self row.now }
    {
        Tally {
            elements: self.elements.wrapping_add(row.points.len() as u64),
            sum: with_points(self.sum, &row.points),
            ..self
        }
    }

    fn with_rows(self, rows: &[MatrixRow]) -> Tally
        ensures { result ≡ fold with_row self rows.now }
    {
        rows.iter().fold(self, |tally, row| tally.with_row(row))
    }

    /// With an answer: how many of its steps were cached and evaluated, and its body.
    pub fn with_answer(self, cached: u32, evaluated: u32, body: &Body) -> Tally
        ensures { result ≡ with_answer self (code_in body.now) cached evaluated (rows_in body.now) }
    {
        let ok = if body.code() == 200 { 1 } else { 0 };
        let tally = Tally {
            ok: self.ok.wrapping_add(ok),
            cached: self.cached.wrapping_add(u64::from(cached)),
            evaluated: self.evaluated.wrapping_add(u64::from(evaluated)),
            ..self
        };
        match body {
            Body::Matrix(matrix) | Body::Vector(matrix) | Body::Scalar(matrix) => {
                tally.with_rows(&matrix.rows)
            }
            _ => tally,
        }
    }
}

/// Appends the line of a session: its seed, how many queries it has, and what is counted of their answers.
pub fn push_summary(
    out: &mut Vec<u8>,
    seed: u64,
    queries: u64,
    tally: Tally,
) -> Result<(), OutOfMemory>
    ensures ok { OnOk result (out.new.items ≡ out.old.items ++ summary_text seed queries tally) }
    ensures kept { take (vec_len out.old) out.new.items ≡ out.old.items }
{
    let words = [
        Word::Text("load"),
        Word::Number(seed),
        Word::Text("queries"),
        Word::Number(queries),
        Word::Text("ok"),
        Word::Number(tally.ok),
        Word::Text("steps"),
        Word::Number(tally.cached.wrapping_add(tally.evaluated)),
        Word::Text("cached"),
        Word::Number(tally.cached),
        Word::Text("evaluated"),
        Word::Number(tally.evaluated),
        Word::Text("elements"),
        Word::Number(tally.elements),
        Word::Text("sum"),
        Word::Number(tally.sum),
    ];
    push_line(out, &words)
}
