//! The bodies of answers.

ghost use Rattle.std.specs.Prelude.{◌≡◌, ◌++◌, OnOk, IfOk, take, vec_len};
ghost use Rattle.pf_model.specs.Direct.{failed};
ghost use Rattle.pf_model.specs.ErrorTexts.{kind_text};
ghost use Rattle.pf_model.specs.Json.{answer_text};
ghost use Rattle.pf_journal.specs.Bodies.{failed_body, memory_body};
ghost use Rattle.pf_report.specs.Bodies.{code_in, failure_text, job_text, result_body, text_of_body};

use crate::error_json::push_error;
use crate::json_text::push_matrix;
use crate::vectors::{push_scalar, push_vector};
use itoa::Buffer;
use pf_base::{OutOfMemory, Text};
use pf_matrix::Matrix;
use pf_model::{ErrorKind, Kind};
use std::alloc::Global;

/// What an answer says.
#[derive(Drop)]
pub enum Body {
    /// The result of a range query.
    Matrix(Matrix),
    /// The result of an instant query. Each row has one point.
    Vector(Matrix),
    /// The result of an instant query for a scalar: a row with one point, or none without a value.
    Scalar(Matrix),
    /// The time of the first step that has an error, in milliseconds.
    Failed { step: u64, kind: ErrorKind },
    /// Why the query or its times are refused.
    Refused(Text),
    /// Its tenant has as many open queries as it may have.
    Full,
    /// All tries of this job failed.
    JobFailed { job: u32 },
    Cancelled,
    TooManyTenants,
    JournalFull,
    OutOfMemory,
}

impl Body {
    /// The body of a query's result.
    pub fn of(instant: bool, kind: Kind, matrix: Matrix) -> Body
        ensures { result ≡ result_body instant kind matrix }
    {
        match (instant, kind) {
            (false, _) => Body::Matrix(matrix),
            (true, Kind::Scalar) => Body::Scalar(matrix),
            (true, _) => Body::Vector(matrix),
        }
    }

    /// The status code of an answer with this body, as of HTTP.
    pub fn code(&self) -> u16
        ensures { result ≡ code_in self.now }
    {
        match self {
            Body::Matrix(_) | Body::Vector(_) | Body::Scalar(_) => 200,
            Body::Refused(_) => 400,
            Body::Failed { .. } => 422,
            Body::Full => 429,
            Body::JobFailed { .. } => 500,
            Body::Cancelled | Body::TooManyTenants | Body::JournalFull => 503,
            Body::OutOfMemory => 507,
        }
    }
}

fn kind_words(kind: ErrorKind) -> &'static str
    ensures { result.now ≡ kind_text kind }
{
    match kind {
        ErrorKind::DoubleLabels => "two elements have equal labels",
        ErrorKind::DoubleOnOneSide => "two elements of the one side match",
        ErrorKind::ManyToMany => "many elements match many",
        ErrorKind::GroupingNotUnique => "grouping is not unique",
    }
}

/// `step T: ` and what went wrong there.
fn failure_text(alloc: Global, step: u64, kind: ErrorKind) -> Result<Text, OutOfMemory>
    ensures { IfOk result (λ t. t ≡ failure_text step kind) }
{
    let mut buffer = Buffer::new();
    let mut text = String::new(alloc);
    text.push_str("step ")?;
    text.push_str(buffer.format(step))?;
    text.push_str(": ")?;
    text.push_str(kind_words(kind))?;
    Ok(Text::take(text))
}

/// Appends the body of an error at a step.
fn push_failure(
    alloc: Global,
    out: &mut Vec<u8>,
    step: u64,
    kind: ErrorKind,
) -> Result<(), OutOfMemory>
    ensures ok { OnOk result (out.new.items ≡ out.old.items ++ answer_text (failed step kind)) }
    ensures kept { take (vec_len out.old) out.new.items ≡ out.old.items }
{
    let message = failure_text(alloc, step, kind)?;
    push_error(alloc, out, "execution", message.as_str())
}

/// `job N failed 5 times`.
fn job_text(alloc: Global, job: u32) -> Result<Text, OutOfMemory>
    ensures { IfOk result (λ t. t ≡ job_text job) }
{
    let mut buffer = Buffer::new();
    let mut text = String::new(alloc);
    text.push_str("job ")?;
    text.push_str(buffer.format(job))?;
    text.push_str(" failed 5 times")?;
    Ok(Text::take(text))
}

/// Appends the body of a job whose tries all failed.
fn push_job_failed(alloc: Global, out: &mut Vec<u8>, job: u32) -> Result<(), OutOfMemory>
    ensures ok { OnOk result (out.new.items ≡ out.old.items ++ failed_body job) }
    ensures kept { take (vec_len out.old) out.new.items ≡ out.old.items }
{
    let message = job_text(alloc, job)?;
    push_error(alloc, out, "internal", message.as_str())
}

/// Appends the body for want of memory, which is the same each time.
#[tactic(auto, using(crate::proofs::ToldBodies::memory_is))]
fn push_memory_body(out: &mut Vec<u8>) -> Result<(), OutOfMemory>
    ensures ok { OnOk result (out.new.items ≡ out.old.items ++ memory_body) }
    ensures kept { take (vec_len out.old) out.new.items ≡ out.old.items }
{
    out.extend_from_slice(
        b"{\"status\":\"error\",\"errorType\":\"out_of_memory\",\"error\":\"out of memory\"}",
    )?;
    Ok(())
}

/// Appends a body.
pub fn push_body(alloc: Global, out: &mut Vec<u8>, body: &Body) -> Result<(), OutOfMemory>
    ensures ok { OnOk result (out.new.items ≡ out.old.items ++ text_of_body body.now) }
    ensures kept { take (vec_len out.old) out.new.items ≡ out.old.items }
{
    match body {
        Body::Matrix(matrix) => push_matrix(alloc, out, &matrix.rows),
        Body::Vector(matrix) => push_vector(alloc, out, &matrix.rows),
        Body::Scalar(matrix) => push_scalar(out, &matrix.rows),
        Body::Failed { step, kind } => push_failure(alloc, out, *step, *kind),
        Body::Refused(message) => push_error(alloc, out, "bad_data", message.as_str()),
        Body::Full => push_error(
            alloc,
            out,
            "too_many_requests",
            "too many outstanding requests",
        ),
        Body::JobFailed { job } => push_job_failed(alloc, out, *job),
        Body::Cancelled => push_error(alloc, out, "canceled", "query was cancelled"),
        Body::TooManyTenants => push_error(alloc, out, "unavailable", "too many tenants"),
        Body::JournalFull => push_error(alloc, out, "unavailable", "journal full"),
        Body::OutOfMemory => push_memory_body(out),
    }
}
