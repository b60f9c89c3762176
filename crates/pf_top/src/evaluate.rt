//! The answers of queries over snapshots.

ghost use Rattle.std.specs.Prelude.{◌≡◌, IfOk, List, map};
ghost use Rattle.pf_base.specs.declared.plain.Row.{Row};
ghost use Rattle.pf_journal.specs.Bodies.{body_text};
ghost use Rattle.pf_journal.specs.Machine.{code_of};
ghost use Rattle.pf_model.specs.Binding.{bound_series};
ghost use Rattle.pf_model.specs.Direct.{direct};
ghost use Rattle.pf_model.specs.Log.{AreApart};
ghost use Rattle.pf_report.specs.Bodies.{answer_body, code_in, text_of_body};
ghost use Rattle.pf_store.specs.Standing.{StandsFor};

use pf_asked::Asked;
use pf_base::OutOfMemory;
use pf_block::Snap;
use pf_eval::{EvalError, eval_bound};
use pf_index::select_all;
use pf_report::Body;
use std::alloc::Global;

/// The answer of a query from the ids of the series that each of its selectors takes.
#[tactic(auto, using(pf_client::proofs::DirectAnswers::all_among, pf_client::proofs::DirectAnswers::has_result, pf_client::proofs::DirectAnswers::has_failed))]
fn body_of(
    alloc: Global,
    asked: &Asked,
    series: &[Vec<u32>],
    snap: &Snap,
) -> Result<Body, OutOfMemory>
    requires { map (λ v. v.items) series.now ≡ bound_series asked.now.query.tree snap.now.labels }
    ensures { IfOk result (λ b. (samples : List Row) → StandsFor snap.now samples → AreApart samples → b ≡ answer_body asked.now.instant asked.now.kind (direct samples asked.now.query)) }
{
    match eval_bound(
        alloc,
        &asked.expr,
        series,
        &asked.patterns,
        snap,
        &asked.grid,
    ) {
        Ok(matrix) => Ok(Body::of(asked.instant, asked.kind, matrix)),
        Err(EvalError::Execution { step, kind }) => Ok(Body::Failed { step, kind }),
        Err(EvalError::OutOfMemory) => Err(OutOfMemory),
    }
}

/// The answer of a query over the samples that a snapshot stands for: a matrix over a range, a vector or a scalar at an instant,
/// or the first step that has an error. Prometheus, HTTP API: Instant queries, Range queries.
#[tactic(auto, using(pf_client::proofs::DirectAnswers::body_texts, pf_client::proofs::DirectAnswers::body_codes))]
pub fn evaluate(alloc: Global, asked: &Asked, snap: &Snap) -> Result<Body, OutOfMemory>
    ensures text { IfOk result (λ b. (samples : List Row) → StandsFor snap.now samples → AreApart samples → text_of_body b ≡ body_text asked.now (direct samples asked.now.query)) }
    ensures code { IfOk result (λ b. (samples : List Row) → StandsFor snap.now samples → AreApart samples → code_in b ≡ code_of (direct samples asked.now.query)) }
{
    let series = select_all(alloc, snap, &asked.matchers)?;
    let body = body_of(alloc, asked, &series, snap)?;
    Ok(body)
}
