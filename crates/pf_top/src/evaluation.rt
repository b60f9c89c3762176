//! The evaluation of a query over the samples of one batch.

ghost use Rattle.std.specs.Prelude.{◌≡◌, ◌<◌, IfOk, List, Ok, Some, ℕ, codes, decimal, false, true};
ghost use Rattle.std.specs.Arc.{arc_value};
ghost use Rattle.pf_base.specs.Grids.{grid_of};
ghost use Rattle.pf_block.specs.Snaps.{are_timed};
ghost use Rattle.pf_journal.specs.Asking.{asked_over};
ghost use Rattle.pf_journal.specs.Bodies.{refused_body};
ghost use Rattle.pf_journal.specs.Evaluations.{evaluated_text, evaluation_text};
ghost use Rattle.pf_model.specs.ErrorTexts.{grid_text};
ghost use Rattle.pf_model.specs.Log.{AreApart, batch_samples};
ghost use Rattle.pf_report.specs.Bodies.{code_in, text_of_body};
ghost use Rattle.pf_store.specs.Standing.{StandsFor};
ghost use Rattle.pf_top.specs.Commands.{IsEvaluationText, IsText};
ghost use Rattle.pf_top.specs.WordSteps.{evaluation_in};
ghost use Rattle.pf_client.specs.Queries.{IsQueryRead};
ghost use Rattle.pf_match.specs.Tables.{AreTooBig};
ghost use Rattle.pf_types.specs.Errors.{words_of_error};

use crate::evaluate::evaluate;
use crate::words::Evaluation;
use pf_base::{Batch, Grid, GridError, OutOfMemory, Text};
use pf_client::{QueryRead, read_text};
use pf_report::{Body, push_evaluation};
use pf_store::{Pin, TenantLog};
use pf_types::{BoundQuery, QueryError, When, error_text, grid_text};
use std::alloc::Global;
use std::sync::Arc;

/// The samples of a batch, of which the first of each series and time is taken.
fn pinned(alloc: Global, batch: &Batch) -> Result<Pin, OutOfMemory>
    requires { are_timed batch.now.rows ≡ true }
    ensures { IfOk result (λ p. StandsFor p.snap (batch_samples batch.now.rows) × AreApart (batch_samples batch.now.rows)) }
{
    let mut log = TenantLog::open(alloc, 0)?;
    log.append(batch)?;
    let pin = log.pin()?;
    Ok(pin)
}

/// What is printed of a body.
fn printed(alloc: Global, body: &Body) -> Result<Vec<u8>, OutOfMemory>
    ensures { IfOk result (λ v. v.items ≡ evaluation_text (decimal (code_in body.now)) (text_of_body body.now)) }
{
    let mut text = Vec::new(alloc);
    push_evaluation(alloc, &mut text, body)?;
    Ok(text)
}

/// What is printed of a query over a grid.
fn evaluated(
    alloc: Global,
    batch: &Batch,
    query: &Arc<BoundQuery>,
    grid: Grid,
) -> Result<Vec<u8>, OutOfMemory>
    requires timed { are_timed batch.now.rows ≡ true }
    requires step { 0 < grid.step }
    ensures { IfOk result (λ v. v.items ≡ evaluated_text (batch_samples batch.now.rows) (Some (Ok (asked_over false grid (arc_value query.now))))) }
{
    let pin = pinned(alloc, batch)?;
    let asked = query.asked(alloc, When::Range(grid))?;
    let body = evaluate(alloc, &asked, &pin.snap)?;
    let text = printed(alloc, &body)?;
    Ok(text)
}

/// What is printed of a refusal.
#[tactic(auto, using(crate::proofs::Printed::code_400))]
fn refused(alloc: Global, message: Text) -> Result<Vec<u8>, OutOfMemory>
    ensures { IfOk result (λ v. v.items ≡ evaluation_text (codes "400") (refused_body message)) }
{
    let text = printed(alloc, &Body::Refused(message))?;
    Ok(text)
}

fn refused_query(alloc: Global, error: &QueryError) -> Result<Vec<u8>, OutOfMemory>
    ensures { IfOk result (λ v. v.items ≡ evaluation_text (codes "400") (refused_body (words_of_error error.now))) }
{
    let message = error_text(alloc, error)?;
    let text = refused(alloc, message)?;
    Ok(text)
}

fn refused_grid(alloc: Global, error: GridError) -> Result<Vec<u8>, OutOfMemory>
    ensures { IfOk result (λ v. v.items ≡ evaluation_text (codes "400") (refused_body (grid_text error))) }
{
    let message = grid_text(alloc, error)?;
    let text = refused(alloc, message)?;
    Ok(text)
}

/// What is printed over a grid.
fn text_over(
    alloc: Global,
    batch: &Batch,
    read: &QueryRead,
    grid: Grid,
) -> Result<Vec<u8>, OutOfMemory>
    requires timed { are_timed batch.now.rows ≡ true }
    requires step { 0 < grid.step }
    ensures { IfOk result (λ t. (refs : List (List ℕ)) (query : List ℕ) (start end step : ℕ) → AreTooBig refs → IsQueryRead refs query read.now → grid_of start end step ≡ Ok grid → IsText batch.now query start end step t.items) }
{
    match read {
        QueryRead::Lawful(query) => {
            let text = evaluated(alloc, batch, query, grid)?;
            Ok(text)
        }
        QueryRead::Refused(error) => {
            let text = refused_query(alloc, error)?;
            Ok(text)
        }
    }
}

/// What the evaluation of a query prints over the samples of a batch. Refused times come before a refused query.
#[tactic(auto, using(crate::proofs::RangeSteps::has_step))]
pub fn evaluation_of(
    alloc: Global,
    batch: &Batch,
    named: &Evaluation<'_>,
) -> Result<Vec<u8>, OutOfMemory>
    requires { are_timed batch.now.rows ≡ true }
    ensures { IfOk result (λ t. IsEvaluationText batch.now (evaluation_in named.now) t.items) }
{
    let read = read_text(alloc, named.query)?;
    match Grid::aligned(named.start, named.end, named.step) {
        Ok(grid) => text_over(alloc, batch, &read.query, grid),
        Err(error) => refused_grid(alloc, error),
    }
}
