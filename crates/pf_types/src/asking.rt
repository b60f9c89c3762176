//! What is asked: queries over grids.

ghost use Rattle.std.specs.Prelude.{◌≡◌, ℕ, IfOk, List, true};
ghost use Rattle.std.specs.Arc.{arc_value};
ghost use Rattle.pf_journal.specs.Asking.{asked_over};
ghost use Rattle.pf_match.specs.Tables.{Agrees, AreTooBig};
ghost use Rattle.pf_model.specs.Built.{is_evaluated};
ghost use Rattle.pf_model.specs.Canonical.{canonical};
ghost use Rattle.pf_model.specs.Resolving.{resolved_over};
ghost use Rattle.pf_model.specs.Trees.{tree_of};
ghost use Rattle.pf_types.specs.Asking.{IsAskedAs, IsPutIn, IsWhen, grid_in, is_instant};

use crate::bound::{BoundQuery, bind};
use crate::query::{QueryError, read_query};
use pf_asked::Asked;
use pf_base::{Grid, OutOfMemory};
use pf_match::{Pattern, Patterns};
use pf_model::{Expr, Kind, Matchers};
use pf_print::{keep_texts, print};
use pf_resolve::{resolve, resolved_over};
use std::alloc::Global;
use std::sync::Arc;

/// When a query is asked: over a range, whose grid has a step, or at an instant, whose grid has none.
#[derive(Clone, Copy)]
pub enum When {
    Range(Grid),
    Instant(Grid),
}

fn grid_in(when: &When) -> Grid
    ensures { result ≡ grid_in when.now }
{
    match when {
        When::Range(grid) | When::Instant(grid) => *grid,
    }
}

fn is_instant(when: &When) -> bool
    ensures { result ≡ is_instant when.now }
{
    match when {
        When::Range(_) => false,
        When::Instant(_) => true,
    }
}

/// A query with the range of a grid put in. It takes no memory.
fn put_in(expr: Expr, grid: &Grid) -> Expr
    ensures tree { tree_of result ≡ resolved_over grid.now (tree_of expr) }
    ensures evaluated { is_evaluated (tree_of result) ≡ is_evaluated (tree_of expr) }
{
    let last = grid.at(grid.len() - 1);
    resolve(expr, grid.start(), last)
}

/// What is asked by a query with its range put in.
fn asked_with(
    alloc: Global,
    expr: Expr,
    matchers: Arc<Vec<Matchers>>,
    patterns: Arc<Vec<Pattern>>,
    kind: Kind,
    when: &When,
) -> Result<Asked, OutOfMemory>
    requires lawful { IsPutIn (tree_of expr) (arc_value matchers).items (arc_value patterns).items kind }
    requires when { IsWhen when.now }
    ensures { IfOk result (λ a. a ≡ record { query = record { tree = tree_of expr; grid = grid_in when.now }; kind = kind; instant = is_instant when.now; text = canonical (tree_of expr) }) }
{
    let text = print(alloc, &expr)?;
    let grid = grid_in(when);
    let instant = is_instant(when);
    let expr = Arc::new(alloc, expr)?;
    Ok(Asked {
        expr,
        text,
        matchers,
        patterns,
        grid,
        instant,
        kind,
    })
}

impl BoundQuery {
    /// This query over a grid, whose first and last time stand for `start()` and `end()`. It copies the tree, and shares the
    /// matchers and the patterns. It calls itself as deep as the tree is high.
    pub fn asked(&self, alloc: Global, when: When) -> Result<Asked, OutOfMemory>
        requires { IsWhen when }
        ensures { IfOk result (λ a. a ≡ asked_over (is_instant when) (grid_in when) self.now) }
    {
        keep_texts();
        let grid = grid_in(&when);
        let expr = resolved_over(&self.expr, &grid)?;
        let matchers = Arc::try_clone(&self.matchers)?;
        let patterns = Arc::try_clone(&self.patterns)?;
        asked_with(alloc, expr, matchers, patterns, self.kind, &when)
    }
}

/// What a text asks over a grid, whose first and last time stand for `start()` and `end()`, where the patterns that were read
/// before keep their fates.
fn read_asked_with(
    alloc: Global,
    patterns: &mut Patterns,
    text: &str,
    when: When,
) -> Result<Asked, QueryError>
    requires { IsWhen when }
    ensures { (refused : List (List ℕ)) → Agrees patterns.new refused → IsAskedAs refused text.now (is_instant when) (grid_in when) result }
{
    keep_texts();
    let expr = read_query(alloc, text)?;
    let BoundQuery {
        expr,
        matchers,
        patterns,
        kind,
    } = bind(alloc, patterns, expr)?;
    let expr = put_in(expr, &grid_in(&when));
    let asked = asked_with(alloc, expr, matchers, patterns, kind, &when)?;
    Ok(asked)
}

/// What a text asks over a grid, whose first and last time stand for `start()` and `end()`. Prometheus, HTTP API: Instant
/// queries, Range queries. Else the first error: that of `read_query`; then the first in preorder of a refused pattern and a
/// selector that accepts the empty text, and of both at one node the pattern.
pub fn read_asked(alloc: Global, text: &str, when: When) -> Result<Asked, QueryError>
    requires { IsWhen when }
    ensures { (refused : List (List ℕ)) × (AreTooBig refused × IsAskedAs refused text.now (is_instant when) (grid_in when) result) }
{
    let mut patterns = Patterns::new(alloc);
    let asked = read_asked_with(alloc, &mut patterns, text, when);
    // What it says is all that is needed of it.
    patterns.refused();
    asked
}
