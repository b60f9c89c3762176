//! A query over a grid.

use pf_base::{Grid, Text};
use pf_match::Pattern;
use pf_model::{Expr, Kind, Matchers};
use std::marker::Model;
use std::sync::Arc;

/// A query over a grid, which the evaluator does: its tree, without `start()`, `end()` and absent resolutions, of at most 64
/// levels and of a kind that is scalar or instant, and its canonical text; the matchers of its selectors and the patterns of its
/// calls of `label_replace`, each in preorder; and whether it is asked at one time alone, where the grid has no step. Prometheus,
/// HTTP API: Instant queries, Range queries.
#[derive(Drop)]
pub struct Asked {
    pub expr: Arc<Expr>,
    pub text: Text,
    pub matchers: Arc<Vec<Matchers>>,
    pub patterns: Arc<Vec<Pattern>>,
    pub grid: Grid,
    pub instant: bool,
    pub kind: Kind,
}

impl Model for Asked {
    ghost use Rattle.std.specs.Arc.{arc_value};
    ghost use Rattle.pf_journal.specs.Asking as asking;
    ghost use Rattle.pf_model.specs.Trees.{tree_of};
    ghost use Rattle.pf_asked.specs.Codes.{asked_code};
    ghost use Rattle.pf_asked.specs.Lawful.{IsAsked};

    ghost Value = { asking.Asked };

    ghost coded = { asked_code };

    ghost view = { λ a. record { query = record { tree = tree_of (arc_value a.expr); grid = a.grid }; kind = a.kind; instant = a.instant; text = a.text } };

    ghost invariant = { λ a. IsAsked (record { query = record { tree = tree_of (arc_value a.expr); grid = a.grid }; kind = a.kind; instant = a.instant; text = a.text }) (arc_value a.matchers).items (arc_value a.patterns).items };
}
