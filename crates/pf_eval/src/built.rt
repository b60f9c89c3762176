//! The string and the resolution that a query names.

ghost use Rattle.std.specs.Prelude.{◌≡◌, false, MatchOption};
ghost use Rattle.pf_model.specs.Built.{is_string};
ghost use Rattle.pf_model.specs.Evaluation.{resolution_or_minute};
ghost use Rattle.pf_model.specs.Trees.{text, tree_of};

use pf_base::Text;
use pf_model::Expr;

/// The milliseconds between the times of a subquery that names no resolution.
const MINUTE: u64 = 60_000;

/// The resolution of a subquery, in milliseconds.
pub(crate) fn resolution_or_minute(resolution: Option<u64>) -> u64
    ensures { result ≡ resolution_or_minute resolution }
{
    resolution.unwrap_or(MINUTE)
}

/// The string that a query is, if it is one.
pub(crate) fn string_of(expr: &Expr) -> Option<&Text>
    ensures { MatchOption result (is_string (tree_of expr.now) ≡ false) (λ t. tree_of expr.now ≡ text t.now) }
{
    match expr {
        Expr::Text { text } => Some(text),
        Expr::Number { .. } => None,
        Expr::Unary { .. } => None,
        Expr::Binary { .. } => None,
        Expr::Call { .. } => None,
        Expr::Aggregate { .. } => None,
        Expr::Select { .. } => None,
        Expr::Subquery { .. } => None,
    }
}
