//! Queries read from texts, with their kinds.

ghost use Rattle.std.specs.Prelude.{◌≡◌, ◌≤◌, ℕ, true, IfErr, IfOk, List};
ghost use Rattle.pf_model.specs.Parsing.{most_bytes};
ghost use Rattle.pf_model.specs.Built.{is_evaluated};
ghost use Rattle.pf_model.specs.Queries.{IsQuery};
ghost use Rattle.pf_model.specs.Trees.{Tree, height, size, tree_of};
ghost use Rattle.pf_model.specs.Typing.{asked_fault, scalar_or_instant};
ghost use Rattle.pf_print.specs.OwnTexts.{HasText};
ghost use Rattle.pf_types.specs.Errors.{IsAnsweredWith, IsFaultFor, query_fault};
ghost use Rattle.pf_types.specs.Faults.{fault_in};
ghost use Rattle.pf_types.specs.Rules.{operand_fault};

use crate::bound::BindError;
use crate::error::TypeError;
use crate::kinds::check;
use pf_base::OutOfMemory;
use pf_model::{Expr, Kind};
use pf_parse::{ParseError, parse};
use std::alloc::Global;

/// Why a text is no query, or why a query is refused. `which` counts selectors and calls of `label_replace` together, in
/// preorder from 0.
#[derive(Clone, Copy, Debug)]
pub enum QueryError {
    /// The grammar refuses the text.
    Parse(ParseError),
    /// The kinds are wrong. A query whose value is neither a scalar nor an instant vector is `Wrong` at node 0.
    Typing(TypeError),
    /// A pattern of a selector or of `label_replace` is refused.
    Pattern { which: u32 },
    /// A selector accepts the empty text.
    Empty { which: u32 },
    OutOfMemory,
}

impl From<ParseError> for QueryError {
    ghost use Rattle.std.specs.Prelude.{◌≡◌};
    ghost use Rattle.pf_types.specs.Errors.{unparsed};

    ghost from_gives = { λ error query. query ≡ unparsed error };

    fn from(error: ParseError) -> QueryError {
        match error {
            ParseError::OutOfMemory => QueryError::OutOfMemory,
            _ => QueryError::Parse(error),
        }
    }
}

impl From<TypeError> for QueryError {
    ghost use Rattle.std.specs.Prelude.{◌≡◌};
    ghost use Rattle.pf_types.specs.declared.query.QueryError.TheVariants.{Typing};

    ghost from_gives = { λ error query. query ≡ Typing error };

    fn from(error: TypeError) -> QueryError {
        QueryError::Typing(error)
    }
}

impl From<BindError> for QueryError {
    ghost use Rattle.std.specs.Prelude.{◌≡◌};
    ghost use Rattle.pf_types.specs.Errors.{unbound};

    ghost from_gives = { λ error query. query ≡ unbound error };

    fn from(error: BindError) -> QueryError {
        match error {
            BindError::Pattern { which } => QueryError::Pattern { which },
            BindError::Empty { which } => QueryError::Empty { which },
            BindError::OutOfMemory => QueryError::OutOfMemory,
        }
    }
}

impl From<OutOfMemory> for QueryError {
    ghost use Rattle.std.specs.Prelude.{◌≡◌};
    ghost use Rattle.pf_types.specs.declared.query.QueryError.{QueryError};

    ghost from_gives = { λ _ query. query ≡ QueryError.OutOfMemory };

    fn from(_error: OutOfMemory) -> QueryError {
        QueryError::OutOfMemory
    }
}

/// What is asked is a scalar or an instant vector.
fn asked_kind(kind: Kind) -> Result<(), TypeError>
    ensures { fault_in result ≡ operand_fault 0 scalar_or_instant kind }
{
    match kind {
        Kind::Scalar | Kind::Instant => Ok(()),
        Kind::Range | Kind::Text => Err(TypeError::Wrong {
            at: 0,
            wanted: Kind::Instant,
            found: kind,
        }),
    }
}

#[tactic(auto, using(crate::proofs::Asked::refused_kinds, crate::proofs::Asked::lawful_kinds))]
fn asked(expr: &Expr) -> Result<(), TypeError>
    requires { size (tree_of expr.now) ≤ 4294967296 }
    ensures { fault_in result ≡ asked_fault (tree_of expr.now) }
{
    let kind = check(expr)?;
    asked_kind(kind)
}

/// The tree of a query's text, where its kinds are lawful and its value is a scalar or an instant vector. Prometheus, Querying
/// basics: Expression language data types. Else the first error: the grammar's refusal; then the fault of the first node,
/// children before their node, that breaks a rule; then `Wrong` at node 0 for a range vector or a string. It recurses as deep
/// as the tree is high, at most 64 levels. The evaluator does every query that is lawful.
#[tactic(auto, using(crate::proofs::LawfulQueries::query_is_evaluated))]
pub fn read_query(alloc: Global, text: &str) -> Result<Expr, QueryError>
    ensures query { IfOk result (λ e. IsQuery text.now (tree_of e)) }
    ensures written { IfOk result (λ e. HasText (tree_of e)) }
    ensures small { IfOk result (λ e. size (tree_of e) ≤ most_bytes) }
    ensures low { IfOk result (λ e. height (tree_of e) ≤ 64) }
    ensures evaluated { IfOk result (λ e. is_evaluated (tree_of e) ≡ true) }
    ensures refused { IfErr result (λ e. (refused : List (List ℕ)) → IsFaultFor refused text.now (query_fault e)) }
    ensures exact { (t : Tree) → IsQuery text.now t → IsAnsweredWith t result }
{
    let expr = parse(alloc, text)?;
    asked(&expr)?;
    Ok(expr)
}
