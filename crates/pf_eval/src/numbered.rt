//! Nodes of a query by their numbers in preorder.

ghost use Rattle.std.specs.Prelude.{◌≡◌, ◌<◌, Some, length, map};
ghost use Rattle.pf_model.specs.Lists.{at};
ghost use Rattle.pf_model.specs.Trees.{all_preorder, preorder, tree_of, trees_of};
ghost use Rattle.pf_eval.specs.Plain.{IsSoughtIn};

use pf_model::Expr;

/// A node by its number, or how many nodes behind all these it stands.
#[derive(Clone, Copy)]
enum Search<'a> {
    Found(&'a Expr),
    Behind(u32),
}

/// The node of a number in some queries, the first of which has the number 0.
#[cycle(sought)]
fn sought_among<'a>(args: &'a [Expr], number: u32) -> Search<'a>
    ensures { IsSoughtIn (all_preorder (trees_of (map tree_of args.now))) number result }
{
    let mut further = number;
    for arg in args {
        match sought(arg, further) {
            Search::Found(node) => return Search::Found(node),
            Search::Behind(left) => further = left,
        }
    }
    Search::Behind(further)
}

/// The node of a number in a query, which has the number 0.
#[cycle(sought)]
fn sought<'a>(query: &'a Expr, number: u32) -> Search<'a>
    ensures { IsSoughtIn (preorder (tree_of query.now)) number result }
{
    if number == 0 {
        return Search::Found(query);
    }
    let further = number - 1;
    match query {
        Expr::Number { .. } => Search::Behind(further),
        Expr::Text { .. } => Search::Behind(further),
        Expr::Unary { arg, .. } => sought(arg, further),
        Expr::Binary { left, right, .. } => match sought(left, further) {
            Search::Found(node) => Search::Found(node),
            Search::Behind(further) => sought(right, further),
        },
        Expr::Call { args, .. } => sought_among(args, further),
        Expr::Aggregate { args, .. } => sought_among(args, further),
        Expr::Select { .. } => Search::Behind(further),
        Expr::Subquery { arg, .. } => sought(arg, further),
    }
}

/// The node of a number. It is found in as many steps as it has nodes before it.
pub(crate) fn numbered(query: &Expr, number: u32) -> &Expr
    requires { number < length (preorder (tree_of query.now)) }
    ensures { at (preorder (tree_of query.now)) number ≡ Some (tree_of result.now) }
{
    match sought(query, number) {
        Search::Found(node) => node,
        Search::Behind(_) => unreachable!(),
    }
}
