//! Rows of what is asked.

ghost use Rattle.std.specs.Prelude.{◌≡◌, ◌≤◌, true};
ghost use Rattle.pf_model.specs.Parsing.{most_bytes};
ghost use Rattle.pf_model.specs.Built.{is_evaluated};
ghost use Rattle.pf_model.specs.Trees.{height, size, tree_of};
ghost use Rattle.pf_print.specs.OwnTexts.{HasText};
ghost use Rattle.pf_types.specs.Asking.{IsWhen};

use crate::language::push_refusal;
use cases_rows::base::grid_of;
use cases_rows::output::{Output, cut};
use pf_asked::Asked;
use pf_base::Grid;
use pf_match::Patterns;
use pf_model::Expr;
use pf_resolve::{lowest, reach};
use pf_types::{BoundQuery, QueryError, When, bind, grid_text, read_asked, read_query};

/// Over a grid, as an instant where it has no step.
fn when_over(grid: Grid) -> When
    ensures { IsWhen result }
{
    if grid.step() == 0 {
        When::Instant(grid)
    } else {
        When::Range(grid)
    }
}

fn push_asked(out: &mut Output, asked: &Asked) {
    let kind = asked.kind;
    out.text(if asked.instant { "instant " } else { "range " });
    out.show(format_args!("{kind:?}"));
    out.text(" matchers ");
    out.show(asked.matchers.len());
    out.text(" patterns ");
    out.show(asked.patterns.len());
    out.text(" ");
    out.text(asked.text.as_str());
}

/// What a text asks.
fn read(out: &mut Output, when: When, query: &str)
    requires { IsWhen when }
{
    match &read_asked(out.alloc(), query, when) {
        Ok(asked) => push_asked(out, asked),
        Err(error) => push_refusal(out, error),
    }
}

fn push_over(out: &mut Output, query: &BoundQuery, when: When)
    requires { IsWhen when }
{
    match &query.asked(out.alloc(), when) {
        Ok(asked) => push_asked(out, asked),
        Err(_) => out.lose(),
    }
}

/// What a tree asks once it is bound.
fn push_tree(out: &mut Output, when: When, tree: Expr)
    requires when { IsWhen when }
    requires written { HasText (tree_of tree) }
    requires small { size (tree_of tree) ≤ most_bytes }
    requires low { height (tree_of tree) ≤ 64 }
    requires evaluated { is_evaluated (tree_of tree) ≡ true }
{
    let mut patterns = Patterns::new(out.alloc());
    match &bind(out.alloc(), &mut patterns, tree) {
        Ok(query) => push_over(out, query, when),
        Err(error) => push_refusal(out, &QueryError::from(*error)),
    }
}

fn bound(out: &mut Output, when: When, query: &str)
    requires { IsWhen when }
{
    match read_query(out.alloc(), query) {
        Ok(tree) => push_tree(out, when, tree),
        Err(error) => push_refusal(out, &error),
    }
}

fn push_time(out: &mut Output, time: Option<i64>) {
    match time {
        Some(time) => out.show(time),
        None => out.text("-"),
    }
}

/// The earliest and the latest time that a query may read at the first time of its grid.
fn push_times_read(out: &mut Output, asked: Asked) {
    let time = asked.grid.at(0) as i64;
    push_time(out, lowest(&asked.expr, time));
    out.text(" ");
    push_time(out, reach(&asked.expr, time));
}

fn times_read(out: &mut Output, when: When, query: &str)
    requires { IsWhen when }
{
    match read_asked(out.alloc(), query, when) {
        Ok(asked) => push_times_read(out, asked),
        Err(error) => push_refusal(out, &error),
    }
}

/// Answers `read GRID | QUERY` by what the text asks over a grid, `bound GRID | QUERY` by what its bound query asks, and
/// `reach GRID | QUERY` by the earliest and the latest time that it may read at the first time, or dashes where it reads nothing.
pub fn asking(out: &mut Output, given: &str) {
    let (verb, words) = cut(given);
    let Some((times, query)) = words.split_once(" | ") else {
        return out.refuse();
    };
    match grid_of(out, times) {
        Ok(grid) if verb == "read" => read(out, when_over(grid), query),
        Ok(grid) if verb == "bound" => bound(out, when_over(grid), query),
        Ok(grid) if verb == "reach" => times_read(out, when_over(grid), query),
        Ok(_) => out.refuse(),
        Err(error) => out.made(&grid_text(out.alloc(), error)),
    }
}
