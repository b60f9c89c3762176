//! Rows of what serves queries: the pieces of their grids, and a map in the order of recent use.

ghost use Rattle.std.specs.Prelude.{◌≤◌};

use cases_rows::output::{Output, cut};
use pf_base::Grid;
use pf_cache::Bounded;
use pf_split::{Piece, pieces};

/// The grid of a start and of an end and a step, or of a single time; or a note that there is none.
fn grid_in(out: &mut Output, start: u64, rest: &str) -> Option<Grid> {
    if rest.is_empty() {
        return match Grid::single(start) {
            Ok(grid) => Some(grid),
            Err(_) => {
                out.refuse();
                None
            }
        };
    }
    let (end, step) = cut(rest);
    match Grid::aligned(start, out.number(end), out.number(step)) {
        Ok(grid) => Some(grid),
        Err(_) => {
            out.refuse();
            None
        }
    }
}

fn push_piece(out: &mut Output, piece: Piece) {
    if !out.is_empty() {
        out.text(", ");
    }
    let run = piece.run;
    out.show(piece.interval);
    out.text(" ");
    out.show(run.at(0));
    out.text(" ");
    out.show(run.at(run.len() - 1));
    out.text(" ");
    out.show(run.len());
}

fn push_pieces(out: &mut Output, grid: &Grid, interval: u64)
    requires { 1000 ≤ interval }
{
    for piece in pieces(grid, interval) {
        push_piece(out, piece);
    }
}

/// The pieces of a grid, each as its interval, its first and last times, and the number of its times.
pub fn pieces_of(out: &mut Output, given: &str) {
    let (interval, rest) = cut(given);
    let interval: u64 = out.number(interval);
    let (start, rest) = cut(rest);
    let start = out.number(start);
    match &grid_in(out, start, rest) {
        Some(grid) if interval >= 1000 => push_pieces(out, grid, interval),
        _ => out.refuse(),
    }
}

/// Appends an answer behind those before it.
fn push_answer(out: &mut Output, found: Option<u32>) {
    if !out.is_empty() {
        out.text(" ");
    }
    match found {
        Some(number) => out.show(number),
        None => out.text("none"),
    }
}

/// Makes one call of a map, `set KEY NUMBER` or `get KEY`.
fn use_map(out: &mut Output, map: &mut Bounded<u32, u32>, call: &str) {
    let (verb, rest) = cut(call);
    let (key, number) = cut(rest);
    let key: u32 = out.number(key);
    match verb {
        "get" => {
            let found = map.list(&key).copied();
            push_answer(out, found);
        }
        "set" => {
            let number = out.number(number);
            let set = map.set(key, number);
            let _ = out.or_lose(set);
        }
        _ => out.refuse(),
    }
}

fn push_pairs(out: &mut Output, map: &Bounded<u32, u32>) {
    out.text(if out.is_empty() { "|" } else { " |" });
    for (key, number) in map.pairs() {
        out.text(" ");
        out.show(*key);
        out.text(":");
        out.show(*number);
    }
}

/// What the calls of a map of a capacity answer, and its pairs after them.
pub fn recent(out: &mut Output, given: &str) {
    let (capacity, calls) = cut(given);
    let capacity: u32 = out.number(capacity);
    if capacity == 0 {
        return out.refuse();
    }
    let opened = Bounded::open(out.alloc(), capacity);
    if let Some(mut map) = out.or_lose(opened) {
        for call in calls.split(", ") {
            use_map(out, &mut map, call);
        }
        push_pairs(out, &map);
    }
}
