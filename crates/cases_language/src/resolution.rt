//! Rows of queries with their range put in, and of shardable ones.

use cases_rows::output::{Output, cut};
use pf_model::Expr;
use pf_parse::parse;
use pf_print::print;
use pf_resolve::{resolve, shardable};

fn put_in(out: &mut Output, tree: Expr, start: u64, end: u64) {
    let tree = resolve(tree, start, end);
    out.made(&print(out.alloc(), &tree));
}

/// `START END QUERY`.
fn resolved(out: &mut Output, words: &str) {
    let (start, rest) = cut(words);
    let (end, query) = cut(rest);
    let start = out.number(start);
    let end = out.number(end);
    let parsed = parse(out.alloc(), query);
    if let Some(tree) = out.or_refuse(parsed) {
        put_in(out, tree, start, end);
    }
}

fn is_shardable(out: &mut Output, query: &str) {
    let parsed = parse(out.alloc(), query);
    if let Some(tree) = &out.or_refuse(parsed) {
        out.show(shardable(tree));
    }
}

/// Answers `resolve START END QUERY` by the canonical text, and `shardable QUERY`.
pub fn resolving(out: &mut Output, given: &str) {
    let (verb, words) = cut(given);
    match verb {
        "resolve" => resolved(out, words),
        "shardable" => is_shardable(out, words),
        _ => out.refuse(),
    }
}
