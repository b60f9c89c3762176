//! Rows of the language of queries: tokens, canonical texts, kinds, refusals, patterns, grids, queries with their range put
//! in, and what is asked.
#![tactic(auto)]

mod asking;
mod grids;
mod language;
mod patterns;
mod resolution;

use cases_rows::output::Output;
use cases_rows::setting::Setting;

/// Writes what is found of a row, and says whether its form is one of these.
pub fn answer(out: &mut Output, form: &str, setting: &Setting, given: &str) -> bool {
    match form {
        "grid" => grids::grid(out, given),
        "pattern matches" => patterns::matches(out, setting, given),
        "pattern expand" => patterns::expand(out, setting, given),
        "asked" => asking::asking(out, given),
        "resolving" => resolution::resolving(out, given),
        _ => return language::answer(out, form, given),
    }
    true
}
