//! Rows of what is stored, and of what is read of it: lines, matchers, exposition files and logs, the functions of their windows,
//! and selections; and of what serves queries: the pieces of grids, and a map in the order of recent use.
#![tactic(auto)]

mod files;
mod logs;
mod matchers;
mod ranges;
mod selection;
mod serving;

use cases_rows::output::Output;
use cases_rows::setting::Setting;

/// Writes what is found of a row of bytes, and says whether its form is one of these.
pub fn answer_bytes(out: &mut Output, form: &str, setting: &Setting, given: &[u8]) -> bool {
    match form {
        // `TEXT => FIRST|REST`, the first line of a text and what follows it, or `none`.
        "line" => files::line(out, given),
        // `TEXT => ROWS`, the rows of an exposition file as `LABELS VALUE TIME`, or the line that is refused. The part `time`
        // gives the time of samples without one.
        "exposition" => files::exposition(out, setting, given),
        _ => return false,
    }
    true
}

/// Writes what is found of a row of text, and says whether its form is one of these.
pub fn answer(out: &mut Output, form: &str, setting: &Setting, given: &str) -> bool {
    match form {
        // `SELECTOR => true`, whether a selector accepts the label set of the part `labels`, or why it has no matchers.
        "accepts" => matchers::accepts(out, setting, given),
        // `rows`, `skipped`, `row NUMBER` and `fronts FROM TO` of the exposition file of the part `page`.
        "page" => files::page(out, setting, given),
        // `SELECTOR => IDS`, the series that a selector accepts in the snapshot that has the samples of the part `page`, or those
        // of several selectors with `;` between them.
        "selection" => selection::selection(out, setting, given),
        // What the calls of a log answered, which the parts `window`, `append`, `delete` and `pin` make in their order.
        "log" => logs::log(out, setting, given),
        // `FUNCTION FROM TO TIME:MICROS .. => MICROS`, the function of the samples in the window (FROM, TO], or nothing where it
        // has no value.
        "range function" => ranges::range_function(out, given),
        // `INTERVAL START END STEP => NUMBER FIRST LAST STEPS, ..`, or `INTERVAL TIME`: the pieces of a grid.
        "pieces" => serving::pieces_of(out, given),
        // `CAPACITY CALL, CALL, .. => ANSWERS | PAIRS`, calls `set KEY NUMBER` and `get KEY` of a map in the order of recent use,
        // what each `get` finds, and the pairs after them, the one used last first.
        "recent" => serving::recent(out, given),
        _ => return false,
    }
    true
}
