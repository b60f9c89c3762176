//! The forms of rows: for each kind of call, what is given and what is found, as texts. Each crate of rows knows its own.

use crate::runs;
use cases_rows::output::Output;
use cases_rows::setting::Setting;
use cases_rows::{base, outside};

fn answer_bytes(out: &mut Output, form: &str, setting: &Setting, given: &[u8]) -> bool {
    base::answer_bytes(out, form, given)
        || cases_stores::answer_bytes(out, form, setting, given)
        || cases_reports::answer_bytes(out, form, setting, given)
}

fn answer_text(
    out: &mut Output,
    rt: HostRuntime,
    form: &str,
    setting: &Setting,
    given: &str,
) -> bool {
    base::answer(out, form, given)
        || outside::answer(out, rt, form, setting, given)
        || cases_stores::answer(out, form, setting, given)
        || cases_language::answer(out, form, setting, given)
        || cases_reports::answer(out, form, given)
        || runs::answer(out, rt, form, setting, given)
}

/// Writes what is found of a row of a form, or notes that there is no such form.
pub fn answer(out: &mut Output, rt: HostRuntime, form: &str, setting: &Setting, given: &[u8]) {
    if answer_bytes(out, form, setting, given) {
        return;
    }
    let text = out.utf8(given);
    if !answer_text(out, rt, form, setting, text) {
        out.refuse();
    }
}
