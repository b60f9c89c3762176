//! Rows of selections.

use crate::files::batch_of;
use crate::logs::append;
use crate::matchers::matchers_of;
use cases_rows::output::Output;
use cases_rows::setting::Setting;
use pf_base::MAXT;
use pf_block::Snap;
use pf_index::{select, select_all};
use pf_store::{Pin, TenantLog};

/// A pin of a log that has the page's samples.
fn pin_of(out: &mut Output, setting: &Setting) -> Option<Pin> {
    let batch = batch_of(out, setting, setting.text("page"))?;
    let mut log = out.or_lose(TenantLog::open(out.alloc(), MAXT))?;
    append(out, &mut log, &batch);
    out.or_lose(log.pin())
}

fn select_one(out: &mut Output, snap: &Snap, selector: &str) {
    if let Some(matchers) = &matchers_of(out, selector) {
        let ids = select(out.alloc(), snap, matchers);
        if let Some(ids) = out.or_lose(ids) {
            out.show(format_args!("{ids:?}"));
        }
    }
}

fn select_each(out: &mut Output, snap: &Snap, selectors: &str) {
    let mut all = Vec::new(out.alloc());
    for selector in selectors.split(';') {
        if let Some(matchers) = matchers_of(out, selector) {
            out.push(&mut all, matchers);
        }
    }
    let lists = select_all(out.alloc(), snap, &all);
    if let Some(lists) = out.or_lose(lists) {
        out.show(format_args!("{lists:?}"));
    }
}

/// The ids of the series that a selector accepts, or of several with `;` between them.
pub fn selection(out: &mut Output, setting: &Setting, given: &str) {
    if let Some(pin) = &pin_of(out, setting) {
        if given.contains(';') {
            select_each(out, &pin.snap, given);
        } else {
            select_one(out, &pin.snap, given);
        }
    }
}
