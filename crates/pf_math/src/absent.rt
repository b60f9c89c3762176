//! The labels that `absent` gives.

ghost use Rattle.std.specs.Prelude.{◌≡◌, ◌&&◌, not, true, count_by, IfOk};
ghost use Rattle.std.specs.List.{list_all};
ghost use Rattle.std.specs.Str.{bytes_eq};
ghost use Rattle.pf_base.specs.LabelSets.{is_label_name};
ghost use Rattle.pf_model.specs.InstantFunctions.{absent_labels, is_absent_label, is_equal_sign};

use crate::cells::no_labels;
use pf_base::{Labels, OutOfMemory};
use pf_model::{MatchSign, Matcher, Selector};
use std::alloc::Global;

/// The label that holds the metric name.
const METRIC_NAME: &str = "__name__";

fn is_equal_sign(sign: MatchSign) -> bool
    ensures { result ≡ is_equal_sign sign }
{
    matches!(sign, MatchSign::Equal)
}

/// The number of matchers that name a label.
fn count_of(matchers: &[Matcher], label: &str) -> usize
    ensures { result ≡ count_by (λ n. bytes_eq n.label label.now) matchers.now }
{
    matchers
        .iter()
        .filter(|m| m.label.as_str() == label)
        .count()
}

/// Whether a matcher gives its label: one that no other names, with `=`, and not the metric name.
fn is_absent_label(matchers: &[Matcher], matcher: &Matcher) -> bool
    ensures { result ≡ is_absent_label matchers.now matcher.now }
{
    is_equal_sign(matcher.sign)
        && count_of(matchers, matcher.label.as_str()) == 1
        && matcher.label.as_str() != METRIC_NAME
}

fn labels_of(alloc: Global, matchers: &[Matcher]) -> Result<Labels, OutOfMemory>
    requires { list_all (λ m. is_label_name m.label) matchers.now ≡ true }
    ensures { IfOk result (λ l. l ≡ absent_labels matchers.now) }
{
    let mut labels = no_labels(alloc)?;
    for i in (0..matchers.len()).rev() {
        let matcher = &matchers[i];
        if is_absent_label(matchers, matcher) {
            labels = labels.with(matcher.label.as_str(), matcher.text.as_str())?;
        }
    }
    Ok(labels)
}

/// The labels that `absent` gives of an instant selector, and `absent_over_time` of a range selector: of each label that
/// exactly one matcher names, with `=`, its value, but for the metric name. An empty value is no label. Prometheus, Query
/// functions.
pub fn absent_labels(alloc: Global, selector: &Selector) -> Result<Labels, OutOfMemory>
    requires { list_all (λ m. is_label_name m.label) selector.now ≡ true }
    ensures { IfOk result (λ l. l ≡ absent_labels selector.now) }
{
    labels_of(alloc, &selector.matchers)
}
