//! Rows of the functions of range vectors.

ghost use Rattle.std.specs.Prelude.{◌≡◌, true};
ghost use Rattle.std.specs.List.{list_all};
ghost use Rattle.pf_block.specs.Samples.{is_within, rises, rises_after};
ghost use Rattle.pf_range.specs.Windows.{IsTime};

use cases_rows::base::sample_of;
use cases_rows::output::{Output, cut};
use pf_base::Sample;
use pf_block::Window;
use pf_model::RangeFn;
use pf_range::range_value;

/// The function of a name.
fn function_of(name: &str) -> Option<RangeFn> {
    let function = match name {
        "increase" => RangeFn::Increase,
        "rate" => RangeFn::Rate,
        "delta" => RangeFn::Delta,
        "irate" => RangeFn::Irate,
        "idelta" => RangeFn::Idelta,
        "changes" => RangeFn::Changes,
        "resets" => RangeFn::Resets,
        "avg_over_time" => RangeFn::AvgOverTime,
        "sum_over_time" => RangeFn::SumOverTime,
        "min_over_time" => RangeFn::MinOverTime,
        "max_over_time" => RangeFn::MaxOverTime,
        "count_over_time" => RangeFn::CountOverTime,
        "last_over_time" => RangeFn::LastOverTime,
        "present_over_time" => RangeFn::PresentOverTime,
        "absent_over_time" => RangeFn::AbsentOverTime,
        _ => return None,
    };
    Some(function)
}

fn samples_of(out: &mut Output, list: &str) -> Vec<Sample> {
    let mut samples = Vec::new(out.alloc());
    if list.is_empty() {
        return samples;
    }
    for text in list.split(' ') {
        let sample = sample_of(out, text);
        out.push(&mut samples, sample);
    }
    samples
}

/// Whether the times of samples rise, from after one on.
fn rises_after(time: i64, samples: &[Sample]) -> bool
    ensures { result ≡ rises_after time samples.now }
{
    match samples.split_first() {
        Some((first, rest)) => time < first.time && rises_after(first.time, rest),
        None => true,
    }
}

fn rises(samples: &[Sample]) -> bool
    ensures { result ≡ rises samples.now }
{
    match samples.split_first() {
        Some((first, rest)) => rises_after(first.time, rest),
        None => true,
    }
}

fn are_within(samples: &[Sample], from: i64, to: i64) -> bool
    ensures { result ≡ list_all (is_within from to) samples.now }
{
    samples
        .iter()
        .all(|sample| from < sample.time && sample.time <= to)
}

/// Whether a window may end at a time.
fn is_time(time: i64) -> bool
    ensures { result ≡ true → IsTime time }
{
    -1_125_899_906_842_624 <= time && time <= 1_125_899_906_842_624
}

/// Appends the value of a function over a window.
fn push_value(out: &mut Output, function: RangeFn, samples: &[Sample], from: i64, to: i64) {
    if !is_time(from) || !is_time(to) || !rises(samples) || !are_within(samples, from, to) {
        return out.refuse();
    }
    if let Some(value) = range_value(function, Window::of(samples), from, to) {
        out.show(value.micros());
    }
}

/// Appends the value of `FUNCTION FROM TO SAMPLES`.
pub fn range_function(out: &mut Output, given: &str) {
    let (name, rest) = cut(given);
    let (from, rest) = cut(rest);
    let (to, list) = cut(rest);
    let from = out.number(from);
    let to = out.number(to);
    let samples = samples_of(out, list);
    match function_of(name) {
        Some(function) => push_value(out, function, &samples, from, to),
        None => out.refuse(),
    }
}
