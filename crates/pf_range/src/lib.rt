//! Functions of range vectors: what each gives of the samples of one series in a window.
//!
//! What the layers above use: `range_value` is the value of any of them, by the table of the definitions. It walks the
//! window once, keeps a few numbers of it and takes no memory. What asks of its ends alone looks at these, where the samples
//! lie together.
#![tactic(auto)]

ghost use Rattle.std.specs.Prelude.{◌≡◌, true};
ghost use Rattle.std.specs.List.{list_all};
ghost use Rattle.pf_block.specs.Samples.{is_within};
ghost use Rattle.pf_model.specs.RangeFunctions.{range_function};
ghost use Rattle.pf_range.specs.Windows.{IsTime};

mod ends;
mod extrapolation;
mod last_steps;
mod quotient;
mod steps;
mod values;

use pf_base::Value;
use pf_block::Window;
use pf_model::RangeFn;

/// The value of a function of the samples of one series in the window (`from`, `to`], whose ends are in milliseconds.
/// `AbsentOverTime` is asked of all series' samples at once. Prometheus, Query functions; the quotients in whole micros,
/// cut toward zero, are this project's own.
#[tactic(auto, using(crate::proofs::Windows::few))]
pub fn range_value(f: RangeFn, window: Window<'_>, from: i64, to: i64) -> Option<Value>
    requires within { list_all (is_within from to) window ≡ true }
    requires from { IsTime from }
    requires to { IsTime to }
    ensures { result ≡ range_function f window.entry from to }
{
    match f {
        RangeFn::Increase => extrapolation::increase(window, from, to),
        RangeFn::Rate => extrapolation::rate(window, from, to),
        RangeFn::Delta => extrapolation::delta(window, from, to),
        RangeFn::Irate => last_steps::irate(window, from, to),
        RangeFn::Idelta => last_steps::idelta(window),
        RangeFn::Changes => steps::changes(window),
        RangeFn::Resets => steps::resets(window),
        RangeFn::AvgOverTime => values::mean(window),
        RangeFn::SumOverTime => values::total(window),
        RangeFn::MinOverTime => values::least(window),
        RangeFn::MaxOverTime => values::greatest(window),
        RangeFn::CountOverTime => values::count(window),
        RangeFn::LastOverTime => values::last(window),
        RangeFn::PresentOverTime => values::present(window),
        RangeFn::AbsentOverTime => values::absent(window),
    }
}
