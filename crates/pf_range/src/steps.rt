//! `changes` and `resets`: how many samples differ from the one before, and how many are below it.

ghost use Rattle.std.specs.Prelude.{◌≡◌, ◌<◌, ◌≤◌, ℤ, int_lt, not, length, MatchOption};
ghost use Rattle.std.specs.Ordering.{int_eq};
ghost use Rattle.pf_model.specs.Micros.{units};
ghost use Rattle.pf_model.specs.RangeFunctions.{of_one, steps_with};
ghost use Rattle.pf_range.specs.Steps.{next_steps, steps_of};
ghost use Rattle.pf_range.specs.Windows.{IsFew};

use super::values::units;
use pf_base::Value;
use pf_block::Window;

/// How many samples of a window differ from the one before, and how many are below it.
#[derive(Clone, Copy)]
struct Steps {
    changes: u64,
    resets: u64,
}

fn with_step(steps: Steps, before: Value, after: Value) -> Steps
    requires changes { steps.changes < 2251799813685248 }
    requires resets { steps.resets < 2251799813685248 }
    ensures { result ≡ next_steps steps before after }
{
    let changed = before.micros() != after.micros();
    let fell = after.micros() < before.micros();
    Steps {
        changes: steps.changes + changed as u64,
        resets: steps.resets + fell as u64,
    }
}

/// The steps of a window. None of one without a sample.
fn steps_in(mut window: Window<'_>) -> Option<Steps>
    requires { IsFew window }
    ensures { MatchOption result (length window.entry < 1) (λ s. (s ≡ steps_of window.entry) × (1 ≤ length window.entry)) }
{
    let mut last = window.next()?;
    let mut steps = Steps {
        changes: 0,
        resets: 0,
    };
    for sample in window {
        steps = with_step(steps, last.value, sample.value);
        last = sample;
    }
    Some(steps)
}

pub(crate) fn changes(window: Window<'_>) -> Option<Value>
    requires { IsFew window }
    ensures { result ≡ of_one window.entry (units (steps_with (λ v w. not (int_eq v w)) window.entry)) }
{
    let steps = steps_in(window)?;
    Some(units(steps.changes))
}

pub(crate) fn resets(window: Window<'_>) -> Option<Value>
    requires { IsFew window }
    ensures { result ≡ of_one window.entry (units (steps_with (λ v w. int_lt w v) window.entry)) }
{
    let steps = steps_in(window)?;
    Some(units(steps.resets))
}
