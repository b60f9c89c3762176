//! What selectors read of a snapshot over a run of steps, as columns: a label set with its value at each step.
//!
//! What the layers above use:
//!
//! - `selected` is an instant selector: for each series its last sample in the look-back of each time.
//! - `read_values` is the same of one series, for a caller that reads series one by one; `Times::span` gives it the `Span` of all
//!   times.
//! - `ranged` is a function of a range selector: for each series its value over the window before each time.
//! - `sample_times` is the function `timestamp` of an instant selector: the times of the samples that are read.
//! - `over_moments` is a function of a subquery, from what its inner expression is at the times that `multiples_over` gives.
//! - `series_groups` are the groups of series by their keys.
//! - `Times` are the times of a run, at equal distances or of a list. They are those that are read at: `@` and the offset are
//!   put in before, so that a constant `@` has step 0.
//!
//! Series are named by their ids in the snapshot. Each one's samples in the run's range are read once, and walked as the
//! times move on. Where one block of the snapshot has them all they are lent, and not copied.
#![tactic(auto)]

mod cursor;
mod grouping;
mod instant;
mod moments;
mod multiples;
mod times;
mod windows;

pub use grouping::series_groups;
pub use instant::{read_values, sample_times, selected};
pub use moments::over_moments;
pub use multiples::multiples_over;
pub use times::{Span, Times};
pub use windows::ranged;
