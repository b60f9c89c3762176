//! Functions of instant vectors, scalars and texts, and binary operators at one value: what evaluators make of elements.
//!
//! What the layers above use:
//!
//! - `instant` is the value of a call from its vector and from what stands beside it, as one cell. Evaluators that keep
//!   columns take its parts instead, once a column: `Change` is what a function of each element by itself does to a value,
//!   and `Relabelling` what `label_replace` and `label_join` do to a label set. Their contracts say that the function of a
//!   vector is this change of each element; the evaluator drops the metric name and puts the elements in label order.
//! - `absent_labels` are the labels that `absent` gives of a selector: once a query.
//! - `operated` is the value of a binary operator at two operands, and `of_scalars` of two scalars. `result_labels` are the
//!   labels that an operator's result has.
//!
//! ```
//! let Some(change) = Change::of(InstantFn::Clamp, &[Some(low), Some(high)], time) else { .. };
//! for value in column {
//!     found.push(change.value(value))?;
//! }
//! ```
#![tactic(auto)]

mod absent;
mod args;
mod cells;
mod functions;
mod operators;
mod relabelling;
mod values;

pub use absent::absent_labels;
pub use args::Args;
pub use functions::instant;
pub use operators::{drops_name, of_scalars, operated, result_labels};
pub use relabelling::{LabelJoin, LabelReplacement, Relabelling, relabelled};
pub use values::{Change, negated, value_of};
