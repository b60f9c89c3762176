//! Files of Prometheus's text exposition format.
//!
//! What the layers above use: `read_exposition` reads a whole file into a batch of rows, or names the first line that is
//! not to be taken. Its contract is the grammar of the format, line by line.
//!
//! The code reads the label set of a series once a file: a table has it by the bytes of the series, and the rows share it.
#![tactic(auto)]

mod exposition;
mod fault;
mod labels;
mod line;
mod series;
mod spans;

pub use exposition::read_exposition;
pub use fault::ExpoError;
