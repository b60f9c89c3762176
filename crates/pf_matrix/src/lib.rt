//! Matrices: the values of a query over its grid, by series.
//!
//! What the layers above use: a `Matrix` is a list of rows, each a label set with its points by time.
#![tactic(auto)]

mod matrix;

pub use matrix::{Matrix, MatrixRow};
