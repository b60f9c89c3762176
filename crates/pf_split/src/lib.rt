//! The steps of a range query, cut where an interval of fixed length ends, so that what was evaluated of an interval can be kept
//! and used again.
//!
//! What the layer above uses: `pieces` goes over the intervals that have a step, in rising order. Each piece has the number of
//! its interval and the run of the steps in it, so that the runs, one after another, are the grid. No memory is taken,
//! and a piece takes constant time, however many steps it has. A query by its days goes so:
//!
//! ```text
//! for piece in pieces(&grid, 86_400_000) {
//!     // piece.run.at(0) / 86_400_000 == piece.interval
//!     plan(piece.interval, &piece.run);
//! }
//! ```
#![tactic(auto)]

mod splitting;

pub use splitting::{Piece, PieceIter, pieces};
