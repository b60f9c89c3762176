//! What is handed out of a planned query.

use pf_base::Grid;
use pf_extent::DoneCells;
use pf_shard::{Legs, Part};
use std::sync::Arc;

/// The legs of a query, its runs, the parts run by run and leg by leg, and the cells of the other steps, which were cached. The
/// runs of both kinds are each by rising time.
#[derive(Drop)]
pub struct Gathered {
    pub legs: Arc<Legs>,
    pub runs: Vec<Grid>,
    pub parts: Vec<Part>,
    pub cached: Vec<DoneCells>,
}
