//! The results cache: evaluated steps that no later sample changes, kept for the next who asks.
//!
//! What the layers above use: `Results` has a list of extents under each of a bounded number of keys. `find_all` finds which steps
//! of a query can be used, piece by piece of its grid, and the runs of the others, and changes nothing; `touch_all` then notes the
//! use; `keep_all` keeps the frozen steps of pieces that were evaluated. What is kept stays true while the tenants' logs grow
//! (`stay_true`).
#![tactic(auto)]

mod fixed;
mod frozen;
mod law;
mod results;
mod runs;
mod serving;

pub use law::stay_true;
pub use results::Results;
pub use serving::Found;
