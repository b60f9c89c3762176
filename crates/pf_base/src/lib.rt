//! The values, label sets, grids, tenants' names and texts that every other crate of the query frontend speaks of.
//!
//! What the layers above use: each value is seen by contracts as plain data (a whole number of micros, a list of bytes, a
//! list of pairs of bytes, a grid's three numbers), and each call's contract gives its result by a definition over that
//! data. So equality, order and hash are those of the data, and sorts and maps above can rest on them.
//!
//! A label set lies as one text of all its names and values in the order of the names, beside the places where each ends
//! and the hash of them all: building one takes three allocations, copying one raises a count of references, and
//! comparing two for equality reads their hashes, and their bytes where those are equal. For example,
//! `Labels::build(alloc, pairs)?` sorts the pairs, drops those with an empty value, and refuses a bad name, a name that
//! stands twice, and more than 64 pairs, in this order.
#![tactic(auto)]

mod duration;
mod grid;
mod labels;
mod memory;
mod number;
mod number_text;
mod plain;
mod tenant;
mod text;
mod value;

pub use duration::{DurationError, read_duration};
pub use grid::{Grid, GridError, MAXT};
pub use labels::{Labels, LabelsError, is_label_name, shard_of_hash};
pub use memory::OutOfMemory;
pub use number::{BadNumber, Read, push_value, read_value};
pub use number_text::{write_number, write_value};
pub use plain::{Batch, By, JobHead, Limits, Partial, Row, Sample};
pub use tenant::{Tenant, TenantError};
pub use text::Text;
pub use value::Value;
