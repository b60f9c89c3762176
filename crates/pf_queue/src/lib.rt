//! The tenants that have waiting jobs, in the order in which they are served.
//!
//! What the layer above uses: contracts see a `Ring` as the list of the tenants that wait, first to last, each once, beside its
//! capacity. `add` puts a tenant last, `take` takes the first, and `leave` takes one out wherever it stands, while the
//! others keep their order. While a tenant waits, no other one is taken twice. Each call takes constant time and no memory,
//! which `open` takes once, eight bytes a tenant. Round robin goes so:
//!
//! ```text
//! let Some(tenant) = ring.take() else { return None };
//! let job = jobs.first_of(tenant);
//! if jobs.has_more(tenant) {
//!     ring.add(tenant);
//! }
//! Some(job)
//! ```
#![tactic(auto)]

mod links;
mod ring;
mod turns;

pub use ring::Ring;
pub use turns::serves_in_turn;
