//! The traits through which the query frontend reaches its outside, their stand-ins in memory, and the thin real ones.
#![tactic(auto)]

mod counts;
mod disk;
mod doors;
mod memory_files;
mod memory_sink;
mod outside;
mod put;
mod standard;
mod steady;

pub use disk::DiskFiles;
pub use doors::MemDoors;
pub use memory_files::MemFiles;
pub use memory_sink::MemSink;
pub use outside::{Doors, Failed, Files, Gate, Hop, ReadError, Sink};
pub use put::put_all;
pub use standard::StdSink;
pub use steady::{OpenGate, SteadyHop};
