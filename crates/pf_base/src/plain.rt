//! Records that crates hand to one another.

use crate::labels::Labels;
use crate::value::Value;
use std::marker::Model;

/// A value at a time in milliseconds.
#[derive(Clone, Copy)]
pub struct Sample {
    pub time: i64,
    pub value: Value,
}

/// A sample of a series, as an exposition file gives it: its time is in milliseconds since 1970.
#[derive(Drop)]
pub struct Row {
    pub labels: Labels,
    pub time: u64,
    pub value: Value,
}

/// The rows of one exposition file in order, and the number of its lines that gave none, because their value is no
/// number.
#[derive(Drop)]
pub struct Batch {
    pub rows: Vec<Row>,
    pub skipped: u64,
}

impl Model for Batch {
    ghost use Rattle.pf_base.specs.Batches.{BatchData};

    ghost Value = { BatchData };

    ghost view = { λ b. record { rows = b.rows.items; skipped = b.skipped } };
}

/// Who took a step: a client, and the line of its script, from 1.
#[derive(Clone, Copy)]
pub struct By {
    pub client: u32,
    pub line: u32,
}

/// What a job is about: its tenant and query, its number in the query, its leg, the first and the last time of its run
/// in milliseconds, and how often it was tried before.
#[derive(Clone, Copy, PartialEq, Eq)]
pub struct JobHead {
    pub tenant: u32,
    pub query: u64,
    pub job: u32,
    pub leg: u32,
    pub first: u64,
    pub last: u64,
    pub tries: u32,
}

/// The limits of a run. `window` and `interval` are in milliseconds.
#[derive(Clone, Copy)]
pub struct Limits {
    pub outstanding: u32,
    pub window: u64,
    pub interval: u64,
    pub shards: u32,
    pub extents: u32,
    pub journal: u64,
}

/// What one shard knows of a group: the exact sum in micros, the number, the least and the greatest of its values.
#[derive(Clone, Copy)]
pub struct Partial {
    pub sum: i128,
    pub count: u64,
    pub least: Value,
    pub greatest: Value,
}
