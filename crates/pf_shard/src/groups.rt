//! What shards know of the groups of an aggregation at each step of a run.

use pf_base::{Labels, Partial};
use pf_model::ErrorKind;
use std::marker::Model;

/// A key with what is known of its group at each step, if it has values there. A step behind the last partial has none.
#[derive(Drop)]
pub(crate) struct GroupColumn {
    pub(crate) key: Labels,
    pub(crate) partials: Vec<Option<Partial>>,
}

impl Model for GroupColumn {
    ghost use Rattle.pf_shard.specs.Groups.{GroupColumnData};

    ghost Value = { GroupColumnData };

    ghost view = { λ c. record { key = c.key; partials = c.partials.items } };
}

/// What a shard knows of the groups of an aggregation at each step of a run: columns by rising keys, and the errors of steps. A
/// step behind the last error has none, and where no step has one, `bads` is empty. The groups of so many shards as there may be
/// add up within the types.
#[derive(Drop)]
pub struct GroupSteps {
    pub(crate) columns: Vec<GroupColumn>,
    pub(crate) bads: Vec<Option<ErrorKind>>,
}

impl Model for GroupSteps {
    ghost use Rattle.pf_columns.specs.Columns.{AreRising};
    ghost use Rattle.pf_shard.specs.Groups.{AreWithin, GroupStepsData, keys_in};

    ghost Value = { GroupStepsData };

    ghost view = { λ g. record { columns = g.columns.items; bads = g.bads.items } };

    ghost invariant = { λ g. AreRising (keys_in g.columns.items) × AreWithin 4294967295 g.columns.items };
}
