//! The legs of a query.

ghost use Rattle.std.specs.Prelude.{◌≡◌, ◌≤◌, [], IfOk};
ghost use Rattle.std.specs.Arc.{arc_value};
ghost use Rattle.pf_model.specs.Sharding.{legs_over};
ghost use Rattle.pf_shard.specs.Lawful.{IsLawful, leg_count, legs_data};

use crate::nodes::nodes_over;
use pf_base::OutOfMemory;
use pf_match::Pattern;
use pf_model::Expr;
use std::alloc::Global;
use std::marker::Model;
use std::sync::Arc;

/// A query over a snapshot: the ids of the series that each of its selectors reads, and the patterns of its calls of
/// `label_replace`, each in preorder.
#[derive(Drop)]
pub struct Resolved {
    pub expr: Arc<Expr>,
    pub series: Vec<Vec<u32>>,
    pub patterns: Arc<Vec<Pattern>>,
}

impl Model for Resolved {
    ghost use Rattle.std.specs.Prelude.{map};
    ghost use Rattle.std.specs.Arc.{arc_value};
    ghost use Rattle.pf_model.specs.Trees.{tree_of};
    ghost use Rattle.pf_shard.specs.Lawful.{ResolvedData, resolved_code};

    ghost Value = { ResolvedData };

    ghost coded = { resolved_code };

    ghost view = { λ r. record { query = tree_of (arc_value r.expr); series = map (λ v. v.items) r.series.items; patterns = (arc_value r.patterns).items } };
}

/// The legs of a query: one for each of its nodes that are evaluated shard by shard and each shard, the shards of a node one
/// after another, or where there is no such node one for the whole query. Nodes are numbered in preorder, from 0. `series` has
/// for each leg of a node the ids of the series that it reads, in label order; there are none before a snapshot is at hand.
#[derive(Drop)]
pub struct Legs {
    pub resolved: Arc<Resolved>,
    pub nodes: Vec<u32>,
    pub shards: u32,
    pub series: Vec<Vec<u32>>,
}

impl Model for Legs {
    ghost use Rattle.std.specs.Prelude.{map};
    ghost use Rattle.std.specs.Arc.{arc_value};
    ghost use Rattle.pf_shard.specs.Lawful.{ResolvedLegs, legs_code};

    ghost Value = { ResolvedLegs };

    ghost coded = { legs_code };

    ghost view = { λ l. record { resolved = arc_value l.resolved; nodes = l.nodes.items; shards = l.shards; series = map (λ v. v.items) l.series.items } };
}

/// The legs of a query over so many shards. A query is evaluated shard by shard where it has a selector, each selector stands in
/// an aggregation whose shards can be merged, there is no subquery and there would be at most 256 legs; over one shard none is.
/// This project's own, after Mimir's query sharding. Which series the legs read is not found here. It calls itself as deep as the
/// tree is high. A tree of 2^32 nodes is told as want of memory.
#[tactic(auto, using(crate::proofs::LawfulLegs::rewritten_lawful))]
pub fn rewrite(alloc: Global, resolved: Arc<Resolved>, n: u32) -> Result<Legs, OutOfMemory>
    requires { (1 ≤ n) × (n ≤ 64) }
    ensures legs { IfOk result (λ l. l ≡ record { resolved = arc_value resolved; nodes = legs_over (arc_value resolved).query n; shards = n; series = [] }) }
    ensures lawful { IfOk result (λ l. IsLawful (legs_data l)) }
{
    let nodes = nodes_over(alloc, &resolved.expr, n)?;
    Ok(Legs {
        resolved,
        nodes,
        shards: n,
        series: Vec::new(alloc),
    })
}

/// The number of legs, at most 256. It takes no memory.
pub fn leg_count(legs: &Legs) -> u32
    requires { IsLawful (legs_data legs.now) }
    ensures value { result ≡ leg_count (legs_data legs.now) }
    ensures most { result ≤ 256 }
{
    if legs.nodes.is_empty() {
        return 1;
    }
    legs.nodes.len() as u32 * legs.shards
}
