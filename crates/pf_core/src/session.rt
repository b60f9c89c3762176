//! The core, whose journal is legal by its type.

ghost use Rattle.std.specs.Arc.{arc_value};
ghost use Rattle.std.specs.Prelude.{◌≡◌, ◌<◌, ◌≤◌, IfErr, IfOk, MatchOption, None, Some, map, slice_get, sum, true};
ghost use Rattle.std.specs.Option.{option_copied};
ghost use Rattle.pf_block.specs.Snaps.{are_timed};
ghost use Rattle.pf_journal.specs.Machine.{answer, open_at};
ghost use Rattle.pf_core.specs.Calls.{BindsOpen, IsAnswerable, IsCollected, IsFailed, IsFinished, IsKeepable, IsKeptOf, IsLacked, IsLackedBy, IsPartOf, IsPlanned, IsUnplanned, StandsForAsk, Takes, TriesAfter, cached_of, evaluated_of};
ghost use Rattle.pf_core.specs.Cores.{AreBegun, AreCancelled, AreClosed, AreLimits, AreSameWork, Enters, IsAppended, IsAsked, IsCancelled, IsDeleted, IsOpened, IsRefused, IsUnasked, Stands, machine_of, started_core, tries_left};
ghost use Rattle.pf_core.specs.Entries.{entry_of};

use crate::answers::{Admitted, CancelAnswer, Kept, Opened};
use crate::entry::Entry;
use crate::error::{AskError, CoreError};
use crate::state::State;
use pf_base::{Batch, By, Limits, OutOfMemory, Tenant};
use pf_block::Snap;
use pf_extent::DoneCells;
use pf_model::Matchers;
use pf_query::{Asked, Collected, FailedTry, Finished, Held, PlanError, Planned};
use pf_shard::{Legs, Part};
use pf_store::{Deleted, Verdicts};
use std::alloc::Global;
use std::marker::Model;
use std::sync::Arc;

/// The tenants with their logs, the open queries, and the journal. Contracts see the limits, the names of the tenants by
/// number, and the journal; the rest is that of the journal machine.
#[derive(Drop)]
pub struct Core {
    state: State,
}

impl Model for Core {
    ghost use Rattle.pf_core.specs.Codes.{core_code};
    ghost use Rattle.pf_core.specs.Cores.{CoreData};
    ghost use Rattle.pf_core.specs.States.{IsState, core_of};

    ghost Value = { CoreData };

    ghost coded = { core_code };

    ghost view = { λ c. core_of c.state };

    ghost invariant = { λ c. IsState c.state };
}

impl Core {
    /// No tenants, and an empty journal.
    pub fn open(alloc: Global, limits: Limits) -> Result<Core, OutOfMemory>
        requires { AreLimits limits }
        ensures core { IfOk result (λ c. c ≡ started_core limits) }
        ensures stands { IfOk result Stands }
    {
        Ok(Core {
            state: State::new(alloc, limits)?,
        })
    }

    /// Takes in a batch for a tenant, which is known from then on: the verdicts on its rows.
    pub fn append(
        &mut self,
        by: By,
        tenant: &Tenant,
        batch: Arc<Batch>,
    ) -> Result<Arc<Verdicts>, CoreError>
        requires timed { are_timed (arc_value batch).rows ≡ true }
        ensures stands { Stands self.new }
        ensures jobs { AreSameWork self.old self.new }
        ensures ok { IfOk result (λ v. IsAppended self.old by tenant.now (arc_value batch) (arc_value v) self.new) }
        ensures err { IfErr result (λ e. IsRefused self.old by tenant.now e self.new) }
    {
        self.state.append(by, tenant, batch)
    }

    /// Deletes what the matchers accept of a tenant's samples at times from `from` to `to` in milliseconds, both ends included.
    pub fn delete(
        &mut self,
        by: By,
        tenant: &Tenant,
        matchers: Arc<Matchers>,
        from: u64,
        to: u64,
    ) -> Result<Deleted, CoreError>
        requires range { from ≤ to }
        ensures stands { Stands self.new }
        ensures jobs { AreSameWork self.old self.new }
        ensures ok { IfOk result (λ d. IsDeleted self.old by tenant.now (arc_value matchers) from to d self.new) }
        ensures err { IfErr result (λ e. IsRefused self.old by tenant.now e self.new) }
    {
        self.state.delete(by, tenant, matchers, from, to)
    }

    /// Opens a query of a tenant over the tenant's log as it stands. From then on the journal has room for the query's cancel and
    /// its answer.
    pub fn ask(&mut self, by: By, tenant: &Tenant, asked: Arc<Asked>) -> Result<Admitted, AskError>
        ensures stands { Stands self.new }
        ensures jobs { IfOk result (λ a. AreBegun self.old a.query self.new) }
        ensures err_jobs { IfErr result (λ _. AreSameWork self.old self.new) }
        ensures ok { IfOk result (λ a. IsAsked self.old by tenant.now (arc_value asked) a self.new) }
        ensures err { IfErr result (λ e. IsUnasked self.old by tenant.now e self.new) }
    {
        self.state.ask(by, tenant, asked)
    }

    /// What is known of the query that was asked at a place, while it is open. None exactly where none is open there.
    pub fn look(&self, query: u64) -> Option<Opened<'_>>
        ensures stands { Stands self.now }
        ensures found { MatchOption result (open_at query (machine_of self.now).queries ≡ None) (λ o. IsOpened self.now query o) }
    {
        self.state.look(query)
    }

    /// The name of a tenant. None exactly where fewer tenants are known.
    pub fn tenant_name(&self, tenant: u32) -> Option<&Tenant>
        ensures { option_copied result ≡ slice_get self.now.names tenant }
    {
        self.state.tenants.names().get(tenant as usize)
    }

    /// Cancels the query that was asked at a place, where it is open, its tenant has this name, and it was not cancelled before.
    pub fn cancel(&mut self, by: By, query: u64, tenant: &Tenant) -> CancelAnswer
        ensures stands { Stands self.new }
        ensures told { IsCancelled self.old by query tenant.now result self.new }
        ensures jobs { AreCancelled self.old query result self.new }
    {
        self.state.cancel(by, query, tenant)
    }

    /// Answers an open query, which is closed from then on: with the code of its direct evaluation once its parts were handed out,
    /// if that is 200 once it was offered to the cache, too, or with the code of its stop. The entry tells how many steps were cached
    /// at its plan, and that all others were evaluated, if it was planned.
    pub fn answer(&mut self, by: By, query: u64, code: u16)
        requires { IsAnswerable self.old query code }
        ensures stands { Stands self.new }
        ensures entered { Enters self.old by (answer query code (cached_of self.old query) (evaluated_of self.old query)) self.new }
        ensures jobs { AreClosed self.old query self.new }
    {
        self.state.answer(by, query, code);
    }

    /// The number of shards over which queries are evaluated, from 1 to 64.
    pub fn shards(&self) -> u32
        ensures stands { Stands self.now }
        ensures shards { result ≡ self.now.limits.shards }
    {
        self.state.limits.shards
    }

    /// The length in milliseconds of the intervals by which queries are divided and cached.
    pub fn interval(&self) -> u64
        ensures stands { Stands self.now }
        ensures interval { result ≡ self.now.limits.interval }
    {
        self.state.limits.interval
    }

    /// Plans the query that was asked at a place, which is open: in each of its intervals those of its steps that are cached are
    /// found, and from then on a job for each run of the others and each leg waits, last of its tenant's. The legs are those over the
    /// number of shards, and the snapshot is the one that they were bound over. The cache is asked of range queries alone, and a
    /// query of which no step is left is offered by that. Mimir, query frontend: Splitting queries by interval, Query sharding, and
    /// Caching.
    pub fn plan(
        &mut self,
        query: u64,
        legs: Arc<Legs>,
        snap: Arc<Snap>,
    ) -> Result<Planned, PlanError>
        requires legs { BindsOpen self.old.limits (open_at query (machine_of self.old).queries) (arc_value legs) (arc_value snap) }
        ensures stands { Stands self.new }
        ensures ok { IfOk result (λ p. IsPlanned self.old query p self.new) }
        ensures err { IfErr result (λ e. IsUnplanned self.old query e self.new) }
    {
        self.state.plan(query, legs, &snap)
    }

    /// Hands the first job of the first tenant in turn to an actor, of 32; the tenant is last from then on, if it has more jobs
    /// that wait. None exactly where no job waits. It takes no memory, as all calls below.
    pub fn take(&mut self, actor: u32) -> Option<Held>
        requires { actor < 32 }
        ensures stands { Stands self.new }
        ensures taken { Takes self.old actor result self.new }
    {
        self.state.take(actor)
    }

    /// Keeps the part of a job in hand, which is in hand no more: it was stored; its query is stopped; or the job isn't in hand at
    /// that try.
    pub fn finish(&mut self, held: Held, part: Part) -> Finished
        requires stands { StandsForAsk self.old held }
        requires part { IsPartOf self.old held part }
        ensures stands { Stands self.new }
        ensures finished { IsFinished self.old held result self.new }
        ensures tries { tries_left self.new ≡ tries_left self.old }
    {
        self.state.finish(held, part)
    }

    /// Counts a failed try of a job's actor, up to 2^64 - 1 in all, and of its query, if the job is in hand, and lets it wait again,
    /// last of its tenant's. At the fifth failed try its query is stopped.
    pub fn fail(&mut self, held: Held) -> FailedTry
        requires stands { StandsForAsk self.old held }
        requires actor { held.actor < 32 }
        ensures stands { Stands self.new }
        ensures failed { IsFailed self.old held result self.new }
        ensures tries { TriesAfter self.old result self.new }
    {
        self.state.fail(held)
    }

    /// Takes a job out of its actor's hand, and stops its query for want of memory.
    pub fn lack_job(&mut self, held: Held)
        ensures stands { Stands self.new }
        ensures lacked { IsLackedBy self.old held self.new }
        ensures tries { tries_left self.new ≤ tries_left self.old }
    {
        self.state.lack_job(held);
    }

    /// Stops the query that was asked at a place for want of memory.
    pub fn lack_query(&mut self, query: u64)
        ensures stands { Stands self.new }
        ensures lacked { IsLacked self.old query self.new }
    {
        self.state.lack_query(query);
    }

    /// What the query that was asked at a place has. Where all its parts are there, they are handed out, once, and with them the cells
    /// of its steps that were cached. None exactly where it isn't open.
    pub fn collect(&mut self, query: u64) -> Option<Collected>
        ensures stands { Stands self.new }
        ensures collected { IsCollected self.old query result self.new }
        ensures tries { tries_left self.new ≡ tries_left self.old }
    {
        self.state.collect(query)
    }

    /// Offers evaluated cells of an open range query to the cache, each of one interval: those of the steps that no later sample
    /// changes are kept, unless samples of the tenant were deleted since the ask. The query is offered from then on, whatever this
    /// answers, if it is planned and the cells have all steps of its jobs' runs; they come by rising time for that.
    pub fn keep(&mut self, query: u64, cells: Vec<DoneCells>) -> Kept
        requires { IsKeepable self.old query cells.items }
        ensures stands { Stands self.new }
        ensures kept { IsKeptOf self.old query cells.items result self.new }
    {
        self.state.keep(query, &cells)
    }

    /// How many tries of an actor, of 32, failed.
    pub fn failed(&self, actor: u32) -> u64
        requires { actor < 32 }
        ensures { slice_get self.now.failed actor ≡ Some result }
    {
        self.state.failed[actor as usize]
    }

    /// How many tries failed in all.
    pub fn total(&self) -> u64
        ensures { result ≡ sum self.now.failed }
    {
        self.state.total
    }

    /// The entries in order.
    pub fn journal(&self) -> &[Entry]
        ensures stands { Stands self.now }
        ensures entries { map entry_of result.now ≡ self.now.journal }
    {
        &self.state.journal
    }

    /// The names of the tenants by number.
    pub fn names(&self) -> &[Tenant]
        ensures stands { Stands self.now }
        ensures names { result.now ≡ self.now.names }
    {
        self.state.tenants.names()
    }
}
