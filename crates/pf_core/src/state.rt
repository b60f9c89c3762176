//! What a core keeps, and the steps that change it.

ghost use Rattle.std.specs.Arc.{arc_value};
ghost use Rattle.std.specs.Prelude.{◌≡◌, ◌+◌, ◌-◌, ◌<◌, ◌≤◌, [], IfErr, IfOk, MatchOption, None, OnErr, OnOk, cond, length, nat_le, true, vec_capacity};
ghost use Rattle.pf_base.specs.Grids.{points};
ghost use Rattle.pf_block.specs.Snaps.{are_timed};
ghost use Rattle.pf_journal.specs.Machine.{CancelsOpen, answer, full, no_tenant, open_at, room_kept};
ghost use Rattle.pf_query.specs.Tables as table;
ghost use Rattle.pf_query.specs.Tables.{IsTable};
ghost use Rattle.pf_query.specs.declared.stop.Stop.TheVariants.{Cancelled};
ghost use Rattle.pf_core.specs.Calls.{IsAnswerable, cached_of, evaluated_of};
ghost use Rattle.pf_core.specs.Cores.{AreBegun, AreCancelled, AreClosed, AreLimits, AreSameWork, Enters, IsAppended, IsAsked, IsCancelled, IsDeleted, IsOpened, IsRefused, IsUnasked, started_core};
ghost use Rattle.pf_core.specs.Entries.{what_of};
ghost use Rattle.pf_core.specs.Seats.{AreTenants, IsFree, counted_as};
ghost use Rattle.pf_core.specs.States.{CutsOut, HasCapacity, IsCancelledAt, IsEntered, IsNoted, IsOpenedFor, IsOpening, IsSame, IsSettledFor, IsState, IsTold, IsUnsettled, KeepsFailures, KeepsJobs, Steps, TakesIn, core_of, kept_in, machine_in, without_query};

use crate::answers::{Admitted, CancelAnswer, Opened};
use crate::entry::{Entry, What};
use crate::error::{AskError, CoreError};
use crate::query::{Queries, Query, cancel, open};
use crate::tenants::{Seat, Tenants};
use pf_base::{Batch, By, Limits, OutOfMemory, Tenant};
use pf_model::Matchers;
use pf_query::{Asked, Table};
use pf_results::{Results, stay_true};
use pf_store::{Deleted, Pin, Verdicts};
use std::alloc::Global;
use std::collections::HashMap;
use std::sync::Arc;

/// The number of actors.
const ACTORS: usize = 32;

/// The limits, the tenants, the open queries, the number of entries that these keep room for, and the journal; the jobs of the
/// open queries; how many tries failed of each actor and in all; and what is kept of evaluated steps.
#[derive(Drop)]
pub struct State {
    pub alloc: Global,
    pub limits: Limits,
    pub tenants: Tenants,
    pub queries: Queries,
    pub reserved: u64,
    pub journal: Vec<Entry>,
    pub table: Table,
    pub failed: Vec<u64>,
    pub total: u64,
    pub results: Results,
}

/// Takes a batch into a seat's log: the verdicts, and what the entry says.
fn take_in(
    alloc: Global,
    seat: &mut Seat,
    batch: Arc<Batch>,
) -> Result<(Arc<Verdicts>, What), OutOfMemory>
    requires { are_timed (arc_value batch).rows ≡ true }
    ensures { IfOk result (λ r. TakesIn seat.old (arc_value batch) (arc_value r.0) (what_of r.1) seat.new) }
{
    let verdicts = Arc::new(alloc, seat.log.append(&batch)?)?;
    let what = What::Append {
        tenant: seat.number,
        batch,
        verdicts: Arc::try_clone(&verdicts)?,
    };
    Ok((verdicts, what))
}

/// Removes samples of a seat's log: what was deleted, and what the entry says.
fn cut_out(
    seat: &mut Seat,
    matchers: Arc<Matchers>,
    from: u64,
    to: u64,
) -> Result<(Deleted, What), OutOfMemory>
    requires { from ≤ to }
    ensures { IfOk result (λ r. CutsOut seat.old (arc_value matchers) from to r.0 (what_of r.1) seat.new) }
{
    let deleted = seat.log.delete(&matchers, from, to)?;
    let what = What::Delete {
        tenant: seat.number,
        matchers,
        from,
        to,
        deleted,
    };
    Ok((deleted, what))
}

/// What is opened by an ask: the query that is kept, the same pin again, and what the entry says.
#[derive(Drop)]
struct Opening {
    query: Query,
    pin: Pin,
    what: What,
}

/// Pins a seat's log.
fn pinned(seat: &Seat, asked: Arc<Asked>) -> Result<Opening, OutOfMemory>
    ensures { IfOk result (λ o. IsOpening seat.now (arc_value asked) o) }
{
    let pin = seat.log.pin()?;
    let query = Query {
        tenant: seat.number,
        asked: Arc::try_clone(&asked)?,
        pin: seat.log.pin()?,
        cancelled: None,
    };
    let what = What::Ask {
        tenant: seat.number,
        asked,
        pin: pin.number,
        generation: pin.generation,
        floor: pin.floor,
    };
    Ok(Opening { query, pin, what })
}

/// How many entries are kept for an open query: its answer, and its cancel, where that is still to come.
fn kept_for(cancelled: Option<u64>) -> u64
    ensures { result ≡ room_kept cancelled }
{
    match cancelled {
        None => 2,
        Some(_) => 1,
    }
}

/// How many steps of an open query were evaluated: all that weren't cached, once it is planned.
fn steps_of(query: &Opened<'_>) -> u32
    requires { query.now.cached ≤ length (points (arc_value query.now.asked.now).query.grid) }
    ensures { result ≡ cond query.now.planned (length (points (arc_value query.now.asked.now).query.grid) - query.now.cached) 0 }
{
    if !query.planned {
        return 0;
    }
    let asked: &Asked = query.asked;
    asked.grid.len() - query.cached
}

impl State {
    /// No tenants, and an empty journal.
    pub fn new(alloc: Global, limits: Limits) -> Result<State, OutOfMemory>
        requires { AreLimits limits }
        ensures core { IfOk result (λ s. core_of s ≡ started_core limits) }
        ensures state { IfOk result IsState }
    {
        Ok(State {
            alloc,
            limits,
            tenants: Tenants::new(alloc),
            queries: HashMap::new(alloc),
            reserved: 0,
            journal: Vec::new(alloc),
            table: Table::new(alloc)?,
            failed: vec![in alloc; 0; ACTORS]?,
            total: 0,
            results: Results::open(alloc, limits.extents)?,
        })
    }

    /// Whether the journal has room for so many entries beside those that are kept for open queries.
    fn has_room(&self, entries: u64) -> bool
        requires state { IsState self.now }
        requires few { entries ≤ 3 }
        ensures { result ≡ nat_le (length self.now.journal.items + self.now.reserved + entries) self.now.limits.journal }
    {
        self.journal.len() as u64 + self.reserved + entries <= self.limits.journal
    }

    /// Makes room in memory for so many entries beside those that are kept for open queries.
    fn make_room(&mut self, entries: u64) -> Result<(), OutOfMemory>
        requires state { IsState self.old }
        requires few { entries ≤ 3 }
        ensures same { IsSame self.old self.new }
        ensures jobs { KeepsJobs self.old self.new }
        ensures ok { OnOk result (length self.new.journal.items + self.new.reserved + entries ≤ vec_capacity self.new.journal) }
    {
        self.journal.reserve((self.reserved + entries) as usize)?;
        Ok(())
    }

    /// Adds an entry, for which there is room.
    fn note(&mut self, by: By, what: What)
        requires { length self.old.journal.items < vec_capacity self.old.journal }
        ensures { IsNoted self.old by (what_of what) self.new }
    {
        self.journal.push_reserved(Entry { by, what });
    }

    /// Puts in a seat, and adds its entry.
    fn enter(&mut self, by: By, seat: Seat, what: What) -> Result<(), OutOfMemory>
        requires state { IsState self.old }
        requires free { IsFree self.old.tenants seat.number seat.newcomer }
        ensures jobs { KeepsJobs self.old self.new }
        ensures ok { OnOk result (IsEntered self.old by seat (what_of what) self.new) }
        ensures err { OnErr result (IsSame self.old self.new) }
    {
        self.make_room(1)?;
        self.tenants.settle(seat)?;
        self.note(by, what);
        Ok(())
    }

    /// Adds an entry that changes nothing else.
    fn tell(&mut self, by: By, what: What) -> Result<(), OutOfMemory>
        requires state { IsState self.old }
        ensures jobs { KeepsJobs self.old self.new }
        ensures ok { OnOk result (IsTold self.old by (what_of what) self.new) }
        ensures err { OnErr result (IsSame self.old self.new) }
    {
        self.make_room(1)?;
        self.note(by, what);
        Ok(())
    }

    /// Notes that a tenant was not admitted.
    fn refuse(&mut self, by: By, name: &Tenant) -> Result<(), OutOfMemory>
        requires state { IsState self.old }
        ensures jobs { KeepsJobs self.old self.new }
        ensures ok { OnOk result (IsTold self.old by (no_tenant name.now) self.new) }
        ensures err { OnErr result (IsSame self.old self.new) }
    {
        let name = name.clone()?;
        self.tell(by, What::NoTenant { name })
    }

    /// Notes that a tenant has as many open queries as it may.
    fn fill(&mut self, by: By, tenant: u32, outstanding: u32) -> Result<(), OutOfMemory>
        requires state { IsState self.old }
        ensures jobs { KeepsJobs self.old self.new }
        ensures ok { OnOk result (IsTold self.old by (full tenant outstanding) self.new) }
        ensures err { OnErr result (IsSame self.old self.new) }
    {
        self.tell(
            by,
            What::Full {
                tenant,
                outstanding,
            },
        )
    }

    /// Takes in a batch for a tenant.
    #[tactic(auto, using(crate::proofs::Standing::same_work))]
    pub fn append(
        &mut self,
        by: By,
        tenant: &Tenant,
        batch: Arc<Batch>,
    ) -> Result<Arc<Verdicts>, CoreError>
        requires state { IsState self.old }
        requires timed { are_timed (arc_value batch).rows ≡ true }
        ensures state { IsState self.new }
        ensures jobs { AreSameWork (core_of self.old) (core_of self.new) }
        ensures ok { IfOk result (λ v. IsAppended (core_of self.old) by tenant.now (arc_value batch) (arc_value v) (core_of self.new)) }
        ensures err { IfErr result (λ e. IsRefused (core_of self.old) by tenant.now e (core_of self.new)) }
    {
        stay_true();
        if !self.has_room(1) {
            return Err(CoreError::JournalFull {
                entries: self.journal.len() as u64,
            });
        }
        let Some(mut seat) = self.tenants.seat(self.alloc, self.limits.window, tenant)? else {
            self.refuse(by, tenant)?;
            return Err(CoreError::TooManyTenants);
        };
        let (verdicts, what) = take_in(self.alloc, &mut seat, batch)?;
        self.enter(by, seat, what)?;
        Ok(verdicts)
    }

    /// Deletes samples of a tenant.
    #[tactic(auto, using(crate::proofs::Standing::same_work))]
    pub fn delete(
        &mut self,
        by: By,
        tenant: &Tenant,
        matchers: Arc<Matchers>,
        from: u64,
        to: u64,
    ) -> Result<Deleted, CoreError>
        requires state { IsState self.old }
        requires range { from ≤ to }
        ensures state { IsState self.new }
        ensures jobs { AreSameWork (core_of self.old) (core_of self.new) }
        ensures ok { IfOk result (λ d. IsDeleted (core_of self.old) by tenant.now (arc_value matchers) from to d (core_of self.new)) }
        ensures err { IfErr result (λ e. IsRefused (core_of self.old) by tenant.now e (core_of self.new)) }
    {
        stay_true();
        if !self.has_room(1) {
            return Err(CoreError::JournalFull {
                entries: self.journal.len() as u64,
            });
        }
        let Some(mut seat) = self.tenants.seat(self.alloc, self.limits.window, tenant)? else {
            self.refuse(by, tenant)?;
            return Err(CoreError::TooManyTenants);
        };
        let (deleted, what) = cut_out(&mut seat, matchers, from, to)?;
        self.enter(by, seat, what)?;
        Ok(deleted)
    }

    /// Puts in the seat of a query's tenant. Where memory runs out, the query's entry in the table goes again.
    fn settle_for(&mut self, query: u64, seat: Seat) -> Result<(), OutOfMemory>
        requires table { IsTable self.old.table }
        requires free { IsFree self.old.tenants seat.number seat.newcomer }
        ensures ok { OnOk result (IsSettledFor self.old seat self.new) }
        ensures err { OnErr result (IsUnsettled self.old query self.new) }
    {
        let settled = self.tenants.settle(seat);
        if settled.is_err() {
            self.table.close(query);
        }
        settled
    }

    /// Opens a query for a seat, whose tenant has so many.
    fn open_query(
        &mut self,
        by: By,
        seat: Seat,
        outstanding: u32,
        opening: Opening,
    ) -> Result<Pin, OutOfMemory>
        requires state { IsState self.old }
        requires tenants { AreTenants self.old.tenants }
        requires free { IsFree self.old.tenants seat.number seat.newcomer }
        requires few { outstanding < 4294967295 }
        ensures pin { IfOk result (λ p. p ≡ opening.pin) }
        ensures ok { OnOk result (IsOpenedFor self.old by seat outstanding opening.query (what_of opening.what) self.new) }
        ensures opened { OnOk result (table.IsOpened self.old.table (length self.old.journal.items) seat.number self.new.table) }
        ensures table { IsTable self.new.table }
        ensures failures { KeepsFailures self.old self.new }
        ensures err { OnErr result (IsSame self.old self.new) }
    {
        let Opening { query, pin, what } = opening;
        let place = self.journal.len() as u64;
        let number = seat.number;
        self.make_room(3)?;
        self.queries.reserve(1)?;
        self.table.open(place, number)?;
        self.settle_for(place, seat)?;
        self.tenants.set_count(number, outstanding + 1);
        open(&mut self.queries, place, query);
        self.reserved += 2;
        self.note(by, what);
        Ok(pin)
    }

    /// Asks a query of a tenant, and opens it.
    #[tactic(auto, using(crate::proofs::Standing::same_work))]
    pub fn ask(&mut self, by: By, tenant: &Tenant, asked: Arc<Asked>) -> Result<Admitted, AskError>
        requires state { IsState self.old }
        ensures state { IsState self.new }
        ensures jobs { IfOk result (λ a. AreBegun (core_of self.old) a.query (core_of self.new)) }
        ensures err_jobs { IfErr result (λ _. AreSameWork (core_of self.old) (core_of self.new)) }
        ensures ok { IfOk result (λ a. IsAsked (core_of self.old) by tenant.now (arc_value asked) a (core_of self.new)) }
        ensures err { IfErr result (λ e. IsUnasked (core_of self.old) by tenant.now e (core_of self.new)) }
    {
        stay_true();
        let place = self.journal.len() as u64;
        if !self.has_room(3) {
            return Err(AskError::JournalFull { entries: place });
        }
        let Some(seat) = self.tenants.seat(self.alloc, self.limits.window, tenant)? else {
            self.refuse(by, tenant)?;
            return Err(AskError::TooManyTenants);
        };
        let outstanding = self.tenants.count(seat.number);
        if outstanding >= self.limits.outstanding {
            self.fill(by, seat.number, outstanding)?;
            return Err(AskError::Full { outstanding });
        }
        let opening = pinned(&seat, asked)?;
        let pin = self.open_query(by, seat, outstanding, opening)?;
        Ok(Admitted { query: place, pin })
    }

    /// What is kept of an open query.
    pub fn look(&self, query: u64) -> Option<Opened<'_>>
        requires { IsState self.now }
        ensures { MatchOption result (open_at query (machine_in self.now).queries ≡ None) (λ o. IsOpened (core_of self.now) query o) }
    {
        let open = self.queries.get(&query)?;
        let progress = self.table.look(query)?;
        Some(Opened {
            tenant: open.tenant,
            pin: &open.pin,
            asked: &open.asked,
            cancelled: open.cancelled,
            planned: progress.planned,
            cached: progress.cached,
            offered: progress.offered,
            stop: progress.stop,
        })
    }

    /// Cancels an open query, which was not cancelled.
    fn cancel_open(&mut self, by: By, query: u64)
        requires state { IsState self.old }
        requires uncancelled { CancelsOpen (open_at query (machine_in self.old).queries) }
        ensures cancelled { IsCancelledAt self.old by query self.new }
        ensures stopped { table.IsStopped self.old.table query (Cancelled (length self.old.journal.items)) self.new.table }
        ensures table { IsTable self.new.table }
        ensures failures { KeepsFailures self.old self.new }
    {
        let place = self.journal.len() as u64;
        cancel(&mut self.queries, query, place);
        self.table.cancel(query, place);
        self.reserved -= 1;
        self.note(by, What::Cancel { query });
    }

    /// Cancels an open query of a tenant.
    pub fn cancel(&mut self, by: By, query: u64, tenant: &Tenant) -> CancelAnswer
        requires state { IsState self.old }
        ensures state { IsState self.new }
        ensures told { IsCancelled (core_of self.old) by query tenant.now result (core_of self.new) }
        ensures jobs { AreCancelled (core_of self.old) query result (core_of self.new) }
    {
        let Some(open) = self.look(query) else {
            return CancelAnswer::NotOutstanding;
        };
        let owner = open.tenant;
        let cancelled = open.cancelled;
        if !self.tenants.is_named(owner, tenant) {
            return CancelAnswer::OtherTenant { owner };
        }
        if let Some(place) = cancelled {
            return CancelAnswer::Already { place };
        }
        self.cancel_open(by, query);
        CancelAnswer::Done
    }

    /// Takes out an open query of a tenant that has so many, and adds the entry of its answer.
    fn close(&mut self, by: By, query: u64, tenant: u32, outstanding: u32, kept: u64, what: What)
        requires inside { tenant < length self.old.tenants.counts }
        requires some { 1 ≤ outstanding }
        requires room { (1 ≤ kept) × (kept ≤ self.old.reserved) }
        requires capacity { HasCapacity self.old }
        requires table { IsTable self.old.table }
        ensures closed { table.IsClosed self.old.table query self.new.table }
        ensures table { IsTable self.new.table }
        ensures failures { KeepsFailures self.old self.new }
        ensures steps { Steps self.old by (what_of what) (counted_as self.old.tenants tenant (outstanding - 1)) (without_query (kept_in self.old) query) (self.old.reserved - kept) self.new }
    {
        let _closed = self.queries.remove(&query);
        self.table.close(query);
        self.tenants.set_count(tenant, outstanding - 1);
        self.reserved -= kept;
        self.note(by, what);
    }

    /// Answers an open query.
    #[tactic(auto, using(crate::proofs::Closing::never_closed))]
    pub fn answer(&mut self, by: By, query: u64, code: u16)
        requires state { IsState self.old }
        requires may { IsAnswerable (core_of self.old) query code }
        ensures state { IsState self.new }
        ensures entered { Enters (core_of self.old) by (answer query code (cached_of (core_of self.old) query) (evaluated_of (core_of self.old) query)) (core_of self.new) }
        ensures jobs { AreClosed (core_of self.old) query (core_of self.new) }
    {
        let Some(open) = self.look(query) else {
            unreachable!()
        };
        let tenant = open.tenant;
        let kept = kept_for(open.cancelled);
        let cached = open.cached;
        let evaluated = steps_of(&open);
        let outstanding = self.tenants.count(tenant);
        self.close(
            by,
            query,
            tenant,
            outstanding,
            kept,
            What::Answer {
                query,
                code,
                cached,
                evaluated,
            },
        );
    }
}
