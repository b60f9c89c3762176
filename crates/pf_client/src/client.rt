//! A client that runs the lines of its script.

ghost use Rattle.std.specs.Arc.{arc_value};
ghost use Rattle.std.specs.BTreeMap.{get};
ghost use Rattle.std.specs.Ordering.{nat_cmp};
ghost use Rattle.std.specs.Prelude.{◌≡◌, ◌≤◌, ◌++◌, ◌∷◌, [], ℕ, codes, decimal, slice_get, IfOk, IfSome, IsSome, List, None, Ok, OnOk, Some, cond, length, map, nat_eq, nat_lt, sum_by, ◌||◌, true};
ghost use Rattle.pf_base.specs.Limits.{greatest_time};
ghost use Rattle.pf_block.specs.Snaps.{are_timed};
ghost use Rattle.pf_core.specs.Cores.{Stands, machine_of};
ghost use Rattle.pf_front.specs.Works.{WorksOn};
ghost use Rattle.pf_journal.specs.Asking.{asked_over, asked_with};
ghost use Rattle.pf_journal.specs.Files.{Gives};
ghost use Rattle.pf_journal.specs.Machine.{open_at};
ghost use Rattle.pf_journal.specs.Rest.{Known};
ghost use Rattle.pf_journal.specs.Scripts as script;
ghost use Rattle.pf_journal.specs.Scripts.{most_bytes};
ghost use Rattle.pf_journal.specs.Turns.{Hand, Ran};
ghost use Rattle.pf_model.specs.Queries.{IsSelector};
ghost use Rattle.pf_script.specs.Lines.{numbered_of};
ghost use Rattle.pf_client.specs.Asks.{AskRuns, AsksAs, IsAskAt, SlotRight, wanted_by};
ghost use Rattle.pf_client.specs.declared.slots.Slot.TheVariants as slot;
ghost use Rattle.pf_journal.specs.Replies.{memory_words, refused_words, reply_line};
ghost use Rattle.pf_model.specs.Lists.{Each};
ghost use Rattle.pf_client.specs.Clients.{Grows, IsFileRead, IsKnown, IsStep, IsTimed, Runs, naming};
ghost use Rattle.pf_client.specs.Replays.{file_of};
ghost use Rattle.pf_client.specs.Files.{AreHeld, HoldsContent, IsKept, IsShort, LetsGo, LetsGoOf};
ghost use Rattle.pf_client.specs.Going.{GoesOnWith, IsReady, own_of};
ghost use Rattle.pf_client.specs.Hands.{HoldsJobs};
ghost use Rattle.pf_client.specs.Queries.{AreReadAs, AreReadBy, IsTextKept, readings_in};
ghost use Rattle.pf_client.specs.Tallies.{CountsNothing};
ghost use Rattle.pf_types.specs.Asking.{IsWhen, grid_in, is_instant};
ghost use Rattle.pf_client.specs.declared.client.LineRun.TheVariants.{On, Starved};

use crate::loaded::{Content, Contents, Loaded, let_go};
use crate::queries::{Queries, QueryRead, SelectorRead, query_of as read_of};
use crate::slots::{Slot, Slots, keep, query_of};
use pf_base::{Batch, By, Grid, MAXT, OutOfMemory, Tenant, Text};
use pf_core::{AskError, CancelAnswer, Core, CoreError};
use pf_expo::{ExpoError, read_exposition};
use pf_front::plan;
use pf_io::{Gate, Hop};
use pf_model::Matchers;
use pf_query::{Asked, Held};
use pf_report::{
    AskReply, CancelReply, DeleteReply, FileFault, IngestReply, push_ask_reply, push_cancel_reply,
    push_delete_reply, push_ingest_reply,
};
use pf_script::{Line, NumberedLine};
use pf_types::{BoundQuery, When};
use std::alloc::Global;
use std::sync::Arc;

/// A client: its number, which is its actor's too, the core that it works on, whether its script has step lines, what became of its
/// asks by line, the job that each of 16 workers has in its hand, and what it holds of its part of the report.
#[derive(Drop)]
pub struct Client {
    pub alloc: Global,
    pub client: u32,
    pub core: Core,
    pub stepped: bool,
    pub slots: Slots,
    pub hands: Vec<Option<Held>>,
    pub out: Vec<u8>,
}

/// Whether the client goes on behind a line, the line met the full journal, or there was no memory for its samples or its deletion.
#[derive(Clone, Copy)]
pub enum LineRun {
    On,
    Full,
    Starved,
}

/// What a file is read as.
#[derive(Drop)]
pub enum FileRead {
    Batch(Batch),
    Refused(FileFault),
}

/// Reads what a file holds. Samples without a time have this one.
#[tactic(auto, using(crate::proofs::FileReads::gives_timed, crate::proofs::FileReads::gives_held, crate::proofs::FileReads::stops_held))]
fn read_batch(alloc: Global, bytes: &[u8], time: u64) -> Result<FileRead, OutOfMemory>
    requires within { time ≤ greatest_time }
    requires short { length bytes.now ≤ most_bytes }
    ensures read { IfOk result (IsFileRead bytes.now time) }
    ensures timed { IfOk result IsTimed }
{
    match read_exposition(alloc, bytes, time) {
        Ok(batch) => Ok(FileRead::Batch(batch)),
        Err(ExpoError::BadLine { line }) => Ok(FileRead::Refused(FileFault::BadLine(line))),
        Err(ExpoError::TimeTooLarge { line }) => {
            Ok(FileRead::Refused(FileFault::TimeTooLarge(line)))
        }
        Err(ExpoError::TooMany { line }) => Ok(FileRead::Refused(FileFault::TooMany(line))),
        Err(ExpoError::OutOfMemory) => Err(OutOfMemory),
    }
}

/// Reads what is kept of a file.
pub fn read_content(alloc: Global, content: &Content, time: u64) -> Result<FileRead, OutOfMemory>
    requires within { time ≤ greatest_time }
    requires short { IsShort content.now }
    ensures read { IfOk result (λ r. (held : List ℕ) → HoldsContent held content.now → IsFileRead held time r) }
    ensures timed { IfOk result IsTimed }
{
    match content {
        Content::Bytes(bytes) => read_batch(alloc, bytes.as_slice(), time),
        Content::TooLong => Ok(FileRead::Refused(FileFault::TooLong)),
    }
}

/// Reads a file for the line of a number, and lets it go, unless a line behind names it. Samples without a time have this one.
fn read_for(
    alloc: Global,
    files: &mut Contents,
    name: &str,
    number: u32,
    time: u64,
) -> Result<FileRead, OutOfMemory>
    requires kept { IsKept files.old name.now }
    requires within { time ≤ greatest_time }
    ensures read { IfOk result (λ r. (held : List ℕ → List ℕ) → AreHeld held files.old → IsFileRead (held name.now) time r) }
    ensures timed { IfOk result IsTimed }
    ensures left { LetsGo files.old name.now number files.new }
{
    let file = &files[name];
    let read = read_content(alloc, &file.content, time);
    let_go(files, name, number);
    read
}

/// What a query that was read asks over a grid, or at one time.
fn asked_over(alloc: Global, query: &BoundQuery, when: When) -> Result<Arc<Asked>, OutOfMemory>
    requires { IsWhen when }
    ensures { IfOk result (λ a. arc_value a ≡ asked_over (is_instant when) (grid_in when) query.now) }
{
    let asked = query.asked(alloc, when)?;
    Ok(Arc::new(alloc, asked)?)
}

/// A batch that may be shared, unless there is no memory.
fn shared(alloc: Global, batch: Batch) -> Option<Arc<Batch>>
    ensures { IfSome result (λ b. arc_value b ≡ batch) }
{
    match Arc::new(alloc, batch) {
        Ok(batch) => Some(batch),
        Err(_) => None,
    }
}

/// Whether no sample has a time from one to the other.
fn is_no_range(from: u64, to: u64) -> bool
    ensures { result ≡ (nat_lt to from || nat_lt greatest_time to) }
{
    to < from || MAXT < to
}

impl Client {
    /// Who enters an entry for a line: this client.
    pub fn by(&self, line: u32) -> By
        ensures client { result.client ≡ self.now.client }
        ensures line { result.line ≡ line }
    {
        By {
            client: self.client,
            line,
        }
    }

    /// Replies to an `ingest` for which there was no memory.
    fn starve_ingest(&mut self, number: u32, tenant: &Tenant) -> Result<LineRun, OutOfMemory>
        ensures starved { IfOk result (λ r. r ≡ Starved) }
        ensures said { OnOk result (self.new.out.items ≡ self.old.out.items ++ reply_line number (codes "ingest") tenant.now memory_words) }
        ensures core { self.new.core ≡ self.old.core }
        ensures slots { self.new.slots ≡ self.old.slots }
        ensures hands { self.new.hands ≡ self.old.hands }
        ensures client { self.new.client ≡ self.old.client }
    {
        push_ingest_reply(
            &mut self.out,
            number,
            tenant.as_str(),
            &IngestReply::OutOfMemory,
        )?;
        Ok(LineRun::Starved)
    }

    /// Takes in a batch for a tenant.
    fn take_in(
        &mut self,
        number: u32,
        tenant: &Tenant,
        file: &Text,
        time: u64,
        batch: Batch,
    ) -> Result<LineRun, OutOfMemory>
        requires timed { are_timed batch.rows ≡ true }
        ensures runs { IfOk result (λ r. (known : Known) → Gives (known.files file.now) time batch → Runs known self.old (record { number = number; line = script.ingest tenant.now file.now time }) r self.new) }
        ensures grows { OnOk result (Grows 0 0 self.old.core self.new.core) }
        ensures slots { OnOk result (self.new.slots ≡ self.old.slots) }
        ensures hands { OnOk result (self.new.hands ≡ self.old.hands) }
        ensures client { OnOk result (self.new.client ≡ self.old.client) }
    {
        let skipped = batch.skipped;
        let Some(batch) = shared(self.alloc, batch) else {
            return self.starve_ingest(number, tenant);
        };
        let name = tenant.as_str();
        let by = self.by(number);
        match self.core.append(by, tenant, batch) {
            Ok(verdicts) => {
                let reply = IngestReply::Taken {
                    skipped,
                    verdicts: &verdicts,
                };
                push_ingest_reply(&mut self.out, number, name, &reply)?;
                Ok(LineRun::On)
            }
            Err(CoreError::TooManyTenants) => {
                push_ingest_reply(&mut self.out, number, name, &IngestReply::TooManyTenants)?;
                Ok(LineRun::On)
            }
            Err(CoreError::JournalFull { .. }) => {
                push_ingest_reply(&mut self.out, number, name, &IngestReply::JournalFull)?;
                Ok(LineRun::Full)
            }
            Err(CoreError::OutOfMemory) => self.starve_ingest(number, tenant),
        }
    }

    /// Runs an `ingest`.
    pub fn ingest(
        &mut self,
        files: &mut Contents,
        number: u32,
        tenant: &Tenant,
        file: &Text,
        time: u64,
    ) -> Result<LineRun, OutOfMemory>
        requires kept { IsKept files.old file.now }
        requires within { time ≤ greatest_time }
        ensures runs { IfOk result (λ r. (known : Known) → AreHeld known.files files.old → Runs known self.old (record { number = number; line = script.ingest tenant.now file.now time }) r self.new) }
        ensures grows { OnOk result (Grows 0 0 self.old.core self.new.core) }
        ensures slots { OnOk result (self.new.slots ≡ self.old.slots) }
        ensures hands { OnOk result (self.new.hands ≡ self.old.hands) }
        ensures client { OnOk result (self.new.client ≡ self.old.client) }
        ensures left { LetsGo files.old file.now number files.new }
    {
        let Ok(read) = read_for(self.alloc, files, file.as_str(), number, time) else {
            return self.starve_ingest(number, tenant);
        };
        match read {
            FileRead::Batch(batch) => self.take_in(number, tenant, file, time, batch),
            FileRead::Refused(fault) => {
                let reply = IngestReply::Refused(fault);
                push_ingest_reply(&mut self.out, number, tenant.as_str(), &reply)?;
                Ok(LineRun::On)
            }
        }
    }

    /// Replies to a `delete` for which there was no memory.
    fn starve_delete(&mut self, number: u32, tenant: &Tenant) -> Result<LineRun, OutOfMemory>
        ensures starved { IfOk result (λ r. r ≡ Starved) }
        ensures said { OnOk result (self.new.out.items ≡ self.old.out.items ++ reply_line number (codes "delete") tenant.now memory_words) }
        ensures core { self.new.core ≡ self.old.core }
        ensures slots { self.new.slots ≡ self.old.slots }
        ensures hands { self.new.hands ≡ self.old.hands }
        ensures client { self.new.client ≡ self.old.client }
    {
        push_delete_reply(
            &mut self.out,
            number,
            tenant.as_str(),
            &DeleteReply::OutOfMemory,
        )?;
        Ok(LineRun::Starved)
    }

    /// Deletes the samples of a tenant that a selector accepts.
    fn delete_selected(
        &mut self,
        number: u32,
        tenant: &Tenant,
        from: u64,
        to: u64,
        matchers: Arc<Matchers>,
    ) -> Result<LineRun, OutOfMemory>
        requires range { from ≤ to }
        requires within { to ≤ greatest_time }
        ensures runs { IfOk result (λ r. (known : Known) (selector : List ℕ) → IsSelector known.refused selector (arc_value matchers) → Runs known self.old (record { number = number; line = script.delete tenant.now from to selector }) r self.new) }
        ensures grows { OnOk result (Grows 0 0 self.old.core self.new.core) }
        ensures slots { OnOk result (self.new.slots ≡ self.old.slots) }
        ensures hands { OnOk result (self.new.hands ≡ self.old.hands) }
        ensures client { OnOk result (self.new.client ≡ self.old.client) }
    {
        let name = tenant.as_str();
        let by = self.by(number);
        match self.core.delete(by, tenant, matchers, from, to) {
            Ok(deleted) => {
                let reply = DeleteReply::Deleted {
                    generation: deleted.generation,
                    entry: deleted.entry,
                };
                push_delete_reply(&mut self.out, number, name, &reply)?;
                Ok(LineRun::On)
            }
            Err(CoreError::TooManyTenants) => {
                push_delete_reply(&mut self.out, number, name, &DeleteReply::TooManyTenants)?;
                Ok(LineRun::On)
            }
            Err(CoreError::JournalFull { .. }) => {
                push_delete_reply(&mut self.out, number, name, &DeleteReply::JournalFull)?;
                Ok(LineRun::Full)
            }
            Err(CoreError::OutOfMemory) => self.starve_delete(number, tenant),
        }
    }

    /// Runs a `delete`.
    pub fn delete(
        &mut self,
        queries: &Queries,
        number: u32,
        tenant: &Tenant,
        from: u64,
        to: u64,
        selector: &Text,
    ) -> Result<LineRun, OutOfMemory>
        requires kept { IsTextKept queries.now selector.now }
        ensures runs { IfOk result (λ r. (known : Known) → AreReadBy known.refused queries.now → Runs known self.old (record { number = number; line = script.delete tenant.now from to selector.now }) r self.new) }
        ensures grows { OnOk result (Grows 0 0 self.old.core self.new.core) }
        ensures slots { OnOk result (self.new.slots ≡ self.old.slots) }
        ensures hands { OnOk result (self.new.hands ≡ self.old.hands) }
        ensures client { OnOk result (self.new.client ≡ self.old.client) }
    {
        if is_no_range(from, to) {
            push_delete_reply(
                &mut self.out,
                number,
                tenant.as_str(),
                &DeleteReply::BadRange,
            )?;
            return Ok(LineRun::On);
        }
        let Some(read) = read_of(queries, selector.as_str()) else {
            return Ok(LineRun::On);
        };
        match &read.selector {
            SelectorRead::Built(matchers) => match Arc::try_clone(matchers) {
                Ok(matchers) => self.delete_selected(number, tenant, from, to, matchers),
                Err(_) => self.starve_delete(number, tenant),
            },
            SelectorRead::Refused => {
                push_delete_reply(
                    &mut self.out,
                    number,
                    tenant.as_str(),
                    &DeleteReply::BadSelector,
                )?;
                Ok(LineRun::On)
            }
        }
    }

    /// Replies to an ask that was refused with this code, and keeps why.
    fn refuse_ask(
        &mut self,
        number: u32,
        id: &str,
        code: u16,
        slot: Slot,
    ) -> Result<(), OutOfMemory>
        ensures said { OnOk result (self.new.out.items ≡ self.old.out.items ++ reply_line number (codes "ask") id.now (refused_words (decimal code))) }
        ensures kept { OnOk result ((k : ℕ) → get nat_cmp self.new.slots k ≡ cond (nat_eq number k) (Some slot) (get nat_cmp self.old.slots k)) }
        ensures core { self.new.core ≡ self.old.core }
        ensures hands { self.new.hands ≡ self.old.hands }
        ensures client { self.new.client ≡ self.old.client }
    {
        push_ask_reply(&mut self.out, number, id, &AskReply::Refused { code })?;
        keep(&mut self.slots, number, slot)
    }

    /// Replies to an ask whose query was opened, and keeps its place.
    fn open_query(&mut self, number: u32, id: &str, pin: u64, place: u64) -> Result<(), OutOfMemory>
        ensures said { OnOk result (self.new.out.items ≡ self.old.out.items ++ reply_line number (codes "ask") id.now (codes "pin" ∷ decimal pin ∷ codes "place" ∷ decimal place ∷ [])) }
        ensures kept { OnOk result ((k : ℕ) → get nat_cmp self.new.slots k ≡ cond (nat_eq number k) (Some (slot.Asked place)) (get nat_cmp self.old.slots k)) }
        ensures core { self.new.core ≡ self.old.core }
        ensures hands { self.new.hands ≡ self.old.hands }
        ensures client { self.new.client ≡ self.old.client }
    {
        push_ask_reply(&mut self.out, number, id, &AskReply::Asked { pin, place })?;
        keep(&mut self.slots, number, Slot::Asked { query: place })
    }

    /// Refuses an ask for which there was no memory.
    fn starve_ask(&mut self, number: u32, id: &Text) -> Result<LineRun, OutOfMemory>
        ensures on { IfOk result (λ r. r ≡ On) }
        ensures said { OnOk result (self.new.out.items ≡ self.old.out.items ++ reply_line number (codes "ask") id.now (refused_words (decimal 507))) }
        ensures kept { OnOk result ((k : ℕ) → get nat_cmp self.new.slots k ≡ cond (nat_eq number k) (Some slot.NoMemory) (get nat_cmp self.old.slots k)) }
        ensures core { self.new.core ≡ self.old.core }
        ensures hands { self.new.hands ≡ self.old.hands }
        ensures client { self.new.client ≡ self.old.client }
    {
        self.refuse_ask(number, id.as_str(), 507, Slot::NoMemory)?;
        Ok(LineRun::On)
    }

    /// Plans a query that was just asked, unless the script has step lines. Where there is no memory for that, the query is stopped.
    fn plan_asked(&mut self, query: u64)
        requires { IsSome (open_at query (machine_of self.old.core).queries) }
        ensures works { WorksOn 0 0 self.old.core self.new.core }
        ensures stands { Stands self.old.core → Stands self.new.core }
        ensures out { self.new.out ≡ self.old.out }
        ensures slots { self.new.slots ≡ self.old.slots }
        ensures hands { self.new.hands ≡ self.old.hands }
        ensures client { self.new.client ≡ self.old.client }
    {
        if !self.stepped {
            let _planned = plan(self.alloc, &mut self.core, query);
        }
    }

    /// Asks a query over its grid.
    fn ask_over(
        &mut self,
        number: u32,
        id: &Text,
        tenant: &Tenant,
        asked: Arc<Asked>,
    ) -> Result<LineRun, OutOfMemory>
        ensures runs { IfOk result (λ r. (known : Known) (line : script.Line) → AsksAs id.now tenant.now line → wanted_by known line ≡ Some (Ok (arc_value asked)) → AskRuns known self.old (record { number = number; line = line }) r self.new) }
        ensures grows { OnOk result (Grows 0 0 self.old.core self.new.core) }
        ensures hands { OnOk result (self.new.hands ≡ self.old.hands) }
        ensures client { OnOk result (self.new.client ≡ self.old.client) }
    {
        let name = id.as_str();
        let by = self.by(number);
        match self.core.ask(by, tenant, asked) {
            Ok(admitted) => {
                self.plan_asked(admitted.query);
                self.open_query(number, name, admitted.pin.number, admitted.query)?;
                Ok(LineRun::On)
            }
            Err(AskError::TooManyTenants) => {
                self.refuse_ask(number, name, 503, Slot::TooManyTenants)?;
                Ok(LineRun::On)
            }
            Err(
                AskError::Full {
                    outstanding: _outstanding,
                },
            ) => {
                self.refuse_ask(number, name, 429, Slot::Full)?;
                Ok(LineRun::On)
            }
            Err(AskError::JournalFull { .. }) => {
                push_ask_reply(&mut self.out, number, name, &AskReply::JournalFull)?;
                Ok(LineRun::Full)
            }
            Err(AskError::OutOfMemory) => self.starve_ask(number, id),
        }
    }

    /// Asks what was read of a query, over a grid or at one time.
    fn ask_read(
        &mut self,
        queries: &Queries,
        number: u32,
        id: &Text,
        tenant: &Tenant,
        query: &Text,
        when: When,
    ) -> Result<LineRun, OutOfMemory>
        requires right { AreReadAs queries.now }
        requires kept { IsTextKept queries.now query.now }
        requires lawful { IsWhen when }
        ensures runs { IfOk result (λ r. (known : Known) (line : script.Line) → AsksAs id.now tenant.now line → known.readings ≡ readings_in queries.now → wanted_by known line ≡ asked_with (is_instant when) (Ok (grid_in when)) (known.readings query.now) → AskRuns known self.old (record { number = number; line = line }) r self.new) }
        ensures grows { OnOk result (Grows 0 0 self.old.core self.new.core) }
        ensures hands { OnOk result (self.new.hands ≡ self.old.hands) }
        ensures client { OnOk result (self.new.client ≡ self.old.client) }
    {
        let Some(read) = read_of(queries, query.as_str()) else {
            return Ok(LineRun::On);
        };
        match &read.query {
            QueryRead::Lawful(query) => {
                match asked_over(self.alloc, query, when) {
                    Ok(asked) => self.ask_over(number, id, tenant, asked),
                    Err(OutOfMemory) => self.starve_ask(number, id),
                }
            }
            QueryRead::Refused(error) => {
                self.refuse_ask(number, id.as_str(), 400, Slot::BadQuery(*error))?;
                Ok(LineRun::On)
            }
        }
    }

    /// Runs an `ask`.
    #[tactic(auto, using(crate::proofs::FileReads::has_step))]
    pub fn ask(
        &mut self,
        queries: &Queries,
        number: u32,
        id: &Text,
        tenant: &Tenant,
        start: u64,
        end: u64,
        step: u64,
        query: &Text,
    ) -> Result<LineRun, OutOfMemory>
        requires right { AreReadAs queries.now }
        requires kept { IsTextKept queries.now query.now }
        ensures runs { IfOk result (λ r. (known : Known) → known.readings ≡ readings_in queries.now → AskRuns known self.old (record { number = number; line = script.ask id.now tenant.now start end step query.now }) r self.new) }
        ensures grows { OnOk result (Grows 0 0 self.old.core self.new.core) }
        ensures hands { OnOk result (self.new.hands ≡ self.old.hands) }
        ensures client { OnOk result (self.new.client ≡ self.old.client) }
    {
        match Grid::aligned(start, end, step) {
            Ok(grid) => self.ask_read(queries, number, id, tenant, query, When::Range(grid)),
            Err(error) => {
                self.refuse_ask(number, id.as_str(), 400, Slot::BadGrid(error))?;
                Ok(LineRun::On)
            }
        }
    }

    /// Runs an `instant`.
    pub fn instant(
        &mut self,
        queries: &Queries,
        number: u32,
        id: &Text,
        tenant: &Tenant,
        time: u64,
        query: &Text,
    ) -> Result<LineRun, OutOfMemory>
        requires right { AreReadAs queries.now }
        requires kept { IsTextKept queries.now query.now }
        ensures runs { IfOk result (λ r. (known : Known) → known.readings ≡ readings_in queries.now → AskRuns known self.old (record { number = number; line = script.instant id.now tenant.now time query.now }) r self.new) }
        ensures grows { OnOk result (Grows 0 0 self.old.core self.new.core) }
        ensures hands { OnOk result (self.new.hands ≡ self.old.hands) }
        ensures client { OnOk result (self.new.client ≡ self.old.client) }
    {
        match Grid::single(time) {
            Ok(grid) => self.ask_read(queries, number, id, tenant, query, When::Instant(grid)),
            Err(error) => {
                self.refuse_ask(number, id.as_str(), 400, Slot::BadGrid(error))?;
                Ok(LineRun::On)
            }
        }
    }

    /// Replies to the cancel of a query that another tenant asked.
    fn tell_owner(&mut self, number: u32, id: &Text, owner: u32) -> Result<(), OutOfMemory>
        ensures said { OnOk result ((name : List ℕ) → slice_get self.old.core.names owner ≡ Some name → self.new.out.items ≡ self.old.out.items ++ reply_line number (codes "cancel") id.now (codes "other" ∷ codes "tenant" ∷ name ∷ [])) }
        ensures core { self.new.core ≡ self.old.core }
        ensures slots { self.new.slots ≡ self.old.slots }
        ensures hands { self.new.hands ≡ self.old.hands }
        ensures client { self.new.client ≡ self.old.client }
    {
        let Some(name) = self.core.tenant_name(owner) else {
            return Ok(());
        };
        let name = name.as_str();
        let reply = CancelReply::OtherTenant { owner: name };
        push_cancel_reply(&mut self.out, number, id.as_str(), &reply)
    }

    /// Cancels the query that was asked at a place.
    fn cancel_query(
        &mut self,
        number: u32,
        id: &Text,
        query: u64,
        tenant: &Tenant,
    ) -> Result<(), OutOfMemory>
        ensures grows { OnOk result (Grows 0 0 self.old.core self.new.core) }
        ensures step { OnOk result ((known : Known) (above : List Ran) (hands : List Hand) (line : ℕ) → IsKnown known self.new.core → Each (λ e. e.client ≡ self.old.client) self.old.core.journal → IsAskAt known above (own_of self.old.client self.old.core) line query → IsStep known (naming (own_of self.old.client self.old.core) above hands (script.cancel id.now line tenant.now)) self.old (record { number = number; line = script.cancel id.now line tenant.now }) On self.new) }
        ensures slots { OnOk result (self.new.slots ≡ self.old.slots) }
        ensures hands { OnOk result (self.new.hands ≡ self.old.hands) }
        ensures client { OnOk result (self.new.client ≡ self.old.client) }
    {
        let name = id.as_str();
        let by = self.by(number);
        match self.core.cancel(by, query, tenant) {
            CancelAnswer::Done => {
                push_cancel_reply(&mut self.out, number, name, &CancelReply::Done)?;
                Ok(())
            }
            CancelAnswer::OtherTenant { owner } => {
                self.tell_owner(number, id, owner)?;
                Ok(())
            }
            CancelAnswer::Already { place } => {
                push_cancel_reply(&mut self.out, number, name, &CancelReply::Already { place })?;
                Ok(())
            }
            CancelAnswer::NotOutstanding => Ok(()),
        }
    }

    /// Runs the `cancel` of the ask of a line.
    pub fn cancel(
        &mut self,
        number: u32,
        id: &Text,
        asked: u32,
        tenant: &Tenant,
    ) -> Result<(), OutOfMemory>
        ensures grows { OnOk result (Grows 0 0 self.old.core self.new.core) }
        ensures step { OnOk result ((known : Known) (above : List Ran) (hands : List Hand) → IsKnown known self.new.core → Each (λ e. e.client ≡ self.old.client) self.old.core.journal → SlotRight known above (own_of self.old.client self.old.core) asked (get nat_cmp self.old.slots asked) → IsStep known (naming (own_of self.old.client self.old.core) above hands (script.cancel id.now asked tenant.now)) self.old (record { number = number; line = script.cancel id.now asked tenant.now }) On self.new) }
        ensures slots { OnOk result (self.new.slots ≡ self.old.slots) }
        ensures hands { OnOk result (self.new.hands ≡ self.old.hands) }
        ensures client { OnOk result (self.new.client ≡ self.old.client) }
    {
        match query_of(&self.slots, asked) {
            Some(query) => {
                self.cancel_query(number, id, query, tenant)?;
                Ok(())
            }
            None => {
                let reply = CancelReply::NotOutstanding;
                push_cancel_reply(&mut self.out, number, id.as_str(), &reply)?;
                Ok(())
            }
        }
    }

    /// Runs a line. The file that it names is let go, unless a line behind names it.
    pub fn run_line<H: Hop, G: Gate>(
        &mut self,
        loaded: &mut Loaded,
        line: &NumberedLine,
        hops: &mut [H],
        gate: &G,
    ) -> Result<LineRun, OutOfMemory>
        requires ready { IsReady loaded.old line.now }
        requires actors { length hops.old ≡ 32 }
        requires holds { HoldsJobs self.old }
        ensures holds { OnOk result (HoldsJobs self.new) }
        ensures client { OnOk result (self.new.client ≡ self.old.client) }
        ensures runs { IfOk result (λ r. GoesOnWith loaded.old self.old (numbered_of line.now) r self.new) }
        ensures grows { OnOk result (Grows (sum_by H.faults hops.old) (sum_by H.faults hops.new) self.old.core self.new.core) }
        ensures risen { sum_by H.faults hops.old ≤ sum_by H.faults hops.new }
        ensures most { map H.most hops.new ≡ map H.most hops.old }
        ensures counted { OnOk result (CountsNothing loaded.old self.old (numbered_of line.now) self.new) }
        ensures files { OnOk result (LetsGoOf loaded.old.files (file_of (numbered_of line.now).line) line.now.number loaded.new.files) }
        ensures queries { loaded.new.queries ≡ loaded.old.queries }
        ensures actors { length hops.new ≡ 32 }
    {
        let number = line.number;
        match &line.line {
            Line::Ingest { tenant, file, time } => {
                self.ingest(&mut loaded.files, number, tenant, file, *time)
            }
            Line::Delete {
                tenant,
                from,
                to,
                selector,
            } => self.delete(&loaded.queries, number, tenant, *from, *to, selector),
            Line::Ask {
                id,
                tenant,
                start,
                end,
                step,
                query,
            } => {
                let queries = &loaded.queries;
                self.ask(queries, number, id, tenant, *start, *end, *step, query)
            }
            Line::Instant {
                id,
                tenant,
                time,
                query,
            } => self.instant(&loaded.queries, number, id, tenant, *time, query),
            Line::Cancel { id, asked, tenant } => {
                self.cancel(number, id, *asked, tenant)?;
                Ok(LineRun::On)
            }
            Line::Answer { id, asked } => {
                self.answer(number, id, *asked, &mut hops[self.client as usize], gate)?;
                Ok(LineRun::On)
            }
            Line::Plan { id, asked } => {
                self.plan(number, id, *asked)?;
                Ok(LineRun::On)
            }
            Line::Keep { id, asked } => {
                self.keep(number, id, *asked)?;
                Ok(LineRun::On)
            }
            Line::Take { worker } => {
                self.take(number, *worker)?;
                Ok(LineRun::On)
            }
            Line::Done { worker } => {
                self.done(number, *worker, &mut hops[16 + *worker as usize], gate)?;
                Ok(LineRun::On)
            }
        }
    }
}
