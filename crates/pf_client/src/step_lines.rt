//! Step lines, by which a script shows the work on queries one job at a time.

ghost use Rattle.std.specs.BTreeMap.{get};
ghost use Rattle.std.specs.Ordering.{nat_cmp};
ghost use Rattle.std.specs.Prelude.{◌≡◌, ◌+◌, ◌≤◌, ◌++◌, ℕ, codes, decimal, length, slice_get, slice_set, ◌<◌, List, None, OnOk, Some};
ghost use Rattle.pf_core.specs.Cores.{Stands, machine_of};
ghost use Rattle.pf_front.specs.Works.{IsIdle, WorksOn};
ghost use Rattle.pf_journal.specs.Machine.{open_at};
ghost use Rattle.pf_journal.specs.Rest.{Known};
ghost use Rattle.pf_journal.specs.Scripts as script;
ghost use Rattle.pf_journal.specs.Steps.{keep_refused, plan_refused};
ghost use Rattle.pf_journal.specs.Turns.{Hand, Ran};
ghost use Rattle.pf_model.specs.Lists.{Each};
ghost use Rattle.pf_report.specs.Steps.{done_of, keep_of, plan_of, stop_of, take_text};
ghost use Rattle.pf_report.specs.declared.steps.TakeReply.TheVariants as take;
ghost use Rattle.pf_client.specs.Asks.{SlotRight};
ghost use Rattle.pf_client.specs.Clients.{Grows, IsKnown, IsStep, naming};
ghost use Rattle.pf_client.specs.Going.{AreAsked, own_of};
ghost use Rattle.pf_client.specs.Hands.{HaveHands, HoldsJobs, done_told, keep_told, stop_told, took_text};
ghost use Rattle.pf_client.specs.declared.client.LineRun.TheVariants.{On};

use crate::client::Client;
use crate::slots::query_of;
use pf_base::{OutOfMemory, Text};
use pf_front::{Keeping, Worked, keep, plan, work};
use pf_io::{Gate, Hop};
use pf_query::{Held, PlanError, Stop as QueryStop};
use pf_report::{
    DoneReply, KeepReply, PlanReply, Stop, TakeReply, push_done_reply, push_keep_reply,
    push_plan_reply, push_take_reply,
};
use std::mem;

/// Why a query was stopped, as it is told.
fn stop_reply(why: QueryStop) -> Stop
    ensures { stop_of result ≡ stop_told why }
{
    match why {
        QueryStop::Cancelled { place } => Stop::Cancelled { place },
        QueryStop::Exhausted { job } => Stop::Exhausted { job },
        QueryStop::Starved => Stop::Starved,
    }
}

/// What became of a job in hand, as it is told.
fn done_reply(worked: Worked) -> DoneReply
    ensures { done_of result ≡ done_told worked }
{
    match worked {
        Worked::Stored => DoneReply::Stored,
        Worked::Again { tries } => DoneReply::Again { tries },
        Worked::Exhausted { job } => DoneReply::Exhausted { job },
        Worked::Lacked => DoneReply::Lacked,
        Worked::Gone { why } => DoneReply::Gone(stop_reply(why)),
        Worked::NotHeld => DoneReply::NotHeld,
    }
}

/// What a `keep` came to, as it is told.
#[tactic(auto, using(crate::proofs::StepLines::never_refused))]
fn keep_reply(keeping: Keeping) -> KeepReply
    ensures told { keep_of result ≡ keep_told keeping }
    ensures asked { keep_of result ≡ keep_refused → ⊥ }
{
    match keeping {
        Keeping::Kept { steps } => KeepReply::Kept { steps },
        Keeping::Outdated { generation } => KeepReply::Outdated { generation },
        Keeping::NoMemory => KeepReply::Lacked,
        Keeping::Failed => KeepReply::Failed,
        Keeping::Waits { jobs } => KeepReply::Waits { jobs },
        Keeping::Stopped => KeepReply::Stopped,
        Keeping::Unplanned => KeepReply::Unplanned,
    }
}

impl Client {
    /// Plans a query that is open, and refuses another.
    fn plan_query(&mut self, query: u64) -> PlanReply
        ensures works { WorksOn 0 0 self.old.core self.new.core }
        ensures refused { plan_of result ≡ plan_refused → open_at query (machine_of self.old.core).queries ≡ None }
        ensures stands { Stands self.new.core }
        ensures out { self.new.out ≡ self.old.out }
        ensures slots { self.new.slots ≡ self.old.slots }
        ensures hands { self.new.hands ≡ self.old.hands }
        ensures client { self.new.client ≡ self.old.client }
    {
        let None = self.core.look(query) else {
            return match plan(self.alloc, &mut self.core, query) {
                Ok(planned) => PlanReply::Planned {
                    cached: planned.cached,
                    jobs: planned.jobs,
                },
                Err(PlanError::PlannedBefore) => PlanReply::PlannedBefore,
                Err(_) => PlanReply::Stopped,
            };
        };
        PlanReply::Refused
    }

    /// Runs the `plan` of the ask of a line. Where there is no memory for it, the query is stopped.
    pub fn plan(&mut self, number: u32, id: &Text, asked: u32) -> Result<(), OutOfMemory>
        ensures grows { OnOk result (Grows 0 0 self.old.core self.new.core) }
        ensures step { OnOk result ((known : Known) (above : List Ran) (hands : List Hand) → IsKnown known self.new.core → Each (λ e. e.client ≡ self.old.client) self.old.core.journal → SlotRight known above (own_of self.old.client self.old.core) asked (get nat_cmp self.old.slots asked) → (get nat_cmp self.old.slots asked ≡ None → ⊥) → IsStep known (naming (own_of self.old.client self.old.core) above hands (script.plan id.now asked)) self.old (record { number = number; line = script.plan id.now asked }) On self.new) }
        ensures slots { OnOk result (self.new.slots ≡ self.old.slots) }
        ensures hands { OnOk result (self.new.hands ≡ self.old.hands) }
        ensures client { OnOk result (self.new.client ≡ self.old.client) }
    {
        match query_of(&self.slots, asked) {
            Some(query) => {
                let reply = self.plan_query(query);
                push_plan_reply(&mut self.out, number, id.as_str(), &reply)
            }
            None => push_plan_reply(&mut self.out, number, id.as_str(), &PlanReply::Refused),
        }
    }

    /// Keeps the steps of a query that is open, and refuses another.
    fn keep_query(&mut self, query: u64) -> KeepReply
        ensures works { WorksOn 0 0 self.old.core self.new.core }
        ensures refused { keep_of result ≡ keep_refused → open_at query (machine_of self.old.core).queries ≡ None }
        ensures stands { Stands self.new.core }
        ensures out { self.new.out ≡ self.old.out }
        ensures slots { self.new.slots ≡ self.old.slots }
        ensures hands { self.new.hands ≡ self.old.hands }
        ensures client { self.new.client ≡ self.old.client }
    {
        let None = self.core.look(query) else {
            return keep_reply(keep(self.alloc, &mut self.core, query));
        };
        KeepReply::Refused
    }

    /// Runs the `keep` of the ask of a line. Where there is no memory to gather its query's steps, the query is stopped.
    pub fn keep(&mut self, number: u32, id: &Text, asked: u32) -> Result<(), OutOfMemory>
        ensures grows { OnOk result (Grows 0 0 self.old.core self.new.core) }
        ensures step { OnOk result ((known : Known) (above : List Ran) (hands : List Hand) → IsKnown known self.new.core → Each (λ e. e.client ≡ self.old.client) self.old.core.journal → SlotRight known above (own_of self.old.client self.old.core) asked (get nat_cmp self.old.slots asked) → (get nat_cmp self.old.slots asked ≡ None → ⊥) → IsStep known (naming (own_of self.old.client self.old.core) above hands (script.keep id.now asked)) self.old (record { number = number; line = script.keep id.now asked }) On self.new) }
        ensures slots { OnOk result (self.new.slots ≡ self.old.slots) }
        ensures hands { OnOk result (self.new.hands ≡ self.old.hands) }
        ensures client { OnOk result (self.new.client ≡ self.old.client) }
    {
        match query_of(&self.slots, asked) {
            Some(query) => {
                let reply = self.keep_query(query);
                push_keep_reply(&mut self.out, number, id.as_str(), &reply)
            }
            None => push_keep_reply(&mut self.out, number, id.as_str(), &KeepReply::Refused),
        }
    }

    /// Replies to a `take` that gave a job, and puts the job into its worker's hand.
    fn hold(&mut self, number: u32, worker: u32, held: Held) -> Result<(), OutOfMemory>
        requires worker { worker < length self.old.hands.items }
        ensures said { OnOk result ((name : List ℕ) → slice_get self.old.core.names held.head.tenant ≡ Some name → self.new.out.items ≡ self.old.out.items ++ took_text number worker name held.head) }
        ensures core { self.new.core ≡ self.old.core }
        ensures slots { self.new.slots ≡ self.old.slots }
        ensures hands { OnOk result ((name : List ℕ) → slice_get self.old.core.names held.head.tenant ≡ Some name → self.new.hands.items ≡ slice_set self.old.hands.items worker (Some held)) }
        ensures client { self.new.client ≡ self.old.client }
    {
        let head = held.head;
        self.hands[worker as usize] = Some(held);
        let Some(name) = self.core.tenant_name(head.tenant) else {
            return Ok(());
        };
        let tenant = name.as_str();
        let reply = TakeReply::Took {
            tenant,
            query: head.query,
            job: head.job,
            leg: head.leg,
            first: head.first,
            last: head.last,
        };
        push_take_reply(&mut self.out, number, worker, &reply)
    }

    /// Runs a `take`: the worker is the actor of its number and 16.
    pub fn take(&mut self, number: u32, worker: u32) -> Result<(), OutOfMemory>
        requires worker { worker ≤ 15 }
        requires holds { HoldsJobs self.old }
        ensures holds { OnOk result (HoldsJobs self.new) }
        ensures grows { OnOk result (Grows 0 0 self.old.core self.new.core) }
        ensures step { OnOk result ((known : Known) (above : List Ran) (hands : List Hand) → IsKnown known self.new.core → Each (λ e. e.client ≡ self.old.client) self.old.core.journal → AreAsked self.old.client known above self.old.core → HaveHands self.old hands → IsStep known (naming (own_of self.old.client self.old.core) above hands (script.take worker)) self.old (record { number = number; line = script.take worker }) On self.new) }
        ensures slots { OnOk result (self.new.slots ≡ self.old.slots) }
        ensures client { OnOk result (self.new.client ≡ self.old.client) }
    {
        if self.hands[worker as usize].is_some() {
            return push_take_reply(&mut self.out, number, worker, &TakeReply::Busy);
        }
        match self.core.take(16 + worker) {
            Some(held) => self.hold(number, worker, held),
            None => push_take_reply(&mut self.out, number, worker, &TakeReply::NoneWaits),
        }
    }

    /// Runs a `done`: the job is done past the hop of its worker.
    pub fn done<H: Hop, G: Gate>(
        &mut self,
        number: u32,
        worker: u32,
        hop: &mut H,
        gate: &G,
    ) -> Result<(), OutOfMemory>
        requires worker { worker ≤ 15 }
        requires holds { HoldsJobs self.old }
        ensures holds { OnOk result (HoldsJobs self.new) }
        ensures grows { OnOk result (Grows (H.faults hop.old) (H.faults hop.new) self.old.core self.new.core) }
        ensures risen { H.faults hop.old ≤ H.faults hop.new }
        ensures most { H.most hop.new ≡ H.most hop.old }
        ensures step { OnOk result ((known : Known) (above : List Ran) (hands : List Hand) → IsKnown known self.new.core → HaveHands self.old hands → IsStep known (naming (own_of self.old.client self.old.core) above hands (script.done worker)) self.old (record { number = number; line = script.done worker }) On self.new) }
        ensures slots { OnOk result (self.new.slots ≡ self.old.slots) }
        ensures client { OnOk result (self.new.client ≡ self.old.client) }
    {
        let Some(held) = mem::replace(&mut self.hands[worker as usize], None) else {
            return push_done_reply(&mut self.out, number, worker, &DoneReply::Empty);
        };
        let worked = work(self.alloc, &mut self.core, held, hop, gate);
        push_done_reply(&mut self.out, number, worker, &done_reply(worked))
    }
}
