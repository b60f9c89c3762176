//! Answers.

ghost use Rattle.std.specs.BTreeMap.{get};
ghost use Rattle.std.specs.Ordering.{nat_cmp};
ghost use Rattle.std.specs.Prelude.{◌≡◌, ◌<◌, ◌≤◌, ◌++◌, ℕ, decimal, IfOk, List, None, OnOk, Some, is_some};
ghost use Rattle.pf_front.specs.Works.{IsIdle};
ghost use Rattle.pf_journal.specs.Replies.{unanswered};
ghost use Rattle.pf_journal.specs.Rest.{Known};
ghost use Rattle.pf_journal.specs.Scripts as script;
ghost use Rattle.pf_journal.specs.Turns.{Hand, Ran};
ghost use Rattle.pf_model.specs.Lists.{Each};
ghost use Rattle.pf_report.specs.Bodies.{code_in, text_of_body};
ghost use Rattle.pf_client.specs.Asks.{IsAnswerStep, IsAskAt, IsQueryAnswer, IsRefusedBody, IsUnanswered, SlotRight, outcome_body};
ghost use Rattle.pf_client.specs.Clients.{Grows, IsKnown, IsStep, naming};
ghost use Rattle.pf_client.specs.Going.{own_of};
ghost use Rattle.pf_client.specs.Hands.{HaveHands};
ghost use Rattle.pf_client.specs.Tallies.{counted, with_answered};
ghost use Rattle.pf_client.specs.declared.client.LineRun.TheVariants.{On};
ghost use Rattle.pf_client.specs.declared.slots.Slot.TheVariants as became;

use crate::client::Client;
use crate::slots::{Slot, forget, kept};
use pf_asked::Asked;
use pf_base::{OutOfMemory, Text};
use pf_front::{Answering, Outcome, Reply, answer};
use pf_io::{Gate, Hop};
use pf_model::Kind;
use pf_report::{Body, push_answered, push_waiting};
use pf_types::{error_text, grid_text};
use std::alloc::Global;

/// The answer of a query: how many of its steps were cached and evaluated, and its body.
#[derive(Drop)]
pub struct Answered {
    pub cached: u32,
    pub evaluated: u32,
    pub body: Body,
}

/// The body of an answer, by whether it is of an instant query and by its kind.
fn body_of(outcome: Outcome, instant: bool, kind: Kind) -> Body
    ensures { result ≡ outcome_body instant kind outcome }
{
    match outcome {
        Outcome::Matrix(matrix) => Body::of(instant, kind, matrix),
        Outcome::Failed { step, kind } => Body::Failed { step, kind },
        Outcome::Cancelled => Body::Cancelled,
        Outcome::Exhausted { job } => Body::JobFailed { job },
        Outcome::Starved => Body::OutOfMemory,
    }
}

/// The body of the answer of an ask that was refused, and `full` for a query that was opened.
fn refused_body(alloc: Global, slot: Slot) -> Result<Body, OutOfMemory>
    ensures { IfOk result (IsRefusedBody slot) }
{
    match slot {
        Slot::Asked { .. } | Slot::Full => Ok(Body::Full),
        Slot::BadGrid(error) => Ok(Body::Refused(grid_text(alloc, error)?)),
        Slot::BadQuery(error) => Ok(Body::Refused(error_text(alloc, &error)?)),
        Slot::TooManyTenants => Ok(Body::TooManyTenants),
        Slot::NoMemory => Ok(Body::OutOfMemory),
    }
}

impl Client {
    /// Answers an open query, or tells how many of its jobs are in workers' hands.
    fn answer_query<H: Hop, G: Gate>(
        &mut self,
        number: u32,
        id: &Text,
        query: u64,
        hop: &mut H,
        gate: &G,
    ) -> Result<Option<Answered>, OutOfMemory>
        requires below { self.old.client < 16 }
        requires idle { IsIdle self.old.core self.old.client }
        ensures grows { OnOk result (Grows (H.faults hop.old) (H.faults hop.new) self.old.core self.new.core) }
        ensures risen { H.faults hop.old ≤ H.faults hop.new }
        ensures most { H.most hop.new ≡ H.most hop.old }
        ensures step { IfOk result (λ answered. (known : Known) (above : List Ran) (hands : List Hand) (line : ℕ) → IsKnown known self.new.core → Each (λ e. e.client ≡ self.old.client) self.old.core.journal → IsAskAt known above (own_of self.old.client self.old.core) line query → HaveHands self.old hands → IsQueryAnswer known (naming (own_of self.old.client self.old.core) above hands (script.answer id.now line)) self.old (record { number = number; line = script.answer id.now line }) query (is_some answered) self.new) }
        ensures counted { IfOk result (λ answered. counted self.new.core ≡ with_answered (counted self.old.core) answered) }
        ensures slots { OnOk result (self.new.slots ≡ self.old.slots) }
        ensures hands { OnOk result (self.new.hands ≡ self.old.hands) }
        ensures client { OnOk result (self.new.client ≡ self.old.client) }
    {
        let Some(opened) = self.core.look(query) else {
            return Ok(None);
        };
        let asked: &Asked = opened.asked;
        let instant = asked.instant;
        let kind = asked.kind;
        let by = self.by(number);
        let actor = self.client;
        match answer(self.alloc, &mut self.core, by, query, actor, hop, gate) {
            Answering::Waits { jobs } => {
                push_waiting(&mut self.out, number, id.as_str(), jobs)?;
                Ok(None)
            }
            Answering::Answered(reply) => {
                let Reply {
                    code,
                    cached,
                    evaluated,
                    outcome,
                } = reply;
                let body = body_of(outcome, instant, kind);
                let name = id.as_str();
                push_answered(
                    self.alloc,
                    &mut self.out,
                    number,
                    name,
                    code,
                    cached,
                    evaluated,
                    &body,
                )?;
                Ok(Some(Answered {
                    cached,
                    evaluated,
                    body,
                }))
            }
        }
    }

    /// Appends an answer without steps.
    fn push_unanswered(&mut self, number: u32, id: &Text, body: &Body) -> Result<(), OutOfMemory>
        ensures said { OnOk result (self.new.out.items ≡ self.old.out.items ++ unanswered number id.now (decimal (code_in body.now)) (text_of_body body.now)) }
        ensures core { self.new.core ≡ self.old.core }
        ensures slots { self.new.slots ≡ self.old.slots }
        ensures hands { self.new.hands ≡ self.old.hands }
        ensures client { self.new.client ≡ self.old.client }
    {
        push_answered(
            self.alloc,
            &mut self.out,
            number,
            id.as_str(),
            body.code(),
            0,
            0,
            body,
        )
    }

    /// Replies to the answer of an ask that was refused.
    fn answer_refused(&mut self, number: u32, id: &Text, slot: Slot) -> Result<(), OutOfMemory>
        ensures step { OnOk result ((known : Known) (above : List Ran) (hands : List Hand) (line : ℕ) → SlotRight known above (own_of self.old.client self.old.core) line (Some slot) → ((q : ℕ) → slot ≡ became.Asked q → ⊥) → IsUnanswered known (naming (own_of self.old.client self.old.core) above hands (script.answer id.now line)) self.old (record { number = number; line = script.answer id.now line }) self.new) }
        ensures core { self.new.core ≡ self.old.core }
        ensures slots { self.new.slots ≡ self.old.slots }
        ensures hands { self.new.hands ≡ self.old.hands }
        ensures client { self.new.client ≡ self.old.client }
    {
        match refused_body(self.alloc, slot) {
            Ok(body) => self.push_unanswered(number, id, &body),
            Err(OutOfMemory) => self.push_unanswered(number, id, &Body::OutOfMemory),
        }
    }

    /// Runs the `answer` of the ask of a line: the answer of its query, if that was given.
    pub fn answer<H: Hop, G: Gate>(
        &mut self,
        number: u32,
        id: &Text,
        asked: u32,
        hop: &mut H,
        gate: &G,
    ) -> Result<Option<Answered>, OutOfMemory>
        requires below { self.old.client < 16 }
        requires idle { IsIdle self.old.core self.old.client }
        ensures grows { OnOk result (Grows (H.faults hop.old) (H.faults hop.new) self.old.core self.new.core) }
        ensures risen { H.faults hop.old ≤ H.faults hop.new }
        ensures most { H.most hop.new ≡ H.most hop.old }
        ensures step { OnOk result ((known : Known) (above : List Ran) (hands : List Hand) → IsKnown known self.new.core → Each (λ e. e.client ≡ self.old.client) self.old.core.journal → SlotRight known above (own_of self.old.client self.old.core) asked (get nat_cmp self.old.slots asked) → (get nat_cmp self.old.slots asked ≡ None → ⊥) → HaveHands self.old hands → IsAnswerStep known (naming (own_of self.old.client self.old.core) above hands (script.answer id.now asked)) self.old (record { number = number; line = script.answer id.now asked }) asked self.new) }
        ensures counted { IfOk result (λ answered. counted self.new.core ≡ with_answered (counted self.old.core) answered) }
        ensures hands { OnOk result (self.new.hands ≡ self.old.hands) }
        ensures client { OnOk result (self.new.client ≡ self.old.client) }
    {
        let Some(slot) = kept(&self.slots, asked) else {
            return Ok(None);
        };
        if let Slot::Asked { query } = slot {
            let Some(answered) = self.answer_query(number, id, query, hop, gate)? else {
                return Ok(None);
            };
            forget(&mut self.slots, asked);
            return Ok(Some(answered));
        }
        self.answer_refused(number, id, slot)?;
        forget(&mut self.slots, asked);
        Ok(None)
    }
}
