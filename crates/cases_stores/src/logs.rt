//! Rows of logs.

ghost use Rattle.std.specs.Prelude.{◌≡◌};
ghost use Rattle.pf_block.specs.Snaps.{are_timed};

use crate::files::batch_of;
use crate::matchers::matchers_of;
use cases_rows::base::labels_of;
use cases_rows::output::{Output, cut};
use cases_rows::setting::{Part, Setting};
use pf_base::{Batch, Labels, MAXT, OutOfMemory, Row};
use pf_block::Snap;
use pf_store::{Deleted, Pin, TenantLog, Verdict, Verdicts};

/// Whether a log may take these rows.
fn are_timed(rows: &[Row]) -> bool
    ensures { result ≡ are_timed rows.now }
{
    rows.iter().all(|row| row.time <= MAXT)
}

/// Appends a batch to a log.
pub fn append(out: &mut Output, log: &mut TenantLog, batch: &Batch) -> Option<Verdicts> {
    if !are_timed(&batch.rows) {
        out.refuse();
        return None;
    }
    out.or_lose(log.append(batch))
}

fn push_verdict(out: &mut Output, verdict: Verdict) {
    match verdict {
        Verdict::Taken => out.text("taken"),
        Verdict::Repeated => out.text("repeated"),
        Verdict::TooOld { floor } => {
            out.text("below ");
            out.show(floor);
        }
        Verdict::Differs { held } => {
            out.text("differs from ");
            out.show(held.micros());
        }
    }
}

/// Appends the verdicts on a batch, and the number of entries.
fn push_verdicts(out: &mut Output, verdicts: &Verdicts) {
    for verdict in &verdicts.list {
        push_verdict(out, *verdict);
        out.text(", ");
    }
    out.text("entry ");
    out.show(verdicts.entry);
}

/// Appends what a call of `delete` answers.
fn push_deleted(out: &mut Output, deleted: &Result<Deleted, OutOfMemory>) {
    match deleted {
        Ok(deleted) => {
            out.text("generation ");
            out.show(deleted.generation);
            out.text(", entry ");
            out.show(deleted.entry);
        }
        Err(_) => out.lose(),
    }
}

/// Makes the call `delete FROM TO SELECTOR`, and appends what it answers.
fn delete(out: &mut Output, log: &mut TenantLog, words: &str) {
    let (from, rest) = cut(words);
    let (to, selector) = cut(rest);
    let from = out.number::<u64>(from);
    let to = out.number::<u64>(to);
    match &matchers_of(out, selector) {
        Some(matchers) if from <= to => push_deleted(out, &log.delete(matchers, from, to)),
        _ => out.refuse(),
    }
}

/// A pin with its name.
fn named_pin(name: &String, log: &TenantLog) -> Result<(String, Pin), OutOfMemory> {
    Ok((name.clone()?, log.pin()?))
}

/// A log, what its last call answered, and the pins that were taken.
#[derive(Drop)]
struct Played {
    log: TenantLog,
    answer: Output,
    pins: Vec<(String, Pin)>,
}

impl Played {
    fn append(&mut self, setting: &Setting, file: &[u8]) {
        self.answer.clear();
        if let Some(batch) = &batch_of(&mut self.answer, setting, file) {
            if let Some(verdicts) = &append(&mut self.answer, &mut self.log, batch) {
                push_verdicts(&mut self.answer, verdicts);
            }
        }
    }

    fn delete(&mut self, words: &str) {
        self.answer.clear();
        delete(&mut self.answer, &mut self.log, words);
    }

    fn pin(&mut self, name: &String) {
        self.answer.add(&mut self.pins, named_pin(name, &self.log));
    }

    /// Makes the call that a part tells.
    fn play(&mut self, setting: &Setting, part: &Part) {
        match part.key.as_str() {
            "append" => self.append(setting, &part.text),
            "delete" => self.delete(part.words.as_str()),
            "pin" => self.pin(&part.words),
            _ => {}
        }
    }

    /// The pin of this name.
    fn pinned(&self, name: &str) -> Option<&Pin> {
        for (known, pin) in &self.pins {
            if known.as_str() == name {
                return Some(pin);
            }
        }
        None
    }

    /// Tells the last answer, or what is asked of a pin.
    fn tell(&self, out: &mut Output, given: &str) {
        let (verb, rest) = cut(given);
        if verb == "answer" {
            return out.bytes(self.answer.as_slice());
        }
        let (name, words) = cut(rest);
        match self.pinned(name) {
            Some(pin) => call(out, pin, verb, words),
            None => out.refuse(),
        }
    }
}

/// Makes the calls that the parts tell, in their order.
fn play(out: &mut Output, setting: &Setting) -> Option<Played> {
    let window = setting.number(out, "window", MAXT);
    let mut played = Played {
        log: out.or_lose(TenantLog::open(out.alloc(), window))?,
        answer: Output::new(out.alloc()),
        pins: Vec::new(out.alloc()),
    };
    for part in &setting.parts {
        played.play(setting, part);
    }
    out.share(&played.answer);
    Some(played)
}

/// Appends how a pin stands: the number of its entries, its floor and its generation.
fn push_standing(out: &mut Output, pin: &Pin) {
    out.text("entry ");
    out.show(pin.number);
    let floor = pin.floor;
    out.show(format_args!(", floor {floor:?}, generation "));
    out.show(pin.generation);
}

/// Appends the value of a label set at a time, in millionths, or `none`.
fn push_held(out: &mut Output, snap: &Snap, labels: &Labels, time: u64) {
    let held = match snap.find(labels) {
        Some(id) if id < snap.series_count() => snap.held(id, time),
        _ => None,
    };
    match held {
        Some(value) => out.show(value.micros()),
        None => out.text("none"),
    }
}

/// Appends the value of a pin at `LABELS TIME`, in millionths.
fn held(out: &mut Output, pin: &Pin, words: &str) {
    let (list, time) = cut(words);
    let time = out.number(time);
    if let Some(labels) = &labels_of(out, list) {
        push_held(out, &pin.snap, labels, time);
    }
}

fn call(out: &mut Output, pin: &Pin, verb: &str, words: &str) {
    match verb {
        "pin" => push_standing(out, pin),
        "held" => held(out, pin, words),
        _ => out.refuse(),
    }
}

/// Answers `answer` by what the last call answered, `pin NAME` by how this pin stands, and `held NAME LABELS TIME` by the
/// value that it has.
pub fn log(out: &mut Output, setting: &Setting, given: &str) {
    if let Some(played) = &play(out, setting) {
        played.tell(out, given);
    }
}
