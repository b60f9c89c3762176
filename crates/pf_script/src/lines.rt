//! Lines of a script, one function for each verb.

ghost use Rattle.std.specs.Prelude.{◌≡◌, ℕ, ◌&&◌, ◌∷◌, ◌≤◌, IfOk, IfSome, List, OnOk, option_map};
ghost use Rattle.std.specs.List.{list_all};
ghost use Rattle.std.specs.Str.{is_utf8};
ghost use Rattle.pf_base.specs.LabelSets.{goes_on};
ghost use Rattle.pf_base.specs.Limits.{greatest_time};
ghost use Rattle.pf_base.specs.Tenants.{is_tenant};
ghost use Rattle.pf_model.specs.Cuts.{only_if};
ghost use Rattle.pf_journal.specs.Scripts.{answer_of, ask_of, cancel_of, delete_of, done_of, ingest, ingest_of, ingest_with, instant_of, is_id, is_new, is_passed, issued_after, issued_at, keep_of, line_of, line_with, only_word, plan_of, step_with, take_of, worker_of};
ghost use Rattle.pf_script.specs.Cuts.{Finds};
ghost use Rattle.pf_script.specs.IdLists.{Alike, IsIdle, issued_in};
ghost use Rattle.pf_script.specs.LineCuts.{ask_in, ask_with, ask_words, delete_in, delete_with, delete_words, instant_in, instant_with, instant_words, issued_with, read_of};
ghost use Rattle.pf_script.specs.Lines.{IsReadLine, ReadsLine};
ghost use Rattle.pf_script.specs.Lines as read;

use crate::fault::LineError;
use crate::ids::Ids;
use crate::script::Line;
use crate::words::{behind_word, is_word, next_word, number_of, text_of};
use pf_base::{MAXT, Tenant, TenantError, Text};
use std::alloc::Global;

/// The first number that is no worker's.
const WORKERS: u64 = 16;

/// The words of a `delete`.
#[derive(Clone, Copy)]
struct DeleteCut<'a> {
    tenant: &'a str,
    from: u64,
    to: u64,
    selector: &'a str,
}

/// The words of an `ask`.
#[derive(Clone, Copy)]
struct AskCut<'a> {
    id: &'a str,
    tenant: &'a str,
    start: u64,
    end: u64,
    step: u64,
    query: &'a str,
}

/// The words of an `instant`.
#[derive(Clone, Copy)]
struct InstantCut<'a> {
    id: &'a str,
    tenant: &'a str,
    time: u64,
    query: &'a str,
}

/// What is owned of a line that asks under an ID.
#[derive(Drop)]
struct Asking {
    id: Text,
    tenant: Tenant,
    query: Text,
}

fn tenant_of(alloc: Global, name: &str) -> Result<Tenant, LineError>
    ensures { ReadsLine (λ t. t) result (only_if (is_tenant name.now) name.now) }
{
    match Tenant::read(alloc, name) {
        Ok(tenant) => Ok(tenant),
        Err(TenantError::BadTenant) => Err(LineError::Refused),
        Err(TenantError::OutOfMemory) => Err(LineError::OutOfMemory),
    }
}

fn may_stand_in_id(byte: u8) -> bool
    ensures { result ≡ goes_on byte }
{
    byte.is_ascii_alphanumeric() || byte == b'_'
}

fn all_may_stand_in_id(bytes: &[u8]) -> bool
    ensures { result ≡ list_all goes_on bytes.now }
{
    bytes.iter().all(|byte| may_stand_in_id(*byte))
}

fn is_id(text: &str) -> bool
    ensures { result ≡ is_id text.now }
{
    !text.is_empty() && text.len() <= 32 && all_may_stand_in_id(text.as_bytes())
}

/// Whether a text is an ID that no line issued.
fn is_new_id(ids: &Ids, id: &str) -> bool
    ensures { result ≡ (is_id id.now && is_new id.now (issued_in ids.now)) }
{
    is_id(id) && ids.is_new(id.as_bytes())
}

/// The file and the time of `FILE`, whose time is 0, or of `FILE at MS`.
#[tactic(auto, using(crate::proofs::LineTexts::text_tests), unfolding(pf_journal::specs::Scripts::ingest_at, pf_journal::specs::Scripts::file_at))]
fn timed_file(words: &str) -> Option<(&str, u64)>
    ensures exact { (tenant : List ℕ) → Finds (λ f. ingest tenant f.0.now f.1) result (ingest_with tenant words.now (only_word words.now)) }
    ensures time { IfSome result (λ f. f.1 ≤ greatest_time) }
{
    if is_word(words) {
        return Some((words, 0));
    }
    let (file, behind) = next_word(words)?;
    let time = number_of(behind_word("at", behind)?.as_bytes())?;
    if time <= MAXT {
        Some((file, time))
    } else {
        None
    }
}

/// `ingest TENANT FILE`, or `ingest TENANT FILE at MS`.
#[tactic(auto, unfolding(pf_journal::specs::Scripts::ingest_of))]
fn ingest_of(alloc: Global, words: &str) -> Result<Line, LineError>
    ensures exact { ReadsLine read.line_of result (ingest_of words.now) }
    ensures read { IfOk result IsReadLine }
    ensures idle { IfOk result (λ l. IsIdle (read.line_of l)) }
{
    let Some((tenant, named)) = next_word(words) else {
        return Err(LineError::Refused)
    };
    let tenant = tenant_of(alloc, tenant)?;
    let Some((file, time)) = timed_file(named) else {
        return Err(LineError::Refused)
    };
    Ok(Line::Ingest {
        tenant,
        file: Text::of(alloc, file)?,
        time,
    })
}

#[tactic(auto, unfolding(crate::specs::LineCuts::delete_words))]
fn delete_cut(words: &str) -> Option<DeleteCut<'_>>
    ensures { Finds delete_in result (delete_words words.now) }
{
    let (tenant, behind) = next_word(words)?;
    let (from, behind) = next_word(behind)?;
    let (to, behind) = next_word(behind)?;
    Some(DeleteCut {
        tenant,
        from: number_of(from.as_bytes())?,
        to: number_of(to.as_bytes())?,
        selector: text_of(behind)?,
    })
}

fn delete_line(alloc: Global, words: &DeleteCut) -> Result<Line, LineError>
    ensures exact { ReadsLine read.line_of result (delete_with (delete_in words.now)) }
    ensures read { IfOk result IsReadLine }
    ensures idle { IfOk result (λ l. IsIdle (read.line_of l)) }
{
    Ok(Line::Delete {
        tenant: tenant_of(alloc, words.tenant)?,
        from: words.from,
        to: words.to,
        selector: Text::of(alloc, words.selector)?,
    })
}

/// `delete TENANT FROM TO SELECTOR`.
fn delete_of(alloc: Global, words: &str) -> Result<Line, LineError>
    ensures exact { ReadsLine read.line_of result (delete_of words.now) }
    ensures read { IfOk result IsReadLine }
    ensures idle { IfOk result (λ l. IsIdle (read.line_of l)) }
{
    match delete_cut(words) {
        Some(words) => delete_line(alloc, &words),
        None => Err(LineError::Refused),
    }
}

#[tactic(auto, unfolding(crate::specs::LineCuts::ask_words))]
fn ask_cut(words: &str) -> Option<AskCut<'_>>
    ensures { Finds ask_in result (ask_words words.now) }
{
    let (id, behind) = next_word(words)?;
    let (tenant, behind) = next_word(behind)?;
    let (start, behind) = next_word(behind)?;
    let (end, behind) = next_word(behind)?;
    let (step, behind) = next_word(behind)?;
    Some(AskCut {
        id,
        tenant,
        start: number_of(start.as_bytes())?,
        end: number_of(end.as_bytes())?,
        step: number_of(step.as_bytes())?,
        query: text_of(behind)?,
    })
}

/// What is owned of a line that asks under an ID, which is issued if it is new.
fn asking_of<'a>(
    alloc: Global,
    ids: &mut Ids<'a>,
    number: u32,
    id: &'a str,
    tenant: &str,
    query: &str,
) -> Result<Asking, LineError>
    ensures exact { ReadsLine (λ a. a) result (only_if (is_id id.now && is_new id.now (issued_in ids.old) && is_tenant tenant.now) (record { id = id.now; tenant = tenant.now; query = query.now })) }
    ensures issued { OnOk result (Alike (issued_at id.now number ∷ issued_in ids.old) (issued_in ids.new)) }
{
    if !is_new_id(ids, id) {
        return Err(LineError::Refused);
    }
    ids.issue(id.as_bytes(), number)?;
    Ok(Asking {
        tenant: tenant_of(alloc, tenant)?,
        id: Text::of(alloc, id)?,
        query: Text::of(alloc, query)?,
    })
}

fn ask_line<'a>(
    alloc: Global,
    ids: &mut Ids<'a>,
    number: u32,
    words: &AskCut<'a>,
) -> Result<Line, LineError>
    ensures exact { ReadsLine read.line_of result (ask_with (issued_in ids.old) (ask_in words.now)) }
    ensures read { IfOk result IsReadLine }
    ensures issued { IfOk result (λ l. Alike (issued_after number (read.line_of l) (issued_in ids.old)) (issued_in ids.new)) }
{
    let asking = asking_of(alloc, ids, number, words.id, words.tenant, words.query)?;
    Ok(Line::Ask {
        id: asking.id,
        tenant: asking.tenant,
        start: words.start,
        end: words.end,
        step: words.step,
        query: asking.query,
    })
}

/// `ask ID TENANT START END STEP QUERY`, with an ID that is new.
fn ask_of<'a>(
    alloc: Global,
    ids: &mut Ids<'a>,
    number: u32,
    words: &'a str,
) -> Result<Line, LineError>
    ensures exact { ReadsLine read.line_of result (ask_of (issued_in ids.old) words.now) }
    ensures read { IfOk result IsReadLine }
    ensures issued { IfOk result (λ l. Alike (issued_after number (read.line_of l) (issued_in ids.old)) (issued_in ids.new)) }
{
    match ask_cut(words) {
        Some(words) => ask_line(alloc, ids, number, &words),
        None => Err(LineError::Refused),
    }
}

#[tactic(auto, unfolding(crate::specs::LineCuts::instant_words))]
fn instant_cut(words: &str) -> Option<InstantCut<'_>>
    ensures { Finds instant_in result (instant_words words.now) }
{
    let (id, behind) = next_word(words)?;
    let (tenant, behind) = next_word(behind)?;
    let (time, behind) = next_word(behind)?;
    Some(InstantCut {
        id,
        tenant,
        time: number_of(time.as_bytes())?,
        query: text_of(behind)?,
    })
}

fn instant_line<'a>(
    alloc: Global,
    ids: &mut Ids<'a>,
    number: u32,
    words: &InstantCut<'a>,
) -> Result<Line, LineError>
    ensures exact { ReadsLine read.line_of result (instant_with (issued_in ids.old) (instant_in words.now)) }
    ensures read { IfOk result IsReadLine }
    ensures issued { IfOk result (λ l. Alike (issued_after number (read.line_of l) (issued_in ids.old)) (issued_in ids.new)) }
{
    let asking = asking_of(alloc, ids, number, words.id, words.tenant, words.query)?;
    Ok(Line::Instant {
        id: asking.id,
        tenant: asking.tenant,
        time: words.time,
        query: asking.query,
    })
}

/// `instant ID TENANT TIME QUERY`, with an ID that is new.
fn instant_of<'a>(
    alloc: Global,
    ids: &mut Ids<'a>,
    number: u32,
    words: &'a str,
) -> Result<Line, LineError>
    ensures exact { ReadsLine read.line_of result (instant_of (issued_in ids.old) words.now) }
    ensures read { IfOk result IsReadLine }
    ensures issued { IfOk result (λ l. Alike (issued_after number (read.line_of l) (issued_in ids.old)) (issued_in ids.new)) }
{
    match instant_cut(words) {
        Some(words) => instant_line(alloc, ids, number, &words),
        None => Err(LineError::Refused),
    }
}

/// `cancel ID TENANT`, with an ID that was asked.
#[tactic(auto, unfolding(pf_journal::specs::Scripts::cancel_of))]
fn cancel_of(alloc: Global, ids: &Ids, words: &str) -> Result<Line, LineError>
    ensures exact { ReadsLine read.line_of result (cancel_of (issued_in ids.now) words.now) }
    ensures read { IfOk result IsReadLine }
    ensures idle { IfOk result (λ l. IsIdle (read.line_of l)) }
{
    let Some((id, tenant)) = next_word(words) else {
        return Err(LineError::Refused)
    };
    if !is_word(tenant) {
        return Err(LineError::Refused);
    }
    let Some(found) = ids.find(id.as_bytes()) else {
        return Err(LineError::Refused)
    };
    Ok(Line::Cancel {
        tenant: tenant_of(alloc, tenant)?,
        id: Text::of(alloc, id)?,
        asked: found.line,
    })
}

/// `answer ID`, with an ID that was asked and not answered.
#[tactic(auto, unfolding(pf_journal::specs::Scripts::answer_of, pf_journal::specs::Scripts::unanswered_of))]
fn answer_of(alloc: Global, ids: &mut Ids, words: &str) -> Result<Line, LineError>
    ensures exact { ReadsLine read.line_of result (answer_of (issued_in ids.old) words.now) }
    ensures read { IfOk result IsReadLine }
    ensures issued { IfOk result (λ l. (n : ℕ) → Alike (issued_after n (read.line_of l) (issued_in ids.old)) (issued_in ids.new)) }
{
    if !is_word(words) {
        return Err(LineError::Refused);
    }
    let Some(found) = ids.answer(words.as_bytes()) else {
        return Err(LineError::Refused)
    };
    Ok(Line::Answer {
        id: Text::of(alloc, words)?,
        asked: found.line,
    })
}

/// `plan ID`, with an ID that was asked and not answered.
#[tactic(auto, unfolding(pf_journal::specs::Scripts::plan_of, pf_journal::specs::Scripts::unanswered_of))]
fn plan_of(alloc: Global, ids: &Ids, words: &str) -> Result<Line, LineError>
    ensures exact { ReadsLine read.line_of result (plan_of (issued_in ids.now) words.now) }
    ensures read { IfOk result IsReadLine }
    ensures idle { IfOk result (λ l. IsIdle (read.line_of l)) }
{
    if !is_word(words) {
        return Err(LineError::Refused);
    }
    let Some(found) = ids.find_unanswered(words.as_bytes()) else {
        return Err(LineError::Refused)
    };
    Ok(Line::Plan {
        id: Text::of(alloc, words)?,
        asked: found.line,
    })
}

/// `keep ID`, with an ID that was asked, and neither answered nor kept.
#[tactic(auto, unfolding(pf_journal::specs::Scripts::keep_of, pf_journal::specs::Scripts::unanswered_of))]
fn keep_of(alloc: Global, ids: &mut Ids, words: &str) -> Result<Line, LineError>
    ensures exact { ReadsLine read.line_of result (keep_of (issued_in ids.old) words.now) }
    ensures read { IfOk result IsReadLine }
    ensures issued { IfOk result (λ l. (n : ℕ) → Alike (issued_after n (read.line_of l) (issued_in ids.old)) (issued_in ids.new)) }
{
    if !is_word(words) {
        return Err(LineError::Refused);
    }
    let Some(found) = ids.keep(words.as_bytes()) else {
        return Err(LineError::Refused)
    };
    Ok(Line::Keep {
        id: Text::of(alloc, words)?,
        asked: found.line,
    })
}

/// The worker of `take W` and `done W`, which is below 16.
#[tactic(auto, unfolding(pf_journal::specs::Scripts::worker_of))]
fn worker_of(words: &str) -> Option<u32>
    ensures exact { result ≡ worker_of words.now }
    ensures few { IfSome result (λ w. w ≤ 15) }
{
    if !is_word(words) {
        return None;
    }
    let worker = number_of(words.as_bytes())?;
    if worker < WORKERS {
        Some(worker as u32)
    } else {
        None
    }
}

/// `take W`.
#[tactic(auto, unfolding(pf_journal::specs::Scripts::take_of))]
fn take_of(words: &str) -> Result<Line, LineError>
    ensures exact { ReadsLine read.line_of result (take_of words.now) }
    ensures read { IfOk result IsReadLine }
    ensures idle { IfOk result (λ l. IsIdle (read.line_of l)) }
{
    match worker_of(words) {
        Some(worker) => Ok(Line::Take { worker }),
        None => Err(LineError::Refused),
    }
}

/// `done W`.
#[tactic(auto, unfolding(pf_journal::specs::Scripts::done_of))]
fn done_of(words: &str) -> Result<Line, LineError>
    ensures exact { ReadsLine read.line_of result (done_of words.now) }
    ensures read { IfOk result IsReadLine }
    ensures idle { IfOk result (λ l. IsIdle (read.line_of l)) }
{
    match worker_of(words) {
        Some(worker) => Ok(Line::Done { worker }),
        None => Err(LineError::Refused),
    }
}

/// The step line of a verb and what stands behind it.
fn step_with(alloc: Global, ids: &mut Ids, verb: &str, words: &str) -> Result<Line, LineError>
    ensures exact { ReadsLine read.line_of result (step_with (issued_in ids.old) verb.now words.now) }
    ensures read { IfOk result IsReadLine }
    ensures issued { IfOk result (λ l. (n : ℕ) → Alike (issued_after n (read.line_of l) (issued_in ids.old)) (issued_in ids.new)) }
{
    if verb == "plan" {
        plan_of(alloc, ids, words)
    } else if verb == "keep" {
        keep_of(alloc, ids, words)
    } else if verb == "take" {
        take_of(words)
    } else if verb == "done" {
        done_of(words)
    } else {
        Err(LineError::Refused)
    }
}

/// The line of a verb and what stands behind it.
fn line_with<'a>(
    alloc: Global,
    ids: &mut Ids<'a>,
    steps: bool,
    number: u32,
    verb: &str,
    words: &'a str,
) -> Result<Line, LineError>
    ensures exact { ReadsLine read.line_of result (line_with steps (issued_in ids.old) verb.now words.now) }
    ensures read { IfOk result IsReadLine }
    ensures issued { IfOk result (λ l. Alike (issued_after number (read.line_of l) (issued_in ids.old)) (issued_in ids.new)) }
{
    if verb == "ingest" {
        ingest_of(alloc, words)
    } else if verb == "delete" {
        delete_of(alloc, words)
    } else if verb == "ask" {
        ask_of(alloc, ids, number, words)
    } else if verb == "instant" {
        instant_of(alloc, ids, number, words)
    } else if verb == "cancel" {
        cancel_of(alloc, ids, words)
    } else if verb == "answer" {
        answer_of(alloc, ids, words)
    } else if steps {
        step_with(alloc, ids, verb, words)
    } else {
        Err(LineError::Refused)
    }
}

/// Whether bytes are a text.
#[tactic(auto, using(crate::proofs::LineTexts::text_tests))]
fn is_text(bytes: &[u8]) -> bool
    ensures { result ≡ is_utf8 bytes.now }
{
    std::str::from_utf8(bytes).is_ok()
}

#[tactic(auto, using(crate::proofs::LineTexts::text_tests), unfolding(pf_journal::specs::Scripts::line_of))]
fn line_of<'a>(
    alloc: Global,
    ids: &mut Ids<'a>,
    steps: bool,
    number: u32,
    bytes: &'a [u8],
) -> Result<Line, LineError>
    ensures exact { ReadsLine read.line_of result (line_of steps (issued_in ids.old) bytes.now) }
    ensures read { IfOk result IsReadLine }
    ensures issued { IfOk result (λ l. Alike (issued_after number (read.line_of l) (issued_in ids.old)) (issued_in ids.new)) }
{
    let Ok(text) = std::str::from_utf8(bytes) else {
        return Err(LineError::Refused)
    };
    match next_word(text) {
        Some((verb, words)) => line_with(alloc, ids, steps, number, verb, words),
        None => Err(LineError::Refused),
    }
}

/// Whether a line is empty or a comment.
fn is_passed(bytes: &[u8]) -> bool
    ensures { result ≡ is_passed bytes.now }
{
    match bytes.split_first() {
        Some((first, _)) => *first == b'#' && is_text(bytes),
        None => true,
    }
}

/// What is read of a line with a number: nothing of an empty line or a comment.
pub fn read_line<'a>(
    alloc: Global,
    ids: &mut Ids<'a>,
    steps: bool,
    number: u32,
    bytes: &'a [u8],
) -> Result<Option<Line>, LineError>
    ensures exact { ReadsLine (option_map read.line_of) result (read_of steps (issued_in ids.old) bytes.now) }
    ensures read { IfOk result (λ o. IfSome o IsReadLine) }
    ensures issued { IfOk result (λ o. Alike (issued_with number (option_map read.line_of o) (issued_in ids.old)) (issued_in ids.new)) }
{
    if is_passed(bytes) {
        return Ok(None);
    }
    Ok(Some(line_of(alloc, ids, steps, number, bytes)?))
}
