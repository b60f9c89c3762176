//! The journal's part of the report.

ghost use Rattle.std.specs.Prelude.{◌≡◌, ◌≢◌, ◌++◌, Err, OnErr, OnOk, map};
ghost use Rattle.pf_journal.specs.Report.{entries_from, entry_text, journal_text, name_of, what_words};
ghost use Rattle.pf_core.specs.Entries.{entry_of, what_of};
ghost use Rattle.pf_report.specs.Entries.{entry_words};
ghost use Rattle.pf_io.specs.Outside.{Rose};
ghost use Rattle.pf_client.specs.Sent.{WritesFront, WritesTo};
ghost use Rattle.pf_client.specs.declared.pieces.ReportError.{ReportError};

use crate::pieces::{ReportError, hand_on};
use pf_base::{OutOfMemory, Tenant};
use pf_core::{Core, Entry, What};
use pf_io::Sink;
use pf_report::{EntryWords, push_entry, push_journal_head};

/// The name of a tenant's number.
fn name_of(names: &[Tenant], tenant: u32) -> &str
    ensures { result.now ≡ name_of names.now tenant }
{
    match names.get(tenant as usize) {
        Some(name) => name.as_str(),
        None => "",
    }
}

/// What the line of an entry says.
fn words_of<'a>(names: &'a [Tenant], what: &'a What) -> EntryWords<'a>
    ensures { entry_words result ≡ what_words names.now (what_of what.now) }
{
    match what {
        What::Append {
            tenant,
            verdicts,
            ..
        } => EntryWords::Append {
            tenant: name_of(names, *tenant),
            entry: verdicts.entry,
        },
        What::Delete {
            tenant,
            deleted,
            ..
        } => EntryWords::Delete {
            tenant: name_of(names, *tenant),
            generation: deleted.generation,
            entry: deleted.entry,
        },
        What::Ask {
            tenant,
            pin,
            generation,
            floor,
            ..
        } => EntryWords::Ask {
            tenant: name_of(names, *tenant),
            pin: *pin,
            generation: *generation,
            floor: *floor,
        },
        What::Full {
            tenant,
            outstanding,
        } => EntryWords::Full {
            tenant: name_of(names, *tenant),
            outstanding: *outstanding,
        },
        What::NoTenant { name } => EntryWords::NoTenant {
            name: name.as_str(),
        },
        What::Cancel { query } => EntryWords::Cancel { query: *query },
        What::Answer { query, code, .. } => EntryWords::Answer {
            query: *query,
            code: *code,
        },
    }
}

/// Appends the line of an entry.
fn push_one(
    out: &mut Vec<u8>,
    names: &[Tenant],
    place: u64,
    entry: &Entry,
) -> Result<(), OutOfMemory>
    ensures { OnOk result (out.new.items ≡ out.old.items ++ entry_text names.now place (entry_of entry.now)) }
{
    let words = words_of(names, &entry.what);
    push_entry(out, place, entry.by, &words)
}

/// Adds the lines of entries, the first of which stands at place 0, to what is held, and writes it in pieces.
fn write_entries<O: Sink>(
    held: &mut Vec<u8>,
    names: &[Tenant],
    entries: &[Entry],
    out: &mut O,
) -> Result<(), ReportError>
    ensures written { OnOk result (WritesTo (O.told out.old) (O.told out.new) (held.old.items ++ entries_from names.now 0 (map entry_of entries.now)) held.new.items) }
    ensures begun { OnErr result (WritesFront (O.told out.old) (O.told out.new) (held.old.items ++ entries_from names.now 0 (map entry_of entries.now))) }
    ensures fault { result ≡ Err ReportError.WriteFault → Rose (O.faults out.old) (O.faults out.new) }
    ensures steady { result ≢ Err ReportError.WriteFault → O.faults out.new ≡ O.faults out.old }
{
    let mut place = 0;
    for entry in entries {
        push_one(held, names, place, entry)?;
        hand_on(held, out)?;
        place += 1;
    }
    Ok(())
}

/// Adds the journal's part of the report to what is held, and writes it in pieces.
pub(crate) fn write_journal<O: Sink>(
    held: &mut Vec<u8>,
    core: &Core,
    out: &mut O,
) -> Result<(), ReportError>
    ensures written { OnOk result (WritesTo (O.told out.old) (O.told out.new) (held.old.items ++ journal_text core.now.names core.now.journal) held.new.items) }
    ensures begun { OnErr result (WritesFront (O.told out.old) (O.told out.new) (held.old.items ++ journal_text core.now.names core.now.journal)) }
    ensures fault { result ≡ Err ReportError.WriteFault → Rose (O.faults out.old) (O.faults out.new) }
    ensures steady { result ≢ Err ReportError.WriteFault → O.faults out.new ≡ O.faults out.old }
{
    let entries = core.journal();
    push_journal_head(held, entries.len() as u64)?;
    write_entries(held, core.names(), entries, out)
}
