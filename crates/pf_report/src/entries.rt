//! The journal's part of the report.

ghost use Rattle.std.specs.Prelude.{◌≡◌, ◌∷◌, ◌++◌, [], codes, decimal, map, OnOk, take, vec_len};
ghost use Rattle.pf_journal.specs.Replies.{line_text};
ghost use Rattle.pf_journal.specs.Report.{floor_text};
ghost use Rattle.pf_report.specs.Entries.{entry_line};
ghost use Rattle.pf_report.specs.Words.{word_text};

use crate::word::{Word, push_line, push_line_of};
use pf_base::{By, OutOfMemory};

/// What an entry of the journal says, with the names of tenants. A query is the place of its ask in the journal.
#[derive(Clone, Copy)]
pub enum EntryWords<'a> {
    Append {
        tenant: &'a str,
        entry: u64,
    },
    Delete {
        tenant: &'a str,
        generation: u64,
        entry: u64,
    },
    /// The floor is a time in milliseconds.
    Ask {
        tenant: &'a str,
        pin: u64,
        generation: u64,
        floor: Option<u64>,
    },
    Full {
        tenant: &'a str,
        outstanding: u32,
    },
    NoTenant {
        name: &'a str,
    },
    Cancel {
        query: u64,
    },
    Answer {
        query: u64,
        code: u16,
    },
}

/// Appends the first line of the journal's part of the report, which says how many entries there are.
pub fn push_journal_head(out: &mut Vec<u8>, entries: u64) -> Result<(), OutOfMemory>
    ensures ok { OnOk result (out.new.items ≡ out.old.items ++ line_text (codes "journal" ∷ decimal entries ∷ [])) }
    ensures kept { take (vec_len out.old) out.new.items ≡ out.old.items }
{
    push_line(out, &[Word::Text("journal"), Word::Number(entries)])
}

/// Appends the line of an entry with these words.
fn push_words(out: &mut Vec<u8>, place: u64, by: By, words: &[Word<'_>]) -> Result<(), OutOfMemory>
    ensures ok { OnOk result (out.new.items ≡ out.old.items
        ++ line_text (decimal place ∷ codes "client" ∷ decimal by.client ∷ codes "line" ∷ decimal by.line ∷ map word_text words.now)) }
    ensures kept { take (vec_len out.old) out.new.items ≡ out.old.items }
{
    let first = [
        Word::Number(place),
        Word::Text("client"),
        Word::Number(u64::from(by.client)),
        Word::Text("line"),
        Word::Number(u64::from(by.line)),
    ];
    push_line_of(out, &first, words)
}

fn floor_word(floor: Option<u64>) -> Word<'static>
    ensures { word_text result ≡ floor_text floor }
{
    match floor {
        Some(floor) => Word::Number(floor),
        None => Word::Text("none"),
    }
}

/// Appends the line of the journal's entry at this place, from 0.
pub fn push_entry(
    out: &mut Vec<u8>,
    place: u64,
    by: By,
    words: &EntryWords<'_>,
) -> Result<(), OutOfMemory>
    ensures ok { OnOk result (out.new.items ≡ out.old.items ++ entry_line place by.client by.line words.now) }
    ensures kept { take (vec_len out.old) out.new.items ≡ out.old.items }
{
    match *words {
        EntryWords::Append { tenant, entry } => push_words(
            out,
            place,
            by,
            &[
                Word::Text("append"),
                Word::Text(tenant),
                Word::Text("entry"),
                Word::Number(entry),
            ],
        ),
        EntryWords::Delete {
            tenant,
            generation,
            entry,
        } => push_words(
            out,
            place,
            by,
            &[
                Word::Text("delete"),
                Word::Text(tenant),
                Word::Text("entry"),
                Word::Number(entry),
                Word::Text("generation"),
                Word::Number(generation),
            ],
        ),
        EntryWords::Ask {
            tenant,
            pin,
            generation,
            floor,
        } => push_words(
            out,
            place,
            by,
            &[
                Word::Text("ask"),
                Word::Text(tenant),
                Word::Text("pin"),
                Word::Number(pin),
                Word::Text("generation"),
                Word::Number(generation),
                Word::Text("floor"),
                floor_word(floor),
            ],
        ),
        EntryWords::Full {
            tenant,
            outstanding,
        } => push_words(
            out,
            place,
            by,
            &[
                Word::Text("full"),
                Word::Text(tenant),
                Word::Text("outstanding"),
                Word::Number(u64::from(outstanding)),
            ],
        ),
        EntryWords::NoTenant { name } => push_words(
            out,
            place,
            by,
            &[Word::Text("tenants"), Word::Text("full"), Word::Text(name)],
        ),
        EntryWords::Cancel { query } => push_words(
            out,
            place,
            by,
            &[Word::Text("cancel"), Word::Number(query)],
        ),
        EntryWords::Answer { query, code } => push_words(
            out,
            place,
            by,
            &[
                Word::Text("answer"),
                Word::Number(query),
                Word::Number(u64::from(code)),
            ],
        ),
    }
}
