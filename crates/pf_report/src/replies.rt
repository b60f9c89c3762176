//! The replies to the lines of a script.

ghost use Rattle.std.specs.Prelude.{◌≡◌, ◌++◌, map, OnOk, take, vec_len};
ghost use Rattle.pf_journal.specs.Replies.{journal_words, memory_words, reply_line, tenants_words};
ghost use Rattle.pf_report.specs.Words.{word_text};

use crate::word::{Word, push_line_of};
use pf_base::OutOfMemory;

/// Appends the reply to the line of this number: its verb, whom or what it names, and further words.
pub fn push_reply<'a>(
    out: &mut Vec<u8>,
    number: u32,
    verb: &'a str,
    name: &'a str,
    words: &[Word<'_>],
) -> Result<(), OutOfMemory>
    ensures ok { OnOk result (out.new.items ≡ out.old.items ++ reply_line number verb.now name.now (map word_text words.now)) }
    ensures kept { take (vec_len out.old) out.new.items ≡ out.old.items }
{
    let first = [
        Word::Number(u64::from(number)),
        Word::Text(verb),
        Word::Text(name),
    ];
    push_line_of(out, &first, words)
}

/// Appends the reply to a line for which the journal has no room.
pub fn push_journal_full<'a>(
    out: &mut Vec<u8>,
    number: u32,
    verb: &'a str,
    name: &'a str,
) -> Result<(), OutOfMemory>
    ensures ok { OnOk result (out.new.items ≡ out.old.items ++ reply_line number verb.now name.now journal_words) }
    ensures kept { take (vec_len out.old) out.new.items ≡ out.old.items }
{
    let words = [Word::Text("journal"), Word::Text("full")];
    push_reply(out, number, verb, name, &words)
}

/// Appends the reply to a line for which there is no memory.
pub fn push_no_memory<'a>(
    out: &mut Vec<u8>,
    number: u32,
    verb: &'a str,
    name: &'a str,
) -> Result<(), OutOfMemory>
    ensures ok { OnOk result (out.new.items ≡ out.old.items ++ reply_line number verb.now name.now memory_words) }
    ensures kept { take (vec_len out.old) out.new.items ≡ out.old.items }
{
    let words = [Word::Text("out"), Word::Text("of"), Word::Text("memory")];
    push_reply(out, number, verb, name, &words)
}

/// Appends the reply to a line that names a tenant too many.
pub fn push_too_many_tenants<'a>(
    out: &mut Vec<u8>,
    number: u32,
    verb: &'a str,
    name: &'a str,
) -> Result<(), OutOfMemory>
    ensures ok { OnOk result (out.new.items ≡ out.old.items ++ reply_line number verb.now name.now tenants_words) }
    ensures kept { take (vec_len out.old) out.new.items ≡ out.old.items }
{
    let words = [Word::Text("too"), Word::Text("many"), Word::Text("tenants")];
    push_reply(out, number, verb, name, &words)
}
