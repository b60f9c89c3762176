//! The reader of scripts.

ghost use Rattle.std.specs.Prelude.{◌≡◌, [], Err, IfOk, None, OnOk};
ghost use Rattle.pf_model.specs.Lists.{Each};
ghost use Rattle.pf_journal.specs.Scripts.{script_of};
ghost use Rattle.pf_script.specs.IdLists.{issued_in};
ghost use Rattle.pf_script.specs.LineCuts.{Adds, read_of};
ghost use Rattle.pf_script.specs.Lines.{AllFollow, IsRead, Reads, lines_of};
ghost use Rattle.pf_script.specs.declared.fault.LineError.TheVariants.{Refused};

use crate::fault::{LineError, ScriptError};
use crate::ids::Ids;
use crate::lines::read_line;
use crate::script::{NumberedLine, Script};
use pf_model::next_line;
use std::alloc::Global;

/// The greatest length of a script, in bytes.
const MOST_BYTES: usize = 67_108_864;

/// Adds what is read of a line.
fn add_line<'a>(
    alloc: Global,
    lines: &mut Vec<NumberedLine>,
    ids: &mut Ids<'a>,
    steps: bool,
    number: u32,
    text: &'a [u8],
) -> Result<(), LineError>
    ensures ok { OnOk result (Adds steps number text.now (issued_in ids.old) (issued_in ids.new) lines.old.items lines.new.items) }
    ensures err { result ≡ Err Refused → read_of steps (issued_in ids.old) text.now ≡ None }
{
    let Some(line) = read_line(alloc, ids, steps, number, text)? else {
        return Ok(())
    };
    lines.push(NumberedLine { number, line })?;
    Ok(())
}

/// The lines of a script: `ingest TENANT FILE`, `ingest TENANT FILE at MS`, `delete TENANT FROM TO SELECTOR`, `ask ID TENANT
/// START END STEP QUERY`, `instant ID TENANT TIME QUERY`, `cancel ID TENANT`, `answer ID`, and where step lines are allowed
/// `plan ID`, `keep ID`, `take W` and `done W`, with empty lines and comments between them. An `ask` and an `instant` give a
/// new ID. A query or a selector is any text that is not empty, without the blanks at its end; it is not read here.
///
/// A script with any other line is refused with the number of the first; one of more than 67,108,864 bytes with 0.
pub fn read_script(
    alloc: Global,
    bytes: &[u8],
    stepped_allowed: bool,
) -> Result<Script, ScriptError>
    ensures read { Reads lines_of result (script_of stepped_allowed bytes.now) }
    ensures forms { IfOk result (λ s. Each IsRead s.lines.items) }
    ensures following { IfOk result (λ s. AllFollow [] (lines_of s)) }
{
    if bytes.len() > MOST_BYTES {
        return Err(ScriptError::Line { line: 0 });
    }
    let mut ids = Ids::new(alloc);
    let mut lines = Vec::new(alloc);
    let mut number: u32 = 0;
    let mut rest = bytes;
    while let Some((text, behind)) = next_line(rest) {
        number += 1;
        if let Err(error) = add_line(alloc, &mut lines, &mut ids, stepped_allowed, number, text) {
            return Err(error.at(number));
        }
        rest = behind;
    }
    Ok(Script { lines })
}
