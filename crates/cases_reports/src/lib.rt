//! Rows of scripts that are read, and of the lines of reports.
#![tactic(auto)]

mod reports;
mod sessions;

use cases_rows::output::Output;
use cases_rows::setting::Setting;
use pf_base::Text;
use pf_script::{Line, NumberedLine, Script, ScriptError, read_script};

/// Writes what is found of a row of bytes, and says whether its form is one of these.
pub fn answer_bytes(out: &mut Output, form: &str, setting: &Setting, given: &[u8]) -> bool {
    match form {
        // `SCRIPT => LINES`, each with its number and what was read of it, behind `stepped` where the script is a stepped one;
        // or `refused N`. A part `step lines` above it allows these.
        "script" => script(out, setting, given),
        _ => return false,
    }
    true
}

/// Writes what is found of a row of text, and says whether its form is one of these.
pub fn answer(out: &mut Output, form: &str, given: &str) -> bool {
    match form {
        // `SEED => NAME LENGTH NUMBER FIRST_LINE; ..`, of each page that is generated, and then of the script. A text's number is
        // 31 times that of what is before its last byte, and the byte, modulo 2^32.
        "session" => sessions::answer(out, given),
        _ => return reports::answer(out, form, given),
    }
    true
}

/// Appends a word behind a blank.
fn push_word(out: &mut Output, word: &str) {
    out.text(" ");
    out.text(word);
}

/// Appends a number behind a blank.
fn push_number(out: &mut Output, number: u64) {
    out.text(" ");
    out.show(number);
}

/// Appends a verb, an ID and the number of the line that asked under it.
fn push_asked(out: &mut Output, verb: &str, id: &Text, asked: u32) {
    out.text(verb);
    push_word(out, id.as_str());
    push_number(out, u64::from(asked));
}

/// Appends what was read of a line.
fn push_read(out: &mut Output, line: &Line) {
    match line {
        Line::Ingest { tenant, file, time } => {
            out.text(" ingest");
            push_word(out, tenant.as_str());
            push_word(out, file.as_str());
            push_number(out, *time);
        }
        Line::Delete {
            tenant,
            from,
            to,
            selector,
        } => {
            out.text(" delete");
            push_word(out, tenant.as_str());
            push_number(out, *from);
            push_number(out, *to);
            push_word(out, selector.as_str());
        }
        Line::Ask {
            id,
            tenant,
            start,
            end,
            step,
            query,
        } => {
            out.text(" ask");
            push_word(out, id.as_str());
            push_word(out, tenant.as_str());
            push_number(out, *start);
            push_number(out, *end);
            push_number(out, *step);
            push_word(out, query.as_str());
        }
        Line::Instant {
            id,
            tenant,
            time,
            query,
        } => {
            out.text(" instant");
            push_word(out, id.as_str());
            push_word(out, tenant.as_str());
            push_number(out, *time);
            push_word(out, query.as_str());
        }
        Line::Cancel { id, asked, tenant } => {
            push_asked(out, " cancel", id, *asked);
            push_word(out, tenant.as_str());
        }
        Line::Answer { id, asked } => push_asked(out, " answer", id, *asked),
        Line::Plan { id, asked } => push_asked(out, " plan", id, *asked),
        Line::Keep { id, asked } => push_asked(out, " keep", id, *asked),
        Line::Take { worker } => {
            out.text(" take");
            push_number(out, u64::from(*worker));
        }
        Line::Done { worker } => {
            out.text(" done");
            push_number(out, u64::from(*worker));
        }
    }
}

fn push_lines(out: &mut Output, lines: &[NumberedLine]) {
    for line in lines {
        out.show(line.number);
        push_read(out, &line.line);
        out.text("; ");
    }
}

fn push_script(out: &mut Output, script: &Script) {
    if script.is_stepped() {
        out.text("stepped ");
    }
    push_lines(out, &script.lines);
}

fn script(out: &mut Output, setting: &Setting, given: &[u8]) {
    let stepped_allowed = setting.part("step").is_some();
    match &read_script(out.alloc(), given, stepped_allowed) {
        Ok(script) => push_script(out, script),
        Err(ScriptError::Line { line }) => {
            out.text("refused");
            push_number(out, u64::from(*line));
        }
        Err(ScriptError::OutOfMemory) => out.lose(),
    }
}
