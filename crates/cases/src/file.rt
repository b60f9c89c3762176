//! The reader of a file of cases.
//!
//! A file has one form of rows, which its line `form NAME` tells above them. A row is `GIVEN => WANTED`. What is longer
//! stands in parts: a line `KEY` or `KEY WORDS`, and below it the lines of its text behind `| `, each ended by a line feed,
//! or behind `: ` without one. The rows below parts are answered over them, until a line `case TITLE` begins anew. A part
//! `gives WORDS` is a row whose given text is the case's title; it wants its words, a line feed and its text. Empty lines
//! and lines that begin with `#` are passed over.

use crate::forms::answer;
use cases_rows::escapes::{push_shown, push_unescaped};
use cases_rows::output::{Output, Trouble};
use cases_rows::setting::Setting;
use std::alloc::Global;

/// A row that waits for the lines of what it wants.
#[derive(Drop)]
struct Waiting {
    line: u32,
    wanted: Vec<u8>,
}

/// A file of cases as far as it is read, and what is printed of it.
#[derive(Drop)]
pub struct Reader<'a> {
    rt: HostRuntime,
    name: &'a str,
    form: &'a str,
    title: &'a str,
    setting: Setting,
    waiting: Option<Waiting>,
    rows: u32,
    wrong: u32,
    out: Output,
}

/// The bytes that a text stands for, with an end behind them.
fn unescaped(alloc: Global, text: &str, end: &str) -> Result<Vec<u8>, Trouble> {
    let mut out = Output::new(alloc);
    push_unescaped(&mut out, text);
    out.text(end);
    out.finish()
}

impl<'a> Reader<'a> {
    fn new(rt: HostRuntime, name: &'a str) -> Reader<'a> {
        let alloc = rt.alloc();
        Reader {
            rt,
            name,
            form: "",
            title: "",
            setting: Setting::new(alloc),
            waiting: None,
            rows: 0,
            wrong: 0,
            out: Output::new(alloc),
        }
    }

    /// Begins to tell what is wrong with a line.
    fn begin_wrong(&mut self, line: u32) {
        self.wrong = self.wrong.saturating_add(1);
        self.out.text(self.name);
        self.out.text(":");
        self.out.show(line);
        self.out.text(": ");
    }

    /// Says that a line is not of the form.
    fn refuse(&mut self, line: u32, text: &str) {
        self.begin_wrong(line);
        self.out.text("not of the form: ");
        self.out.text(text);
        self.out.text("\n");
    }

    /// Says that another text was found than is wanted.
    fn differ(&mut self, line: u32, wanted: &[u8], found: &[u8]) {
        self.begin_wrong(line);
        self.out.text("wanted ");
        push_shown(&mut self.out, wanted);
        self.out.text(", found ");
        push_shown(&mut self.out, found);
        self.out.text("\n");
    }

    /// Says why a line was not read.
    fn note(&mut self, line: u32, text: &str, read: Result<(), Trouble>) {
        match read {
            Ok(()) => {}
            Err(Trouble::NotOfForm) => self.refuse(line, text),
            Err(Trouble::OutOfMemory) => self.out.lose(),
        }
    }

    /// Compares what is found of a row with what is wanted.
    fn compare(&mut self, line: u32, wanted: &[u8], found: &Output) -> Result<(), Trouble> {
        if let Some(trouble) = found.trouble() {
            return Err(trouble);
        }
        if found.as_slice() != wanted {
            self.differ(line, wanted, found.as_slice());
        }
        Ok(())
    }

    /// Answers a row, and says what is wrong.
    fn judge(&mut self, line: u32, given: &[u8], wanted: &[u8]) -> Result<(), Trouble> {
        self.rows = self.rows.saturating_add(1);
        let mut found = Output::new(self.rt.alloc());
        answer(&mut found, self.rt, self.form, &self.setting, given);
        self.compare(line, wanted, &found)
    }

    /// Answers the row that waits, whose wanted text is read.
    fn settle(&mut self) {
        if let Some(waiting) = &self.waiting.take() {
            let judged = self.judge(waiting.line, self.title.as_bytes(), &waiting.wanted);
            self.note(waiting.line, "gives", judged);
        }
    }

    /// Adds a line of a text.
    fn extend(&mut self, bytes: &[u8]) -> Result<(), Trouble> {
        match &mut self.waiting {
            Some(waiting) => waiting
                .wanted
                .extend_from_slice(bytes)
                .or(Err(Trouble::OutOfMemory)),
            None => self.setting.extend(bytes),
        }
    }

    fn read_text(&mut self, text: &str, end: &str) -> Result<(), Trouble> {
        let bytes = unescaped(self.rt.alloc(), text, end)?;
        self.extend(&bytes)
    }

    fn read_row(&mut self, line: u32, given: &str, wanted: &str) -> Result<(), Trouble> {
        let given = unescaped(self.rt.alloc(), given, "")?;
        let wanted = unescaped(self.rt.alloc(), wanted, "")?;
        self.judge(line, &given, &wanted)
    }

    fn read_gives(&mut self, line: u32, words: &str) -> Result<(), Trouble> {
        let wanted = unescaped(self.rt.alloc(), words, "\n")?;
        self.waiting = Some(Waiting { line, wanted });
        Ok(())
    }

    fn read_case(&mut self, title: &'a str) -> Result<(), Trouble> {
        self.title = title;
        self.setting = Setting::new(self.rt.alloc());
        Ok(())
    }

    /// Reads a line that is no text of a part.
    fn read_head(&mut self, line: u32, text: &'a str) -> Result<(), Trouble> {
        if text.is_empty() || text.starts_with('#') {
            return Ok(());
        }
        if let Some(name) = text.strip_prefix("form ") {
            self.form = name;
            return Ok(());
        }
        if let Some(title) = text.strip_prefix("case ") {
            return self.read_case(title);
        }
        if let Some(words) = text.strip_prefix("gives ") {
            return self.read_gives(line, words);
        }
        match text.split_once(" => ") {
            Some((given, wanted)) => self.read_row(line, given, wanted),
            None => self.setting.add(self.rt.alloc(), text),
        }
    }

    fn read_line(&mut self, line: u32, text: &'a str) -> Result<(), Trouble> {
        if let Some(text) = text.strip_prefix("| ") {
            return self.read_text(text, "\n");
        }
        if text == "|" {
            return self.read_text("", "\n");
        }
        if let Some(text) = text.strip_prefix(": ") {
            return self.read_text(text, "");
        }
        self.settle();
        self.read_head(line, text)
    }

    /// Reads all lines, and says which are no lines of a case file.
    fn read_lines(&mut self, text: &'a str) {
        let mut line = 0u32;
        for row in text.split('\n') {
            line = line.saturating_add(1);
            let read = self.read_line(line, row);
            self.note(line, row, read);
            if self.out.trouble().is_some() {
                return;
            }
        }
        self.settle();
    }

    /// Tells how many rows hold, and whether all do. A file without rows doesn't hold.
    fn sum_up(&mut self) -> bool {
        if self.rows == 0 {
            self.wrong = self.wrong.saturating_add(1);
        }
        self.out.text(self.name);
        self.out.text(": ");
        if self.wrong > 0 {
            self.out.show(self.wrong);
            self.out.text(" of ");
            self.out.show(self.rows);
            self.out.text(" rows do not hold\n");
            return false;
        }
        self.out.show(self.rows);
        self.out.text(" rows hold\n");
        true
    }
}

/// Answers all rows of a file, appends what is printed of it, and says whether all of them hold.
pub fn judge_file(
    out: &mut Output,
    rt: HostRuntime,
    name: &str,
    bytes: &[u8],
) -> Result<bool, Trouble> {
    let text = std::str::from_utf8(bytes).or(Err(Trouble::NotOfForm))?;
    let mut reader = Reader::new(rt, name);
    reader.read_lines(text);
    let all_hold = reader.sum_up();
    match reader.out.trouble() {
        Some(trouble) => Err(trouble),
        None => {
            out.bytes(reader.out.as_slice());
            Ok(all_hold)
        }
    }
}
