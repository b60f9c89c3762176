//! A text that is written piece by piece, and the first trouble that was met on the way.
//!
//! Nothing that is asked of it fails: what writes it goes on with 0 or with nothing in place of what is missing. Whoever wants
//! the text is told the trouble instead.

use pf_base::{OutOfMemory, Text, Value, push_value};
use std::alloc::Global;
use std::fmt;
use std::fmt::{Display, Write};
use std::str::FromStr;

/// Why a row has no answer.
#[derive(Clone, Copy)]
pub enum Trouble {
    /// What is given is not of the row's form.
    NotOfForm,
    OutOfMemory,
}

/// A text as far as it is written, and the first trouble.
#[derive(Drop)]
pub struct Output {
    bytes: Vec<u8>,
    trouble: Option<Trouble>,
}

impl Write for Output {
    fn write_str(&mut self, text: &str) -> fmt::Result {
        self.text(text);
        Ok(())
    }
}

impl Output {
    pub fn new(alloc: Global) -> Output {
        Output {
            bytes: Vec::new(alloc),
            trouble: None,
        }
    }

    pub fn alloc(&self) -> Global {
        *self.bytes.allocator()
    }

    pub fn is_empty(&self) -> bool {
        self.bytes.is_empty()
    }

    /// What is written so far.
    pub fn as_slice(&self) -> &[u8] {
        self.bytes.as_slice()
    }

    /// The first trouble that was met.
    pub fn trouble(&self) -> Option<Trouble> {
        self.trouble
    }

    /// The whole text, where no trouble was met.
    pub fn finish(self) -> Result<Vec<u8>, Trouble> {
        match self.trouble {
            None => Ok(self.bytes),
            Some(trouble) => Err(trouble),
        }
    }

    /// Notes a trouble, where it is the first one.
    pub fn meet(&mut self, trouble: Trouble) {
        if self.trouble.is_none() {
            self.trouble = Some(trouble);
        }
    }

    /// Notes that what is given is not of the row's form.
    pub fn refuse(&mut self) {
        self.meet(Trouble::NotOfForm);
    }

    /// Notes that memory ran out.
    pub fn lose(&mut self) {
        self.meet(Trouble::OutOfMemory);
    }

    pub fn bytes(&mut self, bytes: &[u8]) {
        if self.bytes.extend_from_slice(bytes).is_err() {
            self.lose();
        }
    }

    pub fn text(&mut self, text: &str) {
        self.bytes(text.as_bytes());
    }

    /// Appends what a value displays.
    pub fn show<D: Display + Drop>(&mut self, value: D) {
        if self.write(value).is_err() {
            self.lose();
        }
    }

    /// Appends a value as it stands in reports.
    pub fn value(&mut self, value: Value) {
        if push_value(&mut self.bytes, value).is_err() {
            self.lose();
        }
    }

    /// Appends a text that memory may have been wanting for.
    pub fn made(&mut self, made: &Result<Text, OutOfMemory>) {
        match made {
            Ok(text) => self.text(text.as_str()),
            Err(_) => self.lose(),
        }
    }

    /// Appends another text, and notes its trouble.
    pub fn append(&mut self, other: &Output) {
        self.bytes(other.as_slice());
        self.share(other);
    }

    /// Notes the trouble of another text.
    pub fn share(&mut self, other: &Output) {
        if let Some(trouble) = other.trouble {
            self.meet(trouble);
        }
    }

    /// Forgets what is written, and not the trouble.
    pub fn clear(&mut self) {
        self.bytes.clear();
    }

    /// What was made, or a note that memory ran out.
    pub fn or_lose<T: Drop, E: Drop>(&mut self, made: Result<T, E>) -> Option<T> {
        match made {
            Ok(value) => Some(value),
            Err(_) => {
                self.lose();
                None
            }
        }
    }

    /// What was made, or a note that what is given is not of the row's form.
    pub fn or_refuse<T: Drop, E: Drop>(&mut self, made: Result<T, E>) -> Option<T> {
        match made {
            Ok(value) => Some(value),
            Err(_) => {
                self.refuse();
                None
            }
        }
    }

    /// Adds an item to a list.
    pub fn push<T: Drop>(&mut self, list: &mut Vec<T>, item: T) {
        if list.push(item).is_err() {
            self.lose();
        }
    }

    /// Adds what was made to a list.
    pub fn add<T: Drop, E: Drop>(&mut self, list: &mut Vec<T>, made: Result<T, E>) {
        if let Some(item) = self.or_lose(made) {
            self.push(list, item);
        }
    }

    /// The number that a text is, or a note that it is none.
    pub fn number<N: FromStr + Default + Drop>(&mut self, text: &str) -> N
    where
        <N as FromStr>::Err: Drop,
    {
        match text.parse::<N>() {
            Ok(number) => number,
            Err(_) => {
                self.refuse();
                N::default()
            }
        }
    }

    /// The text of bytes, or a note that they are none.
    pub fn utf8<'b>(&mut self, bytes: &'b [u8]) -> &'b str {
        match std::str::from_utf8(bytes) {
            Ok(text) => text,
            Err(_) => {
                self.refuse();
                ""
            }
        }
    }
}

/// What stands before the next blank, and what is behind it.
pub fn cut(text: &str) -> (&str, &str) {
    text.split_once(' ').unwrap_or((text, ""))
}
