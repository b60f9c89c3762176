//! What the rows of a file are answered over.

use crate::escapes::push_unescaped;
use crate::output::{Output, Trouble, cut};
use std::alloc::{AllocError, Global};

/// A part of a setting: its key, its words, and the text of the lines below it.
#[derive(Drop)]
pub struct Part {
    pub key: String,
    pub words: String,
    pub text: Vec<u8>,
}

/// The parts that stand above a row, in order.
#[derive(Drop)]
pub struct Setting {
    pub parts: Vec<Part>,
}

/// The words of a part, their escapes undone.
fn words_of(alloc: Global, words: &str) -> Result<String, Trouble> {
    let mut out = Output::new(alloc);
    push_unescaped(&mut out, words);
    String::from_utf8(out.finish()?).or(Err(Trouble::NotOfForm))
}

impl Setting {
    pub fn new(alloc: Global) -> Setting {
        Setting {
            parts: Vec::new(alloc),
        }
    }

    /// Adds a part.
    fn push(&mut self, alloc: Global, key: &str, words: String) -> Result<(), AllocError> {
        let part = Part {
            key: String::from_str(alloc, key)?,
            words,
            text: Vec::new(alloc),
        };
        Ok(self.parts.push(part)?)
    }

    /// Adds a part by its line, `KEY` or `KEY WORDS`.
    pub fn add(&mut self, alloc: Global, line: &str) -> Result<(), Trouble> {
        let (key, words) = cut(line);
        let words = words_of(alloc, words)?;
        self.push(alloc, key, words).or(Err(Trouble::OutOfMemory))
    }

    /// Adds bytes to the text of the last part.
    pub fn extend(&mut self, bytes: &[u8]) -> Result<(), Trouble> {
        match self.parts.last_mut() {
            Some(part) => part
                .text
                .extend_from_slice(bytes)
                .or(Err(Trouble::OutOfMemory)),
            None => Err(Trouble::NotOfForm),
        }
    }

    /// The last part of this key.
    pub fn part(&self, key: &str) -> Option<&Part> {
        for part in self.parts.iter().rev() {
            if part.key.as_str() == key {
                return Some(part);
            }
        }
        None
    }

    /// The text of the last part of this key, or none.
    pub fn text(&self, key: &str) -> &[u8] {
        match self.part(key) {
            Some(part) => part.text.as_slice(),
            None => &[],
        }
    }

    /// The words of the last part of this key, or a note that there is none.
    pub fn words(&self, out: &mut Output, key: &str) -> &str {
        match self.part(key) {
            Some(part) => part.words.as_str(),
            None => {
                out.refuse();
                ""
            }
        }
    }

    /// The number that the last part of this key has for its words, or another where there is none.
    pub fn number(&self, out: &mut Output, key: &str, other: u64) -> u64 {
        match self.part(key) {
            Some(part) => out.number(part.words.as_str()),
            None => other,
        }
    }
}
