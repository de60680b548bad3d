//! Builds a text in memory.

use std::alloc::{AllocError, Global};

/// A character, and the text that replaces it.
pub type Escape = (char, &'static str);

/// A text that is added to. After memory ran out nothing more is added, and `finish` returns the
/// error. So callers check no result in between.
#[derive(Drop)]
pub struct TextBuilder {
    text: String,
    added: Result<(), AllocError>,
}

impl TextBuilder {
    /// Returns an empty text, in memory of `alloc`.
    pub fn new(alloc: Global) -> TextBuilder {
        TextBuilder {
            text: String::new(alloc),
            added: Ok(()),
        }
    }

    /// Adds a text.
    pub fn add(&mut self, text: &str) {
        if self.added.is_ok() {
            self.added = self.text.push_str(text);
        }
    }

    /// Adds a text between two others. Adds nothing if it is empty.
    pub fn add_between(&mut self, before: &str, text: &str, after: &str) {
        if !text.is_empty() {
            self.add(before);
            self.add(text);
            self.add(after);
        }
    }

    /// Adds a text with these characters replaced, between two others. Adds nothing if it is empty.
    pub fn add_escaped(&mut self, before: &str, text: &str, after: &str, escapes: &[Escape]) {
        if text.is_empty() {
            return;
        }
        self.add(before);
        for character in text.chars() {
            self.add_character(character, escapes);
        }
        self.add(after);
    }

    /// Adds a character, or what replaces it.
    pub fn add_character(&mut self, character: char, escapes: &[Escape]) {
        if self.added.is_ok() {
            self.added = match replacement_of(character, escapes) {
                Some(text) => self.text.push_str(text),
                None => self.text.push(character),
            };
        }
    }

    /// Adds a number in decimal.
    pub fn add_number(&mut self, number: usize) {
        if self.added.is_ok() {
            self.added = write!(self.text, "{number}");
        }
    }

    /// Returns the text, or that memory ran out.
    pub fn finish(self) -> Result<String, AllocError> {
        match self.added {
            Ok(()) => Ok(self.text),
            Err(error) => Err(error),
        }
    }
}

/// Returns the text that replaces a character.
fn replacement_of(character: char, escapes: &[Escape]) -> Option<&'static str> {
    for (escaped, text) in escapes {
        if *escaped == character {
            return Some(*text);
        }
    }
    None
}
