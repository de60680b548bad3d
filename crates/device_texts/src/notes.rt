//! Notes: sentences on why a command gave its answer.
ghost use Rattle.std.specs.Prelude.{◌≡◌, ◌==◌, ◌++◌, ◌∷◌, [], IfOk, IfSome, OnErr, OnOk, length, string_bytes};
ghost use Rattle.device_texts.specs.Notes.{lines_of, sentences};
ghost use Rattle.std.specs.List.{flat_map};
ghost use Rattle.device_texts.specs.Notes.{sentence_line};

use std::alloc::{AllocError, Global};
use std::fmt::Display;

/// Notes on an answer, one sentence each. [`NoteList::lines`] makes lines of them, and
/// [`crate::json::put_notes`] a list in JSON.
#[derive(Drop)]
pub struct NoteList {
    /// The sentences.
    pub sentences: Vec<String>,
}

impl NoteList {
    /// An empty list, in memory of `alloc`.
    pub fn new(alloc: Global) -> Self
        ensures { sentences result ≡ [] }
    {
        NoteList {
            sentences: Vec::new(alloc),
        }
    }

    /// Whether there are no notes.
    pub fn is_empty(&self) -> bool
        ensures { result ≡ (length self.now.sentences.items == 0) }
    {
        self.sentences.is_empty()
    }

    /// Adds a note with the text of `sentence`, such as `format_args!(..)`.
    ///
    /// # Errors
    /// `AllocError` if memory is refused. Then the list is as before.
    pub fn add<D: Display + Drop>(&mut self, sentence: D) -> Result<(), AllocError>
        ensures added { OnOk result (IfSome (D.output sentence)
            (λ text. sentences self.new ≡ sentences self.old ++ text ∷ [])) }
        ensures kept { OnErr result (sentences self.new ≡ sentences self.old) }
    {
        let alloc = *self.sentences.allocator();
        let sentence = String::format(alloc, sentence)?;
        match self.sentences.push(sentence) {
            Ok(()) => Ok(()),
            Err(_) => Err(AllocError),
        }
    }

    /// Makes a line `note: ..` of each note, in memory of `alloc`.
    ///
    /// # Errors
    /// `AllocError` if memory is refused.
    pub fn lines(&self, alloc: Global) -> Result<String, AllocError>
        ensures { IfOk result (λ text. string_bytes text ≡ lines_of self.now) }
    {
        let mut text = String::new(alloc);
        add_lines(&mut text, self.sentences.as_slice())?;
        Ok(text)
    }
}

/// Adds a line of each sentence to a text.
fn add_lines(text: &mut String, sentences: &[String]) -> Result<(), AllocError>
    ensures { IfOk result (λ _. string_bytes text.new
        ≡ string_bytes text.old ++ flat_map sentence_line sentences.now) }
{
    for sentence in sentences {
        writeln!(text, "note: {sentence}")?;
    }
    Ok(())
}
