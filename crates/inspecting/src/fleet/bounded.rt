//! A text that is kept only as long as it isn't too long.

ghost use Rattle.std.specs.Prelude.{◌≡◌, ◌↔◌, ◌++◌, ◌∷◌, ℕ, IsTrue, List, [], OnOk};
ghost use Rattle.inspecting.specs.Bounded.{Holds};

use std::alloc::{AllocError, Global};

/// The most bytes of a text.
const MOST: usize = 1 << 16;

/// A text of at most 65,536 bytes. Of a longer one only its being too long is kept.
#[derive(Drop)]
pub struct Bounded {
    /// The text, unless it is too long.
    pub bytes: Vec<u8>,
    /// Whether it is too long.
    pub is_too_long: bool,
}

impl Bounded {
    /// Creates an empty text in memory of `alloc`.
    pub fn new(alloc: Global) -> Self
        ensures { Holds [] result }
    {
        Bounded {
            bytes: Vec::new(alloc),
            is_too_long: false,
        }
    }

    /// Returns whether the text is empty.
    pub fn is_empty(&self) -> bool
        ensures { (text : List ℕ) → Holds text self.now → IsTrue result ↔ (text ≡ []) }
    {
        !self.is_too_long && self.bytes.is_empty()
    }

    /// Makes the text empty. Its memory is kept.
    pub fn clear(&mut self)
        ensures { Holds [] self.new }
    {
        self.bytes.clear();
        self.is_too_long = false;
    }

    /// Appends `part` to the text.
    ///
    /// # Errors
    /// Memory ran out. Nothing changes.
    pub fn push(&mut self, part: &[u8]) -> Result<(), AllocError>
        ensures { OnOk result ((text : List ℕ) → Holds text self.old
            → Holds (text ++ part.now) self.new) }
    {
        if self.is_too_long || self.bytes.len() + part.len() > MOST {
            self.is_too_long = true;
            return Ok(());
        }
        self.bytes.extend_from_slice(part)
    }

    /// Appends a line and its line feed.
    ///
    /// # Errors
    /// Memory ran out. The text has some of them.
    pub fn push_line(&mut self, line: &Bounded) -> Result<(), AllocError>
        ensures { OnOk result ((text added : List ℕ) → Holds text self.old → Holds added line.now
            → Holds (text ++ (added ++ 10 ∷ [])) self.new) }
    {
        if line.is_too_long {
            self.is_too_long = true;
            return Ok(());
        }
        self.push(&line.bytes)?;
        self.push(b"\n")
    }
}
