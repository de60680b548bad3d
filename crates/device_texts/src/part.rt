//! The part of a file that a line names.

ghost use Rattle.std.specs.Prelude.{◌≡◌, List, ℕ, IfNone, IfSome};
ghost use Rattle.std.specs.Option.{option_map};
ghost use Rattle.device_texts.specs.LineReading.{part_of};
ghost use Rattle.device_texts.specs.Part.{AreNumbers, IsPart};
ghost use Rattle.device_texts.specs.Said.{part_words};

use crate::words::{number_usize, word};
use common::ascii::cut;

/// The words FROM and COUNT of a line, which name a part of a file: COUNT bytes, from byte number
/// FROM on. The first byte has number 0. They are checked when the file is read: whether they are
/// numbers, and whether the file has the part.
#[derive(Clone, Copy)]
pub struct PartText<'a> {
    /// The first word.
    pub from: &'a [u8],
    /// The second word.
    pub count: &'a [u8],
}

impl<'a> PartText<'a> {
    /// Reads the two words. Returns `None` if the text isn't two words.
    #[tactic(auto, unfolding(crate::specs::LineReading::part_of))]
    pub(crate) fn read(text: &'a [u8]) -> Option<PartText<'a>>
        ensures { option_map part_words result ≡ part_of text.now }
    {
        let (from, rest) = cut(text, b' ');
        let from = word(from)?;
        let count = word(rest?)?;
        Some(PartText { from, count })
    }

    /// The numbers of the two words: the number of the first byte, from 0, and the count. Returns
    /// `None` if a word isn't a decimal number below 2^64 without leading zeros.
    pub fn numbers(self) -> Option<(usize, usize)>
        ensures numbers { IfSome result (λ numbers.
            AreNumbers (part_words self.entry) numbers.0 numbers.1) }
        ensures other { IfNone result ((from count : ℕ)
            → AreNumbers (part_words self.entry) from count → ⊥) }
    {
        let from = number_usize(self.from)?;
        let count = number_usize(self.count)?;
        Some((from, count))
    }

    /// Returns the part of these bytes, which may be empty. Returns `None` if a word isn't a
    /// decimal number without leading zeros, or if the bytes don't have the part.
    pub fn of<'b>(self, bytes: &'b [u8]) -> Option<&'b [u8]>
        ensures part { IfSome result (λ part. IsPart (part_words self.entry) bytes.now part.now) }
        ensures other { IfNone result
            ((part : List ℕ) → IsPart (part_words self.entry) bytes.now part → ⊥) }
    {
        let from = number_usize(self.from)?;
        let count = number_usize(self.count)?;
        let end = from.checked_add(count)?;
        bytes.get(from..end)
    }
}
