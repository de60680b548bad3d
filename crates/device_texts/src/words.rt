//! Reads the words of a line.

ghost use Rattle.std.specs.Prelude.{◌≡◌, ◌≢◌, ◌^◌, ◌<◌, ℕ, IfNone, IfSome, decimal};
ghost use Rattle.std.specs.Option.{option_copied};
ghost use Rattle.device_texts.specs.LineReading.{name_of, word_of};

use common::ascii::{begins_padded, cut};

/// Reads a text as a word: at least one byte, and no space.
#[tactic(auto, unfolding(crate::specs::LineReading::word_of))]
pub(crate) fn word(text: &[u8]) -> Option<&[u8]>
    ensures { option_copied result ≡ word_of text.now }
{
    let (word, rest) = cut(text, b' ');
    if rest.is_some() || word.is_empty() {
        return None;
    }
    Some(word)
}

/// Reads a text as the name of a file: a word in UTF-8.
#[tactic(auto, unfolding(crate::specs::LineReading::name_of))]
pub(crate) fn name(text: &[u8]) -> Option<&str>
    ensures { option_copied result ≡ name_of text.now }
{
    str::from_utf8(word(text)?).ok()
}

/// Reads a text as a decimal number without leading zeros, as `common::ascii::number` reads those
/// of 32 bits.
pub(crate) fn number_usize(text: &[u8]) -> Option<usize>
    ensures spelled { IfSome result (λ n. text.now ≡ decimal n) }
    ensures other { IfNone result ((n : ℕ) → n < 2 ^ 64 → text.now ≢ decimal n) }
{
    if begins_padded(text) {
        return None;
    }
    str::from_utf8(text).ok()?.parse().ok()
}
