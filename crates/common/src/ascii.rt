//! Reads numbers and finds separators in ASCII text.

ghost use Rattle.std.specs.Prelude.{◌≡◌, ◌≢◌, ◌==◌, ℕ, ◌^◌, ◌<◌, ◌↔◌, IfNone, IfSome, IsTrue, decimal, option_copied, position};
ghost use Rattle.common.specs.Ascii.{IsPadded, cut, number_below, number_of};

/// Returns the index of the first `separator` in a text.
fn place_of(text: &[u8], separator: u8) -> Option<usize>
    ensures { result ≡ position (λ b. b == separator) text.now }
{
    text.iter().position(|byte| *byte == separator)
}

/// Splits a text at the first `separator`.
///
/// Returns the text before it and the text after it. If the text has no such byte, returns the
/// whole text and `None`.
#[tactic(auto, using(crate::proofs::Cuts::cut_before, crate::proofs::Cuts::cut_after))]
pub fn cut(text: &[u8], separator: u8) -> (&[u8], Option<&[u8]>)
    ensures before { result.0.now ≡ (cut separator text.now).0 }
    ensures after { option_copied result.1 ≡ (cut separator text.now).1 }
{
    match place_of(text, separator) {
        Some(place) => (&text[..place], Some(&text[place + 1..])),
        None => (text, None),
    }
}

/// Returns whether a text begins as no number is printed: with a plus sign, or with a zero before
/// anything else.
pub fn begins_padded(text: &[u8]) -> bool
    ensures { IsTrue result ↔ IsPadded text.now }
{
    matches!(text, [b'+', ..] | [b'0', _, ..])
}

/// Reads a decimal number from 0 to 4294967295.
///
/// The text has digits only: no sign, no spaces, and no leading zeros except in `0` itself. Returns
/// `None` for any other text, including an empty one, and for a number that is too large.
#[tactic(auto, using(crate::proofs::Numbers::numbers))]
pub fn number(text: &[u8]) -> Option<u32>
    ensures value { result ≡ number_of text.now }
    ensures spelled { IfSome result (λ n. text.now ≡ decimal n) }
    ensures other { IfNone result ((n : ℕ) → n < 2 ^ 32 → text.now ≢ decimal n) }
{
    if begins_padded(text) {
        return None;
    }
    str::from_utf8(text).ok()?.parse().ok()
}

/// Reads a number from 0 to 255, as [`number`] reads it.
pub fn number_u8(text: &[u8]) -> Option<u8>
    ensures { result ≡ number_below 256 text.now }
{
    u8::try_from(number(text)?).ok()
}

/// Reads a number from 0 to 65535, as [`number`] reads it.
pub fn number_u16(text: &[u8]) -> Option<u16>
    ensures { result ≡ number_below 65536 text.now }
{
    u16::try_from(number(text)?).ok()
}
