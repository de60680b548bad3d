//! Reads sizes and addresses in bytes, as users type them.

ghost use Rattle.std.specs.Prelude.{◌≡◌, ℕ, ◌^◌, ◌<◌, Some, decimal};
ghost use Rattle.std.specs.Char.{is_ascii_hexdigit};
ghost use Rattle.std.specs.List.{list_all};
ghost use Rattle.command_line.specs.Sizes.{hexadecimal_of, size_of, units_of};

use common::ascii::number;

/// The bytes of a unit `k` or `K`.
const KIB: u32 = 1024;

/// The bytes of a unit `M`.
const MIB: u32 = 1024 * 1024;

/// Reads a size or an address in bytes, from 0 to 4294967295.
///
/// The text is a decimal number without leading zeros (`4096`), such a number of units `k`, `K`
/// (1024) or `M` (1024 * 1024) without a space (`4k`), or `0x` with hexadecimal digits in either
/// case (`0x1000`). Returns `None` for any other text, and for a number that is too large.
#[tactic(auto, using(crate::proofs::SizesLaws::size_of_printed))]
pub fn size_of(text: &str) -> Option<u32>
    ensures value { result ≡ size_of text.now }
    ensures printed { (n : ℕ) → n < 2 ^ 32 → text.now ≡ decimal n → result ≡ Some n }
{
    spelled_size(text.as_bytes())
}

/// Reads a size by the form of its text.
fn spelled_size(text: &[u8]) -> Option<u32>
    ensures { result ≡ size_of text.now }
{
    match text {
        [b'0', b'x', digits @ ..] => hexadecimal(digits),
        [count @ .., b'k' | b'K'] => units(count, KIB),
        [count @ .., b'M'] => units(count, MIB),
        _ => number(text),
    }
}

/// Reads the number of units in decimal digits. Returns their bytes.
fn units(count: &[u8], unit: u32) -> Option<u32>
    ensures { result ≡ units_of unit count.now }
{
    number(count)?.checked_mul(unit)
}

/// Reads one or more hexadecimal digits.
fn hexadecimal(digits: &[u8]) -> Option<u32>
    ensures { result ≡ hexadecimal_of digits.now }
{
    if !are_hexadecimal(digits) {
        return None;
    }
    u32::from_str_radix(str::from_utf8(digits).ok()?, 16).ok()
}

/// Returns whether these are hexadecimal digits.
fn are_hexadecimal(digits: &[u8]) -> bool
    ensures { result ≡ list_all is_ascii_hexdigit digits.now }
{
    digits.iter().all(|digit| digit.is_ascii_hexdigit())
}
