//! The line that begins a device of a fleet.

ghost use Rattle.std.specs.Prelude.{◌≡◌, ◌↔◌, ℕ, List, IsTrue, false};
ghost use Rattle.std.specs.List.{list_all};
ghost use Rattle.inspecting.specs.Bounded.{Holds};
ghost use Rattle.inspecting.specs.Fleet.{BeginsDevice, BeginsNone, IsName, is_name_byte};

use crate::fleet::bounded::Bounded;

/// The word before the name, with the space between them.
pub const DEVICE: &[u8] = b"device ";

/// The most bytes of a name.
const MOST_NAME: usize = 255;

/// Returns whether a line begins a device: `device NAME`.
pub fn begins_device(line: &Bounded) -> bool
    ensures device { IsTrue result → (text : List ℕ) → Holds text line.now
        → (name : List ℕ) × BeginsDevice text name }
    ensures none { result ≡ false → (text : List ℕ) → Holds text line.now → BeginsNone text }
{
    !line.is_too_long && has_name(&line.bytes)
}

/// Returns whether a line is the word `device`, a space and a name.
fn has_name(line: &[u8]) -> bool
    ensures device { IsTrue result → (name : List ℕ) × BeginsDevice line.now name }
    ensures none { result ≡ false → BeginsNone line.now }
{
    match line.strip_prefix(DEVICE) {
        Some(name) => is_name(name),
        None => false,
    }
}

/// Returns whether these bytes are the name of a device: 1 to 255 visible characters of ASCII.
pub fn is_name(name: &[u8]) -> bool
    ensures { IsTrue result ↔ IsName name.now }
{
    !name.is_empty() && name.len() <= MOST_NAME && are_name_bytes(name)
}

/// Returns whether a name may have all of these bytes.
fn are_name_bytes(bytes: &[u8]) -> bool
    ensures { result ≡ list_all is_name_byte bytes.now }
{
    bytes.iter().all(|byte| is_name_byte(*byte))
}

/// Returns whether a name may have this byte.
fn is_name_byte(byte: u8) -> bool
    ensures { result ≡ is_name_byte byte }
{
    byte.is_ascii_graphic()
}
