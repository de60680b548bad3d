//! Reads the lines of a summary.

ghost use Rattle.std.specs.List.{list_all};
ghost use Rattle.std.specs.Prelude.{◌≡◌, ◌↔◌, IfSome, IsTrue, decimal};
ghost use Rattle.inspecting.specs.Fleet.{IsName};
ghost use Rattle.inspecting.specs.Row.{row_text};
ghost use Rattle.inspecting.specs.SummaryText.{FitsRow, IsKey, is_key_byte, read_row_of};

use crate::fleet::device_line::is_name;
use common::ascii::cut;
use itoa::Buffer;

/// The fields of a row, as its line has them.
#[derive(Drop)]
pub struct ReadRow<'f, 'k> {
    /// How often the key occurs.
    pub count: u64,
    /// The first device that has it.
    pub first: &'f str,
    /// The key.
    pub key: &'k str,
}

/// Reads a line without its line feed. Returns `None` if it is no line of a summary.
pub fn read_row(line: &[u8]) -> Option<ReadRow<'_, '_>>
    ensures { IfSome result (λ read. FitsRow (read_row_of read)
        × (line.now ≡ row_text (read_row_of read))) }
{
    let (count, rest) = cut(line, b' ');
    let Some(rest) = rest else {
        return None;
    };
    let (first, key) = cut(rest, b' ');
    let Some(key) = key else {
        return None;
    };
    let count = read_count(count)?;
    let first = read_first(first)?;
    let key = read_key(key)?;
    if count == 0 {
        return None;
    }
    Some(ReadRow { count, first, key })
}

/// Reads a count: a decimal number below 2^64 without leading zeros.
fn read_count(text: &[u8]) -> Option<u64>
    ensures { IfSome result (λ count. text.now ≡ decimal count) }
{
    let count = str::from_utf8(text).ok()?.parse().ok()?;
    let mut digits = Buffer::new();
    if digits.format(count).as_bytes() == text {
        Some(count)
    } else {
        None
    }
}

/// Reads the name of a device.
fn read_first(text: &[u8]) -> Option<&str>
    ensures { IfSome result (λ first. (text.now ≡ first.now) × IsName first.now) }
{
    if !is_name(text) {
        return None;
    }
    str::from_utf8(text).ok()
}

/// Reads a key.
fn read_key(text: &[u8]) -> Option<&str>
    ensures { IfSome result (λ key. (text.now ≡ key.now) × IsKey key.now) }
{
    if !is_key(text) {
        return None;
    }
    str::from_utf8(text).ok()
}

/// Returns whether a text may be a key.
fn is_key(text: &[u8]) -> bool
    ensures { IsTrue result ↔ IsKey text.now }
{
    !text.is_empty() && are_key_bytes(text)
}

/// Returns whether a key may have all of these bytes.
fn are_key_bytes(bytes: &[u8]) -> bool
    ensures { result ≡ list_all is_key_byte bytes.now }
{
    bytes.iter().all(|byte| is_key_byte(*byte))
}

/// Returns whether a key may have this byte.
fn is_key_byte(byte: u8) -> bool
    ensures { result ≡ is_key_byte byte }
{
    byte == b' ' || byte.is_ascii_graphic()
}
