//! The writes that a journal records, and their bytes there.

ghost use Rattle.std.specs.Prelude.{◌≡◌, ◌+◌, ◌^◌, ◌<◌, ℕ, length, slice_index};
ghost use Rattle.slice_flash.specs.Steps.{header, spelled};
ghost use Rattle.slice_flash.specs.Asked.{length_of, room_of, step_of};

/// The length of an entry in bytes, without the bytes that a program writes.
pub(crate) const HEADER: usize = 12;

/// A requested write.
#[derive(Clone, Copy)]
pub(crate) enum Asked<'a> {
    /// Program these bytes.
    Program(&'a [u8]),
    /// Erase this number of bytes.
    Erase(u32),
}

/// Returns how many bytes of a journal a write takes.
pub(crate) fn room_of(asked: Asked<'_>) -> usize
    requires { length_of asked < 2 ^ 32 }
    ensures { result ≡ room_of asked.entry }
{
    match asked {
        Asked::Program(bytes) => HEADER + bytes.len(),
        Asked::Erase(_) => HEADER,
    }
}

/// Fills 12 bytes with a kind, an address and a length.
fn put_header(entry: &mut [u8], kind: u32, at: u32, n: u32)
    requires { length entry.old ≡ 12 }
    ensures { entry.new ≡ header kind at n }
{
    entry[..4].copy_from_slice(&kind.to_le_bytes());
    entry[4..8].copy_from_slice(&at.to_le_bytes());
    entry[8..].copy_from_slice(&n.to_le_bytes());
}

/// Fills the entry of a write.
pub(crate) fn record(entry: &mut [u8], at: u32, asked: Asked<'_>)
    requires room { length entry.old ≡ room_of asked }
    requires short { length_of asked < 2 ^ 32 }
    ensures entry { entry.new ≡ spelled (step_of at asked.entry) }
    ensures are_bytes { (k : ℕ) → slice_index entry.new k < 256 }
{
    match asked {
        Asked::Program(bytes) => {
            put_header(&mut entry[..HEADER], 0, at, bytes.len() as u32);
            entry[HEADER..].copy_from_slice(bytes);
        }
        Asked::Erase(n) => put_header(entry, 1, at, n),
    }
}
