//! Encodes a state as the bytes of a record, and decodes it.

ghost use Rattle.std.specs.Prelude.{◌≡◌, ◌↔◌, ◌+◌, ◌-◌, ◌^◌, ◌<◌, ◌≤◌, ◌++◌, ◌==◌, ℕ, List, Some, drop, length, replicate, slice_index, if◌then◌else◌, true};
ghost use Rattle.byteorder.specs.Endian.{little_bytes, little_number};
ghost use Rattle.set_log.specs.Record.{IsSized, Spells, fields, fits, record_bytes, state_from};

use crate::format::RECORD;
use crate::state::{RecordKind, State};
use byteorder::{ByteOrder, LittleEndian};
use common::limits::MOST_IMAGES;

/// Bytes decode to a state exactly if they encode it and it keeps the table of records. So each
/// state that is written is read back, and only encoded states are read. The law holds for each
/// state that a program can have: its numbers have four bytes, and it has eight floors.
pub fn records_are_read_back()
    ensures { (images : ℕ) (bytes : List ℕ) (state : State) → IsSized state
        → (state_from images bytes ≡ Some state) ↔ Spells images bytes state }
{}

/// Writes a number of four bytes over the zeros after the bytes that are already written.
fn put_word(out: &mut [u8; RECORD], at: usize, word: u32)
    requires { at + 4 ≤ RECORD }
    ensures { (front : List ℕ) (zeros : ℕ) → out.old ≡ front ++ replicate zeros 0
        → length front ≡ at → 4 ≤ zeros
        → out.new ≡ (front ++ little_bytes 4 word) ++ replicate (zeros - 4) 0 }
{
    LittleEndian::write_u32(&mut out[at..], word);
}

fn word_at(bytes: &[u8; RECORD], at: usize) -> u32
    requires { at + 4 ≤ RECORD }
    ensures { result ≡ little_number 4 (drop at bytes.now) }
{
    LittleEndian::read_u32(&bytes[at..])
}

/// Shows that each floor has four bytes.
fn fit_words(floors: &[u32; MOST_IMAGES])
    ensures { (i : ℕ) → i < MOST_IMAGES → slice_index floors.now i < 2 ^ 32 }
{
    let _first = floors[0];
}

fn flag(on: bool) -> u8
    ensures { result ≡ (if on then 1 else 0) }
{
    if on { 1 } else { 0 }
}

impl State {
    /// The bytes of this state's record.
    pub(crate) fn to_bytes(&self) -> [u8; RECORD]
        ensures is { result ≡ record_bytes self.now }
        ensures back { (images : ℕ) → fits images self.now ≡ true
            → state_from images result ≡ Some self.now }
    {
        fit_words(&self.floors);
        let mut out = [0u8; RECORD];
        out[0] = self.kind.number();
        out[1] = self.mask;
        out[2] = flag(self.permanent);
        out[3] = self.left;
        put_word(&mut out, 4, self.sequence);
        for (i, floor) in self.floors.iter().enumerate() {
            put_word(&mut out, 8 + 4 * i, *floor);
        }
        out
    }

    /// The state of this kind whose fields are in the bytes, if the bytes encode one.
    fn from_fields(kind: RecordKind, bytes: &[u8; RECORD]) -> State
        ensures { result ≡ fields kind bytes.now }
    {
        State {
            kind,
            mask: bytes[1],
            permanent: bytes[2] == 1,
            sequence: word_at(bytes, 4),
            floors: [
                word_at(bytes, 8),
                word_at(bytes, 12),
                word_at(bytes, 16),
                word_at(bytes, 20),
                word_at(bytes, 24),
                word_at(bytes, 28),
                word_at(bytes, 32),
                word_at(bytes, 36),
            ],
            left: bytes[3],
        }
    }

    /// Decodes a state for a device with `images` images. It encodes the decoded fields again and
    /// compares, so no field can be forgotten.
    pub(crate) fn from_bytes(bytes: &[u8; RECORD], images: u8) -> Option<State>
        requires { images ≤ MOST_IMAGES }
        ensures { result ≡ state_from images bytes.now }
    {
        let kind = RecordKind::from_number(bytes[0])?;
        let state = State::from_fields(kind, bytes);
        if state.fits(images) && *bytes == state.to_bytes() {
            return Some(state);
        }
        None
    }
}
