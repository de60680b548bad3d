//! Walks over the entries of an area in memory.

ghost use Rattle.std.specs.Prelude.{◌≡◌, IfNone, ⊤};
ghost use Rattle.std.specs.Option.{option_map};
ghost use Rattle.image_reading.specs.Reading.{first_entry};
ghost use Rattle.image_reading.specs.Tlv.{tlv_view, tlvs_rest};

use crate::format::HEAD_LENGTH;
use byteorder::{ByteOrder, LittleEndian};

/// An entry of an area (MCUboot's `struct image_tlv`, and the value after it).
#[derive(Clone, Copy, Debug)]
pub struct Tlv<'a> {
    /// The type, which defines the meaning of the value.
    pub kind: u16,
    /// The value: a part of the area.
    pub value: &'a [u8],
}

/// A walk over the entries of an area, up to the first entry that doesn't fit. It borrows the area.
/// The law [`a_walk_gives_the_entries_of_its_area`](crate::a_walk_gives_the_entries_of_its_area)
/// says what it gives.
#[derive(Clone, Debug, Drop)]
pub struct Tlvs<'a> {
    rest: &'a [u8],
}

impl<'a> Tlvs<'a> {
    /// Starts a walk over an area. `area` is the area without its magic number and length.
    pub fn new(area: &'a [u8]) -> Tlvs<'a>
        ensures { tlvs_rest result ≡ area.now }
    {
        Tlvs { rest: area }
    }

    /// The bytes after the entries given so far. After the last entry they are the bytes after all
    /// entries: none if the entries fill the area.
    pub fn rest(&self) -> &'a [u8]
        ensures { result.now ≡ tlvs_rest self.now }
    {
        self.rest
    }
}

impl<'a> Iterator for Tlvs<'a> {
    ghost use Rattle.std.specs.Iterator.{YieldsFirstBy, MakesProgress, item_count};
    ghost use Rattle.image_reading.specs.Reading.{rest_of};
    ghost use Rattle.image_reading.specs.Tlv.{tlv_view, tlvs_left, tlvs_rest};

    type Item = Tlv<'a>;

    ghost next_gives = { YieldsFirstBy tlv_view tlvs_left };

    ghost remaining = { item_count tlvs_left };

    fn next(&mut self) -> Option<Tlv<'a>>
        ensures steps { YieldsFirstBy tlv_view tlvs_left self.old result self.new }
        ensures goes { MakesProgress (λ _. ⊤) (item_count tlvs_left) self.old result self.new }
        // The bytes after all entries stay the same, and are the rest at the end.
        ensures rest { rest_of (tlvs_rest self.new) ≡ rest_of (tlvs_rest self.old) }
        ensures ended { IfNone result (tlvs_rest self.new ≡ rest_of (tlvs_rest self.old)) }
    {
        let (tlv, rest) = first_tlv(self.rest)?;
        *self = Tlvs { rest };
        Some(tlv)
    }
}

// The first entry, if one fits, and the bytes after it.
fn first_tlv(bytes: &[u8]) -> Option<(Tlv<'_>, &[u8])>
    ensures { option_map (λ found. (tlv_view found.0, found.1.now)) result ≡ first_entry bytes.now }
{
    if bytes.len() < HEAD_LENGTH {
        return None;
    }
    let kind = LittleEndian::read_u16(bytes);
    let size = usize::from(LittleEndian::read_u16(&bytes[2..]));
    let rest = &bytes[HEAD_LENGTH..];
    if rest.len() < size {
        return None;
    }
    let (value, rest) = rest.split_at(size);
    Some((Tlv { kind, value }, rest))
}
