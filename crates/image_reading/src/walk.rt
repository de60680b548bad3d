//! Reads the entry at the beginning of bytes, in memory or in a flash.

ghost use Rattle.std.specs.Prelude.{◌≡◌, ◌<◌, ◌≤◌, IfSome, drop};
ghost use Rattle.std.specs.Option.{option_map};
ghost use Rattle.byteorder.specs.Endian.{little_number};
ghost use Rattle.image_reading.specs.Reading.{first_entry};
ghost use Rattle.image_reading.specs.SlotTlvs.{LiesFirst, slot_tlv_view};
ghost use Rattle.image_reading.specs.Span.{CanRead, bytes_of};

use crate::format::HEAD_LENGTH;
use crate::medium::Medium;
use crate::slot_tlvs::SlotTlv;
use crate::span::Span;
use byteorder::{ByteOrder, LittleEndian};

/// Reads the two numbers of a head: an area's magic number and length, or an entry's type and the
/// length of its value.
pub(crate) fn head<M: Medium>(medium: &mut M, bytes: Span) -> (u16, u16)
    requires readable { CanRead (M.chip medium.old) bytes }
    requires long { 4 ≤ bytes.len }
    ensures same { M.chip medium.new ≡ M.chip medium.old }
    ensures first { result.0 ≡ little_number 2 (bytes_of (M.chip medium.old) bytes) }
    ensures second { result.1 ≡ little_number 2 (drop 2 (bytes_of (M.chip medium.old) bytes)) }
{
    let mut head = [0; HEAD_LENGTH];
    medium.read(bytes.first(HEAD_LENGTH), &mut head);
    (
        LittleEndian::read_u16(&head),
        LittleEndian::read_u16(&head[2..]),
    )
}

/// The first entry, if one fits, and the span of the bytes after it. No byte of its value is read.
pub(crate) fn first_slot_tlv<M: Medium>(medium: &mut M, bytes: Span) -> Option<(SlotTlv, Span)>
    requires { CanRead (M.chip medium.old) bytes }
    ensures same { M.chip medium.new ≡ M.chip medium.old }
    ensures first { option_map (λ found. (
      slot_tlv_view (M.chip medium.old) found.0,
      bytes_of (M.chip medium.old) found.1,
    )) result ≡ first_entry (bytes_of (M.chip medium.old) bytes) }
    ensures readable { IfSome result (λ found.
        CanRead (M.chip medium.old) found.0.value × CanRead (M.chip medium.old) found.1) }
    ensures lies { IfSome result (λ found. LiesFirst bytes found.0 found.1) }
    ensures shorter { IfSome result (λ found. found.1.len < bytes.len) }
{
    if bytes.len < HEAD_LENGTH {
        return None;
    }
    let (kind, size) = head(medium, bytes);
    let size = usize::from(size);
    let rest = bytes.after(HEAD_LENGTH);
    if rest.len < size {
        return None;
    }
    let tlv = SlotTlv {
        kind,
        value: rest.first(size),
    };
    Some((tlv, rest.after(size)))
}
