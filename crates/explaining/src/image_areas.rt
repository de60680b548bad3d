//! Finds the parts of an image by its header, and the entries of its TLV areas.

use image_header::Header;

/// The magic number at the start of a protected area.
const PROTECTED_MAGIC: u16 = 0x6908;

/// The magic number at the start of an unprotected area.
const UNPROTECTED_MAGIC: u16 = 0x6907;

/// The length in bytes of the head of an area, and of an entry.
const HEAD_LENGTH: usize = 4;

/// The type of a digest's entry.
pub const DIGEST: u16 = 0x10;

/// The type of a dependency's entry.
pub const DEPENDENCY: u16 = 0x40;

/// The type of a security counter's entry.
pub const COUNTER: u16 = 0x50;

/// The type of a group's entry.
pub const GROUP: u16 = 0xa0;

/// An area of entries, as the header of its image places it.
#[derive(Clone, Copy)]
pub struct Area {
    /// The index of its first byte.
    pub place: usize,
    /// The magic number that it has to begin with.
    pub magic: u16,
    /// Its length in bytes by the header. `None` for an unprotected area.
    pub said: Option<u16>,
}

impl Area {
    /// The magic number that it begins with.
    pub fn own_magic(self, bytes: &[u8]) -> Option<u16> {
        number_at(bytes, self.place)
    }

    /// The length in bytes that its head gives.
    pub fn own_length(self, bytes: &[u8]) -> Option<u16> {
        number_at(bytes, self.place.saturating_add(2))
    }

    /// The index of its first entry.
    pub fn start(self) -> usize {
        self.place.saturating_add(HEAD_LENGTH)
    }

    /// The index of its end, by the length that its head gives.
    pub fn end(self, bytes: &[u8]) -> Option<usize> {
        let length = self.own_length(bytes)?;
        Some(self.place.saturating_add(usize::from(length)))
    }

    /// The entry of index `wanted`, from 0, among those of this type. Without a type, among the
    /// dependencies and groups that don't consist of complete pairs of an image and a version.
    pub fn find(self, bytes: &[u8], kind: Option<u16>, wanted: usize) -> Option<EntryAt<'_>> {
        let end = self.end(bytes)?;
        let mut place = self.start();
        let mut count: usize = 0;
        for _ in 0..bytes.len() {
            let entry = entry_at(bytes, place, end)?;
            let is_sought = match kind {
                Some(kind) => entry.kind == kind,
                None => entry.is_bad_need(),
            };
            if is_sought {
                if count == wanted {
                    return Some(entry);
                }
                count = count.saturating_add(1);
            }
            place = entry.end();
        }
        None
    }

    /// The index of the end of its entries, up to the first that doesn't fit.
    pub fn end_of_entries(self, bytes: &[u8]) -> usize {
        let end = self.end(bytes).unwrap_or_default();
        let mut place = self.start();
        for _ in 0..bytes.len() {
            match entry_at(bytes, place, end) {
                Some(entry) => place = entry.end(),
                None => break,
            }
        }
        place
    }
}

/// An entry of an area.
#[derive(Clone, Copy)]
pub struct EntryAt<'a> {
    /// The index of its first byte in the file.
    pub place: usize,
    /// Its type.
    pub kind: u16,
    /// Its value.
    pub value: &'a [u8],
}

impl EntryAt<'_> {
    /// The index of its end.
    fn end(&self) -> usize {
        self.place
            .saturating_add(HEAD_LENGTH)
            .saturating_add(self.value.len())
    }

    /// Whether it is a dependency or a group that doesn't consist of complete pairs of an image and
    /// a version.
    fn is_bad_need(&self) -> bool {
        let length = self.value.len();
        let is_whole = match self.kind {
            DEPENDENCY => length == 12,
            GROUP => matches!(length, 12 | 24 | 36 | 48),
            _ => return false,
        };
        !is_whole || !has_zeros(self.value)
    }
}

/// Whether in each 12 bytes the three bytes after the image number are 0.
fn has_zeros(value: &[u8]) -> bool {
    for pair in value.chunks(12) {
        if !matches!(pair, [_, 0, 0, 0, ..]) {
            return false;
        }
    }
    true
}

/// The entry at an index. `None` if it doesn't end at or before `end`.
fn entry_at(bytes: &[u8], place: usize, end: usize) -> Option<EntryAt<'_>> {
    let kind = number_at(bytes, place)?;
    let length = usize::from(number_at(bytes, place.saturating_add(2))?);
    let start = place.saturating_add(HEAD_LENGTH);
    let value = bytes.get(..end)?.get(start..start.saturating_add(length))?;
    Some(EntryAt { place, kind, value })
}

/// The protected area of an image with this header, if it has one.
pub fn protected_area(header: &Header) -> Option<Area> {
    if header.protected_size == 0 {
        return None;
    }
    Some(Area {
        place: end_of_body(header),
        magic: PROTECTED_MAGIC,
        said: Some(header.protected_size),
    })
}

/// The unprotected area of an image with this header.
pub fn unprotected_area(header: &Header) -> Area {
    Area {
        place: end_of_body(header).saturating_add(usize::from(header.protected_size)),
        magic: UNPROTECTED_MAGIC,
        said: None,
    }
}

/// The index of the end of the body of an image with this header.
pub fn end_of_body(header: &Header) -> usize {
    usize::from(header.header_size).saturating_add(header.body_size as usize)
}

/// The number in the two bytes at an index, the low byte first.
pub fn number_at(bytes: &[u8], place: usize) -> Option<u16> {
    match bytes.get(place..)? {
        [low, high, ..] => Some(u16::from_le_bytes([*low, *high])),
        _ => None,
    }
}

/// The number in the four bytes at an index, the low byte first.
pub fn long_number_at(bytes: &[u8], place: usize) -> Option<u32> {
    match bytes.get(place..)? {
        [a, b, c, d, ..] => Some(u32::from_le_bytes([*a, *b, *c, *d])),
        _ => None,
    }
}
