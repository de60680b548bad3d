//! Explains why bytes aren't an intact image.

use crate::Result;
use crate::image_areas::{
    Area, COUNTER, DEPENDENCY, DIGEST, EntryAt, GROUP, end_of_body, long_number_at, number_at,
    protected_area, unprotected_area,
};
use crate::texts::Digits;
use device_texts::NoteList;
use image_header::{ACCEPTED_FLAGS, HEADER_LENGTH, Header};
use image_reading::{ImageError, describe};
use sha2::{Digest, Sha256};

/// Adds why bytes aren't an intact image, if they aren't.
pub fn explain_bytes(notes: &mut NoteList, bytes: &[u8]) -> Result {
    match describe(bytes) {
        Ok(_) => Ok(()),
        Err(fault) => explain_image(notes, bytes, fault),
    }
}

/// Adds where bytes fail this check of an image, and what they contain there. Bytes are numbered
/// from 0.
pub fn explain_image(notes: &mut NoteList, bytes: &[u8], fault: ImageError) -> Result {
    match fault {
        ImageError::Short => {
            let length = bytes.len();
            notes.add(format_args!("there are {length} bytes, and a header has {HEADER_LENGTH}"))
        }
        ImageError::BadMagic => {
            let found = long_number_at(bytes, 0).unwrap_or_default();
            notes.add(format_args!(
                "at byte 0 stands 0x{found:08x}, and an image begins with 0x96f3b83d"
            ))
        }
        ImageError::BadHeaderSize => {
            let found = number_at(bytes, 8).unwrap_or_default();
            notes.add(format_args!(
                "at byte 8 stands {found} as the length of the header, and it is {HEADER_LENGTH} at \
                 least"
            ))
        }
        ImageError::UnsupportedFlags => {
            let found = long_number_at(bytes, 16).unwrap_or_default();
            let others = found & !ACCEPTED_FLAGS;
            notes.add(format_args!(
                "at byte 16 stand the flags 0x{found:x}; 0x{others:x} of them aren't accepted"
            ))
        }
        _ => match Header::read(bytes) {
            Ok(header) => explain_areas(notes, bytes, &header, fault),
            Err(_) => Ok(()),
        },
    }
}

/// Adds where bytes with this header fail a check of an image's areas.
fn explain_areas(notes: &mut NoteList, bytes: &[u8], header: &Header, fault: ImageError) -> Result {
    let protected = protected_area(header);
    let unprotected = unprotected_area(header);
    match (fault, protected) {
        (ImageError::Truncated, _) => explain_end(notes, bytes, header),
        (ImageError::BadTlvMagic, Some(area)) if area.own_magic(bytes) != Some(area.magic) => {
            explain_magic(notes, bytes, area)
        }
        (ImageError::BadTlvMagic, _) => explain_magic(notes, bytes, unprotected),
        (ImageError::BadTlvSize, Some(area)) if !has_its_length(bytes, area) => {
            explain_length(notes, bytes, area)
        }
        (ImageError::BadTlvSize, _) => explain_length(notes, bytes, unprotected),
        (ImageError::NoDigest | ImageError::TwoDigests | ImageError::BadDigest, _) => {
            explain_digest(notes, bytes, unprotected)
        }
        (ImageError::TrailingBytes, _) => {
            let end = unprotected.end(bytes).unwrap_or(bytes.len());
            let more = bytes.len().saturating_sub(end);
            notes.add(format_args!(
                "the image ends before byte {end}, and {more} bytes more follow"
            ))
        }
        (_, Some(area)) => explain_entries(notes, bytes, area, fault),
        (_, None) => Ok(()),
    }
}

/// Adds the number of bytes, and where the parts of the image would be.
fn explain_end(notes: &mut NoteList, bytes: &[u8], header: &Header) -> Result {
    let length = bytes.len();
    let body = end_of_body(header);
    let (header_size, body_size) = (header.header_size, header.body_size);
    notes.add(format_args!(
        "there are {length} bytes; the header has {header_size} and the body {body_size}, up to \
         byte {body}"
    ))?;
    if let Some(area) = protected_area(header) {
        add_area(notes, bytes, "protected area", area)?;
    }
    add_area(notes, bytes, "area of entries", unprotected_area(header))
}

/// Adds where an area begins, and its length if the bytes give one.
fn add_area(notes: &mut NoteList, bytes: &[u8], kind: &str, area: Area) -> Result {
    let place = area.place;
    match area.own_length(bytes) {
        Some(length) => notes.add(format_args!(
            "at byte {place} the {kind} begins, which has {length} bytes"
        )),
        None => notes.add(format_args!(
            "at byte {place} the {kind} would begin, which has 4 bytes at least"
        )),
    }
}

/// Adds the magic number that an area begins with.
fn explain_magic(notes: &mut NoteList, bytes: &[u8], area: Area) -> Result {
    let (place, magic) = (area.place, area.magic);
    let found = area.own_magic(bytes).unwrap_or_default();
    notes.add(format_args!(
        "at byte {place} stands 0x{found:04x}, and the area there begins with 0x{magic:04x}"
    ))
}

/// Whether an area has the length that the header gives, and its entries fill it.
fn has_its_length(bytes: &[u8], area: Area) -> bool {
    area.own_length(bytes) == area.said && Some(area.end_of_entries(bytes)) == area.end(bytes)
}

/// Adds the length that an area has, and what is wrong with it.
fn explain_length(notes: &mut NoteList, bytes: &[u8], area: Area) -> Result {
    let place = area.place.saturating_add(2);
    let length = area.own_length(bytes).unwrap_or_default();
    match area.said {
        Some(said) if said != length => notes.add(format_args!(
            "at byte {place} stands {length} as the length of the area, and the header says {said}"
        )),
        _ if length < 4 => notes.add(format_args!(
            "at byte {place} stands {length} as the length of the area, and it is 4 at least"
        )),
        _ => {
            let rest = area.end_of_entries(bytes);
            let end = area.end(bytes).unwrap_or(rest);
            notes.add(format_args!(
                "the entry at byte {rest} doesn't fit into its area, which ends before byte {end}"
            ))
        }
    }
}

/// Adds what is wrong with the digest of an image.
fn explain_digest(notes: &mut NoteList, bytes: &[u8], area: Area) -> Result {
    let Some(first) = area.find(bytes, Some(DIGEST), 0) else {
        let place = area.place;
        return notes.add(format_args!(
            "the area at byte {place} has no entry of the type 0x10, a SHA-256"
        ));
    };
    let (place, length) = (first.place, first.value.len());
    match area.find(bytes, Some(DIGEST), 1) {
        Some(second) => {
            let other = second.place;
            notes.add(format_args!(
                "digest entries stand at byte {place} and at byte {other}, and there is one"
            ))
        }
        None if length != 32 => notes.add(format_args!(
            "the digest entry at byte {place} has {length} bytes, and a SHA-256 has 32"
        )),
        None => explain_hash(notes, bytes, area.place, &first),
    }
}

/// Adds the digest in an entry, and the digest of the bytes before `end`.
fn explain_hash(notes: &mut NoteList, bytes: &[u8], end: usize, entry: &EntryAt<'_>) -> Result {
    let (place, found) = (entry.place, Digits(entry.value));
    notes.add(format_args!("at byte {place} stands the digest {found}"))?;
    let digest: [u8; 32] = Sha256::digest(bytes.get(..end).unwrap_or_default());
    let wanted = Digits(digest.as_slice());
    notes.add(format_args!("the SHA-256 of the {end} bytes before its area is {wanted}"))
}

/// Adds which entry of a protected area fails a check.
fn explain_entries(notes: &mut NoteList, bytes: &[u8], area: Area, fault: ImageError) -> Result {
    let (kind, number, text) = match fault {
        ImageError::BadDependency => (
            None,
            0,
            "isn't 12 bytes an image, or its bytes behind a number aren't 0",
        ),
        ImageError::TooManyDependencies => (
            Some(DEPENDENCY),
            16,
            "is the 17th dependency, and there are 16 at most",
        ),
        ImageError::TooManyGroups => (Some(GROUP), 4, "is the 5th group, and there are 4 at most"),
        ImageError::BadCounter if area.find(bytes, Some(COUNTER), 1).is_some() => {
            (Some(COUNTER), 1, "is a second security counter")
        }
        ImageError::BadCounter => (
            Some(COUNTER),
            0,
            "is a security counter that isn't 4 bytes long",
        ),
        _ => return Ok(()),
    };
    let Some(entry) = area.find(bytes, kind, number) else {
        return Ok(());
    };
    let (place, kind, length) = (entry.place, entry.kind, entry.value.len());
    notes.add(format_args!(
        "the entry at byte {place}, of the type 0x{kind:02x} and {length} bytes, {text}"
    ))
}
