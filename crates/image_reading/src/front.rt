//! Reads the image at the beginning of bytes: its front.

ghost use Rattle.std.specs.Prelude.{◌≡◌, ◌+◌, ◌↔◌, ◌^◌, ◌<◌, None, Some, IfOk, IfErr, IsTrue, OnErr, OnOk};
ghost use Rattle.image_header.specs.Header.{IsHeaderFault};
ghost use Rattle.image_reading.specs.Area.{protected_magic, unprotected_magic};
ghost use Rattle.image_reading.specs.Fault.{BeginsAccepted, HasWholeArea, IsArea, IsAreaFault, IsFrontFault, IsTotal, entries_at};
ghost use Rattle.image_reading.specs.Front.{HasGathered, IsFront, IsProtected};
ghost use Rattle.image_reading.specs.Gathered.{HasGatheredProtected, HasGatheredUnprotected};
ghost use Rattle.image_reading.specs.Span.{CanRead, bytes_of};

use crate::desc::Desc;
use crate::error::ImageError;
use crate::format::{HEAD_LENGTH, PROTECTED_MAGIC, UNPROTECTED_MAGIC};
use crate::gathering::{
    Occurrence, ProtectedFields, UnprotectedFields, protected_fields, unprotected_fields,
};
use crate::medium::Medium;
use crate::met::ItemFaults;
use crate::span::Span;
use crate::walk::head;
use image_header::{HEADER_LENGTH, Header, HeaderError};

/// The image at the beginning of bytes: header, body, protected area and unprotected area.
#[derive(Clone, Copy)]
pub(crate) struct Front {
    /// The header.
    pub(crate) header: Header,
    /// The bytes that the digest covers: header, body and protected area.
    pub(crate) hashed: Span,
    /// The fields of the protected area.
    pub(crate) protected: ProtectedFields,
    /// The fields of the unprotected area.
    pub(crate) unprotected: UnprotectedFields,
    /// The length of the image in bytes.
    pub(crate) length: usize,
}

impl Front {
    /// Reads the image at the beginning of bytes, whatever values its entries have and whatever
    /// follows it. Its dependencies and groups replace those of the description.
    pub(crate) fn read<M: Medium>(
        medium: &mut M,
        bytes: Span,
        description: &mut Desc,
    ) -> Result<Front, ImageError>
        requires { CanRead (M.chip medium.old) bytes }
        ensures same { M.chip medium.new ≡ M.chip medium.old }
        // The result is an image, by its parts, with the fields of its areas.
        ensures found { IfOk result
            (IsFront (M.chip medium.old) (bytes_of (M.chip medium.old) bytes)) }
        ensures gathered { IfOk result (λ front.
            HasGathered (M.chip medium.old) front description.new) }
        // The error is the first check that fails.
        ensures fault { IfErr result (IsFrontFault (bytes_of (M.chip medium.old) bytes)) }
    {
        let header = header(medium, bytes)?;
        let protected_place = usize::from(header.header_size) + header.body_size as usize;
        let size = header.protected_size;
        let protected = protected_area(medium, bytes, protected_place, size, description)?;
        let unprotected_place = protected_place + usize::from(header.protected_size);
        let unprotected = unprotected_area(medium, bytes, unprotected_place)?;
        Ok(Front {
            header,
            hashed: bytes.first(unprotected_place),
            protected,
            unprotected,
            length: unprotected_place + HEAD_LENGTH + unprotected.entries.len,
        })
    }
}

// Reads the header.
fn header<M: Medium>(medium: &mut M, bytes: Span) -> Result<Header, HeaderError>
    requires { CanRead (M.chip medium.old) bytes }
    ensures same { M.chip medium.new ≡ M.chip medium.old }
    ensures read { IfOk result (BeginsAccepted (bytes_of (M.chip medium.old) bytes)) }
    ensures fault { IfErr result (IsHeaderFault (bytes_of (M.chip medium.old) bytes)) }
{
    if bytes.len < HEADER_LENGTH {
        return Err(HeaderError::Short);
    }
    let mut header = [0; HEADER_LENGTH];
    medium.read(bytes.first(HEADER_LENGTH), &mut header);
    Header::read(&header)
}

// Reads the fields of the protected area, which has `size` bytes. It has no fields if it is absent.
// Its dependencies and groups replace those of the description.
fn protected_area<M: Medium>(
    medium: &mut M,
    bytes: Span,
    place: usize,
    size: u16,
    description: &mut Desc,
) -> Result<ProtectedFields, ImageError>
    requires readable { CanRead (M.chip medium.old) bytes }
    requires near { place < 2 ^ 62 }
    ensures same { M.chip medium.new ≡ M.chip medium.old }
    ensures found { IfOk result (λ fields. IsProtected (bytes_of (M.chip medium.old) bytes)
        place size (bytes_of (M.chip medium.old) fields.entries)) }
    ensures gathered { IfOk result (λ fields.
        HasGatheredProtected (M.chip medium.old) fields description.new) }
    ensures some { OnErr result (0 < size) }
    ensures fault { IfErr result
        (IsAreaFault (bytes_of (M.chip medium.old) bytes) place protected_magic (Some size)) }
{
    description.dependencies.clear();
    description.groups.clear();
    if size == 0 {
        return Ok(ProtectedFields {
            entries: bytes.first(0),
            dependencies: ItemFaults::new(),
            groups: ItemFaults::new(),
            counter: Occurrence::Absent,
        });
    }
    let entries = area_entries(medium, bytes, place, PROTECTED_MAGIC, Some(size))?;
    protected_fields(medium, entries, description).ok_or(ImageError::BadTlvSize)
}

// Reads the fields of the unprotected area.
fn unprotected_area<M: Medium>(
    medium: &mut M,
    bytes: Span,
    place: usize,
) -> Result<UnprotectedFields, ImageError>
    requires readable { CanRead (M.chip medium.old) bytes }
    requires near { place < 2 ^ 62 }
    ensures same { M.chip medium.new ≡ M.chip medium.old }
    ensures found { OnOk result
        (IsArea (bytes_of (M.chip medium.old) bytes) place unprotected_magic None) }
    ensures entries { IfOk result (λ fields. bytes_of (M.chip medium.old) fields.entries
        ≡ entries_at (bytes_of (M.chip medium.old) bytes) place) }
    ensures readable { IfOk result (λ fields. CanRead (M.chip medium.old) fields.entries) }
    ensures gathered { IfOk result (HasGatheredUnprotected (M.chip medium.old)) }
    ensures fault { IfErr result
        (IsAreaFault (bytes_of (M.chip medium.old) bytes) place unprotected_magic None) }
{
    let entries = area_entries(medium, bytes, place, UNPROTECTED_MAGIC, None)?;
    unprotected_fields(medium, entries).ok_or(ImageError::BadTlvSize)
}

// The span of the entries of the area at a place, with this magic number. If a length is expected,
// the area has it. Whether the entries fill the area isn't checked yet.
fn area_entries<M: Medium>(
    medium: &mut M,
    bytes: Span,
    place: usize,
    magic: u16,
    expected: Option<u16>,
) -> Result<Span, ImageError>
    requires readable { CanRead (M.chip medium.old) bytes }
    requires near { place < 2 ^ 62 }
    ensures same { M.chip medium.new ≡ M.chip medium.old }
    ensures found { OnOk result
        (HasWholeArea (bytes_of (M.chip medium.old) bytes) place magic expected) }
    ensures entries { IfOk result (λ entries. bytes_of (M.chip medium.old) entries
        ≡ entries_at (bytes_of (M.chip medium.old) bytes) place) }
    ensures readable { IfOk result (CanRead (M.chip medium.old)) }
    ensures short { IfOk result (λ entries. 4 + entries.len < 2 ^ 16) }
    ensures fault { IfErr result
        (IsAreaFault (bytes_of (M.chip medium.old) bytes) place magic expected) }
{
    if bytes.len < place + HEAD_LENGTH {
        return Err(ImageError::Truncated);
    }
    let area = bytes.after(place);
    let (own_magic, total) = head(medium, area);
    if own_magic != magic {
        return Err(ImageError::BadTlvMagic);
    }
    if !is_total(expected, total) {
        return Err(ImageError::BadTlvSize);
    }
    let total = usize::from(total);
    if area.len < total {
        return Err(ImageError::Truncated);
    }
    Ok(area.after(HEAD_LENGTH).first(total - HEAD_LENGTH))
}

// Whether an area may have this length.
fn is_total(expected: Option<u16>, total: u16) -> bool
    ensures { IsTrue result ↔ IsTotal expected total }
{
    match expected {
        Some(size) => total == size && usize::from(total) >= HEAD_LENGTH,
        None => usize::from(total) >= HEAD_LENGTH,
    }
}
