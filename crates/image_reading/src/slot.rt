//! Describes the image or the file in a slot.

ghost use Rattle.std.specs.Prelude.{◌≡◌, ◌<◌, ◌≤◌, Err, IfErr, IfOk, Ok, OnOk, false, true};
ghost use Rattle.sha2.specs.Sha256.{sha256};
ghost use Rattle.flash_model.specs.Chip.{Chip, Ends};
ghost use Rattle.flash_model.specs.declared.error.FlashError.{FlashError};
ghost use Rattle.sector_map.specs.Map.{HasImage, IsLaidOut, length_of};
ghost use Rattle.sector_map.specs.Part.{Slot};
ghost use Rattle.image_reading.specs.Fault.{IsFirstFault, IsFrontFault};
ghost use Rattle.image_reading.specs.Image.{BeginsIntact, IsIntact};
ghost use Rattle.image_reading.specs.Slot.{IsFoundIntact, IsSlotFault, file_bytes, found_in, read_in, slot_bytes};
ghost use Rattle.image_reading.specs.Span.{CanRead, bytes_of};
ghost use Rattle.image_reading.specs.declared.desc.Desc.{Desc};
ghost use Rattle.image_reading.specs.declared.error.ImageError.{ImageError};
ghost use Rattle.image_reading.specs.declared.error.SlotError.{SlotError};

use crate::desc::Desc;
use crate::describing::{describe_front, describe_front_into, describe_whole_into};
use crate::error::SlotError;
use crate::medium::Medium;
use crate::span::Span;
use flash_model::{Flash, Result};
use sector_map::{SectorMap, Side};

/// Describes the image at the beginning of a slot, whatever follows it. Does not allocate.
///
/// The map must be laid out on the flash, and must have the image. `image` is its number, from 0.
///
/// Header, body and protected area are read once for the digest, in pieces of at most 256 bytes. In
/// addition, these bytes are read at most once, and no others are:
///
/// - The header.
/// - The first four bytes of each area.
/// - The type and the length of each entry.
/// - The values of digest, dependencies, groups and security counter.
///
/// # Errors
/// `Image` with the first check that fails, as in [`describe`](crate::describe), except that bytes
/// may follow the image. An image may extend to the slot's end. `Flash(Off)` if the flash was off.
/// Nothing changes in any case.
pub fn describe_slot<F: Flash>(
    flash: &mut F,
    map: &SectorMap,
    image: u8,
    side: Side,
) -> Result<Desc, SlotError>
    requires laid_out { IsLaidOut map.now (F.chip flash.old) }
    requires there { image < map.now.images }
    ensures same { F.chip flash.new ≡ F.chip flash.old }
    // The slot begins with an intact image with this description.
    ensures described { IfOk result
        (BeginsIntact (slot_bytes map.now (F.chip flash.old) image side)) }
    // Each such image is described.
    ensures only { (F.chip flash.old).is_on ≡ true → (description : Desc)
        → BeginsIntact (slot_bytes map.now (F.chip flash.old) image side) description
        → result ≡ Ok description }
    // The error is the first check that fails, or that the flash was off.
    ensures fault { IfErr result (IsSlotFault (F.chip flash.old).is_on
        (IsFrontFault (slot_bytes map.now (F.chip flash.old) image side))) }
    // The first check that fails is the error.
    ensures refused { (F.chip flash.old).is_on ≡ true → (fault : ImageError)
        → IsFrontFault (slot_bytes map.now (F.chip flash.old) image side) fault
        → result ≡ Err (SlotError.Image fault) }
    ensures on { OnOk result ((F.chip flash.old).is_on ≡ true) }
    ensures off { (F.chip flash.old).is_on ≡ false
        → result ≡ Err (SlotError.Flash FlashError.Off) }
{
    // A read of no bytes succeeds only if the flash is on, and then no read fails.
    flash.read(0, &mut [])?;
    let description = describe_front(flash, slot_span(map, image, side))?;
    Ok(description)
}

/// Describes the image at the beginning of a slot if it is intact. Does not allocate.
///
/// The map must be laid out on the flash, and must have the image. `image` is its number, from 0.
/// The call reads the same bytes as [`describe_slot`].
///
/// # Errors
/// `Off` if the flash was off. Nothing changes in any case.
pub fn intact_image<F: Flash>(
    flash: &mut F,
    map: &SectorMap,
    image: u8,
    side: Side,
) -> Result<Option<Desc>>
    requires { HasImage map.now image (F.chip flash.old) }
    ensures same { F.chip flash.new ≡ F.chip flash.old }
    // The image is described, or one of its checks fails.
    ensures found { IfOk result
        (IsFoundIntact (slot_bytes map.now (F.chip flash.old) image side)) }
    ensures on { OnOk result ((F.chip flash.old).is_on ≡ true) }
    ensures off { IfErr result (λ error. error ≡ FlashError.Off) }
    ensures ends { Ends result (F.chip flash.old) (F.chip flash.new) }
{
    let mut description = Desc::default();
    if intact_image_into(flash, map, image, side, &mut description)? {
        return Ok(Some(description));
    }
    Ok(None)
}

/// Describes the image at the beginning of a slot in a place of the caller, and returns whether it
/// is intact. Does not allocate. It takes less stack than [`intact_image`], which returns the
/// description. If the result isn't `Ok(true)`, the place may hold any description.
///
/// The map must be laid out on the flash, and must have the image. `image` is its number, from 0.
///
/// # Errors
/// `Off` if the flash was off. The flash doesn't change in any case.
pub fn intact_image_into<F: Flash>(
    flash: &mut F,
    map: &SectorMap,
    image: u8,
    side: Side,
    description: &mut Desc,
) -> Result<bool>
    requires { HasImage map.now image (F.chip flash.old) }
    ensures same { F.chip flash.new ≡ F.chip flash.old }
    // The image is described, or one of its checks fails.
    ensures found { IfOk result (λ is. IsFoundIntact
        (slot_bytes map.now (F.chip flash.old) image side) (found_in description.new is)) }
    ensures on { OnOk result ((F.chip flash.old).is_on ≡ true) }
    ensures off { IfErr result (λ error. error ≡ FlashError.Off) }
    ensures ends { Ends result (F.chip flash.old) (F.chip flash.new) }
{
    flash.read(0, &mut [])?;
    match describe_front_into(flash, slot_span(map, image, side), description) {
        Ok(()) => Ok(true),
        Err(_) => Ok(false),
    }
}

/// Describes the file that the first `len` bytes of a slot are: the same as
/// [`describe`](crate::describe) of these bytes. Does not allocate.
///
/// The map must be laid out on the flash, and must have the image. `image` is its number, from 0.
/// The slot must have at least `len` bytes.
///
/// # Errors
/// `Image` with the first check that fails, as in [`describe`](crate::describe). `Flash(Off)` if
/// the flash was off. Nothing changes in any case.
pub fn describe_file<F: Flash>(
    flash: &mut F,
    map: &SectorMap,
    image: u8,
    side: Side,
    len: u32,
) -> Result<Desc, SlotError>
    requires laid_out { IsLaidOut map.now (F.chip flash.old) }
    requires there { image < map.now.images }
    requires room { len ≤ length_of map.now (Slot image side) }
    ensures same { F.chip flash.new ≡ F.chip flash.old }
    // The file is an intact image with this description.
    ensures described { IfOk result
        (IsIntact (file_bytes map.now (F.chip flash.old) image side len)) }
    // Each such image is described.
    ensures only { (F.chip flash.old).is_on ≡ true → (description : Desc)
        → IsIntact (file_bytes map.now (F.chip flash.old) image side len) description
        → result ≡ Ok description }
    // The error is the first check that fails, or that the flash was off.
    ensures fault { IfErr result (IsSlotFault (F.chip flash.old).is_on
        (IsFirstFault (file_bytes map.now (F.chip flash.old) image side len))) }
    // The first check that fails is the error.
    ensures refused { (F.chip flash.old).is_on ≡ true → (fault : ImageError)
        → IsFirstFault (file_bytes map.now (F.chip flash.old) image side len) fault
        → result ≡ Err (SlotError.Image fault) }
    ensures on { OnOk result ((F.chip flash.old).is_on ≡ true) }
    ensures off { (F.chip flash.old).is_on ≡ false
        → result ≡ Err (SlotError.Flash FlashError.Off) }
{
    let mut description = Desc::default();
    describe_file_into(flash, map, image, side, len, &mut description)?;
    Ok(description)
}

/// Describes the file that the first `len` bytes of a slot are, in a place of the caller. Does not
/// allocate. It takes less stack than [`describe_file`], which returns the description. If the
/// result isn't `Ok`, the place may hold any description.
///
/// The map must be laid out on the flash, and must have the image. `image` is its number, from 0.
/// The slot must have at least `len` bytes.
///
/// # Errors
/// As [`describe_file`]. The flash doesn't change in any case.
pub fn describe_file_into<F: Flash>(
    flash: &mut F,
    map: &SectorMap,
    image: u8,
    side: Side,
    len: u32,
    description: &mut Desc,
) -> Result<(), SlotError>
    requires laid_out { IsLaidOut map.now (F.chip flash.old) }
    requires there { image < map.now.images }
    requires room { len ≤ length_of map.now (Slot image side) }
    ensures same { F.chip flash.new ≡ F.chip flash.old }
    // The file is an intact image with this description.
    ensures described { IfOk (read_in description.new result)
        (IsIntact (file_bytes map.now (F.chip flash.old) image side len)) }
    // Each such image is described.
    ensures only { (F.chip flash.old).is_on ≡ true → (intact : Desc)
        → IsIntact (file_bytes map.now (F.chip flash.old) image side len) intact
        → read_in description.new result ≡ Ok intact }
    // The error is the first check that fails, or that the flash was off.
    ensures fault { IfErr result (IsSlotFault (F.chip flash.old).is_on
        (IsFirstFault (file_bytes map.now (F.chip flash.old) image side len))) }
    // The first check that fails is the error.
    ensures refused { (F.chip flash.old).is_on ≡ true → (fault : ImageError)
        → IsFirstFault (file_bytes map.now (F.chip flash.old) image side len) fault
        → result ≡ Err (SlotError.Image fault) }
    ensures on { OnOk result ((F.chip flash.old).is_on ≡ true) }
    ensures off { (F.chip flash.old).is_on ≡ false
        → result ≡ Err (SlotError.Flash FlashError.Off) }
{
    flash.read(0, &mut [])?;
    let file = slot_span(map, image, side).first(len as usize);
    match describe_whole_into(flash, file, description) {
        Ok(()) => Ok(()),
        Err(fault) => Err(SlotError::Image(fault)),
    }
}

/// Returns the SHA-256 of the first `len` bytes of a slot (FIPS 180-4). Does not allocate.
///
/// The map must be laid out on the flash, and must have the image. `image` is its number, from 0.
/// The slot must have at least `len` bytes. They are read in pieces of at most 256 bytes.
///
/// # Errors
/// `Off` if the flash was off. Nothing changes in any case.
pub fn digest_file<F: Flash>(
    flash: &mut F,
    map: &SectorMap,
    image: u8,
    side: Side,
    len: u32,
) -> Result<[u8; 32]>
    requires laid_out { IsLaidOut map.now (F.chip flash.old) }
    requires there { image < map.now.images }
    requires room { len ≤ length_of map.now (Slot image side) }
    ensures same { F.chip flash.new ≡ F.chip flash.old }
    ensures ok { IfOk result (λ digest.
        digest ≡ sha256 (file_bytes map.now (F.chip flash.old) image side len)) }
    ensures erases { OnOk result ((F.chip flash.new).erases ≡ (F.chip flash.old).erases) }
    ensures ends { Ends result (F.chip flash.old) (F.chip flash.new) }
{
    flash.read(0, &mut [])?;
    let file = slot_span(map, image, side).first(len as usize);
    Ok(flash.digest(file))
}

// The span of a slot.
pub(crate) fn slot_span(map: &SectorMap, image: u8, side: Side) -> Span
    requires { image < map.now.images }
    ensures bytes { (chip : Chip) → IsLaidOut map.now chip
        → bytes_of chip result ≡ slot_bytes map.now chip image side }
    ensures readable { (chip : Chip) → IsLaidOut map.now chip → chip.is_on ≡ true
        → CanRead chip result }
    ensures len { result.len ≡ length_of map.now (Slot image side) }
{
    Span {
        at: map.slot_start(image, side) as usize,
        len: map.slot_length(image) as usize,
    }
}
