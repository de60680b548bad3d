//! The bytes of the magic, and the places of the fields in a trailer's sector. The place of a field
//! is the number of bytes from its first byte to the end of the sector. The status units begin at
//! the first byte of the sector.
//!
//! Contracts have these places and the magic as numbers of their own, in `specs/Places.antt` and
//! `specs/Fields.antt`. So the proof fails if a number is changed only here.

/// The magic of a trailer, which is written as one range of 16 bytes (`BOOT_MAGIC`: MCUboot design
/// document, "Image Trailer").
pub const MAGIC: [u8; 16] = [
    0x77, 0xc2, 0x95, 0xf3, 0x60, 0xd2, 0xef, 0x7f, 0x35, 0x52, 0x50, 0x0f, 0x2c, 0xb6, 0x79, 0x80,
];

/// The place of the withdrawn unit, which is bootswap's own.
pub(crate) const WITHDRAWN: u32 = 56;

/// The place of the unit of `swap_size`. The unit of `swap_info` after it is left erased.
pub(crate) const SWAP_SIZE: u32 = 48;

/// The place of the unit of `copy_done`.
pub(crate) const COPY_DONE: u32 = 32;

/// The place of the unit of `image_ok`.
pub(crate) const IMAGE_OK: u32 = 24;

/// The place of the magic.
pub(crate) const MAGIC_PLACE: u32 = 16;
