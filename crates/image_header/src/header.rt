//! The header of an image and its fields.

use version_order::Version;

/// The magic number of an image (MCUboot: `IMAGE_MAGIC`).
pub(crate) const MAGIC: u32 = 0x96f3b83d;

/// The length of a header in bytes, without the filler that follows it up to the body.
pub const HEADER_LENGTH: usize = 32;

/// All accepted flags together: 0x1 position independent (MCUboot: `IMAGE_F_PIC`), 0x10 not
/// bootable (`IMAGE_F_NON_BOOTABLE`), 0x100 fixed in read-only memory (`IMAGE_F_ROM_FIXED`).
pub const ACCEPTED_FLAGS: u32 = 0x111;

/// The header of an image, without its magic number (`ih_magic`): the first 32 bytes of MCUboot's
/// image format (its `struct image_header`). All numbers are little-endian.
#[derive(Clone, Copy, Debug, Default, PartialEq, Eq)]
pub struct Header {
    /// The address to which the image is to be loaded (`ih_load_addr`). This bootloader keeps the
    /// field and doesn't use it.
    pub load_address: u32,
    /// The length of the header in bytes, with the filler up to the body; at least 32
    /// (`ih_hdr_size`).
    pub header_size: u16,
    /// The length in bytes of the area of protected entries; 0 if the image has none
    /// (`ih_protect_tlv_size`).
    pub protected_size: u16,
    /// The length of the body in bytes (`ih_img_size`).
    pub body_size: u32,
    /// The flags (`ih_flags`). A header is refused if it has flags other than [`ACCEPTED_FLAGS`].
    pub flags: u32,
    /// The version of the image (`ih_ver`: `iv_major`, `iv_minor`, `iv_revision`, `iv_build_num`).
    pub version: Version,
    /// The last four bytes, which are kept and not used (`_pad1`).
    pub pad: u32,
}
