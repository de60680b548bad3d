//! Constants of MCUboot's image format, for crates that read or make images.

/// The magic number of a protected area (`IMAGE_TLV_PROT_INFO_MAGIC`).
pub const PROTECTED_MAGIC: u16 = 0x6908;

/// The magic number of an unprotected area (`IMAGE_TLV_INFO_MAGIC`).
pub const UNPROTECTED_MAGIC: u16 = 0x6907;

/// The length in bytes of the head of an area, and of the head of an entry. The head of an area is
/// its magic number and its length. The head of an entry is its type and the length of its value.
pub const HEAD_LENGTH: usize = 4;

/// The type of the entry of a digest (`IMAGE_TLV_SHA256`).
pub const DIGEST_KIND: u16 = 0x10;

/// The type of the entry of a dependency (`IMAGE_TLV_DEPENDENCY`).
pub const DEPENDENCY_KIND: u16 = 0x40;

/// The type of the entry of a security counter (`IMAGE_TLV_SEC_CNT`).
pub const COUNTER_KIND: u16 = 0x50;

/// The type of the entry of a group: bootswap's own, in the range that MCUboot leaves to vendors.
pub const GROUP_KIND: u16 = 0xa0;

/// The length in bytes of a digest.
pub const DIGEST_LENGTH: usize = 32;

/// The length in bytes of a dependency, and of each alternative of a group: the image's number,
/// three zero bytes, and the minimum version.
pub const DEPENDENCY_LENGTH: usize = 12;

/// The length in bytes of a security counter.
pub const COUNTER_LENGTH: usize = 4;
