//! A dependency: the lowest version that one image requires of another.

use crate::version::Version;

/// A dependency of an image: another image must be present, with at least a given version.
///
/// In an image it is an entry of type `IMAGE_TLV_DEPENDENCY` (0x40; MCUboot design document, "Image
/// format" and "Dependency check").
#[derive(Clone, Copy, Debug, Default, PartialEq, Eq)]
pub struct Dependency {
    /// The number of the required image (`image_id`), counted from 0. Any number is allowed, even
    /// if the device has no such image.
    pub image: u8,
    /// The lowest accepted version (`image_min_version`).
    pub minimum: Version,
}
