//! The identity of a device: its vendor, its class and its images.

use uuid::Uuid;

/// The identity of a device. A manifest must name its vendor, its class, and only images that the
/// device has (RFC 9124, "Vendor ID Condition" and "Class ID Condition").
#[derive(Clone, Copy, Debug, PartialEq, Eq)]
pub struct Identity {
    /// The identifier of the device's vendor.
    pub vendor: Uuid,
    /// The identifier of the device's class, among the classes of the vendor.
    pub class: Uuid,
    /// The number of images of the device. The images have the numbers 0 to `images` - 1.
    pub images: u8,
}
