//! A manifest: the images that a device may accept, with their lengths and digests.

use arrayvec::ArrayVec;

/// The highest number of components of a manifest: one for each image of a device.
pub const MOST_COMPONENTS: usize = 8;

/// One image that a device may accept (RFC 9124, "Component Identifier", "Payload Digests", "Size"
/// and "Precursor Image Digest Condition").
#[derive(Clone, Copy, Debug, Default, PartialEq, Eq)]
pub struct Component {
    /// The number of the image, from 0.
    pub image: u8,
    /// Whether the request for the image is permanent. Otherwise the image is requested for a test.
    pub permanent: bool,
    /// The length of the file in bytes.
    pub size: u32,
    /// The SHA-256 of the file (FIPS 180-4).
    pub digest: [u8; 32],
    /// The digest entry of the image that must be running, if the file is only for devices that run
    /// that image.
    pub precursor: Option<[u8; 32]>,
}

/// The images that a device may accept.
#[derive(Clone, Debug, Default, Drop, PartialEq, Eq)]
pub struct Manifest {
    /// The sequence number. It increases from manifest to manifest, so that a device recognizes an
    /// old one (RFC 9124, "Monotonic Sequence Number").
    pub sequence: u32,
    /// The accepted images, 1 to 8, in the order of the file, each image once.
    pub components: ArrayVec<Component, MOST_COMPONENTS>,
}
