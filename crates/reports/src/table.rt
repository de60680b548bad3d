//! Tables of the running images, the requested images, and the floors of the security counters.

use arrayvec::ArrayVec;
use common::limits::{MOST_DEPENDENCIES, MOST_GROUPS, MOST_IMAGES};
use version_order::{Dependency, Group, Version};

/// What a decision knows of one image's bytes: MCUboot's image version, security counter and
/// dependencies, and its groups.
#[derive(Clone, Debug, Default, Drop, PartialEq, Eq)]
pub struct Entry {
    /// The version.
    pub version: Version,
    /// The security counter, or 0 if the image has none.
    pub counter: u32,
    /// Its dependencies on images of the device, in the order of the image's entries. There are at
    /// most 16.
    pub dependencies: ArrayVec<Dependency, MOST_DEPENDENCIES>,
    /// Its groups, each of which needs one of several images, in the order of the image's entries.
    /// There are at most 4.
    pub groups: ArrayVec<Group, MOST_GROUPS>,
}

/// The request for an image, as its secondary slot has it.
#[derive(Clone, Debug, Default, Drop, PartialEq, Eq)]
pub enum Request {
    /// Nothing is requested.
    #[default]
    None,
    /// The requested bytes are no intact image.
    Damaged,
    /// An intact image is requested.
    Entry(Entry),
}

/// One image of a device: the running image, the request, and the lowest accepted security counter.
#[derive(Clone, Debug, Default, Drop, PartialEq, Eq)]
pub struct Image {
    /// The running image.
    pub running: Entry,
    /// The request to replace it.
    pub request: Request,
    /// The lowest security counter that is accepted.
    pub floor: u32,
}

/// All that a decision depends on: the images of a device, in the order of their numbers from 0, at
/// most 8.
#[derive(Clone, Debug, Default, Drop, PartialEq, Eq)]
pub struct Table {
    /// The images. The place of each, from 0, is its number.
    pub images: ArrayVec<Image, MOST_IMAGES>,
}
