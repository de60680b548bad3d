//! Reports: which requests are taken, and why each of the others is refused.

use arrayvec::ArrayVec;
use common::limits::MOST_IMAGES;
use version_order::{Group, Version};

/// The most refusals of a report: one an image.
pub const MOST_REFUSALS: usize = 8;

/// Why a request is refused. The numbers of the reasons are 1 to 6, in this order.
#[derive(Clone, Debug, Default, Drop, PartialEq, Eq)]
pub enum Reason {
    /// Its bytes are no intact image.
    #[default]
    Damaged,
    /// Its version is below the running one.
    Older,
    /// Its security counter is below the floor.
    Counter,
    /// It depends on this image number, which the device doesn't have.
    NoSuchImage(u8),
    /// It depends on this image with at least this version, and no version of the image that is
    /// still possible is high enough.
    Needs(u8, Version),
    /// It has this group, and for none of its alternatives a version that is still possible is high
    /// enough.
    NeedsOne(Group),
}

/// A refused request and the reason.
#[derive(Clone, Debug, Default, Drop, PartialEq, Eq)]
pub struct Refusal {
    /// The number of the image whose request is refused.
    pub image: u8,
    /// Why it is refused, given the refusals before it.
    pub reason: Reason,
}

/// The result for one image.
#[derive(Clone, Copy, Debug, Default, PartialEq, Eq)]
pub struct ReportedImage {
    /// Whether its request is taken. If not, the image runs on.
    pub is_taken: bool,
    /// The version that runs then: that of the request if it is taken, and else the running
    /// version.
    pub version: Version,
}

/// The result of a choice for a table: for each image whether its request is taken, and for each
/// other request why not.
#[derive(Clone, Debug, Default, Drop, PartialEq, Eq)]
pub struct Report {
    /// The images, in the order of their numbers from 0; at most 8.
    pub images: ArrayVec<ReportedImage, MOST_IMAGES>,
    /// The refused requests, each with a reason that holds given those before it; at most 8.
    pub refusals: ArrayVec<Refusal, MOST_REFUSALS>,
}
