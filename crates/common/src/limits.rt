//! The limits of a device and of its images.

ghost use Rattle.std.specs.Prelude.{◌≡◌};
ghost use Rattle.common.specs.Limits as limit;

/// The most images of a device (`MCUBOOT_IMAGE_NUMBER` in MCUboot). They are numbered from 0 to 7.
pub const MOST_IMAGES: usize = 8;

/// The most dependencies of an image: entries of type `IMAGE_TLV_DEPENDENCY`, 0x40 (MCUboot design
/// document, "Image format").
pub const MOST_DEPENDENCIES: usize = 16;

/// The most groups of an image: entries of type 0xA0, which each ask for one of several images.
/// They are bootswap's own; MCUboot leaves 0xA0 to 0xFE to vendors.
pub const MOST_GROUPS: usize = 4;

/// The most alternatives of a group. A group has at least one.
pub const MOST_ALTERNATIVES: usize = 4;

/// The most boots of a trial.
pub const MOST_TRIAL_BOOTS: u8 = 7;

/// The most boots of a trial after the one that begins it.
pub const MOST_BOOTS_LEFT: u8 = 6;

/// States that these limits are the ones in contracts.
///
/// The call does nothing: its contract is the law.
pub fn limits_are_as_specified()
    ensures images { MOST_IMAGES ≡ limit.MOST_IMAGES }
    ensures dependencies { MOST_DEPENDENCIES ≡ limit.MOST_DEPENDENCIES }
    ensures groups { MOST_GROUPS ≡ limit.MOST_GROUPS }
    ensures alternatives { MOST_ALTERNATIVES ≡ limit.MOST_ALTERNATIVES }
    ensures trial_boots { MOST_TRIAL_BOOTS ≡ limit.MOST_TRIAL_BOOTS }
    ensures boots_left { MOST_BOOTS_LEFT ≡ limit.MOST_BOOTS_LEFT }
{}
