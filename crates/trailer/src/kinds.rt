//! The values of a trailer's fields, and the swap types.

/// What the magic of a trailer says (`BOOT_MAGIC_GOOD`, `BOOT_MAGIC_UNSET` and `BOOT_MAGIC_BAD` of
/// MCUboot).
#[derive(Clone, Copy, Debug, PartialEq, Eq)]
pub enum Magic {
    /// Its bytes are `BOOT_MAGIC`.
    Good,
    /// Its bytes are erased.
    Unset,
    /// It has any other bytes.
    Bad,
}

/// The fields of a trailer for a request, a trial and a confirmation.
#[derive(Clone, Copy, Debug, PartialEq, Eq)]
pub struct Trailer {
    /// What the magic says.
    pub magic: Magic,
    /// Whether the unit `copy_done` is set: the swap of the image is done.
    pub copy_done: bool,
    /// Whether the unit `image_ok` is set: the image is confirmed, or is requested permanently.
    pub image_ok: bool,
    /// Whether the withdrawn unit, which is bootswap's own, is set: the request was withdrawn.
    pub withdrawn: bool,
}

/// The swap type: what the two trailers of an image ask of a boot (`BOOT_SWAP_TYPE_*` of MCUboot).
#[derive(Clone, Copy, Debug, PartialEq, Eq)]
pub enum SwapType {
    /// Swap, and try the new image.
    Test,
    /// Swap permanently.
    Perm,
    /// Revert to the old image.
    Revert,
    /// Do nothing.
    None,
}

/// What a swap was for, when the trailers of its image are settled.
#[derive(Clone, Copy, Debug, PartialEq, Eq)]
pub enum Settling {
    /// The new image is tried.
    Test,
    /// The new image is permanent.
    Permanent,
    /// The device reverted to the old image.
    Back,
}
