//! The numbers that the calls return. Each is the same in `include/bootswap.h`.

/// Done; the bytes are an intact image; the report is right.
pub const DONE: u32 = 0;
/// The device booted, and decided what runs.
pub const BOOTED: u32 = 1;
/// The device booted, and the old images of a set on trial run again.
pub const REVERTED: u32 = 2;
/// The device booted, and the set on trial is tried again.
pub const TRIAL_AGAIN: u32 = 3;
/// The call is refused.
pub const REFUSED: u32 = 4;
/// Power failed during the call.
pub const CUT: u32 = 5;

/// No map has the setup's sizes.
pub const NO_MAP: u32 = 16;
/// A trial has no boot, or more than 7.
pub const NO_TRIAL: u32 = 17;
/// The flash isn't whole sectors, has fewer than the map, or 2^32 bytes or more.
pub const NO_FLASH: u32 = 18;
/// There is no such image, or no such side of it.
pub const NO_IMAGE: u32 = 19;
/// More components than a manifest has, or more cuts than a call takes.
pub const TOO_MANY: u32 = 20;
/// The log of the flash has no state.
pub const NO_LOG: u32 = 21;

/// The text is no table.
pub const NO_TABLE: u32 = 24;
/// The text is no report.
pub const NO_REPORT: u32 = 25;
/// The running images of the table don't fit each other.
pub const INVALID_SET: u32 = 26;
/// The report isn't right for the table.
pub const WRONG: u32 = 27;
/// The text or the image is longer than its buffer.
pub const TOO_SMALL: u32 = 28;
/// No image has the values.
pub const BAD_IMAGE: u32 = 29;
