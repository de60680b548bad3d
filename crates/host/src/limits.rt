//! The longest texts and files that a command reads, in bytes. A longer one isn't read to its end.

/// The most bytes of a table or of a report. None is that long: eight images with all their
/// dependencies and groups make about 18,000 bytes.
pub const MOST_TABLE: u32 = 1 << 16;

/// The most bytes of a device file or of a manifest.
pub const MOST_JSON: u32 = 1 << 20;

/// The most bytes of a script's text.
pub const MOST_SCRIPT: u32 = 1 << 28;

/// The most bytes of an image, of its body, and of a file that a line of a script names. It is also
/// the most that is read of a file that isn't plain to get a part of it.
pub const MOST_FILE: u32 = u32::MAX;
