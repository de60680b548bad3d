//! The texts of faults in the arguments of any command.

/// The arguments aren't valid UTF-8.
pub const NO_TEXT: &str = "invalid UTF-8 was detected in one or more arguments";

/// The order names standard input twice.
pub const TWICE: &str = "standard input, `-`, can be read for one file only";

/// The order writes standard input.
pub const WRITTEN: &str = "the flash file is written to, so it can't be standard input, `-`";
