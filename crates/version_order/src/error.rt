//! The error of a text that isn't a version.

use thiserror::Error;

/// The error of a text that isn't a version.
///
/// There is only one kind, so it has no number.
#[derive(Clone, Copy, Debug, PartialEq, Eq, Error)]
#[error("not a version: write major.minor.revision+build in decimal without leading zeros, \
     as 1.4.0+7; parts may be left out from the right")]
pub struct BadVersion;
