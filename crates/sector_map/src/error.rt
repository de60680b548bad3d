//! The errors of sizes that make no map.

ghost use Rattle.std.specs.Prelude.{◌≡◌};
ghost use Rattle.sector_map.specs.Codes.{code_of, name_of};

use thiserror::Error;

/// Why sizes make no map: the first check that fails. The variants have the numbers 1 to 4, in this
/// order.
#[derive(Clone, Copy, Debug, PartialEq, Eq, Error)]
pub enum MapError {
    /// The length of a sector isn't a multiple of 64 from 512 to 131072.
    #[error("a sector has 512 to 131072 bytes, a multiple of 64")]
    BadSector,
    /// There are no images or more than 8, or one of them has no sectors.
    #[error("there are one to eight images, each with a sector at least")]
    BadCount,
    /// The slots of an image have too many sectors: its trailer doesn't fit into one sector.
    #[error("an image has so many sectors that its trailer doesn't fit into one")]
    TrailerFull,
    /// The map has more than 4294967295 bytes in all.
    #[error("there are more than 4294967295 bytes in all")]
    TooLarge,
}

impl MapError {
    /// Returns the number of the error, 1 to 4.
    pub fn code(self) -> u8
        ensures { result ≡ code_of self }
    {
        match self {
            MapError::BadSector => 1,
            MapError::BadCount => 2,
            MapError::TrailerFull => 3,
            MapError::TooLarge => 4,
        }
    }

    /// Returns the name of the error as it is printed.
    pub fn name(self) -> &'static str
        ensures { result.now ≡ name_of self }
    {
        match self {
            MapError::BadSector => "BadSector",
            MapError::BadCount => "BadCount",
            MapError::TrailerFull => "TrailerFull",
            MapError::TooLarge => "TooLarge",
        }
    }
}
