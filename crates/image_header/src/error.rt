//! The error of reading a header.

ghost use Rattle.std.specs.Prelude.{◌≡◌};
ghost use Rattle.image_header.specs.Codes.{code_of, name_of};

use thiserror::Error;

/// Why bytes don't begin with an accepted header: the first check that fails.
#[derive(Clone, Copy, Debug, PartialEq, Eq, Error)]
pub enum HeaderError {
    /// The input has fewer than 32 bytes.
    #[error("fewer than 32 bytes")]
    Short,
    /// The magic number isn't 0x96f3b83d.
    #[error("another magic number than 0x96f3b83d")]
    BadMagic,
    /// The header's length is less than 32.
    #[error("a header length below 32")]
    BadHeaderSize,
    /// A flag is set that isn't accepted.
    #[error("a flag that isn't accepted")]
    UnsupportedFlags,
}

impl HeaderError {
    /// The number of this kind: 1 to 4, in the order of the checks.
    pub fn code(self) -> u8
        ensures { result ≡ code_of self }
    {
        match self {
            HeaderError::Short => 1,
            HeaderError::BadMagic => 2,
            HeaderError::BadHeaderSize => 3,
            HeaderError::UnsupportedFlags => 4,
        }
    }

    /// The name of this kind, as programs print it.
    pub fn name(self) -> &'static str
        ensures { result.now ≡ name_of self }
    {
        match self {
            HeaderError::Short => "Short",
            HeaderError::BadMagic => "BadMagic",
            HeaderError::BadHeaderSize => "BadHeaderSize",
            HeaderError::UnsupportedFlags => "UnsupportedFlags",
        }
    }
}
