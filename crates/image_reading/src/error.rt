//! The errors of describing an image, in memory or in a slot.

ghost use Rattle.std.specs.Prelude.{◌≡◌};
ghost use Rattle.image_reading.specs.Codes.{code_of, name_of, slot_code_of, slot_name_of};
ghost use Rattle.image_reading.specs.Fault.{image_fault};
ghost use Rattle.image_reading.specs.declared.error.SlotError.{SlotError};

use common::limits::{MOST_DEPENDENCIES, MOST_GROUPS};
use flash_model::FlashError;
use image_header::HeaderError;
use std::fmt;
use thiserror::Error;

/// The first failed check of bytes that aren't an intact image. The numbers are 1 to 15, in this
/// order. The checks are made in another order: that of [`describe`](crate::describe).
#[derive(Clone, Copy, Debug, PartialEq, Eq, Error)]
pub enum ImageError {
    /// The input has fewer than 32 bytes.
    Short,
    /// The magic number isn't 0x96f3b83d.
    BadMagic,
    /// The header's length is less than 32.
    BadHeaderSize,
    /// A flag is set that isn't accepted.
    UnsupportedFlags,
    /// The bytes end before the image does.
    Truncated,
    /// An area of entries begins with another magic number.
    BadTlvMagic,
    /// The length of an area isn't the header's, is less than 4, or isn't filled by its entries.
    BadTlvSize,
    /// There is no digest entry.
    NoDigest,
    /// There are two or more digest entries.
    TwoDigests,
    /// The digest entry isn't the SHA-256 of header, body and protected area.
    BadDigest,
    /// A dependency isn't 12 bytes long, or its three bytes after the image number aren't zero. Or
    /// a group isn't 12, 24, 36 or 48 bytes long, or the three bytes of an alternative aren't zero.
    BadDependency,
    /// There are more than [`MOST_DEPENDENCIES`] dependencies.
    TooManyDependencies,
    /// Bytes follow the image.
    TrailingBytes,
    /// A security counter isn't 4 bytes long, or there are two or more.
    BadCounter,
    /// There are more than [`MOST_GROUPS`] groups.
    TooManyGroups,
}

impl fmt::Display for ImageError {
    fn fmt<W: fmt::Write>(&self, f: &mut fmt::Formatter<W>) -> fmt::Result {
        let text = match self {
            ImageError::Short => "fewer than 32 bytes",
            ImageError::BadMagic => "another magic number than 0x96f3b83d",
            ImageError::BadHeaderSize => "a header length below 32",
            ImageError::UnsupportedFlags => "a flag that isn't accepted",
            ImageError::Truncated => "the bytes end before the image does",
            ImageError::BadTlvMagic => "an area of entries with another magic number",
            ImageError::BadTlvSize => "an area of entries with a wrong length",
            ImageError::NoDigest => "no digest entry",
            ImageError::TwoDigests => "two digest entries or more",
            ImageError::BadDigest => "a digest entry that isn't the image's SHA-256",
            ImageError::BadDependency =>
                "a dependency or group entry of a wrong length, or without its three zero bytes",
            ImageError::TooManyDependencies => {
                return write!(f, "more than {MOST_DEPENDENCIES} dependencies");
            }
            ImageError::TrailingBytes => "bytes after the image",
            ImageError::BadCounter => "two security counters, or one that isn't 4 bytes long",
            ImageError::TooManyGroups => {
                return write!(f, "more than {MOST_GROUPS} groups");
            }
        };
        f.write_str(text)
    }
}

impl ImageError {
    /// The number of this kind: 1 to 15.
    pub fn code(self) -> u8
        ensures { result ≡ code_of self }
    {
        match self {
            ImageError::Short => 1,
            ImageError::BadMagic => 2,
            ImageError::BadHeaderSize => 3,
            ImageError::UnsupportedFlags => 4,
            ImageError::Truncated => 5,
            ImageError::BadTlvMagic => 6,
            ImageError::BadTlvSize => 7,
            ImageError::NoDigest => 8,
            ImageError::TwoDigests => 9,
            ImageError::BadDigest => 10,
            ImageError::BadDependency => 11,
            ImageError::TooManyDependencies => 12,
            ImageError::TrailingBytes => 13,
            ImageError::BadCounter => 14,
            ImageError::TooManyGroups => 15,
        }
    }

    /// The name of this kind, as programs print it.
    pub fn name(self) -> &'static str
        ensures { result.now ≡ name_of self }
    {
        match self {
            ImageError::Short => "Short",
            ImageError::BadMagic => "BadMagic",
            ImageError::BadHeaderSize => "BadHeaderSize",
            ImageError::UnsupportedFlags => "UnsupportedFlags",
            ImageError::Truncated => "Truncated",
            ImageError::BadTlvMagic => "BadTlvMagic",
            ImageError::BadTlvSize => "BadTlvSize",
            ImageError::NoDigest => "NoDigest",
            ImageError::TwoDigests => "TwoDigests",
            ImageError::BadDigest => "BadDigest",
            ImageError::BadDependency => "BadDependency",
            ImageError::TooManyDependencies => "TooManyDependencies",
            ImageError::TrailingBytes => "TrailingBytes",
            ImageError::BadCounter => "BadCounter",
            ImageError::TooManyGroups => "TooManyGroups",
        }
    }
}

impl From<HeaderError> for ImageError {
    ghost from_gives = { λ fault gives. gives ≡ image_fault fault };

    fn from(fault: HeaderError) -> ImageError {
        match fault {
            HeaderError::Short => ImageError::Short,
            HeaderError::BadMagic => ImageError::BadMagic,
            HeaderError::BadHeaderSize => ImageError::BadHeaderSize,
            HeaderError::UnsupportedFlags => ImageError::UnsupportedFlags,
        }
    }
}

/// Why the image in a slot isn't described. The numbers are 1 to 3, in this order.
#[derive(Clone, Copy, Debug, PartialEq, Eq, Error)]
pub enum SlotError {
    /// The slot doesn't hold an intact image: the first check that fails.
    #[error("{0}")]
    Image(ImageError),
    /// A read of the flash failed.
    #[error("{0}")]
    Flash(FlashError),
    /// An allocation failed. No call returns this error, since none allocates.
    #[error("no memory for the slot")]
    NoMemory,
}

impl SlotError {
    /// The number of this kind: 1 to 3.
    pub fn code(self) -> u8
        ensures { result ≡ slot_code_of self }
    {
        match self {
            SlotError::Image(_) => 1,
            SlotError::Flash(_) => 2,
            SlotError::NoMemory => 3,
        }
    }

    /// The name of this kind, as programs print it.
    pub fn name(self) -> &'static str
        ensures { result.now ≡ slot_name_of self }
    {
        match self {
            SlotError::Image(_) => "Image",
            SlotError::Flash(_) => "Flash",
            SlotError::NoMemory => "NoMemory",
        }
    }
}

impl From<ImageError> for SlotError {
    ghost from_gives = { λ fault gives. gives ≡ SlotError.Image fault };

    fn from(fault: ImageError) -> SlotError {
        SlotError::Image(fault)
    }
}

impl From<FlashError> for SlotError {
    ghost from_gives = { λ error gives. gives ≡ SlotError.Flash error };

    fn from(error: FlashError) -> SlotError {
        SlotError::Flash(error)
    }
}
