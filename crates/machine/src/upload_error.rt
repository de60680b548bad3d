//! Reasons why an upload is refused.

ghost use Rattle.std.specs.Prelude.{◌≡◌};
ghost use Rattle.machine.specs.UploadCodes.{code_of, name_of};
ghost use Rattle.machine.specs.declared.upload_error.UploadError.{UploadError};

use flash_model::FlashError;
use image_reading::ImageError;
use thiserror::Error;

/// Why a call of an upload is refused. The numbers are 1 to 11, in this order.
#[derive(Clone, Copy, Debug, PartialEq, Eq, Error)]
pub enum UploadError {
    /// The manifest has a lower sequence number than the last accepted one.
    #[error("the last accepted manifest has a newer sequence number")]
    OldSequence,
    /// An image of the manifest is longer than its slot.
    #[error("an image that is longer than its slot")]
    TooBig,
    /// No upload of the image is open, or there is no such image. For a piece also: the open upload
    /// doesn't match the flash.
    #[error("no upload of this image is open")]
    NoSession,
    /// More bytes were sent than the manifest says.
    #[error("more bytes than the manifest said")]
    TooMuch,
    /// Fewer bytes were sent than the manifest says.
    #[error("fewer bytes than the manifest said")]
    SizeWrong,
    /// The SHA-256 of the bytes isn't the manifest's.
    #[error("another digest than the manifest said")]
    DigestWrong,
    /// The bytes aren't an intact image. The field has the first check that fails.
    #[error("{0}")]
    NotAnImage(ImageError),
    /// The running image isn't the one that the manifest requires.
    #[error("the running image isn't the one that the manifest asks for")]
    WrongPrecursor,
    /// Nothing is requested for the image, or there is no such image.
    #[error("nothing is requested for this image")]
    NothingRequested,
    /// A call on the flash failed.
    #[error("{0}")]
    Flash(FlashError),
    /// Out of memory. No call returns it, since none allocates.
    #[error("no memory for the upload")]
    NoMemory,
}

impl UploadError {
    /// Returns the number of the kind, 1 to 11.
    pub fn code(self) -> u8
        ensures { result ≡ code_of self }
    {
        match self {
            UploadError::OldSequence => 1,
            UploadError::TooBig => 2,
            UploadError::NoSession => 3,
            UploadError::TooMuch => 4,
            UploadError::SizeWrong => 5,
            UploadError::DigestWrong => 6,
            UploadError::NotAnImage(_) => 7,
            UploadError::WrongPrecursor => 8,
            UploadError::NothingRequested => 9,
            UploadError::Flash(_) => 10,
            UploadError::NoMemory => 11,
        }
    }

    /// Returns the name of the kind, as it is printed.
    pub fn name(self) -> &'static str
        ensures { result.now ≡ name_of self }
    {
        match self {
            UploadError::OldSequence => "OldSequence",
            UploadError::TooBig => "TooBig",
            UploadError::NoSession => "NoSession",
            UploadError::TooMuch => "TooMuch",
            UploadError::SizeWrong => "SizeWrong",
            UploadError::DigestWrong => "DigestWrong",
            UploadError::NotAnImage(_) => "NotAnImage",
            UploadError::WrongPrecursor => "WrongPrecursor",
            UploadError::NothingRequested => "NothingRequested",
            UploadError::Flash(_) => "Flash",
            UploadError::NoMemory => "NoMemory",
        }
    }
}

impl From<FlashError> for UploadError {
    ghost from_gives = { λ error gives. gives ≡ UploadError.Flash error };

    fn from(error: FlashError) -> UploadError {
        UploadError::Flash(error)
    }
}
