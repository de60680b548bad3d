//! Reasons why a device refuses a call.

ghost use Rattle.std.specs.Prelude.{◌≡◌};
ghost use Rattle.machine.specs.Codes.{code_of, name_of};
ghost use Rattle.machine.specs.declared.error.Fault.{Fault};

use crate::upload_error::UploadError;
use flash_model::FlashError;
use manifest::ManifestError;
use thiserror::Error;

/// Why a device refuses a call. The numbers are 1 to 10, in this order. If several reasons apply,
/// the lowest is returned.
#[derive(Clone, Copy, Debug, PartialEq, Eq, Error)]
pub enum Fault {
    /// The device isn't booted: it was made, reset or lost power, and no boot has succeeded since.
    #[error("the device hasn't booted")]
    NotBooted,
    /// A set of images is on trial.
    #[error("a set of images is on trial")]
    OnTrial,
    /// The image isn't in a set that is on trial.
    #[error("this image isn't on trial")]
    NotOnTrial,
    /// The flash isn't provisioned: it has no log of a device.
    #[error("the flash isn't provisioned")]
    NotProvisioned,
    /// The running image isn't intact. During an upgrade this includes the new images. The field is
    /// the number of the lowest such image, from 0.
    #[error("the running image {0} is damaged")]
    RunningDamaged(u8),
    /// A dependency of a running image isn't met, or the set of an upgrade isn't the one that would
    /// be chosen.
    #[error("the running set isn't valid")]
    InvalidSet,
    /// A call on the flash failed.
    #[error("{0}")]
    Flash(FlashError),
    /// Out of memory while the text of a manifest was read.
    #[error("no memory")]
    NoMemory,
    /// The bytes aren't a manifest for this device.
    #[error("{0}")]
    Manifest(ManifestError),
    /// The upload is refused. The field says why.
    #[error("{0}")]
    Upload(UploadError),
}

impl Fault {
    /// Returns the number of the kind, 1 to 10.
    pub fn code(self) -> u8
        ensures { result ≡ code_of self }
    {
        match self {
            Fault::NotBooted => 1,
            Fault::OnTrial => 2,
            Fault::NotOnTrial => 3,
            Fault::NotProvisioned => 4,
            Fault::RunningDamaged(_) => 5,
            Fault::InvalidSet => 6,
            Fault::Flash(_) => 7,
            Fault::NoMemory => 8,
            Fault::Manifest(_) => 9,
            Fault::Upload(_) => 10,
        }
    }

    /// Returns the name of the kind, as it is printed.
    ///
    /// # Examples
    ///
    /// ```text
    /// let fault = Fault::RunningDamaged(1);
    /// assert!(rt; fault.code() == 5 && fault.name() == "RunningDamaged");
    /// let sentence = format!(in rt.alloc(); "{fault}")?;
    /// assert!(rt; sentence.as_str() == "the running image 1 is damaged");
    /// ```
    pub fn name(self) -> &'static str
        ensures { result.now ≡ name_of self }
    {
        match self {
            Fault::NotBooted => "NotBooted",
            Fault::OnTrial => "OnTrial",
            Fault::NotOnTrial => "NotOnTrial",
            Fault::NotProvisioned => "NotProvisioned",
            Fault::RunningDamaged(_) => "RunningDamaged",
            Fault::InvalidSet => "InvalidSet",
            Fault::Flash(_) => "Flash",
            Fault::NoMemory => "NoMemory",
            Fault::Manifest(_) => "Manifest",
            Fault::Upload(_) => "Upload",
        }
    }
}

impl From<FlashError> for Fault {
    ghost from_gives = { λ error gives. gives ≡ Fault.Flash error };

    fn from(error: FlashError) -> Fault {
        Fault::Flash(error)
    }
}
