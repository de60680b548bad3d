//! The error of reading a manifest.

ghost use Rattle.std.specs.Prelude.{◌≡◌};
ghost use Rattle.manifest.specs.Codes.{code_of, name_of};

use thiserror::Error;

/// Why bytes aren't a manifest for a device: the lowest refusal that applies to their JSON value,
/// or a failed allocation. The numbers are 1 to 8, in this order.
#[derive(Clone, Copy, Debug, PartialEq, Eq, Error)]
pub enum ManifestError {
    /// The bytes aren't the JSON text of a value.
    #[error("no JSON text")]
    NotJson,
    /// The value isn't an object with exactly the keys of a manifest. Or an object among its
    /// components doesn't have exactly the keys of a component.
    #[error("a key that is missing, or one that isn't known")]
    BadKey,
    /// The value at a key isn't allowed there.
    #[error("a value that its key doesn't allow")]
    BadValue,
    /// The manifest is for devices of another vendor.
    #[error("another vendor")]
    WrongVendor,
    /// The manifest is for devices of another class.
    #[error("another class of devices")]
    WrongClass,
    /// A component is for an image that the device doesn't have.
    #[error("a component for an image that the device doesn't have")]
    NoComponent,
    /// Two components are for the same image.
    #[error("two components for the same image")]
    RepeatedComponent,
    /// An allocation failed.
    #[error("no memory for the manifest")]
    NoMemory,
}

impl ManifestError {
    /// The number of this kind: 1 to 8.
    pub fn code(self) -> u8
        ensures { result ≡ code_of self }
    {
        match self {
            ManifestError::NotJson => 1,
            ManifestError::BadKey => 2,
            ManifestError::BadValue => 3,
            ManifestError::WrongVendor => 4,
            ManifestError::WrongClass => 5,
            ManifestError::NoComponent => 6,
            ManifestError::RepeatedComponent => 7,
            ManifestError::NoMemory => 8,
        }
    }

    /// The name of this kind, as programs print it.
    pub fn name(self) -> &'static str
        ensures { result.now ≡ name_of self }
    {
        match self {
            ManifestError::NotJson => "NotJson",
            ManifestError::BadKey => "BadKey",
            ManifestError::BadValue => "BadValue",
            ManifestError::WrongVendor => "WrongVendor",
            ManifestError::WrongClass => "WrongClass",
            ManifestError::NoComponent => "NoComponent",
            ManifestError::RepeatedComponent => "RepeatedComponent",
            ManifestError::NoMemory => "NoMemory",
        }
    }
}
