//! The errors of calls on a flash.

ghost use Rattle.std.specs.Prelude.{◌≡◌};
ghost use Rattle.flash_model.specs.Codes.{code_of, name_of};

use thiserror::Error;

/// The error of a call on a flash that didn't do its work. The variants have the numbers 1 and 2,
/// in this order.
#[derive(Clone, Copy, Debug, PartialEq, Eq, Error)]
pub enum FlashError {
    /// Power failed during a write. The range of the write holds any bytes, all other bytes are
    /// unchanged, and the flash is off.
    #[error("power failed during a write")]
    Cut,
    /// The flash was off before the call. Nothing changed.
    #[error("the flash is off")]
    Off,
}

/// The result of a call on a flash: a value, or a [`FlashError`].
pub type Result<T, E = FlashError> = std::result::Result<T, E>;

impl FlashError {
    /// Returns the number of the error, 1 or 2.
    pub fn code(self) -> u8
        ensures { result ≡ code_of self }
    {
        match self {
            FlashError::Cut => 1,
            FlashError::Off => 2,
        }
    }

    /// Returns the name of the error as it is printed, `Cut` or `Off`.
    pub fn name(self) -> &'static str
        ensures { result.now ≡ name_of self }
    {
        match self {
            FlashError::Cut => "Cut",
            FlashError::Off => "Off",
        }
    }
}
