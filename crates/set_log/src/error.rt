//! The error of a read of the log.

ghost use Rattle.std.specs.Prelude.{◌≡◌};
ghost use Rattle.set_log.specs.Codes.{code_of, name_of};
ghost use Rattle.set_log.specs.declared.error.LogError.{LogError};

use flash_model::FlashError;
use thiserror::Error;

/// Why a read of the log returned no state. The numbers are 1 and 2, in this order.
#[derive(Clone, Copy, Debug, PartialEq, Eq, Error)]
pub enum LogError {
    /// The log has no state: no sector is active, the active one has no gated record, or its last
    /// gated record breaks the table of records.
    #[error("the log has no state")]
    NoLog,
    /// A call on the flash failed. A read never returns `Cut`.
    #[error("{0}")]
    Flash(FlashError),
}

impl LogError {
    /// The number of this kind: 1 or 2.
    pub fn code(self) -> u8
        ensures { result ≡ code_of self }
    {
        match self {
            LogError::NoLog => 1,
            LogError::Flash(_) => 2,
        }
    }

    /// The name of this kind, as programs print it.
    pub fn name(self) -> &'static str
        ensures { result.now ≡ name_of self }
    {
        match self {
            LogError::NoLog => "NoLog",
            LogError::Flash(_) => "Flash",
        }
    }
}

impl From<FlashError> for LogError {
    ghost from_gives = { λ error gives. gives ≡ LogError.Flash error };

    fn from(error: FlashError) -> LogError {
        LogError::Flash(error)
    }
}
