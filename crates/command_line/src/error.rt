//! The reasons why arguments give no order.

ghost use Rattle.std.specs.Prelude.{◌≡◌};
ghost use Rattle.command_line.specs.Codes.{code_of, name_of};
ghost use Rattle.command_line.specs.Faults.{IsNoMemory, Says};

use clap::error::ErrorKind;
use std::alloc::AllocError;
use thiserror::Error;

/// Why arguments give no order. The numbers are 1 and 2, in this order.
#[derive(Debug, Drop, Error)]
pub enum OrderError {
    /// `clap` or the program refuses the arguments, or they ask for help or the version. The error
    /// has the text to print and the exit status. Its kind is never that memory ran out.
    #[error("{0}")]
    Usage(clap::Error),
    /// Memory ran out.
    #[error("memory")]
    NoMemory,
}

impl OrderError {
    /// Returns the number of the kind, 1 or 2.
    pub fn code(&self) -> u8
        ensures { result ≡ code_of self.now }
    {
        match self {
            OrderError::Usage(_) => 1,
            OrderError::NoMemory => 2,
        }
    }

    /// Returns the name of the kind.
    pub fn name(&self) -> &'static str
        ensures { result.now ≡ name_of self.now }
    {
        match self {
            OrderError::Usage(_) => "Usage",
            OrderError::NoMemory => "NoMemory",
        }
    }
}

impl From<AllocError> for OrderError {
    ghost from_gives = { λ _ error. IsNoMemory error };

    fn from(_error: AllocError) -> Self {
        OrderError::NoMemory
    }
}

/// Converts an error of `clap`, to `NoMemory` if memory ran out.
impl From<clap::Error> for OrderError {
    ghost from_gives = { λ answer error. Says answer error };

    fn from(answer: clap::Error) -> Self {
        match answer.kind() {
            ErrorKind::OutOfMemory => OrderError::NoMemory,
            _ => OrderError::Usage(answer),
        }
    }
}
