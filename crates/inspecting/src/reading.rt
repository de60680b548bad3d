//! Reads a reader to its end.
ghost use Rattle.std.specs.Prelude.{ℕ, List, IfOk, OnOk, OnErr};
ghost use Rattle.std.specs.Io.KnownBytes.{Consumes, IsAtEnd};

use std::alloc::Global;
use std::io::{ErrorKind, Read};
use thiserror::Error;

/// Why a reader was not read to its end.
#[derive(Clone, Copy, Debug, Error)]
pub enum ReadError {
    /// There was no memory for the bytes.
    #[error("memory")]
    NoMemory,
    /// A read failed for another reason.
    #[error("read failed")]
    Failed,
}

/// Reads `input` to its end, and returns all its bytes, in memory of `alloc`.
///
/// A read that a signal interrupts is tried again.
///
/// # Errors
/// `NoMemory` if memory is refused, `Failed` if a read fails. Then the bytes that were read are
/// lost.
pub fn read_all<R: Read>(alloc: Global, input: &mut R) -> Result<Vec<u8>, ReadError>
    ensures bytes { IfOk result (λ bytes.
        Consumes (R.remaining input.old) (R.remaining input.new) bytes.items) }
    ensures end { OnOk result (IsAtEnd (R.remaining input.new)) }
    ensures lost { OnErr result ((lost : List ℕ)
        × Consumes (R.remaining input.old) (R.remaining input.new) lost) }
{
    let mut bytes = Vec::new(alloc);
    match input.read_to_end(&mut bytes) {
        Ok(_) => Ok(bytes),
        Err(error) if error.kind() == ErrorKind::OutOfMemory => Err(ReadError::NoMemory),
        Err(_) => Err(ReadError::Failed),
    }
}
