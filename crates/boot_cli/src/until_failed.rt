//! A writer to standard error that stops at its first failed write.

use std::io;
use std::io::{ErrorKind, Write};

/// A writer that takes nothing more after a failed write, so no note follows a part of an error
/// line.
#[derive(Drop)]
pub struct UntilFailed<'a, W> {
    to: &'a mut W,
    has_failed: bool,
}

impl<'a, W: Write> UntilFailed<'a, W> {
    /// A writer that passes everything on to `to`.
    pub fn over(to: &'a mut W) -> Self {
        UntilFailed {
            to,
            has_failed: false,
        }
    }
}

impl<W: Write> Write for UntilFailed<'_, W> {
    fn write(&mut self, bytes: &[u8]) -> io::Result<usize> {
        if self.has_failed {
            return Err(io::Error::from(ErrorKind::BrokenPipe));
        }
        let written = self.to.write(bytes);
        self.has_failed = match &written {
            Ok(count) => *count == 0 && !bytes.is_empty(),
            // The caller repeats an interrupted write.
            Err(error) => error.kind() != ErrorKind::Interrupted,
        };
        written
    }

    fn flush(&mut self) -> io::Result<()> {
        if self.has_failed {
            return Err(io::Error::from(ErrorKind::BrokenPipe));
        }
        let flushed = self.to.flush();
        self.has_failed = flushed.is_err();
        flushed
    }
}
