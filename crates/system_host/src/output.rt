//! Standard output and standard error, buffered: each write to the system is a line or a text.

ghost use Rattle.std.specs.Prelude.{◌≡◌, ◌≤◌, [], IfOk, IsTrue, OnOk, drop, false};
ghost use Rattle.std.specs.Io.{WritesAtMost};
ghost use Rattle.std.specs.Io.KnownBytes.{Appends, Keeps, WriteAppends, append_known};
ghost use Rattle.system_host.specs.Held.{held_contents};

use crate::limits::{OutputFile, Room};
use arrayvec::ArrayVec;
use std::io;
use std::io::{ErrorKind, Write};
use std::rt::Files;

/// The size of the buffer in bytes. The longest error line is shorter.
const MOST_HELD: usize = 1 << 13;

/// An output of the program that buffers what is written until it is flushed, or until the buffer
/// is full. It doesn't allocate. If the output is a plain file, no write goes past the length that
/// the system lets it have.
///
/// What a failed flush doesn't write stays in the buffer. What is in the buffer when this is
/// dropped is lost.
#[derive(Drop)]
pub struct Output<R, W> {
    to: W,
    room: Room<R>,
    held: ArrayVec<u8, MOST_HELD>,
    sent: usize,
}

impl<R: Files, W: Write> Output<R, W> {
    /// Creates an output that writes to `to`. `file` says which output of the program that is.
    pub fn new(runtime: R, to: W, file: OutputFile) -> Self {
        Output {
            to,
            room: Room::of(runtime, file),
            held: ArrayVec::new(),
            sent: 0,
        }
    }

    /// Adds these bytes to the buffer if they fit, and returns whether they did. Nothing is added
    /// while a part of the buffer was sent.
    fn hold(&mut self, bytes: &[u8]) -> bool
        ensures held { IsTrue result → Appends
            (held_contents W.contents self.old.to self.old.held.items self.old.sent)
            (held_contents W.contents self.new.to self.new.held.items self.new.sent) bytes.now }
        ensures full { result ≡ false → self.new ≡ self.old }
    {
        self.sent == 0 && self.held.try_extend_from_slice(bytes).is_ok()
    }

    /// Writes the complete buffer.
    fn send_held(&mut self) -> io::Result<()>
        ensures kept { Keeps (held_contents W.contents self.old.to self.old.held.items self.old.sent)
            (held_contents W.contents self.new.to self.new.held.items self.new.sent) }
        ensures sent { OnOk result (self.new.held.items ≡ []) }
        ensures none { OnOk result (self.new.sent ≡ 0) }
    {
        for _ in 0..u64::MAX {
            if self.sent >= self.held.len() {
                self.held.clear();
                self.sent = 0;
                return Ok(());
            }
            match write_within(&mut self.to, self.room.left(), &self.held[self.sent..]) {
                Ok(0) => return Err(io::Error::from(ErrorKind::WriteZero)),
                Ok(count) => self.sent += count,
                Err(error) if error.kind() == ErrorKind::Interrupted => {}
                Err(error) => return Err(error),
            }
        }
        Err(io::Error::from(ErrorKind::TimedOut))
    }
}

impl<R: Files, W: Write> Write for Output<R, W> {
    ghost contents = { λ output. held_contents W.contents output.to output.held.items output.sent };

    fn write(&mut self, bytes: &[u8]) -> io::Result<usize> {
        if self.hold(bytes) {
            return Ok(bytes.len());
        }
        self.send_held()?;
        if self.hold(bytes) {
            return Ok(bytes.len());
        }
        write_within(&mut self.to, self.room.left(), bytes)
    }

    fn flush(&mut self) -> io::Result<()> {
        self.send_held()?;
        self.to.flush()
    }
}

/// Writes at most `room` of these bytes in one write, and returns how many were written.
fn write_within<W: Write>(to: &mut W, room: u64, bytes: &[u8]) -> io::Result<usize>
    ensures bound { WritesAtMost result bytes.now }
    ensures bytes { WriteAppends (W.contents to.old) (W.contents to.new) result bytes.now }
    ensures within { IfOk result (λ count. count ≤ room) }
{
    let count = usize::try_from(room).unwrap_or(usize::MAX).min(bytes.len());
    if count == 0 && !bytes.is_empty() {
        return Err(io::Error::from(ErrorKind::FileTooLarge));
    }
    to.write(&bytes[..count])
}
