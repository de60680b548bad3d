//! Reads a file or an input up to a limit, or only a part of it.

ghost use Rattle.std.specs.Prelude.{◌≡◌, ◌+◌, ◌≤◌, IfOk, IfSome, OnOk, length, true};
ghost use Rattle.host.specs.Input.{IsKnownAs, IsKnownPart};
ghost use Rattle.system_host.specs.Passing.{BeginsWith, Passes};

use host::{FilePart, MOST_FILE};
use std::alloc::Global;
use std::fs::{File, OpenFile};
use std::io::{ErrorKind, Read};
use std::os::unix::fs::FileExt;
use std::rt::Files;
use std::{fs, io};

/// The most bytes that are read at a time and not stored.
const BLOCK: usize = 1 << 13;

/// Reads the file of this name into memory of `alloc`. Returns all its bytes if there are at most
/// `most`, and else its first `most + 1` bytes.
pub fn read_start<R: Files<File = File>>(
    runtime: &R,
    alloc: Global,
    name: &str,
    most: u32,
) -> io::Result<Vec<u8>> {
    let mut bytes = Vec::new(alloc);
    File::open(runtime, name)?
        .take(u64::from(most) + 1)
        .read_to_end(&mut bytes)?;
    Ok(bytes)
}

/// Reads the rest of an input into memory of `alloc`. Returns all of it if that is at most `most`
/// bytes, and else the next `most + 1` bytes.
pub fn read_input<I: Read>(alloc: Global, input: &mut I, most: u32) -> io::Result<Vec<u8>>
    ensures { IfOk result (λ bytes. length bytes.items ≤ most
        → IsKnownAs (I.remaining input.old) bytes.items) }
{
    let mut bytes = Vec::new(alloc);
    let mut start = input.take(u64::from(most) + 1);
    start.read_to_end(&mut bytes)?;
    Ok(bytes)
}

/// Returns whether the file of this name is a plain one.
pub fn is_plain<R: Files>(runtime: &R, name: &str) -> io::Result<bool> {
    Ok(fs::metadata(runtime, name)?.is_file())
}

/// Reads a part of the file of this name into memory of `alloc`. Returns `None` if the file doesn't
/// have it. Nothing else is read of a plain file. A pipe or a device has no known length, so it is
/// read from its front up to the end of the part.
///
/// # Errors
/// One of kind `FileTooLarge` if the part has more than [`MOST_FILE`] bytes. The same is returned
/// if a file that is read from its front has more bytes than that and the part ends after them.
pub fn read_part<R: Files<File = File>>(
    runtime: &R,
    alloc: Global,
    name: &str,
    part: FilePart,
) -> io::Result<Option<Vec<u8>>>
    ensures many { IfOk result (λ read. IfSome read (λ found. length found.items ≡ part.count)) }
    ensures most { IfOk result (λ read. IfSome read (λ found. length found.items ≤ MOST_FILE)) }
{
    let FilePart { from, count } = part;
    let mut file = File::open(runtime, name)?;
    let found = file.metadata()?;
    if !found.is_file() {
        return read_through(alloc, &mut file, from, count);
    }
    match from.checked_add(count) {
        Some(end) if end as u64 <= found.len() => Ok(Some(read_at(alloc, &file, from, count)?)),
        _ => Ok(None),
    }
}

/// Reads `count` bytes from byte `from` on of a plain file that has them.
fn read_at(alloc: Global, file: &File, from: usize, count: usize) -> io::Result<Vec<u8>>
    ensures many { IfOk result (λ part. length part.items ≡ count) }
    ensures most { IfOk result (λ part. length part.items ≤ MOST_FILE) }
{
    if count > MOST_FILE as usize {
        return Err(io::Error::from(ErrorKind::FileTooLarge));
    }
    let mut part = vec![in alloc; 0; count]?;
    file.read_exact_at(&mut part, from as u64)?;
    Ok(part)
}

/// Reads `count` bytes of an input from byte `from` on into memory of `alloc`, or returns `None` if
/// it doesn't have them. The bytes before them are read and not stored. If the part ends after
/// [`MOST_FILE`] bytes, at most one byte more than those is read, and none is stored.
fn read_through<I: Read>(
    alloc: Global,
    input: &mut I,
    from: usize,
    count: usize,
) -> io::Result<Option<Vec<u8>>>
    ensures part { IfOk result (λ read. IfSome read (λ part.
        IsKnownPart (I.remaining input.old) from count part.items)) }
    ensures most { IfOk result (λ read. IfSome read (λ part.
        from + length part.items ≤ MOST_FILE)) }
{
    let most = MOST_FILE as usize;
    if from > most || count > most - from {
        return match pass_over(input, most + 1)? {
            true => Err(io::Error::from(ErrorKind::FileTooLarge)),
            false => Ok(None),
        };
    }
    if !pass_over(input, from)? {
        return Ok(None);
    }
    read_next(alloc, input, count)
}

/// Reads the next `count` bytes of an input into memory of `alloc`, or returns `None` if it doesn't
/// have them.
fn read_next<I: Read>(alloc: Global, input: &mut I, count: usize) -> io::Result<Option<Vec<u8>>>
    ensures many { IfOk result (λ read. IfSome read (λ part. length part.items ≡ count)) }
    ensures next { IfOk result (λ read. IfSome read (λ part.
        BeginsWith (I.remaining input.old) part.items)) }
{
    let mut part = Vec::new(alloc);
    let mut start = input.take(count as u64);
    start.read_to_end(&mut part)?;
    if part.len() != count {
        return Ok(None);
    }
    Ok(Some(part))
}

/// Reads `count` bytes of an input block by block without storing them. Returns whether it had
/// them.
fn pass_over<I: Read>(input: &mut I, count: usize) -> io::Result<bool>
    ensures { IfOk result (λ passed. passed ≡ true
        → Passes (I.remaining input.old) (I.remaining input.new) count) }
{
    let mut left = count;
    while left > 0 {
        let size = left.min(BLOCK);
        match pass_block(input, size) {
            Ok(()) => left -= size,
            Err(error) if error.kind() == ErrorKind::UnexpectedEof => return Ok(false),
            Err(error) => return Err(error),
        }
    }
    Ok(true)
}

/// Reads `size` bytes of an input in one block without storing them.
fn pass_block<I: Read>(input: &mut I, size: usize) -> io::Result<()>
    requires { size ≤ BLOCK }
    ensures { OnOk result (Passes (I.remaining input.old) (I.remaining input.new) size) }
{
    let mut block = [0; BLOCK];
    input.read_exact(&mut block[..size])
}
