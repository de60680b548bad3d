//! Locks a flash file while a command works, so that no other program changes it meanwhile.

ghost use Rattle.std.specs.Prelude.{◌≡◌, IfOk, true};

use crate::block_device::hold_number;
use crate::lasting::{Medium, put};
use crate::writing::InPlace;
use crate::{folder, limits, resolving};
use host::{Access, FlashFault};
use std::alloc::Global;
use std::cell::Cell;
use std::fs::{File, Metadata, OpenOptions, TryLockError};
use std::io::{ErrorKind, Seek, SeekFrom};
use std::os::unix::fs::{FileTypeExt, MetadataExt};
use std::rt::Files;
use std::{fs, io};

/// An open file of a flash, which this program locks until it is dropped.
#[derive(Drop)]
pub struct HeldFile {
    /// The file.
    pub file: File,
    /// The name by which it was opened.
    name: String,
    /// Its length in bytes when it was opened.
    length: u64,
    /// Whether it is a block device.
    pub is_device: bool,
    /// Whether each write has to be on the medium before the next one. This is so for a device,
    /// which may lose power, and for a file that is opened with `WriteDurably`.
    pub is_durable: bool,
    /// The folder that has to be synced too, if the name of the file is to be durable.
    folder: Option<File>,
    /// The lock of a block device by its number, whatever its name.
    by_number: Option<File>,
    /// The length in bytes past which it may not be written, if there is such a limit.
    most: Option<u64>,
    /// The error of the last write or sync that failed. The system reports it once.
    failed: Cell<Option<io::Error>>,
}

/// Opens the file of this name for `access` and locks it. It must be a plain file or a block device
/// of `length` bytes.
///
/// The lock is that of the complete file (`flock`), which other runs of this program respect. It is
/// shared for reading, and exclusive for writing. A block device is locked by its number too.
///
/// # Errors
/// - `InUse` if another program holds the lock or has replaced the file. The same if the system uses
///   a block device that is to be written.
/// - `WrongLength` if the file doesn't have `length` bytes.
/// - `OnlyReadable` if it is to be opened for writing, and can only be opened for reading.
/// - `NoMemory` if memory ran out.
/// - `Failed` if the system could not open, lock or measure it, or could not open its folder.
pub fn open<R: Files<File = File>>(
    runtime: &R,
    alloc: Global,
    name: &str,
    length: u64,
    access: Access,
) -> Result<HeldFile, FlashFault>
    ensures device { IfOk result (λ held. held.is_device ≡ true → held.is_durable ≡ true) }
    ensures asked { access ≡ Access.WriteDurably → IfOk result (λ held. held.is_durable ≡ true) }
{
    let (file, found, only_readable) = open_plain(runtime, name, access).map_err(
        FlashFault::Failed,
    )?;
    hold(runtime, name, &file, access)?;
    let is_device = found.file_type().is_block_device();
    let by_number = hold_number(runtime, alloc, &found, access)?;
    if length_of(&file).map_err(FlashFault::Failed)? != length {
        return Err(FlashFault::WrongLength);
    }
    if let Some(error) = only_readable {
        return Err(FlashFault::OnlyReadable(error));
    }
    let is_named_durably = !is_device && access == Access::WriteDurably;
    let folder = folder_of(runtime, alloc, name, is_named_durably)?;
    let Ok(name) = String::from_str(alloc, name) else {
        return Err(FlashFault::NoMemory);
    };
    Ok(HeldFile {
        file,
        name,
        length,
        is_device,
        is_durable: is_device || access == Access::WriteDurably,
        folder,
        by_number,
        most: most_of(runtime, access, is_device),
        failed: Cell::new(None),
    })
}

impl HeldFile {
    /// Writes all of `bytes` from byte `at` on.
    pub fn write(&self, at: u64, bytes: &[u8]) -> io::Result<()> {
        self.keep_error(self.write_within(at, bytes))
    }

    /// Writes all of `bytes`, unless they end past the limit of the file's length.
    fn write_within(&self, at: u64, bytes: &[u8]) -> io::Result<()> {
        limits::refuse_past(self.most, at, bytes.len())?;
        let mut flash = InPlace { file: &self.file };
        put(&mut flash, at, bytes, self.is_durable)
    }

    /// Makes the system put all that was written on the medium, and the name of a plain file too if
    /// that is to be durable.
    ///
    /// # Errors
    /// The sync failed, or a write or sync failed before. Also if the name leads to another file or
    /// to none, or if the file's length changed: the name doesn't lead to the written flash then.
    pub fn sync<R: Files>(&self, runtime: &R) -> io::Result<()> {
        match self.failed.get() {
            Some(error) => Err(error),
            None => self.keep_error(self.sync_all(runtime)),
        }
    }

    /// Returns the result of a write or a sync, and saves its error.
    fn keep_error(&self, done: io::Result<()>) -> io::Result<()> {
        if let Err(error) = &done {
            self.failed.set(Some(*error));
        }
        done
    }

    fn sync_all<R: Files>(&self, runtime: &R) -> io::Result<()> {
        InPlace { file: &self.file }.sync()?;
        if let Some(folder) = &self.folder {
            folder::sync(folder)?;
        }
        if !is_one_file(
            &self.file.metadata()?,
            &fs::metadata(runtime, self.name.as_str())?,
        ) {
            return Err(io::Error::other("another file has its name"));
        }
        if length_of(&self.file)? != self.length {
            return Err(io::Error::other("its length changed"));
        }
        Ok(())
    }
}

/// Returns the length in bytes past which a file that is opened for `access` may not be written. A
/// block device has no such limit.
fn most_of<R: Files>(runtime: &R, access: Access, is_device: bool) -> Option<u64> {
    match access {
        Access::Write | Access::WriteDurably if !is_device => limits::most_bytes(runtime),
        _ => None,
    }
}

/// Opens a file that can be locked. Returns it, its metadata, and why it can't be written if it was
/// to be opened for writing and could only be opened for reading. A pipe or another file that is no
/// sequence of bytes is refused before it is opened, because opening it could block forever.
fn open_plain<R: Files<File = File>>(
    runtime: &R,
    name: &str,
    access: Access,
) -> io::Result<(File, Metadata, Option<io::Error>)> {
    refuse_others(&fs::metadata(runtime, name)?)?;
    // If a standard stream was closed when the program started, the file gets its number. Then a
    // write to that stream would go into the file. A clone has another number.
    let (file, only_readable) = open_for(runtime, name, access)?;
    let file = file.try_clone()?;
    let found = file.metadata()?;
    refuse_others(&found)?;
    Ok((file, found, only_readable))
}

/// Refuses a file that is neither a plain file nor a block device.
fn refuse_others(found: &Metadata) -> io::Result<()> {
    if found.is_file() || found.file_type().is_block_device() {
        return Ok(());
    }
    if found.is_dir() {
        return Err(io::Error::from(ErrorKind::IsADirectory));
    }
    Err(io::Error::other("neither a plain file nor a block device"))
}

/// Opens a file to be read, and to be written too if `access` asks for it. If that isn't possible,
/// it is opened to be read, and the reason is returned too.
fn open_for<R: Files<File = File>>(
    runtime: &R,
    name: &str,
    access: Access,
) -> io::Result<(File, Option<io::Error>)> {
    if access == Access::Read {
        return Ok((File::open(runtime, name)?, None));
    }
    match OpenOptions::new()
        .read(true)
        .write(true)
        .open(runtime, name)
    {
        Ok(file) => Ok((file, None)),
        Err(error) => Ok((File::open(runtime, name)?, Some(error))),
    }
}

/// Opens the folder that a file of this name is in, after following links, if it is to be synced.
fn folder_of<R: Files<File = File>>(
    runtime: &R,
    alloc: Global,
    name: &str,
    is_asked: bool,
) -> Result<Option<File>, FlashFault> {
    if !is_asked {
        return Ok(None);
    }
    let place = resolving::resolve(runtime, alloc, name).map_err(fault_of)?;
    folder::open(runtime, place.folder.as_str()).map_err(FlashFault::Failed)
}

/// Returns the fault for an error of opening or making a file.
pub fn fault_of(error: io::Error) -> FlashFault {
    match error.kind() {
        ErrorKind::OutOfMemory => FlashFault::NoMemory,
        _ => FlashFault::Failed(error),
    }
}

/// Locks a file that this program opened by this name. A file that has lost its name meanwhile, as
/// one does when it is replaced, is in use.
fn hold<R: Files>(runtime: &R, name: &str, file: &File, access: Access) -> Result<(), FlashFault> {
    lock(file, access)?;
    match (file.metadata(), fs::metadata(runtime, name)) {
        (Ok(one), Ok(other)) if is_one_file(&one, &other) => Ok(()),
        (Ok(_), Ok(_)) => Err(FlashFault::InUse),
        (Err(error), _) | (_, Err(error)) => Err(FlashFault::Failed(error)),
    }
}

/// Locks a file: shared for reading, and exclusively for writing.
pub fn lock(file: &File, access: Access) -> Result<(), FlashFault> {
    let held = match access {
        Access::Read => file.try_lock_shared(),
        Access::Write | Access::WriteDurably => file.try_lock(),
    };
    match held {
        Ok(()) => Ok(()),
        Err(TryLockError::WouldBlock) => Err(FlashFault::InUse),
        Err(TryLockError::Error(error)) => Err(FlashFault::Failed(error)),
    }
}

/// Locks a file exclusively that this program opened by this path, in which no part was a link. The
/// file is in use if the path doesn't lead to it any more, or leads to it by a link.
pub fn hold_path<R: Files>(runtime: &R, path: &str, file: &File) -> Result<(), FlashFault> {
    lock(file, Access::Write)?;
    match is_named(runtime, path, file) {
        Ok(true) => Ok(()),
        Ok(false) => Err(FlashFault::InUse),
        Err(error) => Err(FlashFault::Failed(error)),
    }
}

/// Returns whether this path names an open file, and is no link to it.
pub fn is_named<R: Files>(runtime: &R, path: &str, file: &File) -> io::Result<bool> {
    match fs::symlink_metadata(runtime, path) {
        Ok(found) => Ok(is_one_file(&found, &file.metadata()?)),
        Err(error) if error.kind() == ErrorKind::NotFound => Ok(false),
        Err(error) => Err(error),
    }
}

/// Returns whether the metadata of two files is that of one file.
pub fn is_one_file(one: &Metadata, other: &Metadata) -> bool {
    one.dev() == other.dev() && one.ino() == other.ino()
}

/// Returns the length in bytes of the file of this name, which is a plain one or a block device.
pub fn length_of_name<R: Files<File = File>>(runtime: &R, name: &str) -> io::Result<u64> {
    let (file, _, _) = open_plain(runtime, name, Access::Read)?;
    length_of(&file)
}

/// Returns the length in bytes of a file, which may be a block device.
fn length_of(file: &File) -> io::Result<u64> {
    let mut file = file;
    file.seek(SeekFrom::End(0))
}
