//! Replaces a complete file: its old contents stay until all of the new ones are on the disk. A
//! block device can't be replaced, so it is written in place. The file is found and locked first,
//! and whoever asks for it can look at it before.

use crate::holding::{fault_of, hold_path, is_one_file};
use crate::lasting::{place, put};
use crate::new_file::{Beside, OldFile};
use crate::resolving::{Place, resolve};
use crate::writing::InPlace;
use crate::{file_reading, holding};
use host::{Access, FlashFault, Replaced};
use std::alloc::Global;
use std::fs::{File, Metadata, OpenOptions};
use std::io::{ErrorKind, Seek, SeekFrom};
use std::os::unix::fs::FileTypeExt;
use std::random::RandomSource;
use std::rt::Files;
use std::{fs, io};

/// Returns whether two names are of one existing file. Symbolic links are followed, and the names
/// of one file share its number.
pub fn is_same_file<R: Files>(runtime: &R, one: &str, other: &str) -> io::Result<bool> {
    match (found(runtime, one)?, found(runtime, other)?) {
        (Some(one), Some(other)) => Ok(is_one_file(&one, &other)),
        _ => Ok(false),
    }
}

/// Returns the metadata of the file of this name, or `None` if there is no such file.
fn found<R: Files>(runtime: &R, name: &str) -> io::Result<Option<Metadata>> {
    there(fs::metadata(runtime, name))
}

/// Returns the metadata that was found, or `None` if there is no such file.
fn there(found: io::Result<Metadata>) -> io::Result<Option<Metadata>> {
    match found {
        Ok(metadata) => Ok(Some(metadata)),
        Err(error) if error.kind() == ErrorKind::NotFound => Ok(None),
        Err(error) => Err(error),
    }
}

/// A file that is to be made or replaced, as it was found.
#[derive(Drop)]
pub struct HeldOutput {
    /// The name by which it was looked up.
    name: String,
    /// Where that name led.
    place: Place,
    /// What was there.
    found: OldOutput,
}

/// What was found where a file is to be made or replaced.
#[derive(Drop)]
enum OldOutput {
    /// No file.
    Nothing,
    /// A plain file.
    Plain(OldFile),
    /// A block device.
    Device(Metadata),
}

/// Looks up the file of this name, which is to be made or replaced. The name is looked up once.
///
/// A plain file must be one that can be written, and is locked until the result is dropped. A
/// symbolic link that leads nowhere is refused.
pub fn hold<R: Files<File = File>>(
    runtime: &R,
    alloc: Global,
    name: &str,
    replaced: Replaced,
) -> Result<HeldOutput, FlashFault> {
    let place = resolve(runtime, alloc, name).map_err(fault_of)?;
    let metadata = there(fs::symlink_metadata(runtime, place.path.as_str()));
    let found = match metadata.map_err(FlashFault::Failed)? {
        Some(old) if replaced == Replaced::FlashFile && old.file_type().is_block_device() =>
            OldOutput::Device(old),
        Some(old) => OldOutput::Plain(open_old(runtime, &place, old)?),
        None => OldOutput::Nothing,
    };
    match String::from_str(alloc, name) {
        Ok(name) => Ok(HeldOutput { name, place, found }),
        Err(_) => Err(FlashFault::NoMemory),
    }
}

impl HeldOutput {
    /// Returns whether it was looked up by this name.
    pub fn is_of(&self, name: &str) -> bool {
        self.name.as_str() == name
    }

    /// Returns whether it is the file of another name.
    pub fn is_file<R: Files>(&self, runtime: &R, other: &str) -> io::Result<bool> {
        match (self.metadata(), found(runtime, other)?) {
            (Some(own), Some(other)) => Ok(is_one_file(own, &other)),
            _ => Ok(false),
        }
    }

    /// Returns whether it is a plain file.
    pub fn is_plain(&self) -> io::Result<bool> {
        match self.metadata() {
            Some(own) => Ok(own.is_file()),
            None => Err(io::Error::from(ErrorKind::NotFound)),
        }
    }

    /// Reads its start, as [`file_reading::read_start`] does.
    pub fn read_start(&self, alloc: Global, most: u32) -> io::Result<Vec<u8>> {
        let OldOutput::Plain(old) = &self.found else {
            return Err(io::Error::from(ErrorKind::NotFound));
        };
        let mut file = &old.file;
        file.seek(SeekFrom::Start(0))?;
        file_reading::read_input(alloc, &mut file, most)
    }

    /// Returns its length in bytes.
    pub fn length<R: Files<File = File>>(&self, runtime: &R) -> io::Result<u64> {
        match &self.found {
            OldOutput::Plain(old) => Ok(old.file.metadata()?.len()),
            OldOutput::Device(_) => holding::length_of_name(runtime, self.place.path.as_str()),
            OldOutput::Nothing => Err(io::Error::from(ErrorKind::NotFound)),
        }
    }

    /// Replaces it by a file that holds `bytes`, or makes it if there was none.
    ///
    /// The bytes are written to a new file in the same folder, which no other run of this program
    /// can use. It takes the name once the bytes are on the disk, and then the folder is synced. If
    /// anything fails before it has the name, it is removed. If the sync of the folder fails, the
    /// file of this name is the complete new one. A power cut may restore the old one.
    ///
    /// The permissions of a replaced file stay. A symbolic link to it stays too. If there was no
    /// file and another program has made one, that file stays, and is in use. A block device is
    /// written by [`write_device`].
    pub fn replace<R: Files<File = File> + RandomSource>(
        &self,
        runtime: &R,
        alloc: Global,
        bytes: &[u8],
    ) -> Result<(), FlashFault> {
        match &self.found {
            OldOutput::Nothing => put_file(runtime, alloc, &self.place, None, bytes),
            OldOutput::Plain(old) => put_file(runtime, alloc, &self.place, Some(old), bytes),
            OldOutput::Device(_) => write_device(runtime, alloc, self.place.path.as_str(), bytes),
        }
    }

    /// Returns the metadata of the file that was found.
    fn metadata(&self) -> Option<&Metadata> {
        match &self.found {
            OldOutput::Nothing => None,
            OldOutput::Plain(old) => Some(&old.found),
            OldOutput::Device(found) => Some(found),
        }
    }
}

/// Writes a block device of the length of `bytes` in place, locks it meanwhile, and returns once
/// the bytes are on the medium. If a write fails, the device holds a part of them, because there is
/// no other place to put them first.
fn write_device<R: Files<File = File>>(
    runtime: &R,
    alloc: Global,
    path: &str,
    bytes: &[u8],
) -> Result<(), FlashFault> {
    let length = bytes.len() as u64;
    let held = holding::open(runtime, alloc, path, length, Access::Write)?;
    // Another file may have taken the name, and it must not be overwritten in part.
    if !held.is_device {
        return Err(FlashFault::Failed(io::Error::from(ErrorKind::InvalidInput)));
    }
    let mut device = InPlace { file: &held.file };
    put(&mut device, 0, bytes, true).map_err(FlashFault::Failed)
}

/// Opens and locks the file that is to be replaced at this place, a plain one that can be written.
/// A link that is found there was put there after the name was looked up, so the file is in use.
fn open_old<R: Files<File = File>>(
    runtime: &R,
    place: &Place,
    found: Metadata,
) -> Result<OldFile, FlashFault> {
    if found.is_symlink() {
        return Err(FlashFault::InUse);
    }
    if !found.is_file() {
        return Err(FlashFault::Failed(io::Error::from(ErrorKind::InvalidInput)));
    }
    let path = place.path.as_str();
    let file = open_to_replace(runtime, path).map_err(FlashFault::Failed)?;
    hold_path(runtime, path, &file)?;
    let found = file.metadata().map_err(FlashFault::Failed)?;
    Ok(OldFile { file, found })
}

/// Opens a file that is to be replaced. It must be one that can be written, and is opened for reading
/// too if that is possible. As a clone it has the number of no standard stream.
fn open_to_replace<R: Files<File = File>>(runtime: &R, path: &str) -> io::Result<File> {
    let both = OpenOptions::new()
        .read(true)
        .write(true)
        .open(runtime, path);
    match both {
        Ok(file) => file.try_clone(),
        Err(_) => OpenOptions::new()
            .write(true)
            .open(runtime, path)?
            .try_clone(),
    }
}

/// Writes a new file of these bytes and puts it at this place. That is the place of `old`, or free.
fn put_file<R: Files<File = File> + RandomSource>(
    runtime: &R,
    alloc: Global,
    at: &Place,
    old: Option<&OldFile>,
    bytes: &[u8],
) -> Result<(), FlashFault> {
    let mut new = Beside::make(runtime, alloc, at, old)?;
    place(&mut new, bytes)
}
