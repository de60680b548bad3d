//! Locks a block device by its number, whatever the name of its node, and finds out whether the
//! system uses it. The check is needed because the system lets a program write to a mounted device.
//!
//! It reads `/proc` and `/sys`: what is mounted in the program's own view, swap, and the holders of
//! a device such as device mapper. It doesn't see three things: what is mounted for other
//! containers alone, the further devices of a file system that has several, and a program that has
//! the device open.

use crate::file_reading;
use crate::holding::{fault_of, lock};
use host::{Access, FlashFault};
use std::alloc::Global;
use std::fs::{File, Metadata};
use std::io::{ErrorKind, Read};
use std::os::unix::fs::{FileTypeExt, MetadataExt};
use std::rt::Files;
use std::{fs, io, str};

/// The mounted file systems, one a line.
const MOUNTS: &str = "/proc/self/mountinfo";

/// The files and devices that memory is swapped to, one a line.
const SWAPS: &str = "/proc/swaps";

/// The most bytes that are read of these.
const MOST: u32 = 1 << 24;

/// The number of a block device.
#[derive(Clone, Copy, PartialEq, Eq)]
struct Number {
    major: u64,
    minor: u64,
}

/// A block device of a system, and the whole disk if it is a part of one.
#[derive(Drop)]
struct Device<'a, R> {
    runtime: &'a R,
    alloc: Global,
    number: Number,
    disk: Option<Number>,
}

/// Locks the file that the system has under the number of a block device, for `access`. All nodes
/// of the device share that file, and the lock of one node doesn't bind the others. Returns `None`
/// for a plain file, and on a system without `/sys`.
///
/// # Errors
/// `InUse` if another program holds the lock, or if the device is to be written and the system uses
/// it.
pub fn hold_number<R: Files<File = File>>(
    runtime: &R,
    alloc: Global,
    found: &Metadata,
    access: Access,
) -> Result<Option<File>, FlashFault> {
    let Some(number) = number_of(found) else {
        return Ok(None);
    };
    let path = path_of(alloc, number, "dev").map_err(fault_of)?;
    let common = File::open(runtime, path.as_str()).ok();
    if let Some(common) = &common {
        lock(common, access)?;
    }
    if access == Access::Read {
        return Ok(common);
    }
    let disk = disk_of(runtime, alloc, number).map_err(fault_of)?;
    let device = Device {
        runtime,
        alloc,
        number,
        disk,
    };
    if device.is_in_use().map_err(fault_of)? {
        return Err(FlashFault::InUse);
    }
    Ok(common)
}

/// Returns the number of a block device.
fn number_of(found: &Metadata) -> Option<Number> {
    if !found.file_type().is_block_device() {
        return None;
    }
    let device = found.rdev();
    Some(Number {
        major: (device >> 8 & 0xfff) | (device >> 32 & 0xffff_f000),
        minor: (device & 0xff) | (device >> 12 & 0xffff_ff00),
    })
}

/// Returns the path of the file of this name in which Linux describes the device of this number.
fn path_of(alloc: Global, number: Number, name: &str) -> io::Result<String> {
    let Number { major, minor } = number;
    Ok(format!(in alloc; "/sys/dev/block/{major}:{minor}/{name}")?)
}

/// Returns the disk that the device of this number is a part of.
fn disk_of<R: Files<File = File>>(
    runtime: &R,
    alloc: Global,
    number: Number,
) -> io::Result<Option<Number>> {
    let partition = path_of(alloc, number, "partition")?;
    if fs::metadata(runtime, partition.as_str()).is_err() {
        return Ok(None);
    }
    let path = path_of(alloc, number, "../dev")?;
    Ok(number_in(lines_of(runtime, alloc, path.as_str())?.trim_ascii()))
}

/// Returns the number that these bytes spell, as in `8:1`.
fn number_in(bytes: &[u8]) -> Option<Number> {
    let (major, minor) = str::from_utf8(bytes).ok()?.split_once(':')?;
    Some(Number {
        major: major.parse().ok()?,
        minor: minor.parse().ok()?,
    })
}

/// Reads a file of `/proc` or `/sys`. A missing file counts as empty.
fn lines_of<R: Files<File = File>>(runtime: &R, alloc: Global, name: &str) -> io::Result<Vec<u8>> {
    match file_reading::read_start(runtime, alloc, name, MOST) {
        Ok(bytes) if bytes.len() > MOST as usize => Err(io::Error::from(ErrorKind::FileTooLarge)),
        Err(error) if error.kind() == ErrorKind::NotFound => Ok(Vec::new(alloc)),
        read => read,
    }
}

/// Returns the number of the block device that a node of this name is of.
fn number_at<R: Files>(runtime: &R, name: Option<&[u8]>) -> Option<Number> {
    let name = str::from_utf8(name?).ok()?;
    if !name.starts_with("/dev/") {
        return None;
    }
    number_of(&fs::metadata(runtime, name).ok()?)
}

impl<R: Files<File = File>> Device<'_, R> {
    /// Returns whether the system uses the device, its disk or a part of it.
    fn is_in_use(&self) -> io::Result<bool> {
        Ok(self.is_mounted()? || self.is_swapped_to()? || self.is_held()?)
    }

    /// Returns whether `other` is the device, its disk or a part of it.
    fn overlaps(&self, other: Option<Number>) -> io::Result<bool> {
        let Some(other) = other else {
            return Ok(false);
        };
        if other == self.number || self.disk == Some(other) {
            return Ok(true);
        }
        Ok(disk_of(self.runtime, self.alloc, other)? == Some(self.number))
    }

    /// Returns whether the device is mounted. Its number is the third word of a line. Some file
    /// systems have no such number there. Their node is the third word from the word `-` on.
    fn is_mounted(&self) -> io::Result<bool> {
        let mounts = lines_of(self.runtime, self.alloc, MOUNTS)?;
        for line in mounts.split(|byte| *byte == b'\n') {
            let mut words = line.split(|byte| *byte == b' ');
            let number = words.nth(2).and_then(number_in);
            let node = words.skip_while(|word| *word != b"-".as_slice()).nth(2);
            if self.overlaps(number)? || self.overlaps(number_at(self.runtime, node))? {
                return Ok(true);
            }
        }
        Ok(false)
    }

    /// Returns whether memory is swapped to the device. Its node is the first word of a line.
    fn is_swapped_to(&self) -> io::Result<bool> {
        let swaps = lines_of(self.runtime, self.alloc, SWAPS)?;
        for line in swaps.split(|byte| *byte == b'\n') {
            let node = line.split(|byte| *byte == b' ' || *byte == b'\t').next();
            if self.overlaps(number_at(self.runtime, node))? {
                return Ok(true);
            }
        }
        Ok(false)
    }

    /// Returns whether device mapper or the like holds the device, its disk or a part of it.
    fn is_held(&self) -> io::Result<bool> {
        let own = path_of(self.alloc, self.number, "")?;
        Ok(
            has_holders(self.runtime, self.alloc, own.as_str(), "")?
                || self.is_disk_held()?
                || self.is_part_held(own.as_str())?,
        )
    }

    /// Returns whether something holds its disk.
    fn is_disk_held(&self) -> io::Result<bool> {
        let Some(disk) = self.disk else {
            return Ok(false);
        };
        let folder = path_of(self.alloc, disk, "")?;
        has_holders(self.runtime, self.alloc, folder.as_str(), "")
    }

    /// Returns whether something holds a part of the device, which has this folder.
    fn is_part_held(&self, folder: &str) -> io::Result<bool> {
        let names = names_in(self.runtime, self.alloc, folder)?;
        for name in names.split(|byte| *byte == 0) {
            if is_held_part(self.runtime, self.alloc, folder, name)? {
                return Ok(true);
            }
        }
        Ok(false)
    }
}

/// Returns whether this name in the folder of a device is a part of it that something holds.
fn is_held_part<R: Files>(
    runtime: &R,
    alloc: Global,
    folder: &str,
    name: &[u8],
) -> io::Result<bool> {
    let Ok(name) = str::from_utf8(name) else {
        return Ok(false);
    };
    let number = format!(in alloc; "{folder}{name}/partition")?;
    Ok(fs::metadata(runtime, number.as_str()).is_ok() && has_holders(runtime, alloc, folder, name)?)
}

/// Returns whether something holds the device of this folder, or its part of this name.
fn has_holders<R: Files>(runtime: &R, alloc: Global, folder: &str, part: &str) -> io::Result<bool> {
    let path = format!(in alloc; "{folder}{part}/holders")?;
    let names = names_in(runtime, alloc, path.as_str())?;
    Ok(
        names
            .split(|byte| *byte == 0)
            .any(|name| !matches!(name, b"" | b"." | b"..")),
    )
}

/// Returns the names in a folder, each followed by a zero byte, or nothing if there is no folder.
fn names_in<R: Files>(runtime: &R, alloc: Global, folder: &str) -> io::Result<Vec<u8>> {
    let mut names = Vec::new(alloc);
    match runtime.open_dir(folder) {
        Ok(mut open) => {
            open.read_to_end(&mut names)?;
            Ok(names)
        }
        Err(error) if error.kind() == ErrorKind::NotFound => Ok(names),
        Err(error) => Err(error),
    }
}
