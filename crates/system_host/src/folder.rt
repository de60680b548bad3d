//! Syncs the folder of a file. The name that a file took is on the disk once its folder was synced.

use std::fs::File;
use std::io;
use std::io::ErrorKind;
use std::rt::Files;

/// Opens the folder of this name to sync it. Returns `None` if its names may not be read, because
/// such a folder can't be opened. It is opened before anything changes in it, so a failure changes
/// nothing.
pub fn open<R: Files<File = File>>(runtime: &R, name: &str) -> io::Result<Option<File>> {
    match File::open(runtime, name) {
        Ok(folder) => Ok(Some(folder)),
        Err(error) if error.kind() == ErrorKind::PermissionDenied => Ok(None),
        Err(error) => Err(error),
    }
}

/// Makes the system put the names of a folder on the disk. Some file systems can't do that, and say
/// so. Such a file system decides itself when a name is on the disk, and this returns `Ok`.
pub fn sync(folder: &File) -> io::Result<()> {
    match folder.sync_all() {
        Err(error) if is_not_to_be_had(error.kind()) => Ok(()),
        synced => synced,
    }
}

/// Returns whether an error of this kind means that a file can't be synced at all.
fn is_not_to_be_had(kind: ErrorKind) -> bool {
    matches!(kind, ErrorKind::InvalidInput | ErrorKind::Unsupported)
}
