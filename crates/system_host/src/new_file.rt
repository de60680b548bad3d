//! A new file that is made in the folder of the place that it is to take, and locked from then on.

use crate::holding::{fault_of, hold_path, is_named, lock};
use crate::lasting::NewFile;
use crate::resolving::{Place, beside};
use crate::{folder, limits, writing};
use host::{Access, FlashFault};
use std::alloc::Global;
use std::fs::{File, Metadata, OpenOptions, Permissions};
use std::io::ErrorKind;
use std::os::unix::fs::{MetadataExt, OpenOptionsExt, PermissionsExt};
use std::random::RandomSource;
use std::rt::Files;
use std::{fs, io};

/// The most names that are tried for a new file. Each is one of 2^64, so one is almost always
/// enough.
const MOST_NAMES: u32 = 8;

/// Who may use a new file that replaces another one before it is filled: at most its owner.
const OWNERS_BITS: u32 = 0o600;

/// The bits by which a program runs as the owner or the group of its file.
const IDENTITY_BITS: u32 = 0o6000;

/// The bits of a file's mode that say who may use it, and how it runs.
const MODE_BITS: u32 = 0o7777;

/// The file that is replaced. It is open and locked.
#[derive(Drop)]
pub struct OldFile {
    /// The file.
    pub file: File,
    /// Its metadata.
    pub found: Metadata,
}

/// A new file in the folder of the place that it is to take.
#[derive(Drop)]
pub struct Beside<'a, 'p, 'o, R: Files> {
    runtime: &'a R,
    file: File,
    own: String,
    place: &'p Place,
    folder: Option<File>,
    old: Option<&'o OldFile>,
}

impl<'a, 'p, 'o, R: Files<File = File> + RandomSource> Beside<'a, 'p, 'o, R> {
    /// Makes an empty file in the folder of `place` and locks it, so that no other run of this
    /// program can use it. It is to replace `old`, or to take a name that no file has if there is
    /// no `old`.
    pub fn make(
        runtime: &'a R,
        alloc: Global,
        place: &'p Place,
        old: Option<&'o OldFile>,
    ) -> Result<Self, FlashFault> {
        let folder = folder::open(runtime, place.folder.as_str()).map_err(FlashFault::Failed)?;
        let options = options_for(old);
        let (file, own) = new_file(runtime, alloc, place, &options).map_err(fault_of)?;
        let new = Beside {
            runtime,
            file,
            own,
            place,
            folder,
            old,
        };
        match lock(&new.file, Access::Write) {
            Ok(()) => Ok(new),
            Err(fault) => {
                let mut new = new;
                new.remove();
                Err(fault)
            }
        }
    }
}

/// Returns how a new file is made. If it replaces another file, only its owner may use it until it
/// is filled, and no further than the old one. Otherwise it is made as any file is.
fn options_for(old: Option<&OldFile>) -> OpenOptions {
    let mut options = OpenOptions::new();
    options.write(true).create_new(true);
    if let Some(old) = old {
        options.mode(old.found.mode() & OWNERS_BITS);
    }
    options
}

/// Makes an empty file in the folder of `place`, and returns it and its own path. Its name is
/// short, so that it can be made for a place with a name of any length. The name shows which files
/// a killed run left.
fn new_file<R: Files<File = File> + RandomSource>(
    runtime: &R,
    alloc: Global,
    place: &Place,
    options: &OpenOptions,
) -> io::Result<(File, String)> {
    for _ in 0..MOST_NAMES {
        let number = random_number(runtime)?;
        let name = format!(in alloc; ".bootswap-{number:016x}")?;
        let own = beside(alloc, place.folder.as_str(), name.as_str())?;
        match options.open(runtime, own.as_str()) {
            Ok(file) => return Ok((file, own)),
            Err(error) if error.kind() == ErrorKind::AlreadyExists => {}
            Err(error) => return Err(error),
        }
    }
    Err(io::Error::other("no name was free for a new file beside it"))
}

fn random_number<R: RandomSource>(runtime: &R) -> io::Result<u64> {
    let mut bytes = [0; 8];
    runtime.fill_bytes(&mut bytes)?;
    Ok(u64::from_le_bytes(bytes))
}

impl<R: Files<File = File>> NewFile for Beside<'_, '_, '_, R> {
    fn fill(&mut self, bytes: &[u8]) -> Result<(), FlashFault> {
        let most = limits::most_bytes(self.runtime);
        limits::refuse_past(most, 0, bytes.len()).map_err(FlashFault::Failed)?;
        writing::write_at(&self.file, 0, bytes).map_err(FlashFault::Failed)?;
        match self.old {
            Some(old) => give_mode(&self.file, &old.found).map_err(FlashFault::Failed),
            None => Ok(()),
        }
    }

    fn sync(&mut self) -> Result<(), FlashFault> {
        self.file.sync_all().map_err(FlashFault::Failed)
    }

    fn take_name(&mut self) -> Result<(), FlashFault> {
        match self.old {
            Some(old) => take_place(self.runtime, &self.own, &self.place.path, &old.file),
            None => take_free_name(self.runtime, &self.own, &self.place.path),
        }
    }

    fn sync_folder(&mut self) -> Result<(), FlashFault> {
        match &self.folder {
            Some(folder) => folder::sync(folder).map_err(FlashFault::Failed),
            None => Ok(()),
        }
    }

    fn remove(&mut self) {
        let _ = fs::remove_file(self.runtime, self.own.as_str());
    }
}

/// Gives a new file the permissions of the old one. If the new file has another owner or group, it
/// doesn't run with their rights, as the old one may have done.
fn give_mode(file: &File, old: &Metadata) -> io::Result<()> {
    let new = file.metadata()?;
    let is_same = new.uid() == old.uid() && new.gid() == old.gid();
    let taken = if is_same { 0 } else { IDENTITY_BITS };
    let mode = old.mode() & MODE_BITS & !taken;
    file.set_permissions(Permissions::from_mode(mode))
}

/// Renames the file of path `own` to the path of a locked file, if that file still has it.
fn take_place<R: Files>(runtime: &R, own: &str, path: &str, held: &File) -> Result<(), FlashFault> {
    if !is_named(runtime, path, held).map_err(FlashFault::Failed)? {
        return Err(FlashFault::InUse);
    }
    fs::rename(runtime, own, path).map_err(FlashFault::Failed)
}

/// Gives the file of path `own` a path that no file has. If another program made a file there
/// meanwhile, that file stays: a hard link fails, and a rename would replace the file.
fn take_free_name<R: Files<File = File>>(
    runtime: &R,
    own: &str,
    path: &str,
) -> Result<(), FlashFault> {
    match fs::hard_link(runtime, own, path) {
        Ok(()) => fs::remove_file(runtime, own).map_err(FlashFault::Failed),
        Err(error) => match error.kind() {
            ErrorKind::AlreadyExists => Err(FlashFault::InUse),
            ErrorKind::PermissionDenied | ErrorKind::Unsupported | ErrorKind::TooManyLinks => {
                take_by_empty_file(runtime, own, path)
            }
            _ => Err(FlashFault::Failed(error)),
        },
    }
}

/// Does the same on a file system without hard links, such as FAT. An empty file takes the name
/// first, which fails if there is a file, and is locked. Then the new file replaces it. If the run
/// is killed in between, or another program locks the empty file in that moment, the empty file is
/// left.
fn take_by_empty_file<R: Files<File = File>>(
    runtime: &R,
    own: &str,
    path: &str,
) -> Result<(), FlashFault> {
    let made = OpenOptions::new()
        .write(true)
        .create_new(true)
        .mode(OWNERS_BITS)
        .open(runtime, path);
    let empty = match made {
        Ok(empty) => empty,
        Err(error) if error.kind() == ErrorKind::AlreadyExists => return Err(FlashFault::InUse),
        Err(error) => return Err(FlashFault::Failed(error)),
    };
    hold_path(runtime, path, &empty)?;
    match fs::rename(runtime, own, path) {
        Ok(()) => Ok(()),
        Err(error) => {
            let _ = fs::remove_file(runtime, path);
            Err(FlashFault::Failed(error))
        }
    }
}
