//! Looks up the path of a file that is to be made or replaced, once. A link that is changed later
//! can't lead elsewhere.

use std::alloc::Global;
use std::io::ErrorKind;
use std::rt::Files;
use std::{fs, io};

/// The place of a file, or of one that is to be made.
#[derive(Drop)]
pub struct Place {
    /// Its path. None of its parts was a link when it was looked up.
    pub path: String,
    /// The path of its folder.
    pub folder: String,
}

/// Looks up where this name leads. If it is a link, that is the place of the file that it leads to,
/// which must exist. Otherwise it is the name in its folder, whether a file has it or not.
pub fn resolve<R: Files>(runtime: &R, alloc: Global, name: &str) -> io::Result<Place> {
    if !is_link(runtime, name)? {
        return in_folder(runtime, alloc, name);
    }
    let path = runtime.canonicalize(alloc, name)?;
    let (folder, last) = parted(path.as_str());
    place_of(alloc, folder, last)
}

/// Returns whether this name is that of a symbolic link.
fn is_link<R: Files>(runtime: &R, name: &str) -> io::Result<bool> {
    match fs::symlink_metadata(runtime, name) {
        Ok(found) => Ok(found.is_symlink()),
        Err(error) if error.kind() == ErrorKind::NotFound => Ok(false),
        Err(error) => Err(error),
    }
}

/// Returns the place of a name that is no link, in its folder as that was looked up.
fn in_folder<R: Files>(runtime: &R, alloc: Global, name: &str) -> io::Result<Place> {
    let (folder, last) = parted(name);
    // The folder in which the program runs needs no look-up, and its path may not be valid UTF-8.
    if folder == CURRENT {
        return place_of(alloc, folder, last);
    }
    let folder = runtime.canonicalize(alloc, folder)?;
    place_of(alloc, folder.as_str(), last)
}

/// The folder in which the program runs.
const CURRENT: &str = ".";

/// Returns the folder of a path, and the name in it.
fn parted(path: &str) -> (&str, &str) {
    match path.rsplit_once('/') {
        Some(("", last)) => ("/", last),
        Some((folder, last)) => (folder, last),
        None => (CURRENT, path),
    }
}

/// Returns the place of this name in this folder.
fn place_of(alloc: Global, folder: &str, last: &str) -> io::Result<Place> {
    Ok(Place {
        path: beside(alloc, folder, last)?,
        folder: String::from_str(alloc, folder)?,
    })
}

/// Returns the path of a name in a folder.
pub fn beside(alloc: Global, folder: &str, name: &str) -> io::Result<String> {
    let between = if folder == "/" { "" } else { "/" };
    Ok(format!(in alloc; "{folder}{between}{name}")?)
}
