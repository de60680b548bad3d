//! The writes that this program makes to a file of the system.

use crate::lasting::Medium;
use std::fs::File;
use std::io;
use std::os::unix::fs::FileExt;

/// Writes all of `bytes` to a file from byte `at` on.
pub fn write_at(file: &File, at: u64, bytes: &[u8]) -> io::Result<()> {
    file.write_all_at(bytes, at)
}

/// A file that is written in place.
#[derive(Drop)]
pub struct InPlace<'a> {
    /// The file, which is open for writing.
    pub file: &'a File,
}

impl Medium for InPlace<'_> {
    fn write(&mut self, at: u64, bytes: &[u8]) -> io::Result<()> {
        write_at(self.file, at, bytes)
    }

    fn sync(&mut self) -> io::Result<()> {
        self.file.sync_data()
    }
}
