//! The trait by which a command reads files and standard input, and writes the file of a flash.
ghost use Rattle.std.specs.Prelude.{◌≡◌, ◌≤◌, Bool, IfErr, IfNone, IfOk, IfSome, IsTrue, List, ℕ, None, OnOk, Option, false, length, true};
ghost use Rattle.std.specs.Io.{ReadsAtMost};
ghost use Rattle.std.specs.Io.KnownBytes.{Keeps, ReadConsumes};
ghost use Rattle.std.specs.IoError.{error_kind};
ghost use Rattle.std.specs.declared.io.ErrorKind.TheVariants.{NotFound};
ghost use Rattle.host.specs.Doings.{AreApart, IsOpenedFor, KeepsApart, Openings, no_openings};
ghost use Rattle.host.specs.Input.{IsKnownAs, IsKnownPart, KeepsFiles, LacksPart, held_by};

use crate::source::Source;
use std::alloc::Global;
use std::io;

/// What the file of a flash is opened for.
#[derive(Clone, Copy, PartialEq, Eq)]
pub enum Access {
    /// To be read. Other programs may read it at the same time.
    Read,
    /// To be read and then written. No other program may use it at the same time. A write to a
    /// block device is on the medium before it returns. The system may delay a write to a plain
    /// file.
    Write,
    /// The same as `Write`, but a write to a plain file is on the disk too before it returns.
    WriteDurably,
}

/// A part of a file.
#[derive(Clone, Copy)]
pub struct FilePart {
    /// The number of bytes before it.
    pub from: usize,
    /// Its length in bytes.
    pub count: usize,
}

/// What a new file may replace.
#[derive(Clone, Copy, PartialEq, Eq)]
pub enum Replaced {
    /// A plain file.
    PlainFile,
    /// A plain file or a block device. A block device is written in place.
    FlashFile,
}

/// Why the file of a flash can't be opened or replaced. The file is unchanged, with two exceptions:
/// a block device to which a write failed, and a file whose folder could not be synced.
#[derive(Clone, Copy)]
pub enum FlashFault {
    /// Another program uses it, has made it or has replaced it meanwhile, or the system itself uses
    /// the block device.
    InUse,
    /// Its length isn't that of the flash.
    WrongLength,
    /// Memory ran out.
    NoMemory,
    /// It was to be opened for writing, and can only be read, for this reason.
    OnlyReadable(io::Error),
    /// The system could not open, lock, read, make, replace or write it, for this reason.
    Failed(io::Error),
}

impl FlashFault {
    /// Returns the reason that the system gave, if it gave one.
    pub fn error(self) -> Option<io::Error> {
        match self {
            FlashFault::OnlyReadable(error) | FlashFault::Failed(error) => Some(error),
            FlashFault::InUse | FlashFault::WrongLength | FlashFault::NoMemory => None,
        }
    }
}

/// The files and the standard input of a command. A test implements it with bytes in memory.
///
/// The ghost fields say what a host is known to hold and to have done. Each has a default for a
/// host that says nothing about it. There is none for `write_flash`, because that takes a shared
/// reference: the files of a script are read while a flash is written.
///
/// When a read fails, an error of kind `OutOfMemory` means that memory ran out, and any other kind
/// means that the read itself failed. There is one exception: an error of kind `FileTooLarge` when
/// a part is read. It means that the part is longer than the most that is read of a file, or ends
/// after that many bytes.
pub trait Host {
    // The bytes of standard input that aren't read yet, if they are known.
    ghost input: { Self → Option (List ℕ) } = { λ _. None };

    // The contents of the file of a name, if they are known. They aren't known in three cases: of a
    // block device, since a failed write may leave a part of its bytes; of a file to which a flash
    // is written; and of a file whose folder may fail to be synced after the file is replaced.
    ghost file: { Self → List ℕ → Option (List ℕ) } = { λ _ _. None };

    // The bytes of the stream that was opened last that aren't read yet, if they are known.
    ghost stream: { Self → Option (List ℕ) } = { λ _. None };

    // How files of flashes were opened, as far as that is known.
    ghost opened: { Self → Openings } = { λ _. no_openings };

    // Whether all that was written to the file of a flash is on its medium, because a sync
    // succeeded. The default is that it is.
    ghost synced: { Self → Bool } = { λ _. true };

    // Whether two names are of different files. The default for a host that doesn't say what its
    // files hold is that any two are.
    ghost apart: { Self → List ℕ → List ℕ → Bool } = { λ _ _ _. true };

    // Whether the file of a name is a plain file. The default is that each is.
    ghost plain: { Self → List ℕ → Bool } = { λ _ _. true };

    /// Reads the file of this name into memory of `alloc`. Returns all its bytes if there are at
    /// most `most`, and else its first `most + 1` bytes. No others are read.
    fn read_file(&mut self, alloc: Global, name: &str, most: u32) -> io::Result<Vec<u8>>
        ensures bytes { IfOk result (λ bytes. length bytes.items ≤ most
            → IsKnownAs (file self.old name.now) bytes.items) }
        ensures files { KeepsFiles (file self.old) (file self.new) }
        ensures input { Keeps (input self.old) (input self.new) }
        ensures opened { opened self.new ≡ opened self.old };

    /// Reads the rest of standard input into memory of `alloc`. Returns all of it if that is at
    /// most `most` bytes, and else the next `most + 1` bytes. No more is read.
    fn read_input(&mut self, alloc: Global, most: u32) -> io::Result<Vec<u8>>
        ensures bytes { IfOk result (λ bytes. length bytes.items ≤ most
            → IsKnownAs (input self.old) bytes.items) }
        ensures files { KeepsFiles (file self.old) (file self.new) }
        ensures opened { opened self.new ≡ opened self.old };

    /// Opens a source to be read piece by piece, as a stream. The stream that was open is closed.
    fn open_stream(&mut self, source: Source<'_>) -> io::Result<()>
        ensures held { OnOk result
            (stream self.new ≡ held_by source.entry (input self.old) (file self.old)) };

    /// Reads the next bytes of the stream into a buffer, and returns how many. It is 0 at the end of
    /// the stream.
    fn read_stream(&mut self, buffer: &mut [u8]) -> io::Result<usize>
        ensures bound { ReadsAtMost result buffer.new }
        ensures bytes { ReadConsumes (stream self.old) (stream self.new) result buffer.new };

    /// Does the same as `read_file` through a shared reference.
    fn read_again(&self, alloc: Global, name: &str, most: u32) -> io::Result<Vec<u8>>
        ensures { IfOk result (λ bytes. length bytes.items ≤ most
            → IsKnownAs (file self.now name.now) bytes.items) };

    /// Reads a part of the file of this name into memory of `alloc`. Returns `None` if the file
    /// doesn't have it. No other byte of a plain file is read.
    fn read_part(&self, alloc: Global, name: &str, part: FilePart) -> io::Result<Option<Vec<u8>>>
        ensures part { IfOk result (λ read. IfSome read (λ found.
            IsKnownPart (file self.now name.now) part.from part.count found.items)) }
        ensures missing { IfOk result (λ read. IfNone read
            (LacksPart (file self.now name.now) part.from part.count)) };

    /// Returns whether the file of this name is a plain one, which can be read again. A pipe gives
    /// its bytes once. An error of kind `NotFound` means that there is no such file.
    fn is_plain(&self, name: &str) -> io::Result<bool>
        ensures plain { IfOk result (λ is. is ≡ true → IsTrue (plain self.now name.now)) }
        ensures missing { IfErr result (λ error. error_kind error ≡ NotFound
            → file self.now name.now ≡ None) };

    /// Returns the length in bytes of the file of this name, a plain one or a block device. An error
    /// of kind `NotFound` means that there is no such file.
    fn length_of(&self, name: &str) -> io::Result<u64>
        ensures length { IfOk result (λ count.
            IfSome (file self.now name.now) (λ held. length held ≡ count)) }
        ensures missing { IfErr result (λ error. error_kind error ≡ NotFound
            → file self.now name.now ≡ None) };

    /// Returns whether two names are of one existing file, which may have several names.
    fn is_same_file(&self, one: &str, other: &str) -> io::Result<bool>
        ensures { IfOk result (λ is. is ≡ false → AreApart (apart self.now) one.now other.now) };

    /// Returns whether standard input is the file of this name, as far as that can be known. A
    /// system may not say which file standard input is.
    fn is_input(&self, name: &str) -> io::Result<bool>;

    /// Looks up a file of this name that is to be made or replaced, and locks a plain one. No file
    /// changes. `replaced` is as for [`Host::replace_file`].
    ///
    /// Until the file is replaced or another one is looked up, this name means what was found, if
    /// other files take the name meanwhile: for `is_same_file` and `is_input`, `is_plain`,
    /// `length_of`, `read_again` and `replace_file`. After an error it means what it did before.
    fn hold_output(
        &mut self,
        alloc: Global,
        name: &str,
        replaced: Replaced,
    ) -> Result<(), FlashFault>
        ensures files { KeepsFiles (file self.old) (file self.new) }
        ensures input { Keeps (input self.old) (input self.new) }
        ensures opened { opened self.new ≡ opened self.old };

    /// Opens the file of this name, which is that of a flash of `length` bytes, and returns its
    /// bytes in memory of `alloc`. The file stays locked until the host is dropped or opens another
    /// one. Its length is checked before a byte is read.
    fn open_flash(
        &mut self,
        alloc: Global,
        name: &str,
        length: u64,
        access: Access,
    ) -> Result<Vec<u8>, FlashFault>
        ensures bytes { IfOk result (λ bytes. IsKnownAs (file self.old name.now) bytes.items) }
        ensures files { KeepsFiles (file self.old) (file self.new) }
        ensures input { Keeps (input self.old) (input self.new) }
        ensures opened { OnOk result (IsOpenedFor access (opened self.old) (opened self.new)) }
        ensures unopened { IfErr result (λ _. opened self.new ≡ opened self.old) };

    /// Writes all of `bytes` from byte `at` on to the file of a flash that was opened last, for
    /// writing. It doesn't allocate.
    fn write_flash(&self, at: u64, bytes: &[u8]) -> io::Result<()>;

    /// Makes the system put on the medium all that was written to that file, and the name of a file
    /// that is opened with `WriteDurably`.
    ///
    /// # Errors
    /// The system delayed a write and then could not do it; once the file is closed, no call would
    /// report this. The same is returned if a write failed before, and if the file lost its name or
    /// changed its length.
    fn sync_flash(&mut self) -> io::Result<()>
        ensures synced { OnOk result (IsTrue (synced self.new)) }
        ensures files { KeepsFiles (file self.old) (file self.new) }
        ensures input { Keeps (input self.old) (input self.new) }
        ensures opened { opened self.new ≡ opened self.old };

    /// Replaces the file of this name by one that holds `bytes`, or makes it if there is none. No
    /// other program may use it meanwhile. Memory is taken from `alloc`.
    ///
    /// The call returns once the file and its name are on the disk. Until then, and if the call
    /// fails, the old file is unchanged. There is one exception: if only the name could not be put
    /// on the disk, the call fails and the file holds `bytes`. A host doesn't know what such a file
    /// holds.
    ///
    /// `replaced` says which kinds of file may be replaced. A block device can't be replaced by
    /// another file. If it is as long as `bytes`, it is written from its first byte on. If that
    /// write fails, it holds a part of them.
    fn replace_file(
        &mut self,
        alloc: Global,
        name: &str,
        bytes: &[u8],
        replaced: Replaced,
    ) -> Result<(), FlashFault>
        ensures done { OnOk result (IsKnownAs (file self.new name.now) bytes.now) }
        ensures others { OnOk result
            (KeepsApart (apart self.old name.now) (file self.old) (file self.new)) }
        ensures failed { IfErr result (λ _. KeepsFiles (file self.old) (file self.new)) }
        ensures input { Keeps (input self.old) (input self.new) }
        ensures opened { opened self.new ≡ opened self.old };

    /// Returns the seconds of a monotonic clock if somebody at a terminal reads standard error, and
    /// `None` if nobody does.
    fn watched_seconds(&self) -> Option<u64>;
}
