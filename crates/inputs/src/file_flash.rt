//! A flash in memory that is written through to a file.

ghost use Rattle.std.specs.Prelude.{◌≡◌, ◌+◌, ◌<◌, ◌≤◌, length, false, true, is_some, slice_range, option_map, IfSome, IsErrOf, OnOk};
ghost use Rattle.std.specs.Bool.{OnFalse};
ghost use Rattle.std.specs.Option.{ForSome};
ghost use Rattle.flash_model.specs.Blanks.{IsBlankOf};
ghost use Rattle.flash_model.specs.Chip.{size_of, IsCutAsArmed};
ghost use Rattle.flash_model.specs.Calls.{CanProgram, Erases, Programs, ReadsBytes};
ghost use Rattle.flash_model.specs.Memory.{chip_of as memory_of};
ghost use Rattle.flash_model.specs.Torn.{replaced};

use crate::flash_file::FlashFile;
use flash_model::{Flash, FlashError, MemFlash, Result};
use std::io;
use std::sync::ledger::{Blank, Book, Ledger, Share};

/// A flash in memory. Each changed range is written to a file immediately.
///
/// A write is a program or an erase. It is made in memory first, completely or cut as the flash in
/// memory was armed. Then one `write_at` writes the range to the file as it is in memory then, torn
/// bytes too. The write returns `Ok` if both succeeded. It returns `Cut` if the flash in memory was
/// cut or the file failed: the cut is counted once, and the flash is off until `restart`.
///
/// After a failed write of the file each later write is cut, also after a restart, and changes
/// nothing in memory or in the file. Reading still works. A cut that the flash in memory wasn't
/// armed for is counted as a fault.
///
/// Until a write of the file fails, the file is known to hold (`contents` of `FlashFile`) what the
/// flash holds. This is an invariant of the type. `failure` returns why a write failed, if one did.
///
/// No call allocates.
///
/// Contracts see it as an `OverFile` (`over_file`), which has the chip, the flash in memory, and
/// whether a write of the file failed; and as the file itself (`file_of`). Faults and completed
/// erases are counted by tokens of a separate ledger, `L`, because an erase that was completed in
/// memory but didn't reach the file is a cut. So a function that makes it is generic in both
/// ledgers:
///
/// ```text
/// fn helper<L: Ledger, M: Ledger>(alloc: Global, blanks: (Blank, Blank), ..)
///     -> Result<(), AllocError>
///     requires name { blanks.0.name ≡ L.name }
///     requires parts { blanks.0.parts ≡ L.parts }
///     requires two { L.parts ≡ 2 }
///     requires memory_name { blanks.1.name ≡ M.name }
///     requires memory_parts { blanks.1.parts ≡ M.parts }
///     requires memory_two { M.parts ≡ 2 }
/// {
///     let memory = MemFlash::<M>::new(alloc, blanks.1, 512, 16)?;
///     let mut flash = FileFlash::<TheFile, L, M>::over(memory, blanks.0, file);
///     ..
/// }
///
/// helper::<Brand, Brand>(rt.alloc(), (Blank::new(2), Blank::new(2)), ..)?;
/// ```
///
/// and the proofs of the function that calls `helper` have, in `proofs/CALLER/Invariants.antt`
/// (without `g` if the caller isn't generic):
///
/// ```text
/// use Rattle.CRATE.proofs.CALLER.Given as goal
///
/// abbrev pub ghosts-helper-L-Ledger : goal.ghosts-helper-L-Ledger
/// ghosts-helper-L-Ledger g a = record { name = a.blanks.0.name; parts = a.blanks.0.parts }
///
/// abbrev pub ghosts-helper-M-Ledger : goal.ghosts-helper-M-Ledger
/// ghosts-helper-M-Ledger g a = record { name = a.blanks.1.name; parts = a.blanks.1.parts }
/// ```
#[derive(Drop)]
pub struct FileFlash<F: FlashFile, L: Ledger, M: Ledger> {
    memory: MemFlash<M>,
    file: F,
    is_on: bool,
    /// Why the first write of the file that failed did.
    failure: Option<io::Error>,
    book: Book<L>,
    faults: Share<L>,
    erases: Share<L>,
    ghost powered: { is_on ≡ true → (memory_of memory).is_on ≡ true },
    ghost written: { is_some failure ≡ false
        → ForSome (F.contents file) (λ all. all ≡ (memory_of memory).bytes) },
    ghost unfailed: { is_some failure ≡ false → faults.amount ≡ 0 },
    ghost counts_faults: { 0 < faults.parts },
    ghost counts_erases: { 0 < erases.parts },
}

/// Writes a range of the bytes in memory to its place in the file.
fn write_through<F: FlashFile, M: Ledger>(
    file: &mut F,
    memory: &MemFlash<M>,
    at: u32,
    len: usize,
) -> io::Result<()>
    requires inside { at + len ≤ size_of (memory_of memory.now) }
    requires file { ForSome (F.contents file.old) (λ all. at + len ≤ length all) }
    ensures { OnOk result (F.contents file.new
        ≡ option_map (replaced at (slice_range (memory_of memory.now).bytes at (at + len)))
        (F.contents file.old)) }
{
    let from = at as usize;
    file.write_at(at, &memory.bytes()[from..from + len])
}

impl<F: FlashFile, L: Ledger, M: Ledger> FileFlash<F, L, M> {
    ghost use Rattle.inputs.specs.FileFlash.{chip_of, cut_short, file_of, new_over, over_file};

    /// Creates a flash with the sectors and bytes of `memory`, over a file that holds these bytes
    /// already. Both are on. Cuts that were armed stay armed.
    ///
    /// The ledger's token has two parts, as `Blank::new(2)` makes it.
    pub fn over(memory: MemFlash<M>, blank: Blank, file: F) -> Self
        requires blank { IsBlankOf blank L.name L.parts 2 }
        requires on { (memory_of memory).is_on ≡ true }
        requires held { ForSome (F.contents file) (λ all. all ≡ (memory_of memory).bytes) }
        ensures made { over_file result ≡ new_over (memory_of memory) }
        ensures file { file_of result ≡ file }
    {
        let (book, mut faults) = blank.open::<L>();
        let erases = faults.split_off(1, 0);
        FileFlash {
            memory,
            file,
            is_on: true,
            failure: None,
            book,
            faults,
            erases,
        }
    }

    /// Returns why a write of the file failed, or `None` if none did. Until then the file is known to
    /// have the contents of the flash, and each cut was armed.
    pub fn failure(&self) -> Option<io::Error>
        ensures answer { is_some result ≡ (over_file self.now).has_failed }
        ensures faults { OnFalse (is_some result) ((chip_of self.now).faults ≡ 0) }
        ensures armed { IsCutAsArmed (chip_of self.now) }
        ensures written { OnFalse (is_some result)
            (IfSome (F.contents (file_of self.now)) (λ all. all ≡ (chip_of self.now).bytes)) }
    {
        self.failure
    }

    /// Returns the bytes in the order of their addresses, whether the flash is on or off.
    pub fn bytes(&self) -> &[u8]
        ensures { result.now ≡ (chip_of self.now).bytes }
    {
        self.memory.bytes()
    }

    /// Returns the file, as the last write left it.
    pub fn file(&self) -> &F
        ensures { result.now ≡ file_of self.now }
    {
        &self.file
    }

    /// Ends a write that failed in the file: counts the fault, and turns the flash off.
    fn cut(&mut self) -> Result<()>
        requires { (over_file self.old).has_failed ≡ true }
        ensures cut { IsErrOf result FlashError.Cut }
        ensures flash { over_file self.new ≡ cut_short (over_file self.old) }
        ensures file { file_of self.new ≡ file_of self.old }
    {
        self.is_on = false;
        self.book.add(&mut self.faults, 1);
        Err(FlashError::Cut)
    }
}

impl<F: FlashFile, L: Ledger, M: Ledger> Flash for FileFlash<F, L, M> {
    ghost use Rattle.std.proofs.Common.{ap};
    ghost use Rattle.inputs.specs.FileFlash.{chip_of, file_of, over_file, restarted, ErasesThrough, LeavesFile, ProgramsThrough};

    ghost chip = { chip_of };

    ghost whole = { λ f. f.memory.whole };

    ghost addressed = { λ f. f.memory.addressed };

    ghost bytes = { λ f. f.memory.are_bytes };

    ghost armed = { λ f. ap (λ n. n + f.faults.amount) f.memory.cut_as_armed };

    ghost written = { λ f. f.memory.written };

    fn sector_size(&self) -> u32 {
        self.memory.sector_size()
    }

    fn sectors(&self) -> u32 {
        self.memory.sectors()
    }

    fn read(&mut self, at: u32, out: &mut [u8]) -> Result<()>
        requires { at + length out.old ≤ size_of (chip_of self.old) }
        ensures chip { ReadsBytes at out.new (chip_of self.old) (chip_of self.new) result }
        ensures flash { over_file self.new ≡ over_file self.old }
        ensures file { file_of self.new ≡ file_of self.old }
    {
        if !self.is_on {
            return Err(FlashError::Off);
        }
        self.memory.read(at, out)
    }

    fn program(&mut self, at: u32, bytes: &[u8]) -> Result<()>
        requires { CanProgram at (length bytes.now) (chip_of self.old) }
        ensures chip { Programs at bytes.now (chip_of self.old) (chip_of self.new) result }
        ensures flash { ProgramsThrough at bytes.now (over_file self.old) (over_file self.new)
            result }
        ensures file { LeavesFile (over_file self.old) (file_of self.old) (file_of self.new) }
    {
        if !self.is_on {
            return Err(FlashError::Off);
        }
        if self.failure.is_some() {
            return self.cut();
        }
        self.is_on = self.memory.program(at, bytes).is_ok();
        self.failure = write_through(&mut self.file, &self.memory, at, bytes.len()).err();
        if !self.is_on {
            return Err(FlashError::Cut);
        }
        if self.failure.is_some() {
            return self.cut();
        }
        Ok(())
    }

    fn erase(&mut self, sector: u32) -> Result<()>
        requires { sector < (chip_of self.old).sectors }
        ensures chip { Erases sector (chip_of self.old) (chip_of self.new) result }
        ensures flash { ErasesThrough sector (over_file self.old) (over_file self.new) result }
        ensures file { LeavesFile (over_file self.old) (file_of self.old) (file_of self.new) }
    {
        if !self.is_on {
            return Err(FlashError::Off);
        }
        if self.failure.is_some() {
            return self.cut();
        }
        let n = self.memory.sector_size();
        let at = sector * n;
        self.is_on = self.memory.erase(sector).is_ok();
        self.failure = write_through(&mut self.file, &self.memory, at, n as usize).err();
        if !self.is_on {
            return Err(FlashError::Cut);
        }
        if self.failure.is_some() {
            return self.cut();
        }
        self.book.add(&mut self.erases, 1);
        Ok(())
    }

    fn restart(&mut self)
        ensures chip { chip_of self.new ≡ record (chip_of self.old) { is_on = true } }
        ensures flash { over_file self.new ≡ restarted (over_file self.old) }
        ensures file { file_of self.new ≡ file_of self.old }
    {
        self.memory.restart();
        self.is_on = true;
    }
}
