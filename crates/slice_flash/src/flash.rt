//! A flash over borrowed bytes that can interrupt any write.

ghost use Rattle.std.specs.Prelude.{◌≡◌, ◌==◌, ◌+◌, ◌*◌, ◌%◌, ◌^◌, ◌<◌, ◌≤◌, ℕ, false, true};
ghost use Rattle.std.specs.Prelude.{length, slice_index, slice_range};
ghost use Rattle.std.specs.List.{list_any};
ghost use Rattle.flash_model.specs.Blanks.{IsBlankOf};
ghost use Rattle.flash_model.specs.Chip.{reached};
ghost use Rattle.flash_model.specs.Written.{IsWrittenBy};
ghost use Rattle.slice_flash.specs.Rows.{fixed_by, numbers_in};

use crate::table::{ArmedCut, Left, left_after, tear};
use flash_model::{Flash, FlashError, Origin, Result, repeat};
use std::sync::ledger::{Blank, Book, Ledger, Share};

/// A flash over borrowed bytes that can simulate a power cut during any write.
///
/// A *write* is a program or an erase. Writes are counted from 1 since the flash was made. A write
/// is interrupted if the table has a row for it, and the first such row counts. The write then
/// returns `Cut`, and its range holds exactly what the row says. All other bytes are unchanged, and
/// the flash is off until `restart`. No other write is interrupted. A write that the flash refuses
/// because it is off isn't counted.
///
/// No call allocates. When the flash is dropped, the borrowed bytes are those of the flash. The
/// caller knows this if functions borrowed the flash. If the flash was moved into another struct,
/// the caller knows only the length.
///
/// Contracts see it as a `Slice` (`slice_of`): the chip and the table. Its bytes are exactly what
/// the counted writes made of the first bytes, torn if the table says so and as it says. If the
/// flash is off, the last of these writes was interrupted.
///
/// A flash is made in a function that is generic in the ledger, like a `MemFlash`. The page of
/// `MemFlash` lists what the caller of that function has to write:
///
/// ```text
/// fn helper<L: Ledger>(blank: Blank, bytes: &mut [u8])
///     requires blank { IsBlankOf blank L.name L.parts 2 }
///     requires whole { length bytes.old ≡ 8192 }
/// {
///     let table = [ArmedCut { write: 3, left: Left::Bytes(&[0x5a, 0xa5]) }];
///     let mut flash = SliceFlash::<L>::new(blank, bytes, 512, &table);
///     ..
/// }
///
/// helper::<Brand>(Blank::new(2), &mut bytes);
/// ```
pub struct SliceFlash<'a, L: Ledger> {
    bytes: &'a mut [u8],
    sector_size: u32,
    sectors: u32,
    is_on: bool,
    writes: u64,
    table: &'a [ArmedCut<'a>],
    origin: Origin,
    book: Book<L>,
    cuts: Share<L>,
    erases: Share<L>,
    ghost whole: { length bytes.now ≡ sectors * sector_size },
    ghost addressed: { sectors * sector_size < 2 ^ 32 },
    ghost are_bytes: { (k : ℕ) → slice_index bytes.now k < 256 },
    ghost counts_cuts: { 0 < cuts.parts },
    ghost counts_erases: { 0 < erases.parts },
    ghost fits: { writes < 2 ^ 64 },
    ghost cut_by_table: { cuts.amount ≡ reached (numbers_in table.now) writes },
    ghost off_by_table: { is_on ≡ false
        → list_any (λ number. number == writes) (numbers_in table.now) ≡ true },
    ghost written: { ∥ IsWrittenBy sector_size
        (fixed_by table.now origin.first bytes.ghost_name) bytes.now writes ∥₁ },
}

// Written by hand for its clause, from which the caller knows the bytes. A derived `drop` of a
// struct that owns more than the borrow has no clause about it.
impl<'a, L: Ledger> Drop for SliceFlash<'a, L> {
    ghost use Rattle.slice_flash.specs.SliceFlash.{chip_of};

    fn drop(self)
        ensures { self.exit.0.now ≡ (chip_of self.entry).bytes }
    {
        let SliceFlash {
            bytes,
            sector_size,
            sectors,
            is_on,
            writes,
            table,
            origin,
            book,
            cuts,
            erases,
        } = self;
    }
}

/// Reads the bytes from offset `at` into `out`. The bytes are borrowed as `&mut`, because a `&mut`
/// field that is passed as `&` isn't known to be unchanged.
fn read_from(bytes: &mut [u8], at: usize, out: &mut [u8])
    requires { at + length out.old ≤ length bytes.old }
    ensures same { bytes.new ≡ bytes.old }
    ensures read { out.new ≡ slice_range bytes.old at (at + length out.old) }
{
    out.copy_from_slice(&bytes[at..at + out.len()]);
}

impl<'a, L: Ledger> SliceFlash<'a, L> {
    ghost use Rattle.slice_flash.specs.SliceFlash.{chip_of, new_slice, slice_of, CanPut, Puts};

    /// Makes a flash over the borrowed bytes: whole sectors of `sector_size` bytes each, at most
    /// 4294967295 bytes together. The flash is on. `table` lists the writes that are to be
    /// interrupted.
    ///
    /// `blank` is a token of the ledger with two parts, as `Blank::new(2)` makes it.
    ///
    /// # Examples
    ///
    /// ```text
    /// // `bytes` are two sectors of 512 bytes. Power fails in the second write, which leaves only
    /// // bytes 0x5a in its range.
    /// let table = [ArmedCut {
    ///     write: 2,
    ///     left: Left::Bytes(&[0x5a]),
    /// }];
    /// let mut flash = SliceFlash::<L>::new(blank, bytes, 512, &table);
    /// flash.erase(0)?;
    /// let answer = flash.program(0, &[7; 16]);
    /// assert!(rt; answer == Err(FlashError::Cut));
    /// ```
    pub fn new(
        blank: Blank,
        bytes: &'a mut [u8],
        sector_size: u32,
        table: &'a [ArmedCut<'a>],
    ) -> Self
        requires blank { IsBlankOf blank L.name L.parts 2 }
        requires some { 0 < sector_size }
        requires whole { length bytes.old % sector_size ≡ 0 }
        requires addressed { length bytes.old < 2 ^ 32 }
        ensures { slice_of result ≡ new_slice sector_size bytes.entry table.now }
    {
        let sectors = bytes.len() as u32 / sector_size;
        let origin = Origin::of(bytes);
        let (book, mut cuts) = blank.open::<L>();
        let erases = cuts.split_off(1, 0);
        SliceFlash {
            bytes,
            sector_size,
            sectors,
            is_on: true,
            writes: 0,
            table,
            origin,
            book,
            cuts,
            erases,
        }
    }

    /// Returns the number of writes so far, including interrupted ones. Stops at 2^64 - 1.
    pub fn writes(&self) -> u64
        ensures { result ≡ (chip_of self.now).writes }
    {
        self.writes
    }

    /// Writes: repeats a pattern over the `n` bytes from offset `at`, unless the table interrupts
    /// the write. Counts the write while its range is borrowed, because the struct's invariants tie
    /// the count to the bytes.
    fn write(&mut self, at: usize, n: usize, pattern: &[u8]) -> Result<()>
        requires inside { at + n ≤ length (chip_of self.old).bytes }
        requires taken { CanPut at n pattern.now (chip_of self.old) }
        ensures { Puts at n pattern.now (slice_of self.old) (slice_of self.new) result }
    {
        if !self.is_on {
            return Err(FlashError::Off);
        }
        let left = left_after(self.table, self.writes);
        let range = &mut self.bytes[at..at + n];
        self.writes = self.writes.saturating_add(1);
        match left {
            None => {
                repeat(range, pattern);
                Ok(())
            }
            Some(left) => {
                self.is_on = false;
                self.book.add(&mut self.cuts, 1);
                tear(range, pattern, left);
                Err(FlashError::Cut)
            }
        }
    }
}

impl<'a, L: Ledger> Flash for SliceFlash<'a, L> {
    ghost use Rattle.std.specs.Prelude.{◌≡◌, ◌+◌, ◌<◌, ◌≤◌, length, true};
    ghost use Rattle.flash_model.specs.Chip.{size_of};
    ghost use Rattle.flash_model.specs.Calls.{CanProgram, Erases, Programs, ReadsBytes};
    ghost use Rattle.slice_flash.specs.SliceFlash.{chip_of, slice_of, ErasesByTable, ProgramsByTable};
    ghost use Rattle.std.proofs.Common.{sym, ◌∙◌};
    ghost use Rattle.std.proofs.Math.Nat.{add-zero};

    ghost chip = { chip_of };

    ghost whole = { λ f. f.whole };

    ghost addressed = { λ f. f.addressed };

    ghost bytes = { λ f. f.are_bytes };

    ghost armed = { λ f. f.cut_by_table ∙ sym (add-zero _) };

    ghost written = { λ f. f.written };

    fn sector_size(&self) -> u32 {
        self.sector_size
    }

    fn sectors(&self) -> u32 {
        self.sectors
    }

    fn read(&mut self, at: u32, out: &mut [u8]) -> Result<()>
        requires { at + length out.old ≤ size_of (chip_of self.old) }
        ensures chip { ReadsBytes at out.new (chip_of self.old) (chip_of self.new) result }
        ensures slice { slice_of self.new ≡ slice_of self.old }
    {
        if !self.is_on {
            return Err(FlashError::Off);
        }
        read_from(self.bytes, at as usize, out);
        Ok(())
    }

    fn program(&mut self, at: u32, bytes: &[u8]) -> Result<()>
        requires { CanProgram at (length bytes.now) (chip_of self.old) }
        ensures chip { Programs at bytes.now (chip_of self.old) (chip_of self.new) result }
        ensures slice { ProgramsByTable at bytes.now (slice_of self.old) (slice_of self.new)
            result }
    {
        self.write(at as usize, bytes.len(), bytes)
    }

    fn erase(&mut self, sector: u32) -> Result<()>
        requires { sector < (chip_of self.old).sectors }
        ensures chip { Erases sector (chip_of self.old) (chip_of self.new) result }
        ensures slice { ErasesByTable sector (slice_of self.old) (slice_of self.new) result }
    {
        let n = self.sector_size as usize;
        self.write(sector as usize * n, n, &[0xff])?;
        self.book.add(&mut self.erases, 1);
        Ok(())
    }

    fn restart(&mut self)
        ensures chip { chip_of self.new ≡ record (chip_of self.old) { is_on = true } }
        ensures slice { slice_of self.new
            ≡ record (slice_of self.old) { chip = record (chip_of self.old) { is_on = true } } }
    {
        self.is_on = true;
    }
}
