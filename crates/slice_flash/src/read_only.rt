//! A flash over bytes that are only read.

ghost use Rattle.std.specs.Prelude.{◌≡◌, ◌*◌, ◌%◌, ◌^◌, ◌<◌, ◌≤◌, ℕ, length, slice_index};
ghost use Rattle.flash_model.specs.Blanks.{IsBlankOf};

use flash_model::{Flash, FlashError, Result};
use std::sync::ledger::{Blank, Book, Ledger, Share};

/// A flash over bytes that are only read, for calls that read a flash and change nothing.
///
/// Power fails in each write, before the write changes a byte: it returns `Cut`, it isn't counted,
/// and the flash is off until `restart`. No call allocates.
///
/// A flash is made in a function that is generic in the ledger, like a `MemFlash`, but with a
/// ledger of one part:
///
/// ```text
/// fn helper<L: Ledger>(blank: Blank, bytes: &[u8])
///     requires blank { IsBlankOf blank L.name L.parts 1 }
///     requires whole { length bytes.now ≡ 8192 }
/// {
///     let mut flash = ReadOnlyFlash::<L>::new(blank, bytes, 512);
///     ..
/// }
///
/// helper::<Brand>(Blank::new(1), &bytes);
/// ```
#[derive(Drop)]
pub struct ReadOnlyFlash<'a, L: Ledger> {
    bytes: &'a [u8],
    sector_size: u32,
    sectors: u32,
    is_on: bool,
    book: Book<L>,
    cuts: Share<L>,
    ghost whole: { length bytes.now ≡ sectors * sector_size },
    ghost addressed: { sectors * sector_size < 2 ^ 32 },
    ghost are_bytes: { (k : ℕ) → slice_index bytes.now k < 256 },
    ghost counts_cuts: { 0 < cuts.parts },
}

impl<'a, L: Ledger> ReadOnlyFlash<'a, L> {
    ghost use Rattle.slice_flash.specs.ReadOnly.{chip_of, new_read_only, RefusesWrite};

    /// Makes a flash over the borrowed bytes: whole sectors of `sector_size` bytes each, at most
    /// 4294967295 bytes together. The flash is on.
    ///
    /// `blank` is a token of the ledger with one part, as `Blank::new(1)` makes it.
    pub fn new(blank: Blank, bytes: &'a [u8], sector_size: u32) -> Self
        requires blank { IsBlankOf blank L.name L.parts 1 }
        requires some { 0 < sector_size }
        requires whole { length bytes.now % sector_size ≡ 0 }
        requires addressed { length bytes.now < 2 ^ 32 }
        ensures { chip_of result ≡ new_read_only sector_size bytes.now }
    {
        let sectors = bytes.len() as u32 / sector_size;
        let (book, cuts) = blank.open::<L>();
        ReadOnlyFlash {
            bytes,
            sector_size,
            sectors,
            is_on: true,
            book,
            cuts,
        }
    }

    /// Refuses a write: power fails, and no byte changes.
    fn refuse(&mut self) -> Result<()>
        ensures { RefusesWrite (chip_of self.old) (chip_of self.new) result }
    {
        if !self.is_on {
            return Err(FlashError::Off);
        }
        self.is_on = false;
        self.book.add(&mut self.cuts, 1);
        Err(FlashError::Cut)
    }
}

impl<'a, L: Ledger> Flash for ReadOnlyFlash<'a, L> {
    ghost use Rattle.std.specs.Prelude.{◌≡◌, ◌+◌, ◌<◌, ◌≤◌, [], length, true};
    ghost use Rattle.flash_model.specs.Chip.{size_of};
    ghost use Rattle.flash_model.specs.Calls.{CanProgram, Erases, Programs, ReadsBytes};
    ghost use Rattle.slice_flash.specs.ReadOnly.{chip_of};
    ghost use Rattle.std.proofs.Common.{refl, sym};
    ghost use Rattle.std.proofs.Math.Nat.{zero-add};

    ghost chip = { chip_of };

    ghost whole = { λ f. f.whole };

    ghost addressed = { λ f. f.addressed };

    ghost bytes = { λ f. f.are_bytes };

    ghost armed = { λ f. sym (zero-add _) };

    ghost written = { λ f. ∣ record { journal = []; counted = refl; replayed = refl; taken = tt } ∣₁ };

    fn sector_size(&self) -> u32 {
        self.sector_size
    }

    fn sectors(&self) -> u32 {
        self.sectors
    }

    fn read(&mut self, at: u32, out: &mut [u8]) -> Result<()>
        requires { at + length out.old ≤ size_of (chip_of self.old) }
        ensures { ReadsBytes at out.new (chip_of self.old) (chip_of self.new) result }
    {
        if !self.is_on {
            return Err(FlashError::Off);
        }
        let from = at as usize;
        out.copy_from_slice(&self.bytes[from..from + out.len()]);
        Ok(())
    }

    fn program(&mut self, at: u32, bytes: &[u8]) -> Result<()>
        requires { CanProgram at (length bytes.now) (chip_of self.old) }
        ensures { Programs at bytes.now (chip_of self.old) (chip_of self.new) result }
    {
        self.refuse()
    }

    fn erase(&mut self, sector: u32) -> Result<()>
        requires { sector < (chip_of self.old).sectors }
        ensures { Erases sector (chip_of self.old) (chip_of self.new) result }
    {
        self.refuse()
    }

    fn restart(&mut self)
        ensures { chip_of self.new ≡ record (chip_of self.old) { is_on = true } }
    {
        self.is_on = true;
    }
}
