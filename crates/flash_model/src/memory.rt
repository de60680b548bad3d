//! A flash in memory that can interrupt any write.

ghost use Rattle.std.specs.Prelude.{◌≡◌, ◌+◌, ◌-◌, ◌*◌, ◌/◌, ◌%◌, ◌^◌, ◌<◌, ◌≤◌, [], ℕ, All, length};
ghost use Rattle.std.specs.Prelude.{min, replicate, slice_index, vec_len, IfOk, MatchBool};
ghost use Rattle.flash_model.specs.Blanks.{IsBlankOf};
ghost use Rattle.flash_model.specs.Chip.{armed_with, numbers_of, reached, unarmed};
ghost use Rattle.flash_model.specs.Written.{IsWrittenBy};

use crate::error::{FlashError, Result};
use crate::flash::Flash;
use crate::origin::Origin;
use crate::tearing::{blank, put, tear_erase, tear_program};
use crate::torn::{Armed, Torn, torn_for};
use std::alloc::{AllocError, Global};
use std::sync::ledger::{Blank, Book, Ledger, Share};

/// A flash in memory that can simulate a power cut during any write.
///
/// A *write* is a program or an erase. Writes are counted from 1 since the flash was made. Write k
/// is interrupted if `arm(k, ..)` was called before it. It then returns `Cut`, and its range holds
/// exactly what was armed. All other bytes are unchanged, and the flash is off until `restart`. No
/// other write is interrupted.
///
/// A write that the flash refuses because it is off isn't counted. `writes` counts an interrupted
/// write, and `erases` doesn't.
///
/// Only `new` and `arm` allocate.
///
/// Contracts see it as a `Chip` (`chip_of`), which has the armed writes in the order of their
/// arming. Whatever code calls the flash, it counts exactly one cut for each armed write that it
/// took. Its bytes are exactly what the counted writes made of the first bytes.
///
/// The counts of cuts and of completed erases have no bound and take no bytes: they are tokens of
/// the ledger `L`. So a flash is made in a function that is generic in `L`, and the caller of that
/// function chooses the ledger:
///
/// ```text
/// fn helper<L: Ledger>(alloc: Global, blank: Blank) -> Result<(), AllocError>
///     requires blank { IsBlankOf blank L.name L.parts 2 }
/// {
///     let mut flash = MemFlash::<L>::new(alloc, blank, 512, 16)?;
///     ..
/// }
///
/// helper::<Brand>(rt.alloc(), Blank::new(2))?;
/// ```
///
/// The names are from `std::sync::ledger::{Blank, Ledger}` and `std::marker::Brand`. The function
/// that calls `helper` needs these lines in `proofs/CALLER/Invariants.antt`, without `g` if it
/// isn't generic:
///
/// ```text
/// use Rattle.CRATE.proofs.CALLER.Given as goal
///
/// abbrev pub ghosts-helper : goal.ghosts-helper
/// ghosts-helper g a = record { name = a.blank.name; parts = a.blank.parts }
/// ```
#[derive(Drop)]
pub struct MemFlash<L: Ledger> {
    sector_size: u32,
    sectors: u32,
    bytes: Vec<u8>,
    is_on: bool,
    writes: u64,
    // The number of completed erases, or 2^64 - 1 if there are more.
    completed: u64,
    armed: Vec<Armed>,
    origin: Origin,
    book: Book<L>,
    cuts: Share<L>,
    erases: Share<L>,
    ghost whole: { length bytes.items ≡ sectors * sector_size },
    ghost addressed: { sectors * sector_size < 2 ^ 32 },
    ghost are_bytes: { (k : ℕ) → slice_index bytes.items k < 256 },
    ghost counts_cuts: { 0 < cuts.parts },
    ghost counts_erases: { 0 < erases.parts },
    ghost counts: { completed ≡ min erases.amount (2 ^ 64 - 1) },
    ghost fits: { writes < 2 ^ 64 },
    ghost armed_below: { All (λ write. write.at < 2 ^ 64 - 1) armed.items },
    ghost cut_as_armed: { cuts.amount ≡ reached (numbers_of armed.items) writes },
    ghost written: { ∥ IsWrittenBy sector_size
        (armed_with armed.items (record unarmed { first = origin.first })) bytes.items writes ∥₁ },
}

impl<L: Ledger> MemFlash<L> {
    ghost use Rattle.flash_model.specs.Memory.{chip_of, new_chip, Arms};

    /// Makes a flash of `sectors` sectors of `sector_size` bytes each, at most 4294967295 bytes
    /// together. Each byte is 0xFF, the flash is on, and no write is armed.
    ///
    /// `blank` is a token of the ledger with two parts, as `Blank::new(2)` makes it.
    ///
    /// # Errors
    /// `AllocError` if memory for the bytes is refused.
    ///
    /// # Examples
    ///
    /// ```text
    /// // 16 erased sectors of 512 bytes. Power fails in the first write, which changes nothing.
    /// let mut flash = MemFlash::<L>::new(rt.alloc(), blank, 512, 16)?;
    /// flash.arm(1, Torn::Keep)?;
    /// let answers = [flash.erase(0), flash.erase(1)];
    /// assert!(rt; answers == [Err(FlashError::Cut), Err(FlashError::Off)]);
    /// flash.restart();
    /// flash.erase(0)?;
    /// assert!(rt; flash.writes() == 2 && flash.erases() == 1);
    /// ```
    pub fn new(
        alloc: Global,
        blank: Blank,
        sector_size: u32,
        sectors: u32,
    ) -> Result<Self, AllocError>
        requires blank { IsBlankOf blank L.name L.parts 2 }
        requires addressed { sectors * sector_size < 2 ^ 32 }
        ensures chip { IfOk result (λ flash. chip_of flash
            ≡ new_chip sector_size sectors (replicate (sectors * sector_size) 0xff)) }
    {
        let bytes = vec![in alloc; 0xff; sectors as usize * sector_size as usize]?;
        Ok(Self::of_sectors(alloc, blank, sector_size, sectors, bytes))
    }

    /// Makes a flash that holds `bytes`: whole sectors of `sector_size` bytes each, at most
    /// 4294967295 bytes together. The flash is on, and no write is armed.
    ///
    /// Does not allocate; `alloc` is for later calls of `arm`. `blank` is a token of the ledger
    /// with two parts, as `Blank::new(2)` makes it.
    pub fn from_bytes(alloc: Global, blank: Blank, sector_size: u32, bytes: Vec<u8>) -> Self
        requires blank { IsBlankOf blank L.name L.parts 2 }
        requires some { 0 < sector_size }
        requires whole { vec_len bytes % sector_size ≡ 0 }
        requires addressed { vec_len bytes < 2 ^ 32 }
        ensures chip { chip_of result
            ≡ new_chip sector_size (vec_len bytes / sector_size) bytes.items }
    {
        let sectors = bytes.len() as u32 / sector_size;
        Self::of_sectors(alloc, blank, sector_size, sectors, bytes)
    }

    /// Makes a flash of `sectors` sectors that holds `bytes`.
    fn of_sectors(
        alloc: Global,
        blank: Blank,
        sector_size: u32,
        sectors: u32,
        bytes: Vec<u8>,
    ) -> Self
        requires blank { IsBlankOf blank L.name L.parts 2 }
        requires whole { vec_len bytes ≡ sectors * sector_size }
        requires addressed { vec_len bytes < 2 ^ 32 }
        ensures chip { chip_of result ≡ new_chip sector_size sectors bytes.items }
    {
        let (book, mut cuts) = blank.open::<L>();
        let erases = cuts.split_off(1, 0);
        let origin = Origin::of(&bytes);
        MemFlash {
            sector_size,
            sectors,
            bytes,
            is_on: true,
            writes: 0,
            completed: 0,
            armed: Vec::new(alloc),
            origin,
            book,
            cuts,
            erases,
        }
    }

    /// Arms write `k`: if the flash takes it, power fails during it, and its range holds what
    /// `torn` says. Writes are counted from 1 since the flash was made. `k` is below 2^64 - 1,
    /// where counting stops.
    ///
    /// Calls add up. If several name the same `k`, the first one counts. If write `k` is over, the
    /// call changes nothing. There is no write 0.
    ///
    /// # Errors
    /// `AllocError` if memory for another armed write is refused: the flash is unchanged.
    pub fn arm(&mut self, k: u64, torn: Torn) -> Result<(), AllocError>
        requires { k < 2 ^ 64 - 1 }
        ensures { Arms k torn (chip_of self.old) (chip_of self.new) result }
    {
        if self.is_over(k) {
            return Ok(());
        }
        self.armed.push(Armed { at: k, torn })?;
        Ok(())
    }

    /// Returns whether the flash took write `k`.
    fn is_over(&self, k: u64) -> bool
        ensures { MatchBool result ((1 ≤ k) × (k ≤ (chip_of self.now).writes))
            (1 ≤ k → (chip_of self.now).writes < k) }
    {
        0 < k && k <= self.writes
    }

    /// Returns the number of writes that the flash took: programs and erases, including interrupted
    /// ones. Stops at 2^64 - 1.
    pub fn writes(&self) -> u64
        ensures { result ≡ (chip_of self.now).writes }
    {
        self.writes
    }

    /// Returns the number of completed erases. An interrupted erase isn't completed. Stops at 2^64
    /// - 1.
    pub fn erases(&self) -> u64
        ensures { result ≡ min (chip_of self.now).erases (2 ^ 64 - 1) }
    {
        self.completed
    }

    /// Returns the contents, in the order of the addresses, whether the flash is on or off.
    pub fn bytes(&self) -> &[u8]
        ensures { result.now ≡ (chip_of self.now).bytes }
    {
        &self.bytes
    }
}

impl<L: Ledger> Flash for MemFlash<L> {
    ghost use Rattle.std.specs.Prelude.{◌≡◌, ◌+◌, ◌<◌, ◌≤◌, length, true};
    ghost use Rattle.flash_model.specs.Chip.{size_of};
    ghost use Rattle.flash_model.specs.Calls.{CanProgram, Erases, Programs, ReadsBytes};
    ghost use Rattle.flash_model.specs.Memory.{chip_of, ErasesAsArmed, ProgramsAsArmed};
    ghost use Rattle.std.proofs.Common.{sym, ◌∙◌};
    ghost use Rattle.std.proofs.Math.Nat.{add-zero};

    ghost chip = { chip_of };

    ghost whole = { λ f. f.whole };

    ghost addressed = { λ f. f.addressed };

    ghost bytes = { λ f. f.are_bytes };

    ghost armed = { λ f. f.cut_as_armed ∙ sym (add-zero _) };

    ghost written = { λ f. f.written };

    fn sector_size(&self) -> u32 {
        self.sector_size
    }

    fn sectors(&self) -> u32 {
        self.sectors
    }

    fn read(&mut self, at: u32, out: &mut [u8]) -> Result<()>
        requires { at + length out.old ≤ size_of (chip_of self.old) }
        ensures { ReadsBytes at out.new (chip_of self.old) (chip_of self.new) result }
    {
        if !self.is_on {
            return Err(FlashError::Off);
        }
        let at = at as usize;
        out.copy_from_slice(&self.bytes[at..at + out.len()]);
        Ok(())
    }

    #[tactic(auto, using(std::proofs::lemmas::List::take_at))]
    fn program(&mut self, at: u32, bytes: &[u8]) -> Result<()>
        requires { CanProgram at (length bytes.now) (chip_of self.old) }
        ensures chip { Programs at bytes.now (chip_of self.old) (chip_of self.new) result }
        ensures memory { ProgramsAsArmed at bytes.now (chip_of self.old) (chip_of self.new) result }
    {
        if !self.is_on {
            return Err(FlashError::Off);
        }
        self.writes = self.writes.saturating_add(1);
        let at = at as usize;
        match torn_for(&self.armed, self.writes) {
            None => {
                put(&mut self.bytes, at, bytes);
                Ok(())
            }
            Some(torn) => {
                tear_program(&mut self.bytes, at, bytes, torn);
                self.is_on = false;
                self.book.add(&mut self.cuts, 1);
                Err(FlashError::Cut)
            }
        }
    }

    #[tactic(auto, using(std::proofs::lemmas::List::take_at))]
    fn erase(&mut self, sector: u32) -> Result<()>
        requires { sector < (chip_of self.old).sectors }
        ensures chip { Erases sector (chip_of self.old) (chip_of self.new) result }
        ensures memory { ErasesAsArmed sector (chip_of self.old) (chip_of self.new) result }
    {
        let n = self.sector_size as usize;
        let at = sector as usize * n;
        if !self.is_on {
            return Err(FlashError::Off);
        }
        self.writes = self.writes.saturating_add(1);
        match torn_for(&self.armed, self.writes) {
            None => {
                blank(&mut self.bytes, at, n);
                self.book.add(&mut self.erases, 1);
                self.completed = self.completed.saturating_add(1);
                Ok(())
            }
            Some(torn) => {
                tear_erase(&mut self.bytes, at, n, torn);
                self.is_on = false;
                self.book.add(&mut self.cuts, 1);
                Err(FlashError::Cut)
            }
        }
    }

    fn restart(&mut self)
        ensures { chip_of self.new ≡ record (chip_of self.old) { is_on = true } }
    {
        self.is_on = true;
    }
}
