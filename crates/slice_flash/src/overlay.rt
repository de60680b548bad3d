//! A flash over bytes that are only read, whose writes are in a journal.

ghost use Rattle.std.specs.Prelude.{◌≡◌, ◌+◌, ◌*◌, ◌%◌, ◌^◌, ◌<◌, ◌≤◌, ℕ, drop, length, take};
ghost use Rattle.std.specs.Prelude.{[], List, false, replicate, slice_index, slice_range};
ghost use Rattle.flash_model.specs.Blanks.{IsBlankOf};
ghost use Rattle.flash_model.specs.Chip.{reached};
ghost use Rattle.flash_model.specs.Written.{IsWrittenBy};
ghost use Rattle.slice_flash.specs.Index.{IsIndex, IsStart};
ghost use Rattle.slice_flash.specs.Overlay.{number_at, position, replayed, room_at};
ghost use Rattle.slice_flash.specs.Overlay.{AreEntries, IsEntryAt, Performs};
ghost use Rattle.slice_flash.specs.Steps.{IsRecordedBy, IsTooShort, fixed_over};

use crate::index::{Index, Start};
use crate::steps::{Asked, record, room_of};
use flash_model::{Flash, FlashError, Origin, Result};
use std::sync::ledger::{Blank, Book, Ledger, Share};

/// A flash over bytes that are only read, such as a part that is mapped into memory. It records each
/// write in a borrowed journal.
///
/// A *write* is a program or an erase. It takes 12 bytes of the journal: three numbers of 4 bytes,
/// the lowest byte first. The first is the kind, 0 for a program and 1 for an erase. The second is
/// the address. The third is the length of the range in bytes. After a program its bytes follow.
/// Nothing lies between two writes.
///
/// A write that doesn't fit in the rest of the journal is refused. It returns `Cut`, no byte of the
/// journal changes, it isn't counted as a write, and the flash is off until `restart`. Every other
/// write is recorded.
///
/// The bytes of the flash are those of the base with the recorded writes performed, one by one. A
/// read copies its range of the base, and performs on the copy what the writes change there. Its
/// time grows with the number of writes that it walks:
/// - A read in a sector that no write changed walks none.
/// - A read in another sector walks the writes since the last erase of this sector, also those in
///   other sectors. If the journal has no such erase, it walks those from the first program in the
///   sector on.
/// - A read over several sectors walks all writes.
///
/// Sectors whose numbers are equal modulo 64 share one row of an index. It knows the last of them
/// that was erased or changed for the first time. A read in another one that was changed walks all
/// writes. Sectors whose numbers are equal modulo 1024 count as changed together, and a program over
/// several sectors counts as a change of all sectors. A row holds no place 2^32 bytes or more after
/// the front of the journal: a read that would begin there walks all writes.
///
/// A caller that performs the journal on the part begins with an empty one, and so with reads that
/// walk no writes.
///
/// No call allocates. When the flash is dropped, the caller knows the bytes of the journal. If
/// functions borrowed the flash, it knows that the used ones record exactly the counted writes, and
/// so what the part holds once they are performed.
///
/// Contracts see it as a `Recording` (`recording_of`): the chip, the journal, and how many bytes of
/// it are used. The used bytes record exactly the counted writes. Performed one by one on the base,
/// these writes make the bytes of the flash. The bytes after the used ones stay as they were.
///
/// A flash is made in a function that is generic in the ledger, like a `MemFlash`, but with a
/// ledger of three parts:
///
/// ```text
/// fn helper<L: Ledger>(blank: Blank, base: &[u8], journal: &mut [u8])
///     requires blank { IsBlankOf blank L.name L.parts 3 }
///     requires whole { length base.now ≡ 8192 }
/// {
///     let mut flash = OverlayFlash::<L>::new(blank, base, 512, journal);
///     ..
/// }
///
/// helper::<Brand>(Blank::new(3), &base, &mut journal);
/// ```
pub struct OverlayFlash<'a, 'b, L: Ledger> {
    base: &'a [u8],
    journal: &'b mut [u8],
    used: usize,
    sector_size: u32,
    sectors: u32,
    is_on: bool,
    writes: u64,
    journal_origin: Origin,
    index: Index,
    book: Book<L>,
    cuts: Share<L>,
    erases: Share<L>,
    refused: Share<L>,
    ghost some: { 0 < sector_size },
    ghost sized: { length base.now ≡ sectors * sector_size },
    ghost whole: { length (replayed base.now journal.now writes) ≡ sectors * sector_size },
    ghost addressed: { sectors * sector_size < 2 ^ 32 },
    ghost are_bytes: { (k : ℕ) → slice_index (replayed base.now journal.now writes) k < 256 },
    ghost counts_cuts: { 0 < cuts.parts },
    ghost counts_erases: { 0 < erases.parts },
    ghost counts_refused: { 0 < refused.parts },
    ghost fits: { used ≤ length journal.now },
    ghost few: { 12 * writes ≤ used },
    ghost end: { used ≡ position journal.now writes },
    ghost entries: { AreEntries (length base.now) journal.now writes },
    ghost indexed: { IsIndex sector_size base.now journal.now writes index },
    ghost same_size: { length journal.now ≡ length journal_origin.first },
    ghost rest: { drop used journal.now ≡ drop used journal_origin.first },
    ghost all: { cuts.amount ≡ 0 → refused.amount ≡ 0 },
    ghost short: { 0 < cuts.amount → length journal.now < used + refused.amount },
    ghost recorded: { ∥ IsRecordedBy sector_size base.now (replayed base.now journal.now writes)
        (take used journal.now) writes ∥₁ },
    ghost off_by_journal: { is_on ≡ false → ∥ IsTooShort sector_size
        (replayed base.now journal.now writes) (length journal.now) used ∥₁ },
    ghost cut_by_faults: { cuts.amount ≡ reached [] writes + cuts.amount },
    ghost written: { ∥ IsWrittenBy sector_size (fixed_over base.now 0 journal_origin.first
        journal.ghost_name) (replayed base.now journal.now writes) writes ∥₁ },
}

// Written by hand for its clause, from which the caller knows the journal.
impl<'a, 'b, L: Ledger> Drop for OverlayFlash<'a, 'b, L> {
    ghost use Rattle.slice_flash.specs.OverlayFlash.{recording_of};

    fn drop(self)
        ensures { self.exit.1.0.now ≡ (recording_of self.entry).journal }
    {
        let OverlayFlash {
            base,
            journal,
            used,
            sector_size,
            sectors,
            is_on,
            writes,
            journal_origin,
            index,
            book,
            cuts,
            erases,
            refused,
        } = self;
    }
}

/// Returns the number in the four bytes from `start` on.
fn number_at(journal: &[u8], start: usize) -> u32
    requires { start + 4 ≤ length journal.now }
    ensures { result ≡ number_at journal.now start }
{
    let mut bytes = [0; 4];
    bytes.copy_from_slice(&journal[start..start + 4]);
    u32::from_le_bytes(bytes)
}

/// Erases these bytes.
fn blank(bytes: &mut [u8])
    ensures { bytes.new ≡ replicate (length bytes.old) 0xff }
{
    bytes.fill(0xff);
}

/// Performs the entry at `start` on the bytes of a flash of which `out` is the part from `at` on.
/// Returns the length of the entry.
fn perform_at(journal: &[u8], start: usize, at: usize, out: &mut [u8], size: usize) -> usize
    requires entry { IsEntryAt size journal.now start }
    requires inside { at + length out.old ≤ size }
    ensures room { result ≡ room_at journal.now start }
    ensures same_size { length out.new ≡ length out.old }
    ensures bytes { Performs size journal.now start at out.old out.new }
{
    let kind = number_at(journal, start);
    let place = number_at(journal, start + 4) as usize;
    let n = number_at(journal, start + 8) as usize;
    let from = place.max(at);
    let to = (place + n).min(at + out.len());
    if kind == 0 {
        if from < to {
            let range = &journal[start + 12..start + 12 + n];
            out[from - at..to - at].copy_from_slice(&range[from - place..to - place]);
        }
        12 + n
    } else {
        if from < to {
            blank(&mut out[from - at..to - at]);
        }
        12
    }
}

/// Fills `out` with the bytes from `at` on as the entries before `start` leave them.
fn begin(base: &[u8], start: Start, at: usize, out: &mut [u8])
    requires { at + length out.old ≤ length base.now }
    ensures { (journal : List ℕ) (entries : ℕ) → AreEntries (length base.now) journal entries
        → IsStart base.now journal entries at (length out.old) start
        → out.new ≡ slice_range (replayed base.now journal start.entries) at (at + length out.old) }
{
    if start.is_blank {
        blank(out);
    } else {
        out.copy_from_slice(&base[at..at + out.len()]);
    }
}

/// Reads the bytes from `at` on into `out`: those of the base, with the entries of the journal
/// performed one by one. Walks only the entries that `start` doesn't leave out.
fn read_over(base: &[u8], journal: &[u8], start: Start, entries: u64, at: usize, out: &mut [u8])
    requires entries { AreEntries (length base.now) journal.now entries }
    requires inside { at + length out.old ≤ length base.now }
    requires start { IsStart base.now journal.now entries at (length out.old) start }
    ensures { out.new
        ≡ slice_range (replayed base.now journal.now entries) at (at + length out.old) }
{
    begin(base, start, at, out);
    let mut offset = start.offset;
    for k in start.entries..entries {
        offset += perform_at(journal, offset, at, out, base.len());
    }
}

/// Reads through a journal that is borrowed as `&mut`, because a `&mut` field that is passed as `&`
/// isn't known to be unchanged.
fn read_through(
    base: &[u8],
    journal: &mut [u8],
    start: Start,
    entries: u64,
    at: usize,
    out: &mut [u8],
)
    requires entries { AreEntries (length base.now) journal.old entries }
    requires inside { at + length out.old ≤ length base.now }
    requires start { IsStart base.now journal.old entries at (length out.old) start }
    ensures same { journal.new ≡ journal.old }
    ensures read { out.new
        ≡ slice_range (replayed base.now journal.old entries) at (at + length out.old) }
{
    read_over(base, &journal[..], start, entries, at, out);
}

impl<'a, 'b, L: Ledger> OverlayFlash<'a, 'b, L> {
    ghost use Rattle.slice_flash.specs.Steps.{IsAccepted, spelled};
    ghost use Rattle.slice_flash.specs.Recording.{recorded, refused, IsKept, Records};
    ghost use Rattle.slice_flash.specs.OverlayFlash.{chip_of, new_recording, recording_of, ShowsJournal};
    ghost use Rattle.slice_flash.specs.Asked.{step_of};

    /// Makes a flash over the bytes of `base`: whole sectors of `sector_size` bytes each, at most
    /// 4294967295 bytes together. The flash is on, and no byte of the journal is used.
    ///
    /// `blank` is a token of the ledger with three parts, as `Blank::new(3)` makes it.
    ///
    /// # Examples
    ///
    /// ```text
    /// // `base` has two sectors of 512 bytes, each byte 7, and `journal` has 32 bytes.
    /// let mut flash = OverlayFlash::<L>::new(blank, base, 512, journal);
    /// flash.erase(1)?;
    /// assert!(rt; flash.used() == 12);
    /// let answer = flash.program(512, &[7; 24]);
    /// assert!(rt; answer == Err(FlashError::Cut) && flash.used() == 12);
    /// flash.restart();
    /// let mut bytes = [0; 4];
    /// flash.read(510, &mut bytes)?;
    /// assert!(rt; bytes == [7, 7, 0xff, 0xff]);
    /// ```
    pub fn new(blank: Blank, base: &'a [u8], sector_size: u32, journal: &'b mut [u8]) -> Self
        requires blank { IsBlankOf blank L.name L.parts 3 }
        requires some { 0 < sector_size }
        requires whole { length base.now % sector_size ≡ 0 }
        requires addressed { length base.now < 2 ^ 32 }
        ensures { recording_of result ≡ new_recording sector_size base.now journal.entry }
    {
        let sectors = base.len() as u32 / sector_size;
        let journal_origin = Origin::of(journal);
        let (book, mut cuts) = blank.open::<L>();
        let erases = cuts.split_off(1, 0);
        let refused = cuts.split_off(1, 0);
        OverlayFlash {
            base,
            journal,
            used: 0,
            sector_size,
            sectors,
            is_on: true,
            writes: 0,
            journal_origin,
            index: Index::new(),
            book,
            cuts,
            erases,
            refused,
        }
    }

    /// Returns the number of writes so far. A refused write doesn't count. The bytes of the flash are
    /// those of the base with that many entries of the journal performed.
    pub fn writes(&self) -> u64
        ensures writes { result ≡ (chip_of self.now).writes }
        ensures shows { ShowsJournal (recording_of self.now) }
    {
        self.writes
    }

    /// Returns how many bytes of the journal are used, from its first byte on. These bytes record
    /// exactly the writes so far.
    pub fn used(&self) -> usize
        ensures used { result ≡ (recording_of self.now).used }
        ensures kept { IsKept (recording_of self.now) }
    {
        self.used
    }

    /// Refuses a write that doesn't fit in the journal.
    fn refuse(&mut self, at: u32, asked: Asked<'_>)
        requires taken { let old = recording_of self.old in
            IsAccepted old.chip.sector_size (step_of at asked) old.chip.bytes }
        requires long { let old = recording_of self.old in
            length old.journal < old.used + length (spelled (step_of at asked)) }
        ensures { let room = length (spelled (step_of at asked.entry)) in
            recording_of self.new ≡ refused room (recording_of self.old) }
    {
        let cuts = &mut self.cuts;
        self.is_on = false;
        self.book.add(&mut self.refused, room_of(asked) as u64);
        self.book.add(cuts, 1);
    }

    /// Records a write, if it fits in the journal. Counts it while the entry is borrowed, because
    /// the struct's invariants tie the count to the journal.
    fn write(&mut self, at: u32, asked: Asked<'_>) -> Result<()>
        requires { let old = recording_of self.old in
            IsAccepted old.chip.sector_size (step_of at asked) old.chip.bytes }
        ensures { let step = step_of at asked.entry in
            Records result step (recorded step (recording_of self.old)) (recording_of self.old)
            (recording_of self.new) }
    {
        if !self.is_on {
            return Err(FlashError::Off);
        }
        let room = room_of(asked);
        if self.journal.len() - self.used < room {
            self.refuse(at, asked);
            return Err(FlashError::Cut);
        }
        let entry = &mut self.journal[self.used..self.used + room];
        self.index
            .add(at, asked, self.sector_size, self.writes, self.used);
        self.used += room;
        self.writes += 1;
        record(entry, at, asked);
        Ok(())
    }
}

impl<'a, 'b, L: Ledger> Flash for OverlayFlash<'a, 'b, L> {
    ghost use Rattle.std.specs.Prelude.{◌≡◌, ◌+◌, ◌*◌, ◌<◌, ◌≤◌, length, true};
    ghost use Rattle.flash_model.specs.Chip.{size_of};
    ghost use Rattle.flash_model.specs.Calls.{CanProgram, Erases, Programs, ReadsBytes};
    ghost use Rattle.slice_flash.specs.Steps.{Erased, Programmed};
    ghost use Rattle.slice_flash.specs.Recording.{erased, recorded, Records};
    ghost use Rattle.slice_flash.specs.OverlayFlash.{chip_of, recording_of};

    ghost chip = { chip_of };

    ghost whole = { λ f. f.whole };

    ghost addressed = { λ f. f.addressed };

    ghost bytes = { λ f. f.are_bytes };

    ghost armed = { λ f. f.cut_by_faults };

    ghost written = { λ f. f.written };

    fn sector_size(&self) -> u32 {
        self.sector_size
    }

    fn sectors(&self) -> u32 {
        self.sectors
    }

    fn read(&mut self, at: u32, out: &mut [u8]) -> Result<()>
        requires { at + length out.old ≤ size_of (chip_of self.old) }
        ensures chip { ReadsBytes at out.new (chip_of self.old) (chip_of self.new) result }
        ensures journal { recording_of self.new ≡ recording_of self.old }
    {
        if !self.is_on {
            return Err(FlashError::Off);
        }
        let start = self
            .index
            .start_of(at, out.len(), self.sector_size, self.writes, self.used);
        read_through(
            self.base,
            self.journal,
            start,
            self.writes,
            at as usize,
            out,
        );
        Ok(())
    }

    fn program(&mut self, at: u32, bytes: &[u8]) -> Result<()>
        requires { CanProgram at (length bytes.now) (chip_of self.old) }
        ensures chip { Programs at bytes.now (chip_of self.old) (chip_of self.new) result }
        ensures journal { let step = Programmed at bytes.now in
            Records result step (recorded step (recording_of self.old)) (recording_of self.old)
            (recording_of self.new) }
    {
        self.write(at, Asked::Program(bytes))
    }

    fn erase(&mut self, sector: u32) -> Result<()>
        requires { sector < (chip_of self.old).sectors }
        ensures chip { Erases sector (chip_of self.old) (chip_of self.new) result }
        ensures journal { let size = (chip_of self.old).sector_size in
            let step = Erased (sector * size) size in
            Records result step (erased step (recording_of self.old)) (recording_of self.old)
            (recording_of self.new) }
    {
        let n = self.sector_size;
        self.write(sector * n, Asked::Erase(n))?;
        self.book.add(&mut self.erases, 1);
        Ok(())
    }

    fn restart(&mut self)
        ensures chip { chip_of self.new ≡ record (chip_of self.old) { is_on = true } }
        ensures journal { recording_of self.new ≡ record (recording_of self.old) {
          chip = record (chip_of self.old) { is_on = true };
        } }
    {
        self.is_on = true;
    }
}
