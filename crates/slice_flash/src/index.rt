//! What a flash knows of the entries of its journal, so that a read begins at a late one.

ghost use Rattle.std.specs.Prelude.{◌≡◌, ◌+◌, ◌*◌, ◌%◌, ◌/◌, ◌^◌, ◌<◌, ◌≤◌, ℕ, List, false, true};
ghost use Rattle.slice_flash.specs.Index.{is_touched, IsIndex, IsShort, IsStart, Notes};
ghost use Rattle.slice_flash.specs.Index.{PutsRow, start_in};
ghost use Rattle.slice_flash.specs.Overlay.{position};
ghost use Rattle.slice_flash.specs.Asked.{step_of};
ghost use Rattle.slice_flash.specs.Steps.{Erased, Programmed};

use crate::steps::{Asked, HEADER};

/// The number of rows. Sectors that are this far apart share one.
const ROWS: usize = 64;

/// The number of words in the set of touched sectors. Sectors that are 1024 apart share a bit.
const WORDS: usize = 16;

/// Where a read begins: after the first entries of the journal.
#[derive(Clone, Copy)]
pub(crate) struct Start {
    /// How many entries the read leaves out.
    pub(crate) entries: u64,
    /// The offset of the next entry.
    pub(crate) offset: usize,
    /// Whether the first entries leave the range of the read blank. If not, they leave it as it is
    /// in the base.
    pub(crate) is_blank: bool,
}

/// The start that is right for each range.
const FIRST: Start = Start {
    entries: 0,
    offset: 0,
    is_blank: false,
};

/// Where a read in a sector begins. The numbers of a start have 32 bits here, which halves the
/// memory of the index.
#[derive(Clone, Copy)]
struct Row {
    sector: u32,
    entries: u32,
    offset: u32,
    is_blank: bool,
}

/// What a flash knows of the entries of its journal: where a read in some sectors begins, and which
/// sectors no entry changed.
#[derive(Drop)]
pub(crate) struct Index {
    rows: [Row; ROWS],
    touched: [u64; WORDS],
}

/// Returns the row of a sector in which a read begins at `start`. If the numbers of this start don't
/// fit in 32 bits, a read begins at the first entry.
fn row_of(sector: u32, start: Start) -> Row
    ensures sector { result.sector ≡ sector }
    ensures start { IsShort start (start_in result) }
{
    let is_short = start.entries <= u64::from(u32::MAX) && start.offset <= u32::MAX as usize;
    let start = if is_short { start } else { FIRST };
    Row {
        sector,
        entries: start.entries as u32,
        offset: start.offset as u32,
        is_blank: start.is_blank,
    }
}

/// Returns where a read in the sector of a row begins.
fn start_in(row: Row) -> Start
    ensures { result ≡ start_in row }
{
    Start {
        entries: u64::from(row.entries),
        offset: row.offset as usize,
        is_blank: row.is_blank,
    }
}

/// Returns whether the `n` bytes from `at` on lie in one sector.
fn is_in_sector(at: u32, n: usize, size: u32) -> bool
    requires { 0 < size }
    ensures { result ≡ true → at + n ≤ at / size * size + size }
{
    n <= (size - at % size) as usize
}

impl Index {
    /// Makes the index of a journal without entries.
    pub(crate) fn new() -> Self
        ensures { (size : ℕ) (base journal : List ℕ) → IsIndex size base journal 0 result }
    {
        Index {
            rows: [Row {
                sector: 0,
                entries: 0,
                offset: 0,
                is_blank: false,
            }; ROWS],
            touched: [0; WORDS],
        }
    }

    /// Returns whether the bit of a sector is set.
    fn is_touched(&self, sector: u32) -> bool
        ensures { result ≡ is_touched self.now.touched sector }
    {
        self.touched[sector as usize / 64 % WORDS] >> (sector % 64) & 1 == 1
    }

    /// Sets the bit and the row of a sector.
    fn set(&mut self, sector: u32, start: Start)
        ensures rows { PutsRow sector start self.old.rows self.new.rows }
        ensures sector { is_touched self.new.touched sector ≡ true }
        ensures others { (other : ℕ) → is_touched self.new.touched other ≡ false
            → is_touched self.old.touched other ≡ false }
    {
        self.touched[sector as usize / 64 % WORDS] |= 1 << (sector % 64);
        self.rows[sector as usize % ROWS] = row_of(sector, start);
    }

    /// Sets the bit of each sector.
    fn touch_all(&mut self)
        ensures rows { self.new.rows ≡ self.old.rows }
        ensures sectors { (sector : ℕ) → is_touched self.new.touched sector ≡ true }
    {
        self.touched = [u64::MAX; WORDS];
    }

    /// Returns where a read of the `n` bytes from `at` on begins, if the journal has `writes`
    /// entries in its first `used` bytes.
    pub(crate) fn start_of(&self, at: u32, n: usize, size: u32, writes: u64, used: usize) -> Start
        requires { 0 < size }
        ensures { (base journal : List ℕ) → used ≡ position journal writes
            → IsIndex size base journal writes self.now → IsStart base journal writes at n result }
    {
        if !is_in_sector(at, n, size) {
            return FIRST;
        }
        let sector = at / size;
        if !self.is_touched(sector) {
            return Start {
                entries: writes,
                offset: used,
                is_blank: false,
            };
        }
        let row = self.rows[sector as usize % ROWS];
        if row.sector == sector {
            start_in(row)
        } else {
            FIRST
        }
    }

    /// Takes note of the erase of the sector at `at`.
    fn add_erase(&mut self, at: u32, size: u32, writes: u64, used: usize)
        requires some { 0 < size }
        requires few { writes + 1 < 2 ^ 64 }
        requires room { used + 12 < 2 ^ 64 }
        ensures { (n : ℕ) → Notes size writes used (Erased at n) self.old self.new }
    {
        let sector = at / size;
        let start = Start {
            entries: writes + 1,
            offset: used + HEADER,
            is_blank: true,
        };
        self.set(sector, start);
    }

    /// Takes note of the program of these bytes at `at`.
    fn add_program(&mut self, at: u32, bytes: &[u8], size: u32, writes: u64, used: usize)
        requires { 0 < size }
        ensures { Notes size writes used (Programmed at bytes.now) self.old self.new }
    {
        let sector = at / size;
        if !is_in_sector(at, bytes.len(), size) {
            self.touch_all();
        } else if !self.is_touched(sector) {
            let start = Start {
                entries: writes,
                offset: used,
                is_blank: false,
            };
            self.set(sector, start);
        }
    }

    /// Takes note of a write whose entry follows the first `writes` ones, at the offset `used`.
    pub(crate) fn add(&mut self, at: u32, asked: Asked<'_>, size: u32, writes: u64, used: usize)
        requires some { 0 < size }
        requires few { writes + 1 < 2 ^ 64 }
        requires room { used + 12 < 2 ^ 64 }
        ensures { Notes size writes used (step_of at asked.entry) self.old self.new }
    {
        match asked {
            Asked::Program(bytes) => self.add_program(at, bytes, size, writes, used),
            Asked::Erase(_) => self.add_erase(at, size, writes, used),
        }
    }
}
