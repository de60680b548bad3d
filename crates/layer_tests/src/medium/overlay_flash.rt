//! Tests of a flash over bytes that are only read: what it reads, and the bytes of its journal.

ghost use Rattle.std.specs.Prelude.{◌≡◌, length};
ghost use Rattle.flash_model.specs.Blanks.{IsBlankOf};

use crate::medium::calls::{
    Answered, CUT_0, CUT_1, CUT_2, DONE_1, DONE_2, ERASED_2, ERASED_12, OFF_0, OFF_1, OLD,
    PROGRAM_CUT, PROGRAM_DONE, PROGRAMMED_12, RESTART, are_answered, words_of,
};
use flash_model::{Flash, is_erased};
use slice_flash::OverlayFlash;
use std::marker::Brand;
use std::sync::ledger::{Blank, Ledger};

/// Makes these calls on a flash over the bytes, and returns whether each had its expected result,
/// and how many bytes of the journal are used.
fn play<L: Ledger>(
    blank: Blank,
    base: &[u8],
    journal: &mut [u8],
    calls: &[Answered],
    out: &mut [u8],
) -> (bool, usize)
    requires blank { IsBlankOf blank L.name L.parts 3 }
    requires whole { length base.now ≡ 32 }
    requires out { length out.old ≡ 32 }
{
    let mut flash = OverlayFlash::<L>::new(blank, base, 8, journal);
    let are_right = are_answered(&mut flash, calls);
    flash.restart();
    let are_read = are_read(&mut flash, out);
    (are_right && are_read, flash.used())
}

/// Reads all bytes of a flash of four sectors of eight bytes, and returns whether that succeeded.
fn are_read<F: Flash>(flash: &mut F, out: &mut [u8]) -> bool
    requires { length out.old ≡ 32 }
{
    flash.sector_size() == 8 && flash.sectors() == 4 && flash.read(0, out).is_ok()
}

/// A row: the calls on a flash of bytes 7, the length of the journal, how many of its bytes they
/// use, and the bytes of the flash after them.
type Played = (&'static [Answered], usize, usize, [u64; 4]);

/// The journal after all writes that fit: two erases and a program.
const WRITES: [u8; 52] = [
    1, 0, 0, 0, 16, 0, 0, 0, 8, 0, 0, 0, 1, 0, 0, 0, 8, 0, 0, 0, 8, 0, 0, 0, 0, 0, 0, 0, 8, 0, 0,
    0, 16, 0, 0, 0, 1, 2, 3, 4, 5, 6, 7, 8, 9, 10, 11, 12, 13, 14, 15, 16,
];

/// Journals that are long enough to the byte, too short by one byte, and empty.
const PLAYED: [Played; 6] = [
    (&[DONE_2, DONE_1, PROGRAM_DONE], 52, 52, PROGRAMMED_12),
    (
        &[DONE_2, DONE_1, PROGRAM_DONE, CUT_0, OFF_0],
        63,
        52,
        PROGRAMMED_12,
    ),
    (&[DONE_2, DONE_1, PROGRAM_CUT, OFF_1], 51, 24, ERASED_12),
    (&[DONE_2, CUT_1, RESTART, CUT_1], 23, 12, ERASED_2),
    (&[CUT_2], 11, 0, OLD),
    (&[CUT_2], 0, 0, OLD),
];

/// Whether the calls of a row have their expected results and leave the expected bytes and journal.
fn are_recorded(row: &Played) -> bool {
    let (calls, room, wanted, left) = row;
    let base = [7; 32];
    let mut bytes = [0; 32];
    let mut all = [0xee; 64];
    let mut expected = [0xee; 64];
    let (used, length) = ((*wanted).min(52), (*room).min(64));
    expected[..used].copy_from_slice(&WRITES[..used]);
    let played = play::<Brand>(Blank::new(3), &base, &mut all[..length], calls, &mut bytes);
    played == (true, *wanted) && words_of(&bytes) == *left && all == expected
}

#[test]
fn an_overlay_reads_what_its_journal_records(rt: HostRuntime) {
    for row in &PLAYED {
        assert!(rt; are_recorded(row));
    }
}

/// The number of sectors of eight bytes of a flash whose index has fewer rows than it has sectors.
const MANY: u32 = 72;

const ONE: [u8; 8] = [1, 2, 3, 4, 5, 6, 7, 8];

const TWO: [u8; 8] = [11, 12, 13, 14, 15, 16, 17, 18];

/// Erases a sector, and returns whether that succeeded.
fn erases<F: Flash>(flash: &mut F, sector: u32) -> bool {
    flash.sector_size() == 8 && sector < flash.sectors() && flash.erase(sector).is_ok()
}

/// Programs an erased sector, and returns whether that succeeded.
fn programs<F: Flash>(flash: &mut F, sector: u32, bytes: &[u8; 8]) -> bool {
    if flash.sector_size() != 8 || flash.sectors() != MANY || sector >= MANY {
        return false;
    }
    let at = sector * 8;
    is_erased(flash, at, 8) == Ok(true) && flash.program(at, bytes).is_ok()
}

/// Programs the erased sectors 4 and 5 with one call, and returns whether that succeeded.
fn programs_two<F: Flash>(flash: &mut F) -> bool {
    if flash.sector_size() != 8 || flash.sectors() != MANY {
        return false;
    }
    is_erased(flash, 32, 16) == Ok(true) && flash.program(32, &[9; 16]).is_ok()
}

/// Returns whether a read of the bytes from `at` on returns these.
fn reads<F: Flash>(flash: &mut F, at: u32, wanted: &[u8]) -> bool {
    let mut out = [0; 16];
    let n = wanted.len();
    if n > 16 || at > 560 || flash.sector_size() != 8 || flash.sectors() != MANY {
        return false;
    }
    flash.read(at, &mut out[..n]).is_ok() && &out[..n] == wanted
}

/// A range that is read: its address, and its expected bytes.
type Range = (u32, &'static [u8]);

/// Ranges in a sector that no write changed, in one that was only programmed, and in one that was
/// erased and programmed. Then a range in both, and sectors that are 64 apart.
const RANGES: [Range; 9] = [
    (0, &[7; 8]),
    (16, &ONE),
    (24, &TWO),
    (26, &[13, 14, 15]),
    (20, &[5, 6, 7, 8, 11, 12, 13, 14]),
    (8, &TWO),
    (512, &ONE),
    (520, &[0xff; 8]),
    (504, &[7, 7, 7, 7, 7, 7, 7, 7, 1, 2, 3, 4, 5, 6, 7, 8]),
];

/// Returns whether reads of all ranges return the expected bytes.
fn are_shown<F: Flash>(flash: &mut F) -> bool {
    let mut are_right = true;
    for (at, wanted) in &RANGES {
        are_right = reads(flash, *at, wanted) && are_right;
    }
    are_right
}

/// Changes some sectors of a flash of bytes 7 whose sector 2 is erased, and returns whether each
/// write succeeded. Sectors 0 and 64 and sectors 1 and 65 are 64 apart.
fn change<F: Flash>(flash: &mut F) -> bool {
    programs(flash, 2, &ONE)
        && erases(flash, 3)
        && programs(flash, 3, &TWO)
        && erases(flash, 1)
        && erases(flash, 64)
        && erases(flash, 65)
        && programs(flash, 64, &ONE)
        && programs(flash, 1, &TWO)
}

/// Returns whether a flash over these bytes shows its writes, also after a program of two sectors.
fn are_all_shown<L: Ledger>(blank: Blank, base: &[u8], journal: &mut [u8]) -> bool
    requires blank { IsBlankOf blank L.name L.parts 3 }
    requires whole { length base.now ≡ 576 }
{
    let mut flash = OverlayFlash::<L>::new(blank, base, 8, journal);
    change(&mut flash)
        && are_shown(&mut flash)
        && erases(&mut flash, 4)
        && erases(&mut flash, 5)
        && programs_two(&mut flash)
        && are_shown(&mut flash)
        && reads(&mut flash, 32, &[9; 16])
}

/// Returns whether a flash of bytes 7 whose sector 2 is erased shows its writes.
fn is_shown() -> bool {
    let mut base = [7; 576];
    base[16..24].fill(0xff);
    let mut journal = [0; 256];
    are_all_shown::<Brand>(Blank::new(3), &base, &mut journal)
}

#[test]
fn a_read_shows_the_writes_of_its_sectors(rt: HostRuntime) {
    assert!(rt; is_shown());
}
