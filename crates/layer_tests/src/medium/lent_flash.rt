//! Tests of a flash over borrowed bytes: the bytes after the flash is dropped.

ghost use Rattle.std.specs.Prelude.{◌≡◌, ◌+◌, ◌<◌, ◌≤◌, ◌⊎◌, ℕ, length, slice_index, IsTrue};
ghost use Rattle.flash_model.specs.Blanks.{IsBlankOf};

use crate::medium::calls::{
    Answered, CUT_0, CUT_1, CUT_2, DONE_1, DONE_2, ERASED, ERASED_1, ERASED_2, ERASED_12, OFF_0,
    OFF_2, OLD, PROGRAM_CUT, PROGRAM_DONE, PROGRAMMED, PROGRAMMED_12, RESTART, TORN_1,
    TORN_PROGRAM, are_answered, words_of,
};
use flash_model::{FLAG, is_erased, set_unit};
use slice_flash::{ArmedCut, Left, SliceFlash};
use std::alloc::{AllocError, Global};
use std::marker::Brand;
use std::sync::ledger::{Blank, Ledger};

/// Makes these calls on a flash over the bytes, and returns whether each had its expected result.
fn play<L: Ledger>(
    blank: Blank,
    bytes: &mut [u8],
    table: &[ArmedCut<'_>],
    calls: &[Answered],
) -> bool
    requires blank { IsBlankOf blank L.name L.parts 2 }
    requires whole { length bytes.old ≡ 32 }
{
    let mut flash = SliceFlash::<L>::new(blank, bytes, 8, table);
    are_answered(&mut flash, calls)
}

/// Whether the calls of a row have their expected results and leave the expected bytes.
fn are_left(alloc: Global, row: &Played) -> Result<bool, AllocError> {
    let (before, cuts, calls, wanted) = row;
    let mut table = Vec::new(alloc);
    for (write, left) in *cuts {
        table.push(ArmedCut {
            write: *write,
            left: *left,
        })?;
    }
    let mut bytes = [*before; 32];
    let are_answered = play::<Brand>(Blank::new(2), &mut bytes, table.as_slice(), calls);
    Ok(are_answered && words_of(&bytes) == *wanted)
}

/// A row: the value of each byte before, the writes that are cut and what they leave, the calls,
/// and the bytes after them.
type Played = (
    u8,
    &'static [(u64, Left<'static>)],
    &'static [Answered],
    [u64; 4],
);

const PROGRAM: &[Answered] = &[PROGRAM_CUT];

const ERASE: &[Answered] = &[CUT_1];

const TORN: Left<'static> = Left::Bytes(&[0x5a, 0xa5, 0x00]);

const NO_BYTES: Left<'static> = Left::Bytes(&[]);

/// Eight rows cut a program or an erase in each way. The others have writes that the table doesn't
/// list, writes that are refused, and two table entries for one write.
const PLAYED: [Played; 11] = [
    (0xff, &[(1, Left::Keep)], PROGRAM, ERASED),
    (0xff, &[(1, Left::Done)], PROGRAM, PROGRAMMED),
    (0xff, &[(1, TORN)], PROGRAM, TORN_PROGRAM),
    (0xff, &[(1, NO_BYTES)], PROGRAM, ERASED),
    (0x07, &[(1, Left::Keep)], ERASE, OLD),
    (0x07, &[(1, Left::Done)], ERASE, ERASED_1),
    (0x07, &[(1, TORN)], ERASE, TORN_1),
    (0x07, &[(1, NO_BYTES)], ERASE, OLD),
    (
        0x07,
        &[(0, Left::Keep), (4, Left::Keep)],
        &[DONE_2, DONE_1, PROGRAM_DONE],
        PROGRAMMED_12,
    ),
    (
        0x07,
        &[(1, Left::Keep), (2, Left::Done)],
        &[CUT_0, OFF_0, OFF_2, RESTART, CUT_2, RESTART, DONE_1],
        ERASED_12,
    ),
    (
        0x07,
        &[(2, Left::Bytes(&[0])), (1, Left::Done), (1, Left::Keep)],
        &[CUT_2],
        ERASED_2,
    ),
];

#[test]
fn writes_are_cut_as_the_first_row_for_them_says(rt: HostRuntime) -> Result<(), AllocError> {
    for row in &PLAYED {
        assert!(rt; are_left(rt.alloc(), row)?);
    }
    Ok(())
}

/// Sets the second unit of borrowed bytes if it is erased, and returns whether it did.
///
/// Both calls are generic in the flash. Nevertheless the contract knows the bytes after the flash
/// is dropped.
fn set_second_unit<L: Ledger>(blank: Blank, bytes: &mut [u8]) -> bool
    requires blank { IsBlankOf blank L.name L.parts 2 }
    requires whole { length bytes.old ≡ 32 }
    ensures beside { (k : ℕ) → (k < 8) ⊎ (16 ≤ k)
        → slice_index bytes.new k ≡ slice_index bytes.old k }
    ensures set { IsTrue result → (i : ℕ) → i < 8
        → slice_index bytes.new (8 + i) ≡ slice_index FLAG i }
{
    let mut flash = SliceFlash::<L>::new(blank, bytes, 8, &[]);
    is_erased(&mut flash, 8, 8) == Ok(true) && set_unit(&mut flash, 8).is_ok()
}

fn second_unit_set(bytes: &mut [u8; 32]) -> bool {
    set_second_unit::<Brand>(Blank::new(2), bytes)
}

#[test]
fn a_unit_is_set_in_bytes_that_are_lent(rt: HostRuntime) {
    let mut bytes = [0xff; 32];
    let answers = [second_unit_set(&mut bytes), second_unit_set(&mut bytes)];
    let mut wanted = [0xff; 32];
    wanted[8] = 0x01;
    assert!(rt; answers == [true, false] && bytes == wanted);
}
