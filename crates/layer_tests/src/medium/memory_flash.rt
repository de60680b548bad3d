//! Tests of a flash in memory: its cuts, its counts, and the check for erased bytes.

ghost use Rattle.flash_model.specs.Blanks.{IsBlankOf};

use crate::medium::calls::{
    Answered, CUT_0, CUT_1, DONE_1, DONE_2, ERASED, ERASED_12, OFF_0, OLD, PROGRAM_CUT, RESTART,
    TORN_1, are_answered, words_of,
};
use flash_model::{MemFlash, Torn, is_erased};
use std::alloc::{AllocError, Global};
use std::marker::Brand;
use std::sync::ledger::{Blank, Ledger};

/// A scenario: the value of each byte before, the calls before a cut is armed, the armed writes
/// with the bytes that they leave, and the further calls. Then the expected bytes, and the expected
/// numbers of writes and of completed erases.
type Story = (
    u8,
    &'static [Answered],
    &'static [(u8, &'static [u8])],
    &'static [Answered],
    [u64; 4],
    [u64; 2],
);

fn arm<L: Ledger>(
    alloc: Global,
    flash: &mut MemFlash<L>,
    armed: &[(u8, &[u8])],
) -> Result<(), AllocError> {
    for (number, pattern) in armed {
        let torn = Torn::Bytes(Vec::from_slice(alloc, *pattern)?);
        flash.arm(u64::from(*number), torn)?;
    }
    Ok(())
}

/// Whether a scenario has its expected outcome.
fn is_told<L: Ledger>(alloc: Global, blank: Blank, story: &Story) -> Result<bool, AllocError>
    requires blank { IsBlankOf blank L.name L.parts 2 }
{
    let (before, done, armed, calls, after, counts) = *story;
    let bytes = vec![in alloc; before; 32]?;
    let mut flash = MemFlash::<L>::from_bytes(alloc, blank, 8, bytes);
    let is_done = are_answered(&mut flash, done);
    arm(alloc, &mut flash, armed)?;
    let are_right = are_answered(&mut flash, calls) && is_done;
    Ok(are_right && [flash.writes(), flash.erases()] == counts && words_of(flash.bytes()) == after)
}

fn is_seen(alloc: Global, story: &Story) -> Result<bool, AllocError> {
    is_told::<Brand>(alloc, Blank::new(2), story)
}

/// The first scenario tears an erase. Two tear a program and an erase into no bytes. The last one
/// has two arms for one erase, of which the first counts, an arm for write 0, and one for a past
/// write; after the cut a call is refused, and after the restart an erase is done.
const STORIES: [Story; 4] = [
    (
        0x07,
        &[],
        &[(1, &[0x5a, 0xa5, 0x00])],
        &[CUT_1],
        TORN_1,
        [1, 0],
    ),
    (0xff, &[], &[(1, &[])], &[PROGRAM_CUT], ERASED, [1, 0]),
    (0x07, &[], &[(1, &[])], &[CUT_1], OLD, [1, 0]),
    (
        0x07,
        &[DONE_1],
        &[(2, &[]), (2, &[0]), (0, &[0]), (1, &[0])],
        &[CUT_0, OFF_0, RESTART, DONE_2],
        ERASED_12,
        [3, 2],
    ),
];

#[test]
fn cuts_leave_what_was_armed_and_are_counted(rt: HostRuntime) -> Result<(), AllocError> {
    for story in &STORIES {
        assert!(rt; is_seen(rt.alloc(), story)?);
    }
    Ok(())
}

/// The byte of 264 that isn't erased, how many bytes from address 8 on are looked at, and whether
/// these are erased.
type Range = (u8, u8, bool);

/// Whether a range is found to be erased or not, as its row says.
fn is_found<L: Ledger>(alloc: Global, blank: Blank, range: Range) -> Result<bool, AllocError>
    requires blank { IsBlankOf blank L.name L.parts 2 }
{
    let (set, len, wanted) = range;
    let mut bytes = vec![in alloc; 0xff; 264]?;
    bytes[usize::from(set)] = 0xfe;
    let mut flash = MemFlash::<L>::from_bytes(alloc, blank, 8, bytes);
    Ok(is_erased(&mut flash, 8, u32::from(len)) == Ok(wanted))
}

fn is_found_in_memory(alloc: Global, range: Range) -> Result<bool, AllocError> {
    is_found::<Brand>(alloc, Blank::new(2), range)
}

const RANGES: [Range; 14] = [
    (7, 255, true),
    (8, 0, true),
    (71, 63, true),
    (72, 64, true),
    (136, 128, true),
    (199, 191, true),
    (8, 1, false),
    (8, 248, false),
    (71, 64, false),
    (72, 65, false),
    (136, 129, false),
    (199, 192, false),
    (255, 247, true),
    (255, 248, false),
];

#[test]
fn each_byte_of_a_range_is_looked_at(rt: HostRuntime) -> Result<(), AllocError> {
    let mut are_right = true;
    for range in RANGES {
        are_right = is_found_in_memory(rt.alloc(), range)? && are_right;
    }
    assert!(rt; are_right);
    Ok(())
}
