//! Tests of a flash over bytes that are only read: each write is refused, and no byte changes.

ghost use Rattle.std.specs.Prelude.{◌≡◌, length};
ghost use Rattle.flash_model.specs.Blanks.{IsBlankOf};

use crate::medium::calls::{Answered, CUT_3, OFF_1, OFF_3, PROGRAM_CUT, RESTART, are_answered};
use slice_flash::ReadOnlyFlash;
use std::marker::Brand;
use std::sync::ledger::{Blank, Ledger};

/// Makes these calls on a flash over the bytes, and returns whether each had its expected result.
fn play<L: Ledger>(blank: Blank, bytes: &[u8], calls: &[Answered]) -> bool
    requires blank { IsBlankOf blank L.name L.parts 1 }
    requires whole { length bytes.now ≡ 32 }
{
    let mut flash = ReadOnlyFlash::<L>::new(blank, bytes, 8);
    are_answered(&mut flash, calls)
}

fn are_refused(bytes: &[u8; 32], calls: &[Answered]) -> bool {
    play::<Brand>(Blank::new(1), bytes, calls)
}

#[test]
fn bytes_that_are_only_read_take_no_write(rt: HostRuntime) {
    // A program is only made over erased bytes, so the second one shows that the first left them.
    let calls = [
        PROGRAM_CUT,
        OFF_1,
        RESTART,
        PROGRAM_CUT,
        RESTART,
        CUT_3,
        OFF_3,
    ];
    assert!(rt; are_refused(&[0xff; 32], &calls));
}
