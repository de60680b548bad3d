//! A test of a flash in a file: a write of the file fails, or a write of the flash is cut.

ghost use Rattle.std.specs.Prelude.{◌≡◌, ◌+◌, ◌≤◌, Some};

use crate::medium::calls::{
    Answered, CUT_0, CUT_1, DONE_1, DONE_2, ERASED_1, ERASED_12, OFF_0, OFF_1, OLD, PROGRAM_CUT,
    PROGRAMMED_12, RESTART, are_answered, words_of,
};
use flash_model::{MemFlash, Torn};
use inputs::{FileFlash, FlashFile};
use std::alloc::{AllocError, Global};
use std::io;
use std::io::ErrorKind;
use std::marker::Brand;
use std::sync::ledger::{Blank, Ledger};

/// A file in memory that counts its writes. One of them can fail, and then changes nothing.
#[derive(Drop)]
struct RecordedFile {
    bytes: Vec<u8>,
    /// The number of writes, also of failed ones, and the address and the length of the last one.
    writes: [usize; 3],
    /// The number of the write that fails, counted from 1; 0 if none does.
    failing: usize,
}

impl FlashFile for RecordedFile {
    ghost contents = { λ file. Some file.bytes.items };

    fn write_at(&mut self, at: u32, bytes: &[u8]) -> io::Result<()> {
        let from = at as usize;
        let number = self.writes[0].saturating_add(1);
        self.writes = [number, from, bytes.len()];
        if number == self.failing {
            return Err(io::Error::from(ErrorKind::StorageFull));
        }
        self.bytes[from..from + bytes.len()].copy_from_slice(bytes);
        Ok(())
    }
}

/// A scenario: the write of the flash that is cut although it is complete, the write of the file
/// that fails, and the calls. Then the expected bytes of the flash and of the file, and the writes
/// of the file.
type Story = (
    u8,
    usize,
    &'static [Answered],
    [u64; 4],
    [u64; 4],
    [usize; 3],
);

/// Whether a flash and its file are as expected at the end of a scenario.
fn is_at_end<L: Ledger, M: Ledger>(flash: &FileFlash<RecordedFile, L, M>, story: &Story) -> bool {
    let (_, _, _, memory, file, writes) = *story;
    let found = flash.file();
    flash.failure().is_some()
        && words_of(flash.bytes()) == memory
        && words_of(&found.bytes) == file
        && found.writes == writes
}

/// Whether a scenario has its expected outcome, on a flash whose bytes are all 7.
fn is_told<L: Ledger, M: Ledger>(
    alloc: Global,
    blanks: (Blank, Blank),
    story: &Story,
) -> Result<bool, AllocError>
    requires name { blanks.0.name ≡ L.name }
    requires parts { blanks.0.parts ≡ L.parts }
    requires two { L.parts ≡ 2 }
    requires memory_name { blanks.1.name ≡ M.name }
    requires memory_parts { blanks.1.parts ≡ M.parts }
    requires memory_two { M.parts ≡ 2 }
{
    let (cut, failing, calls, _, _, _) = *story;
    let file = RecordedFile {
        bytes: vec![in alloc; 0x07; 32]?,
        writes: [0; 3],
        failing,
    };
    let bytes = vec![in alloc; 0x07; 32]?;
    let mut memory = MemFlash::<M>::from_bytes(alloc, blanks.1, 8, bytes);
    memory.arm(u64::from(cut), Torn::Done)?;
    let mut flash = FileFlash::<RecordedFile, L, M>::over(memory, blanks.0, file);
    Ok(are_answered(&mut flash, calls) && is_at_end(&flash, story))
}

fn is_seen(alloc: Global, story: &Story) -> Result<bool, AllocError> {
    is_told::<Brand, Brand>(alloc, (Blank::new(2), Blank::new(2)), story)
}

/// A program that fails in the file; and an erase that is cut and also fails in the file: it counts
/// as one cut.
const STORIES: [Story; 2] = [
    (
        0,
        3,
        &[DONE_1, DONE_2, PROGRAM_CUT, OFF_0, RESTART, CUT_0],
        PROGRAMMED_12,
        ERASED_12,
        [3, 8, 16],
    ),
    (
        1,
        1,
        &[CUT_1, OFF_1, RESTART, CUT_0],
        ERASED_1,
        OLD,
        [1, 8, 8],
    ),
];

#[test]
fn a_write_that_fails_in_the_file_is_cut_and_so_are_later_ones(
    rt: HostRuntime,
) -> Result<(), AllocError> {
    for story in &STORIES {
        assert!(rt; is_seen(rt.alloc(), story)?);
    }
    Ok(())
}
