//! Calls on a flash of four sectors of eight bytes, and the bytes that they leave.

ghost use Rattle.std.specs.Prelude.{◌≡◌};

use flash_model::{Flash, FlashError, Result, is_erased};

const DONE: Result<()> = Ok(());

const CUT: Result<()> = Err(FlashError::Cut);

const OFF: Result<()> = Err(FlashError::Off);

/// A call on the flash.
#[derive(Clone, Copy)]
pub enum Call {
    /// Programs 1 to 16 from byte 8 on.
    Program,
    Erase(u32),
    Restart,
}

/// A call and its expected result.
pub type Answered = (Call, Result<()>);

/// Erases of the sector in the name: done, cut, and refused because the flash is off.
pub const CUT_0: Answered = (Call::Erase(0), CUT);

pub const CUT_1: Answered = (Call::Erase(1), CUT);

pub const CUT_2: Answered = (Call::Erase(2), CUT);

pub const CUT_3: Answered = (Call::Erase(3), CUT);

pub const DONE_1: Answered = (Call::Erase(1), DONE);

pub const DONE_2: Answered = (Call::Erase(2), DONE);

pub const OFF_0: Answered = (Call::Erase(0), OFF);

pub const OFF_1: Answered = (Call::Erase(1), OFF);

pub const OFF_2: Answered = (Call::Erase(2), OFF);

pub const OFF_3: Answered = (Call::Erase(3), OFF);

/// The program, done and cut, and the restart.
pub const PROGRAM_CUT: Answered = (Call::Program, CUT);

pub const PROGRAM_DONE: Answered = (Call::Program, DONE);

pub const RESTART: Answered = (Call::Restart, DONE);

const SIXTEEN: [u8; 16] = [1, 2, 3, 4, 5, 6, 7, 8, 9, 10, 11, 12, 13, 14, 15, 16];

/// Makes a call and returns its result. `None` if the contract of the flash doesn't allow the call.
fn answer<F: Flash>(flash: &mut F, call: Call) -> Option<Result<()>> {
    if flash.sector_size() != 8 || flash.sectors() != 4 {
        return None;
    }
    match call {
        Call::Program => {
            if is_erased(flash, 8, 16) != Ok(true) {
                return None;
            }
            Some(flash.program(8, &SIXTEEN))
        }
        Call::Erase(sector) => {
            if sector > 3 {
                return None;
            }
            Some(flash.erase(sector))
        }
        Call::Restart => {
            flash.restart();
            Some(DONE)
        }
    }
}

/// Makes these calls in order, and returns whether each had its expected result.
pub fn are_answered<F: Flash>(flash: &mut F, calls: &[Answered]) -> bool {
    let mut are_right = true;
    for (call, wanted) in calls {
        are_right = answer(flash, *call) == Some(*wanted) && are_right;
    }
    are_right
}

/// The bytes of a flash as numbers of eight bytes each, big-endian.
pub fn words_of(bytes: &[u8]) -> [u64; 4] {
    let mut words = [0; 4];
    for (at, byte) in bytes.iter().enumerate() {
        let word = &mut words[at / 8 % 4];
        *word = *word << 8 | u64::from(*byte);
    }
    words
}

/// The sectors of these flashes: an erased one, an old one whose bytes are 7, the two that a
/// program writes, and these two torn into the bytes 5a a5 00, repeated.
const FREE: u64 = 0xffff_ffff_ffff_ffff;

const USED: u64 = 0x0707_0707_0707_0707;

const FIRST: u64 = 0x0102_0304_0506_0708;

const SECOND: u64 = 0x090a_0b0c_0d0e_0f10;

const TORN: u64 = 0x5aa5_005a_a500_5aa5;

const TORN_TOO: u64 = 0x005a_a500_5aa5_005a;

/// An erased flash, after a program, and after one that was torn.
pub const ERASED: [u64; 4] = [FREE; 4];

pub const PROGRAMMED: [u64; 4] = [FREE, FIRST, SECOND, FREE];

pub const TORN_PROGRAM: [u64; 4] = [FREE, TORN, TORN_TOO, FREE];

/// A flash whose bytes were all 7: unchanged, after erases of the sectors in the name, after a torn
/// erase, and after a program.
pub const OLD: [u64; 4] = [USED; 4];

pub const ERASED_1: [u64; 4] = [USED, FREE, USED, USED];

pub const ERASED_2: [u64; 4] = [USED, USED, FREE, USED];

pub const ERASED_12: [u64; 4] = [USED, FREE, FREE, USED];

pub const TORN_1: [u64; 4] = [USED, TORN, USED, USED];

pub const PROGRAMMED_12: [u64; 4] = [USED, FIRST, SECOND, USED];
