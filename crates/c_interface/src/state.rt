//! The state in the log of a flash.

ghost use Rattle.std.specs.Prelude.{◌≡◌};
ghost use Rattle.flash_model.specs.Blanks.{IsBlankOf};
ghost use Rattle.c_interface.specs.Setup.{HasRoom};
ghost use Rattle.c_interface.specs.State.{AnswersState, SaysState, state_row};

use crate::numbers::{DONE, NO_LOG};
use crate::setup::{Setup, check_setup};
use common::limits::MOST_IMAGES;
use sector_map::SectorMap;
use set_log::{LogError, State, read_state};
use slice_flash::ReadOnlyFlash;
use std::marker::Brand;
use std::sync::ledger::{Blank, Ledger};

/// The state of a device that persists across its boots.
#[repr(C)]
#[derive(Clone, Copy)]
pub struct StateRow {
    /// The phase of an upgrade: 1 steady, 2 swap, 3 settle, 4 trial, 5 back, 6 back-settle.
    pub kind: u32,
    /// The set of images of the upgrade: bit i for image i.
    pub set: u32,
    /// 1 if the set stays without a trial.
    pub permanent: u32,
    /// In a trial, the number of further boots that it lasts, 0 to 6.
    pub left: u32,
    /// The sequence number of the last accepted manifest.
    pub sequence: u32,
    /// The lowest security counter that each image may have; 0 past the last image.
    pub floors: [u32; MOST_IMAGES],
}

/// No state.
const NO_STATE: StateRow = StateRow {
    kind: 0,
    set: 0,
    permanent: 0,
    left: 0,
    sequence: 0,
    floors: [0; MOST_IMAGES],
};

/// A state as C has it.
fn state_row(state: &State) -> StateRow
    ensures { result ≡ state_row state.now }
{
    StateRow {
        kind: u32::from(state.kind.number()),
        set: u32::from(state.mask),
        permanent: u32::from(state.permanent),
        left: u32::from(state.left),
        sequence: state.sequence,
        floors: state.floors,
    }
}

/// Reads the state of the log, in bytes that a map is laid out on.
fn read_on<L: Ledger>(blank: Blank, map: &SectorMap, bytes: &[u8], state: &mut StateRow) -> u32
    requires blank { IsBlankOf blank L.name L.parts 1 }
    requires room { HasRoom map.now bytes.now }
    ensures { SaysState map.now bytes.now state.new result }
{
    let mut flash = ReadOnlyFlash::<L>::new(blank, bytes, map.sector_size);
    match read_state(&mut flash, map) {
        Ok(found) => {
            *state = state_row(&found);
            DONE
        }
        Err(LogError::NoLog) => {
            *state = NO_STATE;
            NO_LOG
        }
        Err(LogError::Flash(_)) => unreachable!(),
    }
}

/// Reads the state of the device in the log of a flash.
///
/// Returns `DONE`, or `NO_LOG` if the log has no state, or why there is no such flash. The state is
/// all zero then.
#[unsafe(no_mangle)]
pub extern "C" fn bootswap_state(setup: &Setup, flash: &[u8], state: &mut StateRow) -> u32
    ensures { AnswersState setup.now flash.now state.new result }
{
    match check_setup(setup, flash) {
        Ok(checked) => read_on::<Brand>(Blank::new(1), &checked.map, flash, state),
        Err(number) => {
            *state = NO_STATE;
            number
        }
    }
}
