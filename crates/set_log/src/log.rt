//! Reads the state of the log, appends a state, and starts a new log.

ghost use Rattle.std.specs.Prelude.{◌≡◌, IsSome, true};
ghost use Rattle.sector_map.specs.Map.{IsLaidOut};
ghost use Rattle.set_log.specs.Log.{state_of};
ghost use Rattle.set_log.specs.Record.{fits};
ghost use Rattle.set_log.specs.States.{Appends, ReadsState, Starts};

use crate::active_sector::read_record;
use crate::error::LogError;
use crate::state::State;
use crate::writing::{append_record, start_record};
use flash_model::{Flash, Result};
use sector_map::SectorMap;

/// Reads the state of the log: that of the last gated record of the active sector. The active
/// sector is the open one whose predecessor is closed. The contents of the other sectors don't
/// count.
///
/// The map must be laid out on the flash. The flash doesn't change. The call returns for any bytes
/// of the log. Does not allocate.
///
/// # Errors
/// `NoLog` if no sector is active, the active one has no gated record, or the last one breaks the
/// table of records. `Flash(Off)` if the flash was off.
pub fn read_state<F: Flash>(flash: &mut F, map: &SectorMap) -> Result<State, LogError>
    requires { IsLaidOut map.now (F.chip flash.old) }
    ensures { ReadsState map.now (F.chip flash.old) (F.chip flash.new) result }
{
    let Some(body) = read_record(flash, map)? else {
        return Err(LogError::NoLog);
    };
    match State::from_bytes(&body, map.images) {
        Some(state) => Ok(state),
        None => Err(LogError::NoLog),
    }
}

/// Appends a state, which replaces the current one.
///
/// The map must be laid out on the flash. The log must have a state: `read_state` checks this. The
/// new state must fit the map's images: `State::fits` checks this. If the active sector has a free
/// place, the call writes 56 bytes and a gate. Otherwise it erases the next sector, writes the
/// record there, and closes the active sector. Does not allocate.
///
/// # Errors
/// `Cut` if power failed: the log has the old state or the new one, whatever bytes the write left.
/// All other parts are unchanged. `Off` if the flash was already off: nothing changed.
///
/// # Examples
///
/// ```text
/// // `flash` has at least the 16 sectors of the map.
/// let map = SectorMap::new(512, &[2, 2])?;
/// let mut state = State::steady(1, [0; 8]);
/// assert!(rt; map.fits(flash) && state.fits(map.images));
/// start(flash, &map, &state)?;
/// state.sequence = 2;
/// append(flash, &map, &state)?;
/// assert!(rt; read_state(flash, &map)? == state);
/// ```
pub fn append<F: Flash>(flash: &mut F, map: &SectorMap, state: &State) -> Result<()>
    requires laid_out { IsLaidOut map.now (F.chip flash.old) }
    requires has_state { IsSome (state_of map.now (F.chip flash.old)) }
    requires fits { fits map.now.images state.now ≡ true }
    ensures { Appends map.now state.now (F.chip flash.old) (F.chip flash.new) result }
{
    let body = state.to_bytes();
    append_record(flash, map, &body)
}

/// Starts a new log with a state, whatever the log contains. The call erases the three sectors,
/// writes the record at the first place of the first sector, and closes the third.
///
/// The map must be laid out on the flash. The state must fit the map's images: `State::fits` checks
/// this. Does not allocate.
///
/// # Errors
/// `Cut` if power failed: the log may hold any bytes. All other parts are unchanged. `Off` if the
/// flash was already off: nothing changed.
pub fn start<F: Flash>(flash: &mut F, map: &SectorMap, state: &State) -> Result<()>
    requires laid_out { IsLaidOut map.now (F.chip flash.old) }
    requires fits { fits map.now.images state.now ≡ true }
    ensures { Starts map.now state.now (F.chip flash.old) (F.chip flash.new) result }
{
    let body = state.to_bytes();
    start_record(flash, map, &body)
}
