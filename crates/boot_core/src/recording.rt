//! Records a state in the log.

ghost use Rattle.std.specs.Prelude.{◌≡◌, IsSome, true};
ghost use Rattle.sector_map.specs.Map.{IsLaidOut};
ghost use Rattle.set_log.specs.Log.{state_of};
ghost use Rattle.set_log.specs.Record.{fits};
ghost use Rattle.boot_core.specs.Recorded.{RecordsState};

use flash_model::{Flash, Result};
use sector_map::SectorMap;
use set_log::{State, append};

/// Appends a state to the log, and returns it.
pub(crate) fn append_state<F: Flash>(flash: &mut F, map: &SectorMap, state: State) -> Result<State>
    requires laid_out { IsLaidOut map.now (F.chip flash.old) }
    requires has_state { IsSome (state_of map.now (F.chip flash.old)) }
    requires fits { fits map.now.images state ≡ true }
    ensures { RecordsState map.now state (F.chip flash.old) (F.chip flash.new) result }
{
    append(flash, map, &state)?;
    Ok(state)
}
