//! Reads the state of a device from its flash, to write notes about it.

ghost use Rattle.std.specs.Prelude.{◌≡◌};
ghost use Rattle.sector_map.specs.Map.{IsLaidOut};

use decision::read_table;
use flash_contents::Reading;
use flash_model::Flash;
use reports::Table;
use sector_map::SectorMap;
use set_log::{RecordKind, read_state};

/// Returns the table of running and requested images on a flash, or `None` if the device isn't at
/// rest or the table can't be read.
pub fn table_on<F: Flash>(flash: &mut F, map: &SectorMap) -> Option<Table>
    requires { IsLaidOut map.now (F.chip flash.old) }
    ensures { F.chip flash.new ≡ F.chip flash.old }
{
    let state = read_state(flash, map).ok()?;
    if state.kind != RecordKind::Steady {
        return None;
    }
    match read_table(flash, map, 0, &state.floors) {
        Ok(Reading::Read(table)) => Some(table),
        _ => None,
    }
}

/// What the log of a flash says about the manifests that its device takes.
#[derive(Clone, Copy)]
pub struct Intake {
    /// The sequence number of the last accepted manifest.
    pub sequence: u32,
    /// Whether a set of images is on trial. Then the device takes no manifest.
    pub is_on_trial: bool,
}

/// Returns what the log of a flash says about the manifests that its device takes, or `None` if the
/// log has no state.
pub fn intake_on<F: Flash>(flash: &mut F, map: &SectorMap) -> Option<Intake>
    requires { IsLaidOut map.now (F.chip flash.old) }
    ensures { F.chip flash.new ≡ F.chip flash.old }
{
    let state = read_state(flash, map).ok()?;
    Some(Intake {
        sequence: state.sequence,
        is_on_trial: state.kind == RecordKind::Trial,
    })
}
