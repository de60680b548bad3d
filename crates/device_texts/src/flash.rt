//! Makes the flash of a device in memory, and arms it with the cuts of a script.
ghost use Rattle.std.specs.Prelude.{◌≡◌, ◌≤◌, ◌++◌, OnOk};
ghost use Rattle.flash_model.specs.Blanks.{IsBlankOf};
ghost use Rattle.flash_model.specs.Memory.{chip_of, with_armed};
ghost use Rattle.sector_map.specs.Map.{IsLaidOut};
ghost use Rattle.device_texts.specs.FlashOf.{IsFlashOf, armed_in, flash_of};

use flash_model::{MemFlash, Torn};
use sector_map::SectorMap;
use std::alloc::{AllocError, Global};
use std::sync::ledger::{Blank, Ledger};

/// Makes the flash of a device in memory. It has power, and no write is armed.
///
/// `bytes` are those of all sectors of `map`, and become those of the flash: nothing is allocated.
/// `blank` is a ledger's token of two parts, as `Blank::new(2)` makes it.
pub fn flash_of<L: Ledger>(
    alloc: Global,
    blank: Blank,
    map: &SectorMap,
    bytes: Vec<u8>,
) -> MemFlash<L>
    requires blank { IsBlankOf blank L.name L.parts 2 }
    requires whole { IsFlashOf map.now bytes.items }
    ensures chip { chip_of result ≡ flash_of map.now bytes.items }
    ensures laid_out { IsLaidOut map.now (chip_of result) }
{
    MemFlash::from_bytes(alloc, blank, map.sector_size, bytes)
}

/// A write of a flash in which power fails.
#[derive(Drop)]
pub struct CutWrite {
    /// The number of the write, from 1.
    pub write: u32,
    /// What the write leaves.
    pub torn: Torn,
}

/// Arms a flash with these cuts, after those that it is armed with already. The flash must have
/// taken no write.
///
/// # Errors
/// `AllocError` if memory is refused. Only the armed writes of the flash may have changed.
pub fn arm_all<L: Ledger>(flash: &mut MemFlash<L>, cuts: Vec<CutWrite>) -> Result<(), AllocError>
    requires { (chip_of flash.old).writes ≡ 0 }
    ensures chip { chip_of flash.new
        ≡ with_armed (chip_of flash.old) (chip_of flash.new).fixed.armed }
    ensures armed { OnOk result ((chip_of flash.new).fixed.armed
        ≡ (chip_of flash.old).fixed.armed ++ armed_in cuts.items) }
{
    for cut in cuts {
        flash.arm(u64::from(cut.write), cut.torn)?;
    }
    Ok(())
}
