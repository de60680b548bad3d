//! Units: eight bytes that are programmed together.

ghost use Rattle.std.specs.Prelude.{◌≡◌, ◌+◌, ◌%◌, ◌≤◌};
ghost use Rattle.flash_model.specs.Chip.{size_of, IsErased};
ghost use Rattle.flash_model.specs.Calls.{SetsUnit, TellsUnitErased};

use crate::erased_ranges::is_erased;
use crate::error::Result;
use crate::flash::Flash;

/// The length of a unit in bytes.
pub const UNIT: u32 = 8;

/// The bytes that `set_unit` writes: 0x01 and seven bytes 0xFF, as MCUboot writes a flag
/// (`BOOT_FLAG_SET`).
pub const FLAG: [u8; 8] = [0x01, 0xff, 0xff, 0xff, 0xff, 0xff, 0xff, 0xff];

/// Returns whether the unit at address `at` is erased. A unit that isn't erased is *set*. The unit
/// has to lie in the flash, which doesn't change. Does not allocate.
///
/// # Errors
/// `Off` if the flash is off.
pub fn is_unit_erased<F: Flash>(flash: &mut F, at: u32) -> Result<bool>
    requires { at + 8 ≤ size_of (F.chip flash.old) }
    ensures { TellsUnitErased at (F.chip flash.old) (F.chip flash.new) result }
{
    is_erased(flash, at, UNIT)
}

/// Sets the unit at address `at` by programming `FLAG`. The unit is erased, and `at` is a multiple
/// of 8. Does not allocate.
///
/// # Errors
/// - `Cut` if power failed: the unit holds any bytes, so it is erased or set. All other bytes are
///   unchanged, and the flash is off.
/// - `Off` if the flash was off before: nothing changed.
pub fn set_unit<F: Flash>(flash: &mut F, at: u32) -> Result<()>
    requires inside { at + 8 ≤ size_of (F.chip flash.old) }
    requires erased { IsErased (F.chip flash.old) at 8 }
    requires place { at % 8 ≡ 0 }
    ensures { SetsUnit at FLAG (F.chip flash.old) (F.chip flash.new) result }
{
    flash.program(at, &FLAG)
}
