//! Laws that hold for each log.

ghost use Rattle.std.specs.Prelude.{◌≡◌, ℕ, Bool, false, List};
ghost use Rattle.flash_model.specs.Chip.{Chip};
ghost use Rattle.sector_map.specs.Map.{Keeps};
ghost use Rattle.sector_map.specs.Part.{Log, Part};
ghost use Rattle.set_log.specs.Log.{is_place_free, state_of};
ghost use Rattle.set_log.specs.Ring.{IsActive};

use sector_map::SectorMap;

/// The bytes of the log determine its state. If a call keeps the log, its state stays the same,
/// whatever else the call writes. So does whether a place is free.
pub fn a_log_that_is_left_keeps_its_state(map: &SectorMap)
    ensures state { (touched : Part → Bool) (old new : Chip) → Keeps map.now touched old new
        → touched Log ≡ false → state_of map.now new ≡ state_of map.now old }
    ensures places { (touched : Part → Bool) (old new : Chip) → Keeps map.now touched old new
        → touched Log ≡ false → is_place_free map.now new ≡ is_place_free map.now old }
{}

/// At most one sector of a log is active (open, after a closed one), whatever bytes the log has.
pub fn one_sector_is_active()
    ensures { (e : ℕ) (log : List ℕ) (first second : ℕ) → IsActive e log first
        → IsActive e log second → first ≡ second }
{}
