//! Laws that hold for each map.

ghost use Rattle.std.specs.Prelude.{◌≡◌, ◌+◌, ◌*◌, ◌<◌, ◌≤◌, ℕ};
ghost use Rattle.sector_map.specs.Map.{IsIn, sectors_of, slot_sectors};
ghost use Rattle.sector_map.specs.Part.{Part};

use crate::layout::SectorMap;

/// States laws of maps: the parts of a map are disjoint, lie in the map's sectors, and fill them.
/// Each trailer fits its sector: it has 24 bytes of status for each sector of the slot, and 56
/// bytes of other fields.
///
/// The call does nothing: its contract is the law.
pub fn parts_lie_apart(map: &SectorMap)
    ensures apart { (p q : Part) (s : ℕ) → IsIn map.now p s → IsIn map.now q s → p ≡ q }
    ensures within { (p : Part) (s : ℕ) → IsIn map.now p s → s < sectors_of map.now }
    ensures filled { (s : ℕ) → s < sectors_of map.now → (p : Part) × IsIn map.now p s }
    ensures trailers { (i : ℕ) → 24 * slot_sectors map.now i + 56 ≤ map.now.sector_size }
{}
