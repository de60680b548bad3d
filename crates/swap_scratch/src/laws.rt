//! Laws about a place of a swap.

ghost use Rattle.swap_scratch.specs.Laws.{SwapLaws};

use sector_map::SectorMap;

/// Laws about a place of a swap. With them, callers join the calls before a swap and between its
/// parts to it.
pub fn swap_laws(map: &SectorMap)
    ensures { SwapLaws map.now }
{}
