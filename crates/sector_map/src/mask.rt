//! Masks of images of a map.

ghost use Rattle.std.specs.Prelude.{◌↔◌, IsTrue};
ghost use Rattle.sector_map.specs.Map.{IsWithin};

use crate::layout::SectorMap;

/// Returns whether each image of a mask is an image of the map.
pub fn is_within(map: &SectorMap, mask: u8) -> bool
    ensures { IsTrue result ↔ IsWithin map.now mask }
{
    u16::from(mask) >> map.images == 0
}
