//! Prints the parts of a device's flash, for people.

use sector_map::{SectorMap, Side};
use std::alloc::{AllocError, Global};

/// The text of a map, in memory of `alloc`. It has a line for each part, in the order of addresses,
/// with its first byte and its length in bytes. The largest size of each image and the length of
/// the flash follow, in bytes.
pub fn map_text(alloc: Global, map: &SectorMap) -> Result<String, AllocError> {
    let (scratch, sector) = (map.scratch_start(), map.sector_size);
    let log = map.sector_start(map.log_sector(0));
    let mut text = String::new(alloc);
    write_side(&mut text, map, Side::Primary, "primary")?;
    write_side(&mut text, map, Side::Secondary, "secondary")?;
    writeln!(text, "scratch {scratch} {sector}")?;
    writeln!(text, "log {log} {}", 3 * sector)?;
    write_largest(&mut text, map)?;
    writeln!(text, "flash {}", map.bytes_in_all())?;
    Ok(text)
}

/// Adds the slots of a side, each with its trailer.
fn write_side(
    text: &mut String,
    map: &SectorMap,
    side: Side,
    name: &str,
) -> Result<(), AllocError> {
    let sector = map.sector_size;
    for image in 0..map.images {
        let (slot, length) = (map.slot_start(image, side), map.slot_length(image));
        let trailer = map.trailer_start(image, side);
        writeln!(text, "slot {image} {name} {slot} {length}")?;
        writeln!(text, "trailer {image} {name} {trailer} {sector}")?;
    }
    Ok(())
}

/// Adds the largest size of each image in bytes: the length of its slot, since a trailer has its
/// own sector.
fn write_largest(text: &mut String, map: &SectorMap) -> Result<(), AllocError> {
    for image in 0..map.images {
        let length = map.slot_length(image);
        writeln!(text, "largest {image} {length}")?;
    }
    Ok(())
}
