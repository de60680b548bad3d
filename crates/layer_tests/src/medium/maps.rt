//! Tests of the places in small maps, of masks, and of the sentences for sizes that make no map.

ghost use Rattle.std.specs.Prelude.{◌<◌};

use common::mask::{is_member, mask_of};
use sector_map::{MapError, SectorMap, Side, is_within, parts_lie_apart};
use std::alloc::AllocError;

/// The first sectors of a slot and of its trailer, and their addresses in bytes.
fn places_of(map: &SectorMap, image: u8, side: Side) -> [u32; 4]
    requires { image < map.now.images }
{
    [
        map.slot(image, side),
        map.trailer(image, side),
        map.slot_start(image, side),
        map.trailer_start(image, side),
    ]
}

/// The other numbers of a map: the sectors of scratch and of the log's first and last sector; the
/// numbers of sectors, of bytes, and of places in a sector of the log; and the addresses of scratch
/// and of the last closing unit.
fn others_of(map: &SectorMap) -> [u32; 8] {
    [
        map.scratch(),
        map.log_sector(0),
        map.log_sector(2),
        map.sectors_in_all(),
        map.bytes_in_all(),
        map.record_places(),
        map.scratch_start(),
        map.closing_unit(2),
    ]
}

#[test]
fn a_small_map_has_its_parts_in_order(rt: HostRuntime) -> Result<(), MapError> {
    let map = SectorMap::new(512, &[2, 2])?;
    parts_lie_apart(&map);
    assert!(rt; map.images == 2);
    let parts = [
        places_of(&map, 0, Side::Primary),
        places_of(&map, 1, Side::Primary),
        places_of(&map, 0, Side::Secondary),
        places_of(&map, 1, Side::Secondary),
    ];
    let wanted = [
        [0, 2, 0, 1024],
        [3, 5, 1536, 2560],
        [6, 8, 3072, 4096],
        [9, 11, 4608, 5632],
    ];
    let starts = [map.record_start(0, 0), map.record_start(1, 6)];
    let others = others_of(&map) == [12, 13, 15, 16, 8192, 7, 6144, 8184];
    assert!(rt; parts == wanted && others && starts == [6656, 7552]);
    Ok(())
}

#[test]
fn sectors_of_576_bytes_serve_as_well(rt: HostRuntime) -> Result<(), MapError> {
    let map = SectorMap::new(576, &[1])?;
    assert!(rt; map.images == 1);
    let slot = places_of(&map, 0, Side::Secondary) == [2, 3, 1152, 1728];
    let others = others_of(&map) == [4, 5, 7, 8, 4608, 8, 2304, 4600];
    let sizes = [map.slot_length(0), map.record_start(2, 7)];
    assert!(rt; slot && others && sizes == [576, 4480]);
    Ok(())
}

#[test]
fn a_mask_has_the_images_of_a_list(rt: HostRuntime) -> Result<(), MapError> {
    let two = SectorMap::new(512, &[1, 1])?;
    let eight = SectorMap::new(512, &[1; 8])?;
    let told = [
        is_within(&two, 0b11),
        is_within(&two, 0b100),
        is_within(&eight, 0b1111_1111),
        is_member(0b100, 2),
        is_member(0b100, 1),
    ];
    let masks = [
        mask_of(&[]),
        mask_of(&[true, false, true]),
        mask_of(&[false, true]),
        mask_of(&[true; 8]),
    ];
    let are_right = told == [true, false, true, true, false];
    assert!(rt; are_right && masks == [0, 0b101, 0b10, 0b1111_1111]);
    Ok(())
}

const SAID: &str = "a sector has 512 to 131072 bytes, a multiple of 64
there are one to eight images, each with a sector at least
an image has so many sectors that its trailer doesn't fit into one
there are more than 4294967295 bytes in all
";

#[test]
fn each_fault_has_its_sentence(rt: HostRuntime) -> Result<(), AllocError> {
    let said = format!(in rt.alloc();
        "{}\n{}\n{}\n{}\n",
        MapError::BadSector,
        MapError::BadCount,
        MapError::TrailerFull,
        MapError::TooLarge
    )?;
    assert!(rt; said.as_str() == SAID);
    Ok(())
}
