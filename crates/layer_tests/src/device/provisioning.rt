//! Tests of provisioning borrowed bytes: the bytes after the flash is dropped.

ghost use Rattle.std.specs.Prelude.{◌≡◌, ◌≤◌, ℕ, slice_index};
ghost use Rattle.flash_model.specs.Blanks.{IsBlankOf};
ghost use Rattle.sector_map.specs.Map.{end_of_map};

use super::devices::{provisioned, put, two_images};
use crate::images::{COUNTED_FIVE, NEEDY, RUNNING};
use boot_core::provision;
use machine::Fault;
use sector_map::SectorMap;
use slice_flash::SliceFlash;
use std::marker::Brand;
use std::process::Abort;
use std::sync::ledger::{Blank, Ledger};
use std::test::Fail;

/// Provisions the bytes as the flash of a device. The contract knows the bytes after the flash is
/// dropped: those after the map don't change.
fn make<L: Ledger>(
    rt: &impl Abort,
    blank: Blank,
    bytes: &mut [u8],
    map: &SectorMap,
) -> Result<(), Fault>
    requires blank { IsBlankOf blank L.name L.parts 2 }
    ensures { (k : ℕ) → end_of_map map.now ≤ k
        → slice_index bytes.new k ≡ slice_index bytes.old k }
{
    assert!(rt; bytes.len() % 512 == 0 && bytes.len() < 65536);
    let mut flash = SliceFlash::<L>::new(blank, bytes, 512, &[]);
    assert!(rt; map.fits(&flash));
    provision(&mut flash, map)
}

/// Provisions borrowed bytes as the flash of a device with this map, and returns the result.
fn answer_to(rt: &impl Abort, bytes: &mut [u8], map: &SectorMap) -> Result<(), Fault> {
    make::<Brand>(rt, Blank::new(2), bytes, map)
}

#[test]
fn a_new_device_has_a_first_record_and_else_what_it_had(rt: HostRuntime) -> Result<(), Fail> {
    let map = SectorMap::new(512, &[2, 2])?;
    let mut wanted = provisioned(&rt, &RUNNING, &COUNTED_FIVE)?;
    // The floor of image 1 is its counter. Its secondary slot and three sectors after the map have
    // other bytes.
    put(&rt, &mut wanted, 6668, &[0x05]);
    put(&rt, &mut wanted, 4608, &[0x5a; 1024]);
    for at in 0..1536u16 {
        wanted.push((at % 251) as u8)?;
    }
    let mut bytes = Vec::from_slice(rt.alloc(), wanted.as_slice())?;
    // The trailers and the log have other bytes before the call.
    for sector in [1024, 2560, 4096, 5632, 6656, 7168, 7680] {
        put(&rt, &mut bytes, sector, &[0x01; 512]);
    }
    let answer = answer_to(&rt, &mut bytes, &map);
    assert!(rt; answer == Ok(()) && bytes == wanted);
    Ok(())
}

/// Bytes that are written over a provisioned flash, at an index, and the fault of the call. The
/// last byte of image 1 is erased, all bytes are erased, or image 0 needs a version that doesn't
/// run.
const REFUSED: [(usize, &[u8], Fault); 3] = [
    (1611, &[0xff], Fault::RunningDamaged(1)),
    (0, &[0xff; 8192], Fault::RunningDamaged(0)),
    (0, &NEEDY, Fault::InvalidSet),
];

#[test]
fn no_device_is_made_of_images_that_can_not_run(rt: HostRuntime) -> Result<(), Fail> {
    let map = SectorMap::new(512, &[2, 2])?;
    for (at, part, fault) in REFUSED {
        let mut bytes = two_images(&rt)?;
        put(&rt, &mut bytes, at, part);
        let before = Vec::from_slice(rt.alloc(), bytes.as_slice())?;
        let answer = answer_to(&rt, &mut bytes, &map);
        assert!(&rt; answer == Err(fault) && bytes == before);
    }
    Ok(())
}
