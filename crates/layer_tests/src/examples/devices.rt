//! Examples of a decision and of a device.

ghost use Rattle.flash_model.specs.Blanks.{IsBlankOf};

use crate::device::devices::{PAIR, identity, two_images};
use crate::memory::in_memory;
use boot_core::{Device, provision, run};
use decision::find;
use flash_contents::Finding;
use flash_model::{Flash, MemFlash, Torn};
use machine::{Event, Reply};
use manifest::Identity;
use sector_map::SectorMap;
use std::marker::Brand;
use std::process::Abort;
use std::sync::ledger::{Blank, Ledger};
use std::test::Fail;

/// Runs the examples on a flash that has two images.
fn decide_and_run<L: Ledger>(
    rt: &(impl Abort + AllocGlobal),
    blank: Blank,
    identity: Identity,
) -> Result<(), Fail>
    requires blank { IsBlankOf blank L.name L.parts 2 }
{
    let mut flash = in_memory::<L>(rt, blank, two_images(rt)?);
    find_a_decision(rt, &mut flash)?;
    run_events(rt, flash, identity)
}

#[test]
fn a_device_decides_and_runs(rt: HostRuntime) -> Result<(), Fail> {
    decide_and_run::<Brand>(&rt, Blank::new(2), identity(2))
}

fn find_a_decision<F: Flash>(rt: &impl Abort, flash: &mut F) -> Result<(), Fail> {
    // example: decision::find
    // `flash` has an image in each of two primary slots, and nothing is requested.
    let map = SectorMap::new(512, &[2, 2])?;
    assert!(rt; map.fits(flash));
    let finding = find(flash, &map, 0b00, &[0; 8])?;
    assert!(rt; matches!(&finding, Finding::Decided { report, .. } if report.refusals.is_empty()));
    // end of example
    Ok(())
}

fn run_events<L: Ledger>(
    rt: &(impl Abort + AllocGlobal),
    mut flash: MemFlash<L>,
    identity: Identity,
) -> Result<(), Fail> {
    // example: boot_core::run
    // `flash` is a `MemFlash` with an image in each of two primary slots. `PAIR` is a manifest for
    // `identity`, the vendor, the class and the number of images of the device.
    let map = SectorMap::new(512, &[2, 2])?;
    assert!(rt; identity.images == map.images && map.fits(&flash));
    provision(&mut flash, &map)?;
    // Power fails in write 7, while the device accepts the manifest.
    flash.arm(7, Torn::Half)?;
    let mut device = Device::new(flash, map, identity);
    device.reset();
    let events = [Event::Boot, Event::Accept(PAIR), Event::Boot];
    let replies = run(rt.alloc(), &mut device, &events)?;
    assert!(rt; matches!(replies[0], Reply::Booted { .. }) && replies[1] == Reply::Cut);
    assert!(rt; matches!(replies[2], Reply::Booted { .. }));
    // end of example
    Ok(())
}
