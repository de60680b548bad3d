//! A device of two images on a flash in memory, and the outcome of events.
//!
//! Sectors have 512 bytes and slots two sectors. Each slot is followed by the sector of its
//! trailer, so the primary slots begin at the addresses 0 and 1536.

ghost use Rattle.std.specs.Prelude.{◌≡◌};
ghost use Rattle.flash_model.specs.Blanks.{IsBlankOf};

use crate::images::{FIRST, RUNNING, SECOND};
use crate::memory::in_memory;
use boot_core::{Device, run};
use flash_model::Flash;
use machine::{Event, Reply};
use manifest::{Identity, class_id, vendor_id};
use sector_map::SectorMap;
use std::marker::Brand;
use std::process::Abort;
use std::sync::ledger::{Blank, Ledger};
use std::test::Fail;

/// The text of a manifest for the device: FIRST for image 0 and SECOND for image 1, both for a
/// test.
///
/// The identifier of its class is the UUID of version 5 of `bootswap` in the namespace of the
/// vendor's identifier. Another program computed the digests.
pub(crate) const PAIR: &[u8] = b"{\"manifest-version\":1,\"sequence-number\":1,\
    \"vendor-id\":\"886313e1-3b8a-5372-9b90-0c9aee199e5d\",\
    \"class-id\":\"74b0b1ed-70fe-5a24-9102-6a41c2172c6d\",\"components\":[\
    {\"component-id\":0,\"kind\":\"test\",\"payload-digest\":\
    \"fe88ef28572ecaa2691d61458e393edb880bdca5831197bab8673082920c0a99\",\"size\":96},\
    {\"component-id\":1,\"kind\":\"test\",\"payload-digest\":\
    \"aec6e45d3aa1b928f93ca89f4c4835da6b261ffea3de90c93242ca94c188cc4f\",\"size\":96}]}";

/// The events that upload both files, and the boot that tries them.
pub(super) const UPGRADE: [Event<&[u8]>; 6] = [
    Event::Accept(PAIR),
    Event::Piece(0, &FIRST),
    Event::Piece(1, &SECOND),
    Event::Finish(0),
    Event::Finish(1),
    Event::Boot,
];

/// Writes `part` into bytes, from index `at` on.
pub(super) fn put(rt: &impl Abort, bytes: &mut Vec<u8>, at: usize, part: &[u8]) {
    assert!(rt; at <= bytes.len() && part.len() <= bytes.len() - at);
    bytes[at..at + part.len()].copy_from_slice(part);
}

/// Writes a new log from index `start` on: the record of a steady state with sequence number 0 and
/// no floor, its gate, and the closing unit of the third sector.
pub(super) fn put_log(rt: &impl Abort, bytes: &mut Vec<u8>, start: usize) {
    assert!(rt; start < 65536);
    put(rt, bytes, start, &[0x00; 56]);
    put(rt, bytes, start, &[0x01]);
    put(rt, bytes, start + 56, &[0x01]);
    put(rt, bytes, start + 1528, &[0x01]);
}

/// The bytes of a provisioned flash on which these images run.
pub(super) fn provisioned(
    rt: &(impl Abort + AllocGlobal),
    first: &[u8],
    second: &[u8],
) -> Result<Vec<u8>, Fail> {
    let mut bytes = vec![in rt.alloc(); 0xff; 8192]?;
    put(rt, &mut bytes, 0, first);
    put(rt, &mut bytes, 1536, second);
    put_log(rt, &mut bytes, 6656);
    Ok(bytes)
}

/// The bytes of a provisioned flash on which RUNNING runs as both images.
pub(crate) fn two_images(rt: &(impl Abort + AllocGlobal)) -> Result<Vec<u8>, Fail> {
    provisioned(rt, &RUNNING, &RUNNING)
}

/// The vendor and the class of the device, with this number of images.
pub(crate) fn identity(images: u8) -> Identity
    ensures { result.images ≡ images }
{
    let vendor = vendor_id("python.org");
    Identity {
        vendor,
        class: class_id(vendor, "bootswap"),
        images,
    }
}

/// A device of two images on a flash. It hasn't booted.
pub(super) fn device_on<F: Flash + Drop>(rt: &impl Abort, flash: F) -> Result<Device<F>, Fail> {
    let map = SectorMap::new(512, &[2, 2])?;
    assert!(rt; map.fits(&flash));
    Ok(Device::new(flash, map, identity(map.images)))
}

fn play<L: Ledger>(
    rt: &(impl Abort + AllocGlobal),
    blank: Blank,
    bytes: Vec<u8>,
    events: &[Event<&[u8]>],
) -> Result<(Vec<Reply>, Vec<u8>), Fail>
    requires blank { IsBlankOf blank L.name L.parts 2 }
{
    let mut device = device_on(rt, in_memory::<L>(rt, blank, bytes))?;
    device.reset();
    let replies = run(rt.alloc(), &mut device, events)?;
    Ok((
        replies,
        Vec::from_slice(rt.alloc(), device.flash().bytes())?,
    ))
}

/// The replies to events of a device whose flash has these bytes, and the bytes after the events.
pub(super) fn outcome_of(
    rt: &(impl Abort + AllocGlobal),
    bytes: Vec<u8>,
    events: &[Event<&[u8]>],
) -> Result<(Vec<Reply>, Vec<u8>), Fail> {
    play::<Brand>(rt, Blank::new(2), bytes, events)
}
