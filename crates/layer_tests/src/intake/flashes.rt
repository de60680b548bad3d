//! Tests of slots on a flash that is off, and of the entries on a flash, one by one.

ghost use Rattle.flash_model.specs.Blanks.{IsBlankOf};

use flash_model::{Flash, FlashError, MemFlash, Torn};
use sector_map::{SectorMap, Side};
use std::alloc::Global;
use std::marker::Brand;
use std::process::Abort;
use std::sync::ledger::{Blank, Ledger};
use std::test::Fail;
use tlv::{SlotError, SlotTlv, SlotTlvs, Span, describe_file, describe_slot, digest_file};

/// Asserts that each call returns `Off` on a flash that is off.
fn expect_off<F: Flash>(rt: &impl Abort, flash: &mut F, map: &SectorMap) {
    assert!(rt; map.images == 2 && map.fits(flash) && map.slot_length(0) == 1024);
    let off = Err(SlotError::Flash(FlashError::Off));
    assert!(rt;
        describe_slot(flash, map, 0, Side::Primary) == off
            && describe_file(flash, map, 0, Side::Primary, 76) == off
            && digest_file(flash, map, 0, Side::Primary, 76) == Err(FlashError::Off)
    );
}

fn told_off<L: Ledger>(rt: &impl Abort, alloc: Global, blank: Blank) -> Result<(), Fail>
    requires blank { IsBlankOf blank L.name L.parts 2 }
{
    let map = SectorMap::new(512, &[2, 1])?;
    let mut flash = MemFlash::<L>::new(alloc, blank, 512, 14)?;
    flash.arm(1, Torn::Keep)?;
    assert!(rt; map.fits(&flash) && flash.erase(0) == Err(FlashError::Cut));
    expect_off(rt, &mut flash, &map);
    Ok(())
}

#[test]
fn a_flash_that_is_off_is_told_as_such(rt: HostRuntime) -> Result<(), Fail> {
    told_off::<Brand>(&rt, rt.alloc(), Blank::new(2))
}

/// Two entries and three bytes after them, at address 600 of a flash.
const ENTRIES: [u8; 13] = [
    0x40, 0x00, 0x02, 0x00, 0xaa, 0xbb, 0x50, 0xa0, 0x00, 0x00, 0x10, 0x00, 0x20,
];

/// The kinds and places of these entries.
const PLACES: [Option<SlotTlv>; 3] = [
    Some(SlotTlv {
        kind: 0x40,
        value: Span { at: 604, len: 2 },
    }),
    Some(SlotTlv {
        kind: 0xa050,
        value: Span { at: 610, len: 0 },
    }),
    None,
];

/// Two sectors that hold the entries.
fn two_sectors(alloc: Global) -> Result<Vec<u8>, Fail> {
    let mut bytes = vec![in alloc; 0xff; 600]?;
    bytes.extend_from_slice(&ENTRIES)?;
    bytes.resize(1024, 0xff)?;
    Ok(bytes)
}

fn walked<L: Ledger>(rt: &impl Abort, alloc: Global, blank: Blank) -> Result<(), Fail>
    requires blank { IsBlankOf blank L.name L.parts 2 }
{
    let bytes = two_sectors(alloc)?;
    assert!(rt; bytes.len() == 1024);
    let mut flash = MemFlash::<L>::from_bytes(alloc, blank, 512, bytes);
    let mut entries = SlotTlvs::new(Span { at: 600, len: 13 });
    let places = [
        entries.next(&mut flash)?,
        entries.next(&mut flash)?,
        entries.next(&mut flash)?,
    ];
    assert!(rt; places == PLACES && entries.rest() == Span { at: 610, len: 3 });
    Ok(())
}

#[test]
fn entries_in_a_flash_are_given_by_place(rt: HostRuntime) -> Result<(), Fail> {
    walked::<Brand>(&rt, rt.alloc(), Blank::new(2))
}
