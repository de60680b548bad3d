//! Examples of a map, and of calls on a flash: writes, trailers, the log, a swap and an upload.

ghost use Rattle.std.specs.Prelude.{length};
ghost use Rattle.flash_model.specs.Blanks.{IsBlankOf};

use crate::images::{FIRST, FIRST_DIGEST};
use flash_model::{Flash, FlashError, MemFlash, Torn};
use manifest::{Component, Manifest};
use sector_map::{SectorMap, Side, is_within};
use set_log::{State, append, read_state, start};
use slice_flash::{ArmedCut, Left, OverlayFlash, SliceFlash};
use std::marker::Brand;
use std::process::Abort;
use std::sync::ledger::{Blank, Ledger};
use std::test::Fail;
use swap_scratch::{swap_progress, swap_set};
use trailer::{Kind, Magic, clear, read_trailer, request, standing};
use upload::Uploads;

#[test]
fn a_map_has_places(rt: HostRuntime) -> Result<(), Fail> {
    // example: sector_map::SectorMap::new
    // Two images of two sectors of 512 bytes. A trailer of one sector follows each slot.
    let map = SectorMap::new(512, &[2, 2])?;
    assert!(rt; map.images == 2 && map.bytes_in_all() == 8192);
    assert!(rt; map.slot_start(1, Side::Primary) == 1536);
    assert!(rt; map.scratch_start() == 6144);
    // end of example
    Ok(())
}

/// Cuts an erase of a flash in memory, then runs the examples on this flash.
fn cut_in_memory<L: Ledger>(rt: &(impl Abort + AllocGlobal), blank: Blank) -> Result<(), Fail>
    requires blank { IsBlankOf blank L.name L.parts 2 }
{
    // example: flash_model::MemFlash::new
    // 16 erased sectors of 512 bytes. Power fails in the first write, which changes nothing.
    let mut flash = MemFlash::<L>::new(rt.alloc(), blank, 512, 16)?;
    flash.arm(1, Torn::Keep)?;
    let answers = [flash.erase(0), flash.erase(1)];
    assert!(rt; answers == [Err(FlashError::Cut), Err(FlashError::Off)]);
    flash.restart();
    flash.erase(0)?;
    assert!(rt; flash.writes() == 2 && flash.erases() == 1);
    // end of example
    request_an_image(rt, &mut flash)?;
    append_a_state(rt, &mut flash)?;
    upload_an_image(rt, &mut flash)?;
    swap_an_image(rt, &mut flash)
}

/// Cuts a program of a flash over borrowed bytes.
fn cut_in_bytes<L: Ledger>(
    rt: &impl Abort,
    blank: Blank,
    bytes: &mut [u8; 1024],
) -> Result<(), FlashError>
    requires blank { IsBlankOf blank L.name L.parts 2 }
{
    // example: slice_flash::SliceFlash::new
    // `bytes` are two sectors of 512 bytes. Power fails in the second write, which leaves only
    // bytes 0x5a in its range.
    let table = [ArmedCut {
        write: 2,
        left: Left::Bytes(&[0x5a]),
    }];
    let mut flash = SliceFlash::<L>::new(blank, bytes, 512, &table);
    flash.erase(0)?;
    let answer = flash.program(0, &[7; 16]);
    assert!(rt; answer == Err(FlashError::Cut));
    // end of example
    Ok(())
}

fn cut_in_these_bytes(rt: &impl Abort, bytes: &mut [u8; 1024]) -> Result<(), FlashError> {
    cut_in_bytes::<Brand>(rt, Blank::new(2), bytes)
}

/// Records an erase of a flash over bytes that are only read.
fn record_over_bytes<L: Ledger>(
    rt: &impl Abort,
    blank: Blank,
    base: &[u8; 1024],
    journal: &mut [u8; 32],
) -> Result<(), FlashError>
    requires blank { IsBlankOf blank L.name L.parts 3 }
{
    // example: slice_flash::OverlayFlash::new
    // `base` has two sectors of 512 bytes, each byte 7, and `journal` has 32 bytes.
    let mut flash = OverlayFlash::<L>::new(blank, base, 512, journal);
    flash.erase(1)?;
    assert!(rt; flash.used() == 12);
    let answer = flash.program(512, &[7; 24]);
    assert!(rt; answer == Err(FlashError::Cut) && flash.used() == 12);
    flash.restart();
    let mut bytes = [0; 4];
    flash.read(510, &mut bytes)?;
    assert!(rt; bytes == [7, 7, 0xff, 0xff]);
    // end of example
    Ok(())
}

fn record_over_these_bytes(
    rt: &impl Abort,
    base: &[u8; 1024],
    journal: &mut [u8; 32],
) -> Result<(), FlashError> {
    record_over_bytes::<Brand>(rt, Blank::new(3), base, journal)
}

#[test]
fn writes_are_recorded(rt: HostRuntime) -> Result<(), Fail> {
    let mut journal = [0xee; 32];
    record_over_these_bytes(&rt, &[7; 1024], &mut journal)?;
    let mut recorded = [0xee; 32];
    recorded[..12].copy_from_slice(&[1, 0, 0, 0, 0, 2, 0, 0, 0, 2, 0, 0]);
    assert!(rt; journal == recorded);
    Ok(())
}

#[test]
fn writes_are_cut(rt: HostRuntime) -> Result<(), Fail> {
    cut_in_memory::<Brand>(&rt, Blank::new(2))?;
    let mut bytes = [0xff; 1024];
    cut_in_these_bytes(&rt, &mut bytes)?;
    assert!(rt; bytes[..16] == [0x5a; 16] && bytes[16..] == [0xff; 1008]);
    Ok(())
}

fn request_an_image<F: Flash>(rt: &impl Abort, flash: &mut F) -> Result<(), Fail> {
    // example: trailer::request
    // `flash` has at least the 16 sectors of the map.
    let map = SectorMap::new(512, &[2, 2])?;
    assert!(rt; map.images == 2 && map.fits(flash));
    clear(flash, &map, 0, Side::Secondary)?;
    request(flash, &map, 0, Kind::Permanent)?;
    let trailer = read_trailer(flash, &map, 0, Side::Secondary)?;
    assert!(rt; trailer.magic == Magic::Good && trailer.image_ok);
    // end of example
    Ok(())
}

fn append_a_state<F: Flash>(rt: &impl Abort, flash: &mut F) -> Result<(), Fail> {
    // example: set_log::append
    // `flash` has at least the 16 sectors of the map.
    let map = SectorMap::new(512, &[2, 2])?;
    let mut state = State::steady(1, [0; 8]);
    assert!(rt; map.fits(flash) && state.fits(map.images));
    start(flash, &map, &state)?;
    state.sequence = 2;
    append(flash, &map, &state)?;
    assert!(rt; read_state(flash, &map)? == state);
    // end of example
    Ok(())
}

fn swap_an_image<F: Flash>(rt: &impl Abort, flash: &mut F) -> Result<(), Fail> {
    // example: swap_scratch::swap_set
    // `flash` has at least the 16 sectors of the map. A swap takes three steps a sector.
    let map = SectorMap::new(512, &[2, 2])?;
    assert!(rt; map.images == 2 && map.fits(flash) && is_within(&map, 0b01));
    swap_set(flash, &map, 0b01, Side::Primary)?;
    let progress = swap_progress(flash, &map, 0, Side::Primary)?;
    assert!(rt; progress.taken == 6 && progress.steps == 6);
    // end of example
    Ok(())
}

fn upload_an_image<F: Flash>(rt: &impl Abort, flash: &mut F) -> Result<(), Fail> {
    // example: upload::Uploads::accept
    // `flash` has a log whose sequence number is below 3. `FIRST` is an image of 96 bytes.
    let map = SectorMap::new(512, &[2, 2])?;
    assert!(rt; map.images == 2 && map.fits(flash));
    read_state(flash, &map)?;
    let mut manifest = Manifest::default();
    manifest.sequence = 3;
    manifest.components.try_push(Component {
        size: 96,
        digest: FIRST_DIGEST,
        ..Component::default()
    })?;
    let mut uploads = Uploads::new();
    uploads.accept(flash, &map, &manifest)?;
    uploads.piece(flash, &map, 0, &FIRST)?;
    uploads.finish(flash, &map, 0)?;
    assert!(rt; standing(flash, &map, 0)? == Some(Kind::Test));
    // end of example
    Ok(())
}
