//! `bootswap show` and `bootswap slots`: find the state of a device on its flash.
ghost use Rattle.std.specs.Prelude.{◌≡◌, IfOk};
ghost use Rattle.flash_model.specs.Blanks.{IsBlankOf};
ghost use Rattle.device_texts.specs.FlashOf.{IsFlashOf, flash_of};
ghost use Rattle.host.specs.Input.{KeepsFiles};
ghost use Rattle.inspecting.specs.Answers.{FindsOnFlash};
ghost use Rattle.inspecting.specs.FlashText.{IsFoundOn};

use crate::device_flash::read_device_flash;
use crate::flash_state::{find_state, state_on};
use crate::inspection::Inspection;
use crate::slots_found::find_slots;
use device_texts::flash_of;
use host::{Host, Refusal, Source};
use sector_map::SectorMap;
use std::alloc::{AllocError, Global};
use std::marker::Brand;
use std::sync::ledger::{Blank, Ledger};

/// What to find on a flash.
#[derive(Clone, Copy)]
pub enum FlashText {
    /// The state of its log, and what its trailers ask of the next boot.
    State,
    /// The same, and what its slots hold. For a device at rest also the decision of the next boot:
    /// which images would run, and why each other request would be refused.
    Slots,
}

/// Reads a device file and the bytes of the device's flash from `host` into memory of `alloc`, and
/// returns `what` is on the flash.
///
/// The device file is checked before the flash is read. If its sizes make no map, it is returned
/// instead. No file changes, and the flash is opened only for reading.
pub fn inspect_flash<H: Host>(
    alloc: Global,
    what: FlashText,
    device: Source<'_>,
    flash: Source<'_>,
    host: &mut H,
) -> Result<Inspection, Refusal>
    ensures found { IfOk result (λ found. FindsOnFlash (IsFoundOn what)
        device.entry flash.entry (H.input host.old) (H.file host.old) found) }
    ensures files { KeepsFiles (H.file host.old) (H.file host.new) }
    ensures to_read { (H.opened host.new).to_write ≡ (H.opened host.old).to_write }
{
    match read_device_flash(alloc, device, flash, host)? {
        Ok(read) => {
            let map = read.device.map;
            match found_on::<Brand>(alloc, Blank::new(2), &map, read.bytes, what) {
                Ok(found) => Ok(found),
                Err(AllocError) => Err(Refusal::NoMemory),
            }
        }
        Err(refused) => Ok(Inspection::RefusedMap(refused)),
    }
}

/// Returns `what` is on a flash of these bytes: the state of the device and what else is asked for,
/// or that the log has no state.
///
/// `blank` is a ledger's token of two parts, as `Blank::new(2)` makes it.
///
/// # Errors
/// `AllocError` if memory of `alloc` runs out.
pub fn found_on<L: Ledger>(
    alloc: Global,
    blank: Blank,
    map: &SectorMap,
    bytes: Vec<u8>,
    what: FlashText,
) -> Result<Inspection, AllocError>
    requires blank { IsBlankOf blank L.name L.parts 2 }
    requires whole { IsFlashOf map.now bytes.items }
    ensures { IfOk result (λ found. IsFoundOn what map.now (flash_of map.now bytes.items) found) }
{
    let mut flash = flash_of::<L>(alloc, blank, map, bytes);
    let Some(state) = state_on(&mut flash, map) else {
        return Ok(Inspection::NoState);
    };
    let found = find_state(alloc, &mut flash, map, state)?;
    Ok(match what {
        FlashText::State => Inspection::State(found),
        FlashText::Slots => {
            let slots = find_slots(alloc, &mut flash, map, &found.state)?;
            Inspection::Slots(found, slots)
        }
    })
}
