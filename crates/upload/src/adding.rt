//! Adding bytes to an open upload: complete units are written, and the rest is held in memory.

ghost use Rattle.std.specs.Prelude.{◌≡◌, ◌+◌, ◌*◌, ◌++◌, ◌<◌, ◌≤◌, ℕ, length};
ghost use Rattle.sector_map.specs.Map.{IsLaidOut};
ghost use Rattle.upload.specs.Adding.{AddsBytes, AddsIfReady, HoldsBack, IsOpenFor, TellsReady};

use crate::sessions::{UNIT, Upload};
use crate::slots::write_slot;
use crate::standing::written_of;
use arrayvec::ArrayVec;
use flash_model::{Flash, Result, is_erased};
use sector_map::{SectorMap, Side};
use trailer::is_blank;

/// Appends bytes to those of a unit. They have to fit.
pub(crate) fn extend(held: &mut ArrayVec<u8, UNIT>, bytes: &[u8])
    requires { length held.old.items + length bytes.now ≤ 8 }
    ensures { held.new.items ≡ held.old.items ++ bytes.now }
{
    if held.try_extend_from_slice(bytes).is_err() {
        unreachable!();
    }
}

/// Returns how many of `count` bytes fill complete units.
fn whole_units(count: usize) -> usize
    ensures units { (k : ℕ) × (result ≡ 8 * k) }
    ensures least { result ≤ count }
    ensures most { count < result + 8 }
{
    count / UNIT * UNIT
}

/// Holds bytes in memory that don't complete a unit.
fn hold(upload: &mut Upload, bytes: &[u8])
    requires few { length upload.old.held.items + length bytes.now < 8 }
    requires fits { upload.old.received + length bytes.now ≤ upload.old.size }
    ensures { HoldsBack bytes.now upload.old upload.new }
{
    extend(&mut upload.held, bytes);
    upload.received += bytes.len() as u32;
}

/// Returns whether an upload matches the flash as far as adding `count` bytes needs it: its counts
/// fit, the trailer reads as erased, and the units that these bytes complete are erased.
fn is_ready<F: Flash>(
    flash: &mut F,
    map: &SectorMap,
    image: u8,
    upload: &Upload,
    count: usize,
) -> Result<bool>
    requires laid_out { IsLaidOut map.now (F.chip flash.old) }
    requires fits { upload.now.received + count ≤ upload.now.size }
    ensures { TellsReady map.now image upload.now count
        (F.chip flash.old) (F.chip flash.new) result }
{
    let Some(written) = written_of(map, image, upload) else {
        return Ok(false);
    };
    let is_blank = is_blank(flash, map, image, Side::Secondary)?;
    if !is_blank {
        return Ok(false);
    }
    let start = map.slot_start(image, Side::Secondary);
    let units = whole_units(upload.held.len() + count) as u32;
    is_erased(flash, start + written, units)
}

/// Writes the unit that these bytes complete and the complete units after it, and holds the rest.
fn write_units<F: Flash>(
    flash: &mut F,
    map: &SectorMap,
    image: u8,
    upload: &mut Upload,
    bytes: &[u8],
) -> Result<()>
    requires room { IsOpenFor map.now image upload.old (length bytes.now) (F.chip flash.old) }
    requires enough { 8 ≤ length upload.old.held.items + length bytes.now }
    ensures { AddsBytes map.now image upload.old upload.new bytes.now
        (F.chip flash.old) (F.chip flash.new) result }
{
    let start = upload.received - upload.held.len() as u32;
    let (first, rest) = bytes.split_at(UNIT - upload.held.len());
    let (units, last) = rest.split_at(whole_units(rest.len()));
    let mut unit = upload.held.take();
    extend(&mut unit, first);
    write_slot(flash, map, image, start, unit.as_slice())?;
    write_slot(flash, map, image, start + 8, units)?;
    upload.received += (bytes.len() - last.len()) as u32;
    hold(upload, last);
    Ok(())
}

/// Adds bytes to an upload, or returns false and changes nothing: the upload doesn't match the
/// flash.
pub(crate) fn add_bytes<F: Flash>(
    flash: &mut F,
    map: &SectorMap,
    image: u8,
    upload: &mut Upload,
    bytes: &[u8],
) -> Result<bool>
    requires laid_out { IsLaidOut map.now (F.chip flash.old) }
    requires fits { upload.old.received + length bytes.now ≤ upload.old.size }
    ensures { AddsIfReady map.now image upload.old upload.new bytes.now
        (F.chip flash.old) (F.chip flash.new) result }
{
    if upload.held.len() + bytes.len() < UNIT {
        hold(upload, bytes);
        return Ok(true);
    }
    let is_ready = is_ready(flash, map, image, upload, bytes.len())?;
    if !is_ready {
        return Ok(false);
    }
    write_units(flash, map, image, upload, bytes)?;
    Ok(true)
}
