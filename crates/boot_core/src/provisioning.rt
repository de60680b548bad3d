//! Provisions a flash: makes it a device's.

ghost use Rattle.std.specs.Prelude.{◌≡◌, ℕ, ◌*◌, ◌<◌, ◌≤◌, ◌++◌, ◌∷◌, [], OnOk, length, slice_index};
ghost use Rattle.common.specs.Limits.{MOST_IMAGES};
ghost use Rattle.sector_map.specs.Map.{HasImage, IsLaidOut};
ghost use Rattle.sector_map.specs.Part.{trailers_of};
ghost use Rattle.reports.specs.declared.table.Entry.{Entry};
ghost use Rattle.validity.specs.Running.{running_row, running_table};
ghost use Rattle.boot_core.specs.FirstState.{HoldsFirst};
ghost use Rattle.boot_core.specs.Provisioned.{AreCounters, IsReadThere};
ghost use Rattle.boot_core.specs.Provisioned.{any_trailer};
ghost use Rattle.boot_core.specs.Provisions.{AreClearedIn, BeginsAfresh, IsClearedIn, IsRowIn};
ghost use Rattle.boot_core.specs.Provisions.{Judges, Leaves, MakesDevice, Provisions, PushesRunning};
ghost use Rattle.decision.specs.Places.{read_as, reading_in, some_if};
ghost use Rattle.decision.specs.Telling.{TellsUnlessOff};

use arrayvec::ArrayVec;
use common::limits::MOST_IMAGES;
use decision::put_entry;
use flash_model::{Flash, Result};
use image_reading::{Desc, intact_image_into};
use machine::Fault;
use reports::Entry;
use sector_map::{SectorMap, Side};
use set_log::{State, start};
use trailer::clear;
use validity::can_run_together;

/// Reads what is known of the image that a primary slot begins with into a place. Returns whether the
/// image is intact.
fn read_entry<F: Flash>(
    flash: &mut F,
    map: &SectorMap,
    image: u8,
    entry: &mut Entry,
) -> Result<bool>
    requires { HasImage map.now image (F.chip flash.old) }
    ensures { TellsUnlessOff (IsRowIn map.now image) (F.chip flash.old) (F.chip flash.new)
        (read_as (some_if (running_row entry.new)) result) }
{
    let mut description = Desc::default();
    if !intact_image_into(flash, map, image, Side::Primary, &mut description)? {
        return Ok(false);
    }
    put_entry(description, entry);
    Ok(true)
}

/// Adds an entry to fill. The temporary one takes stack only here.
#[inline(never)]
fn push_blank(running: &mut ArrayVec<Entry, MOST_IMAGES>)
    requires { length running.old.items < MOST_IMAGES }
    ensures { (blank : Entry) × (running.new.items ≡ running.old.items ++ blank ∷ []) }
{
    running.push(Entry::default());
}

/// Adds what is known of the image that a primary slot begins with. Returns whether the image is
/// intact. Otherwise the entry may be any.
fn push_entry<F: Flash>(
    flash: &mut F,
    map: &SectorMap,
    image: u8,
    running: &mut ArrayVec<Entry, MOST_IMAGES>,
) -> Result<bool>
    requires there { HasImage map.now image (F.chip flash.old) }
    requires few { length running.old.items < MOST_IMAGES }
    ensures { PushesRunning map.now image (F.chip flash.old) (F.chip flash.new)
        running.old.items running.new.items result }
{
    let last = running.len();
    push_blank(running);
    read_entry(flash, map, image, &mut running[last])
}

/// Reads what is known of the images that the primary slots begin with into a place. Returns the
/// lowest image that isn't intact, if there is one.
fn read_running<F: Flash>(
    flash: &mut F,
    map: &SectorMap,
    running: &mut ArrayVec<Entry, MOST_IMAGES>,
) -> Result<Option<u8>>
    requires laid_out { IsLaidOut map.now (F.chip flash.old) }
    ensures { TellsUnlessOff (IsReadThere map.now) (F.chip flash.old) (F.chip flash.new)
        (read_as (reading_in (running_table running.new.items)) result) }
{
    running.clear();
    for image in 0..map.images {
        if !push_entry(flash, map, image, running)? {
            return Ok(Some(image));
        }
    }
    Ok(None)
}

/// The security counters of running images.
fn counters_of(running: &[Entry]) -> [u32; MOST_IMAGES]
    requires { length running.now ≤ MOST_IMAGES }
    ensures { AreCounters (running_table running.now).images.items result }
{
    let mut counters = [0; MOST_IMAGES];
    for image in 0..running.len() {
        counters[image] = running[image].counter;
    }
    counters
}

/// The security counters of the running images, if these are intact and valid. What is known of
/// these images takes stack only here: half of what a table of them takes.
#[inline(never)]
fn judge<F: Flash>(flash: &mut F, map: &SectorMap) -> Result<[u32; MOST_IMAGES], Fault>
    requires laid_out { IsLaidOut map.now (F.chip flash.old) }
    ensures { Judges map.now (F.chip flash.old) (F.chip flash.new) result }
{
    let mut running = ArrayVec::new();
    match read_running(flash, map, &mut running)? {
        Some(image) => Err(Fault::RunningDamaged(image)),
        None => {
            if !can_run_together(&running) {
                return Err(Fault::InvalidSet);
            }
            Ok(counters_of(&running))
        }
    }
}

/// Erases both trailers of an image.
fn clear_image<F: Flash>(flash: &mut F, map: &SectorMap, image: u8) -> Result<()>
    requires { HasImage map.now image (F.chip flash.old) }
    ensures { Leaves map.now (trailers_of image) (IsClearedIn map.now image) 24
        (F.chip flash.old) (F.chip flash.new) result }
{
    clear(flash, map, image, Side::Primary)?;
    clear(flash, map, image, Side::Secondary)
}

/// Erases the trailers of all images.
fn clear_all<F: Flash>(flash: &mut F, map: &SectorMap) -> Result<()>
    requires laid_out { IsLaidOut map.now (F.chip flash.old) }
    ensures { Leaves map.now any_trailer (AreClearedIn map.now) (24 * map.now.images)
        (F.chip flash.old) (F.chip flash.new) result }
{
    let images = map.images;
    for image in 0..images {
        clear_image(flash, map, image)?;
    }
    Ok(())
}

/// Erases the trailers of all images, and begins the log with a record `Steady` of these floors.
fn begin_afresh<F: Flash>(flash: &mut F, map: &SectorMap, floors: &[u32; MOST_IMAGES]) -> Result<()>
    requires laid_out { IsLaidOut map.now (F.chip flash.old) }
    requires rest { (i : ℕ) → map.now.images ≤ i → slice_index floors.now i ≡ 0 }
    ensures { BeginsAfresh map.now floors.now
        (F.chip flash.old) (F.chip flash.new) result }
{
    clear_all(flash, map)?;
    start(flash, map, &State::steady(0, *floors))
}

/// Provisions a flash if its running images are intact and valid.
fn make_device<F: Flash>(flash: &mut F, map: &SectorMap) -> Result<(), Fault>
    requires laid_out { IsLaidOut map.now (F.chip flash.old) }
    ensures { MakesDevice map.now (F.chip flash.old) (F.chip flash.new) result }
{
    let floors = judge(flash, map)?;
    begin_afresh(flash, map, &floors)?;
    Ok(())
}

/// Provisions a flash: erases the trailers of all images and begins a new log. The images that the
/// primary slots begin with run then.
///
/// Nothing is requested, no set is on trial, and the sequence number is 0. The floors are the
/// security counters of the running images. The secondary slots may hold anything. The running
/// images are checked before the first write. Does not allocate.
///
/// - `flash`, `map`: the map is laid out on the flash, which `SectorMap::fits` checks. The primary
///   slots hold the images of the device.
///
/// # Errors
/// - `RunningDamaged`: a primary slot begins with no intact image. It names the lowest such image.
///   Nothing changed.
/// - `InvalidSet`: the images don't meet their dependencies. Nothing changed.
/// - `Flash(Cut)`: power failed. Trailers and log hold any bytes, and all else is unchanged. The
///   call may be made again once the flash has power.
/// - `Flash(Off)`: the flash was off. Nothing changed.
pub fn provision<F: Flash>(flash: &mut F, map: &SectorMap) -> Result<(), Fault>
    requires laid_out { IsLaidOut map.now (F.chip flash.old) }
    ensures first { OnOk result (HoldsFirst map.now (F.chip flash.old) (F.chip flash.new)) }
    ensures all { Provisions map.now (F.chip flash.old) (F.chip flash.new) result }
{
    make_device(flash, map)
}
