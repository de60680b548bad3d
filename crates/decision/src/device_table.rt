//! Reading the table of running and requested images from the flash.

ghost use Rattle.std.specs.Prelude.{◌≡◌, ◌<◌, ◌++◌, ◌∷◌, [], length, true, false};
ghost use Rattle.sector_map.specs.Map.{HasImage, IsLaidOut};
ghost use Rattle.machine.specs.States.{entry_of};
ghost use Rattle.common.specs.Limits.{MOST_IMAGES};
ghost use Rattle.reports.specs.declared.table.Image.{Image};
ghost use Rattle.decision.specs.Places.{IsEntryRequest, read_as, reading_in, some_if};
ghost use Rattle.decision.specs.Rows.{PushesRow, ReadsRequest, ReadsRow, ReadsSlot, ReadsTable, ReadsWanted};

use arrayvec::ArrayVec;
use common::limits::MOST_IMAGES;
use common::mask::is_member;
use flash_contents::Reading;
use flash_model::{Flash, Result};
use image_reading::{Desc, intact_image_into};
use reports::{Entry, Image, Request, Table};
use sector_map::{SectorMap, Side};
use trailer::standing;

/// Returns what a decision uses of an image's description.
pub fn entry_of(description: Desc) -> Entry
    ensures { result ≡ entry_of description }
{
    Entry {
        version: description.version,
        counter: description.counter,
        dependencies: description.dependencies,
        groups: description.groups,
    }
}

/// Returns what a decision uses of the image at the start of a slot, or none if that isn't intact.
///
/// `image` is the image's number from 0, and the map has to have it.
///
/// # Errors
/// `Off`: the flash was off. Nothing changes in any case.
pub fn read_slot<F: Flash>(
    flash: &mut F,
    map: &SectorMap,
    image: u8,
    side: Side,
) -> Result<Option<Entry>>
    requires { HasImage map.now image (F.chip flash.old) }
    ensures { ReadsSlot map.now image side (F.chip flash.old) (F.chip flash.new) result }
{
    let mut entry = Entry::default();
    if read_slot_into(flash, map, image, side, &mut entry)? {
        return Ok(Some(entry));
    }
    Ok(None)
}

/// Writes what a decision uses of an image's description to a place.
pub fn put_entry(description: Desc, entry: &mut Entry)
    ensures { entry.new ≡ entry_of description }
{
    entry.version = description.version;
    entry.counter = description.counter;
    entry.dependencies = description.dependencies;
    entry.groups = description.groups;
}

/// Reads what a decision uses of the image at the start of a slot into a place, as `read_slot`.
/// Returns whether the image is intact. Otherwise the place may hold anything.
///
/// # Errors
/// `Off`: the flash was off. Nothing changes on the flash in any case.
#[inline(never)]
pub fn read_slot_into<F: Flash>(
    flash: &mut F,
    map: &SectorMap,
    image: u8,
    side: Side,
    entry: &mut Entry,
) -> Result<bool>
    requires { HasImage map.now image (F.chip flash.old) }
    ensures { ReadsSlot map.now image side (F.chip flash.old) (F.chip flash.new)
        (read_as (some_if entry.new) result) }
{
    let mut description = Desc::default();
    if !intact_image_into(flash, map, image, side, &mut description)? {
        return Ok(false);
    }
    put_entry(description, entry);
    Ok(true)
}

/// Writes a request of an empty entry to a place. The temporary one takes stack only here.
#[inline(never)]
fn put_blank_request(request: &mut Request)
    ensures { IsEntryRequest request.new }
{
    *request = Request::Entry(Entry::default());
}

/// Reads the entry of a request into its place. Returns whether the image in the slot is intact.
fn read_entry_into<F: Flash>(
    flash: &mut F,
    map: &SectorMap,
    image: u8,
    side: Side,
    request: &mut Request,
) -> Result<bool>
    requires there { HasImage map.now image (F.chip flash.old) }
    requires blank { IsEntryRequest request.old }
    ensures { ReadsRequest map.now image side (F.chip flash.old) (F.chip flash.new)
        request.new result }
{
    match request {
        Request::Entry(entry) => read_slot_into(flash, map, image, side, entry),
        _ => unreachable!(),
    }
}

/// Reads what is requested for an image into a place.
fn read_request_into<F: Flash>(
    flash: &mut F,
    map: &SectorMap,
    image: u8,
    request: &mut Request,
) -> Result<()>
    requires { HasImage map.now image (F.chip flash.old) }
    ensures { ReadsWanted map.now image (F.chip flash.old) (F.chip flash.new) request.new result }
{
    match standing(flash, map, image)? {
        None => *request = Request::None,
        Some(_) => {
            put_blank_request(request);
            if !read_entry_into(flash, map, image, Side::Secondary, request)? {
                *request = Request::Damaged;
            }
        }
    }
    Ok(())
}

/// Reads the row of an image whose slots aren't swapped into a place. Returns whether the image that
/// runs, which is in the primary slot, is intact.
fn read_row_at_rest<F: Flash>(
    flash: &mut F,
    map: &SectorMap,
    image: u8,
    floor: u32,
    row: &mut Image,
) -> Result<bool>
    requires { HasImage map.now image (F.chip flash.old) }
    ensures { ReadsRow map.now image false floor (F.chip flash.old) (F.chip flash.new)
        (read_as (some_if row.new) result) }
{
    if !read_slot_into(flash, map, image, Side::Primary, &mut row.running)? {
        return Ok(false);
    }
    read_request_into(flash, map, image, &mut row.request)?;
    row.floor = floor;
    Ok(true)
}

/// Reads the row of an image whose slots are swapped into a place. Returns whether the image that
/// ran, which is in the secondary slot, and the requested one, in the primary slot, are intact.
fn read_swapped_row<F: Flash>(
    flash: &mut F,
    map: &SectorMap,
    image: u8,
    floor: u32,
    row: &mut Image,
) -> Result<bool>
    requires { HasImage map.now image (F.chip flash.old) }
    ensures { ReadsRow map.now image true floor (F.chip flash.old) (F.chip flash.new)
        (read_as (some_if row.new) result) }
{
    if !read_slot_into(flash, map, image, Side::Secondary, &mut row.running)? {
        return Ok(false);
    }
    put_blank_request(&mut row.request);
    if !read_entry_into(flash, map, image, Side::Primary, &mut row.request)? {
        return Ok(false);
    }
    row.floor = floor;
    Ok(true)
}

/// Reads the row of an image into a place. Returns whether the images that it needs are intact.
fn read_row_into<F: Flash>(
    flash: &mut F,
    map: &SectorMap,
    image: u8,
    is_swapped: bool,
    floor: u32,
    row: &mut Image,
) -> Result<bool>
    requires { HasImage map.now image (F.chip flash.old) }
    ensures { ReadsRow map.now image is_swapped floor (F.chip flash.old) (F.chip flash.new)
        (read_as (some_if row.new) result) }
{
    if is_swapped {
        read_swapped_row(flash, map, image, floor, row)
    } else {
        read_row_at_rest(flash, map, image, floor, row)
    }
}

/// Adds a row to fill: an empty one. The temporary one takes stack only here.
#[inline(never)]
fn push_blank_row(images: &mut ArrayVec<Image, MOST_IMAGES>)
    requires { length images.old.items < MOST_IMAGES }
    ensures { (blank : Image) × (images.new.items ≡ images.old.items ++ blank ∷ []) }
{
    images.push(Image::default());
}

/// Adds the row of an image. Returns whether the images that it needs are intact. Otherwise the row
/// may be any.
fn push_row<F: Flash>(
    flash: &mut F,
    map: &SectorMap,
    image: u8,
    is_swapped: bool,
    floor: u32,
    images: &mut ArrayVec<Image, MOST_IMAGES>,
) -> Result<bool>
    requires there { HasImage map.now image (F.chip flash.old) }
    requires few { length images.old.items < MOST_IMAGES }
    ensures { PushesRow map.now image is_swapped floor (F.chip flash.old) (F.chip flash.new)
        images.old.items images.new.items result }
{
    let last = images.len();
    push_blank_row(images);
    read_row_into(flash, map, image, is_swapped, floor, &mut images[last])
}

/// Reads the table of a device: what runs, and what is requested.
///
/// If an image that the table needs isn't intact, the result is the lowest such image instead.
/// `mask` has bit i set if the slots of image i are swapped. `floors` has the security counter's
/// floor for each image. The image of each slot is checked at most once, and that of a secondary
/// slot at rest only if something is requested for it. The map has to be laid out on the flash.
///
/// # Errors
/// `Off`: the flash was off. Nothing changes in any case.
pub fn read_table<F: Flash>(
    flash: &mut F,
    map: &SectorMap,
    mask: u8,
    floors: &[u32; MOST_IMAGES],
) -> Result<Reading>
    requires laid_out { IsLaidOut map.now (F.chip flash.old) }
    ensures { ReadsTable map.now mask floors.now (F.chip flash.old) (F.chip flash.new) result }
{
    let mut table = Table::default();
    match read_table_into(flash, map, mask, floors, &mut table)? {
        None => Ok(Reading::Read(table)),
        Some(image) => Ok(Reading::DamagedAt(image)),
    }
}

/// Reads the table of a device into a place, as `read_table`. If an image that the table needs isn't
/// intact, returns the lowest such image.
///
/// # Errors
/// `Off`: the flash was off. Nothing changes on the flash in any case.
pub fn read_table_into<F: Flash>(
    flash: &mut F,
    map: &SectorMap,
    mask: u8,
    floors: &[u32; MOST_IMAGES],
    table: &mut Table,
) -> Result<Option<u8>>
    requires laid_out { IsLaidOut map.now (F.chip flash.old) }
    ensures { ReadsTable map.now mask floors.now (F.chip flash.old) (F.chip flash.new)
        (read_as (reading_in table.new) result) }
{
    table.images.clear();
    for image in 0..map.images {
        let is_swapped = is_member(mask, image);
        let floor = floors[usize::from(image)];
        if !push_row(flash, map, image, is_swapped, floor, &mut table.images)? {
            return Ok(Some(image));
        }
    }
    Ok(None)
}
