//! Finds what the slots of a device hold. Only `slots` calls it.
ghost use Rattle.std.specs.Prelude.{◌<◌, ◌≡◌, ◌↔◌, IfOk, IsTrue, true};
ghost use Rattle.decision.specs.Found.{AreReadable};
ghost use Rattle.flash_model.specs.Chip.{Chip};
ghost use Rattle.image_reading.specs.Slot.{slot_bytes};
ghost use Rattle.sector_map.specs.Map.{IsLaidOut};
ghost use Rattle.trailer.specs.Standing.{standing_of};
ghost use Rattle.upload.specs.View.{view};
ghost use Rattle.inspecting.specs.SlotsFound.{AreFound, AreSlotsOf, AreSlotsUpTo, CanLook, IsContent};
ghost use Rattle.inspecting.specs.SlotsFound.{IsDecisionOf, IsErasedSlot, IsRestingTable};
ghost use Rattle.inspecting.specs.SlotsFound.{counting_side, moved_in};
ghost use Rattle.inspecting.specs.SlotsFound.{progress_of, progress_on};

use arrayvec::ArrayVec;
use common::limits::MOST_IMAGES;
use common::mask::is_member;
use decision::{find, read_table};
use flash_contents::{Finding, Reading};
use flash_model::{Flash, is_erased};
use image_reading::{Desc, ImageError, SlotError, describe_slot};
use reports::{Report, Table};
use sector_map::{SectorMap, Side};
use set_log::{RecordKind, State};
use std::alloc::{AllocError, Global};
use swap_scratch::{Progress, swap_progress};
use trailer::{Kind, standing};

/// What a slot begins with.
#[derive(Default, Drop)]
pub enum SlotContent {
    /// Nothing: the complete slot is erased.
    #[default]
    Erased,
    /// An intact image with this description.
    Intact(Desc),
    /// No intact image. This is the first check that fails.
    Damaged(ImageError),
}

/// What is found of an image.
#[derive(Default, Drop)]
pub struct ImageSlots {
    /// The number of the image.
    pub image: u8,
    /// What its primary slot begins with.
    pub primary: SlotContent,
    /// What its secondary slot begins with.
    pub secondary: SlotContent,
    /// The kind of its pending request, if there is one.
    pub request: Option<Kind>,
    /// The progress of its swap, if the log says that one is under way.
    pub moved: Option<Progress>,
}

/// What the next boot of a device at rest decides.
#[derive(Drop)]
pub enum NextDecision {
    /// The running images fit each other.
    Decided {
        /// The table of the device.
        table: Table,
        /// The right report on it.
        report: Report,
    },
    /// A running image isn't intact. The boot is refused.
    Damaged {
        /// The number of the lowest such image.
        image: u8,
        /// The bytes of its primary slot.
        slot: Vec<u8>,
    },
    /// The running images don't fit each other. The boot is refused.
    Invalid {
        /// The table of the device.
        table: Table,
    },
}

/// What is found of a device.
#[derive(Drop)]
pub struct SlotsFound {
    /// What is found of each image.
    pub images: ArrayVec<ImageSlots, MOST_IMAGES>,
    /// The decision of the next boot, if the device is at rest.
    pub decision: Option<NextDecision>,
}

/// Finds the slots and the next decision of a device whose log has this state. The flash has power.
///
/// # Errors
/// `AllocError` if memory of `alloc` runs out for the bytes of a damaged slot.
pub(crate) fn find_slots<F: Flash>(
    alloc: Global,
    flash: &mut F,
    map: &SectorMap,
    state: &State,
) -> Result<SlotsFound, AllocError>
    requires laid_out { IsLaidOut map.now (F.chip flash.old) }
    requires on { (F.chip flash.old).is_on ≡ true }
    ensures same { F.chip flash.new ≡ F.chip flash.old }
    ensures found { IfOk result (AreFound map.now (F.chip flash.old) state.now) }
{
    let images = find_images(flash, map, state);
    let decision = next_decision(alloc, flash, map, state)?;
    Ok(SlotsFound { images, decision })
}

/// Finds the slots of each image.
fn find_images<F: Flash>(
    flash: &mut F,
    map: &SectorMap,
    state: &State,
) -> ArrayVec<ImageSlots, MOST_IMAGES>
    requires laid_out { IsLaidOut map.now (F.chip flash.old) }
    requires on { (F.chip flash.old).is_on ≡ true }
    ensures same { F.chip flash.new ≡ F.chip flash.old }
    ensures found { AreSlotsUpTo map.now (F.chip flash.old) state.now map.now.images
        result.items }
{
    let mut images = ArrayVec::new();
    for image in 0..map.images {
        images.push(find_image(flash, map, state, image));
    }
    images
}

/// Finds the slots of an image.
fn find_image<F: Flash>(flash: &mut F, map: &SectorMap, state: &State, image: u8) -> ImageSlots
    requires { CanLook map.now image (F.chip flash.old) }
    ensures same { F.chip flash.new ≡ F.chip flash.old }
    ensures found { AreSlotsOf map.now (F.chip flash.old) state.now image result }
{
    let primary = slot_content(flash, map, image, Side::Primary);
    let secondary = slot_content(flash, map, image, Side::Secondary);
    let request = request_on(flash, map, image);
    let moved = moved_on(flash, map, state, image);
    ImageSlots {
        image,
        primary,
        secondary,
        request,
        moved,
    }
}

/// Finds what a slot begins with.
fn slot_content<F: Flash>(flash: &mut F, map: &SectorMap, image: u8, side: Side) -> SlotContent
    requires { CanLook map.now image (F.chip flash.old) }
    ensures same { F.chip flash.new ≡ F.chip flash.old }
    ensures content { IsContent map.now (F.chip flash.old) image side result }
{
    match describe_slot(flash, map, image, side) {
        Ok(description) => SlotContent::Intact(description),
        Err(SlotError::Image(fault)) => {
            if is_slot_erased(flash, map, image, side) {
                SlotContent::Erased
            } else {
                SlotContent::Damaged(fault)
            }
        }
        Err(_) => unreachable!(),
    }
}

/// Whether the complete slot is erased.
fn is_slot_erased<F: Flash>(flash: &mut F, map: &SectorMap, image: u8, side: Side) -> bool
    requires { CanLook map.now image (F.chip flash.old) }
    ensures same { F.chip flash.new ≡ F.chip flash.old }
    ensures erased { IsTrue result ↔ IsErasedSlot map.now (F.chip flash.old) image side }
{
    match is_erased(flash, map.slot_start(image, side), map.slot_length(image)) {
        Ok(erased) => erased,
        Err(_) => unreachable!(),
    }
}

/// The kind of the pending request for an image, if there is one.
fn request_on<F: Flash>(flash: &mut F, map: &SectorMap, image: u8) -> Option<Kind>
    requires { CanLook map.now image (F.chip flash.old) }
    ensures same { F.chip flash.new ≡ F.chip flash.old }
    ensures request { result ≡ standing_of map.now (F.chip flash.old) image }
{
    match standing(flash, map, image) {
        Ok(request) => request,
        Err(_) => unreachable!(),
    }
}

/// The progress of an image's swap, if the log says that one is under way.
fn moved_on<F: Flash>(flash: &mut F, map: &SectorMap, state: &State, image: u8) -> Option<Progress>
    requires { CanLook map.now image (F.chip flash.old) }
    ensures same { F.chip flash.new ≡ F.chip flash.old }
    ensures moved { result ≡ moved_in map.now (F.chip flash.old) state.now image }
{
    if !is_member(state.mask, image) {
        return None;
    }
    match counting_side(state.kind) {
        None => None,
        Some(side) => Some(progress_on(flash, map, image, side)),
    }
}

/// The side whose trailers count the swap during a record of this kind, if it has a swap.
fn counting_side(kind: RecordKind) -> Option<Side>
    ensures { result ≡ counting_side kind }
{
    match kind {
        RecordKind::Swap => Some(Side::Primary),
        RecordKind::Back => Some(Side::Secondary),
        RecordKind::Steady | RecordKind::Settle | RecordKind::Trial | RecordKind::BackSettle =>
            None,
    }
}

/// The progress of an image's swap, as the trailer of this side counts it.
fn progress_on<F: Flash>(flash: &mut F, map: &SectorMap, image: u8, side: Side) -> Progress
    requires { CanLook map.now image (F.chip flash.old) }
    ensures same { F.chip flash.new ≡ F.chip flash.old }
    ensures progress { result ≡ progress_of map.now (F.chip flash.old) side image }
{
    match swap_progress(flash, map, image, side) {
        Ok(progress) => progress,
        Err(_) => unreachable!(),
    }
}

/// The decision of the next boot, if the log says that the device is at rest.
fn next_decision<F: Flash>(
    alloc: Global,
    flash: &mut F,
    map: &SectorMap,
    state: &State,
) -> Result<Option<NextDecision>, AllocError>
    requires laid_out { IsLaidOut map.now (F.chip flash.old) }
    requires on { (F.chip flash.old).is_on ≡ true }
    ensures same { F.chip flash.new ≡ F.chip flash.old }
    ensures decision { IfOk result (IsDecisionOf map.now (F.chip flash.old) state.now) }
{
    if state.kind != RecordKind::Steady {
        return Ok(None);
    }
    match find(flash, map, 0, &state.floors) {
        Ok(Finding::Decided { table, report }) => Ok(Some(NextDecision::Decided { table, report })),
        Ok(Finding::Damaged(image)) => {
            let slot = read_primary(alloc, flash, map, image)?;
            Ok(Some(NextDecision::Damaged { image, slot }))
        }
        Ok(Finding::Invalid) => {
            let table = resting_table(flash, map, state);
            Ok(Some(NextDecision::Invalid { table }))
        }
        Err(_) => unreachable!(),
    }
}

/// Reads the bytes of the primary slot of an image.
fn read_primary<F: Flash>(
    alloc: Global,
    flash: &mut F,
    map: &SectorMap,
    image: u8,
) -> Result<Vec<u8>, AllocError>
    requires { CanLook map.now image (F.chip flash.old) }
    ensures same { F.chip flash.new ≡ F.chip flash.old }
    ensures bytes { IfOk result (λ slot.
        slot.items ≡ slot_bytes map.now (F.chip flash.old) image Side.Primary) }
{
    let mut slot = vec![in alloc; 0; map.slot_length(image) as usize]?;
    match flash.read(map.slot_start(image, Side::Primary), slot.as_mut_slice()) {
        Ok(()) => Ok(slot),
        Err(_) => unreachable!(),
    }
}

/// Reads the table of a device at rest, whose running images are intact.
fn resting_table<F: Flash>(flash: &mut F, map: &SectorMap, state: &State) -> Table
    requires laid_out { IsLaidOut map.now (F.chip flash.old) }
    requires on { (F.chip flash.old).is_on ≡ true }
    requires readable { AreReadable (view map.now (F.chip flash.old)) 0 map.now.images }
    ensures same { F.chip flash.new ≡ F.chip flash.old }
    ensures table { IsRestingTable map.now (F.chip flash.old) state.now.floors result }
{
    match read_table(flash, map, 0, &state.floors) {
        Ok(Reading::Read(table)) => table,
        Ok(Reading::DamagedAt(_)) | Err(_) => unreachable!(),
    }
}
