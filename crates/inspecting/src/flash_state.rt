//! Finds the state of a device: what its log and its trailers hold.
ghost use Rattle.std.specs.Prelude.{◌≡◌, ◌<◌, IfOk, true};
ghost use Rattle.flash_model.specs.Chip.{Chip};
ghost use Rattle.sector_map.specs.Map.{IsLaidOut};
ghost use Rattle.set_log.specs.Log.{state_of};
ghost use Rattle.trailer.specs.Fields.{fields_at, trailer_of};
ghost use Rattle.inspecting.specs.FlashState.{IsFlashState, floors_in, swap_type_in, swaps_in};

use flash_model::Flash;
use sector_map::{SectorMap, Side};
use set_log::{LogError, State, read_state};
use std::alloc::{AllocError, Global};
use trailer::{SwapType, Trailer, read_trailer, swap_type};

/// The state of a device, as its log and its trailers hold it.
#[derive(Drop)]
pub struct FlashState {
    /// The state of the log.
    pub state: State,
    /// The least security counters that the images may have, in the order of the images.
    pub floors: Vec<ImageFloor>,
    /// What the trailers of each image ask of the next boot, in the order of the images.
    pub swaps: Vec<ImageSwap>,
}

/// The least security counter that an image may have.
#[derive(Clone, Copy)]
pub struct ImageFloor {
    /// The number of the image.
    pub image: u8,
    /// The least counter.
    pub floor: u32,
}

/// What the trailers of an image ask of the next boot.
#[derive(Clone, Copy)]
pub struct ImageSwap {
    /// The number of the image.
    pub image: u8,
    /// What its trailers ask.
    pub swap_type: SwapType,
}

/// The state of the log of a flash that has power.
pub(crate) fn state_on<F: Flash>(flash: &mut F, map: &SectorMap) -> Option<State>
    requires laid_out { IsLaidOut map.now (F.chip flash.old) }
    requires on { (F.chip flash.old).is_on ≡ true }
    ensures same { F.chip flash.new ≡ F.chip flash.old }
    ensures state { result ≡ state_of map.now (F.chip flash.old) }
{
    match read_state(flash, map) {
        Ok(state) => Some(state),
        Err(LogError::NoLog) => None,
        Err(LogError::Flash(_)) => unreachable!(),
    }
}

/// Finds the state of a device whose log has this state. The flash has power.
///
/// # Errors
/// `AllocError` if memory of `alloc` runs out.
pub(crate) fn find_state<F: Flash>(
    alloc: Global,
    flash: &mut F,
    map: &SectorMap,
    state: State,
) -> Result<FlashState, AllocError>
    requires laid_out { IsLaidOut map.now (F.chip flash.old) }
    requires on { (F.chip flash.old).is_on ≡ true }
    ensures same { F.chip flash.new ≡ F.chip flash.old }
    ensures found { IfOk result (λ found.
        IsFlashState map.now (F.chip flash.old) state found) }
{
    let floors = find_floors(alloc, map, &state)?;
    let swaps = find_swaps(alloc, flash, map)?;
    Ok(FlashState {
        state,
        floors,
        swaps,
    })
}

/// Finds the least security counters that the images of a device may have.
fn find_floors(alloc: Global, map: &SectorMap, state: &State) -> Result<Vec<ImageFloor>, AllocError>
    ensures { IfOk result (λ floors. floors.items ≡ floors_in state.now map.now.images) }
{
    let mut floors = Vec::new(alloc);
    for image in 0..map.images {
        let floor = state.floors[usize::from(image)];
        floors.push(ImageFloor { image, floor })?;
    }
    Ok(floors)
}

/// Finds what the trailers of each image ask of the next boot.
fn find_swaps<F: Flash>(
    alloc: Global,
    flash: &mut F,
    map: &SectorMap,
) -> Result<Vec<ImageSwap>, AllocError>
    requires laid_out { IsLaidOut map.now (F.chip flash.old) }
    requires on { (F.chip flash.old).is_on ≡ true }
    ensures same { F.chip flash.new ≡ F.chip flash.old }
    ensures swaps { IfOk result (λ swaps.
        swaps.items ≡ swaps_in map.now (F.chip flash.old) map.now.images) }
{
    let mut swaps = Vec::new(alloc);
    for image in 0..map.images {
        let swap_type = swap_type_on(flash, map, image);
        swaps.push(ImageSwap { image, swap_type })?;
    }
    Ok(swaps)
}

/// What the trailers of an image ask of the next boot, on a flash that has power.
fn swap_type_on<F: Flash>(flash: &mut F, map: &SectorMap, image: u8) -> SwapType
    requires laid_out { IsLaidOut map.now (F.chip flash.old) }
    requires there { image < map.now.images }
    requires on { (F.chip flash.old).is_on ≡ true }
    ensures same { F.chip flash.new ≡ F.chip flash.old }
    ensures swap_type { result ≡ swap_type_in map.now (F.chip flash.old) image }
{
    let primary = trailer_on(flash, map, image, Side::Primary);
    let secondary = trailer_on(flash, map, image, Side::Secondary);
    swap_type(&primary, &secondary)
}

/// The fields of a trailer, on a flash that has power.
fn trailer_on<F: Flash>(flash: &mut F, map: &SectorMap, image: u8, side: Side) -> Trailer
    requires laid_out { IsLaidOut map.now (F.chip flash.old) }
    requires there { image < map.now.images }
    requires on { (F.chip flash.old).is_on ≡ true }
    ensures same { F.chip flash.new ≡ F.chip flash.old }
    ensures fields { result ≡ trailer_of (fields_at map.now (F.chip flash.old) image side) }
{
    match read_trailer(flash, map, image, side) {
        Ok(trailer) => trailer,
        Err(_) => unreachable!(),
    }
}
