//! Checking a manifest before anything is written.

ghost use Rattle.std.specs.Prelude.{◌≡◌, ◌≢◌, ◌↔◌, IsTrue, None};
ghost use Rattle.sector_map.specs.Map.{HasImage, IsLaidOut};
ghost use Rattle.set_log.specs.Log.{state_of};
ghost use Rattle.machine.specs.Accepted.{AllFit};
ghost use Rattle.upload.specs.Accepted.{AreThere};
ghost use Rattle.upload.specs.Judging.{CanJudge, JudgesManifest, ReadsPrecursor, ReadsPrecursors, ReadsState};

use flash_model::{Flash, Result};
use image_reading::{Desc, intact_image_into};
use machine::UploadError;
use manifest::{Component, Manifest};
use sector_map::{SectorMap, Side};
use set_log::{LogError, State, read_state};

/// Returns whether each component fits the slot of its image.
fn all_fit(map: &SectorMap, components: &[Component]) -> bool
    requires { AreThere map.now components.now }
    ensures { IsTrue result ↔ AllFit map.now components.now }
{
    for component in components {
        if map.slot_length(component.image) < component.size {
            return false;
        }
    }
    true
}

/// Returns whether two digests are the same.
pub(crate) fn is_same_digest(one: &[u8; 32], other: &[u8; 32]) -> bool
    ensures { IsTrue result ↔ (one.now ≡ other.now) }
{
    one == other
}

/// Returns whether the running image is the one that a component requires, if it requires one.
///
/// It isn't inlined: its description takes stack only during this call.
#[inline(never)]
fn follows<F: Flash>(flash: &mut F, map: &SectorMap, component: &Component) -> Result<bool>
    requires { HasImage map.now component.now.image (F.chip flash.old) }
    ensures { ReadsPrecursor map.now component.now (F.chip flash.old) (F.chip flash.new) result }
{
    let Some(digest) = component.precursor else {
        return Ok(true);
    };
    let mut description = Desc::default();
    let image = component.image;
    let is_intact = intact_image_into(flash, map, image, Side::Primary, &mut description)?;
    if !is_intact {
        return Ok(false);
    }
    Ok(is_same_digest(&description.digest, &digest))
}

/// Returns whether each component follows the running image.
fn all_follow<F: Flash>(flash: &mut F, map: &SectorMap, components: &[Component]) -> Result<bool>
    requires laid_out { IsLaidOut map.now (F.chip flash.old) }
    requires there { AreThere map.now components.now }
    ensures { ReadsPrecursors map.now components.now (F.chip flash.old) (F.chip flash.new) result }
{
    for component in components {
        if !follows(flash, map, component)? {
            return Ok(false);
        }
    }
    Ok(true)
}

/// Returns the state of the log.
fn last_state<F: Flash>(flash: &mut F, map: &SectorMap) -> Result<State>
    requires laid_out { IsLaidOut map.now (F.chip flash.old) }
    requires has_state { state_of map.now (F.chip flash.old) ≢ None }
    ensures { ReadsState map.now (F.chip flash.old) (F.chip flash.new) result }
{
    match read_state(flash, map) {
        Ok(state) => Ok(state),
        Err(LogError::Flash(error)) => Err(error),
        Err(LogError::NoLog) => unreachable!(),
    }
}

/// Returns the log's state if a manifest may be accepted, else the first check that fails.
pub(crate) fn judge_manifest<F: Flash>(
    flash: &mut F,
    map: &SectorMap,
    manifest: &Manifest,
) -> Result<State, UploadError>
    requires { CanJudge map.now manifest.now.components.items (F.chip flash.old) }
    ensures { JudgesManifest map.now manifest.now (F.chip flash.old) (F.chip flash.new) result }
{
    let state = last_state(flash, map)?;
    if manifest.sequence < state.sequence {
        return Err(UploadError::OldSequence);
    }
    if !all_fit(map, manifest.components.as_slice()) {
        return Err(UploadError::TooBig);
    }
    if !all_follow(flash, map, manifest.components.as_slice())? {
        return Err(UploadError::WrongPrecursor);
    }
    Ok(state)
}
