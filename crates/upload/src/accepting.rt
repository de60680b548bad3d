//! Accepting a manifest.

ghost use Rattle.std.specs.Prelude.{◌≢◌, None};
ghost use Rattle.sector_map.specs.Map.{IsLaidOut};
ghost use Rattle.set_log.specs.Log.{state_of};
ghost use Rattle.machine.specs.Accepted.{AllFit};
ghost use Rattle.upload.specs.Accepted.{AreThere};
ghost use Rattle.upload.specs.Judging.{CanJudge};
ghost use Rattle.upload.specs.Accepting.{AcceptsManifest, CanRecord, RecordsSequence, TakesManifest, WritesManifest};

use crate::judging::judge_manifest;
use crate::opening::open_all;
use crate::sessions::Uploads;
use flash_model::{Flash, Result};
use machine::UploadError;
use manifest::{Component, Manifest};
use sector_map::SectorMap;
use set_log::{State, append};

/// Appends the log's state with a new sequence number. If the number is the same, nothing is
/// written.
fn record_sequence<F: Flash>(
    flash: &mut F,
    map: &SectorMap,
    state: &State,
    sequence: u32,
) -> Result<()>
    requires { CanRecord map.now state.now sequence (F.chip flash.old) }
    ensures { RecordsSequence map.now state.now sequence
        (F.chip flash.old) (F.chip flash.new) result }
{
    if state.sequence == sequence {
        return Ok(());
    }
    append(flash, map, &State { sequence, ..*state })
}

/// Applies an accepted manifest: records its sequence number, then erases the slot of each component
/// and opens its upload.
fn write_manifest<F: Flash>(
    flash: &mut F,
    map: &SectorMap,
    uploads: &mut Uploads,
    state: &State,
    sequence: u32,
    components: &[Component],
) -> Result<()>
    requires state { CanRecord map.now state.now sequence (F.chip flash.old) }
    requires there { AreThere map.now components.now }
    requires fit { AllFit map.now components.now }
    ensures { WritesManifest map.now state.now sequence components.now
        uploads.old.sessions uploads.new.sessions (F.chip flash.old) (F.chip flash.new) result }
{
    record_sequence(flash, map, state, sequence)?;
    open_all(flash, map, uploads, components)
}

/// Checks a manifest, and applies it if no check fails.
fn take_manifest<F: Flash>(
    flash: &mut F,
    map: &SectorMap,
    uploads: &mut Uploads,
    manifest: &Manifest,
) -> Result<(), UploadError>
    requires { CanJudge map.now manifest.now.components.items (F.chip flash.old) }
    ensures { TakesManifest map.now manifest.now uploads.old.sessions uploads.new.sessions
        (F.chip flash.old) (F.chip flash.new) result }
{
    let state = judge_manifest(flash, map, manifest)?;
    let components = manifest.components.as_slice();
    write_manifest(flash, map, uploads, &state, manifest.sequence, components)?;
    Ok(())
}

impl Uploads {
    /// Accepts a manifest: opens an upload for each image it lists, and withdraws their pending
    /// requests.
    ///
    /// It first stores the manifest's sequence number in the log, if that is a new number. Then it
    /// withdraws the request of each listed image, and erases the sectors of the image's secondary
    /// slot. A sector that is erased isn't erased again. If two components name the same image, the
    /// last one counts. Open uploads of other images go on.
    ///
    /// The map has to be laid out on the flash, and the log needs a state (`read_state` tests
    /// this). Each component has to name an image of the map.
    ///
    /// # Errors
    /// If several checks fail, the first in this order is returned. Each check covers all
    /// components, and a failed check changes nothing.
    ///
    /// - `OldSequence`: the sequence number is below the one in the log.
    /// - `TooBig`: an image is longer than its slot.
    /// - `WrongPrecursor`: a component requires another running image (RFC 9124, "Precursor Image
    ///   Digest Condition").
    /// - `Flash` with `Cut`: power failed after all checks had passed. All uploads are closed.
    ///   Either the log has the old sequence number, and no request changed. Or it has the new one,
    ///   and each request of a listed image is unchanged or withdrawn.
    /// - `Flash` with `Off`: the flash was off. All uploads are closed, and nothing else changed.
    ///
    /// # Examples
    ///
    /// ```text
    /// // `flash` has a log whose sequence number is below 3. `FIRST` is an image of 96 bytes.
    /// let map = SectorMap::new(512, &[2, 2])?;
    /// assert!(rt; map.images == 2 && map.fits(flash));
    /// read_state(flash, &map)?;
    /// let mut manifest = Manifest::default();
    /// manifest.sequence = 3;
    /// manifest.components.try_push(Component {
    ///     size: 96,
    ///     digest: FIRST_DIGEST,
    ///     ..Component::default()
    /// })?;
    /// let mut uploads = Uploads::new();
    /// uploads.accept(flash, &map, &manifest)?;
    /// uploads.piece(flash, &map, 0, &FIRST)?;
    /// uploads.finish(flash, &map, 0)?;
    /// assert!(rt; standing(flash, &map, 0)? == Some(Kind::Test));
    /// ```
    pub fn accept<F: Flash>(
        &mut self,
        flash: &mut F,
        map: &SectorMap,
        manifest: &Manifest,
    ) -> Result<(), UploadError>
        requires laid_out { IsLaidOut map.now (F.chip flash.old) }
        requires has_state { state_of map.now (F.chip flash.old) ≢ None }
        requires there { AreThere map.now manifest.now.components.items }
        ensures { AcceptsManifest map.now manifest.now self.old.sessions self.new.sessions
            (F.chip flash.old) (F.chip flash.new) result }
    {
        let answer = take_manifest(flash, map, self, manifest);
        self.close_after(&answer);
        answer
    }
}
