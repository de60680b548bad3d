//! Calls of uploads: the device's own checks before each, and its state after the flash stopped
//! one.

ghost use Rattle.std.specs.Prelude.{◌≡◌, ◌≢◌, ◌↔◌, All, AllPairs, IfErr, IfOk, IsTrue};
ghost use Rattle.machine.specs.declared.event.Event.TheVariants as event;
ghost use Rattle.manifest.specs.Fault.{IsManifest};
ghost use Rattle.manifest.specs.Manifest.{NamesEachOnce, NamesImages};
ghost use Rattle.sector_map.specs.Map.{IsLaidOut};
ghost use Rattle.sector_map.specs.Part.{incoming_of};
ghost use Rattle.upload.specs.Sessions.{AllOpenAt};
ghost use Rattle.upload.specs.View.{view};
ghost use Rattle.boot_core.specs.Answers.{is_stop};
ghost use Rattle.boot_core.specs.Device.{seen};
ghost use Rattle.boot_core.specs.Ready.{HasNoComponent, RefusesText, text_fault};
ghost use Rattle.boot_core.specs.Taking.{AcceptsHere, AsksReady, CanOpen, ChecksReady, FinishesHere};
ghost use Rattle.boot_core.specs.Taking.{OpensUploads, PassesOn, Stops, TakesHere, TakesManifestHere, TakesPieceHere};

use flash_model::Flash;
use machine::{Fault, UploadError};
use manifest::{Component, Identity, Manifest, ManifestError};
use sector_map::SectorMap;
use set_log::{LogError, RecordKind, read_state};
use std::alloc::Global;
use upload::Uploads;

/// Checks that the device takes uploads: it is booted, and the log has a state at rest. A log that
/// says that a boot was interrupted is one of a device that isn't booted, whatever `is_booted` is.
fn check_ready<F: Flash>(flash: &mut F, map: &SectorMap, is_booted: bool) -> Result<(), Fault>
    requires laid_out { IsLaidOut map.now (F.chip flash.old) }
    ensures { ChecksReady map.now is_booted (F.chip flash.old) (F.chip flash.new) result }
{
    if !is_booted {
        return Err(Fault::NotBooted);
    }
    match read_state(flash, map) {
        Ok(state) => match state.kind {
            RecordKind::Steady => Ok(()),
            RecordKind::Trial => Err(Fault::OnTrial),
            RecordKind::Swap | RecordKind::Settle | RecordKind::Back | RecordKind::BackSettle => {
                Err(Fault::NotBooted)
            }
        },
        Err(LogError::NoLog) => Err(Fault::NotProvisioned),
        Err(LogError::Flash(error)) => Err(Fault::Flash(error)),
    }
}

/// Whether a fault says that the flash stopped the call.
fn is_stop(fault: Fault) -> bool
    ensures { result ≡ is_stop fault }
{
    matches!(
        fault,
        Fault::Flash(_) | Fault::Upload(UploadError::Flash(_))
    )
}

/// Returns a fault unchanged. If the flash stopped the call, closes all uploads and marks the
/// device as not booted.
pub(crate) fn stop(uploads: &mut Uploads, is_booted: &mut bool, fault: Fault) -> Fault
    ensures { Stops fault uploads.old.sessions is_booted.old uploads.new.sessions is_booted.new result }
{
    let stopped = is_stop(fault);
    if stopped {
        *uploads = Uploads::new();
        *is_booted = false;
    }
    fault
}

/// Checks that the device takes uploads. If the flash stopped the check, closes all uploads and
/// marks the device as not booted.
fn ready<F: Flash>(
    flash: &mut F,
    map: &SectorMap,
    uploads: &mut Uploads,
    is_booted: &mut bool,
) -> Result<(), Fault>
    requires laid_out { IsLaidOut map.now (F.chip flash.old) }
    ensures { AsksReady map.now (seen (F.chip flash.old) uploads.old.sessions is_booted.old)
        (seen (F.chip flash.new) uploads.new.sessions is_booted.new) result }
{
    match check_ready(flash, map, *is_booted) {
        Ok(()) => Ok(()),
        Err(fault) => Err(stop(uploads, is_booted, fault)),
    }
}

/// Turns the result of a call of `Uploads` into that of the device. If the flash stopped the call,
/// closes all uploads and marks the device as not booted.
fn pass_on(
    taken: Result<(), UploadError>,
    uploads: &mut Uploads,
    is_booted: &mut bool,
) -> Result<(), Fault>
    ensures { PassesOn taken uploads.old.sessions is_booted.old uploads.new.sessions is_booted.new
        result }
{
    match taken {
        Ok(()) => Ok(()),
        Err(error) => Err(stop(uploads, is_booted, Fault::Upload(error))),
    }
}

/// The device's fault for a text that was refused as a manifest. `NoMemory` is a fault of its own.
fn refused_text(error: ManifestError) -> Fault
    ensures { result ≡ text_fault error }
{
    match error {
        ManifestError::NoMemory => Fault::NoMemory,
        ManifestError::NotJson => Fault::Manifest(ManifestError::NotJson),
        ManifestError::BadKey => Fault::Manifest(ManifestError::BadKey),
        ManifestError::BadValue => Fault::Manifest(ManifestError::BadValue),
        ManifestError::WrongVendor => Fault::Manifest(ManifestError::WrongVendor),
        ManifestError::WrongClass => Fault::Manifest(ManifestError::WrongClass),
        ManifestError::NoComponent => Fault::Manifest(ManifestError::NoComponent),
        ManifestError::RepeatedComponent => Fault::Manifest(ManifestError::RepeatedComponent),
    }
}

/// Reads the manifest that bytes are for this device.
fn read_manifest(alloc: Global, bytes: &[u8], identity: &Identity) -> Result<Manifest, Fault>
    ensures means { IfOk result (IsManifest identity.now bytes.now) }
    ensures refused { IfErr result (RefusesText identity.now bytes.now) }
{
    match Manifest::read(alloc, bytes, identity) {
        Ok(manifest) => Ok(manifest),
        Err(error) => Err(refused_text(error)),
    }
}

/// Whether a manifest names no image that the device lacks.
fn names_images(manifest: &Manifest, identity: &Identity) -> bool
    ensures { IsTrue result ↔ NamesImages identity.now manifest.now }
{
    let images = identity.images;
    let components = manifest.components.as_slice();
    components.iter().all(|component| component.image < images)
}

/// Whether no component is for this image.
fn name_others(components: &[Component], image: u8) -> bool
    ensures { IsTrue result ↔ All (λ component. image ≢ component.image) components.now }
{
    components.iter().all(|component| image != component.image)
}

/// Whether no two components are for the same image.
fn name_each_once(components: &[Component]) -> bool
    ensures { IsTrue result ↔ AllPairs (λ one other. one.image ≢ other.image) components.now }
{
    match components {
        [] => true,
        [first, others @ ..] => name_others(others, first.image) && name_each_once(others),
    }
}

/// Whether a manifest names no image twice.
fn names_each_once(manifest: &Manifest) -> bool
    ensures { IsTrue result ↔ NamesEachOnce manifest.now }
{
    name_each_once(manifest.components.as_slice())
}

/// Whether a manifest has no component.
fn has_no_component(manifest: &Manifest) -> bool
    ensures { IsTrue result ↔ HasNoComponent manifest.now }
{
    manifest.components.as_slice().is_empty()
}

/// Opens the uploads of a manifest on a device that takes uploads.
fn open_uploads<F: Flash>(
    flash: &mut F,
    map: &SectorMap,
    identity: &Identity,
    uploads: &mut Uploads,
    is_booted: &mut bool,
    manifest: &Manifest,
) -> Result<(), Fault>
    requires { CanOpen map.now identity.now manifest.now
        (seen (F.chip flash.old) uploads.old.sessions is_booted.old) }
    ensures { OpensUploads map.now identity.now manifest.now
        (seen (F.chip flash.old) uploads.old.sessions is_booted.old)
        (seen (F.chip flash.new) uploads.new.sessions is_booted.new) result }
{
    pass_on(uploads.accept(flash, map, manifest), uploads, is_booted)
}

/// Accepts a manifest on a device that is held in parts, as `Device::accept`.
pub(crate) fn accept<F: Flash>(
    flash: &mut F,
    map: &SectorMap,
    identity: &Identity,
    uploads: &mut Uploads,
    is_booted: &mut bool,
    alloc: Global,
    text: &[u8],
) -> Result<(), Fault>
    requires laid_out { IsLaidOut map.now (F.chip flash.old) }
    requires images { identity.now.images ≡ map.now.images }
    requires opens { AllOpenAt (view map.now (F.chip flash.old)) uploads.old.sessions }
    ensures { AcceptsHere map.now identity.now text.entry
        (seen (F.chip flash.old) uploads.old.sessions is_booted.old)
        (seen (F.chip flash.new) uploads.new.sessions is_booted.new) result }
{
    ready(flash, map, uploads, is_booted)?;
    let manifest = read_manifest(alloc, text, identity)?;
    open_uploads(flash, map, identity, uploads, is_booted, &manifest)
}

/// Accepts a manifest that was parsed before, on a device that is held in parts, as
/// `Device::accept_manifest`, with its errors.
///
/// - `flash`, `map`: the map is laid out on the flash.
/// - `identity`: has as many images as the map.
/// - `uploads`: the open uploads, which match the flash.
/// - `is_booted`: whether the device is booted.
///
/// If the flash stopped the call, the device isn't booted afterwards, and no upload is open. Does
/// not allocate.
pub fn accept_manifest<F: Flash>(
    flash: &mut F,
    map: &SectorMap,
    identity: &Identity,
    uploads: &mut Uploads,
    is_booted: &mut bool,
    manifest: &Manifest,
) -> Result<(), Fault>
    requires laid_out { IsLaidOut map.now (F.chip flash.old) }
    requires images { identity.now.images ≡ map.now.images }
    requires opens { AllOpenAt (view map.now (F.chip flash.old)) uploads.old.sessions }
    ensures { TakesManifestHere map.now identity.now manifest.now
        (seen (F.chip flash.old) uploads.old.sessions is_booted.old)
        (seen (F.chip flash.new) uploads.new.sessions is_booted.new) result }
{
    ready(flash, map, uploads, is_booted)?;
    if !names_images(manifest, identity) {
        return Err(Fault::Manifest(ManifestError::NoComponent));
    }
    if !names_each_once(manifest) {
        return Err(Fault::Manifest(ManifestError::RepeatedComponent));
    }
    if has_no_component(manifest) {
        return Err(Fault::Manifest(ManifestError::BadValue));
    }
    open_uploads(flash, map, identity, uploads, is_booted, manifest)
}

/// Takes the next bytes of an image's upload on a device that is held in parts, as `Device::piece`,
/// with its arguments and errors. The other arguments are those of `accept_manifest`, but the open
/// uploads needn't match the flash: a caller that saved them doesn't have to read their slots
/// first. Does not allocate.
///
/// Before it programs units, the call checks that the counts of the upload fit each other and the
/// slot, that the trailer of the slot reads as erased, and that these units are erased. If one of
/// these checks fails, it returns `Upload` with `NoSession`, and changes nothing.
pub fn piece<F: Flash>(
    flash: &mut F,
    map: &SectorMap,
    uploads: &mut Uploads,
    is_booted: &mut bool,
    image: u8,
    more: &[u8],
) -> Result<(), Fault>
    requires laid_out { IsLaidOut map.now (F.chip flash.old) }
    ensures { TakesPieceHere map.now image more.entry
        (seen (F.chip flash.old) uploads.old.sessions is_booted.old)
        (seen (F.chip flash.new) uploads.new.sessions is_booted.new) result }
{
    ready(flash, map, uploads, is_booted)?;
    pass_on(uploads.piece(flash, map, image, more), uploads, is_booted)
}

/// Finishes an image's upload on a device that is held in parts, as `Device::finish`, with its
/// arguments and errors. The other arguments are those of `accept_manifest`. Does not allocate.
pub fn finish<F: Flash>(
    flash: &mut F,
    map: &SectorMap,
    uploads: &mut Uploads,
    is_booted: &mut bool,
    image: u8,
) -> Result<(), Fault>
    requires laid_out { IsLaidOut map.now (F.chip flash.old) }
    requires opens { AllOpenAt (view map.now (F.chip flash.old)) uploads.old.sessions }
    ensures { FinishesHere map.now image
        (seen (F.chip flash.old) uploads.old.sessions is_booted.old)
        (seen (F.chip flash.new) uploads.new.sessions is_booted.new) result }
{
    ready(flash, map, uploads, is_booted)?;
    pass_on(uploads.finish(flash, map, image), uploads, is_booted)
}

/// Cancels the request of an image on a device that is held in parts, as `Device::withdraw`, with
/// its arguments and errors. The other arguments are those of `accept_manifest`. Does not allocate.
pub fn withdraw<F: Flash>(
    flash: &mut F,
    map: &SectorMap,
    uploads: &mut Uploads,
    is_booted: &mut bool,
    image: u8,
) -> Result<(), Fault>
    requires laid_out { IsLaidOut map.now (F.chip flash.old) }
    requires opens { AllOpenAt (view map.now (F.chip flash.old)) uploads.old.sessions }
    ensures { TakesHere map.now (event.Withdraw image) (incoming_of image)
        (seen (F.chip flash.old) uploads.old.sessions is_booted.old)
        (seen (F.chip flash.new) uploads.new.sessions is_booted.new) result }
{
    ready(flash, map, uploads, is_booted)?;
    pass_on(uploads.withdraw(flash, map, image), uploads, is_booted)
}
