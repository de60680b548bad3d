//! The device that programs and bootloaders hold.

ghost use Rattle.std.specs.Prelude.{◌≡◌, ◌≤◌};
ghost use Rattle.common.specs.Limits.{MOST_TRIAL_BOOTS};
ghost use Rattle.machine.specs.declared.event.Event.TheVariants as event;
ghost use Rattle.sector_map.specs.Map.{IsLaidOut};
ghost use Rattle.sector_map.specs.Part.{Slot, any_part, incoming_of, only};
ghost use Rattle.sector_map.specs.declared.layout.Side.TheVariants.{Secondary};
ghost use Rattle.boot_core.specs.Calls.{BootsDevice, ConfirmsTried, FinishesUpload, IsNew, Resets, Takes};
ghost use Rattle.boot_core.specs.Calls.{TakesManifest};
ghost use Rattle.boot_core.specs.Taking.{TouchesNamed};

use crate::boots::boot_device;
use crate::confirming::confirm_on;
use crate::intake::{accept, accept_manifest, finish, piece, withdraw};
use flash_model::Flash;
use machine::{Fault, Reply};
use manifest::{Identity, Manifest};
use sector_map::SectorMap;
use std::alloc::Global;
use std::marker::Model;
use upload::Uploads;

/// A device: its flash, its open uploads, and whether it is booted.
///
/// Contracts see what it was made with (`setup`) and its state (`here`). A device is booted after a
/// boot that succeeds. It stays booted until a later boot is refused, the flash stops a call, or
/// the device is reset.
///
/// No call of a device has a precondition, except those that make one. On a flash that holds a
/// state, each call is a step of the machine of whole images (`machine`). On any other flash it
/// returns too.
#[derive(Drop)]
pub struct Device<F: Flash> {
    flash: F,
    map: SectorMap,
    identity: Identity,
    uploads: Uploads,
    left: u8,
    is_booted: bool,
}

impl<F: Flash> Model for Device<F> {
    ghost use Rattle.std.specs.Prelude.{◌+◌};
    ghost use Rattle.boot_core.specs.Device.{IsDevice, Whole, made, seen};

    ghost Value = { Whole };

    ghost view = { λ d. record {
      setup = made d.map d.identity (d.left + 1);
      here = seen (F.chip d.flash) d.uploads.sessions d.is_booted;
    } };

    ghost invariant = { λ d. IsDevice d.map d.identity (F.chip d.flash) d.uploads.sessions d.left };
}

impl<F: Flash> Device<F> {
    /// Makes a device whose trials last one boot: a set on trial that isn't confirmed by the next
    /// boot reverts then.
    ///
    /// - `flash`, `map`: the map is laid out on the flash, which `SectorMap::fits` checks.
    /// - `identity`: has as many images as the map.
    ///
    /// The device isn't booted, and no upload is open. The flash doesn't change. Does not allocate.
    pub fn new(flash: F, map: SectorMap, identity: Identity) -> Self
        requires laid_out { IsLaidOut map (F.chip flash) }
        requires images { identity.images ≡ map.images }
        ensures { IsNew map identity 1 (F.chip flash) result }
    {
        Device::with_trial(flash, map, identity, 1)
    }

    /// Makes a device whose trials last `boots` boots: a set on trial that isn't confirmed reverts
    /// at the boot after the last of them.
    ///
    /// - `flash`, `map`: the map is laid out on the flash, which `SectorMap::fits` checks.
    /// - `identity`: has as many images as the map.
    /// - `boots`: 1 to 7. The boot that begins a trial is the first of them.
    ///
    /// The device isn't booted, and no upload is open. The flash doesn't change. Does not allocate.
    pub fn with_trial(flash: F, map: SectorMap, identity: Identity, boots: u8) -> Self
        requires laid_out { IsLaidOut map (F.chip flash) }
        requires images { identity.images ≡ map.images }
        requires some { 1 ≤ boots }
        requires few { boots ≤ MOST_TRIAL_BOOTS }
        ensures { IsNew map identity boots (F.chip flash) result }
    {
        Device {
            flash,
            map,
            identity,
            uploads: Uploads::new(),
            left: boots - 1,
            is_booted: false,
        }
    }

    /// Boots the device: finishes what was interrupted, or decides which images run next.
    ///
    /// Returns what the boot did: `Booted` with the table and the report of its decision,
    /// `Reverted`, or `TrialAgain`. The device is booted then. All uploads end. Does not allocate.
    ///
    /// # Errors
    /// After each of these the device isn't booted.
    ///
    /// - `NotProvisioned`: the log has no state. Nothing is written.
    /// - `RunningDamaged`: a running image isn't intact. During an upgrade this includes the old
    ///   and the new image of each member of the set. It names the lowest such image.
    /// - `InvalidSet`: the running images don't meet their dependencies. During an upgrade: the old
    ///   images don't, or another set would be chosen.
    /// - `Flash(Cut)`: power failed. The state of the device is the one before the boot, that state
    ///   as the boot reads it, or the one after the boot.
    /// - `Flash(Off)`: the flash was off. It is returned in no other case, and nothing is written.
    ///
    /// `RunningDamaged` and `InvalidSet` write nothing, with two exceptions. If each image of a set
    /// on trial is confirmed, the boot has recorded that the trial is over. If the boot found an
    /// interrupted swap of an upgrade, it has written no more than that swap. A device on which
    /// `provision` succeeded, and whose flash only these calls changed, returns neither error.
    pub fn boot(&mut self) -> Result<Reply, Fault>
        ensures { BootsDevice self.old self.new result }
    {
        boot_device(
            &mut self.flash,
            &self.map,
            &mut self.uploads,
            &mut self.is_booted,
            self.left,
        )
    }

    /// Accepts a manifest, given by the bytes of its JSON text. It opens an upload for each image
    /// that the manifest names, and cancels pending requests for these images. Allocates while it
    /// reads the text.
    ///
    /// # Errors
    /// The first that applies:
    ///
    /// - `NotBooted`: the device isn't booted, or the log says that a boot was interrupted.
    /// - `Flash(Off)`: the flash was off.
    /// - `OnTrial`: a set is on trial.
    /// - `NotProvisioned`: the log has no state.
    /// - `Manifest` with the lowest refusal of the text that applies, or `NoMemory` if memory runs
    ///   out while the text is read.
    /// - `Upload` with `OldSequence`, `TooBig` or `WrongPrecursor` (RFC 9124, "Monotonic Sequence
    ///   Number" and "Precursor Image Digest Condition").
    /// - `Upload` with `Flash(Cut)`: power failed. Either the old sequence number is stored and
    ///   each request is as before. Or the new number is stored, and each request of a named image
    ///   is as before or gone.
    ///
    /// After `Flash(Off)` and a power cut the device isn't booted, and no upload is open. After
    /// each other error nothing has changed.
    pub fn accept(&mut self, alloc: Global, text: &[u8]) -> Result<(), Fault>
        ensures taken { Takes (event.Accept text.entry) any_part self.old self.new result }
        ensures named { TouchesNamed self.old.setup.map self.old.setup.identity text.now
            self.old.here.flash self.new.here.flash }
    {
        accept(
            &mut self.flash,
            &self.map,
            &self.identity,
            &mut self.uploads,
            &mut self.is_booted,
            alloc,
            text,
        )
    }

    /// Accepts a manifest that was parsed before, as `accept` does any text that means it. It opens
    /// an upload for each image that the manifest names, and cancels pending requests for these
    /// images. Does not allocate.
    ///
    /// A `Manifest` has neither vendor nor class: its reader compares them with those of the device.
    ///
    /// # Errors
    /// The first that applies:
    ///
    /// - `NotBooted`: the device isn't booted, or the log says that a boot was interrupted.
    /// - `Flash(Off)`: the flash was off.
    /// - `OnTrial`: a set is on trial.
    /// - `NotProvisioned`: the log has no state.
    /// - `Manifest` with `NoComponent`: it names an image that the device lacks.
    /// - `Manifest` with `RepeatedComponent`: two components name the same image.
    /// - `Manifest` with `BadValue`: it has no component.
    /// - `Upload` with `OldSequence`, `TooBig` or `WrongPrecursor`.
    /// - `Upload` with `Flash(Cut)`: power failed, as in `accept`.
    ///
    /// After `Flash(Off)` and a power cut the device isn't booted, and no upload is open. After
    /// each other error nothing has changed.
    pub fn accept_manifest(&mut self, manifest: &Manifest) -> Result<(), Fault>
        ensures { TakesManifest manifest.now self.old self.new result }
    {
        accept_manifest(
            &mut self.flash,
            &self.map,
            &self.identity,
            &mut self.uploads,
            &mut self.is_booted,
            manifest,
        )
    }

    /// Takes the next bytes of an image's upload. Does not allocate.
    ///
    /// - `image`: its number, from 0.
    /// - `more`: the bytes that follow those of earlier pieces.
    ///
    /// # Errors
    /// The first that applies:
    ///
    /// - `NotBooted`: the device isn't booted, or the log says that a boot was interrupted.
    /// - `Flash(Off)`: the flash was off.
    /// - `OnTrial`: a set is on trial.
    /// - `NotProvisioned`: the log has no state.
    /// - `Upload` with `NoSession`: no upload of this image is open.
    /// - `Upload` with `TooMuch`: more bytes than the manifest said. This upload is closed, and
    ///   nothing is written.
    /// - `Upload` with `Flash(Cut)`: power failed.
    ///
    /// After `Flash(Off)` and a power cut the device isn't booted, and no upload is open. After
    /// `NotBooted`, `OnTrial`, `NotProvisioned` and `NoSession` nothing has changed.
    pub fn piece(&mut self, image: u8, more: &[u8]) -> Result<(), Fault>
        ensures { Takes (event.Piece image more.entry) (only (Slot image Secondary))
            self.old self.new result }
    {
        piece(
            &mut self.flash,
            &self.map,
            &mut self.uploads,
            &mut self.is_booted,
            image,
            more,
        )
    }

    /// Finishes an image's upload, and requests the image. The image has to be complete, intact and
    /// of the digest in the manifest. Does not allocate.
    ///
    /// - `image`: its number, from 0.
    ///
    /// # Errors
    /// The first that applies:
    ///
    /// - `NotBooted`: the device isn't booted, or the log says that a boot was interrupted.
    /// - `Flash(Off)`: the flash was off.
    /// - `OnTrial`: a set is on trial.
    /// - `NotProvisioned`: the log has no state.
    /// - `Upload` with `NoSession`: no upload of this image is open.
    /// - `Upload` with `SizeWrong`, `DigestWrong` or `NotAnImage`: this upload is closed, and
    ///   nothing is requested. `SizeWrong` writes nothing. The other two write at most the last
    ///   unit of the upload.
    /// - `Upload` with `Flash(Cut)`: power failed. The image is requested complete, or not at all.
    ///
    /// After `Flash(Off)` and a power cut the device isn't booted, and no upload is open. After
    /// `NotBooted`, `OnTrial`, `NotProvisioned` and `NoSession` nothing has changed.
    pub fn finish(&mut self, image: u8) -> Result<(), Fault>
        ensures { FinishesUpload image self.old self.new result }
    {
        finish(
            &mut self.flash,
            &self.map,
            &mut self.uploads,
            &mut self.is_booted,
            image,
        )
    }

    /// Cancels the request of an image. Does not allocate.
    ///
    /// - `image`: its number, from 0.
    ///
    /// # Errors
    /// The first that applies:
    ///
    /// - `NotBooted`: the device isn't booted, or the log says that a boot was interrupted.
    /// - `Flash(Off)`: the flash was off.
    /// - `OnTrial`: a set is on trial.
    /// - `NotProvisioned`: the log has no state.
    /// - `Upload` with `NothingRequested`: no request of this image is pending.
    /// - `Upload` with `Flash(Cut)`: power failed. The request is pending as before, or gone.
    ///
    /// After `Flash(Off)` and a power cut the device isn't booted, and no upload is open. After
    /// each other error nothing has changed.
    pub fn withdraw(&mut self, image: u8) -> Result<(), Fault>
        ensures { Takes (event.Withdraw image) (incoming_of image) self.old self.new result }
    {
        withdraw(
            &mut self.flash,
            &self.map,
            &mut self.uploads,
            &mut self.is_booted,
            image,
        )
    }

    /// Confirms an image of the set on trial: sets `image_ok` in its primary trailer (MCUboot
    /// design document, "Image Trailer"). A confirmed image can be confirmed again. Does not
    /// allocate.
    ///
    /// - `image`: its number, from 0.
    ///
    /// # Errors
    /// The first that applies:
    ///
    /// - `NotBooted`: the device isn't booted, or the log says that a boot was interrupted.
    /// - `Flash(Off)`: the flash was off.
    /// - `NotOnTrial`: no set is on trial, or the image isn't in it.
    /// - `Flash(Cut)`: power failed. The image is confirmed, or as before.
    ///
    /// After `Flash(Off)` and a power cut the device isn't booted, and no upload is open. After
    /// each other error nothing has changed.
    pub fn confirm(&mut self, image: u8) -> Result<(), Fault>
        ensures { ConfirmsTried image self.old self.new result }
    {
        confirm_on(
            &mut self.flash,
            &self.map,
            &mut self.uploads,
            &mut self.is_booted,
            image,
        )
    }

    /// Resets the device: ends all uploads, and gives the flash power again. The device isn't
    /// booted. No byte of the flash changes. Does not allocate.
    pub fn reset(&mut self)
        ensures { Resets self.old self.new }
    {
        self.flash.restart();
        self.uploads = Uploads::new();
        self.is_booted = false;
    }

    /// Borrows the flash.
    pub fn flash(&self) -> &F
        ensures { F.chip result.now ≡ self.now.here.flash }
    {
        &self.flash
    }

    /// Returns the flash, and drops the rest of the device. The map is still laid out on the flash.
    pub fn into_flash(self) -> F
        ensures flash { F.chip result ≡ self.here.flash }
        ensures laid_out { IsLaidOut self.setup.map (F.chip result) }
    {
        let Device {
            flash,
            map: _,
            identity: _,
            uploads: _,
            left: _,
            is_booted: _,
        } = self;
        flash
    }
}
