//! The calls of a device, and the function of `boot_core` that carries each out.
//!
//! Each call is a type of its own, so that a program links only what its calls reach.

ghost use Rattle.std.specs.Prelude.{◌≡◌, false, true};
ghost use Rattle.boot_core.specs.Booting.{EndsUploadsAndBoots};
ghost use Rattle.boot_core.specs.Device.{seen};
ghost use Rattle.sector_map.specs.Map.{IsLaidOut};
ghost use Rattle.upload.specs.Sessions.{AllOpenAt};
ghost use Rattle.upload.specs.View.{view};
ghost use Rattle.c_interface.specs.BootAnswer.{boot_reply};
ghost use Rattle.c_interface.specs.Calls.{HasBootResult, MakesCall};
ghost use Rattle.c_interface.specs.DeviceCall.{DeviceCall};
ghost use Rattle.c_interface.specs.DeviceCall as calls;
ghost use Rattle.c_interface.specs.SavedState.{is_piece};
ghost use Rattle.c_interface.specs.Setup.{IsTrial};

use crate::answers::Answer;
use crate::boot_answer::BootAnswer;
use crate::setup::CheckedSetup;
use boot_core::apart::{accept_manifest, boot_device_into, confirm_on, finish, piece, withdraw};
use flash_model::Flash;
use machine::Fault;
use manifest::Manifest;
use sector_map::SectorMap;
use upload::Uploads;

/// A call of a device with its arguments. Contracts see it as a `DeviceCall`.
pub(crate) trait Call {
    /// What the call answers.
    type Answer: Answer;

    ghost call: { Self → DeviceCall };

    /// Whether the call adds bytes to an upload.
    fn is_piece(&self) -> bool
        ensures { result ≡ is_piece (call self.now) };

    /// Makes the call with the function of `boot_core` that carries it out, and writes the answer.
    /// The flash has power.
    fn make<F: Flash>(
        &self,
        flash: &mut F,
        checked: &CheckedSetup,
        uploads: &mut Uploads,
        is_booted: &mut bool,
        answer: &mut Self::Answer,
    )
        requires laid_out { IsLaidOut checked.now.map (F.chip flash.old) }
        requires images { checked.now.identity.images ≡ checked.now.map.images }
        requires opens { is_piece (call self.now) ≡ false
            → AllOpenAt (view checked.now.map (F.chip flash.old)) uploads.old.sessions }
        requires trial { IsTrial checked.now.boots }
        requires on { (F.chip flash.old).is_on ≡ true }
        ensures { MakesCall checked.now.map checked.now.identity checked.now.boots (call self.now)
            (seen (F.chip flash.old) uploads.old.sessions is_booted.old)
            (seen (F.chip flash.new) uploads.new.sessions is_booted.new)
            (Self.Answer.reply answer.new) };
}

/// Accepts this manifest.
#[derive(Clone, Copy)]
pub(crate) struct Accept<'a>(pub(crate) &'a Manifest);

/// Adds these bytes to the upload of an image.
#[derive(Clone, Copy)]
pub(crate) struct Piece<'a>(pub(crate) u8, pub(crate) &'a [u8]);

/// Finishes the upload of an image.
#[derive(Clone, Copy)]
pub(crate) struct Finish(pub(crate) u8);

/// Withdraws the request of an image.
#[derive(Clone, Copy)]
pub(crate) struct Withdraw(pub(crate) u8);

/// Confirms an image.
#[derive(Clone, Copy)]
pub(crate) struct Confirm(pub(crate) u8);

/// Boots.
#[derive(Clone, Copy)]
pub(crate) struct Boot;

impl<'a> Call for Accept<'a> {
    type Answer = Result<(), Fault>;

    ghost call = { λ it. calls.Accept it.0 };

    fn is_piece(&self) -> bool {
        false
    }

    fn make<F: Flash>(
        &self,
        flash: &mut F,
        checked: &CheckedSetup,
        uploads: &mut Uploads,
        is_booted: &mut bool,
        answer: &mut Result<(), Fault>,
    ) {
        let map = &checked.map;
        *answer = accept_manifest(flash, map, &checked.identity, uploads, is_booted, self.0);
    }
}

impl<'a> Call for Piece<'a> {
    type Answer = Result<(), Fault>;

    ghost call = { λ it. calls.Piece it.0 it.1 };

    fn is_piece(&self) -> bool {
        true
    }

    fn make<F: Flash>(
        &self,
        flash: &mut F,
        checked: &CheckedSetup,
        uploads: &mut Uploads,
        is_booted: &mut bool,
        answer: &mut Result<(), Fault>,
    ) {
        *answer = piece(flash, &checked.map, uploads, is_booted, self.0, self.1);
    }
}

impl Call for Finish {
    type Answer = Result<(), Fault>;

    ghost call = { λ it. calls.Finish it.0 };

    fn is_piece(&self) -> bool {
        false
    }

    fn make<F: Flash>(
        &self,
        flash: &mut F,
        checked: &CheckedSetup,
        uploads: &mut Uploads,
        is_booted: &mut bool,
        answer: &mut Result<(), Fault>,
    ) {
        *answer = finish(flash, &checked.map, uploads, is_booted, self.0);
    }
}

impl Call for Withdraw {
    type Answer = Result<(), Fault>;

    ghost call = { λ it. calls.Withdraw it.0 };

    fn is_piece(&self) -> bool {
        false
    }

    fn make<F: Flash>(
        &self,
        flash: &mut F,
        checked: &CheckedSetup,
        uploads: &mut Uploads,
        is_booted: &mut bool,
        answer: &mut Result<(), Fault>,
    ) {
        *answer = withdraw(flash, &checked.map, uploads, is_booted, self.0);
    }
}

impl Call for Confirm {
    type Answer = Result<(), Fault>;

    ghost call = { λ it. calls.Confirm it.0 };

    fn is_piece(&self) -> bool {
        false
    }

    fn make<F: Flash>(
        &self,
        flash: &mut F,
        checked: &CheckedSetup,
        uploads: &mut Uploads,
        is_booted: &mut bool,
        answer: &mut Result<(), Fault>,
    ) {
        *answer = confirm_on(flash, &checked.map, uploads, is_booted, self.0);
    }
}

impl Call for Boot {
    type Answer = BootAnswer;

    ghost call = { λ it. calls.Boot };

    fn is_piece(&self) -> bool {
        false
    }

    fn make<F: Flash>(
        &self,
        flash: &mut F,
        checked: &CheckedSetup,
        uploads: &mut Uploads,
        is_booted: &mut bool,
        answer: &mut BootAnswer,
    ) {
        boot_into(
            flash,
            &checked.map,
            uploads,
            is_booted,
            checked.boots,
            answer,
        );
    }
}

/// Boots the device, and writes the answer in its places.
#[inline(never)]
fn boot_into<F: Flash>(
    flash: &mut F,
    map: &SectorMap,
    uploads: &mut Uploads,
    is_booted: &mut bool,
    boots: u8,
    answer: &mut BootAnswer,
)
    requires laid_out { IsLaidOut map.now (F.chip flash.old) }
    requires trial { IsTrial boots }
    ensures { HasBootResult (boot_reply answer.new) boots (λ left. EndsUploadsAndBoots map.now left
        (seen (F.chip flash.old) uploads.old.sessions is_booted.old)
        (seen (F.chip flash.new) uploads.new.sessions is_booted.new)) }
{
    let (table, report) = (&mut answer.table, &mut answer.report);
    answer.outcome = boot_device_into(flash, map, uploads, is_booted, boots - 1, table, report);
}
