//! Runs events on a device, and returns a reply to each.

ghost use Rattle.std.specs.Prelude.{◌≡◌, true};
ghost use Rattle.flash_contents.specs.Starting.{StartsBy};
ghost use Rattle.upload.specs.View.{View};
ghost use Rattle.boot_core.specs.Answers.{fault_reply, reply_of_result};
ghost use Rattle.boot_core.specs.Calls.{Replies, Runs, Steps};

use crate::device::Device;
use flash_model::{Flash, FlashError};
use machine::{Event, Fault, Reply, UploadError};
use std::alloc::{AllocError, Global};

/// The reply to a refused call: `Cut` if power failed, else `Refused` with the fault. Does not
/// allocate.
pub fn reply_of(fault: Fault) -> Reply
    ensures is { result ≡ fault_reply fault }
    ensures starts { (w : View) → StartsBy w result }
{
    match fault {
        Fault::Flash(FlashError::Cut) => Reply::Cut,
        Fault::Upload(UploadError::Flash(FlashError::Cut)) => Reply::Cut,
        fault => Reply::Refused(fault),
    }
}

/// The reply to a call that isn't a boot: `Done`, or the reply to its refusal. Does not allocate.
pub fn answer(given: Result<(), Fault>) -> Reply
    ensures is { result ≡ reply_of_result given }
    ensures starts { (w : View) → StartsBy w result }
{
    match given {
        Ok(()) => Reply::Done,
        Err(fault) => reply_of(fault),
    }
}

/// Calls the device for an event, and returns the reply.
fn call<F: Flash>(alloc: Global, device: &mut Device<F>, event: &Event<&[u8]>) -> Reply
    requires { device.old.here.flash.is_on ≡ true }
    ensures { Replies event.now device.old device.new result }
{
    match event {
        Event::Accept(bytes) => answer(device.accept(alloc, bytes)),
        Event::Piece(image, bytes) => answer(device.piece(*image, bytes)),
        Event::Finish(image) => answer(device.finish(*image)),
        Event::Withdraw(image) => answer(device.withdraw(*image)),
        Event::Confirm(image) => answer(device.confirm(*image)),
        Event::Boot => match device.boot() {
            Ok(reply) => reply,
            Err(fault) => reply_of(fault),
        },
        Event::Reset => {
            device.reset();
            Reply::Done
        }
    }
}

/// Passes one event to a device, and returns its reply. After a power cut it resets the device,
/// which gives the flash power again. Until the next boot, each event but a boot or a reset is then
/// refused with `NotBooted`.
///
/// This holds for every event, wherever power fails in it. If the device holds a state of the
/// machine of whole images, the event with this reply is a step of that machine. The device then
/// holds the next state. The reply is `Cut` exactly if a write was cut: one that was armed, or one
/// that the flash counts as a fault.
///
/// The flash has to have power when the step begins, and has it when the step ends. So consecutive
/// steps are a run. A caller who reports each reply before the next step needs no memory for the
/// replies.
pub fn step<F: Flash>(alloc: Global, device: &mut Device<F>, event: &Event<&[u8]>) -> Reply
    requires { device.old.here.flash.is_on ≡ true }
    ensures { Steps event.now device.old device.new result }
{
    // Borrowing the flash applies a law of `Flash`: each cut so far was armed or is a fault. The
    // proof needs it before and after the call.
    let _before = device.flash();
    let reply = call(alloc, device, event);
    let _behind = device.flash();
    match reply {
        Reply::Cut => {
            device.reset();
            Reply::Cut
        }
        reply => reply,
    }
}

/// Passes events to a device, in order, and returns the reply to each. After a power cut it resets
/// the device, which gives the flash power again. Until the next boot, each event but a boot or a
/// reset is then refused with `NotBooted`.
///
/// This holds for every list of events, wherever power fails in it. If the device holds a state of
/// the machine of whole images, the events with these replies are a run of that machine. The device
/// then holds its last state. The reply to an event is `Cut` exactly if a write was cut in it.
///
/// The flash has to have power when the run begins, and has it when the run ends.
///
/// # Errors
/// `AllocError`: there is no memory for the replies, which are reserved first. No event was passed.
///
/// # Examples
///
/// ```text
/// // `flash` is a `MemFlash` with an image in each of two primary slots. `PAIR` is a manifest for
/// // `identity`, the vendor, the class and the number of images of the device.
/// let map = SectorMap::new(512, &[2, 2])?;
/// assert!(rt; identity.images == map.images && map.fits(&flash));
/// provision(&mut flash, &map)?;
/// // Power fails in write 7, while the device accepts the manifest.
/// flash.arm(7, Torn::Half)?;
/// let mut device = Device::new(flash, map, identity);
/// device.reset();
/// let events = [Event::Boot, Event::Accept(PAIR), Event::Boot];
/// let replies = run(rt.alloc(), &mut device, &events)?;
/// assert!(rt; matches!(replies[0], Reply::Booted { .. }) && replies[1] == Reply::Cut);
/// assert!(rt; matches!(replies[2], Reply::Booted { .. }));
/// ```
pub fn run<F: Flash>(
    alloc: Global,
    device: &mut Device<F>,
    events: &[Event<&[u8]>],
) -> Result<Vec<Reply>, AllocError>
    requires { device.old.here.flash.is_on ≡ true }
    ensures { Runs events.now device.old device.new result }
{
    let mut replies = Vec::with_capacity(alloc, events.len())?;
    for event in events {
        let reply = step(alloc, device, event);
        match replies.push(reply) {
            Ok(()) => {}
            Err(_) => unreachable!(),
        }
    }
    Ok(replies)
}
