//! Runs a scenario once, with given power cuts.

ghost use Rattle.std.specs.Prelude.{◌≡◌, IfOk, true};
ghost use Rattle.flash_model.specs.Blanks.{IsBlankOf};
ghost use Rattle.sweep.specs.Scenario.{IsScenarioRun, Reboots, RunsEvent, RunsEvents, StepsCut, all_of, held_in};

use crate::cuts::{TornWrite, cut_writes};
use crate::device::device_over;
use crate::notes::{Notes, ScenarioEnd};
use crate::running::running_versions;
use crate::scenario::Scenario;
use boot_core::{Device, step};
use device_texts::{arm_all, flash_of};
use flash_model::MemFlash;
use machine::{Event, Reply};
use std::alloc::{AllocError, Global};
use std::marker::Brand;
use std::sync::ledger::{Blank, Ledger};

/// Runs a scenario with these power cuts. After each cut the device boots until a boot isn't
/// interrupted. The copy of its flash is in memory of `alloc`.
///
/// # Errors
/// `AllocError` if memory is refused.
pub fn run_scenario(
    alloc: Global,
    scenario: &Scenario<'_>,
    cuts: &[TornWrite],
) -> Result<ScenarioEnd, AllocError>
    ensures { IfOk result (IsScenarioRun scenario.now cuts.now) }
{
    run_on_flash::<Brand>(alloc, Blank::new(2), scenario, cuts)
}

/// Runs a scenario on a flash that counts by the ledger of this token.
fn run_on_flash<L: Ledger>(
    alloc: Global,
    blank: Blank,
    scenario: &Scenario<'_>,
    cuts: &[TornWrite],
) -> Result<ScenarioEnd, AllocError>
    requires blank { IsBlankOf blank L.name L.parts 2 }
    ensures { IfOk result (IsScenarioRun scenario.now cuts.now) }
{
    let bytes = Vec::from_slice(alloc, scenario.bytes)?;
    let mut flash = flash_of::<L>(alloc, blank, &scenario.device.map, bytes);
    arm_all(&mut flash, cut_writes(alloc, cuts)?)?;
    let mut device = device_over(flash, scenario.device);
    let notes = run_all_events(alloc, &mut device, scenario, cuts.len())?;
    let mut flash = device.into_flash();
    let versions = running_versions(&mut flash, &scenario.device.map);
    Ok(ScenarioEnd {
        versions,
        cut: notes.cut,
        is_refused: notes.is_refused,
    })
}

/// Passes all events of a scenario in order to a device whose flash has power. After each
/// interrupted event the device boots until a boot isn't interrupted, at most `most` times.
fn run_all_events<L: Ledger>(
    alloc: Global,
    device: &mut Device<MemFlash<L>>,
    scenario: &Scenario<'_>,
    most: usize,
) -> Result<Notes, AllocError>
    requires { device.old.here.flash.is_on ≡ true }
    ensures setup { device.new.setup ≡ device.old.setup }
    ensures on { device.new.here.flash.is_on ≡ true }
    ensures runs { IfOk result (λ _. RunsEvents device.old.setup device.old.here device.new.here
        (all_of scenario.now)) }
{
    let mut notes = Notes::new(most);
    run_events(alloc, device, scenario.events, &mut notes)?;
    run_events(alloc, device, scenario.between, &mut notes)?;
    run_events(alloc, device, scenario.more, &mut notes)?;
    Ok(notes)
}

/// Passes events in order to a device whose flash has power. After each interrupted event the
/// device boots until a boot isn't interrupted, at most as often as `notes` say.
fn run_events<L: Ledger>(
    alloc: Global,
    device: &mut Device<MemFlash<L>>,
    events: &[Event<Vec<u8>>],
    notes: &mut Notes,
) -> Result<(), AllocError>
    requires { device.old.here.flash.is_on ≡ true }
    ensures setup { device.new.setup ≡ device.old.setup }
    ensures on { device.new.here.flash.is_on ≡ true }
    ensures runs { IfOk result (λ _. RunsEvents device.old.setup device.old.here device.new.here
        (held_in events.now)) }
{
    for event in events {
        let event = event.as_deref();
        run_event(alloc, device, &event, notes)?;
    }
    Ok(())
}

/// Passes an event to a device whose flash has power, and boots the device if power fails in it.
fn run_event<L: Ledger>(
    alloc: Global,
    device: &mut Device<MemFlash<L>>,
    event: &Event<&[u8]>,
    notes: &mut Notes,
) -> Result<(), AllocError>
    requires { device.old.here.flash.is_on ≡ true }
    ensures setup { device.new.setup ≡ device.old.setup }
    ensures on { device.new.here.flash.is_on ≡ true }
    ensures runs { RunsEvent device.old.setup device.old.here device.new.here event.now }
{
    let reply = reply_to(alloc, device, event);
    if let Reply::Cut = reply {
        let writes = device.flash().writes();
        let reply = boot_again(alloc, device, notes.most_boots);
        let writes = device.flash().writes().saturating_sub(writes);
        notes.note_cut(&reply, writes);
        notes.note_boot(&reply);
        return notes.end_event(&reply);
    }
    if let Event::Boot = event {
        notes.note_boot(&reply);
    }
    notes.end_event(&reply)
}

/// Boots a device whose flash has power until a boot isn't interrupted, at most `most` times but at
/// least once. Returns the reply of the last boot.
fn boot_again<L: Ledger>(alloc: Global, device: &mut Device<MemFlash<L>>, most: usize) -> Reply
    requires { device.old.here.flash.is_on ≡ true }
    ensures setup { device.new.setup ≡ device.old.setup }
    ensures on { device.new.here.flash.is_on ≡ true }
    ensures reboots { Reboots device.old.setup device.old.here device.new.here }
{
    for _ in 1..most {
        let reply = reply_to(alloc, device, &Event::Boot);
        if !is_cut(&reply) {
            return reply;
        }
    }
    reply_to(alloc, device, &Event::Boot)
}

/// The reply of a device whose flash has power to an event. It is `Cut` exactly if the flash took
/// an armed write in the event.
fn reply_to<L: Ledger>(
    alloc: Global,
    device: &mut Device<MemFlash<L>>,
    event: &Event<&[u8]>,
) -> Reply
    requires { device.old.here.flash.is_on ≡ true }
    ensures setup { device.new.setup ≡ device.old.setup }
    ensures on { device.new.here.flash.is_on ≡ true }
    ensures steps { StepsCut device.old.setup device.old.here device.new.here event.now result }
{
    // A flash in memory has no faults, neither before nor after the step.
    let _before = device.flash();
    let reply = step(alloc, device, event);
    let _after = device.flash();
    reply
}

/// Whether a reply says that power failed.
fn is_cut(reply: &Reply) -> bool {
    match reply {
        Reply::Cut => true,
        _ => false,
    }
}
