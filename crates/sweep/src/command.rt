//! Runs `bootswap sweep`: reads a device file, a script and images, and runs the script with power
//! cuts.
ghost use Rattle.std.specs.Prelude.{◌≡◌, IfOk, IfSome, List, ℕ, OnOk};
ghost use Rattle.flash_model.specs.Blanks.{IsBlankOf};
ghost use Rattle.host.specs.Input.{IsNamed, KeepsFiles};
ghost use Rattle.device_texts.specs.DeviceFile.{IsOfFile};
ghost use Rattle.device_texts.specs.FlashOf.{IsFlashOf};
ghost use Rattle.device_texts.specs.Said.{said};
ghost use Rattle.sweep.specs.SweepEnd.{FindsSweep, HasDevice, IsNamedBy, IsNoInput, IsOther};
ghost use Rattle.sweep.specs.SweepEnd.{KeepsBesides, KeepsInputs, KeepsRead, SaysFile};

use crate::picture_file::{check_picture, hold_picture, make_picture};
use crate::progress::Progress;
use crate::scenario::Scenario;
use crate::sweeping::sweep;
use crate::swept::Swept;
use command_line::SweepChoices;
use device_commands::provision::read_images;
use device_texts::{DeviceFile, Line, flash_of};
use host::{FlashFault, Host, Refusal, Source, refuse_input};
use inputs::{Lines, Notes, device_or_fault, load, read_script};
use machine::{Event, Fault};
use sector_map::SectorMap;
use std::alloc::{AllocError, Global};
use std::io::Write;
use std::marker::Brand;
use std::sync::ledger::{Blank, Ledger};

/// What a sweep reads, tries and makes.
#[derive(Clone, Copy)]
pub struct SweepOrder<'a, 'w> {
    /// The device file.
    pub device: Source<'a>,
    /// The script.
    pub script: Source<'a>,
    /// The images that run first, as the arguments name them.
    pub images: &'w [&'a str],
    /// The writes to try, and the picture to make.
    pub choices: SweepChoices<'a>,
}

impl<'a, 'w> SweepOrder<'a, 'w> {
    /// What these arguments ask for.
    pub fn of(
        device: &'a str,
        script: &'a str,
        images: &'w [&'a str],
        choices: SweepChoices<'a>,
    ) -> Self
        ensures device { IsNamed device.entry.now result.device }
        ensures script { IsNamed script.entry.now result.script }
        ensures rest { (result.images ≡ images.entry) × (result.choices ≡ choices.entry) }
    {
        SweepOrder {
            device: Source::named(device),
            script: Source::named(script),
            images,
            choices,
        }
    }
}

/// A script that was read.
#[derive(Clone, Copy)]
struct Script<'t, 'e> {
    /// The text of the script.
    text: &'t [u8],
    /// The events of its lines.
    events: &'e [Event<Vec<u8>>],
}

/// What a sweep begins with.
#[derive(Drop)]
struct Start {
    /// The bytes of the flash before it is provisioned.
    bytes: Vec<u8>,
    /// Why the picture can't be made or replaced, if it can't.
    held: Result<(), FlashFault>,
}

/// Runs a script on a device with power cuts, and returns how the runs ended.
///
/// The device file, the script and the images are read from `host`. A device file without a map, and
/// the images, are handed to `notes`. The flash is made and provisioned in memory of `alloc`. `order`
/// says at which writes the power fails. At a terminal, the progress is written to `err`.
///
/// All files are checked before the first run. If `order` has a picture, its file is looked up then,
/// and locked if it exists. It may be replaced if it is a picture of a sweep or empty, or if that is
/// forced. The picture is made or replaced after all runs. No other file changes. The device file,
/// the script, the files that its lines name and the images keep their bytes on every path: none of
/// them may be the picture.
pub fn run_sweep<H: Host, E: Write, N: Notes>(
    alloc: Global,
    order: SweepOrder<'_, '_>,
    host: &mut H,
    err: &mut E,
    notes: &mut N,
) -> Result<Swept, Refusal>
    ensures finds { IfOk result (λ swept.
        FindsSweep swept order.entry.device order.entry.script (H.input host.old) (H.file host.old)) }
    ensures inputs { KeepsInputs order.entry.device order.entry.script order.entry.images.now
        order.entry.choices.picture (H.file host.old) (H.file host.new) }
{
    let is_input_read = reads_standard_input(&order);
    let device = match device_or_fault(alloc, order.device, host)? {
        Ok(device) => device,
        Err(bad) => {
            notes.bad_map(&bad);
            return Ok(Swept::RefusedMap(bad.fault));
        }
    };
    let text = read_script(alloc, order.script, host)?;
    let events = match load(alloc, &text, is_input_read, host) {
        Ok(events) => events,
        Err(refusal) => return Err(refusal.in_script(text)),
    };
    let script = Script {
        text: &text,
        events: &events,
    };
    sweep_images(alloc, &device, script, &order, host, err, notes)
}

/// Whether one of these files is standard input.
fn reads_standard_input(order: &SweepOrder<'_, '_>) -> bool {
    order.device.is_standard_input()
        || order.script.is_standard_input()
        || order
            .images
            .iter()
            .any(|image| Source::named(image).is_standard_input())
}

/// Refuses a picture that can't be made, or whose file is an input. `text` is the text of the
/// script, and `held` is the result of looking the picture up.
fn refuse_inputs<H: Host>(
    alloc: Global,
    host: &H,
    order: &SweepOrder<'_, '_>,
    text: &[u8],
    held: Result<(), FlashFault>,
) -> Result<(), Refusal>
    ensures { OnOk result (IfSome order.now.choices.picture (λ picture.
        IsNoInput (H.apart host.now) picture.now
        order.now.device order.now.script order.now.images.now text.now)) }
{
    let Some(picture) = order.choices.picture else {
        return Ok(());
    };
    refuse_input(alloc, host, picture, order.device, Refusal::PictureIsInput)?;
    refuse_input(alloc, host, picture, order.script, Refusal::PictureIsInput)?;
    refuse_named(alloc, host, picture, text)?;
    for image in order.images {
        let image = Source::named(image);
        refuse_input(alloc, host, picture, image, Refusal::PictureIsInput)?;
    }
    check_picture(alloc, host, picture, order.choices.is_forced, held)
}

/// Refuses a picture whose file a line of this script text names.
fn refuse_named<H: Host>(alloc: Global, host: &H, picture: &str, text: &[u8]) -> Result<(), Refusal>
    ensures { OnOk result ((name : List ℕ) → IsNamedBy text.now name
        → IsOther (H.apart host.now) picture.now name) }
{
    let mut lines = Lines::of(text);
    while !lines.rest.is_empty() {
        let line = lines.next_line()?;
        refuse_line(alloc, host, picture, line)?;
    }
    Ok(())
}

/// Refuses a picture whose file this line names.
fn refuse_line<H: Host>(
    alloc: Global,
    host: &H,
    picture: &str,
    line: Line<'_>,
) -> Result<(), Refusal>
    ensures { OnOk result ((name : List ℕ) → SaysFile name (said line.entry)
        → IsOther (H.apart host.now) picture.now name) }
{
    match line {
        Line::Event(Event::Accept(file) | Event::Piece(_, file)) => {
            let file = Source::named(file.name);
            refuse_input(alloc, host, picture, file, Refusal::PictureIsInput)
        }
        _ => Ok(()),
    }
}

/// Reads the images, provisions a flash with them, and sweeps a script on it.
fn sweep_images<H: Host, E: Write, N: Notes>(
    alloc: Global,
    device: &DeviceFile,
    script: Script<'_, '_>,
    order: &SweepOrder<'_, '_>,
    host: &mut H,
    err: &mut E,
    notes: &mut N,
) -> Result<Swept, Refusal>
    requires device { IsOfFile device.now }
    ensures ran { IfOk result HasDevice }
    ensures inputs { KeepsRead order.now.device order.now.script order.now.images.now
        (IsNamedBy script.entry.text.now) order.now.choices.picture
        (H.file host.old) (H.file host.new) }
{
    let Start { bytes, held } = prepare(alloc, &device.map, order, host, notes)?;
    refuse_inputs(alloc, host, order, script.text, held)?;
    let Ok(made) = provision_in_memory::<Brand>(alloc, Blank::new(2), &device.map, bytes) else {
        return Err(Refusal::NoMemory);
    };
    match made {
        Err(fault) => Ok(Swept::RefusedDevice(fault)),
        Ok(bytes) => {
            let scenario = Scenario {
                device,
                bytes: &bytes,
                events: script.events,
                between: &[],
                more: &[],
            };
            sweep_scenario(alloc, &scenario, &order.choices, host, err)
        }
    }
}

/// Reads the images, and then looks up the picture.
fn prepare<H: Host, N: Notes>(
    alloc: Global,
    map: &SectorMap,
    order: &SweepOrder<'_, '_>,
    host: &mut H,
    notes: &mut N,
) -> Result<Start, Refusal>
    ensures whole { IfOk result (λ start. IsFlashOf map.now start.bytes.items) }
    ensures kept { KeepsFiles (H.file host.old) (H.file host.new) }
{
    let bytes = read_images(alloc, map, order.images, host, notes)?;
    // Not earlier: while the host reads, a name may become that of another file.
    let held = hold_picture(alloc, order.choices.picture, host);
    Ok(Start { bytes, held })
}

/// Provisions a flash of these bytes in memory. Returns its new bytes, or why it is refused.
fn provision_in_memory<L: Ledger>(
    alloc: Global,
    blank: Blank,
    map: &SectorMap,
    bytes: Vec<u8>,
) -> Result<Result<Vec<u8>, Fault>, AllocError>
    requires blank { IsBlankOf blank L.name L.parts 2 }
    requires whole { IsFlashOf map.now bytes.items }
    ensures { IfOk result (λ made. IfOk made (λ bytes. IsFlashOf map.now bytes.items)) }
{
    let mut flash = flash_of::<L>(alloc, blank, map, bytes);
    if let Err(fault) = boot_core::provision(&mut flash, map) {
        return Ok(Err(fault));
    }
    Ok(Ok(Vec::from_slice(alloc, flash.bytes())?))
}

/// Sweeps a scenario, and makes the picture if `choices` has one.
fn sweep_scenario<H: Host, E: Write>(
    alloc: Global,
    scenario: &Scenario<'_>,
    choices: &SweepChoices<'_>,
    host: &mut H,
    err: &mut E,
) -> Result<Swept, Refusal>
    ensures ran { IfOk result HasDevice }
    ensures others { KeepsBesides choices.now.picture (H.apart host.old)
        (H.file host.old) (H.file host.new) }
{
    let mut progress = Progress::new(host, err);
    let swept = sweep(alloc, scenario, choices, &mut progress);
    progress.clear();
    let Ok(found) = swept else {
        return Err(Refusal::NoMemory);
    };
    make_picture(alloc, &found, choices.picture, host)?;
    Ok(Swept::Found(found))
}
