//! `bootswap make-manifest`: makes the manifest for files to upload to a device.
ghost use Rattle.std.specs.Prelude.{◌≡◌, ◌↔◌, Any, IfNone, IfOk, IfSome, IsTrue, OnOk, length};
ghost use Rattle.std.specs.Prelude.{string_bytes, true};
ghost use Rattle.std.specs.Io.KnownBytes.{Appends};
ghost use Rattle.device_texts.specs.AnswerText.{refused_text};
ghost use Rattle.device_texts.specs.ReplyText.{refused_fault_text};
ghost use Rattle.machine.specs.declared.error.Fault.TheVariants.{RunningDamaged};
ghost use Rattle.creating.specs.NewManifestEnd.{AnswersNewManifest, EndsNoted, HaveImages, IsFault};
ghost use Rattle.creating.specs.NewManifestEnd.{Repeats};
ghost use Rattle.creating.specs.NewManifestSteps.{IsReadBack, Writes, WritesNotes};
ghost use Rattle.host.specs.Input.{KeepsFiles};
ghost use Rattle.manifest.specs.Codes.{code_of, name_of};

use crate::manifest_json::manifest_json;
use crate::new_components::read_components;
use crate::next_boot::{write_decisions, write_intake};
use crate::precursors::{Precursors, Running, read_precursors};
use crate::telling::tell;
use command_line::{NewComponent, NewManifest};
use device_texts::{DeviceFile, NoteList, refused_fault_text, refused_text};
use host::{Answer, Host, Refusal, Source};
use inputs::{Notes, read_device};
use machine::Fault;
use manifest::{Identity, Manifest, ManifestError};
use std::alloc::{AllocError, Global};
use std::io::Write;

/// Writes to `out` the manifest for files to upload to a device, or why there is no such manifest.
///
/// The device file, each file to upload, and the flash of the precursors, if one is given, are read
/// from `host`. The manifest is made in memory of `alloc` and read back before it is written. The
/// device, and a precursor that isn't intact, are handed to `notes`.
///
/// After the manifest, notes are written to `err`: whether the device refuses the manifest or is on
/// trial, which of the files it will not take, and whether it boots files on trial that are requested
/// permanently. `out` is flushed before. With `--strict` the answer is `Refused` if there is a note.
///
/// # Errors
/// `DeviceFile`, `FlashSize`, `FlashInUse` or `OfSource` for an input that is wrong, in use or
/// can't be read. `NotMade` if there are more files than a manifest can have components.
/// `NoMemory` if memory runs out. `CannotWrite` if a write to `out` or `err` fails.
pub fn run_make_manifest<H: Host, O: Write, E: Write, N: Notes>(
    alloc: Global,
    device: Source<'_>,
    asked: &NewManifest<'_>,
    host: &mut H,
    out: &mut O,
    err: &mut E,
    notes: &mut N,
) -> Result<Answer, Refusal>
    ensures answers { IfOk result (λ answer. AnswersNewManifest answer device.entry asked.now
        (H.input host.old) (H.file host.old) (O.contents out.old) (O.contents out.new)) }
    ensures noted { IfOk result (λ answer. EndsNoted answer device.entry asked.now
        (H.input host.old) (H.file host.old) (O.contents out.old) (O.contents out.new)
        (E.contents err.old) (E.contents err.new)) }
    ensures files { KeepsFiles (H.file host.old) (H.file host.new) }
    ensures to_read { (H.opened host.new).to_write ≡ (H.opened host.old).to_write }
{
    let Some(of_device) = read_device(alloc, device, host, out, notes)? else {
        return Ok(Answer::Refused);
    };
    if let Some(fault) = fault_in(&asked.components, of_device.map.images) {
        refuse(alloc, fault, out)?;
        return Ok(Answer::Refused);
    }
    match read_precursors(alloc, &of_device.map, asked, host, notes)? {
        Precursors::Are(running) => {
            let is_quiet = write_manifest(alloc, &of_device, asked, running, host, out, err)?;
            if asked.is_strict && !is_quiet {
                return Ok(Answer::Refused);
            }
            Ok(Answer::Done)
        }
        Precursors::DamagedAt(image) => {
            refuse_running(alloc, image, out)?;
            Ok(Answer::Refused)
        }
    }
}

/// Why there is no manifest of these files for a device with this number of images.
fn fault_in(asked: &[NewComponent<'_>], images: u8) -> Option<ManifestError>
    ensures fault { IfSome result (IsFault images asked.now) }
    ensures sound { IfNone result (HaveImages images asked.now) }
{
    if !have_images(asked, images) {
        return Some(ManifestError::NoComponent);
    }
    if repeats(asked) {
        return Some(ManifestError::RepeatedComponent);
    }
    None
}

/// Whether each file is for an image that the device has.
fn have_images(asked: &[NewComponent<'_>], images: u8) -> bool
    ensures { IsTrue result ↔ HaveImages images asked.now }
{
    asked.iter().all(|component| component.image < images)
}

/// Whether two files are for the same image.
fn repeats(asked: &[NewComponent<'_>]) -> bool
    ensures { result ≡ true → Repeats asked.now }
{
    for (place, component) in asked.iter().enumerate() {
        if is_named(&asked[..place], component.image) {
            return true;
        }
    }
    false
}

/// Whether one of these files is for this image.
pub(crate) fn is_named(asked: &[NewComponent<'_>], image: u8) -> bool
    ensures { IsTrue result ↔ Any (λ component. component.image ≡ image) asked.now }
{
    asked.iter().any(|component| component.image == image)
}

/// Reads the files to upload, writes to `out` the manifest that admits them, with these precursors,
/// and writes notes to `err`: whether the device refuses it or is on trial, which of the files the
/// device or its next boot will not take, and whether it boots files on trial that are requested
/// permanently. Returns whether there is no note.
fn write_manifest<H: Host, O: Write, E: Write>(
    alloc: Global,
    device: &DeviceFile,
    asked: &NewManifest<'_>,
    running: Running,
    host: &mut H,
    out: &mut O,
    err: &mut E,
) -> Result<bool, Refusal>
    requires same { length running.digests.items ≡ length asked.now.components.items }
    requires there { HaveImages device.now.map.images asked.now.components.items }
    ensures written { OnOk result (Writes device.now asked.now running.digests.items
        (H.input host.old) (H.file host.old) (O.contents out.old) (O.contents out.new)) }
    ensures noted { IfOk result (λ is_quiet.
        WritesNotes is_quiet (E.contents err.old) (E.contents err.new)) }
    ensures files { KeepsFiles (H.file host.old) (H.file host.new) }
    ensures opened { H.opened host.new ≡ H.opened host.old }
{
    let mut notes = NoteList::new(alloc);
    let Running {
        digests,
        mut table,
        intake,
    } = running;
    let Ok(()) = write_intake(&mut notes, asked.sequence, &intake) else {
        return Err(Refusal::NoMemory);
    };
    let (map, files, follow) = (&device.map, asked.components.as_slice(), digests.as_slice());
    let components = read_components(alloc, map, files, follow, host, &mut table, &mut notes)?;
    let Ok(()) = write_decisions(&mut notes, files, &table) else {
        return Err(Refusal::NoMemory);
    };
    let manifest = Manifest {
        sequence: asked.sequence,
        components,
    };
    let Ok(text) = manifest_json(alloc, &device.identity, &manifest) else {
        return Err(Refusal::NoMemory);
    };
    expect_manifest(alloc, text.as_bytes(), &device.identity, &manifest)?;
    let Ok(notes) = notes.lines(alloc) else {
        return Err(Refusal::NoMemory);
    };
    tell(text.as_bytes(), out)?;
    tell(notes.as_bytes(), err)?;
    Ok(notes.is_empty())
}

/// Refuses a text that isn't this manifest for a device of this identity.
///
/// It refuses only if memory runs out, since the text was made from this manifest. How the text is
/// made isn't proved. It is proved that the text reads back as the manifest.
fn expect_manifest(
    alloc: Global,
    text: &[u8],
    identity: &Identity,
    manifest: &Manifest,
) -> Result<(), Refusal>
    ensures { OnOk result (IsReadBack identity.now text.now manifest.now) }
{
    match Manifest::read(alloc, text, identity) {
        Ok(read) if read == *manifest => Ok(()),
        Err(ManifestError::NoMemory) => Err(Refusal::NoMemory),
        _ => Err(Refusal::NotMade),
    }
}

/// Writes to `out` why there is no manifest: the number and the name of the refusal.
fn refuse<O: Write>(alloc: Global, fault: ManifestError, out: &mut O) -> Result<(), Refusal>
    ensures { OnOk result (Appends (O.contents out.old) (O.contents out.new)
        (refused_text (code_of fault) (name_of fault))) }
{
    let Ok(text) = fault_text(alloc, fault) else {
        return Err(Refusal::NoMemory);
    };
    tell(text.as_bytes(), out)
}

/// The line for files that make no manifest: the number and the name of the refusal.
fn fault_text(alloc: Global, fault: ManifestError) -> Result<String, AllocError>
    ensures { IfOk result (λ text. string_bytes text
        ≡ refused_text (code_of fault) (name_of fault)) }
{
    refused_text(alloc, fault.code(), fault.name())
}

/// Writes to `out` that the running image of this number isn't intact.
fn refuse_running<O: Write>(alloc: Global, image: u8, out: &mut O) -> Result<(), Refusal>
    ensures { OnOk result (Appends (O.contents out.old) (O.contents out.new)
        (refused_fault_text (RunningDamaged image))) }
{
    let Ok(text) = refused_fault_text(alloc, Fault::RunningDamaged(image)) else {
        return Err(Refusal::NoMemory);
    };
    tell(text.as_bytes(), out)
}
