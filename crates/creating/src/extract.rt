//! `bootswap extract`: copies an image out of a slot of a flash into a file.
ghost use Rattle.std.specs.Prelude.{◌≡◌, ◌≢◌, ◌<◌, ◌≤◌, IfErr, IfOk, length};
ghost use Rattle.std.specs.Prelude.{slice_range, string_bytes, true};
ghost use Rattle.flash_model.specs.Blanks.{IsBlankOf};
ghost use Rattle.sector_map.specs.Map.{IsLaidOut};
ghost use Rattle.image_reading.specs.Codes.{code_of, name_of};
ghost use Rattle.image_reading.specs.Fault.{IsFrontFault};
ghost use Rattle.host.specs.Input.{KeepsFiles};
ghost use Rattle.host.specs.Doings.{KeepsApart, KeepsSource};
ghost use Rattle.host.specs.Status.{EndsUnmade};
ghost use Rattle.device_texts.specs.AnswerText.{refused_text};
ghost use Rattle.device_texts.specs.FlashOf.{IsFlashOf, flash_of};
ghost use Rattle.creating.specs.CopyEnd.{AnswersCopied, AnswersCopy, EndsCopy, IsImageOf, slot_to_copy};
ghost use Rattle.creating.specs.NewFileEnd.{MayReplace, Replaces};

use crate::image_file::{HeldFile, replace};
use crate::telling::tell;
use command_line::NewFile;
use device_texts::{flash_of, refused_text};
use flash_model::Flash;
use host::{Access, Answer, FlashFault, Host, Refusal, Replaced, Source, refuse_input};
use image_reading::{ImageError, SlotError, describe_slot};
use inputs::{Notes, read_device, read_flash};
use sector_map::{SectorMap, Side};
use std::alloc::{AllocError, Global};
use std::io::Write;
use std::marker::Brand;
use std::sync::ledger::{Blank, Ledger};

/// The slot to copy, and the file to copy it into.
#[derive(Clone, Copy)]
pub struct Copying<'a> {
    /// The number of the image.
    pub image: u8,
    /// The side of its slot.
    pub side: Side,
    /// The file to make or replace.
    pub out: NewFile<'a>,
}

/// A slot to copy, and the file to copy it into as it was looked up.
#[derive(Clone, Copy)]
struct HeldCopy<'a> {
    copying: Copying<'a>,
    /// Why the file can't be made or replaced, if it can't.
    held: Result<(), FlashFault>,
}

/// The result of copying an image.
#[derive(Clone, Copy)]
pub enum Copied {
    /// The file holds the image.
    Done,
    /// The slot doesn't begin with an image. This is the first check that fails. No file was
    /// written.
    Refused(ImageError),
}

/// Copies the intact image that a slot begins with into a file, which is made or replaced. Writes
/// to `out` that it is done, or why there is no image.
///
/// The device file and the flash are read from `host`. All bytes are in memory of `alloc`. The device,
/// and the slot if it is refused, are handed to `notes`.
///
/// The file can't be one of the inputs, which never change, and the flash is opened only for
/// reading. A file that exists is replaced only if it is one intact image, is empty, or `--force` is
/// given. It changes only if the answer is `Done` or can't be written.
///
/// # Errors
/// `DeviceFile`, `FlashSize`, `FlashInUse` or `OfSource` for an input that is wrong, in use or
/// can't be read. `NoImage` if the device doesn't have the image. `ImageIsInput`, `ImageInUse` or
/// `OfSource` for a file that can't be made or may not be replaced. `NoMemory` if memory runs out.
/// `CannotWrite` if the answer can't be written.
pub fn run_extract<H: Host, O: Write, N: Notes>(
    alloc: Global,
    device: Source<'_>,
    flash: Source<'_>,
    copying: Copying<'_>,
    host: &mut H,
    out: &mut O,
    notes: &mut N,
) -> Result<Answer, Refusal>
    ensures answers { IfOk result (λ answer.
        AnswersCopy answer device.entry flash.entry copying.entry.image copying.entry.side
        (H.input host.old) (H.file host.old) (H.file host.new copying.entry.out.name.now)
        (O.contents out.old) (O.contents out.new)) }
    ensures replaces { IfOk result (λ answer.
        Replaces answer copying.entry.out (H.file host.old)) }
    ensures kept { EndsUnmade result → KeepsFiles (H.file host.old) (H.file host.new) }
    ensures inputs { KeepsSource device.entry (H.file host.old) (H.file host.new)
        × KeepsSource flash.entry (H.file host.old) (H.file host.new) }
    ensures to_read { (H.opened host.new).to_write ≡ (H.opened host.old).to_write }
{
    let Some(of_device) = read_device(alloc, device, host, out, notes)? else {
        return Ok(Answer::Refused);
    };
    let map = &of_device.map;
    if copying.image >= map.images {
        return Err(Refusal::NoImage {
            image: copying.image,
            images: map.images,
        });
    }
    let bytes = read_flash(alloc, flash, map, Access::Read, host)?;
    let held = host.hold_output(alloc, copying.out.name, Replaced::PlainFile);
    refuse_input(alloc, host, copying.out.name, device, Refusal::ImageIsInput)?;
    refuse_input(alloc, host, copying.out.name, flash, Refusal::ImageIsInput)?;
    let to = HeldCopy { copying, held };
    let copied = copy::<Brand, _, _>(alloc, Blank::new(2), map, bytes, to, host, notes)?;
    tell_copied(alloc, copied, out)
}

/// Copies the image that a slot begins with into a file. `bytes` are those of the flash.
fn copy<L: Ledger, H: Host, N: Notes>(
    alloc: Global,
    blank: Blank,
    map: &SectorMap,
    bytes: Vec<u8>,
    to: HeldCopy<'_>,
    host: &mut H,
    notes: &mut N,
) -> Result<Copied, Refusal>
    requires blank { IsBlankOf blank L.name L.parts 2 }
    requires whole { IsFlashOf map.now bytes.items }
    requires there { to.copying.image < map.now.images }
    ensures copied { IfOk result (λ copied.
        EndsCopy copied map.now (flash_of map.now bytes.items) to.entry.copying.image
        to.entry.copying.side (H.file host.new to.entry.copying.out.name.now)) }
    ensures replaces { IfOk result (λ copied. copied ≡ Copied.Done
        → MayReplace to.entry.copying.out.is_forced
        (H.file host.old to.entry.copying.out.name.now)) }
    ensures refused { IfOk result (λ copied. copied ≢ Copied.Done
        → KeepsFiles (H.file host.old) (H.file host.new)) }
    ensures failed { IfErr result (λ _. KeepsFiles (H.file host.old) (H.file host.new)) }
    ensures others { KeepsApart (H.apart host.old to.entry.copying.out.name.now)
        (H.file host.old) (H.file host.new) }
    ensures opened { H.opened host.new ≡ H.opened host.old }
{
    let HeldCopy { copying, held } = to;
    let mut flash = flash_of::<L>(alloc, blank, map, bytes);
    let length = match image_length(&mut flash, map, copying) {
        Ok(length) => length,
        Err(fault) => {
            notes.damaged(map, flash.bytes(), copying.image, copying.side);
            return Ok(Copied::Refused(fault));
        }
    };
    let at = map.slot_start(copying.image, copying.side) as usize;
    let file = HeldFile {
        file: copying.out,
        held,
    };
    replace(alloc, file, &flash.bytes()[at..at + length], host)?;
    Ok(Copied::Done)
}

/// The length in bytes of the image that the slot to copy begins with, or the first check that
/// fails. The flash has power.
fn image_length<F: Flash>(
    flash: &mut F,
    map: &SectorMap,
    copying: Copying<'_>,
) -> Result<usize, ImageError>
    requires laid_out { IsLaidOut map.now (F.chip flash.old) }
    requires there { copying.image < map.now.images }
    requires on { (F.chip flash.old).is_on ≡ true }
    ensures same { F.chip flash.new ≡ F.chip flash.old }
    ensures image { IfOk result (λ long. IsImageOf
        (slot_to_copy copying.entry map.now (F.chip flash.old))
        (slice_range (slot_to_copy copying.entry map.now (F.chip flash.old)) 0 long)) }
    ensures fits { IfOk result (λ long.
        long ≤ length (slot_to_copy copying.entry map.now (F.chip flash.old))) }
    ensures fault { IfErr result
        (IsFrontFault (slot_to_copy copying.entry map.now (F.chip flash.old))) }
{
    match describe_slot(flash, map, copying.image, copying.side) {
        Ok(description) => Ok(description.length as usize),
        Err(SlotError::Image(fault)) => Err(fault),
        Err(SlotError::Flash(_) | SlotError::NoMemory) => unreachable!(),
    }
}

/// Writes the result of copying to `out`. Doesn't allocate for `Done`.
fn tell_copied<O: Write>(alloc: Global, copied: Copied, out: &mut O) -> Result<Answer, Refusal>
    ensures told { IfOk result (λ answer.
        AnswersCopied answer copied (O.contents out.old) (O.contents out.new)) }
    ensures late { copied ≡ Copied.Done → IfErr result (λ refusal. refusal ≡ Refusal.CannotWrite) }
{
    match copied {
        Copied::Done => {
            tell(b"done\n", out)?;
            Ok(Answer::Done)
        }
        Copied::Refused(fault) => {
            let Ok(text) = fault_text(alloc, fault) else {
                return Err(Refusal::NoMemory);
            };
            tell(text.as_bytes(), out)?;
            Ok(Answer::Refused)
        }
    }
}

/// The line for a slot without an image: the number and the name of the first check that fails.
fn fault_text(alloc: Global, fault: ImageError) -> Result<String, AllocError>
    ensures { IfOk result (λ text. string_bytes text
        ≡ refused_text (code_of fault) (name_of fault)) }
{
    refused_text(alloc, fault.code(), fault.name())
}
