//! `bootswap provision`: makes the flash of a device, and writes its file.
ghost use Rattle.std.specs.Prelude.{◌≡◌, ◌≢◌, ◌+◌, ◌<◌, ◌≤◌, [], IfErr, IfOk, IfSome, OnOk, length, slice_get, string_bytes, true};
ghost use Rattle.std.specs.Io.KnownBytes.{Appends};
ghost use Rattle.flash_model.specs.Blanks.{IsBlankOf};
ghost use Rattle.flash_model.specs.Torn.{replaced};
ghost use Rattle.flash_model.specs.Units.{are_erased};
ghost use Rattle.device_texts.specs.FlashOf.{IsFlashOf};
ghost use Rattle.device_texts.specs.ReplyText.{refused_fault_text};
ghost use Rattle.host.specs.Input.{IsKnownAs, IsNamed, KeepsFiles};
ghost use Rattle.host.specs.Inputs.{names_of};
ghost use Rattle.host.specs.Doings.{IsApartFrom, KeepsApart, KeepsSource};
ghost use Rattle.host.specs.Status.{EndsUnmade};
ghost use Rattle.device_commands.specs.ProvisionEnd.{AnswersMade, AnswersProvision, AreOthers, EndsMade, HoldsFlash, KeepsWords, MayReplace, ReadsImages, done_text, new_flash};

use device_texts::{flash_of, refused_fault_text, write_all};
use host::{Answer, FlashFault, Host, MOST_FILE, Refusal, Replaced, Source, WrongLength};
use inputs::{Notes, read_device};
use machine::Fault;
use sector_map::{SectorMap, Side};
use std::alloc::{AllocError, Global};
use std::io;
use std::io::{ErrorKind, Write};
use std::marker::Brand;
use std::sync::ledger::{Blank, Ledger};

/// The result of provisioning a flash.
#[derive(Clone, Copy)]
pub enum Provisioned {
    /// The flash is a device's, and its file holds the flash.
    Done,
    /// The flash can't be a device's, for this reason. No file was written.
    Refused(Fault),
}

/// A flash file to make.
#[derive(Clone, Copy)]
pub struct NewFlash<'a> {
    /// The name as the arguments give it.
    pub name: &'a str,
    /// Whether it is replaced whatever it holds.
    pub is_forced: bool,
}

/// Makes the flash of a device with an image at the front of each primary slot, provisions it, and
/// makes or replaces its file. Writes to `out` that it is done, or why it is refused.
///
/// The device file and the images are read from `host`, and handed to `notes`. All bytes are in
/// memory of `alloc`.
///
/// Everything is checked before the file is written. The flash file can't be one of the inputs,
/// which never change. A file that exists is replaced only if it is empty, erased or as long as the
/// flash, or `flash` is forced. It changes only if the answer is `Done` or can't be written. But a
/// block device may hold a part of the flash after a failed write.
///
/// # Errors
/// `DeviceFile` or `OfSource` for an input that is wrong or can't be read, and the errors of
/// [`read_images`]. `FlashIsInput`, `FlashInUse`, `FlashSize` or `FlashFile` for a flash file that
/// can't be made or may not be replaced. `NoMemory` if memory runs out. `CannotWrite` if the answer
/// can't be written.
pub fn run_provision<H: Host, O: Write, N: Notes>(
    alloc: Global,
    device: Source<'_>,
    flash: NewFlash<'_>,
    images: &[&str],
    host: &mut H,
    out: &mut O,
    notes: &mut N,
) -> Result<Answer, Refusal>
    ensures answers { IfOk result (λ answer.
        AnswersProvision answer flash.entry device.entry (names_of images.now)
        (H.input host.old) (H.file host.old) (H.file host.new flash.entry.name.now)
        (O.contents out.old) (O.contents out.new)) }
    ensures kept { EndsUnmade result → KeepsFiles (H.file host.old) (H.file host.new) }
    ensures device { KeepsSource device.entry (H.file host.old) (H.file host.new) }
    ensures images { KeepsWords images.now (H.file host.old) (H.file host.new) }
    ensures opened { H.opened host.new ≡ H.opened host.old }
{
    let source = device;
    let Some(device) = read_device(alloc, source, host, out, notes)? else {
        return Ok(Answer::Refused);
    };
    let bytes = read_images(alloc, &device.map, images, host, notes)?;
    let held = host.hold_output(alloc, flash.name, Replaced::FlashFile);
    refuse_inputs(host, flash.name, source, images)?;
    let (blank, file) = (Blank::new(2), HeldFlash { flash, held });
    let made = make_flash::<Brand, _>(alloc, blank, &device.map, bytes, file, host);
    write_outcome(alloc, made?, out)
}

/// The flash file to make, as it was looked up.
#[derive(Clone, Copy)]
struct HeldFlash<'a> {
    flash: NewFlash<'a>,
    /// Why it can't be made or replaced, if it can't.
    held: Result<(), FlashFault>,
}

/// Reads images, and returns the bytes of a flash with each at the front of its primary slot. All
/// other bytes are erased. Each image is handed to `notes`.
///
/// # Errors
/// `ImageCount` if the device has another number of images. `ImageTooBig` with the number of an
/// image that is longer than its slot. `OfSource` if an image can't be read. `NoMemory` if memory
/// runs out. No file changes.
pub fn read_images<H: Host, N: Notes>(
    alloc: Global,
    map: &SectorMap,
    images: &[&str],
    host: &mut H,
    notes: &mut N,
) -> Result<Vec<u8>, Refusal>
    ensures read { IfOk result (λ bytes. ReadsImages map.now (names_of images.now)
        (H.input host.old) (H.file host.old) bytes.items) }
    ensures whole { IfOk result (λ bytes. IsFlashOf map.now bytes.items) }
    ensures kept { KeepsFiles (H.file host.old) (H.file host.new) }
    ensures opened { H.opened host.new ≡ H.opened host.old }
{
    if images.len() != usize::from(map.images) {
        return Err(Refusal::ImageCount(map.images));
    }
    let Ok(mut bytes) = erased(alloc, map) else {
        return Err(Refusal::NoMemory);
    };
    for image in 0..map.images {
        let source = source_at(images, image);
        let most = map.slot_length(image);
        let file = source.read_start(alloc, host, most)?;
        if file.len() > most as usize {
            return Err(Refusal::ImageTooBig { image, most });
        }
        notes.image(source, &file);
        put(&mut bytes, map.slot_start(image, Side::Primary), &file);
    }
    Ok(bytes)
}

/// The bytes of an erased flash.
fn erased(alloc: Global, map: &SectorMap) -> Result<Vec<u8>, AllocError>
    ensures { IfOk result (λ bytes. bytes.items ≡ new_flash map.now []) }
{
    vec![in alloc; 0xff; map.bytes_in_all() as usize]
}

/// The input that the argument at this index names.
fn source_at<'a>(words: &[&'a str], place: u8) -> Source<'a>
    requires { place < length words.now }
    ensures { IfSome (slice_get words.now place) (λ word. IsNamed word.now result) }
{
    Source::named(words[usize::from(place)])
}

/// Replaces the bytes from `at` on by those of a file.
fn put(bytes: &mut Vec<u8>, at: u32, file: &[u8])
    requires { at + length file.now ≤ length bytes.old.items }
    ensures { bytes.new.items ≡ replaced at file.now bytes.old.items }
{
    let at = at as usize;
    bytes[at..at + file.len()].copy_from_slice(file);
}

/// Refuses a flash file that is one of the inputs.
fn refuse_inputs<H: Host>(
    host: &H,
    flash: &str,
    device: Source<'_>,
    images: &[&str],
) -> Result<(), Refusal>
    ensures device { OnOk result (IsApartFrom (H.apart host.now) flash.now device.entry) }
    ensures images { OnOk result (AreOthers (H.apart host.now flash.now) images.now) }
{
    refuse_input(host, flash, device)?;
    for image in images {
        refuse_input(host, flash, Source::named(image))?;
    }
    Ok(())
}

/// Refuses a flash file that is this input, by any name.
fn refuse_input<H: Host>(host: &H, flash: &str, source: Source<'_>) -> Result<(), Refusal>
    ensures { OnOk result (IsApartFrom (H.apart host.now) flash.now source.entry) }
{
    match source.is_file(host, flash) {
        Ok(false) => Ok(()),
        Ok(true) => Err(Refusal::FlashIsInput),
        Err(error) => Err(Refusal::FlashFile(error)),
    }
}

/// Provisions the flash of these bytes, and then makes or replaces its file.
fn make_flash<L: Ledger, H: Host>(
    alloc: Global,
    blank: Blank,
    map: &SectorMap,
    bytes: Vec<u8>,
    file: HeldFlash<'_>,
    host: &mut H,
) -> Result<Provisioned, Refusal>
    requires blank { IsBlankOf blank L.name L.parts 2 }
    requires whole { IsFlashOf map.now bytes.items }
    ensures made { IfOk result (λ made. EndsMade made map.now bytes.items
        file.entry.flash.is_forced (H.file host.old file.entry.flash.name.now)
        (H.file host.new file.entry.flash.name.now)) }
    ensures refused { IfOk result (λ made. made ≢ Provisioned.Done
        → KeepsFiles (H.file host.old) (H.file host.new)) }
    ensures failed { IfErr result (λ _. KeepsFiles (H.file host.old) (H.file host.new)) }
    ensures others { KeepsApart (H.apart host.old file.entry.flash.name.now)
        (H.file host.old) (H.file host.new) }
    ensures opened { H.opened host.new ≡ H.opened host.old }
{
    let mut flash = flash_of::<L>(alloc, blank, map, bytes);
    if let Err(fault) = boot_core::provision(&mut flash, map) {
        return Ok(Provisioned::Refused(fault));
    }
    replace(alloc, file, flash.bytes(), host)?;
    Ok(Provisioned::Done)
}

/// Makes the file of a flash of these bytes, or replaces it.
fn replace<H: Host>(
    alloc: Global,
    file: HeldFlash<'_>,
    bytes: &[u8],
    host: &mut H,
) -> Result<(), Refusal>
    ensures done { OnOk result (IsKnownAs (H.file host.new file.entry.flash.name.now) bytes.now) }
    ensures replaces { OnOk result (MayReplace file.entry.flash.is_forced (length bytes.now)
        (H.file host.old file.entry.flash.name.now)) }
    ensures failed { IfErr result (λ _. KeepsFiles (H.file host.old) (H.file host.new)) }
    ensures others { KeepsApart (H.apart host.old file.entry.flash.name.now)
        (H.file host.old) (H.file host.new) }
    ensures opened { H.opened host.new ≡ H.opened host.old }
{
    let HeldFlash { flash, held } = file;
    if let Err(fault) = held {
        return Err(refusal(&*host, flash.name, bytes.len(), fault));
    }
    if !flash.is_forced {
        refuse_other(alloc, &*host, flash.name, bytes.len())?;
    }
    match host.replace_file(alloc, flash.name, bytes, Replaced::FlashFile) {
        Ok(()) => Ok(()),
        Err(fault) => Err(refusal(&*host, flash.name, bytes.len(), fault)),
    }
}

/// The refusal if a flash file of `length` bytes can't be made or replaced.
fn refusal<H: Host>(host: &H, name: &str, length: usize, fault: FlashFault) -> Refusal {
    match fault {
        FlashFault::InUse => Refusal::FlashInUse,
        FlashFault::WrongLength => wrong_length(host.length_of(name).ok(), length),
        FlashFault::NoMemory => Refusal::NoMemory,
        FlashFault::OnlyReadable(error) | FlashFault::Failed(error) => Refusal::FlashFile(error),
    }
}

/// The refusal of a file with `found` bytes, where the flash has `length`, which is below 2^32.
fn wrong_length(found: Option<u64>, length: usize) -> Refusal {
    Refusal::FlashSize(WrongLength {
        found,
        wanted: u32::try_from(length).unwrap_or(u32::MAX),
    })
}

/// Refuses a file that exists, unless it is empty, erased or `length` bytes long.
fn refuse_other<H: Host>(alloc: Global, host: &H, name: &str, length: usize) -> Result<(), Refusal>
    ensures { OnOk result (HoldsFlash length (H.file host.now name.now)) }
{
    let found = match host.length_of(name) {
        Ok(count) if count == length as u64 => return Ok(()),
        Err(error) if error.kind() == ErrorKind::NotFound => return Ok(()),
        Ok(count) => count,
        Err(error) => return Err(Refusal::FlashFile(error)),
    };
    match holds_erased(alloc, host, name) {
        Ok(true) => Ok(()),
        Ok(false) => Err(wrong_length(Some(found), length)),
        Err(error) => Err(Source::File(name).refusal(alloc, error)),
    }
}

/// Whether a plain file is empty, or each of its bytes is erased. Of any other file one byte is read.
fn holds_erased<H: Host>(alloc: Global, host: &H, name: &str) -> io::Result<bool>
    ensures { IfOk result (λ is. is ≡ true
        → IfSome (H.file host.now name.now) (λ held. are_erased held ≡ true)) }
{
    if !host.is_plain(name)? || !are_erased(&host.read_again(alloc, name, 0)?) {
        return Ok(false);
    }
    let bytes = host.read_again(alloc, name, MOST_FILE)?;
    Ok(bytes.len() <= MOST_FILE as usize && are_erased(&bytes))
}

/// Whether each of these bytes is erased.
fn are_erased(bytes: &[u8]) -> bool
    ensures { result ≡ are_erased bytes.now }
{
    bytes.iter().all(|byte| *byte == 0xff)
}

/// Writes the result of provisioning a flash to `out`. Doesn't allocate for `Done`.
fn write_outcome<O: Write>(alloc: Global, made: Provisioned, out: &mut O) -> Result<Answer, Refusal>
    ensures written { IfOk result (λ answer.
        AnswersMade answer made (O.contents out.old) (O.contents out.new)) }
    ensures late { made ≡ Provisioned.Done
        → IfErr result (λ refusal. refusal ≡ Refusal.CannotWrite) }
{
    match made {
        Provisioned::Done => write_answer(b"done\n", Answer::Done, out),
        Provisioned::Refused(fault) => write_refused(alloc, fault, out),
    }
}

/// Writes to `out` why a flash can't be provisioned, and returns `Refused`.
///
/// # Errors
/// `NoMemory` if memory runs out for the text. `CannotWrite` if a write fails.
pub fn write_refused<O: Write>(alloc: Global, fault: Fault, out: &mut O) -> Result<Answer, Refusal>
    ensures { IfOk result (λ answer. (answer ≡ Answer.Refused)
        × Appends (O.contents out.old) (O.contents out.new) (refused_fault_text fault)) }
{
    let Ok(text) = refused_fault_text(alloc, fault) else {
        return Err(Refusal::NoMemory);
    };
    write_answer(text.as_bytes(), Answer::Refused, out)
}

/// Writes the text of an answer to `out`, and returns the answer.
fn write_answer<O: Write>(text: &[u8], answer: Answer, out: &mut O) -> Result<Answer, Refusal>
    ensures written { IfOk result (λ written. (written ≡ answer)
        × Appends (O.contents out.old) (O.contents out.new) text.now) }
    ensures unwritten { IfErr result (λ refusal. refusal ≡ Refusal.CannotWrite) }
{
    match write_all(out, text) {
        Ok(()) => Ok(answer),
        Err(_) => Err(Refusal::CannotWrite),
    }
}
