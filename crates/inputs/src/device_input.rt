//! Reads a device file, and the bytes of a device's flash.
ghost use Rattle.std.specs.Prelude.{◌≡◌, IfErr, IfOk, IsTrue, None, OnOk};
ghost use Rattle.std.specs.Io.KnownBytes.{Appends, Keeps};
ghost use Rattle.device_texts.specs.AnswerText.{map_refusal_text};
ghost use Rattle.device_texts.specs.FlashOf.{IsFlashOf};
ghost use Rattle.inputs.specs.DeviceInput.{GivesDeviceOrFault, OpensFlash, ReadsDevice};
ghost use Rattle.host.specs.Doings.{IsOpenedFor};
ghost use Rattle.host.specs.Input.{Gives, IsKnownAs, KeepsFiles, KeepsOthers};
ghost use Rattle.host.specs.ScriptLines.{script_line};

use crate::notes::Notes;
use device_texts::{DeviceFault, DeviceFile, map_refusal_text, write_all};
use host::{Access, FlashFault, Host, MOST_JSON, Refusal, Source, SourceFault, WrongLength};
use sector_map::{MapError, SectorMap};
use std::alloc::Global;
use std::io::Write;

/// Reads a device file from `host` and returns its device. The bytes and their JSON value are in
/// memory of `alloc`.
///
/// Returns `None` if the sizes in the file make no map, after writing the reason to `out`. Hands the
/// file to `notes`.
///
/// # Errors
/// Nothing was written to `out`, except for `CannotWrite`, if the reason could not be written. The
/// others are those of [`device_or_fault`].
pub fn read_device<H: Host, O: Write, N: Notes>(
    alloc: Global,
    device: Source<'_>,
    host: &mut H,
    out: &mut O,
    notes: &mut N,
) -> Result<Option<DeviceFile>, Refusal>
    ensures read { IfOk result (λ read. ReadsDevice read device.entry
        (H.input host.old) (H.file host.old) (O.contents out.old) (O.contents out.new)) }
    ensures others { KeepsOthers device.entry (H.input host.old) (H.file host.old)
        (H.input host.new) (H.file host.new) }
    ensures files { KeepsFiles (H.file host.old) (H.file host.new) }
    ensures opened { H.opened host.new ≡ H.opened host.old }
{
    match device_or_fault(alloc, device, host)? {
        Ok(device) => {
            notes.device(&device);
            Ok(Some(device))
        }
        Err(bad) => {
            notes.bad_map(&bad);
            tell_map(alloc, bad.fault, out)?;
            Ok(None)
        }
    }
}

/// A device file whose sizes make no map.
#[derive(Drop)]
pub struct BadMap {
    /// The text of the file.
    pub text: Vec<u8>,
    /// Why its sizes make no map.
    pub fault: MapError,
}

/// Reads a device file from `host` and returns its device, or why the sizes in the file make no map.
/// The bytes and their JSON value are in memory of `alloc`.
///
/// # Errors
/// - `DeviceFile`, with the text, if the bytes are no device file, or more than [`MOST_JSON`];
/// - `OfSource` if the source can't be read;
/// - `NoMemory` if memory ran out.
pub fn device_or_fault<H: Host>(
    alloc: Global,
    device: Source<'_>,
    host: &mut H,
) -> Result<Result<DeviceFile, BadMap>, Refusal>
    ensures read { IfOk result (λ read.
        GivesDeviceOrFault read device.entry (H.input host.old) (H.file host.old)) }
    ensures unnamed { IfErr result (λ refusal. script_line refusal ≡ None) }
    ensures others { KeepsOthers device.entry (H.input host.old) (H.file host.old)
        (H.input host.new) (H.file host.new) }
    ensures files { KeepsFiles (H.file host.old) (H.file host.new) }
    ensures opened { H.opened host.new ≡ H.opened host.old }
{
    let bytes = device.read_start(alloc, host, MOST_JSON)?;
    if bytes.len() > MOST_JSON as usize {
        return Err(device.no_device_file(alloc, bytes));
    }
    match DeviceFile::read(alloc, &bytes) {
        Ok(device) => Ok(Ok(device)),
        Err(DeviceFault::Malformed) => Err(device.no_device_file(alloc, bytes)),
        Err(DeviceFault::NoMemory) => Err(Refusal::NoMemory),
        Err(DeviceFault::Map(fault)) => Ok(Err(BadMap { text: bytes, fault })),
    }
}

/// Writes to `out` why the sizes in a device file make no map.
fn tell_map<O: Write>(alloc: Global, fault: MapError, out: &mut O) -> Result<(), Refusal>
    ensures { IfOk result (λ _. Appends (O.contents out.old) (O.contents out.new)
        (map_refusal_text fault)) }
{
    let Ok(text) = map_refusal_text(alloc, fault) else {
        return Err(Refusal::NoMemory);
    };
    match write_all(out, text.as_bytes()) {
        Ok(()) => Ok(()),
        Err(_) => Err(Refusal::CannotWrite),
    }
}

/// Reads the bytes of a device's flash from `host` into memory of `alloc`: exactly the number that
/// the map says. If the flash is a file, it is opened for `access`, and the host keeps it open and
/// locked. For [`Access::WriteDurably`] the file and its name are on the medium before this
/// returns.
///
/// # Errors
/// No byte of the flash was changed:
/// - `FlashSize` if the flash doesn't have exactly that number of bytes;
/// - `FlashInUse` if another program uses the file;
/// - `OfSource` if it can't be opened or read;
/// - `FlashFile` if it can be read, and not be opened for the writes that `access` allows; or if the
///   sync for [`Access::WriteDurably`] failed;
/// - `NoMemory` if memory ran out.
pub fn read_flash<H: Host>(
    alloc: Global,
    flash: Source<'_>,
    map: &SectorMap,
    access: Access,
    host: &mut H,
) -> Result<Vec<u8>, Refusal>
    ensures bytes { IfOk result (λ bytes.
        Gives flash.entry (H.input host.old) (H.file host.old) bytes.items) }
    ensures whole { IfOk result (λ bytes. IsFlashOf map.now bytes.items) }
    ensures unnamed { IfErr result (λ refusal. script_line refusal ≡ None) }
    ensures others { KeepsOthers flash.entry (H.input host.old) (H.file host.old)
        (H.input host.new) (H.file host.new) }
    ensures files { KeepsFiles (H.file host.old) (H.file host.new) }
    ensures opened { IfOk result (λ _.
        OpensFlash access flash.entry (H.opened host.old) (H.opened host.new)) }
    ensures to_read { access ≡ Access.Read
        → (H.opened host.new).to_write ≡ (H.opened host.old).to_write }
    ensures sure { access ≡ Access.WriteDurably → OnOk result (IsTrue (H.synced host.new)) }
{
    let bytes = match flash {
        Source::StandardInput => flash.read_start(alloc, host, map.bytes_in_all())?,
        Source::File(name) => open_flash(alloc, name, map, access, host)?,
    };
    if bytes.len() != map.bytes_in_all() as usize {
        return Err(wrong_length(Some(bytes.len() as u64), map));
    }
    if access == Access::WriteDurably
        && let Err(error) = host.sync_flash()
    {
        return Err(Refusal::FlashFile(error));
    }
    Ok(bytes)
}

/// Opens and locks the file of a device's flash, and returns its bytes.
fn open_flash<H: Host>(
    alloc: Global,
    name: &str,
    map: &SectorMap,
    access: Access,
    host: &mut H,
) -> Result<Vec<u8>, Refusal>
    ensures bytes { IfOk result (λ bytes. IsKnownAs (H.file host.old name.entry.now) bytes.items) }
    ensures files { KeepsFiles (H.file host.old) (H.file host.new) }
    ensures input { Keeps (H.input host.old) (H.input host.new) }
    ensures opened { OnOk result (IsOpenedFor access (H.opened host.old) (H.opened host.new)) }
    ensures unopened { IfErr result (λ _. H.opened host.new ≡ H.opened host.old) }
    ensures unnamed { IfErr result (λ refusal. script_line refusal ≡ None) }
{
    match host.open_flash(alloc, name, u64::from(map.bytes_in_all()), access) {
        Ok(bytes) => Ok(bytes),
        Err(FlashFault::InUse) => Err(Refusal::FlashInUse),
        Err(FlashFault::WrongLength) => Err(wrong_length(host.length_of(name).ok(), map)),
        Err(FlashFault::NoMemory) => Err(Refusal::NoMemory),
        Err(FlashFault::OnlyReadable(error)) => Err(Refusal::FlashFile(error)),
        Err(FlashFault::Failed(error)) => {
            Err(Source::File(name).refused(alloc, SourceFault::CannotRead(error)))
        }
    }
}

/// The refusal of a flash of `found` bytes for the device of this map.
fn wrong_length(found: Option<u64>, map: &SectorMap) -> Refusal
    ensures { script_line result ≡ None }
{
    Refusal::FlashSize(WrongLength {
        found,
        wanted: map.bytes_in_all(),
    })
}
