//! Explains why a command refuses an order.

use crate::Result;
use crate::device_files::explain_device;
use crate::image_notes::explain_bytes;
use crate::lines::{explain_line, explain_report_line, explain_table_line};
use crate::needs::explain_running;
use crate::scripts::{explain_place, explain_script_line};
use crate::texts::Images;
use command_line::{DeviceOrder, Order, ReadOrder};
use device_texts::NoteList;
use host::{Refusal, Source, SourceFault, SourceRefusal, WrongLength};
use reports::Table;
use std::alloc::Global;
use std::io;
use std::io::ErrorKind;

/// What a fleet begins with.
const FLEET: &str =
    "a fleet begins with a line `device NAME`; a NAME is 1 to 255 visible characters of ASCII";

/// What lines a summary has.
const SUMMARY: &str =
    "a summary has lines `COUNT FIRST KEY` as `plan --summary` prints them, sorted by the bytes of \
     KEY; the counts of a KEY add up to less than 2^64";

/// Which outputs of sweeps can be merged.
const OUTPUTS: &str =
    "outputs can be merged if `sweep` printed them for the same device, script and images";

/// Adds why the command of an order ended with this refusal. JSON values are in memory of `alloc`.
pub fn explain_refusal(
    notes: &mut NoteList,
    alloc: Global,
    order: &Order<'_>,
    refusal: &Refusal,
) -> Result {
    match refusal {
        Refusal::TableLine(bad) => explain_table_line(notes, bad),
        Refusal::ReportLine(bad) => explain_report_line(notes, bad),
        Refusal::FleetLine => notes.add(FLEET),
        Refusal::NotValid(table) => explain_running(notes, table),
        Refusal::DeviceFile(file) => {
            let device = Source::named(&file.name);
            notes.add(format_args!("{device} is no device file:"))?;
            explain_device(notes, alloc, &file.text)
        }
        Refusal::ScriptLine(bad) => explain_script_line(notes, bad),
        Refusal::OfSource(refused) => explain_source(notes, order, refused),
        Refusal::FlashFile(error) => explain_flash(notes, order, *error),
        Refusal::FlashInUse => explain_lock(notes, flash_name(order)),
        Refusal::ImageInUse => explain_lock(notes, image_name(order)),
        Refusal::FlashSize(length) => explain_flash_size(notes, flash_name(order), *length),
        Refusal::ImageCount(images) => explain_count(notes, *images),
        Refusal::NoImage { images, .. } if !matches!(order, Order::Plan(_)) => {
            explain_count(notes, *images)
        }
        Refusal::ImageTooBig { image, most } => {
            notes.add(format_args!("the slot of image {image} has {most} bytes"))
        }
        _ => Ok(()),
    }
}

/// Adds how many images the device has.
fn explain_count(notes: &mut NoteList, images: u8) -> Result {
    let all = Images(usize::from(images));
    notes.add(format_args!("the device has {all}"))
}

/// Adds why a source is refused: the system's reason, the first script line that names a file which
/// can't be read, how to replace a file that isn't an image, why a requested file is no image, and
/// the wrong line of a summary.
fn explain_source(notes: &mut NoteList, order: &Order<'_>, refused: &SourceRefusal) -> Result {
    let source = refused.source();
    match &refused.fault {
        SourceFault::CannotRead(error) => {
            explain_error(notes, source, *error)?;
            match &refused.script {
                Some(script) => explain_place(notes, source, script),
                None => Ok(()),
            }
        }
        SourceFault::CannotReplace(Some(error)) => explain_error(notes, source, *error),
        SourceFault::NoImage(bytes) => explain_bytes(notes, bytes),
        SourceFault::NoOldImage => match order {
            Order::MakeImage { body, .. } => {
                let body = Source::named(body);
                notes.add(format_args!(
                    "OUT comes first, then BODY: `--force` replaces {source} by an image of {body}"
                ))
            }
            _ => notes.add(format_args!("`--force` replaces {source} by the image")),
        },
        SourceFault::NoPicture => {
            notes.add(format_args!("`--force` replaces {source} by the picture"))
        }
        SourceFault::CannotMerge(bad) => {
            let is_plan = matches!(order, Order::Plan(_));
            explain_line(notes, bad, if is_plan { SUMMARY } else { OUTPUTS })
        }
        SourceFault::CannotReplace(None) | SourceFault::TooLong(_) => Ok(()),
    }
}

/// Adds the system's reason why a file can't be read or written.
fn explain_error(notes: &mut NoteList, source: Source<'_>, error: io::Error) -> Result {
    notes.add(format_args!("{source}: {error}"))
}

/// Adds which file another program has locked, if the name is known.
fn explain_lock(notes: &mut NoteList, name: Option<&str>) -> Result {
    let Some(name) = name else {
        return Ok(());
    };
    let file = Source::File(name);
    notes.add(format_args!(
        "another program holds {file}, or is replacing it: one that writes it holds it alone"
    ))
}

/// Adds the system's reason why a flash file can't be made or written.
fn explain_flash(notes: &mut NoteList, order: &Order<'_>, error: io::Error) -> Result {
    match order {
        Order::Device(DeviceOrder::Run { flash, .. }) if is_read_only(error) => {
            let file = Source::File(flash);
            notes.add(format_args!(
                "{file} can't be opened for writing: its permissions, or those of its file system, \
                 allow only reading"
            ))
        }
        Order::Device(DeviceOrder::Run { flash, .. } | DeviceOrder::Provision { flash, .. }) => {
            explain_error(notes, Source::named(flash), error)
        }
        _ => Ok(()),
    }
}

/// Whether the system's reason is that a file may only be read.
fn is_read_only(error: io::Error) -> bool {
    matches!(
        error.kind(),
        ErrorKind::PermissionDenied | ErrorKind::ReadOnlyFilesystem
    )
}

/// Adds the length of the flash of this name, if it is known, and the length that it has to have.
fn explain_flash_size(notes: &mut NoteList, name: Option<&str>, length: WrongLength) -> Result {
    let WrongLength { found, wanted } = length;
    let Some(name) = name else {
        return Ok(());
    };
    let source = Source::named(name);
    match found {
        Some(found) if source.is_standard_input() && found > u64::from(wanted) => {
            notes.add(format_args!(
                "{source} has more bytes than the flash of the device, which has {wanted}"
            ))
        }
        Some(found) => notes.add(format_args!(
            "{source} has {found} bytes, and the flash of the device has {wanted}"
        )),
        None => notes.add(format_args!("the flash of the device has {wanted} bytes")),
    }
}

/// The name of the flash file of an order, if it has one.
fn flash_name<'a>(order: &Order<'a>) -> Option<&'a str> {
    match order {
        Order::Device(DeviceOrder::Provision { flash, .. } | DeviceOrder::Run { flash, .. })
        | Order::Read(ReadOrder::Show { flash, .. } | ReadOrder::Slots { flash, .. })
        | Order::Extract { flash, .. } => Some(*flash),
        Order::MakeManifest { manifest, .. } => manifest.precursor,
        _ => None,
    }
}

/// The name of the image file that an order makes, if it makes one.
fn image_name<'a>(order: &Order<'a>) -> Option<&'a str> {
    match order {
        Order::MakeImage { image: file, .. } | Order::Extract { out: file, .. } => Some(file.name),
        _ => None,
    }
}
