//! Explains why a device file, an image or a manifest can't be made, and which body of an image may be
//! another than was meant.

use crate::Result;
use crate::device_files::{OPTION_NAMES, explain_sizes};
use crate::texts::Images;
use command_line::{NewComponent, NewDevice, NewImage, NewManifest};
use common::limits::{MOST_ALTERNATIVES, MOST_DEPENDENCIES, MOST_GROUPS};
use device_texts::{DeviceFile, NoteList};
use host::Source;
use image_header::{ACCEPTED_FLAGS, HEADER_LENGTH, Header, HeaderError};
use sector_map::SectorMap;

/// Adds that a body is empty, or that it is a file of a format that a device doesn't run.
pub fn explain_body(notes: &mut NoteList, body: Source<'_>, bytes: &[u8]) -> Result {
    let why = match bytes {
        [] => "is empty: the image has no code",
        [0x7f, b'E', b'L', b'F', ..] => {
            "is an ELF file: a device runs the bytes of the body as they are, such as `objcopy -O \
             binary` makes them"
        }
        bytes if begins_as_image(bytes) => {
            "begins as an image does: the new image has its header before that of the body"
        }
        _ => return Ok(()),
    };
    notes.add(format_args!("{body} {why}"))
}

/// Whether the bytes begin with the header of an image, also one that isn't accepted.
fn begins_as_image(bytes: &[u8]) -> bool {
    !matches!(
        Header::read(bytes),
        Err(HeaderError::Short | HeaderError::BadMagic)
    )
}

/// Adds which sizes in the arguments of `make-device` make no map.
pub fn explain_new_device(notes: &mut NoteList, asked: &NewDevice<'_>) -> Result {
    let (sector, sectors) = (asked.sector_size, asked.sectors.as_slice());
    match SectorMap::new(sector, sectors) {
        Ok(_) => Ok(()),
        Err(fault) => explain_sizes(notes, OPTION_NAMES, sector, sectors, fault),
    }
}

/// Adds which values in the arguments of `make-image` no image can have, by the first check that
/// fails.
pub fn explain_new_image(notes: &mut NoteList, asked: &NewImage) -> Result {
    match asked.header_size {
        Some(size) if usize::from(size) < HEADER_LENGTH => {
            return notes.add(format_args!(
                "`--header-size` is {size}, and a header has {HEADER_LENGTH} bytes at least"
            ));
        }
        _ => {}
    }
    let flags = asked.flags.unwrap_or(0);
    let others = flags & !ACCEPTED_FLAGS;
    if others != 0 {
        return notes.add(format_args!(
            "`--flags` is {flags}, which is 0x{flags:x}; 0x{others:x} of them aren't accepted, and \
             0x{ACCEPTED_FLAGS:x} are"
        ));
    }
    let count = asked.dependencies.len();
    if count > MOST_DEPENDENCIES {
        return notes.add(format_args!(
            "there are {count} dependencies, and an image has {MOST_DEPENDENCIES} at most"
        ));
    }
    explain_groups(notes, asked)
}

/// Adds that an image would have too many groups, or a group with too many alternatives.
fn explain_groups(notes: &mut NoteList, asked: &NewImage) -> Result {
    let count = asked.groups.len();
    if count > MOST_GROUPS {
        notes.add(format_args!(
            "there are {count} `--needs-one`, and an image has {MOST_GROUPS} at most"
        ))?;
    }
    for (place, group) in asked.groups.as_slice().iter().enumerate() {
        let (number, count) = (place.saturating_add(1), group.len());
        if count > MOST_ALTERNATIVES {
            notes.add(format_args!(
                "`--needs-one` number {number} names {count} images, and may name 1 to \
                 {MOST_ALTERNATIVES}"
            ))?;
        }
    }
    Ok(())
}

/// Adds which files in the arguments of `make-manifest` can't be in a manifest for the device: a
/// file for an image that the device doesn't have, or for the image of an earlier file.
pub fn explain_components(
    notes: &mut NoteList,
    device: &DeviceFile,
    asked: &NewManifest<'_>,
) -> Result {
    let components = asked.components.as_slice();
    for (place, component) in components.iter().enumerate() {
        let before = components.get(..place).unwrap_or_default();
        explain_component(notes, device, before, component)?;
    }
    Ok(())
}

/// Adds what is wrong with the image number of a file, which follows the files `before`.
fn explain_component(
    notes: &mut NoteList,
    device: &DeviceFile,
    before: &[NewComponent<'_>],
    component: &NewComponent<'_>,
) -> Result {
    let (file, image) = (Source::named(component.file), component.image);
    let images = device.map.images;
    if image >= images {
        let all = Images(usize::from(images));
        notes.add(format_args!("{file} is for image {image}, and the device has {all}"))?;
    }
    for other in before {
        if other.image == image {
            let other = Source::named(other.file);
            notes.add(format_args!("{file} is for image {image}, as {other} is"))?;
        }
    }
    Ok(())
}
