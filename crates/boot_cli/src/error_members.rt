//! Adds the members of the object of an error.

use device_texts::json::{Object, put_number, put_text};
use host::{Refusal, ScriptFault, SourceFault, SourceRefusal, WrongLength};
use std::alloc::{AllocError, Global};
use std::fmt::Display;

/// Adds what kind of error a refusal is, the text of its error line, and what else is known of it.
pub fn put_error(alloc: Global, object: &mut Object, refusal: &Refusal) -> Result<(), AllocError> {
    put_text(alloc, object, "kind", kind_of(refusal))?;
    put_display(alloc, object, "text", refusal)?;
    match refusal {
        Refusal::TableLine(bad) | Refusal::ReportLine(bad) => put_line(alloc, object, bad.line),
        Refusal::FleetLine => put_line(alloc, object, 1),
        Refusal::ScriptLine(bad) => put_script_line(alloc, object, bad.line, bad.fault),
        Refusal::RequestedTwice(image) => put_image(alloc, object, *image),
        Refusal::ImageCount(images) => put_number(alloc, object, "images", u64::from(*images)),
        Refusal::NoImage { image, images } => {
            put_image(alloc, object, *image)?;
            put_number(alloc, object, "images", u64::from(*images))
        }
        Refusal::ImageTooBig { image, most } => {
            put_image(alloc, object, *image)?;
            put_number(alloc, object, "most", u64::from(*most))
        }
        Refusal::FlashSize(length) => put_lengths(alloc, object, *length),
        Refusal::FlashFile(error) => put_display(alloc, object, "system", error),
        Refusal::OfSource(refused) => put_source(alloc, object, refused),
        _ => Ok(()),
    }
}

/// The kind of an error.
fn kind_of(refusal: &Refusal) -> &'static str {
    match refusal {
        Refusal::TableLine(_) => "table_line",
        Refusal::ReportLine(_) => "report_line",
        Refusal::FleetLine => "fleet_line",
        Refusal::RequestedTwice(_) => "requested_twice",
        Refusal::NotValid(_) => "not_valid",
        Refusal::DeviceFile(_) => "device_file",
        Refusal::NotMade => "not_made",
        Refusal::FlashSize(_) => "flash_size",
        Refusal::FlashInUse => "flash_in_use",
        Refusal::FlashIsInput => "flash_is_input",
        Refusal::ImageIsInput => "image_is_input",
        Refusal::PictureIsInput => "picture_is_input",
        Refusal::ImageInUse => "image_in_use",
        Refusal::ImageCount(_) => "image_count",
        Refusal::NoImage { .. } => "no_image",
        Refusal::ImageTooBig { .. } => "image_too_big",
        Refusal::ScriptLine(_) => "script_line",
        Refusal::OfSource(refused) => kind_of_fault(&refused.fault),
        Refusal::NotOfCore => "not_of_core",
        Refusal::NoMemory => "memory",
        Refusal::FlashFile(_) => "flash_file",
        Refusal::CannotWrite => "output",
    }
}

/// The kind of a fault of a file or of standard input.
fn kind_of_fault(fault: &SourceFault) -> &'static str {
    match fault {
        SourceFault::CannotRead(_) => "cannot_read",
        SourceFault::TooLong(_) => "too_long",
        SourceFault::CannotReplace(_) => "cannot_write",
        SourceFault::NoImage(_) | SourceFault::NoOldImage => "not_an_image",
        SourceFault::NoPicture => "not_a_picture",
        SourceFault::CannotMerge(_) => "cannot_merge",
    }
}

/// Adds the name of a file or of standard input, and what is known of its fault.
fn put_source(
    alloc: Global,
    object: &mut Object,
    refused: &SourceRefusal,
) -> Result<(), AllocError> {
    put_text(alloc, object, "input", refused.name.as_str())?;
    match &refused.fault {
        SourceFault::CannotRead(error) | SourceFault::CannotReplace(Some(error)) => {
            put_display(alloc, object, "system", error)
        }
        SourceFault::TooLong(most) => put_number(alloc, object, "most", u64::from(*most)),
        SourceFault::CannotMerge(bad) => put_line(alloc, object, bad.line),
        SourceFault::CannotReplace(None)
        | SourceFault::NoImage(_)
        | SourceFault::NoOldImage
        | SourceFault::NoPicture => Ok(()),
    }
}

/// Adds the number of a line of a script, why it can't be run, and the length of the file that lacks
/// the part that it names.
fn put_script_line(
    alloc: Global,
    object: &mut Object,
    line: usize,
    fault: ScriptFault,
) -> Result<(), AllocError> {
    put_line(alloc, object, line)?;
    let word = match fault {
        ScriptFault::Spelling => "spelling",
        ScriptFault::Order => "order",
        ScriptFault::Cut => "cut",
        ScriptFault::TooLong => "too_long",
        ScriptFault::InputRead => "input_read",
        ScriptFault::PartNumbers => "part_numbers",
        ScriptFault::NoPart(_) => "no_part",
    };
    put_text(alloc, object, "fault", word)?;
    match fault {
        ScriptFault::NoPart(Some(length)) => put_number(alloc, object, "length", length),
        _ => Ok(()),
    }
}

/// Adds the length of a flash, if it is known, and the length that it has to have, in bytes.
fn put_lengths(alloc: Global, object: &mut Object, length: WrongLength) -> Result<(), AllocError> {
    if let Some(found) = length.found {
        put_number(alloc, object, "length", found)?;
    }
    put_number(alloc, object, "wanted", u64::from(length.wanted))
}

/// Adds the number of a line, from 1.
fn put_line(alloc: Global, object: &mut Object, line: usize) -> Result<(), AllocError> {
    put_number(alloc, object, "line", line as u64)
}

/// Adds the number of an image.
fn put_image(alloc: Global, object: &mut Object, image: u8) -> Result<(), AllocError> {
    put_number(alloc, object, "image", u64::from(image))
}

/// Adds the text of a value.
fn put_display<T: Display>(
    alloc: Global,
    object: &mut Object,
    key: &str,
    value: &T,
) -> Result<(), AllocError> {
    let mut text = String::new(alloc);
    write!(text, "{value}")?;
    put_text(alloc, object, key, &text)
}
