//! Predicts what a device and its boots decide about a manifest and its files, for its notes.

use crate::make_manifest::is_named;
use chooser::choose;
use command_line::NewComponent;
use decision::entry_of;
use device_texts::NoteList;
use image_reading::{Desc, ImageError};
use inputs::Intake;
use reports::{Reason, Request, Table};
use std::alloc::AllocError;
use validity::is_valid;
use version_order::Dependency;

/// Requests a file for an image of a table, if there is one.
pub fn request(table: &mut Option<Table>, image: u8, file: Result<Desc, ImageError>) {
    let request = match file {
        Ok(description) => Request::Entry(entry_of(description)),
        Err(_) => Request::Damaged,
    };
    let Some(table) = table else {
        return;
    };
    if let Some(row) = table.images.get_mut(usize::from(image)) {
        row.request = request;
    }
}

/// Adds to the notes why a device takes no manifest of this sequence number: it accepted a higher one,
/// or is on trial.
pub fn write_intake(
    notes: &mut NoteList,
    sequence: u32,
    intake: &Option<Intake>,
) -> Result<(), AllocError> {
    let Some(intake) = intake else {
        return Ok(());
    };
    let last = intake.sequence;
    if sequence < last {
        notes.add(format_args!(
            "the device accepted a manifest of sequence number {last}, and refuses a lower one"
        ))?;
    }
    if intake.is_on_trial {
        notes.add(
            "a set of images is on trial: the device takes no uploads until a boot ends the trial",
        )?;
    }
    Ok(())
}

/// Adds to the notes what a boot decides about the files: that it boots some on trial that are
/// requested permanently, and each file that it would refuse by this table.
pub fn write_decisions(
    notes: &mut NoteList,
    asked: &[NewComponent<'_>],
    table: &Option<Table>,
) -> Result<(), AllocError> {
    if asks_for_both(asked) {
        notes.add(
            "a boot tries these images as a set: those of --permanent revert too unless each is \
             confirmed",
        )?;
    }
    write_refusals(notes, asked, table)
}

/// Whether there are files of both kinds: for a test, and permanent.
fn asks_for_both(asked: &[NewComponent<'_>]) -> bool {
    asked.iter().any(|component| component.permanent)
        && asked.iter().any(|component| !component.permanent)
}

/// Adds to the notes one for each file that a boot by this table would refuse, with the reason.
fn write_refusals(
    notes: &mut NoteList,
    asked: &[NewComponent<'_>],
    table: &Option<Table>,
) -> Result<(), AllocError> {
    let Some(table) = table else {
        return Ok(());
    };
    if !is_valid(table) {
        return Ok(());
    }
    let report = choose(table);
    for refusal in report.refusals.as_slice() {
        if is_told(asked, refusal.image, &refusal.reason) {
            let (image, reason) = (refusal.image, &refusal.reason);
            notes.add(format_args!("a boot would refuse image {image}: {reason}"))?;
        }
    }
    Ok(())
}

/// Whether a refusal is noted: it is about a requested image whose file is an image.
fn is_told(asked: &[NewComponent<'_>], image: u8, reason: &Reason) -> bool {
    is_named(asked, image) && !matches!(reason, Reason::Damaged)
}

/// Adds to the notes why every boot of a device with this number of images would refuse a file. The
/// reason is the first of a report: the image needs an image that the device doesn't have, or a
/// higher version of itself.
pub fn write_lack(
    notes: &mut NoteList,
    images: u8,
    image: u8,
    file: &Result<Desc, ImageError>,
) -> Result<(), AllocError> {
    let Ok(description) = file else {
        return Ok(());
    };
    match lack_of(description, images, image) {
        Some(reason) => notes.add(format_args!("a boot would refuse image {image}: {reason}")),
        None => Ok(()),
    }
}

/// A need of an image of this number that no device with this number of images can meet.
fn lack_of(description: &Desc, images: u8, image: u8) -> Option<Reason> {
    for need in description.dependencies.iter() {
        if need.image >= images {
            return Some(Reason::NoSuchImage(need.image));
        }
        if !can_have(description, images, image, need) {
            return Some(Reason::Needs(need.image, need.minimum));
        }
    }
    for group in description.groups.iter() {
        let mut needs = group.alternatives.iter();
        if !needs.any(|need| can_have(description, images, image, need)) {
            return Some(Reason::NeedsOne(group.copied()));
        }
    }
    None
}

/// Whether some device with this number of images meets a dependency of an image of this number.
fn can_have(description: &Desc, images: u8, image: u8, need: &Dependency) -> bool {
    need.image < images && (need.image != image || description.version >= need.minimum)
}
