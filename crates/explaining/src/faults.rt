//! Explains why a device refuses an event of a run.

use crate::Result;
use crate::texts::Images;
use device_texts::{DeviceFile, NoteList};
use machine::{Event, Fault, UploadError};

/// Adds that the log of a flash holds no state.
pub fn explain_no_state(notes: &mut NoteList) -> Result {
    notes.add(
        "the log of the flash holds no state: run `provision` first, with the same device \
         file",
    )
}

/// Adds what a device has to do first, if its state doesn't allow an event.
pub fn explain_state(
    notes: &mut NoteList,
    device: &DeviceFile,
    event: &Event<Vec<u8>>,
    fault: Fault,
) -> Result {
    match fault {
        Fault::NotBooted => notes.add(
            "the device isn't booted: it needs a `boot` first, also after a `reset` and after \
             a power cut",
        ),
        Fault::OnTrial => notes.add(
            "a set of images is on trial: the device takes no uploads and withdrawals until a \
             boot ends the trial",
        ),
        Fault::NotProvisioned => explain_no_state(notes),
        Fault::NotOnTrial | Fault::Upload(UploadError::NoSession | UploadError::NothingRequested) =>
            { explain_image_of(notes, device, event) }
        _ => Ok(()),
    }
}

/// Adds why the image of an event doesn't allow the event.
fn explain_image_of(notes: &mut NoteList, device: &DeviceFile, event: &Event<Vec<u8>>) -> Result {
    let (image, why) = match event {
        Event::Piece(image, _) | Event::Finish(image) => (
            *image,
            "no upload is open: `accept` of a manifest that names it opens one, and `finish`, \
             `boot`, `reset` and a power cut close it",
        ),
        Event::Withdraw(image) => (
            *image,
            "no request is pending: `finish` of its upload requests it, until a boot takes it",
        ),
        Event::Confirm(image) => (
            *image,
            "it isn't on trial: a boot that says `trial` begins one, and a later boot ends it",
        ),
        _ => return Ok(()),
    };
    let images = device.map.images;
    if image >= images {
        let all = Images(usize::from(images));
        return notes.add(format_args!("there is no image {image}; the device has {all}"));
    }
    notes.add(format_args!("image {image}: {why}"))
}
