//! Keeps the uploads of a run, and explains why uploads are refused.
ghost use Rattle.std.specs.Prelude.{◌<◌, IfSome, length};

use crate::Result;
use crate::image_notes::explain_image;
use crate::texts::Digits;
use device_texts::NoteList;
use machine::UploadError;
use manifest::{Component, Manifest};
use sector_map::SectorMap;
use sha2::{Digest, Sha256};
use std::alloc::Global;

/// The component of an upload's manifest, and the bytes that arrived so far.
#[derive(Drop)]
struct LoggedUpload {
    component: Component,
    bytes: Vec<u8>,
}

/// The uploads that manifests opened, the last one for each image.
#[derive(Drop)]
pub struct UploadLog {
    alloc: Global,
    uploads: Vec<LoggedUpload>,
}

impl UploadLog {
    /// An empty log, in memory of `alloc`.
    pub fn new(alloc: Global) -> Self {
        UploadLog {
            alloc,
            uploads: Vec::new(alloc),
        }
    }

    /// Logs that a manifest opened its uploads.
    pub fn open(&mut self, manifest: &Manifest) -> Result {
        for component in manifest.components.as_slice() {
            let upload = LoggedUpload {
                component: *component,
                bytes: Vec::new(self.alloc),
            };
            match self.place_of(component.image) {
                Some(place) => self.uploads[place] = upload,
                None => self.uploads.push(upload)?,
            }
        }
        Ok(())
    }

    /// Logs that these bytes arrived for an image.
    pub fn add(&mut self, image: u8, bytes: &[u8]) -> Result {
        match self.place_of(image) {
            Some(place) => self.uploads[place].bytes.extend_from_slice(bytes),
            None => Ok(()),
        }
    }

    /// Whether the upload of an image is for a permanent request. `None` if no upload is logged.
    pub fn is_permanent(&self, image: u8) -> Option<bool> {
        let place = self.place_of(image)?;
        Some(self.uploads[place].component.permanent)
    }

    /// Adds why the upload of an image is refused.
    pub fn explain(&self, notes: &mut NoteList, image: u8, error: UploadError) -> Result {
        match self.place_of(image) {
            Some(place) => {
                let upload = &self.uploads[place];
                explain_upload(notes, &upload.component, upload.bytes.as_slice(), error)
            }
            None => Ok(()),
        }
    }

    /// The index of the upload of an image.
    fn place_of(&self, image: u8) -> Option<usize>
        ensures { IfSome result (λ place. place < length self.now.uploads.items) }
    {
        self.uploads
            .iter()
            .position(|upload| upload.component.image == image)
    }
}

/// Adds why a manifest opens no uploads.
pub fn explain_opening(
    notes: &mut NoteList,
    map: &SectorMap,
    manifest: &Manifest,
    error: UploadError,
) -> Result {
    match error {
        UploadError::OldSequence => {
            let sequence = manifest.sequence;
            notes.add(format_args!(
                "the manifest has the sequence number {sequence}, and one with a higher number was \
                 accepted"
            ))
        }
        UploadError::TooBig => explain_sizes(notes, map, manifest),
        UploadError::WrongPrecursor => explain_precursors(notes, manifest),
        _ => Ok(()),
    }
}

/// Adds which files are longer than their slots.
fn explain_sizes(notes: &mut NoteList, map: &SectorMap, manifest: &Manifest) -> Result {
    for component in manifest.components.as_slice() {
        let (image, size) = (component.image, component.size);
        if image < map.images && size > map.slot_length(image) {
            let most = map.slot_length(image);
            notes.add(format_args!(
                "the file for image {image} has {size} bytes, and its slot {most}"
            ))?;
        }
    }
    Ok(())
}

/// Adds which images have to run before a device accepts the files of a manifest.
fn explain_precursors(notes: &mut NoteList, manifest: &Manifest) -> Result {
    for component in manifest.components.as_slice() {
        if let Some(precursor) = component.precursor {
            let (image, digits) = (component.image, Digits(precursor.as_slice()));
            notes.add(format_args!("the file for image {image} follows the image {digits}"))?;
        }
    }
    Ok(())
}

/// Adds what is wrong with the uploaded bytes for this component.
fn explain_upload(
    notes: &mut NoteList,
    component: &Component,
    bytes: &[u8],
    error: UploadError,
) -> Result {
    let (image, size) = (component.image, component.size);
    let count = bytes.len();
    match error {
        UploadError::TooMuch | UploadError::SizeWrong => notes.add(format_args!(
            "the manifest says {size} bytes for image {image}, and {count} came"
        )),
        UploadError::DigestWrong => {
            let digest: [u8; 32] = Sha256::digest(bytes);
            let (said, found) = (
                Digits(component.digest.as_slice()),
                Digits(digest.as_slice()),
            );
            notes.add(format_args!("the manifest says the SHA-256 {said} for image {image}"))?;
            notes.add(format_args!("that of the {count} bytes that came is {found}"))
        }
        UploadError::NotAnImage(fault) => explain_image(notes, bytes, fault),
        _ => Ok(()),
    }
}
