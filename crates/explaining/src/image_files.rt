//! Explains why files aren't images that run together, and which may be those of other images.

use crate::Result;
use crate::image_notes::explain_image;
use crate::needs::explain_running;
use arrayvec::ArrayVec;
use decision::entry_of;
use device_texts::NoteList;
use host::Source;
use image_reading::{Desc, ImageError, describe};
use inputs::OwnNeed;
use reports::{Image, Request, Table};

/// The files for the images of a device, as far as they were read.
#[derive(Drop)]
pub struct ImageFiles {
    /// The number of files.
    count: u8,
    /// The images of the files, until one isn't an image and no more.
    table: Table,
    /// Whether each file is an image and no more.
    are_images: bool,
}

impl ImageFiles {
    /// No file was read.
    pub fn new() -> Self {
        ImageFiles {
            count: 0,
            table: Table {
                images: ArrayVec::new(),
            },
            are_images: true,
        }
    }

    /// Adds the file for the next image, and notes: to `if_done` that it may be that of another image,
    /// and to `if_refused` why it is the first file that isn't an image.
    pub fn add(
        &mut self,
        if_done: &mut NoteList,
        if_refused: &mut NoteList,
        source: Source<'_>,
        bytes: &[u8],
    ) -> Result {
        let number = self.count;
        self.count = self.count.saturating_add(1);
        match describe(bytes) {
            Ok(description) => {
                if let Some(need) = OwnNeed::of(source, number, &description) {
                    if_done.add(need)?;
                }
                self.add_image(description);
                Ok(())
            }
            Err(fault) => self.add_fault(if_refused, source, bytes, fault),
        }
    }

    /// Adds an image to the table.
    fn add_image(&mut self, description: Desc) {
        // A table can hold all images of a device.
        let _ = self.table.images.try_push(Image {
            running: entry_of(description),
            request: Request::None,
            floor: 0,
        });
    }

    /// Adds a file that isn't an image and no more.
    fn add_fault(
        &mut self,
        notes: &mut NoteList,
        source: Source<'_>,
        bytes: &[u8],
        fault: ImageError,
    ) -> Result {
        let are_images = self.are_images;
        self.are_images = false;
        // More bytes may follow the image in its slot.
        if !are_images || fault == ImageError::TrailingBytes {
            return Ok(());
        }
        notes.add(format_args!("{source} is no intact image:"))?;
        explain_image(notes, bytes, fault)
    }

    /// Adds why the images don't run together, if each file is one.
    pub fn explain(&self, notes: &mut NoteList) -> Result {
        if self.are_images {
            explain_running(notes, &self.table)
        } else {
            Ok(())
        }
    }
}
