//! Reads the images of a release from the files that are named for it.

ghost use Rattle.std.specs.Prelude.{◌≡◌, IfOk, OnOk};
ghost use Rattle.std.specs.Io.KnownBytes.{Keeps};
ghost use Rattle.host.specs.Input.{KeepsFiles};
ghost use Rattle.inspecting.specs.Release.{IsEntryOfFile, IsRelease, PutsRequest, none_of_eight};

use crate::fleet::requests::Requests;
use command_line::RequestedFile;
use common::limits::MOST_IMAGES;
use decision::entry_of;
use host::{Host, MOST_FILE, Refusal, Source, SourceFault};
use image_reading::describe;
use reports::Entry;
use std::alloc::Global;

/// Reads the files that are requested, and returns their requests. The bytes of one file at a time
/// are in memory of `alloc`.
///
/// # Errors
/// `RequestedTwice` if two files are requested as one image, `NoImage` if an image has a number
/// that no device has, and `OfSource` if a file can't be read or is no intact image.
pub fn read_release<H: Host>(
    alloc: Global,
    files: &[RequestedFile<'_>],
    host: &mut H,
) -> Result<Requests, Refusal>
    ensures release { IfOk result (λ requests.
        IsRelease (H.file host.old) files.now requests.entries) }
    ensures files { KeepsFiles (H.file host.old) (H.file host.new) }
    ensures input { Keeps (H.input host.old) (H.input host.new) }
{
    let mut requests = Requests::none();
    for file in files {
        let entry = read_entry(alloc, file.file, host)?;
        requests.put(file.image, entry)?;
    }
    Ok(requests)
}

/// Reads what a decision uses of the image in the file of this name.
fn read_entry<H: Host>(alloc: Global, name: &str, host: &mut H) -> Result<Entry, Refusal>
    ensures entry { IfOk result (λ entry. IsEntryOfFile (H.file host.old) name.now entry) }
    ensures files { KeepsFiles (H.file host.old) (H.file host.new) }
    ensures input { Keeps (H.input host.old) (H.input host.new) }
{
    let source = Source::File(name);
    let bytes = source.read(alloc, host, MOST_FILE)?;
    match describe(&bytes) {
        Ok(description) => Ok(entry_of(description)),
        Err(_) => Err(source.refused(alloc, SourceFault::NoImage(bytes))),
    }
}

impl Requests {
    /// Returns requests for no image.
    fn none() -> Self
        ensures { result.entries ≡ none_of_eight }
    {
        Requests {
            entries: [None, None, None, None, None, None, None, None],
        }
    }

    /// Puts the request for an image.
    ///
    /// # Errors
    /// `RequestedTwice` if there is one, `NoImage` if no device has an image of this number. Nothing
    /// changes.
    fn put(&mut self, image: u8, entry: Entry) -> Result<(), Refusal>
        ensures { OnOk result (PutsRequest image entry self.old.entries self.new.entries) }
    {
        let at = usize::from(image);
        if at >= MOST_IMAGES {
            return Err(Refusal::NoImage {
                image,
                images: MOST_IMAGES as u8,
            });
        }
        if self.entries[at].is_some() {
            return Err(Refusal::RequestedTwice(image));
        }
        self.entries[at] = Some(entry);
        Ok(())
    }
}
