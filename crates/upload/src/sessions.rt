//! The table of open uploads.

ghost use Rattle.std.specs.Prelude.{◌≡◌, ◌<◌, ◌≤◌, ◌==◌, ℕ, Option, Some, None, length, if◌then◌else◌};
ghost use Rattle.upload.specs.Ending.{IsClosedAfter};
ghost use Rattle.upload.specs.Sessions.{AllClosed, IsWith, upload_at};
ghost use Rattle.upload.specs.declared.sessions.Upload.{Upload};

use arrayvec::ArrayVec;
use common::limits::MOST_IMAGES;
use machine::UploadError;
use trailer::Kind;

/// The length of a unit in bytes.
pub(crate) const UNIT: usize = 8;

/// An open upload.
#[derive(Debug, Drop)]
pub struct Upload {
    /// The length of the complete file in bytes, from the manifest.
    pub size: u32,
    /// The SHA-256 of the complete file, from the manifest.
    pub digest: [u8; 32],
    /// How the image will be requested.
    pub kind: Kind,
    /// The number of bytes that were added so far.
    pub received: u32,
    /// The last of these bytes: they don't complete a unit yet, and aren't written.
    pub held: ArrayVec<u8, UNIT>,
}

/// The open uploads, at most one an image, by image number.
///
/// The field is public because the contracts of all calls refer to it.
#[derive(Debug, Drop)]
pub struct Uploads {
    /// The upload of each image, if one is open.
    pub sessions: [Option<Upload>; MOST_IMAGES],
}

impl Uploads {
    /// Returns a table without open uploads.
    pub fn new() -> Self
        ensures { AllClosed result.sessions }
    {
        Uploads {
            sessions: [None, None, None, None, None, None, None, None],
        }
    }

    /// Removes the upload of an image from the table, and returns it.
    pub(crate) fn take(&mut self, image: u8) -> Option<Upload>
        ensures value { result ≡ upload_at self.old.sessions image }
        ensures rest { IsWith image None self.old.sessions self.new.sessions }
        ensures kept { result ≡ None → self.new.sessions ≡ self.old.sessions }
        ensures long { length self.new.sessions ≡ length self.old.sessions }
        ensures within { (u : Upload) → result ≡ Some u → image < MOST_IMAGES }
    {
        let index = usize::from(image);
        if index < MOST_IMAGES {
            self.sessions[index].take()
        } else {
            None
        }
    }

    /// Puts an upload of an image into the table.
    pub(crate) fn put(&mut self, image: u8, upload: Upload)
        requires { image < MOST_IMAGES }
        ensures with { IsWith image (Some upload) self.old.sessions self.new.sessions }
        ensures long { length self.new.sessions ≡ length self.old.sessions }
    {
        self.sessions[usize::from(image)] = Some(upload);
    }

    /// Closes all uploads if a call failed at the flash.
    pub(crate) fn close_after(&mut self, answer: &Result<(), UploadError>)
        ensures { IsClosedAfter answer.now self.old.sessions self.new.sessions }
    {
        if let Err(UploadError::Flash(_)) = answer {
            self.close();
        }
    }

    /// Closes all uploads. It isn't inlined: the empty table takes stack only during this call.
    #[inline(never)]
    pub(crate) fn close(&mut self)
        ensures { AllClosed self.new.sessions }
    {
        *self = Uploads::new();
    }
}
