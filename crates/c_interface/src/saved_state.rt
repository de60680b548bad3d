//! The state of a device that its caller keeps between two calls.

ghost use Rattle.std.specs.Prelude.{◌≡◌, ◌≤◌, List, Option, Some, None, IfSome, length, map};
ghost use Rattle.std.specs.Prelude.{false, true};
ghost use Rattle.upload.specs.declared.sessions.Upload.{Upload};
ghost use Rattle.c_interface.specs.SavedState.{SavesUpload, SaveUploads, number_of_kind, row_of};
ghost use Rattle.c_interface.specs.SavedState.{saved_kind};

use arrayvec::ArrayVec;
use common::limits::MOST_IMAGES;
use trailer::Kind;
use upload::Upload;

/// The length of a unit in bytes.
const UNIT: usize = 8;

/// `is_open` of an open upload.
const YES: u8 = 1;

/// The upload of an image, saved in 52 bytes. All zero if none is open.
#[repr(C)]
#[derive(Clone, Copy)]
pub struct SavedUpload {
    /// The length of the file in bytes.
    pub size: u32,
    /// The number of bytes that were received.
    pub received: u32,
    /// 1 if an upload is open, 0 if none is.
    pub is_open: u8,
    /// How the image will be requested: 1 for a test, 2 permanently.
    pub kind: u8,
    /// The number of bytes that are held back, 0 to 7.
    pub held_length: u8,
    /// 0.
    pub unused: u8,
    /// The bytes that are held back: the last that were received, which don't fill a unit yet. The
    /// bytes after them are 0.
    pub held: [u8; UNIT],
    /// The SHA-256 that the file must have.
    pub digest: [u8; 32],
}

/// The state of a device between two calls, 420 bytes. All zero is a device that isn't booted.
#[repr(C)]
#[derive(Clone, Copy)]
pub struct SavedState {
    /// 1 if the device is booted, 0 if it isn't.
    pub is_booted: u8,
    /// 0.
    pub unused: [u8; 3],
    /// The upload of each image.
    pub uploads: [SavedUpload; MOST_IMAGES],
}

/// No upload.
const CLOSED: SavedUpload = SavedUpload {
    size: 0,
    received: 0,
    is_open: 0,
    kind: 0,
    held_length: 0,
    unused: 0,
    held: [0; UNIT],
    digest: [0; 32],
};

/// A device that isn't booted.
pub(crate) const NOT_BOOTED: SavedState = SavedState {
    is_booted: 0,
    unused: [0; 3],
    uploads: [CLOSED; MOST_IMAGES],
};

/// The kind of this number.
fn kind_of(number: u8) -> Option<Kind>
    ensures { result ≡ saved_kind number }
{
    match number {
        1 => Some(Kind::Test),
        2 => Some(Kind::Permanent),
        _ => None,
    }
}

/// The number of a kind.
fn kind_number(kind: Kind) -> u8
    ensures exact { result ≡ number_of_kind kind }
    ensures saves { saved_kind result ≡ Some kind }
{
    match kind {
        Kind::Test => 1,
        Kind::Permanent => 2,
    }
}

/// Bytes that are held back, at most 8.
fn held_in(bytes: &[u8]) -> ArrayVec<u8, UNIT>
    requires { length bytes.now ≤ 8 }
    ensures { result.items ≡ bytes.now }
{
    let mut held = ArrayVec::new();
    if held.try_extend_from_slice(bytes).is_err() {
        unreachable!();
    }
    held
}

/// The upload that a row saves, if one is open. `None` if the row isn't valid.
fn load_upload(row: &SavedUpload) -> Option<Option<Upload>>
    ensures some { IfSome result (SavesUpload row.now) }
    ensures none { result ≡ None → (upload : Option Upload) → SavesUpload row.now upload → ⊥ }
{
    if row.is_open == 0 {
        return Some(None);
    }
    let length = usize::from(row.held_length);
    if row.is_open != YES || length > UNIT {
        return None;
    }
    let kind = kind_of(row.kind)?;
    Some(Some(Upload {
        size: row.size,
        digest: row.digest,
        kind,
        received: row.received,
        held: held_in(&row.held[..length]),
    }))
}

/// Loads the uploads that rows save, and returns whether each row is valid.
pub(crate) fn load_uploads(rows: &[SavedUpload], uploads: &mut [Option<Upload>]) -> bool
    requires rows { length rows.now ≡ 8 }
    requires uploads { length uploads.old ≡ 8 }
    ensures size { length uploads.new ≡ 8 }
    ensures some { result ≡ true → SaveUploads rows.now uploads.new }
    ensures none { result ≡ false → (sessions : List (Option Upload))
        → SaveUploads rows.now sessions → ⊥ }
{
    for i in 0..MOST_IMAGES {
        match load_upload(&rows[i]) {
            Some(upload) => uploads[i] = upload,
            None => return false,
        }
    }
    true
}

/// The row that saves an upload, if one is open.
fn upload_row(upload: &Option<Upload>) -> SavedUpload
    ensures exact { result ≡ row_of upload.now }
    ensures saves { SavesUpload result upload.now }
{
    let Some(upload) = upload else {
        return CLOSED;
    };
    let length = upload.held.len();
    let mut held = [0; UNIT];
    held[..length].copy_from_slice(upload.held.as_slice());
    SavedUpload {
        size: upload.size,
        received: upload.received,
        is_open: YES,
        kind: kind_number(upload.kind),
        held_length: length as u8,
        unused: 0,
        held,
        digest: upload.digest,
    }
}

/// Writes the rows that save uploads.
pub(crate) fn put_uploads(sessions: &[Option<Upload>], rows: &mut [SavedUpload])
    requires sessions { length sessions.now ≡ 8 }
    requires rows { length rows.old ≡ 8 }
    ensures exact { rows.new ≡ map row_of sessions.now }
    ensures saves { SaveUploads rows.new sessions.now }
{
    for i in 0..MOST_IMAGES {
        rows[i] = upload_row(&sessions[i]);
    }
}
