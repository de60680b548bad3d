//! Reads the keys of a summary: what the devices of a row do.

ghost use Rattle.std.specs.Prelude.{◌≡◌, IfOk, option_copied, option_map, unwrap_or};
ghost use Rattle.reports.specs.LineReading.{alternative_of};
ghost use Rattle.common.specs.Lines.{◌␣◌};
ghost use Rattle.inspecting.specs.RowKey.{refusal_of, refuse_key_of, row_key_of, take_key_of, taken_of, versioned_of};
ghost use Rattle.inspecting.specs.declared.fleet.row_key.RowKey.TheVariants as key;

use arrayvec::ArrayVec;
use common::ascii::{cut, number_u8};
use common::limits::MOST_IMAGES;
use common::lines::TakesLines;
use reports::{Refusal, Report, ReportedImage};
use std::alloc::{AllocError, Global};
use version_order::{Dependency, Version};

// The keys without fields, and the first word of the key of a set.
const DEVICE: &[u8] = b"device";

const BAD: &[u8] = b"bad";

const NOT_VALID: &[u8] = b"not-valid";

const TAKE: &[u8] = b"take";

/// What the devices of a row do.
#[derive(Drop)]
pub enum RowKey {
    /// They are in the fleet.
    Device,
    /// They have bad tables.
    Bad,
    /// They run images that don't fit each other.
    NotValid,
    /// They take these versions of images.
    Take(ArrayVec<Dependency, MOST_IMAGES>),
    /// They refuse a request for a version, or for bytes that are no intact image.
    Refuse(Option<Version>, Refusal),
    /// The text says something else.
    Other,
}

impl RowKey {
    /// Reads a key from its text, with memory of `alloc`.
    ///
    /// # Errors
    /// `AllocError` if memory is refused.
    #[tactic(auto, unfolding(crate::specs::RowKey::row_key_of))]
    pub fn of(alloc: Global, text: &str) -> Result<RowKey, AllocError>
        ensures { IfOk result (λ said. said ≡ row_key_of text.now) }
    {
        let text = text.as_bytes();
        let (word, fields) = cut(text, b' ');
        if text == DEVICE {
            Ok(RowKey::Device)
        } else if text == BAD {
            Ok(RowKey::Bad)
        } else if text == NOT_VALID {
            Ok(RowKey::NotValid)
        } else if word == TAKE {
            Ok(take_key(fields))
        } else {
            refuse_key(alloc, text)
        }
    }
}

/// Reads the key of a set from the fields after `take`.
fn take_key(fields: Option<&[u8]>) -> RowKey
    ensures { result ≡ take_key_of (option_copied fields.entry) }
{
    match taken(fields) {
        Some(images) => RowKey::Take(images),
        None => RowKey::Other,
    }
}

/// Reads the images and versions of a set. Returns `None` if the fields are others, or more.
fn taken(fields: Option<&[u8]>) -> Option<ArrayVec<Dependency, MOST_IMAGES>>
    ensures { option_map (λ images. images.items) result ≡ taken_of (option_copied fields.entry) }
{
    let mut images = ArrayVec::new();
    let mut rest = fields;
    while let Some(fields) = rest {
        let (image, after) = cut(fields, b' ');
        let (version, after) = cut(after?, b' ');
        let taken = image_in(image, version)?;
        images.try_push(taken).ok()?;
        rest = after;
    }
    Some(images)
}

/// Reads the number of an image and its version.
#[tactic(auto, unfolding(reports::specs::LineReading::alternative_of))]
fn image_in(image: &[u8], version: &[u8]) -> Option<Dependency>
    ensures { result ≡ alternative_of image.now version.now }
{
    let image = number_u8(image)?;
    let minimum = Version::from_ascii(version).ok()?;
    Some(Dependency { image, minimum })
}

/// Reads the key of a refused request: a line of a report, which may have the requested version
/// before the reason.
fn refuse_key(alloc: Global, text: &[u8]) -> Result<RowKey, AllocError>
    ensures { IfOk result (λ said. said ≡ refuse_key_of text.now) }
{
    match refusal_in(text) {
        Some(refusal) => Ok(RowKey::Refuse(None, refusal)),
        None => versioned_key(alloc, text),
    }
}

/// Reads the key of a refused request for a version.
#[tactic(auto, unfolding(crate::specs::RowKey::versioned_of))]
fn versioned_key(alloc: Global, text: &[u8]) -> Result<RowKey, AllocError>
    ensures { IfOk result (λ said. said ≡ unwrap_or (versioned_of text.now) key.Other) }
{
    let (word, Some(fields)) = cut(text, b' ') else {
        return Ok(RowKey::Other);
    };
    let (image, Some(fields)) = cut(fields, b' ') else {
        return Ok(RowKey::Other);
    };
    let (version, Some(reason)) = cut(fields, b' ') else {
        return Ok(RowKey::Other);
    };
    let Ok(version) = Version::from_ascii(version) else {
        return Ok(RowKey::Other);
    };
    let line = three_words(alloc, word, image, reason)?;
    match refusal_in(&line) {
        Some(refusal) => Ok(RowKey::Refuse(Some(version), refusal)),
        None => Ok(RowKey::Other),
    }
}

/// Makes a line of three fields.
fn three_words(
    alloc: Global,
    first: &[u8],
    second: &[u8],
    third: &[u8],
) -> Result<Vec<u8>, AllocError>
    ensures { IfOk result (λ line. line.items ≡ first.now ␣ second.now ␣ third.now) }
{
    let mut line = Vec::new(alloc);
    line.extend_from_slice(first)?;
    line.push(b' ')?;
    line.extend_from_slice(second)?;
    line.push(b' ')?;
    line.extend_from_slice(third)?;
    Ok(line)
}

/// Reads a refusal from its line in a report.
fn refusal_in(line: &[u8]) -> Option<Refusal>
    ensures { result ≡ refusal_of line.now }
{
    let mut report = Report::default();
    // The lines of refusals follow those of images.
    report.images.try_push(ReportedImage::default()).ok()?;
    if !report.take_line(line) {
        return None;
    }
    report.refusals.pop()
}
