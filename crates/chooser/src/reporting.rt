//! Reports the images for a list of refusals: the requests that aren't refused are taken.

ghost use Rattle.std.specs.Prelude.{◌≡◌};
ghost use Rattle.chooser.specs.Reported.{reported_image, reported_images};

use crate::needs::is_refused;
use arrayvec::ArrayVec;
use common::limits::MOST_IMAGES;
use reports::{Image, Refusal, ReportedImage, Request, Table};

/// Writes to a place what the report says of each image: it takes each intact request that these
/// refusals don't name.
pub(crate) fn put_images(
    table: &Table,
    refusals: &[Refusal],
    images: &mut ArrayVec<ReportedImage, MOST_IMAGES>,
)
    ensures { images.new.items ≡ reported_images table.now refusals.now }
{
    images.clear();
    for (number, image) in table.images.iter().enumerate() {
        images.push(reported_image(refusals, number as u8, image));
    }
}

/// Returns what the report says of an image if these requests are refused.
fn reported_image(refusals: &[Refusal], number: u8, image: &Image) -> ReportedImage
    ensures { result ≡ reported_image refusals.now (number, image.now) }
{
    match &image.request {
        Request::Entry(entry) if !is_refused(refusals, number) => ReportedImage {
            is_taken: true,
            version: entry.version,
        },
        _ => ReportedImage {
            is_taken: false,
            version: image.running.version,
        },
    }
}
