//! Checks the images of a report: their number, and the version of each.

ghost use Rattle.std.specs.Prelude.{◌≡◌, ◌↔◌, length, IsTrue};
ghost use Rattle.reports.specs.Combination.{entry_in};
ghost use Rattle.checker.specs.Flaws.{IsFirstFailure};
ghost use Rattle.reports.specs.Rightness.{taken_in, HasVersionAt, HasVersionOf};

use reports::{Entry, Image, Report, Request, Table};

/// Returns whether a report has the same number of images as the table.
pub(crate) fn has_as_many_images(table: &Table, report: &Report) -> bool
    ensures { IsTrue result ↔ (length report.now.images.items ≡ length table.now.images.items) }
{
    report.images.len() == table.images.len()
}

/// Returns the lowest image that a table and a report both have and whose reported version isn't
/// that of the taken request, or the running version.
pub(crate) fn first_wrong_version(table: &Table, report: &Report) -> Option<usize>
    ensures { IsFirstFailure (HasVersionAt table.now report.now) result }
{
    for (number, image) in table.images.iter().enumerate() {
        if !has_its_version(report, number, image) {
            return Some(number);
        }
    }
    None
}

/// Returns whether a report that has an image `number` has it with its version: that of the taken
/// request, or the running version.
fn has_its_version(report: &Report, number: usize, image: &Image) -> bool
    ensures { IsTrue result ↔ HasVersionOf report.now number image.now }
{
    match report.images.get(number) {
        Some(reported) => reported.version == entry_in(image, reported.is_taken).version,
        None => true,
    }
}

/// Returns what an image contributes to a combination: the requested entry if it is a member, and
/// else the running one.
pub(crate) fn entry_in(image: &Image, is_member: bool) -> &Entry
    ensures { result.now ≡ entry_in image.now is_member }
{
    match &image.request {
        Request::Entry(entry) if is_member => entry,
        _ => &image.running,
    }
}

/// Returns whether a report takes the request of image `number`.
pub(crate) fn is_taken(report: &Report, number: usize) -> bool
    ensures { result ≡ taken_in report.now number }
{
    match report.images.get(number) {
        Some(image) => image.is_taken,
        None => false,
    }
}
