//! Checks that each request of a table is taken or refused once.

ghost use Rattle.std.specs.Prelude.{◌≡◌, ◌<◌, ◌≤◌, ◌↔◌, length, All, IsTrue};
ghost use Rattle.checker.specs.Flaws.{IsFirstFailure};
ghost use Rattle.reports.specs.Reasons.{times_refused};
ghost use Rattle.reports.specs.Rightness.{has_request, IsDecidedOnce};

use crate::images::is_taken;
use reports::{Refusal, Report, Request, Table};

/// Returns the lowest image whose request isn't taken or refused once, or that has none and it is
/// taken or refused. Perhaps neither the table nor the report has the image.
pub(crate) fn first_not_decided_once(table: &Table, report: &Report) -> Option<usize>
    ensures { IsFirstFailure (IsDecidedOnce table.now report.now) result }
{
    for number in 0..numbers_in(table, report) {
        if !is_decided_once(table, report, number) {
            return Some(number);
        }
    }
    None
}

/// Returns a number above those of all images that a table has, or that a report has or refuses.
fn numbers_in(table: &Table, report: &Report) -> usize
    ensures images { length table.now.images.items ≤ result }
    ensures reported { length report.now.images.items ≤ result }
    ensures refused { All (λ refusal. refusal.image < result) report.now.refusals.items }
{
    let mut count = table.images.len().max(report.images.len());
    for refusal in report.refusals.iter() {
        count = count.max(usize::from(refusal.image) + 1);
    }
    count
}

/// Returns whether the request of image `number` is taken or refused once. If there is no request,
/// it must be neither.
fn is_decided_once(table: &Table, report: &Report, number: usize) -> bool
    ensures { IsTrue result ↔ IsDecidedOnce table.now report.now number }
{
    refusals_of(&report.refusals, number) + usize::from(is_taken(report, number))
        == usize::from(has_request(table, number))
}

/// Returns how often a list refuses the request of image `number`.
fn refusals_of(refusals: &[Refusal], number: usize) -> usize
    ensures { result ≡ times_refused refusals.now number }
{
    refusals
        .iter()
        .filter(|refusal| usize::from(refusal.image) == number)
        .count()
}

/// Returns whether a table has an image `number` with a request.
fn has_request(table: &Table, number: usize) -> bool
    ensures { result ≡ has_request table.now number }
{
    match table.images.get(number) {
        Some(image) => !matches!(image.request, Request::None),
        None => false,
    }
}
