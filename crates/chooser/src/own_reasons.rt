//! Finds the requests that are refused by themselves, whatever happens to the others.

ghost use Rattle.std.specs.Option.{option_copied};
ghost use Rattle.std.specs.Prelude.{◌≡◌, find};
ghost use Rattle.reports.specs.StandardOrder.{is_missing, missing_image, own_reason, own_reason_of_entry, own_refusal, own_refusals};

use arrayvec::ArrayVec;
use reports::{Entry, Image, MOST_REFUSALS, Reason, Refusal, Request, Table};
use version_order::Dependency;

/// Writes to a place the requests that are refused by themselves, in the order of their images,
/// each with its lowest reason.
pub(crate) fn put_own_refusals(table: &Table, refusals: &mut ArrayVec<Refusal, MOST_REFUSALS>)
    ensures { refusals.new.items ≡ own_refusals table.now }
{
    refusals.clear();
    for (number, image) in table.images.iter().enumerate() {
        if let Some(refusal) = own_refusal(table, number as u8, image) {
            refusals.push(refusal);
        }
    }
}

/// Returns the refusal of an image's request by itself, if there is one.
fn own_refusal(table: &Table, number: u8, image: &Image) -> Option<Refusal>
    ensures { result ≡ own_refusal table.now (number, image.now) }
{
    let reason = own_reason(table, image)?;
    Some(Refusal {
        image: number,
        reason,
    })
}

/// Returns why a request is refused by itself, if it is.
fn own_reason(table: &Table, image: &Image) -> Option<Reason>
    ensures { result ≡ own_reason table.now image.now image.now.request }
{
    match &image.request {
        Request::None => None,
        Request::Damaged => Some(Reason::Damaged),
        Request::Entry(entry) => own_reason_of_entry(table, image, entry),
    }
}

fn own_reason_of_entry(table: &Table, image: &Image, entry: &Entry) -> Option<Reason>
    ensures { result ≡ own_reason_of_entry table.now image.now entry.now }
{
    if entry.version < image.running.version {
        Some(Reason::Older)
    } else if entry.counter < image.floor {
        Some(Reason::Counter)
    } else {
        missing_image(table, entry)
    }
}

/// Returns as a reason the first dependency on an image that the table doesn't have.
fn missing_image(table: &Table, entry: &Entry) -> Option<Reason>
    ensures { result ≡ missing_image table.now entry.now }
{
    let dependency = first_missing(table, &entry.dependencies)?;
    Some(Reason::NoSuchImage(dependency.image))
}

fn first_missing<'a>(table: &Table, dependencies: &'a [Dependency]) -> Option<&'a Dependency>
    ensures { option_copied result ≡ find (is_missing table.now) dependencies.now }
{
    dependencies
        .iter()
        .find(|dependency| is_missing(table, dependency))
}

fn is_missing(table: &Table, dependency: &Dependency) -> bool
    ensures { result ≡ is_missing table.now dependency.now }
{
    table.images.get(usize::from(dependency.image)).is_none()
}
