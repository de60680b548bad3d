//! Checks that each refusal of a report has a reason that holds at its place.

ghost use Rattle.std.specs.List.{list_any};
ghost use Rattle.std.specs.Prelude.{◌≡◌, ◌↔◌, None, Contains, IsTrue};
ghost use Rattle.reports.specs.Combination.{image_at};
ghost use Rattle.checker.specs.Flaws.{IsFirstFailure, IsFoundedAt};
ghost use Rattle.reports.specs.Reasons.{best_version, depends_on, is_group_out_of_reach, is_in_reach, is_out_of_reach, is_refused, newest_version, requested_version, ReasonHolds};

use reports::{Entry, Image, Reason, Refusal, Request, Table};
use version_order::{Dependency, Group, Version};

/// Returns the place of the first refusal whose reason doesn't hold after the refusals before it.
pub(crate) fn first_unfounded(table: &Table, refusals: &[Refusal]) -> Option<usize>
    ensures { IsFirstFailure (IsFoundedAt table.now refusals.now) result }
{
    for (place, refusal) in refusals.iter().enumerate() {
        if !reason_holds(table, &refusals[..place], refusal.image, &refusal.reason) {
            return Some(place);
        }
    }
    None
}

/// Returns whether a reason to refuse the request of image `own` holds after these refusals.
fn reason_holds(table: &Table, before: &[Refusal], own: u8, reason: &Reason) -> bool
    ensures { IsTrue result ↔ ReasonHolds table.now before.now own reason.now }
{
    let Some(image) = table.images.get(usize::from(own)) else {
        return false;
    };
    match &image.request {
        Request::None => false,
        Request::Damaged => matches!(reason, Reason::Damaged),
        Request::Entry(entry) => match reason {
            Reason::Damaged => false,
            Reason::Older => entry.version < image.running.version,
            Reason::Counter => entry.counter < image.floor,
            Reason::NoSuchImage(number) => depends_on(entry, *number) && is_missing(table, *number),
            Reason::Needs(number, minimum) => {
                let dependency = Dependency {
                    image: *number,
                    minimum: *minimum,
                };
                has_dependency(entry, &dependency)
                    && is_out_of_reach(table, before, own, &dependency)
            }
            Reason::NeedsOne(group) => {
                has_group(entry, group) && is_group_out_of_reach(table, before, own, group)
            }
        },
    }
}

/// Returns whether an entry depends on image `number`, in any version.
fn depends_on(entry: &Entry, number: u8) -> bool
    ensures { result ≡ depends_on entry.now number }
{
    entry
        .dependencies
        .iter()
        .any(|dependency| dependency.image == number)
}

fn has_dependency(entry: &Entry, dependency: &Dependency) -> bool
    ensures { IsTrue result ↔ Contains entry.now.dependencies.items dependency.now }
{
    entry.dependencies.contains(dependency)
}

fn has_group(entry: &Entry, group: &Group) -> bool
    ensures { IsTrue result ↔ Contains entry.now.groups.items group.now }
{
    entry.groups.contains(group)
}

/// Returns whether a table has no image `number`.
fn is_missing(table: &Table, number: u8) -> bool
    ensures { IsTrue result ↔ (image_at table.now number ≡ None) }
{
    table.images.get(usize::from(number)).is_none()
}

/// Returns whether a dependency of the request of image `own` is out of reach after these refusals:
/// its image exists, and the best version of that is below the minimum.
fn is_out_of_reach(table: &Table, before: &[Refusal], own: u8, dependency: &Dependency) -> bool
    ensures { result ≡ is_out_of_reach table.now before.now own dependency.now }
{
    match table.images.get(usize::from(dependency.image)) {
        Some(image) => best_version(before, own, dependency.image, image) < dependency.minimum,
        None => false,
    }
}

/// Returns whether a group of the request of image `own` has no alternative in reach after these
/// refusals.
fn is_group_out_of_reach(table: &Table, before: &[Refusal], own: u8, group: &Group) -> bool
    ensures { result ≡ is_group_out_of_reach table.now before.now own group.now }
{
    !is_one_in_reach(table, before, own, &group.alternatives)
}

fn is_one_in_reach(table: &Table, before: &[Refusal], own: u8, alternatives: &[Dependency]) -> bool
    ensures { result ≡ list_any (is_in_reach table.now before.now own) alternatives.now }
{
    alternatives
        .iter()
        .any(|alternative| is_in_reach(table, before, own, alternative))
}

/// Returns whether an alternative in a group of the request of image `own` is in reach after these
/// refusals: its image exists, and the best version of that isn't below the minimum.
fn is_in_reach(table: &Table, before: &[Refusal], own: u8, alternative: &Dependency) -> bool
    ensures { result ≡ is_in_reach table.now before.now own alternative.now }
{
    match table.images.get(usize::from(alternative.image)) {
        Some(image) => best_version(before, own, alternative.image, image) >= alternative.minimum,
        None => false,
    }
}

/// Returns the best version of image `number` that the request of image `own` can still get after
/// these refusals.
fn best_version(before: &[Refusal], own: u8, number: u8, image: &Image) -> Version
    ensures { result ≡ best_version before.now own number image.now }
{
    if number == own {
        requested_version(image)
    } else if is_refused(before, number) {
        image.running.version
    } else {
        newest_version(image)
    }
}

fn is_refused(refusals: &[Refusal], number: u8) -> bool
    ensures { result ≡ is_refused refusals.now number }
{
    refusals.iter().any(|refusal| refusal.image == number)
}

/// Returns the version of an intact request, or else the running version.
fn requested_version(image: &Image) -> Version
    ensures { result ≡ requested_version image.now }
{
    match &image.request {
        Request::Entry(entry) => entry.version,
        _ => image.running.version,
    }
}

/// Returns the newer of the running version and the version of an intact request.
fn newest_version(image: &Image) -> Version
    ensures { result ≡ newest_version image.now }
{
    match &image.request {
        Request::Entry(entry) if entry.version > image.running.version => entry.version,
        _ => image.running.version,
    }
}
