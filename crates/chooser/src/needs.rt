//! Finds the requests that have a dependency or a group out of reach, given the refusals so far.

ghost use Rattle.std.specs.List.{list_any};
ghost use Rattle.std.specs.Option.{option_copied};
ghost use Rattle.std.specs.Prelude.{◌≡◌, ℕ, false, IfNone, IfSome, None, is_some, position};
ghost use Rattle.reports.specs.Combination.{intact_entry};
ghost use Rattle.reports.specs.Reasons.{best_version, is_group_out_of_reach, is_in_reach, is_out_of_reach, is_refused, newest_version, requested_version};
ghost use Rattle.reports.specs.StandardOrder.{IsNextNeed, needs_reason, needs_reason_of_entry, unmet_dependency, unmet_group};
ghost use Rattle.chooser.specs.Marks.{AreMarks};

use common::limits::MOST_IMAGES;
use reports::{Entry, Image, Reason, Refusal, Request, Table};
use version_order::{Dependency, Group, Version};

/// Returns the next refusal after `before`: that of the lowest marked request. Its reason is the
/// first of its dependencies that is out of reach, or else its first such group. Returns `None` if
/// no request is marked.
pub(crate) fn next_need(
    table: &Table,
    before: &[Refusal],
    marks: &[bool; MOST_IMAGES],
) -> Option<Refusal>
    requires { AreMarks table.now before.now marks.now }
    ensures next { IfSome result (IsNextNeed table.now before.now) }
    ensures none_left { IfNone result
        ((i : ℕ) → is_refused before.now i ≡ false → needs_reason table.now before.now i ≡ None) }
{
    let number = lowest_marked(marks)? as u8;
    // The reason is found only here, because more may be out of reach than when the request was
    // marked.
    let reason = needs_reason(table, before, number)?;
    Some(Refusal {
        image: number,
        reason,
    })
}

fn lowest_marked(marks: &[bool; MOST_IMAGES]) -> Option<usize>
    ensures { result ≡ position (λ is_marked. is_marked) marks.now }
{
    marks.iter().position(|&is_marked| is_marked)
}

/// Returns whether the list refuses the request of an image.
pub(crate) fn is_refused(refusals: &[Refusal], number: u8) -> bool
    ensures { result ≡ is_refused refusals.now number }
{
    refusals.iter().any(|refusal| refusal.image == number)
}

/// Returns whether the intact request of an image has a dependency or a group that is out of reach
/// after these refusals. Unlike `needs_reason` it copies no group.
pub(crate) fn has_unmet(table: &Table, before: &[Refusal], number: u8) -> bool
    ensures { result ≡ is_some (needs_reason table.now before.now number) }
{
    let Some(image) = table.images.get(usize::from(number)) else {
        return false;
    };
    match &image.request {
        Request::Entry(entry) => is_unmet(table, before, number, entry),
        Request::None | Request::Damaged => false,
    }
}

/// Returns whether an entry that is requested of image `own` has a dependency or a group out of
/// reach.
fn is_unmet(table: &Table, before: &[Refusal], own: u8, entry: &Entry) -> bool
    ensures { result ≡ is_some (needs_reason_of_entry table.now before.now own entry.now) }
{
    has_unmet_dependency(table, before, own, &entry.dependencies)
        || has_unmet_group(table, before, own, &entry.groups)
}

fn has_unmet_dependency(
    table: &Table,
    before: &[Refusal],
    own: u8,
    dependencies: &[Dependency],
) -> bool
    ensures { result ≡ list_any (is_out_of_reach table.now before.now own) dependencies.now }
{
    dependencies.iter().any(|dependency| is_out_of_reach(table, before, own, dependency))
}

fn has_unmet_group(table: &Table, before: &[Refusal], own: u8, groups: &[Group]) -> bool
    ensures { result ≡ list_any (is_group_out_of_reach table.now before.now own) groups.now }
{
    groups
        .iter()
        .any(|group| is_group_out_of_reach(table, before, own, group))
}

/// Returns as a reason the first dependency out of reach of an image's intact request after these
/// refusals, or else the first such group.
fn needs_reason(table: &Table, before: &[Refusal], number: u8) -> Option<Reason>
    ensures { result ≡ needs_reason table.now before.now number }
{
    let image = table.images.get(usize::from(number))?;
    let entry = requested_entry(image)?;
    needs_reason_of_entry(table, before, number, entry)
}

fn needs_reason_of_entry(
    table: &Table,
    before: &[Refusal],
    own: u8,
    entry: &Entry,
) -> Option<Reason>
    ensures { result ≡ needs_reason_of_entry table.now before.now own entry.now }
{
    match unmet_dependency(table, before, own, entry) {
        Some(reason) => Some(reason),
        None => unmet_group(table, before, own, entry),
    }
}

/// Returns as a reason the first dependency out of reach of an entry that is requested of image
/// `own`.
fn unmet_dependency(table: &Table, before: &[Refusal], own: u8, entry: &Entry) -> Option<Reason>
    ensures { result ≡ unmet_dependency table.now before.now own entry.now }
{
    let needs = entry.dependencies.as_slice();
    let dependency = needs
        .iter()
        .find(|need| is_out_of_reach(table, before, own, need))?;
    Some(Reason::Needs(dependency.image, dependency.minimum))
}

/// Returns as a reason the first group out of reach of such an entry.
fn unmet_group(table: &Table, before: &[Refusal], own: u8, entry: &Entry) -> Option<Reason>
    ensures { result ≡ unmet_group table.now before.now own entry.now }
{
    let groups = entry.groups.as_slice();
    let group = groups
        .iter()
        .find(|group| is_group_out_of_reach(table, before, own, group))?;
    Some(Reason::NeedsOne(group.copied()))
}

/// Returns whether a group of the request of image `own` has no alternative in reach.
fn is_group_out_of_reach(table: &Table, before: &[Refusal], own: u8, group: &Group) -> bool
    ensures { result ≡ is_group_out_of_reach table.now before.now own group.now }
{
    !is_one_in_reach(table, before, own, &group.alternatives)
}

fn is_one_in_reach(table: &Table, before: &[Refusal], own: u8, alternatives: &[Dependency]) -> bool
    ensures { result ≡ list_any (is_in_reach table.now before.now own) alternatives.now }
{
    alternatives
        .iter()
        .any(|alternative| is_in_reach(table, before, own, alternative))
}

/// Returns whether an alternative in a group of the request of image `own` is in reach: its image
/// exists, and the best version of that isn't below the minimum.
fn is_in_reach(table: &Table, before: &[Refusal], own: u8, alternative: &Dependency) -> bool
    ensures { result ≡ is_in_reach table.now before.now own alternative.now }
{
    match table.images.get(usize::from(alternative.image)) {
        Some(image) => best_version(before, own, alternative.image, image) >= alternative.minimum,
        None => false,
    }
}

/// Returns whether a dependency of the request of image `own` is out of reach: its image exists,
/// and the best version of that is below the minimum.
fn is_out_of_reach(table: &Table, before: &[Refusal], own: u8, dependency: &Dependency) -> bool
    ensures { result ≡ is_out_of_reach table.now before.now own dependency.now }
{
    match table.images.get(usize::from(dependency.image)) {
        Some(image) => best_version(before, own, dependency.image, image) < dependency.minimum,
        None => false,
    }
}

/// Returns the best version of image `number` that the request of image `own` can still get.
fn best_version(before: &[Refusal], own: u8, number: u8, image: &Image) -> Version
    ensures { result ≡ best_version before.now own number image.now }
{
    if number == own {
        requested_version(image)
    } else if is_refused(before, number) {
        image.running.version
    } else {
        newest_version(image)
    }
}

/// Returns the version of an intact request, or else the running version.
fn requested_version(image: &Image) -> Version
    ensures { result ≡ requested_version image.now }
{
    match &image.request {
        Request::Entry(entry) => entry.version,
        Request::None | Request::Damaged => image.running.version,
    }
}

/// Returns the newer of the running version and the version of an intact request.
fn newest_version(image: &Image) -> Version
    ensures { result ≡ newest_version image.now }
{
    match &image.request {
        Request::Entry(entry) => entry.version.max(image.running.version),
        Request::None | Request::Damaged => image.running.version,
    }
}

/// Returns the intact entry that is requested of an image, if there is one.
fn requested_entry(image: &Image) -> Option<&Entry>
    ensures { option_copied result ≡ intact_entry image.now.request }
{
    match &image.request {
        Request::Entry(entry) => Some(entry),
        Request::None | Request::Damaged => None,
    }
}
