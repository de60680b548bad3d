//! Finds the requests that depend on an image or have it as an alternative.

ghost use Rattle.std.specs.Prelude.{◌≡◌, ◌==◌, ℕ};
ghost use Rattle.std.specs.List.{list_any};
ghost use Rattle.common.specs.Masks.{is_member};
ghost use Rattle.validity.specs.Dependants.{asks_for, has_alternative, is_dependant, names};
ghost use Rattle.reports.specs.Reasons.{depends_on};

use arrayvec::ArrayVec;
use common::limits::MOST_IMAGES;
use common::mask::mask_of;
use reports::{Entry, Image, Request, Table};
use version_order::{Dependency, Group};

/// Returns the requests that name image `number`, as a mask. Bit i is set exactly if image i has an
/// intact request that names it: with a dependency on it, or with a group that has it as an
/// alternative, in any version. The image doesn't need to exist.
pub fn dependants(table: &Table, number: u8) -> u8
    ensures { (i : ℕ) → is_member result i ≡ is_dependant table.now number i }
{
    let mut members: ArrayVec<bool, MOST_IMAGES> = ArrayVec::new();
    for image in table.images.iter() {
        members.push(asks_for(image, number));
    }
    mask_of(&members)
}

/// Returns whether the intact request of an image names image `number`.
fn asks_for(image: &Image, number: u8) -> bool
    ensures { result ≡ asks_for number image.now }
{
    match &image.request {
        Request::Entry(entry) => names(entry, number),
        Request::None | Request::Damaged => false,
    }
}

/// Returns whether an entry depends on image `number`, or has a group with it as an alternative.
fn names(entry: &Entry, number: u8) -> bool
    ensures { result ≡ names entry.now number }
{
    depends_on(entry, number) || is_alternative(&entry.groups, number)
}

/// Returns whether one of these groups has image `number` as an alternative.
fn is_alternative(groups: &[Group], number: u8) -> bool
    ensures { result ≡ list_any (has_alternative number) groups.now }
{
    groups.iter().any(|group| has_alternative(group, number))
}

fn has_alternative(group: &Group, number: u8) -> bool
    ensures { result ≡ has_alternative number group.now }
{
    has_image(&group.alternatives, number)
}

/// Returns whether an entry depends on image `number`, in any version.
fn depends_on(entry: &Entry, number: u8) -> bool
    ensures { result ≡ depends_on entry.now number }
{
    has_image(&entry.dependencies, number)
}

/// Returns whether one of these dependencies or alternatives is on image `number`.
fn has_image(asked: &[Dependency], number: u8) -> bool
    ensures { result ≡ list_any (λ dependency. dependency.image == number) asked.now }
{
    asked.iter().any(|dependency| dependency.image == number)
}
