//! Adds the meaning of one more line of a table to the image that it is about.

ghost use Rattle.std.specs.Prelude.{◌≡◌, ◌<◌, ◌++◌, ◌∷◌, [], length, Some, None, MatchBool, if◌then◌else◌};
ghost use Rattle.reports.specs.declared.table.Request.TheVariants as request;
ghost use Rattle.reports.specs.TableReading.{new_entry, new_image, no_version, with_dependency, with_group, with_needs, with_needs_one, with_request, with_line, with_line_in_last, with_image, with_line_of_images};

use crate::table::{Entry, Image, Request};
use crate::table_line::TableLine;
use arrayvec::ArrayVec;
use common::limits::MOST_IMAGES;
use version_order::{Dependency, Group, Version};

/// Adds the meaning of a line to the images of the lines before it. Returns `false` if no table has
/// such a line there. Then the images must not be used.
#[tactic(auto, unfolding(crate::specs::TableReading::with_line_of_images))]
pub(crate) fn place_line(images: &mut ArrayVec<Image, MOST_IMAGES>, line: TableLine) -> bool
    ensures { MatchBool result (with_line_of_images images.old.items line ≡ Some images.new.items)
        (with_line_of_images images.old.items line ≡ None) }
{
    match line {
        TableLine::Image {
            number,
            version,
            counter,
            floor,
        } => place_image(images, number, version, counter, floor),
        later => place_in_last(images, later),
    }
}

/// Adds an image that has its first line alone.
fn place_image(
    images: &mut ArrayVec<Image, MOST_IMAGES>,
    number: u8,
    version: Version,
    counter: u32,
    floor: u32,
) -> bool
    ensures { let image = new_image version counter floor in
        MatchBool result (with_image images.old.items number image ≡ Some images.new.items)
        (with_image images.old.items number image ≡ None) }
{
    let count = images.len();
    if usize::from(number) != count || images.is_full() {
        return false;
    }
    push_default(images);
    put_numbers(&mut images[count], version, counter, floor);
    true
}

/// Adds an image without anything, which is filled in its place. The temporary image takes stack
/// only here.
#[inline(never)]
fn push_default(images: &mut ArrayVec<Image, MOST_IMAGES>)
    requires { length images.old.items < MOST_IMAGES }
    ensures { images.new.items ≡ images.old.items ++ new_image no_version 0 0 ∷ [] }
{
    images.push(Image::default());
}

/// Writes the numbers of an image's first line.
fn put_numbers(image: &mut Image, version: Version, counter: u32, floor: u32)
    ensures { image.new ≡ record image.old {
      running = record image.old.running { version = version; counter = counter };
      floor = floor;
    } }
{
    image.running.version = version;
    image.running.counter = counter;
    image.floor = floor;
}

#[tactic(auto, unfolding(crate::specs::TableReading::with_line_in_last))]
fn place_in_last(images: &mut ArrayVec<Image, MOST_IMAGES>, line: TableLine) -> bool
    ensures { MatchBool result (with_line_in_last images.old.items line ≡ Some images.new.items)
        (with_line_in_last images.old.items line ≡ None) }
{
    let count = images.len();
    count > 0 && place_in_image(&mut images[count - 1], line)
}

fn place_in_image(image: &mut Image, line: TableLine) -> bool
    ensures { MatchBool result (with_line image.old line ≡ Some image.new)
        (with_line image.old line ≡ None) }
{
    match line {
        TableLine::Image { .. } => false,
        TableLine::Needs(dependency) => place_needs(image, dependency),
        TableLine::NeedsOne(group) => place_needs_one(image, group),
        TableLine::Request { version, counter } => place_request(image, version, counter),
        TableLine::Damaged => place_damaged(image),
    }
}

fn place_needs(image: &mut Image, dependency: Dependency) -> bool
    ensures { MatchBool result (with_needs dependency image.old ≡ Some image.new)
        (with_needs dependency image.old ≡ None) }
{
    match &mut image.request {
        Request::None => place_dependency(&mut image.running, dependency),
        Request::Damaged => false,
        Request::Entry(entry) => place_dependency(entry, dependency),
    }
}

fn place_dependency(entry: &mut Entry, dependency: Dependency) -> bool
    ensures { MatchBool result (with_dependency dependency entry.old ≡ Some entry.new)
        (with_dependency dependency entry.old ≡ None) }
{
    entry.groups.is_empty() && entry.dependencies.try_push(dependency).is_ok()
}

fn place_needs_one(image: &mut Image, group: Group) -> bool
    ensures { MatchBool result (with_needs_one group image.old ≡ Some image.new)
        (with_needs_one group image.old ≡ None) }
{
    match &mut image.request {
        Request::None => place_group(&mut image.running, group),
        Request::Damaged => false,
        Request::Entry(entry) => place_group(entry, group),
    }
}

fn place_group(entry: &mut Entry, group: Group) -> bool
    ensures { MatchBool result (with_group group entry.old ≡ Some entry.new)
        (with_group group entry.old ≡ None) }
{
    entry.groups.try_push(group).is_ok()
}

fn place_request(image: &mut Image, version: Version, counter: u32) -> bool
    ensures { let asked = request.Entry (new_entry version counter) in
        MatchBool result (with_request image.old asked image.old.request ≡ Some image.new)
        (with_request image.old asked image.old.request ≡ None) }
{
    if !takes_a_request(image) {
        return false;
    }
    put_request(&mut image.request, version, counter);
    true
}

fn place_damaged(image: &mut Image) -> bool
    ensures { let asked = request.Damaged in
        MatchBool result (with_request image.old asked image.old.request ≡ Some image.new)
        (with_request image.old asked image.old.request ≡ None) }
{
    if !takes_a_request(image) {
        return false;
    }
    image.request = Request::Damaged;
    true
}

/// Returns whether nothing is requested of an image yet.
fn takes_a_request(image: &Image) -> bool
    ensures { (asked : Request) → with_request image.now asked image.now.request
        ≡ (if result then Some (record image.now { request = asked }) else None) }
{
    matches!(image.request, Request::None)
}

/// Writes a request without dependencies and groups. It is filled in its place, so that no entry is
/// copied.
fn put_request(place: &mut Request, version: Version, counter: u32)
    ensures { place.new ≡ request.Entry (new_entry version counter) }
{
    *place = Request::Entry(Entry::default());
    if let Request::Entry(entry) = place {
        entry.version = version;
        entry.counter = counter;
    }
}
