//! Explains which needs of images a set doesn't meet, and why a report refuses requests.

use crate::Result;
use crate::texts::Images;
use common::limits::MOST_IMAGES;
use device_texts::NoteList;
use reports::{Entry, Image, Reason, Refusal, Report, Request, Table};
use std::fmt;
use version_order::{Dependency, Group, Version};

/// A version for each image of a device, or `None` if the device has no such image.
#[derive(Clone, Copy, Default)]
struct Versions {
    versions: [Option<Version>; MOST_IMAGES],
    /// Whether they are the best that are still possible, and not those of a set.
    are_best: bool,
}

impl Versions {
    /// The versions of the set that a report takes. An image whose request is taken and intact has the
    /// requested version, any other the running one.
    fn of_set(table: &Table, report: &Report) -> Versions {
        let mut versions = Versions::default();
        for (number, image) in table.images.iter().enumerate() {
            versions.set(number, version_in(image, is_taken(report, number)));
        }
        versions
    }

    /// The best versions that may run together with the request of image `own`, after the refusals
    /// `before`. Image `own` has its requested version. An image whose request is refused has the
    /// running version. Any other image has the newer of the requested and the running version.
    fn at_best(table: &Table, before: &[Refusal], own: u8) -> Versions {
        let mut versions = Versions::default();
        versions.are_best = true;
        for (number, image) in table.images.iter().enumerate() {
            let requested = version_in(image, true);
            let running = image.running.version;
            let best = if number == usize::from(own) {
                requested
            } else if times_refused(before, number) > 0 {
                running
            } else {
                requested.max(running)
            };
            versions.set(number, best);
        }
        versions
    }

    fn set(&mut self, number: usize, version: Version) {
        if let Some(place) = self.versions.get_mut(number) {
            *place = Some(version);
        }
    }

    /// The version of this image.
    fn of(&self, image: u8) -> Option<Version> {
        *self.versions.get(usize::from(image))?
    }

    /// Whether these versions meet a dependency.
    fn meet(&self, need: &Dependency) -> bool {
        matches!(self.of(need.image), Some(version) if version >= need.minimum)
    }

    /// Whether these versions meet at least one alternative of a group.
    fn meet_one(&self, group: &Group) -> bool {
        group.alternatives.iter().any(|need| self.meet(need))
    }
}

/// The text before a dependency.
const NEEDS: &str = "needs";

/// The text before the alternatives of a group.
const NEEDS_ONE: &str = "needs one of these:";

/// The end of a sentence: one of these texts, what an image needs, and the versions of that.
#[derive(Clone, Copy)]
struct Needs<'n, 'v>(&'static str, &'n [Dependency], &'v Versions);

impl fmt::Display for Needs<'_, '_> {
    fn fmt<W: fmt::Write>(&self, f: &mut fmt::Formatter<W>) -> fmt::Result {
        f.write_str(self.0)?;
        let versions = self.2;
        for (place, need) in self.1.iter().enumerate() {
            let Dependency { image, minimum } = need;
            let mark = if place > 0 { ";" } else { "" };
            write!(f, "{mark} image {image} from {minimum} on, which ")?;
            match versions.of(*image) {
                Some(version) if versions.are_best => write!(f, "can have {version} at best")?,
                Some(version) => write!(f, "is {version}")?,
                None => f.write_str("isn't there")?,
            }
        }
        Ok(())
    }
}

/// Adds a sentence for each dependency and group of the running images of a table that the running
/// versions don't meet.
pub fn explain_running(notes: &mut NoteList, table: &Table) -> Result {
    explain_set(notes, table, &Report::default())
}

/// Adds a sentence for each dependency and group that the set doesn't meet that a report takes.
pub fn explain_set(notes: &mut NoteList, table: &Table, report: &Report) -> Result {
    let versions = Versions::of_set(table, report);
    for (number, image) in table.images.iter().enumerate() {
        let entry = match &image.request {
            Request::Entry(entry) if is_taken(report, number) => entry,
            _ => &image.running,
        };
        explain_entry(notes, &versions, number, entry)?;
    }
    Ok(())
}

/// Adds the dependencies and the groups of an image that these versions don't meet.
fn explain_entry(
    notes: &mut NoteList,
    versions: &Versions,
    number: usize,
    entry: &Entry,
) -> Result {
    let own = entry.version;
    for need in entry.dependencies.iter() {
        if !versions.meet(need) {
            let alone = [*need];
            let needs = Needs(NEEDS, alone.as_slice(), versions);
            notes.add(format_args!("image {number}: {own} {needs}"))?;
        }
    }
    for group in entry.groups.iter() {
        if !versions.meet_one(group) {
            let needs = Needs(NEEDS_ONE, group.alternatives.as_slice(), versions);
            notes.add(format_args!("image {number}: {own} {needs}"))?;
        }
    }
    Ok(())
}

/// Adds a sentence for each request that a report refuses, with the versions that the reason
/// compares.
pub fn explain_refusals(notes: &mut NoteList, table: &Table, report: &Report) -> Result {
    let refusals = report.refusals.as_slice();
    for (place, refusal) in refusals.iter().enumerate() {
        let before = refusals.get(..place).unwrap_or_default();
        if let Some(image) = table.images.get(usize::from(refusal.image)) {
            explain_refusal(notes, table, before, image, refusal)?;
        }
    }
    Ok(())
}

/// Adds why the request of an image is refused, after the refusals `before`.
fn explain_refusal(
    notes: &mut NoteList,
    table: &Table,
    before: &[Refusal],
    image: &Image,
    refusal: &Refusal,
) -> Result {
    let number = refusal.image;
    let Request::Entry(entry) = &image.request else {
        return notes.add(format_args!(
            "image {number}: the bytes that are requested are no intact image"
        ));
    };
    let versions = Versions::at_best(table, before, number);
    let own = entry.version;
    match &refusal.reason {
        Reason::Damaged => Ok(()),
        Reason::Older => {
            let running = image.running.version;
            notes.add(format_args!(
                "image {number}: {own} is requested, and {running} runs, which is newer"
            ))
        }
        Reason::Counter => {
            let (counter, floor) = (entry.counter, image.floor);
            notes.add(format_args!(
                "image {number}: {own} is requested with the security counter {counter}, below the \
                 floor {floor}"
            ))
        }
        Reason::NoSuchImage(needed) => {
            let all = Images(table.images.len());
            notes.add(format_args!("image {number}: {own} needs image {needed}; there are {all}"))
        }
        Reason::Needs(image, minimum) => {
            let (image, minimum) = (*image, *minimum);
            let alone = [Dependency { image, minimum }];
            let needs = Needs(NEEDS, alone.as_slice(), &versions);
            notes.add(format_args!("image {number}: {own} {needs}"))
        }
        Reason::NeedsOne(group) => {
            let needs = Needs(NEEDS_ONE, group.alternatives.as_slice(), &versions);
            notes.add(format_args!("image {number}: {own} {needs}"))
        }
    }
}

/// Whether a report takes the request of this image.
pub fn is_taken(report: &Report, number: usize) -> bool {
    matches!(report.images.get(number), Some(image) if image.is_taken)
}

/// The version of an image: the requested one if the request is taken and intact, else the running
/// one.
pub fn version_in(image: &Image, is_taken: bool) -> Version {
    match &image.request {
        Request::Entry(entry) if is_taken => entry.version,
        _ => image.running.version,
    }
}

/// The number of these refusals that are for this image.
pub fn times_refused(refusals: &[Refusal], number: usize) -> usize {
    let mut times: usize = 0;
    for refusal in refusals {
        if usize::from(refusal.image) == number {
            times = times.saturating_add(1);
        }
    }
    times
}
