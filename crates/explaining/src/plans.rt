//! Explains the results of the devices of a plan, and the rows of its summary.

use crate::{Result, write_notes};
use device_texts::NoteList;
use inspecting::{Outcome, PlanNotes, RowKey, Rows, Tally};
use reports::{Reason, Refusal, Report};
use std::alloc::Global;
use std::fmt;
use std::io::Write;
use version_order::Dependency;

/// Says why the devices of a plan have their results, and what the rows of its summary mean.
#[derive(Drop)]
pub struct DeviceNotes<'e, E> {
    alloc: Global,
    err: &'e mut E,
}

impl<'e, E: Write> DeviceNotes<'e, E> {
    /// The notes on devices or rows, in memory of `alloc`. Those on a text go to `err`.
    pub fn new(alloc: Global, err: &'e mut E) -> Self {
        DeviceNotes { alloc, err }
    }
}

// If memory runs out in one of these calls, the notes so far stay.
impl<E: Write> PlanNotes for DeviceNotes<'_, E> {
    fn explain(&mut self, name: &str, outcome: &Outcome, told: &mut NoteList) {
        let _ = explain_outcome(told, name, outcome);
    }

    fn explain_rows(&mut self, rows: &Rows, told: &mut NoteList) {
        let _ = add_rows(told, self.alloc, rows);
    }

    fn write(&mut self, told: &NoteList) {
        write_notes(self.alloc, told, self.err);
    }
}

/// Adds why the device of this name refuses requests, or why it has no report.
fn explain_outcome(notes: &mut NoteList, name: &str, outcome: &Outcome) -> Result {
    match outcome {
        Outcome::Decided(decision) => explain_planned(notes, name, &decision.report),
        Outcome::NotValid => {
            notes.add(format_args!("{name} runs images that don't fit each other"))
        }
        Outcome::BadLine(line) => notes.add(format_args!(
            "{name} has a bad table: its line {line} is the first wrong one"
        )),
        Outcome::TooLong => {
            notes.add(format_args!("{name} has a table of more than 65536 bytes"))
        }
    }
}

/// Adds why the device of this name refuses each request that its report refuses.
fn explain_planned(notes: &mut NoteList, name: &str, report: &Report) -> Result {
    for refusal in report.refusals.iter() {
        explain_refused(notes, name, report, refusal)?;
    }
    Ok(())
}

/// Adds why the device of this name refuses a request.
fn explain_refused(notes: &mut NoteList, name: &str, report: &Report, refusal: &Refusal) -> Result {
    let number = refusal.image;
    match report.images.get(usize::from(number)) {
        Some(image) if refusal.reason == Reason::Older => {
            let running = image.version;
            notes.add(format_args!(
                "{name} refuses image {number}, because {running} runs, which is newer"
            ))
        }
        _ => {
            let why = Why(&refusal.reason);
            notes.add(format_args!("{name} refuses image {number}, because {why}"))
        }
    }
}

/// A reason to refuse an image, as the end of a sentence.
#[derive(Clone, Copy)]
struct Why<'a>(&'a Reason);

impl fmt::Display for Why<'_> {
    fn fmt<W: fmt::Write>(&self, f: &mut fmt::Formatter<W>) -> fmt::Result {
        match self.0 {
            Reason::Damaged => f.write_str("the bytes that are requested are no intact image"),
            Reason::Older => f.write_str("a newer version runs"),
            Reason::Counter => f.write_str("its security counter is below the floor"),
            Reason::NoSuchImage(image) => write!(f, "it needs image {image}, which isn't there"),
            Reason::Needs(image, minimum) => write!(
                f,
                "no version of image {image} that is still possible is at least {minimum}"
            ),
            Reason::NeedsOne(group) => write_alternatives(f, group.alternatives.as_slice()),
        }
    }
}

/// Writes that no alternative of a group is met.
fn write_alternatives<W: fmt::Write>(
    f: &mut fmt::Formatter<W>,
    alternatives: &[Dependency],
) -> fmt::Result {
    f.write_str("none of these is still possible:")?;
    for (place, need) in alternatives.iter().enumerate() {
        let (image, minimum) = (need.image, need.minimum);
        let mark = if place > 0 { "," } else { "" };
        write!(f, "{mark} image {image} from {minimum} on")?;
    }
    Ok(())
}

/// Adds a sentence for each row: how many devices do what its key says, why, and which is the first. A
/// key that `plan` doesn't count has none.
fn add_rows(notes: &mut NoteList, alloc: Global, rows: &Rows) -> Result {
    for (key, tally) in rows.iter() {
        let key = RowKey::of(alloc, key)?;
        add_row(notes, &key, tally)?;
    }
    Ok(())
}

/// Adds the sentence for a row.
fn add_row(notes: &mut NoteList, key: &RowKey, tally: &Tally) -> Result {
    let Some((one, many)) = verbs_of(key) else {
        return Ok(());
    };
    let (count, first, what) = (tally.count, tally.first.as_str(), What(key));
    if count == 1 {
        notes.add(format_args!("1 device {one}{what}; it is {first}"))
    } else {
        notes.add(format_args!("{count} devices {many}{what}; the first is {first}"))
    }
}

/// Returns what one device and what several devices with this key do.
fn verbs_of(key: &RowKey) -> Option<(&'static str, &'static str)> {
    match key {
        RowKey::Device => Some(("is in the fleet", "are in the fleet")),
        RowKey::Bad => Some(("has a bad table", "have bad tables")),
        RowKey::NotValid => Some((
            "runs images that don't fit each other",
            "run images that don't fit each other",
        )),
        RowKey::Take(_) => Some(("takes", "take")),
        RowKey::Refuse(_, _) => Some(("refuses", "refuse")),
        RowKey::Other => None,
    }
}

/// What the devices with a key take, or refuse and why.
#[derive(Clone, Copy)]
struct What<'a>(&'a RowKey);

impl fmt::Display for What<'_> {
    fn fmt<W: fmt::Write>(&self, f: &mut fmt::Formatter<W>) -> fmt::Result {
        match self.0 {
            RowKey::Take(images) => write_taken(f, images.as_slice()),
            RowKey::Refuse(version, refusal) => {
                let (image, why) = (refusal.image, Why(&refusal.reason));
                match version {
                    Some(version) => write!(f, " image {image} version {version}, because {why}"),
                    None => write!(f, " image {image}, because {why}"),
                }
            }
            _ => Ok(()),
        }
    }
}

/// Writes the images and versions of the key of a set.
fn write_taken<W: fmt::Write>(f: &mut fmt::Formatter<W>, images: &[Dependency]) -> fmt::Result {
    if images.is_empty() {
        return f.write_str(" nothing");
    }
    for (place, taken) in images.iter().enumerate() {
        let (image, version) = (taken.image, taken.minimum);
        let mark = if place > 0 { "," } else { "" };
        write!(f, "{mark} image {image} version {version}")?;
    }
    Ok(())
}
