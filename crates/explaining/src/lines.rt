//! Explains which lines of tables, reports, fleets, summaries and outputs of sweeps are wrong.

use crate::Result;
use crate::texts::Shown;
use common::limits::{MOST_DEPENDENCIES, MOST_GROUPS, MOST_IMAGES};
use common::lines::first_line;
use device_texts::NoteList;
use host::BadText;
use reports::{Entry, MOST_REFUSALS, Report, Request, Table};
use std::fmt;

/// How versions and numbers are written in tables and reports.
const WORDS: [&str; 2] = [
    "a VERSION is major.minor.revision+build, of which last parts may be left out; numbers are",
    "decimal, without leading zeros; one space separates words",
];

/// What may follow `refuse I` in a line.
const REASONS: [&str; 2] = [
    "a REASON is damaged, older, counter, no-such-image J, needs J VERSION, or needs-one with",
    "one to four pairs J VERSION",
];

/// A line of a text, and the lines before it.
#[derive(Clone, Copy)]
pub struct Place<'a> {
    /// The lines before it.
    pub before: &'a [u8],
    /// The line, without its line feed.
    pub line: &'a [u8],
}

/// The line of this number, from 1. `None` if the text has fewer lines.
pub fn line_at(text: &[u8], number: usize) -> Option<Place<'_>> {
    let mut rest = text;
    for count in 1..=number {
        if rest.is_empty() {
            return None;
        }
        let (line, after) = first_line(rest);
        if count == number {
            let before = text.get(..text.len().saturating_sub(rest.len()))?;
            return Some(Place { before, line });
        }
        rest = after;
    }
    None
}

/// Adds the contents of a line of a text of this kind.
pub fn add_line(notes: &mut NoteList, kind: &str, number: usize, line: &[u8]) -> Result {
    let shown = Shown(line);
    notes.add(format_args!("{kind} line {number} is `{shown}`"))?;
    if line.last() == Some(&b'\r') {
        notes.add("a carriage return ends it; a line ends with a line feed alone")?;
    }
    Ok(())
}

/// Adds the contents of the first wrong line of a table, and what is allowed there.
pub fn explain_table_line(notes: &mut NoteList, bad: &BadText) -> Result {
    let Some(place) = line_at(&bad.text, bad.line) else {
        return notes.add("the table is empty; it begins with `image 0 VERSION COUNTER FLOOR`");
    };
    add_line(notes, "table", bad.line, place.line)?;
    let choices = TableChoices(Table::parse(place.before).unwrap_or_default());
    notes.add(format_args!("here may stand{choices}"))?;
    add_each(notes, WORDS.as_slice())
}

/// Adds the contents of the first wrong line of a report, and what is allowed there.
pub fn explain_report_line(notes: &mut NoteList, bad: &BadText) -> Result {
    let Some(place) = line_at(&bad.text, bad.line) else {
        return notes.add("the report is empty; it begins with `run 0 VERSION` or `take 0 VERSION`");
    };
    add_line(notes, "report", bad.line, place.line)?;
    let before = Report::parse(place.before).unwrap_or_default();
    let (images, refusals) = (before.images.len(), before.refusals.len());
    let choices = ReportChoices { images, refusals };
    notes.add(format_args!("here may stand{choices}"))?;
    if images > 0 {
        add_each(notes, REASONS.as_slice())?;
    }
    add_each(notes, WORDS.as_slice())
}

/// Adds these sentences.
fn add_each(notes: &mut NoteList, sentences: &[&'static str]) -> Result {
    for sentence in sentences {
        notes.add(*sentence)?;
    }
    Ok(())
}

/// The lines that may follow a table.
#[derive(Drop)]
struct TableChoices(Table);

impl fmt::Display for TableChoices {
    fn fmt<W: fmt::Write>(&self, f: &mut fmt::Formatter<W>) -> fmt::Result {
        let images = self.0.images.as_slice();
        if let Some(image) = images.last() {
            match &image.request {
                Request::None => {
                    write_needs(f, &image.running)?;
                    f.write_str(" `request VERSION COUNTER`, `damaged`,")?;
                }
                Request::Entry(entry) => write_needs(f, entry)?,
                Request::Damaged => {}
            }
        }
        let count = images.len();
        if count < MOST_IMAGES {
            write!(f, " `image {count} VERSION COUNTER FLOOR`")
        } else {
            write!(f, " no further image: a table has {MOST_IMAGES} at most")
        }
    }
}

/// Writes the dependencies that may follow those of an entry.
fn write_needs<W: fmt::Write>(f: &mut fmt::Formatter<W>, entry: &Entry) -> fmt::Result {
    if entry.groups.is_empty() && entry.dependencies.len() < MOST_DEPENDENCIES {
        f.write_str(" `needs J VERSION`,")?;
    }
    if entry.groups.len() < MOST_GROUPS {
        f.write_str(" `needs-one J VERSION ..`,")?;
    }
    Ok(())
}

/// The lines that may follow a report with these numbers of images and refusals.
#[derive(Clone, Copy)]
struct ReportChoices {
    images: usize,
    refusals: usize,
}

impl fmt::Display for ReportChoices {
    fn fmt<W: fmt::Write>(&self, f: &mut fmt::Formatter<W>) -> fmt::Result {
        let count = self.images;
        if count < MOST_IMAGES && self.refusals == 0 {
            write!(f, " `run {count} VERSION`, `take {count} VERSION`")?;
            if count == 0 {
                return Ok(());
            }
            f.write_str(",")?;
        }
        if self.refusals < MOST_REFUSALS {
            f.write_str(" `refuse I REASON`")
        } else {
            write!(
                f,
                " nothing more: a report has {MOST_REFUSALS} refusals at most"
            )
        }
    }
}

/// Adds the first wrong line of a text, and what `allowed` says of its lines.
pub fn explain_line(notes: &mut NoteList, bad: &BadText, allowed: &'static str) -> Result {
    let number = bad.line;
    if let Some(place) = line_at(&bad.text, number) {
        let shown = Shown(place.line);
        notes.add(format_args!("line {number} is `{shown}`"))?;
    }
    notes.add(allowed)
}
