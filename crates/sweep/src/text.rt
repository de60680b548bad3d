//! Prints the findings of a sweep.
ghost use Rattle.std.specs.Fmt.{WritesOnOk};
ghost use Rattle.std.specs.Prelude.{◌≡◌, IfOk, Some, string_bytes};
ghost use Rattle.sweep.specs.FoundText.{event_line, found_text, numbered_event_text, set_text};
ghost use Rattle.sweep.specs.FoundText.{sets_text, tally_text, version_line, versions_text};
ghost use Rattle.sweep.specs.FoundText.{writes_text, written_event, wrong_text};
ghost use Rattle.sweep.specs.Findings.{marks_text, numbered};

use crate::found::{EventWrites, Found, SetTally, image_of, kind_of};
use crate::marks::Mark;
use crate::tally::Tally;
use machine::Event;
use std::alloc::{AllocError, Global};
use std::fmt;
use version_order::Version;

/// The text of a sweep, in memory of `alloc`. It has a line for each event, with a character for
/// each write; the number of runs; the sets that ran at the end of runs; and the runs that went
/// wrong.
///
/// # Errors
/// `AllocError` if memory is refused.
pub fn found_text(alloc: Global, found: &Found) -> Result<String, AllocError>
    ensures { IfOk result (λ text. string_bytes text ≡ found_text found.now) }
{
    format!(in alloc; "{found}")
}

impl fmt::Display for Found {
    ghost output = { λ found. Some (found_text found) };

    fn fmt<W: fmt::Write>(&self, f: &mut fmt::Formatter<W>) -> fmt::Result {
        write_events(f, self, self.events.as_slice())?;
        let runs = self.runs;
        writeln!(f, "runs {runs}")?;
        write_sets(f, self.sets.as_slice())?;
        write_wrong(f, "other", self.others)?;
        write_wrong(f, "refused", self.refused)
    }
}

/// Writes the lines of these events of the findings, from the first one on.
fn write_events<W: fmt::Write>(
    f: &mut fmt::Formatter<W>,
    found: &Found,
    events: &[Event<()>],
) -> fmt::Result
    ensures { WritesOnOk W.write_str_gives f.old result
        (numbered (event_line found.now) 0 events.now) f.new }
{
    for (place, event) in events.iter().enumerate() {
        write_event(f, place + 1, event, found.writes_of(place))?;
    }
    Ok(())
}

/// Writes the line of the event of this number, counted from 1, with its writes.
fn write_event<W: fmt::Write>(
    f: &mut fmt::Formatter<W>,
    number: usize,
    event: &Event<()>,
    writes: EventWrites<'_>,
) -> fmt::Result
    ensures { WritesOnOk W.write_str_gives f.old result
        (written_event number event.now writes.entry.before writes.entry.marks.now) f.new }
{
    let event = NumberedEvent { number, event };
    let writes = WritesText(writes);
    writeln!(f, "{event}{writes}")
}

/// An event with its number, counted from 1. It is printed as the line of a script without its
/// files, after the number.
#[derive(Clone, Copy)]
pub(crate) struct NumberedEvent<'e> {
    /// The number.
    pub number: usize,
    /// The event.
    pub event: &'e Event<()>,
}

impl fmt::Display for NumberedEvent<'_> {
    ghost output = { λ it. Some (numbered_event_text it.number it.event.now) };

    fn fmt<W: fmt::Write>(&self, f: &mut fmt::Formatter<W>) -> fmt::Result {
        let number = self.number;
        let kind = kind_of(self.event);
        match image_of(self.event) {
            Some(image) => write!(f, "{number} {kind} {image}"),
            None => write!(f, "{number} {kind}"),
        }
    }
}

/// The writes of an event. They are printed as the number of the first one and a character for each,
/// if there are any.
#[derive(Clone, Copy)]
struct WritesText<'f>(EventWrites<'f>);

impl fmt::Display for WritesText<'_> {
    ghost output = { λ it. Some (writes_text it.0.before it.0.marks.now) };

    fn fmt<W: fmt::Write>(&self, f: &mut fmt::Formatter<W>) -> fmt::Result {
        let EventWrites { before, marks } = self.0;
        if marks.is_empty() {
            return f.write_str("");
        }
        let first = u64::from(before) + 1;
        write!(f, " from {first} ")?;
        write_marks(f, marks)
    }
}

/// Writes a character for each mark.
fn write_marks<W: fmt::Write>(f: &mut fmt::Formatter<W>, marks: &[Mark]) -> fmt::Result
    ensures { WritesOnOk W.write_str_gives f.old result (marks_text marks.now) f.new }
{
    for mark in marks {
        f.write_str(mark.character())?;
    }
    Ok(())
}

/// Writes the sets that ran at the end of a run, each with its number of runs and the cuts of the
/// first one.
fn write_sets<W: fmt::Write>(f: &mut fmt::Formatter<W>, sets: &[SetTally]) -> fmt::Result
    ensures { WritesOnOk W.write_str_gives f.old result (sets_text sets.now) f.new }
{
    for set in sets {
        write_set(f, set)?;
    }
    Ok(())
}

/// Writes a set with its number of runs and the cuts of the first one.
fn write_set<W: fmt::Write>(f: &mut fmt::Formatter<W>, set: &SetTally) -> fmt::Result
    ensures { WritesOnOk W.write_str_gives f.old result (set_text set.now) f.new }
{
    write_tally(f, "end", set.tally)?;
    match &set.versions {
        Some(versions) => write_versions(f, versions.as_slice()),
        None => f.write_str("damaged\n"),
    }
}

/// Writes the images with these versions, from 0 on.
fn write_versions<W: fmt::Write>(f: &mut fmt::Formatter<W>, versions: &[Version]) -> fmt::Result
    ensures { WritesOnOk W.write_str_gives f.old result (versions_text versions.now) f.new }
{
    for (image, version) in versions.iter().enumerate() {
        write_version(f, image, *version)?;
    }
    Ok(())
}

/// Writes the line of the image of this number with its version.
fn write_version<W: fmt::Write>(
    f: &mut fmt::Formatter<W>,
    image: usize,
    version: Version,
) -> fmt::Result
    ensures { WritesOnOk W.write_str_gives f.old result (version_line image version) f.new }
{
    writeln!(f, "run {image} {version}")
}

/// Writes a line for runs that went wrong, if there are any.
fn write_wrong<W: fmt::Write>(f: &mut fmt::Formatter<W>, word: &str, tally: Tally) -> fmt::Result
    ensures { WritesOnOk W.write_str_gives f.old result (wrong_text word.now tally) f.new }
{
    if tally.runs == 0 {
        return f.write_str("");
    }
    write_tally(f, word, tally)
}

/// Writes a line with a word, a number of runs and the cuts of the first of them.
fn write_tally<W: fmt::Write>(f: &mut fmt::Formatter<W>, word: &str, tally: Tally) -> fmt::Result
    ensures { WritesOnOk W.write_str_gives f.old result (tally_text word.now tally) f.new }
{
    let runs = tally.runs;
    match tally.first {
        Some(cuts) => writeln!(f, "{word} {runs} {cuts}"),
        None => writeln!(f, "{word} {runs} uncut"),
    }
}
