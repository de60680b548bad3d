//! Reads the output of a sweep.

use crate::cuts::{Cuts, TornWrite, tear_named};
use crate::found::{Found, SetTally};
use crate::marks::Mark;
use crate::tally::Tally;
use crate::text::found_text;
use arrayvec::ArrayVec;
use machine::Event;
use std::alloc::{AllocError, Global};
use std::str;
use version_order::Version;

/// The findings that are read from the lines of an output so far.
#[derive(Drop)]
struct Reader {
    found: Found,
    /// The runs of a line `end` whose images follow.
    pending: Option<Tally>,
}

/// Reads the findings of which this text is the output, into memory of `alloc`. Returns the number
/// of the first wrong line, from 1, if it is the output of no sweep.
///
/// # Errors
/// `AllocError` if memory is refused.
pub(crate) fn read_found(alloc: Global, text: &[u8]) -> Result<Result<Found, usize>, AllocError> {
    let mut reader = Reader {
        found: Found::nothing(alloc),
        pending: None,
    };
    let bad = reader.take_lines(text)?;
    // So every number is written as a sweep writes it, and every line is in its place.
    let same = found_text(alloc, &reader.found)?;
    let differs = first_difference(text, same.as_bytes());
    let Reader { found, pending } = reader;
    match (bad, differs) {
        (None, None) => Ok(Ok(found)),
        (Some(bad), Some(differs)) => Ok(Err(bad.min(differs))),
        (Some(line), None) | (None, Some(line)) => Ok(Err(line)),
    }
}

/// The number of the first line, from 1, in which two texts differ.
fn first_difference(one: &[u8], other: &[u8]) -> Option<usize> {
    if one == other {
        return None;
    }
    let same = one.iter().zip(other).take_while(|pair| pair.0 == pair.1);
    let lines = same.filter(|pair| *pair.0 == b'\n').count();
    Some(lines.saturating_add(1))
}

impl Reader {
    /// Reads the lines of a text. Returns the number of the first line, from 1, that is wrong where it
    /// stands.
    fn take_lines(&mut self, text: &[u8]) -> Result<Option<usize>, AllocError> {
        for (index, line) in text.split(|byte| *byte == b'\n').enumerate() {
            if !self.take_line(line)? {
                return Ok(Some(index.saturating_add(1)));
            }
        }
        Ok(None)
    }

    /// Reads a line. Returns whether it may stand here. After the last line comes an empty one.
    fn take_line(&mut self, line: &[u8]) -> Result<bool, AllocError> {
        let Ok(line) = str::from_utf8(line) else {
            return Ok(false);
        };
        if let Some(tally) = self.pending {
            return self.take_first_image(tally, line);
        }
        let Some((word, rest)) = line.split_once(' ') else {
            return Ok(line.is_empty());
        };
        match word {
            "runs" => Ok(self.take_runs(rest)),
            "end" => Ok(self.take_end(rest)),
            "run" => Ok(self.take_image(rest)),
            "other" => Ok(set_tally(&mut self.found.others, rest)),
            "refused" => Ok(set_tally(&mut self.found.refused, rest)),
            _ => self.take_event(rest),
        }
    }

    /// Reads what follows the number of an event.
    fn take_event(&mut self, rest: &str) -> Result<bool, AllocError> {
        let (event, marks) = match rest.split_once(" from ") {
            Some((event, numbered)) => match numbered.split_once(' ') {
                Some((_, marks)) => (event, marks),
                None => return Ok(false),
            },
            None => (rest, ""),
        };
        let Some(event) = event_of(event) else {
            return Ok(false);
        };
        self.found.events.push(event)?;
        let is_read = self.take_marks(marks)?;
        let writes = self.found.marks.len().min(u32::MAX as usize) as u32;
        self.found.writes.push(writes)?;
        Ok(is_read)
    }

    /// Reads the characters of the writes of an event.
    fn take_marks(&mut self, marks: &str) -> Result<bool, AllocError> {
        for character in marks.chars() {
            let Some(mark) = Mark::of_character(character) else {
                return Ok(false);
            };
            self.found.marks.push(mark)?;
        }
        Ok(true)
    }

    /// Reads the number of runs.
    fn take_runs(&mut self, rest: &str) -> bool {
        let Ok(runs) = rest.parse() else {
            return false;
        };
        self.found.runs = runs;
        true
    }

    /// Reads the number of runs with the same end, and the first of them.
    fn take_end(&mut self, rest: &str) -> bool {
        self.pending = tally_of(rest);
        self.pending.is_some()
    }

    /// Reads the first line after a line `end`: its first image, or that an image is damaged.
    fn take_first_image(&mut self, tally: Tally, line: &str) -> Result<bool, AllocError> {
        self.pending = None;
        let is_damaged = line == "damaged";
        let versions = match is_damaged {
            true => None,
            false => Some(ArrayVec::new()),
        };
        let Ok(()) = self.found.sets.push(SetTally { versions, tally }) else {
            return Err(AllocError);
        };
        match line.strip_prefix("run ") {
            Some(rest) => Ok(self.take_image(rest)),
            None => Ok(is_damaged),
        }
    }

    /// Reads an image of the last set, after the word `run`.
    fn take_image(&mut self, rest: &str) -> bool {
        let Some(set) = self.found.sets.last_mut() else {
            return false;
        };
        let Some(versions) = &mut set.versions else {
            return false;
        };
        let Some((_, version)) = rest.split_once(' ') else {
            return false;
        };
        let Ok(version) = Version::parse(version) else {
            return false;
        };
        versions.try_push(version).is_ok()
    }
}

/// Reads a tally that isn't one of no runs. Returns whether it could be read.
fn set_tally(tally: &mut Tally, text: &str) -> bool {
    let Some(read) = tally_of(text) else {
        return false;
    };
    *tally = read;
    true
}

/// The tally that a text says: its number of runs and the cuts of the first of them.
fn tally_of(text: &str) -> Option<Tally> {
    let (runs, cuts) = text.split_once(' ')?;
    let runs = runs.parse().ok()?;
    if runs == 0 {
        return None;
    }
    let first = match cuts {
        "uncut" => None,
        _ => Some(cuts_of(cuts)?),
    };
    Some(Tally { runs, first })
}

/// The cuts that a text says.
fn cuts_of(text: &str) -> Option<Cuts> {
    match text.strip_prefix("cut ")?.split_once(" cut ") {
        Some((first, second)) => Some(Cuts::Two(cut_of(first)?, cut_of(second)?)),
        None => Some(Cuts::One(cut_of(text.strip_prefix("cut ")?)?)),
    }
}

/// The torn write that a text says, after the word `cut`.
fn cut_of(text: &str) -> Option<TornWrite> {
    let (write, tear) = text.split_once(' ')?;
    Some(TornWrite {
        write: write.parse().ok()?,
        tear: tear_named(tear)?,
    })
}

/// The event that a text says, without its bytes.
fn event_of(text: &str) -> Option<Event<()>> {
    match text {
        "accept" => return Some(Event::Accept(())),
        "boot" => return Some(Event::Boot),
        "reset" => return Some(Event::Reset),
        _ => {}
    }
    let (word, image) = text.split_once(' ')?;
    let image = image.parse().ok()?;
    match word {
        "piece" => Some(Event::Piece(image, ())),
        "finish" => Some(Event::Finish(image)),
        "withdraw" => Some(Event::Withdraw(image)),
        "confirm" => Some(Event::Confirm(image)),
        _ => None,
    }
}
