//! Draws a sweep: rows for each event, with a square for each write.

use crate::found::{EventWrites, Found};
use crate::marks::Mark;
use crate::notes::BootOutcome;
use crate::text::NumberedEvent;
use machine::Event;
use std::alloc::{AllocError, Global};

/// The left edge of the squares, in pixels.
const LEFT: u64 = 150;

/// The width of a square, in pixels.
const SQUARE: u64 = 8;

/// The height of a row, in pixels.
const ROW: u64 = 22;

/// The number of squares in a row. An event with more writes has several rows.
const MOST_SQUARES: u32 = 120;

/// The width of the legend, in pixels.
const LEGEND: u64 = 280;

/// The marks, in the order of the legend.
const MARKS: [Mark; 8] = [
    Mark::All(BootOutcome::Plain),
    Mark::All(BootOutcome::Trial),
    Mark::All(BootOutcome::Permanent),
    Mark::All(BootOutcome::TrialAgain),
    Mark::All(BootOutcome::Reverted),
    Mark::All(BootOutcome::Refused),
    Mark::Several,
    Mark::NotTried,
];

/// The SVG picture of a sweep, in memory of `alloc`. The legend is on the right of the rows.
///
/// # Errors
/// `AllocError` if memory is refused.
pub fn picture_of(alloc: Global, found: &Found) -> Result<String, AllocError> {
    let right = right_of(&found.writes);
    let width = right.saturating_add(LEGEND);
    let height = height_of(rows_of(&found.writes).max(MARKS.len() as u64)).saturating_add(ROW / 2);
    let mut text = String::new(alloc);
    writeln!(
        text,
        "<svg xmlns=\"http://www.w3.org/2000/svg\" width=\"{width}\" height=\"{height}\" \
         viewBox=\"0 0 {width} {height}\" font-family=\"sans-serif\" font-size=\"12\">\n\
         <rect width=\"100%\" height=\"100%\" fill=\"white\"/>"
    )?;
    let mut row = 0;
    for (place, event) in found.events.iter().enumerate() {
        let writes = found.writes_of(place);
        draw_event(&mut text, row, place, event)?;
        draw_writes(&mut text, row, writes)?;
        row = row.saturating_add(rows_for(writes.marks.len() as u64));
    }
    draw_legend(&mut text, right)?;
    text.push_str("</svg>\n")?;
    Ok(text)
}

/// The number of rows of an event with this many writes.
fn rows_for(writes: u64) -> u64 {
    writes.div_ceil(u64::from(MOST_SQUARES)).max(1)
}

/// The number of rows of all events.
fn rows_of(writes: &[u32]) -> u64 {
    let mut before = 0;
    let mut rows: u64 = 0;
    for end in writes {
        rows = rows.saturating_add(rows_for(u64::from(end.saturating_sub(before))));
        before = *end;
    }
    rows
}

/// The left edge of the legend: after the longest row.
fn right_of(writes: &[u32]) -> u64 {
    let mut before = 0;
    let mut most = 0;
    for end in writes {
        most = end.saturating_sub(before).max(most);
        before = *end;
    }
    LEFT + SQUARE * (u64::from(most.min(MOST_SQUARES)) + 2)
}

/// The distance of a row from the top.
fn height_of(row: u64) -> u64 {
    row.saturating_mul(ROW).saturating_add(ROW / 2)
}

/// Draws the event of this index in a row.
fn draw_event(
    text: &mut String,
    row: u64,
    place: usize,
    event: &Event<()>,
) -> Result<(), AllocError> {
    let base = height_of(row).saturating_add(13);
    let number = place.saturating_add(1);
    let event = NumberedEvent { number, event };
    writeln!(text, "<text x=\"8\" y=\"{base}\">{event}</text>")
}

/// Draws a square for each write of an event, from this row on.
fn draw_writes(text: &mut String, row: u64, writes: EventWrites<'_>) -> Result<(), AllocError> {
    let mut write = u64::from(writes.before);
    for (place, mark) in writes.marks.iter().enumerate() {
        let line = place as u64 / u64::from(MOST_SQUARES);
        let top = height_of(row.saturating_add(line));
        let left = LEFT + SQUARE * (place as u64 % u64::from(MOST_SQUARES));
        write = write.saturating_add(1);
        draw_square(text, *mark, left, top)?;
        let name = name_of(*mark);
        writeln!(text, "<title>write {write}: {name}</title></rect>")?;
    }
    Ok(())
}

/// Draws the start of a square.
fn draw_square(text: &mut String, mark: Mark, left: u64, top: u64) -> Result<(), AllocError> {
    let color = color_of(mark);
    write!(
        text,
        "<rect x=\"{left}\" y=\"{top}\" width=\"7\" height=\"16\" \
         fill=\"{color}\" stroke=\"#999\" stroke-width=\"0.5\">"
    )
}

/// Draws the legend of the squares, from this left edge on.
fn draw_legend(text: &mut String, left: u64) -> Result<(), AllocError> {
    let right = left.saturating_add(2 * SQUARE);
    for (row, mark) in MARKS.iter().enumerate() {
        let top = height_of(row as u64);
        let base = top.saturating_add(13);
        draw_square(text, *mark, left, top)?;
        let name = name_of(*mark);
        writeln!(
            text,
            "</rect>\n<text x=\"{right}\" y=\"{base}\">{name}</text>"
        )?;
    }
    Ok(())
}

/// What a square of this mark says about the next boot.
fn name_of(mark: Mark) -> &'static str {
    match mark {
        Mark::NotTried => "not tried",
        Mark::Several => "the next boot said one thing or another",
        Mark::All(BootOutcome::Plain) => "the next boot took nothing",
        Mark::All(BootOutcome::Trial) => "the next boot took a set on trial",
        Mark::All(BootOutcome::Permanent) => "the next boot took a set for good",
        Mark::All(BootOutcome::Reverted) => "the next boot went back",
        Mark::All(BootOutcome::TrialAgain) => "the next boot tried the set again",
        Mark::All(BootOutcome::Refused) => "the next boot gave no answer",
    }
}

/// The color of a square.
fn color_of(mark: Mark) -> &'static str {
    match mark {
        Mark::NotTried => "white",
        Mark::Several => "#444444",
        Mark::All(BootOutcome::Plain) => "#d5dae1",
        Mark::All(BootOutcome::Trial) => "#f0b429",
        Mark::All(BootOutcome::Permanent) => "#3d9a57",
        Mark::All(BootOutcome::Reverted) => "#4a7fd0",
        Mark::All(BootOutcome::TrialAgain) => "#f7dc9b",
        Mark::All(BootOutcome::Refused) => "#d63333",
    }
}
