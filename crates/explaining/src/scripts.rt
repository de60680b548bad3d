//! Explains what is wrong with a line of a script, and finds the line that names a file.

use crate::Result;
use crate::lines::{add_line, line_at};
use crate::texts::Shown;
use common::ascii::{cut, number, number_u8};
use common::lines::first_line;
use device_texts::{Event, FileText, Line, NoteList, line_of};
use host::{ScriptFault, ScriptLine, Source};

/// Adds the contents of a wrong line, and why it is wrong.
pub fn explain_script_line(notes: &mut NoteList, bad: &ScriptLine) -> Result {
    let Some(script) = &bad.script else {
        return Ok(());
    };
    let Some(place) = line_at(script, bad.line) else {
        return Ok(());
    };
    add_line(notes, "script", bad.line, place.line)?;
    match (bad.fault, line_of(place.line)) {
        (ScriptFault::Spelling | ScriptFault::TooLong, None) => explain_spelling(notes, place.line),
        (ScriptFault::Order, Some(Line::Cut { write, .. })) => {
            explain_order(notes, place.before, write)
        }
        (ScriptFault::Cut, _) => {
            notes.add("a sweep cuts each write itself, and its script cuts none")
        }
        (ScriptFault::InputRead, _) => notes.add(
            "standard input is read once, and was read before",
        ),
        (ScriptFault::PartNumbers, _) => notes.add(
            "a file may be followed by two numbers, its first byte and how many: decimal, without \
             leading zeros",
        ),
        (ScriptFault::NoPart(length), Some(Line::Event(event))) => {
            explain_part(notes, event, length)
        }
        _ => Ok(()),
    }
}

/// Adds why the line that cuts this write can't follow these lines.
fn explain_order(notes: &mut NoteList, before: &[u8], write: u32) -> Result {
    let mut rest = before;
    let mut last = 0;
    for _ in 0..before.len() {
        if rest.is_empty() {
            break;
        }
        let (line, after) = first_line(rest);
        rest = after;
        match line_of(line) {
            Some(Line::Cut { write, torn: _ }) => last = write,
            _ => return notes.add("cuts come before the first event"),
        }
    }
    notes.add(format_args!("the numbers of cuts rise, and write {write} can't follow write {last}"))
}

/// Adds that the file of an event doesn't have the part that its line names, and the length of the
/// file if that is known.
fn explain_part(notes: &mut NoteList, event: Event<FileText<'_>>, length: Option<u64>) -> Result {
    let (Event::Accept(file) | Event::Piece(_, file)) = event else {
        return Ok(());
    };
    let Some((from, count)) = file.part.and_then(|part| part.numbers()) else {
        return Ok(());
    };
    let name = Shown(file.name.as_bytes());
    match length {
        Some(length) => notes.add(format_args!(
            "{name} has {length} bytes, and not {count} from byte {from} on, the first being byte 0"
        )),
        None => notes.add(format_args!(
            "{name} doesn't have {count} bytes from byte {from} on, the first being byte 0"
        )),
    }
}

/// Adds what is wrong with the spelling of a line.
fn explain_spelling(notes: &mut NoteList, line: &[u8]) -> Result {
    let (word, fields) = cut(line, b' ');
    let rest = fields.unwrap_or_default();
    let shown = Shown(word);
    match str::from_utf8(word).unwrap_or("") {
        "cut" => explain_cut(notes, rest),
        "accept" => notes.add(
            "`accept` is followed by the name of one file, in UTF-8 and without a space",
        ),
        "piece" => explain_piece(notes, rest),
        "finish" | "withdraw" | "confirm" => explain_number(notes, rest),
        "boot" | "reset" => notes.add(format_args!("nothing follows `{shown}`")),
        _ => notes.add(format_args!(
            "`{shown}` is no word that a line begins with; those are cut, accept, piece, finish, \
             withdraw, confirm, boot and reset"
        )),
    }
}

/// Adds what is wrong with the fields after `cut`.
fn explain_cut(notes: &mut NoteList, fields: &[u8]) -> Result {
    let (write, torn) = cut(fields, b' ');
    if !matches!(number(write), Some(1..)) {
        let write = Shown(write);
        return notes.add(format_args!(
            "`{write}` is no number of a write: 1 to 4294967295, decimal, without leading zeros"
        ));
    }
    let torn = Shown(torn.unwrap_or_default());
    notes.add(format_args!(
        "`{torn}` says nothing that a cut leaves: `keep`, `done`, or `hex:` with an even number of \
         digits"
    ))
}

/// Adds what is wrong with the fields after `piece`.
fn explain_piece(notes: &mut NoteList, fields: &[u8]) -> Result {
    let (image, _) = cut(fields, b' ');
    if number_u8(image).is_none() {
        return explain_number(notes, image);
    }
    notes.add(
        "`piece` is followed by the number of an image, the name of a file without a space, and, \
         for a part of it, its first byte and how many",
    )
}

/// Adds that a word isn't the number of an image.
fn explain_number(notes: &mut NoteList, word: &[u8]) -> Result {
    let word = Shown(word);
    notes.add(format_args!(
        "`{word}` is no number of an image: 0 to 255, decimal, without leading zeros"
    ))
}

/// Adds the first line of a script that names this source, if one does.
pub fn explain_place(notes: &mut NoteList, source: Source<'_>, script: &[u8]) -> Result {
    let Source::File(name) = source else {
        return Ok(());
    };
    let mut rest = script;
    for number in 1..=script.len() {
        if rest.is_empty() {
            break;
        }
        let (line, after) = first_line(rest);
        rest = after;
        if names_file(line, name) {
            let line = Shown(line);
            return notes.add(format_args!("script line {number} names it: `{line}`"));
        }
    }
    Ok(())
}

/// Whether a line of a script names this file.
fn names_file(line: &[u8], name: &str) -> bool {
    match line_of(line) {
        Some(Line::Event(Event::Accept(file) | Event::Piece(_, file))) => file.name == name,
        _ => false,
    }
}
