//! Makes the notes of `--explain`: why a command gave its answer.
//!
//! - Promises: No note panics, and the notes on a slot are of its bytes. Tests check the sentences.
//!   The answer of a command doesn't depend on them.
//! - Main calls: `CommandNotes`, `WrittenNotes`, `DeviceNotes`, `write_notes`
//! - Allocates: the notes, and what they are made of: JSON values, a flash in memory, the bytes of
//!   open uploads.
//! - Callers: `boot_cli`
//!
//! The notes on what a read-only command finds are made of that value (`inspections`), and those on
//! an error of the error (`ends`). Any other command hands over what it finds in its inputs, and a
//! run its replies ([`CommandNotes`]). Notes on a device of a plan are made of its outcome
//! ([`DeviceNotes`]). So nothing is read twice, and a note speaks of the bytes that the command read.
//!
//! Each function `explain_*` adds notes to a list: what the given bytes contain, where, and what they
//! may contain. The caller says what was refused. The function looks for the place, and adds nothing
//! if it finds none. It returns `AllocError` if memory runs out. Then the other notes are left out,
//! also if standard error takes no more. The exit status doesn't change.
#![tactic(auto)]

mod command_notes;
mod device_files;
mod ends;
mod faults;
mod image_areas;
mod image_files;
mod image_notes;
mod inspections;
mod json_notes;
mod lines;
mod manifest_notes;
mod needs;
mod new_files;
mod plans;
mod replies;
mod resting_tables;
mod scripts;
mod slots;
mod texts;
mod trials;
mod uploads;
mod verdicts;

pub use command_notes::{CommandNotes, WrittenNotes};
use device_texts::NoteList;
pub use plans::DeviceNotes;
use std::alloc::{AllocError, Global};
use std::io::Write;

/// The result of adding notes to a list.
type Result<T = ()> = std::result::Result<T, AllocError>;

/// Writes a line of each note to `err`, and flushes it. The lines are made in memory of `alloc`. The
/// notes are no part of an answer, so nothing is returned if memory runs out or a write fails.
pub fn write_notes<E: Write>(alloc: Global, notes: &NoteList, err: &mut E) {
    if notes.is_empty() {
        return;
    }
    if let Ok(lines) = notes.lines(alloc) {
        let _ = err.write_all(lines.as_bytes());
        let _ = err.flush();
    }
}

/// Adds all notes of another list.
fn add_all(notes: &mut NoteList, others: &NoteList) -> Result {
    for sentence in &others.sentences {
        notes.add(sentence)?;
    }
    Ok(())
}
