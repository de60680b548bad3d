//! The trait of the notes on a plan.

use crate::fleet::outcome::Outcome;
use crate::fleet::rows::Rows;
use device_texts::NoteList;

/// Explains the results of a plan. The results don't depend on it.
pub trait PlanNotes {
    /// Is called for each device that is written. Adds the notes on its result to `told`. They become
    /// members of its object.
    fn explain(&mut self, name: &str, outcome: &Outcome, told: &mut NoteList);

    /// Is called for the rows of a summary that is written. Adds the notes on them to `told`. They
    /// become members of its object.
    fn explain_rows(&mut self, rows: &Rows, told: &mut NoteList);

    /// Is called with the notes on a device or on rows whose text is written and flushed. A text has
    /// no place for notes.
    fn write(&mut self, told: &NoteList);
}

/// Explains nothing.
#[derive(Drop)]
pub struct NoPlanNotes;

impl PlanNotes for NoPlanNotes {
    fn explain(&mut self, _: &str, _: &Outcome, _: &mut NoteList) {}

    fn explain_rows(&mut self, _: &Rows, _: &mut NoteList) {}

    fn write(&mut self, _: &NoteList) {}
}
