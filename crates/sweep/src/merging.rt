//! Adds up the findings of the parts of a sweep.

use crate::found::Found;
use crate::marks::Mark;
use crate::reading::read_found;
use std::alloc::{AllocError, Global};

/// Adds the findings of which this text is the output to `sum`, which has none before the first
/// text. Memory is that of `alloc`.
///
/// Returns the number of the first line, from 1, that is wrong: with which no output of a sweep
/// continues, or that says of other events, or of other numbers of writes, than the outputs before.
/// Then `sum` is as before.
///
/// # Errors
/// `AllocError` if memory is refused. Then `sum` is as before, or has a part of the findings.
pub fn add_output(
    alloc: Global,
    sum: &mut Option<Found>,
    text: &[u8],
) -> Result<Result<(), usize>, AllocError> {
    let found = match read_found(alloc, text)? {
        Ok(found) => found,
        Err(line) => return Ok(Err(line)),
    };
    let Some(sum) = sum else {
        *sum = Some(found);
        return Ok(Ok(()));
    };
    match sum.unlike_line(&found) {
        Some(line) => Ok(Err(line)),
        None => {
            sum.add(found)?;
            Ok(Ok(()))
        }
    }
}

impl Found {
    /// The number of the first line of an output, from 1, in which other findings have another event,
    /// or an event with another number of writes. `None` if they are of a sweep of the same events.
    fn unlike_line(&self, other: &Found) -> Option<usize> {
        for (place, event) in self.events.iter().enumerate() {
            let is_same = other.events.get(place) == Some(event)
                && other.writes.get(place) == self.writes.get(place);
            if !is_same {
                return Some(place.saturating_add(1));
            }
        }
        if other.events.len() == self.events.len() {
            None
        } else {
            Some(self.events.len().saturating_add(1))
        }
    }

    /// Adds the findings of other runs with the same writes.
    fn add(&mut self, other: Found) -> Result<(), AllocError> {
        let Found {
            events,
            writes,
            marks,
            runs,
            sets,
            others,
            refused,
        } = other;
        self.add_marks(&marks);
        self.runs = self.runs.saturating_add(runs);
        self.others = self.others.sum(others);
        self.refused = self.refused.sum(refused);
        for set in sets {
            self.add_set(set)?;
        }
        self.sort();
        Ok(())
    }

    /// Adds the marks of other runs with the same writes.
    fn add_marks(&mut self, marks: &[Mark]) {
        for (mark, other) in self.marks.iter_mut().zip(marks) {
            *mark = mark.sum(*other);
        }
    }
}
