//! Ends a command, with its error as a text or as a JSON object.
ghost use Rattle.std.specs.Io.KnownBytes.{Keeps};
ghost use Rattle.std.specs.Prelude.{◌≡◌, ◌⊎◌, Ok};
ghost use Rattle.host.specs.Status.{Ends, status_of_refusal};

use crate::error_members::put_error;
use device_texts::NoteList;
use device_texts::json::{put_notes, put_value, value_line};
use explaining::write_notes;
use host::{Answer, Refusal, finish, status_after};
use serde_json::{Map, Value};
use std::alloc::{AllocError, Global};
use std::io::Write;

/// What is written of an error if memory runs out for its object.
const NO_MEMORY: &str = "{\"error\":{\"kind\":\"memory\",\"text\":\"memory\"}}\n";

/// Ends a command as [`finish`] does. If `is_json` is set, a refusal is written as an object, with
/// the notes on it. Without it the lines of the notes follow the answer or the error line.
pub fn end<O: Write, E: Write>(
    alloc: Global,
    is_json: bool,
    outcome: &Result<Answer, Refusal>,
    notes: &NoteList,
    out: &mut O,
    err: &mut E,
) -> u8
    ensures status { result ≡ 0 → outcome.now ≡ Ok Answer.Done }
    ensures ends { Ends outcome.now result }
    ensures kept { Keeps (O.contents out.old) (O.contents out.new) }
{
    match outcome {
        Err(Refusal::CannotWrite) => finish(outcome, out, err),
        Err(refusal) if is_json => refuse(alloc, refusal, notes, err),
        _ => {
            let status = finish(outcome, out, err);
            if !is_json {
                write_notes(alloc, notes, err);
            }
            status
        }
    }
}

/// Writes the object of a refusal and returns its exit status, or 1 if the write failed.
fn refuse<E: Write>(alloc: Global, refusal: &Refusal, notes: &NoteList, err: &mut E) -> u8
    ensures { (result ≡ status_of_refusal refusal.now) ⊎ (result ≡ 1) }
{
    let written = match error_line(alloc, refusal, notes) {
        Ok(line) => err.write_all(line.as_bytes()),
        Err(AllocError) => err.write_all(NO_MEMORY.as_bytes()),
    };
    status_after(written.and(err.flush()), refusal.status())
}

/// Makes the line of the object of a refusal and the notes on it.
fn error_line(alloc: Global, refusal: &Refusal, notes: &NoteList) -> Result<String, AllocError> {
    let mut error = Map::new(alloc);
    put_error(alloc, &mut error, refusal)?;
    let mut object = Map::new(alloc);
    put_value(alloc, &mut object, "error", Value::Object(error))?;
    put_notes(alloc, &mut object, notes)?;
    value_line(alloc, &Value::Object(object))
}
