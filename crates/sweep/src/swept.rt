//! The result of a sweep, and the two forms in which it is written.
ghost use Rattle.std.specs.Prelude.{◌≡◌, IfOk, OnOk, string_bytes};
ghost use Rattle.std.specs.Io.KnownBytes.{Appends};
ghost use Rattle.serde_json.specs.Data.{no_members};
ghost use Rattle.serde_json.specs.View.{members_view};
ghost use Rattle.sweep.specs.Swept.{answer_of, members_of, text_of, written};
ghost use Rattle.device_texts.specs.Notes.{sentences};
ghost use Rattle.device_texts.specs.declared.form.Form.TheVariants as form;

use crate::found::Found;
use crate::json::put_found;
use crate::text::found_text;
use device_texts::json::{Object, fault_value, map_value, put_notes, put_refused, value_line};
use device_texts::{Form, NoteList, map_refusal_text, refused_fault_text, write_all};
use host::{Answer, Refusal};
use machine::Fault;
use sector_map::MapError;
use serde_json::{Map, Value};
use std::alloc::{AllocError, Global};
use std::io::Write;

/// The result of a sweep.
#[derive(Drop)]
pub enum Swept {
    /// The findings of its runs.
    Found(Found),
    /// The sizes in its device file make no map, for this reason.
    RefusedMap(MapError),
    /// Its device can't be provisioned, for this reason.
    RefusedDevice(Fault),
    /// There were no outputs to merge.
    Nothing,
}

impl Swept {
    /// Returns the answer: `Refused` if something is refused, or if a run had an unexpected end.
    pub fn answer(&self) -> Answer
        ensures { result ≡ answer_of self.now }
    {
        match self {
            Swept::Found(found) => {
                if found.is_good() {
                    Answer::Done
                } else {
                    Answer::Refused
                }
            }
            Swept::RefusedMap(_) | Swept::RefusedDevice(_) => Answer::Refused,
            Swept::Nothing => Answer::Done,
        }
    }

    /// Makes the text in memory of `alloc`.
    fn text(&self, alloc: Global) -> Result<String, AllocError>
        ensures { IfOk result (λ text. string_bytes text ≡ text_of self.now) }
    {
        match self {
            Swept::Found(found) => found_text(alloc, found),
            Swept::RefusedMap(refused) => map_refusal_text(alloc, *refused),
            Swept::RefusedDevice(fault) => refused_fault_text(alloc, *fault),
            Swept::Nothing => Ok(String::new(alloc)),
        }
    }

    /// Adds the members of the object to an object without members.
    fn put_members(&self, alloc: Global, object: &mut Object) -> Result<(), AllocError>
        requires { members_view object.old.entries ≡ no_members }
        ensures { OnOk result (members_view object.new.entries ≡ members_of self.now) }
    {
        match self {
            Swept::Found(found) => put_found(alloc, object, found),
            Swept::RefusedMap(refused) => put_refused(alloc, object, map_value(alloc, *refused)?),
            Swept::RefusedDevice(fault) => put_refused(alloc, object, fault_value(alloc, *fault)?),
            Swept::Nothing => Ok(()),
        }
    }

    /// Makes what is written of it in a form: the text, or a line with the object. The object has
    /// the notes in its member `notes`, if there are any. The text has none. Memory is that of
    /// `alloc`.
    ///
    /// # Errors
    /// `AllocError` if memory is refused.
    fn written(&self, alloc: Global, form: Form, notes: &NoteList) -> Result<String, AllocError>
        ensures { IfOk result (λ text. string_bytes text
            ≡ written form (sentences notes.now) self.now) }
    {
        match form {
            Form::Text => self.text(alloc),
            Form::Json => self.line(alloc, notes),
        }
    }

    /// Makes the line of the object with its notes.
    fn line(&self, alloc: Global, notes: &NoteList) -> Result<String, AllocError>
        ensures { IfOk result (λ line. string_bytes line
            ≡ written form.Json (sentences notes.now) self.now) }
    {
        let mut object = Map::new(alloc);
        self.put_members(alloc, &mut object)?;
        put_notes(alloc, &mut object, notes)?;
        value_line(alloc, &Value::Object(object))
    }
}

/// Writes the result of a sweep to `out` in a form, and returns the answer. The object has the notes
/// in its member `notes`, if there are any. The text has none.
///
/// # Errors
/// `NoMemory` if memory of `alloc` runs out. Then nothing is written. `CannotWrite` if a write fails.
pub fn write_swept<O: Write>(
    alloc: Global,
    form: Form,
    notes: &NoteList,
    swept: &Swept,
    out: &mut O,
) -> Result<Answer, Refusal>
    ensures { IfOk result (λ answer. (answer ≡ answer_of swept.now)
        × Appends (O.contents out.old) (O.contents out.new)
        (written form (sentences notes.now) swept.now)) }
{
    let answer = swept.answer();
    let Ok(text) = swept.written(alloc, form, notes) else {
        return Err(Refusal::NoMemory);
    };
    match write_all(out, text.as_bytes()) {
        Ok(()) => Ok(answer),
        Err(_) => Err(Refusal::CannotWrite),
    }
}
