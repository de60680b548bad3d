//! Makes the JSON objects of answers, of which docs/JSON.md lists the members.
//!
//! `specs/Json.antt` has a definition for each type. A function here whose name begins with `put_`
//! adds members to an object. If it fails, some of them may be missing.
ghost use Rattle.std.specs.Prelude.{◌≡◌, IfOk, OnOk, false, map, string_bytes};
ghost use Rattle.serde_json.specs.Data.{Data, string};
ghost use Rattle.serde_json.specs.Written.{has_float};
ghost use Rattle.serde_json.specs.View.{members_view, view};
ghost use Rattle.device_texts.specs.Notes.{sentences};
ghost use Rattle.device_texts.specs.Json.{json_line, number_json, set_numbers, with_member, with_notes, with_some};

mod refusals;
mod reply;
mod report;

use crate::notes::NoteList;
use common::limits::MOST_IMAGES;
use common::mask::is_member;
pub use refusals::{code_value, fault_value, map_value, put_code, put_refused};
pub use reply::{last_notes, map_refusal_line, note_line, reply_line};
pub use report::put_report;
use serde_json::{Map, Value, push, put};
use std::alloc::{AllocError, Global};

/// The members of a JSON object.
pub type Object = Map<String, Value>;

/// A value with a JSON object.
pub trait Json {
    ghost json: { Self → Data };

    /// Makes the object in memory of `alloc`.
    fn json(&self, alloc: Global) -> Result<Value, AllocError>
        ensures { IfOk result (λ value. view value ≡ json self.now) };
}

/// Adds a value.
pub fn put_value(
    alloc: Global,
    object: &mut Object,
    key: &str,
    value: Value,
) -> Result<(), AllocError>
    ensures { OnOk result (members_view object.new.entries
        ≡ with_member key.now (view value) (members_view object.old.entries)) }
{
    put(object, alloc, key, value)
}

/// Adds a number.
pub fn put_number(
    alloc: Global,
    object: &mut Object,
    key: &str,
    value: u64,
) -> Result<(), AllocError>
    ensures { OnOk result (members_view object.new.entries
        ≡ with_member key.now (number_json value) (members_view object.old.entries)) }
{
    put_value(alloc, object, key, Value::from(value))
}

/// Adds a text.
pub fn put_text(
    alloc: Global,
    object: &mut Object,
    key: &str,
    value: &str,
) -> Result<(), AllocError>
    ensures { OnOk result (members_view object.new.entries
        ≡ with_member key.now (string value.now) (members_view object.old.entries)) }
{
    let value = Value::try_from_str(alloc, value)?;
    put_value(alloc, object, key, value)
}

/// Adds an array of values, unless it is empty.
pub fn put_values(
    alloc: Global,
    object: &mut Object,
    key: &str,
    values: Vec<Value>,
) -> Result<(), AllocError>
    ensures { OnOk result (members_view object.new.entries
        ≡ with_some key.now (map view values.items) (members_view object.old.entries)) }
{
    if values.is_empty() {
        return Ok(());
    }
    put_value(alloc, object, key, Value::Array(values))
}

/// Adds an array of the objects of these values, unless it is empty.
pub fn put_each<T: Json>(
    alloc: Global,
    object: &mut Object,
    key: &str,
    items: &[T],
) -> Result<(), AllocError>
    ensures { OnOk result (members_view object.new.entries
        ≡ with_some key.now (map T.json items.now) (members_view object.old.entries)) }
{
    let values = values_of(alloc, items)?;
    put_values(alloc, object, key, values)
}

/// Makes the objects of these values.
pub fn values_of<T: Json>(alloc: Global, items: &[T]) -> Result<Vec<Value>, AllocError>
    ensures { IfOk result (λ values. map view values.items ≡ map T.json items.now) }
{
    let mut values = Vec::new(alloc);
    for item in items {
        let value = item.json(alloc)?;
        push(&mut values, value)?;
    }
    Ok(values)
}

/// Makes the line of a value without numbers that aren't whole: its compact text and a line feed.
pub fn value_line(alloc: Global, value: &Value) -> Result<String, AllocError>
    ensures { IfOk result (λ line. has_float (view value.now) ≡ false
        → string_bytes line ≡ json_line (view value.now)) }
{
    let mut line = value.to_string(alloc)?;
    line.push_str("\n")?;
    Ok(line)
}

/// Makes the numbers of the images of a set.
pub fn set_numbers(alloc: Global, set: u8) -> Result<Vec<Value>, AllocError>
    ensures { IfOk result (λ values. map view values.items ≡ set_numbers set) }
{
    let mut numbers = Vec::new(alloc);
    for image in 0..MOST_IMAGES as u8 {
        if is_member(set, image) {
            push(&mut numbers, Value::from(image))?;
        }
    }
    Ok(numbers)
}

/// Adds the member `notes`, unless there are none.
pub fn put_notes(alloc: Global, object: &mut Object, notes: &NoteList) -> Result<(), AllocError>
    ensures { OnOk result (members_view object.new.entries
        ≡ with_notes (sentences notes.now) (members_view object.old.entries)) }
{
    put_each(alloc, object, "notes", notes.sentences.as_slice())
}

impl Json for String {
    ghost json = { λ note. string (string_bytes note) };

    fn json(&self, alloc: Global) -> Result<Value, AllocError> {
        Value::try_from_str(alloc, self)
    }
}
