//! Explains which keys and values of a JSON object are wrong.

use crate::Result;
use crate::texts::Shown;
use device_texts::NoteList;
use manifest::json::{array, digest, json_of, number, text, uuid};
use serde_json::Value;
use std::alloc::Global;

/// The kind of value that a key must have.
#[derive(Clone, Copy)]
pub enum Wanted {
    /// A number below 2^32, in digits only.
    Number,
    /// A UUID.
    Uuid,
    /// 32 bytes in 64 hexadecimal digits.
    Digest,
    /// The word `test` or `permanent`.
    Kind,
    /// A list.
    List,
}

impl Wanted {
    /// Whether the value of a key in an object is of this kind.
    fn is_met(self, value: &Value, key: &str) -> bool {
        match self {
            Wanted::Number => number(value, key).is_some(),
            Wanted::Uuid => uuid(value, key).is_some(),
            Wanted::Digest => digest(value, key).is_some(),
            Wanted::Kind => matches!(text(value, key), Some("test" | "permanent")),
            Wanted::List => array(value, key).is_some(),
        }
    }

    /// Its description in the notes.
    fn name(self) -> &'static str {
        match self {
            Wanted::Number => "a number from 0 to 4294967295, in digits alone",
            Wanted::Uuid => "a UUID in quotation marks",
            Wanted::Digest => "64 hexadecimal digits in quotation marks",
            Wanted::Kind => "\"test\" or \"permanent\"",
            Wanted::List => "a list in square brackets",
        }
    }
}

/// The keys of an object.
#[derive(Clone, Copy)]
pub struct Keys {
    /// Each key, and the kind of value that it must have.
    pub known: [(&'static str, Wanted); 5],
    /// The key that may be missing, or an empty text.
    pub optional: &'static str,
}

/// The JSON value that a text spells. If there is none, adds where the text stops being JSON.
pub fn read_json(notes: &mut NoteList, alloc: Global, bytes: &[u8]) -> Result<Option<Value>> {
    if let Ok(value) = json_of(alloc, bytes) {
        return Ok(Some(value));
    }
    match Value::from_slice(alloc, bytes) {
        Err(error) if !error.is_memory() => notes.add(format_args!("{error}"))?,
        _ => {}
    }
    Ok(None)
}

/// Adds the missing keys, the unknown keys, and the keys with a wrong value of an object. `owner` is
/// its name in the notes.
pub fn explain_object(
    notes: &mut NoteList,
    alloc: Global,
    owner: &str,
    value: &Value,
    keys: &Keys,
) -> Result {
    let Some(members) = value.as_object() else {
        return notes.add(format_args!("{owner} is no object in braces"));
    };
    for key in &keys.known {
        let (name, _) = *key;
        if name != keys.optional && value.get(name).is_none() {
            notes.add(format_args!("{owner} has no `{name}`"))?;
        }
    }
    for name in members.keys() {
        if !is_known(name, keys) {
            let shown = Shown(name.as_bytes());
            notes.add(format_args!("{owner} has `{shown}`, which isn't known"))?;
        }
    }
    explain_values(notes, alloc, owner, value, keys)
}

/// Whether a key is one of these.
fn is_known(name: &str, keys: &Keys) -> bool {
    keys.known.iter().any(|key| name == key.0)
}

/// Adds the keys with a wrong value.
fn explain_values(
    notes: &mut NoteList,
    alloc: Global,
    owner: &str,
    value: &Value,
    keys: &Keys,
) -> Result {
    for key in &keys.known {
        let (name, wanted) = *key;
        if let Some(found) = value.get(name)
            && !wanted.is_met(value, name)
        {
            let (text, wanted) = (found.to_string(alloc)?, wanted.name());
            let shown = Shown(text.as_bytes());
            notes.add(format_args!("`{name}` of {owner} is {shown}, and has to be {wanted}"))?;
        }
    }
    Ok(())
}

/// Adds that a list has too few or too many entries, if it has. `name` is its name in the notes,
/// and `each` says what an entry is for, or is empty.
pub fn explain_count(
    notes: &mut NoteList,
    name: &str,
    count: usize,
    each: &str,
    most: usize,
) -> Result {
    if (1..=most).contains(&count) {
        return Ok(());
    }
    notes.add(format_args!("`{name}` has {count} entries{each}, and there are 1 to {most}"))
}
