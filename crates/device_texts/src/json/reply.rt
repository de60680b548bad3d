//! Makes the lines of a device's replies, as texts or as JSON.
ghost use Rattle.std.specs.Prelude.{◌≡◌, IfOk, OnOk, false, string_bytes};
ghost use Rattle.serde_json.specs.Data.{no_members};
ghost use Rattle.serde_json.specs.View.{members_view};
ghost use Rattle.serde_json.specs.Written.{members_have_float};
ghost use Rattle.device_texts.specs.Json.{json_line};
ghost use Rattle.device_texts.specs.Notes.{sentences};
ghost use Rattle.device_texts.specs.declared.form.Form.TheVariants as form;
ghost use Rattle.device_texts.specs.ReplyJson.{event_json, last_notes, map_refusal_line, note_line, reply_line};
ghost use Rattle.device_texts.specs.ReplyJson.{reply_members, with_set, with_word};

use crate::form::Form;
use crate::json::{
    Object, fault_value, map_value, put_notes, put_number, put_refused, put_report, put_text,
    put_values, set_numbers, value_line,
};
use crate::notes::NoteList;
use crate::refusals::map_refusal_text;
use crate::replies::{decision_text, reply_text};
use machine::Reply;
use sector_map::MapError;
use serde_json::{Map, Value};
use std::alloc::{AllocError, Global};

/// Makes the line of the reply to the event of this number, counted from 1, in memory of `alloc`. As
/// a text it is that of [`reply_text`].
///
/// # Errors
/// `AllocError` if memory is refused.
pub fn reply_line(
    alloc: Global,
    form: Form,
    number: usize,
    reply: &Reply,
) -> Result<String, AllocError>
    ensures { IfOk result (λ line. string_bytes line ≡ reply_line form number reply.now) }
{
    match form {
        Form::Text => reply_text(alloc, number, reply),
        Form::Json => reply_object(alloc, number, reply),
    }
}

/// Makes the object of a reply.
fn reply_object(alloc: Global, number: usize, reply: &Reply) -> Result<String, AllocError>
    ensures { IfOk result (λ line. string_bytes line ≡ reply_line form.Json number reply.now) }
{
    let mut object = Map::new(alloc);
    put_reply(alloc, &mut object, reply)?;
    event_line(alloc, number, object)
}

/// Makes the line of the notes on that reply. It is empty if there are none, and in texts, which
/// have no notes.
///
/// # Errors
/// `AllocError` if memory is refused.
pub fn note_line(
    alloc: Global,
    form: Form,
    number: usize,
    notes: &NoteList,
) -> Result<String, AllocError>
    ensures { IfOk result (λ line. string_bytes line
        ≡ note_line form number (sentences notes.now)) }
{
    match form {
        Form::Text => Ok(String::new(alloc)),
        Form::Json => event_notes(alloc, number, notes),
    }
}

/// Makes the object of the notes on a reply. It is empty if there are none.
fn event_notes(alloc: Global, number: usize, notes: &NoteList) -> Result<String, AllocError>
    ensures { IfOk result (λ line. string_bytes line
        ≡ note_line form.Json number (sentences notes.now)) }
{
    if notes.is_empty() {
        return Ok(String::new(alloc));
    }
    let mut object = Map::new(alloc);
    put_notes(alloc, &mut object, notes)?;
    event_line(alloc, number, object)
}

/// Makes the line of the notes on the end of a run. It is empty if there are none.
///
/// # Errors
/// `AllocError` if memory is refused.
pub fn last_notes(alloc: Global, notes: &NoteList) -> Result<String, AllocError>
    ensures { IfOk result (λ line. string_bytes line
        ≡ last_notes (sentences notes.now)) }
{
    if notes.is_empty() {
        return Ok(String::new(alloc));
    }
    let mut object = Map::new(alloc);
    put_notes(alloc, &mut object, notes)?;
    value_line(alloc, &Value::Object(object))
}

/// Makes the line that says why the sizes in a device file make no map.
///
/// # Errors
/// `AllocError` if memory is refused.
pub fn map_refusal_line(alloc: Global, form: Form, refused: MapError) -> Result<String, AllocError>
    ensures { IfOk result (λ line. string_bytes line ≡ map_refusal_line form refused) }
{
    match form {
        Form::Text => map_refusal_text(alloc, refused),
        Form::Json => refused_map(alloc, refused),
    }
}

/// Makes the object of why the sizes in a device file make no map.
fn refused_map(alloc: Global, refused: MapError) -> Result<String, AllocError>
    ensures { IfOk result (λ line. string_bytes line ≡ map_refusal_line form.Json refused) }
{
    let mut object = Map::new(alloc);
    let value = map_value(alloc, refused)?;
    put_refused(alloc, &mut object, value)?;
    value_line(alloc, &Value::Object(object))
}

/// Makes the line of an object about the event of this number, which has these further members.
fn event_line(alloc: Global, number: usize, object: Object) -> Result<String, AllocError>
    ensures { IfOk result (λ line. members_have_float (members_view object.entries) ≡ false
        → string_bytes line ≡ json_line (event_json number (members_view object.entries))) }
{
    let mut object = object;
    put_number(alloc, &mut object, "event", number as u64)?;
    value_line(alloc, &Value::Object(object))
}

/// Adds the members of a reply to an object without members.
fn put_reply(alloc: Global, object: &mut Object, reply: &Reply) -> Result<(), AllocError>
    requires { members_view object.old.entries ≡ no_members }
    ensures { OnOk result (members_view object.new.entries ≡ reply_members reply.now) }
{
    match reply {
        Reply::Done => put_word(alloc, object, "done"),
        Reply::Booted {
            table: _,
            report,
            permanent,
        } => {
            put_report(alloc, object, report)?;
            put_word(alloc, object, decision_text(report, *permanent))
        }
        Reply::Reverted(set) => {
            put_set(alloc, object, *set)?;
            put_word(alloc, object, "reverted")
        }
        Reply::TrialAgain { set, left } => {
            put_number(alloc, object, "left", u64::from(*left))?;
            put_set(alloc, object, *set)?;
            put_word(alloc, object, "trial-again")
        }
        Reply::Refused(fault) => {
            let value = fault_value(alloc, *fault)?;
            put_refused(alloc, object, value)?;
            put_word(alloc, object, "refused")
        }
        Reply::Cut => put_word(alloc, object, "cut"),
    }
}

/// Adds the word for a reply.
fn put_word(alloc: Global, object: &mut Object, word: &str) -> Result<(), AllocError>
    ensures { OnOk result (members_view object.new.entries
        ≡ with_word word.now (members_view object.old.entries)) }
{
    put_text(alloc, object, "reply", word)
}

/// Adds the images of a set.
fn put_set(alloc: Global, object: &mut Object, set: u8) -> Result<(), AllocError>
    ensures { OnOk result (members_view object.new.entries
        ≡ with_set set (members_view object.old.entries)) }
{
    let numbers = set_numbers(alloc, set)?;
    put_values(alloc, object, "images", numbers)
}
