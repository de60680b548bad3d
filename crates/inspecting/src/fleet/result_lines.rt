//! Writes devices with their results, as texts or as JSON, and the notes on them.

ghost use Rattle.std.specs.Prelude.{◌≡◌, ℕ, IfOk, List, OnErr, OnOk, string_bytes};
ghost use Rattle.std.specs.Io.KnownBytes.{Appends, Keeps};
ghost use Rattle.serde_json.specs.Data.{no_members};
ghost use Rattle.serde_json.specs.View.{members_view};
ghost use Rattle.device_texts.specs.Json.{json_line};
ghost use Rattle.device_texts.specs.Notes.{sentences};
ghost use Rattle.inspecting.specs.PlanJson.{outcome_members, result_json, result_lines, result_text};
ghost use Rattle.inspecting.specs.Written.{TakesPrefix};

use crate::fleet::outcome::Outcome;
use crate::fleet::plan_notes::PlanNotes;
use device_texts::json::{
    Object, put_notes, put_number, put_report, put_text, put_value, value_line,
};
use device_texts::{Form, NoteList, write_all};
use host::Refusal;
use serde_json::{Map, Value};
use std::alloc::{AllocError, Global};
use std::io::Write;

/// Writes the lines of the device of this name with its result to `out`, in a form. An object has
/// the notes on it. Those on a text are passed back to `notes` after the text.
///
/// # Errors
/// `NoMemory` if memory of `alloc` runs out. Then nothing is written. `CannotWrite` if a write
/// fails. Then `out` has taken a prefix.
pub fn write_result<W: Write, N: PlanNotes>(
    alloc: Global,
    form: Form,
    name: &str,
    outcome: &Outcome,
    notes: &mut N,
    out: &mut W,
) -> Result<(), Refusal>
    ensures told { OnOk result ((texts : List (List ℕ))
        × Appends (W.contents out.old) (W.contents out.new)
        (result_lines form name.now outcome.now texts)) }
    ensures begun { OnErr result ((texts : List (List ℕ))
        × TakesPrefix (result_lines form name.now outcome.now texts)
        (W.contents out.old) (W.contents out.new)) }
{
    match form {
        Form::Text => write_text(alloc, name, outcome, notes, out),
        Form::Json => write_object(alloc, name, outcome, notes, out),
    }
}

/// Writes the text of a device with its result, and has the notes on it written after it.
fn write_text<W: Write, N: PlanNotes>(
    alloc: Global,
    name: &str,
    outcome: &Outcome,
    notes: &mut N,
    out: &mut W,
) -> Result<(), Refusal>
    ensures told { OnOk result (Appends (W.contents out.old) (W.contents out.new)
        (result_text name.now outcome.now)) }
    ensures begun { OnErr result (TakesPrefix (result_text name.now outcome.now)
        (W.contents out.old) (W.contents out.new)) }
{
    let Ok(text) = result_text(alloc, name, outcome) else {
        return Err(Refusal::NoMemory);
    };
    let Ok(()) = write_all(out, text.as_bytes()) else {
        return Err(Refusal::CannotWrite);
    };
    let mut told = NoteList::new(alloc);
    notes.explain(name, outcome, &mut told);
    pass_notes(&told, notes, out);
    Ok(())
}

/// Writes the object of a device with its result and the notes on it.
fn write_object<W: Write, N: PlanNotes>(
    alloc: Global,
    name: &str,
    outcome: &Outcome,
    notes: &mut N,
    out: &mut W,
) -> Result<(), Refusal>
    ensures told { OnOk result ((texts : List (List ℕ))
        × Appends (W.contents out.old) (W.contents out.new)
        (json_line (result_json name.now outcome.now texts))) }
    ensures begun { OnErr result ((texts : List (List ℕ))
        × TakesPrefix (json_line (result_json name.now outcome.now texts))
        (W.contents out.old) (W.contents out.new)) }
{
    let mut told = NoteList::new(alloc);
    notes.explain(name, outcome, &mut told);
    let Ok(line) = object_line(alloc, name, outcome, &told) else {
        return Err(Refusal::NoMemory);
    };
    write_line(&line, out)
}

/// Writes a line.
pub fn write_line<W: Write>(line: &str, out: &mut W) -> Result<(), Refusal>
    ensures told { OnOk result (Appends (W.contents out.old) (W.contents out.new) line.now) }
    ensures begun { OnErr result (TakesPrefix line.now (W.contents out.old) (W.contents out.new)) }
{
    let Ok(()) = write_all(out, line.as_bytes()) else {
        return Err(Refusal::CannotWrite);
    };
    Ok(())
}

/// Passes notes back, if there are any, after the text so far. Without the text there are none.
pub fn pass_notes<W: Write, N: PlanNotes>(told: &NoteList, notes: &mut N, out: &mut W)
    ensures { Keeps (W.contents out.old) (W.contents out.new) }
{
    if !told.is_empty() && out.flush().is_ok() {
        notes.write(told);
    }
}

/// Makes the text of a device of this name with its result in memory of `alloc`.
fn result_text(alloc: Global, name: &str, outcome: &Outcome) -> Result<String, AllocError>
    ensures { IfOk result (λ text. string_bytes text ≡ result_text name.now outcome.now) }
{
    format!(in alloc; "device {name}\n{outcome}")
}

/// Makes the line of the object of a device of this name with its result and these notes in memory
/// of `alloc`.
fn object_line(
    alloc: Global,
    name: &str,
    outcome: &Outcome,
    notes: &NoteList,
) -> Result<String, AllocError>
    ensures { IfOk result (λ line. string_bytes line
        ≡ json_line (result_json name.now outcome.now (sentences notes.now))) }
{
    let mut object = Map::new(alloc);
    put_outcome(alloc, &mut object, outcome)?;
    put_text(alloc, &mut object, "device", name)?;
    put_notes(alloc, &mut object, notes)?;
    value_line(alloc, &Value::Object(object))
}

/// Adds the members of a result to an object without members.
fn put_outcome(alloc: Global, object: &mut Object, outcome: &Outcome) -> Result<(), AllocError>
    requires { members_view object.old.entries ≡ no_members }
    ensures { OnOk result (members_view object.new.entries ≡ outcome_members outcome.now) }
{
    match outcome {
        Outcome::Decided(decision) => put_report(alloc, object, &decision.report),
        Outcome::NotValid => put_value(alloc, object, "not_valid", Value::Bool(true)),
        Outcome::BadLine(line) => put_number(alloc, object, "bad_line", *line as u64),
        Outcome::TooLong => put_value(alloc, object, "too_long", Value::Bool(true)),
    }
}
