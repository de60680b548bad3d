//! Writes the rows of a summary, as a text or as JSON, and the notes on them.

ghost use Rattle.std.specs.Prelude.{IfOk, OnErr, OnOk, string_bytes};
ghost use Rattle.std.specs.Io.KnownBytes.{Appends};
ghost use Rattle.device_texts.specs.Notes.{sentences};
ghost use Rattle.device_texts.specs.declared.form.Form.TheVariants as form;
ghost use Rattle.inspecting.specs.SummaryLines.{IsSummaryLine, WritesRows, WritesSomeRows};
ghost use Rattle.inspecting.specs.Written.{TakesPrefix};

use crate::fleet::plan_notes::PlanNotes;
use crate::fleet::result_lines::{pass_notes, write_line};
use crate::fleet::row_json::row_values;
use crate::fleet::rows::{Rows, rows_text};
use device_texts::json::{put_notes, put_values, value_line};
use device_texts::{Form, NoteList, write_all};
use host::Refusal;
use serde_json::{Map, Value};
use std::alloc::{AllocError, Global};
use std::io::Write;

/// Writes the rows of a summary to `out`, in a form. An object has the notes on them. Those on a
/// text are passed back to `notes` after the text.
///
/// # Errors
/// `NoMemory` if memory of `alloc` runs out. Then nothing is written. `CannotWrite` if a write
/// fails. Then `out` has taken a prefix.
pub fn write_rows<W: Write, N: PlanNotes>(
    alloc: Global,
    form: Form,
    rows: &Rows,
    notes: &mut N,
    out: &mut W,
) -> Result<(), Refusal>
    ensures told { OnOk result (WritesRows form rows.now (W.contents out.old) (W.contents out.new)) }
    ensures begun { OnErr result (WritesSomeRows form rows.now
        (W.contents out.old) (W.contents out.new)) }
{
    match form {
        Form::Text => write_text(alloc, rows, notes, out),
        Form::Json => write_object(alloc, rows, notes, out),
    }
}

/// Writes the text of rows, and has the notes on them written after it.
fn write_text<W: Write, N: PlanNotes>(
    alloc: Global,
    rows: &Rows,
    notes: &mut N,
    out: &mut W,
) -> Result<(), Refusal>
    ensures told { OnOk result (WritesRows form.Text rows.now
        (W.contents out.old) (W.contents out.new)) }
    ensures begun { OnErr result (WritesSomeRows form.Text rows.now
        (W.contents out.old) (W.contents out.new)) }
{
    let Ok(text) = rows_text(alloc, rows) else {
        return Err(Refusal::NoMemory);
    };
    write_explained(alloc, &text, rows, notes, out)
}

/// Writes this text of rows, and has the notes on them written after it.
fn write_explained<W: Write, N: PlanNotes>(
    alloc: Global,
    text: &[u8],
    rows: &Rows,
    notes: &mut N,
    out: &mut W,
) -> Result<(), Refusal>
    ensures told { OnOk result (Appends (W.contents out.old) (W.contents out.new) text.now) }
    ensures begun { OnErr result (TakesPrefix text.now (W.contents out.old) (W.contents out.new)) }
{
    let Ok(()) = write_all(out, text) else {
        return Err(Refusal::CannotWrite);
    };
    let mut told = NoteList::new(alloc);
    notes.explain_rows(rows, &mut told);
    pass_notes(&told, notes, out);
    Ok(())
}

/// Writes the object of rows and the notes on them.
fn write_object<W: Write, N: PlanNotes>(
    alloc: Global,
    rows: &Rows,
    notes: &mut N,
    out: &mut W,
) -> Result<(), Refusal>
    ensures told { OnOk result (WritesRows form.Json rows.now
        (W.contents out.old) (W.contents out.new)) }
    ensures begun { OnErr result (WritesSomeRows form.Json rows.now
        (W.contents out.old) (W.contents out.new)) }
{
    let mut told = NoteList::new(alloc);
    notes.explain_rows(rows, &mut told);
    let Ok(line) = object_line(alloc, rows, &told) else {
        return Err(Refusal::NoMemory);
    };
    write_line(&line, out)
}

/// Makes the line of the object of rows and these notes in memory of `alloc`.
fn object_line(alloc: Global, rows: &Rows, notes: &NoteList) -> Result<String, AllocError>
    ensures { IfOk result (λ line.
        IsSummaryLine (sentences notes.now) rows.now (string_bytes line)) }
{
    let mut object = Map::new(alloc);
    let values = row_values(alloc, rows)?;
    put_values(alloc, &mut object, "rows", values)?;
    put_notes(alloc, &mut object, notes)?;
    value_line(alloc, &Value::Object(object))
}
