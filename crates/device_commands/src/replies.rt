//! Writes the lines of a run: replies, the notes on them, and why a device file makes no map.
ghost use Rattle.std.specs.Prelude.{◌≡◌, ℕ, IfErr, IfOk, List, None, OnErr, OnOk, take};
ghost use Rattle.std.specs.Io.KnownBytes.{Appends};
ghost use Rattle.device_texts.specs.ReplyJson.{map_refusal_line, note_line, reply_line};
ghost use Rattle.host.specs.ScriptLines.{script_line};
ghost use Rattle.device_commands.specs.Telling.{BreaksOff};

use device_texts::json::{map_refusal_line, note_line, reply_line};
use device_texts::{Form, NoteList, write_all};
use host::{Answer, Refusal};
use machine::Reply;
use sector_map::MapError;
use std::alloc::{AllocError, Global};
use std::io::Write;

/// Writes the reply to the event of this number to `out`, and flushes it.
pub fn write_reply<O: Write>(
    alloc: Global,
    form: Form,
    number: usize,
    reply: &Reply,
    out: &mut O,
) -> Result<(), Refusal>
    ensures told { OnOk result (Appends (O.contents out.old) (O.contents out.new)
        (reply_line form number reply.now)) }
    ensures begun { IfErr result (λ refusal.
        BreaksOff refusal (reply_line form number reply.now)
        (O.contents out.old) (O.contents out.new)) }
    ensures unnamed { IfErr result (λ refusal. script_line refusal ≡ None) }
{
    let Ok(line) = reply_line(alloc, form, number, reply) else {
        return Err(Refusal::NoMemory);
    };
    write_line(&line, out)
}

/// Writes the notes on the reply to the event of this number to `out`, as an object, and flushes
/// them. Writes nothing if there are none, or if the form is a text, which has no notes.
pub fn write_notes<O: Write>(
    alloc: Global,
    form: Form,
    number: usize,
    notes: &NoteList,
    out: &mut O,
) -> Result<(), Refusal>
    ensures told { OnOk result ((texts : List (List ℕ))
        × Appends (O.contents out.old) (O.contents out.new) (note_line form number texts)) }
    ensures begun { IfErr result (λ refusal. (texts : List (List ℕ))
        × BreaksOff refusal (note_line form number texts)
        (O.contents out.old) (O.contents out.new)) }
    ensures unnamed { IfErr result (λ refusal. script_line refusal ≡ None) }
{
    let Ok(line) = note_line(alloc, form, number, notes) else {
        return Err(Refusal::NoMemory);
    };
    write_line(&line, out)
}

/// Writes to `out` why the sizes in a device file make no map, and returns `Refused`.
pub fn write_no_map<O: Write>(
    alloc: Global,
    form: Form,
    refused: MapError,
    out: &mut O,
) -> Result<Answer, Refusal>
    ensures told { IfOk result (λ answer. (answer ≡ Answer.Refused)
        × Appends (O.contents out.old) (O.contents out.new) (map_refusal_line form refused)) }
    ensures begun { OnErr result ((count : ℕ) × Appends (O.contents out.old) (O.contents out.new)
        (take count (map_refusal_line form refused))) }
    ensures unnamed { IfErr result (λ refusal. script_line refusal ≡ None) }
{
    let Ok(line) = map_refusal_line(alloc, form, refused) else {
        return Err(Refusal::NoMemory);
    };
    match write_all(out, line.as_bytes()) {
        Ok(()) => Ok(Answer::Refused),
        Err(_) => Err(Refusal::CannotWrite),
    }
}

/// Writes a line to `out`, and flushes it.
fn write_line<O: Write>(line: &str, out: &mut O) -> Result<(), Refusal>
    ensures told { OnOk result (Appends (O.contents out.old) (O.contents out.new) line.now) }
    ensures begun { IfErr result (λ refusal.
        BreaksOff refusal line.now (O.contents out.old) (O.contents out.new)) }
    ensures unnamed { IfErr result (λ refusal. script_line refusal ≡ None) }
{
    if write_all(out, line.as_bytes()).is_err() {
        return Err(Refusal::CannotWrite);
    }
    match out.flush() {
        Ok(()) => Ok(()),
        Err(_) => Err(Refusal::CannotWrite),
    }
}
