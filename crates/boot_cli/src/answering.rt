//! Runs the command of an order, and writes its answer in the form that is asked for.
ghost use Rattle.std.specs.Io.KnownBytes.{Appends};
ghost use Rattle.std.specs.Prelude.{◌≡◌, IfOk, List, ℕ, OnErr, OnOk, map};
ghost use Rattle.boot_cli.specs.ErrorEnd.{BreaksDevice, BreaksOrder};
ghost use Rattle.boot_cli.specs.JsonEnd.{AnswersDevice, AnswersOrder, form_of};
ghost use Rattle.boot_cli.specs.OrderEnd.{KeepsSwept, UsesFlash};
ghost use Rattle.device_commands.specs.CoreEnd as core;
ghost use Rattle.device_texts.specs.declared.form.Form.TheVariants as form;
ghost use Rattle.device_texts.specs.ReplyJson.{last_notes};
ghost use Rattle.inspecting.specs.PlanAnswers.{AnswersPlan, BreaksPlan};
ghost use Rattle.inspecting.specs.ReadingEnd.{AnswersReading};
ghost use Rattle.inspecting.specs.Written.{TakesPrefix};
ghost use Rattle.sweep.specs.SweepEnd.{AnswersMerge, AnswersSweep, KeepsInputs, KeepsOutputs};

use crate::making::run_making;
use command_line::{DeviceOrder, Order, PlanOrder, ReadOrder, Request};
use device_commands::run_device_order;
use device_texts::json::last_notes;
use device_texts::{Form, NoteList, write_all};
use explaining::{CommandNotes, DeviceNotes, WrittenNotes};
use host::{Answer, Host, Refusal};
use inspecting::{NoPlanNotes, inspect, run_plan, write_inspection};
use std::alloc::Global;
use std::io::Write;
use sweep::{SweepOrder, merge_outputs, run_sweep, write_swept};

/// Runs the command of an order, and writes its answer to `out` in the requested form, with the notes
/// on it that JSON has. The progress of a sweep, the notes on the replies of a run, and those on the
/// devices of a plan go to `err`. All other notes on the answer are added to `notes`.
///
/// # Errors
/// The errors of the command.
pub fn answer_request<H: Host, O: Write, E: Write>(
    alloc: Global,
    request: &Request<'_>,
    host: &mut H,
    out: &mut O,
    err: &mut E,
    notes: &mut CommandNotes,
) -> Result<Answer, Refusal>
    ensures answers { IfOk result (λ answer. AnswersOrder (form_of request.now.is_json) answer
        request.now.order (H.input host.old) (H.file host.old) (H.file host.new)
        (O.contents out.old) (O.contents out.new)) }
    ensures begun { OnErr result (BreaksOrder request.now.is_json request.now.order
        (H.input host.old) (H.file host.old) (H.file host.new)
        (O.contents out.old) (O.contents out.new)) }
    ensures swept { KeepsSwept request.now.order (H.file host.old) (H.file host.new) }
    ensures used { IfOk result (λ answer. answer ≡ Answer.Done
        → UsesFlash request.now.order (H.opened host.old) (H.opened host.new) (H.synced host.new)) }
{
    let form = form_of(request.is_json);
    match request.order {
        Order::Read(order) => answer_reading(alloc, form, order, host, out, notes),
        Order::Device(ref order) => answer_device(alloc, form, order, host, out, err, notes),
        Order::Plan(ref order) => answer_plan(alloc, form, order, host, out, err, notes),
        Order::Sweep {
            device,
            script,
            ref images,
            choices,
        } => {
            let order = SweepOrder::of(device, script, images, choices);
            answer_sweep(alloc, form, order, host, out, err, notes)
        }
        Order::MergeSweeps {
            ref outputs,
            picture,
            forced,
        } => answer_merge(alloc, form, outputs, picture, forced, host, out),
        _ => run_making(alloc, &request.order, host, out, err, notes),
    }
}

/// The form of an answer: JSON if that is asked for, or text.
fn form_of(is_json: bool) -> Form
    ensures { result ≡ form_of is_json }
{
    if is_json { Form::Json } else { Form::Text }
}

/// Runs a read-only command, and writes what it finds to `out`.
fn answer_reading<H: Host, O: Write>(
    alloc: Global,
    form: Form,
    order: ReadOrder<'_>,
    host: &mut H,
    out: &mut O,
    notes: &mut CommandNotes,
) -> Result<Answer, Refusal>
    ensures { IfOk result (λ answer. AnswersReading form answer order.entry
        (H.input host.old) (H.file host.old) (O.contents out.old) (O.contents out.new)) }
{
    let found = inspect(alloc, order, host)?;
    notes.on_inspection(&found);
    write_inspection(alloc, form, notes.list(), &found, out)
}

/// Runs the command of an order to a device, and writes the answer to `out`.
fn answer_device<H: Host, O: Write, E: Write>(
    alloc: Global,
    form: Form,
    order: &DeviceOrder<'_>,
    host: &mut H,
    out: &mut O,
    err: &mut E,
    notes: &mut CommandNotes,
) -> Result<Answer, Refusal>
    ensures answers { IfOk result (λ answer. AnswersDevice form answer order.now
        (H.input host.old) (H.file host.old) (H.file host.new)
        (O.contents out.old) (O.contents out.new)) }
    ensures begun { OnErr result (BreaksDevice form order.now
        (H.input host.old) (H.file host.old) (H.file host.new)
        (O.contents out.old) (O.contents out.new)) }
    ensures used { IfOk result (λ answer. answer ≡ Answer.Done
        → core.UsesFlash order.now (H.opened host.old) (H.opened host.new) (H.synced host.new)) }
{
    match form {
        Form::Text => answer_texts(alloc, order, host, out, err, notes),
        Form::Json => answer_objects(alloc, order, host, out, notes),
    }
}

/// Runs the command of an order to a device, and writes the text of each reply to `out`, and the notes
/// on it to `err`.
fn answer_texts<H: Host, O: Write, E: Write>(
    alloc: Global,
    order: &DeviceOrder<'_>,
    host: &mut H,
    out: &mut O,
    err: &mut E,
    notes: &mut CommandNotes,
) -> Result<Answer, Refusal>
    ensures answers { IfOk result (λ answer. AnswersDevice form.Text answer order.now
        (H.input host.old) (H.file host.old) (H.file host.new)
        (O.contents out.old) (O.contents out.new)) }
    ensures begun { OnErr result (BreaksDevice form.Text order.now
        (H.input host.old) (H.file host.old) (H.file host.new)
        (O.contents out.old) (O.contents out.new)) }
    ensures used { IfOk result (λ answer. answer ≡ Answer.Done
        → core.UsesFlash order.now (H.opened host.old) (H.opened host.new) (H.synced host.new)) }
{
    let mut written = WrittenNotes { alloc, notes, err };
    let answer = run_device_order(alloc, order, Form::Text, host, out, &mut written)?;
    add_end(&mut written, answer);
    Ok(answer)
}

/// Adds why a run has this answer.
fn add_end<E: Write>(written: &mut WrittenNotes<'_, '_, E>, answer: Answer) {
    written.notes.on_answer(answer);
}

/// Runs the command of an order to a device, and writes to `out` an object for each reply, one for
/// the notes on it, and at last one for those on the end.
fn answer_objects<H: Host, O: Write>(
    alloc: Global,
    order: &DeviceOrder<'_>,
    host: &mut H,
    out: &mut O,
    notes: &mut CommandNotes,
) -> Result<Answer, Refusal>
    ensures answers { IfOk result (λ answer. AnswersDevice form.Json answer order.now
        (H.input host.old) (H.file host.old) (H.file host.new)
        (O.contents out.old) (O.contents out.new)) }
    ensures begun { OnErr result (BreaksDevice form.Json order.now
        (H.input host.old) (H.file host.old) (H.file host.new)
        (O.contents out.old) (O.contents out.new)) }
    ensures used { IfOk result (λ answer. answer ≡ Answer.Done
        → core.UsesFlash order.now (H.opened host.old) (H.opened host.new) (H.synced host.new)) }
{
    let answer = run_device_order(alloc, order, Form::Json, host, out, notes)?;
    notes.on_answer(answer);
    write_last_notes(alloc, notes.list(), out)?;
    Ok(answer)
}

/// Writes the object of the notes on the end of a run, if there are any.
fn write_last_notes<O: Write>(alloc: Global, notes: &NoteList, out: &mut O) -> Result<(), Refusal>
    ensures told { OnOk result ((texts : List (List ℕ))
        × Appends (O.contents out.old) (O.contents out.new) (last_notes texts)) }
    ensures begun { OnErr result ((texts : List (List ℕ))
        × TakesPrefix (last_notes texts) (O.contents out.old) (O.contents out.new)) }
{
    let Ok(line) = last_notes(alloc, notes) else {
        return Err(Refusal::NoMemory);
    };
    match write_all(out, line.as_bytes()) {
        Ok(()) => Ok(()),
        Err(_) => Err(Refusal::CannotWrite),
    }
}

/// Plans a fleet, or adds summaries, and writes the answer to `out`. The notes on the devices or rows
/// of a text go to `err`.
fn answer_plan<H: Host, O: Write, E: Write>(
    alloc: Global,
    form: Form,
    order: &PlanOrder<'_>,
    host: &mut H,
    out: &mut O,
    err: &mut E,
    notes: &CommandNotes,
) -> Result<Answer, Refusal>
    ensures answers { IfOk result (λ answer. AnswersPlan form answer order.now
        (H.input host.old) (H.file host.old) (O.contents out.old) (O.contents out.new)) }
    ensures begun { OnErr result (BreaksPlan form order.now
        (H.input host.old) (H.file host.old) (O.contents out.old) (O.contents out.new)) }
{
    if !notes.are_wanted() {
        return run_plan(alloc, form, order, host, &mut NoPlanNotes, out);
    }
    let mut notes = DeviceNotes::new(alloc, err);
    run_plan(alloc, form, order, host, &mut notes, out)
}

/// Sweeps a device, and writes the result to `out`. The progress goes to `err`.
fn answer_sweep<H: Host, O: Write, E: Write>(
    alloc: Global,
    form: Form,
    order: SweepOrder<'_, '_>,
    host: &mut H,
    out: &mut O,
    err: &mut E,
    notes: &mut CommandNotes,
) -> Result<Answer, Refusal>
    ensures answers { IfOk result (λ answer.
        AnswersSweep form answer order.entry.device order.entry.script
        (H.input host.old) (H.file host.old) (O.contents out.old) (O.contents out.new)) }
    ensures inputs { KeepsInputs order.entry.device order.entry.script order.entry.images.now
        order.entry.choices.picture (H.file host.old) (H.file host.new) }
{
    let swept = run_sweep(alloc, order, host, err, notes)?;
    notes.on_answer(swept.answer());
    write_swept(alloc, form, notes.list(), &swept, out)
}

/// Merges outputs of sweeps, and writes the result to `out`. There are no notes on it.
fn answer_merge<H: Host, O: Write>(
    alloc: Global,
    form: Form,
    outputs: &[&str],
    picture: Option<&str>,
    is_forced: bool,
    host: &mut H,
    out: &mut O,
) -> Result<Answer, Refusal>
    ensures answers { IfOk result (λ answer.
        AnswersMerge form answer (O.contents out.old) (O.contents out.new)) }
    ensures outputs { KeepsOutputs outputs.now picture.entry (H.file host.old) (H.file host.new) }
{
    let swept = merge_outputs(alloc, outputs, picture, is_forced, host)?;
    write_swept(alloc, form, &NoteList::new(alloc), &swept, out)
}
