//! Runs the command that the arguments ask for: `provision` or `run`.
ghost use Rattle.std.specs.Prelude.{◌≡◌, ◌≢◌, IfErr, IfOk, OnErr, map};
ghost use Rattle.device_texts.specs.declared.form.Form.TheVariants as form;
ghost use Rattle.device_commands.specs.CoreEnd.{AnswersCore, BlamesCore, BreaksCore, UsesFlash, access_for};
ghost use Rattle.device_commands.specs.WordsEnd.{EndsByCut, EndsCore};

use crate::answering::answer_words;
use crate::provision::{NewFlash, run_provision};
use crate::run::{RunFiles, RunOptions, run_device};
use command_line::{DeviceOrder, device_request};
use device_texts::Form;
use host::{Access, Answer, Host, Refusal, Source, finish};
use inputs::{NoNotes, Notes};
use std::alloc::Global;
use std::convert::AsStr;
use std::io::Write;

/// Runs the command that `words` ask for, and returns the exit status: 0 for done, 1 for refused, 2
/// for wrong usage, 3 if the power failed last, 4 if the file of the flash failed. A command that
/// the core doesn't have is refused, and so are `--explain` and `--json`.
///
/// The first of `words` is the program's own name. Files are those of `host`. Answers are written
/// to `out`, error lines and usage to `err`, and both are flushed. After a failed write nothing
/// more is written, and the status is 1. All memory is of `alloc`.
pub fn core_cli<S: AsStr, H: Host, O: Write, E: Write>(
    alloc: Global,
    words: &[S],
    host: &mut H,
    out: &mut O,
    err: &mut E,
) -> u8
    ensures { EndsCore (map S.text words.entry.now) result
        (λ order. UsesFlash order (H.opened host.old) (H.opened host.new) (H.synced host.new))
        (H.input host.old) (H.file host.old) (H.file host.new)
        (O.contents out.old) (O.contents out.new) }
{
    match device_request(alloc, words) {
        Ok(Some(request)) if !request.is_explained && !request.is_json => {
            run_core_order(alloc, &request.order, host, out, err)
        }
        Ok(_) => finish(&Err(Refusal::NotOfCore), out, err),
        Err(error) => answer_words(alloc, words, error, out, err),
    }
}

/// Runs a command, and returns its exit status. It is 0 only if the command is done and its
/// complete answer is written.
pub fn run_core_order<H: Host, O: Write, E: Write>(
    alloc: Global,
    order: &DeviceOrder<'_>,
    host: &mut H,
    out: &mut O,
    err: &mut E,
) -> u8
    ensures done { result ≡ 0 → AnswersCore form.Text Answer.Done order.now (H.input host.old)
        (H.file host.old) (H.file host.new) (O.contents out.old) (O.contents out.new) }
    ensures cut { result ≡ 3 → EndsByCut order.now (H.input host.old) (H.file host.old)
        (H.file host.new) (O.contents out.old) (O.contents out.new) }
    ensures used { result ≡ 0 → UsesFlash order.now (H.opened host.old) (H.opened host.new)
        (H.synced host.new) }
    ensures other { result ≢ 2 }
{
    let outcome = run_device_order(alloc, order, Form::Text, host, out, &mut NoNotes);
    finish(&outcome, out, err)
}

/// Runs a command on the files of `host`, and writes its answer to `out`: the replies of a run in
/// this form, and everything else as a text. The inputs and each reply are handed to `notes`.
///
/// # Errors
/// The errors of the command.
pub fn run_device_order<H: Host, O: Write, N: Notes>(
    alloc: Global,
    order: &DeviceOrder<'_>,
    form: Form,
    host: &mut H,
    out: &mut O,
    notes: &mut N,
) -> Result<Answer, Refusal>
    ensures answers { IfOk result (λ answer. AnswersCore form answer order.now
        (H.input host.old) (H.file host.old) (H.file host.new)
        (O.contents out.old) (O.contents out.new)) }
    ensures used { IfOk result (λ answer. answer ≡ Answer.Done
        → UsesFlash order.now (H.opened host.old) (H.opened host.new) (H.synced host.new)) }
    ensures begun { OnErr result (BreaksCore form order.now (H.input host.old) (H.file host.old)
        (O.contents out.old) (O.contents out.new)) }
    ensures wrong { IfErr result (BlamesCore order.now (H.input host.old) (H.file host.old)) }
{
    match *order {
        DeviceOrder::Provision {
            device,
            flash,
            ref images,
            forced,
        } => {
            let flash = NewFlash {
                name: flash,
                is_forced: forced,
            };
            run_provision(
                alloc,
                Source::named(device),
                flash,
                images,
                host,
                out,
                notes,
            )
        }
        DeviceOrder::Run {
            device,
            flash,
            script,
            durable,
            strict,
        } => {
            let files = RunFiles {
                device: Source::named(device),
                flash,
                access: access_of(durable),
                script: Source::named(script),
            };
            let options = RunOptions {
                is_strict: strict,
                form,
            };
            run_device(alloc, files, options, host, out, notes)
        }
    }
}

/// How a run opens its flash: for durable writes if `durable` is set.
fn access_of(durable: bool) -> Access
    ensures { result ≡ access_for durable }
{
    if durable {
        Access::WriteDurably
    } else {
        Access::Write
    }
}
