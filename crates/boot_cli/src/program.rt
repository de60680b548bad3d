//! Runs the order that the arguments give, and returns the exit status.
ghost use Rattle.std.specs.Prelude.{◌≡◌, ◌≢◌, map};
ghost use Rattle.boot_cli.specs.ErrorEnd.{WritesAsked, WritesOrder};
ghost use Rattle.boot_cli.specs.JsonEnd.{AnswersOrder, form_of};
ghost use Rattle.boot_cli.specs.OrderEnd.{KeepsSwept, UsesFlash};
ghost use Rattle.boot_cli.specs.WordsEnd.{EndsByCut, EndsProgram};

use crate::answering::answer_request;
use crate::ending::end;
use crate::hint::hint_at_notes;
use crate::until_failed::UntilFailed;
use crate::words::request_in;
use command_line::Request;
use device_commands::answer_words;
use explaining::CommandNotes;
use host::{Answer, Host};
use std::alloc::Global;
use std::convert::AsStr;
use std::io::Write;

/// Runs the order that the arguments `words` give, and returns the exit status: 0 done, 1 refused,
/// 2 wrong usage, 3 the power failed last, 4 the flash file failed.
///
/// The first argument is the program's own name. Without further arguments `choose` runs on
/// standard input. All memory is of `alloc`. Input comes from `host`, which also holds the flash
/// file. Answers go to `out`, error lines and notes to `err`, and both are flushed. After a failed
/// write nothing more is written, and the status is 1.
pub fn cli<S: AsStr, H: Host, O: Write, E: Write>(
    alloc: Global,
    words: &[S],
    host: &mut H,
    out: &mut O,
    err: &mut E,
) -> u8
    ensures ends { EndsProgram (map S.text words.entry.now) result
        (λ asked. UsesFlash asked (H.opened host.old) (H.opened host.new) (H.synced host.new))
        (H.input host.old) (H.file host.old) (H.file host.new)
        (O.contents out.old) (O.contents out.new) }
    ensures output { WritesAsked (map S.text words.entry.now) result
        (H.input host.old) (H.file host.old) (H.file host.new)
        (O.contents out.old) (O.contents out.new) }
{
    match request_in(alloc, words) {
        Ok(request) => run_order(alloc, request, words.len() > 1, host, out, err),
        Err(error) => answer_words(alloc, words, error, out, err),
    }
}

/// Runs the command of an order, and returns its exit status. The status is 0 only if the complete
/// answer is written and is a yes. If `may_hint` is set, a line that points to `--explain` may
/// follow an error line at a terminal.
///
/// The answer is written to `out` and an error to `err`, as JSON if the request says so. As JSON,
/// nothing is written to `out` if the command has no answer. If memory runs out
/// for the object, the command ends with `NoMemory`, after it did its work.
///
/// If the request asks for notes, those on the answer go to `err`. As JSON, they are members of the
/// object of the answer, or of that of a device of `plan`. The notes on a reply of `run` are an object
/// of their own after that of the reply. Without an answer the notes are of the error: they follow
/// its line on `err`, or are members of its object there.
pub fn run_order<H: Host, O: Write, E: Write>(
    alloc: Global,
    request: Request<'_>,
    may_hint: bool,
    host: &mut H,
    out: &mut O,
    err: &mut E,
) -> u8
    ensures done { result ≡ 0 → AnswersOrder (form_of request.entry.is_json) Answer.Done
        request.entry.order (H.input host.old) (H.file host.old) (H.file host.new)
        (O.contents out.old) (O.contents out.new) }
    ensures cut { result ≡ 3 → EndsByCut request.entry.is_json request.entry.order
        (H.input host.old) (H.file host.old) (H.file host.new)
        (O.contents out.old) (O.contents out.new) }
    ensures output { WritesOrder request.entry.is_json request.entry.order
        (H.input host.old) (H.file host.old) (H.file host.new)
        (O.contents out.old) (O.contents out.new) }
    ensures other { result ≢ 2 }
    ensures swept { KeepsSwept request.entry.order (H.file host.old) (H.file host.new) }
    ensures used { result ≡ 0 → UsesFlash request.entry.order (H.opened host.old)
        (H.opened host.new) (H.synced host.new) }
{
    let mut err = UntilFailed::over(err);
    let mut notes = CommandNotes::new(alloc, request.is_explained);
    let outcome = answer_request(alloc, &request, host, out, &mut err, &mut notes);
    if let Err(refusal) = &outcome {
        notes.on_refusal(&request.order, refusal);
    }
    let status = end(
        alloc,
        request.is_json,
        &outcome,
        notes.list(),
        out,
        &mut err,
    );
    if may_hint && !request.is_json && !request.is_explained {
        hint_at_notes(&outcome, &*host, &mut err);
    }
    status
}
