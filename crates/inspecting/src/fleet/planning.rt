//! Plans a fleet that a reader gives.

ghost use Rattle.std.specs.Prelude.{◌≡◌, ◌≤◌, ℕ, IfOk, List, OnErr, OnOk, length};
ghost use Rattle.std.specs.Io.KnownBytes.{ReadConsumes};
ghost use Rattle.inspecting.specs.Plan.{Planned};
ghost use Rattle.inspecting.specs.PlanEnd.{BreaksEnd, BreaksRest, EndsWith, IsAnswerFor, Plans, PlansPart, WritesRest};
ghost use Rattle.inspecting.specs.Planning.{IsTold, Stands};

use crate::fleet::plan_notes::PlanNotes;
use crate::fleet::planner::Planner;
use crate::fleet::requests::Requests;
use crate::fleet::summary_lines::write_rows;
use crate::fleet::telling::{Telling, Told};
use host::{Answer, Refusal, Source};
use std::alloc::{AllocError, Global};
use std::io;
use std::io::{ErrorKind, Read, Write};

/// How many bytes are read at a time.
const PIECE: usize = 1 << 16;

/// Reads the fleet that `input` gives to its end, and decides over the table of each device with
/// its requests replaced by those of `requests`. Writes to `out` each device with its result, or
/// at the end their summary, as `telling` says. `notes` explains each device that is written, or the
/// rows of the summary.
///
/// A bad table is no error: the device gets the result `bad-line N`, `too-long` or `not-valid`, the
/// others follow, and the answer is `Refused`. `source` names the input in an error. The memory in
/// use doesn't grow with the number of devices: a piece of 65,536 bytes, a line and a table of at
/// most as many, and the text of one result, all of `alloc`. That of a summary grows with the number
/// of its rows.
///
/// # Errors
/// - `FleetLine` if the input doesn't begin with a line `device NAME`.
/// - `NoMemory` if memory runs out or a count of the summary would be 2^64.
/// - `OfSource` if a read fails, and `CannotWrite` if a write fails.
///
/// After an error `out` has the devices before it, and perhaps a prefix of the next one's text. Of
/// a summary it has nothing, or a prefix if a write failed.
pub fn plan_over<R: Read, W: Write, N: PlanNotes>(
    alloc: Global,
    requests: &Requests,
    telling: Telling,
    source: Source<'_>,
    input: &mut R,
    notes: &mut N,
    out: &mut W,
) -> Result<Answer, Refusal>
    ensures plans { IfOk result (λ answer. Plans requests.now.entries telling answer
        (R.remaining input.old) (R.remaining input.new)
        (W.contents out.old) (W.contents out.new)) }
    ensures begun { OnErr result (PlansPart requests.now.entries telling
        (R.remaining input.old) (W.contents out.old) (W.contents out.new)) }
{
    let Ok(mut piece) = buffer(alloc, PIECE) else {
        return Err(Refusal::NoMemory);
    };
    let mut planner = Planner::new(alloc, telling);
    for _ in 0..u64::MAX {
        match read_into(input, &mut piece) {
            Ok(0) => return end_plan(alloc, requests, planner, notes, out),
            Ok(count) => planner.read(requests, &piece[..count], notes, out)?,
            Err(error) if error.kind() == ErrorKind::Interrupted => {}
            Err(error) => return Err(source.refusal(alloc, error)),
        }
    }
    Err(source.refusal(alloc, io::Error::from(ErrorKind::TimedOut)))
}

/// Reads the next bytes of an input into a buffer, and returns how many. It is 0 at the end of the
/// input.
fn read_into<R: Read>(input: &mut R, buffer: &mut Vec<u8>) -> io::Result<usize>
    ensures read { ReadConsumes (R.remaining input.old) (R.remaining input.new) result
        buffer.new.items }
    ensures bound { IfOk result (λ count. count ≤ length buffer.new.items) }
    ensures size { length buffer.new.items ≡ length buffer.old.items }
{
    input.read(buffer)
}

/// Returns a buffer of `count` bytes in memory of `alloc`.
fn buffer(alloc: Global, count: usize) -> Result<Vec<u8>, AllocError>
    ensures { IfOk result (λ made. length made.items ≡ count) }
{
    vec![in alloc; 0; count]
}

/// Ends a plan, and returns its answer.
fn end_plan<W: Write, N: PlanNotes>(
    alloc: Global,
    requests: &Requests,
    planner: Planner,
    notes: &mut N,
    out: &mut W,
) -> Result<Answer, Refusal>
    ensures ends { IfOk result (λ answer. (telling : Telling) (bytes : List ℕ) (plan : List Planned)
        → Stands requests.now.entries telling planner bytes plan
        → EndsWith requests.now.entries telling answer bytes plan
        (W.contents out.old) (W.contents out.new)) }
    ensures begun { OnErr result ((telling : Telling) (bytes : List ℕ) (plan : List Planned)
        → Stands requests.now.entries telling planner bytes plan
        → BreaksEnd requests.now.entries telling bytes plan
        (W.contents out.old) (W.contents out.new)) }
{
    let mut planner = planner;
    planner.end(requests, notes, out)?;
    write_rest(alloc, &planner.told, notes, out)?;
    Ok(answer_for(planner.has_bad))
}

/// Writes the summary with the notes on it, if there is one.
fn write_rest<W: Write, N: PlanNotes>(
    alloc: Global,
    told: &Told,
    notes: &mut N,
    out: &mut W,
) -> Result<(), Refusal>
    ensures rest { OnOk result ((telling : Telling) (plan : List Planned)
        → IsTold telling told.now plan
        → WritesRest telling plan (W.contents out.old) (W.contents out.new)) }
    ensures begun { OnErr result ((telling : Telling) (plan : List Planned)
        → IsTold telling told.now plan
        → BreaksRest telling plan (W.contents out.old) (W.contents out.new)) }
{
    match told {
        Told::Written(_) => Ok(()),
        Told::Counted(form, summary) => write_rows(alloc, *form, &summary.rows, notes, out),
    }
}

/// Returns the answer of a plan: whether a device has no report.
fn answer_for(has_bad: bool) -> Answer
    ensures { IsAnswerFor has_bad result }
{
    if has_bad {
        Answer::Refused
    } else {
        Answer::Done
    }
}
