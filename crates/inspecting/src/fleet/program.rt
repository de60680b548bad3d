//! `bootswap plan`: decides for each device of a fleet, or adds summaries.

ghost use Rattle.std.specs.Prelude.{◌≡◌, IfOk, OnErr, map};
ghost use Rattle.inspecting.specs.PlanAnswers.{AnswersFleet, AnswersMerge, AnswersPlan, BreaksFleet, BreaksMerge, BreaksPlan, BreaksSource, PlansSource, ReadsEach, telling_of};

use crate::fleet::merging::{MergeFault, MergeRefusal, merge_over};
use crate::fleet::plan_notes::PlanNotes;
use crate::fleet::planning::plan_over;
use crate::fleet::release::read_release;
use crate::fleet::requests::Requests;
use crate::fleet::telling::Telling;
use command_line::{PlanOrder, RequestedFile};
use device_texts::Form;
use host::{
    Answer, BadText, Host, MOST_FILE, Refusal, Source, SourceFault, Stream, open_stream,
    refuse_after,
};
use std::alloc::Global;
use std::io::Write;

/// Runs the order `plan`. Reads a fleet, or summaries, and the images that are requested from
/// `host`, and writes the answer to `out` in a form: devices, or a summary. `notes` explains each
/// device, or the rows. The memory in use, of `alloc`, doesn't grow with the number of devices.
///
/// # Errors
/// What was written before an error is flushed, unless a write failed.
///
/// - `RequestedTwice` and `NoImage` if the requests name no release.
/// - `OfSource` if a source can't be read, holds no image or no summary, or has a count whose sum
///   with those before it would be 2^64 or more.
/// - `FleetLine` if a fleet doesn't begin with a device.
/// - `NoMemory` if memory runs out, and `CannotWrite` if a write fails.
pub fn run_plan<H: Host, N: PlanNotes, O: Write>(
    alloc: Global,
    form: Form,
    order: &PlanOrder<'_>,
    host: &mut H,
    notes: &mut N,
    out: &mut O,
) -> Result<Answer, Refusal>
    ensures answers { IfOk result (λ answer. AnswersPlan form answer order.now
        (H.input host.old) (H.file host.old) (O.contents out.old) (O.contents out.new)) }
    ensures begun { OnErr result (BreaksPlan form order.now
        (H.input host.old) (H.file host.old) (O.contents out.old) (O.contents out.new)) }
{
    match order {
        PlanOrder::Fleet {
            fleet,
            requests,
            is_summary,
        } => {
            let fleet = Source::named(fleet);
            let telling = telling_of(form, *is_summary);
            plan_release(alloc, fleet, requests, telling, host, notes, out)
        }
        PlanOrder::Merge { summaries } => merge_sources(alloc, form, summaries, host, notes, out),
    }
}

/// Returns how results are written in a form, with or without `--summary`.
fn telling_of(form: Form, is_summary: bool) -> Telling
    ensures { result ≡ telling_of form is_summary }
{
    if is_summary {
        Telling::Summary(form)
    } else {
        Telling::Devices(form)
    }
}

/// Decides for each device of a fleet with the requests of these files.
fn plan_release<H: Host, N: PlanNotes, O: Write>(
    alloc: Global,
    fleet: Source<'_>,
    files: &[RequestedFile<'_>],
    telling: Telling,
    host: &mut H,
    notes: &mut N,
    out: &mut O,
) -> Result<Answer, Refusal>
    ensures answers { IfOk result (λ answer. AnswersFleet answer fleet.entry files.now telling
        (H.input host.old) (H.file host.old) (O.contents out.old) (O.contents out.new)) }
    ensures begun { OnErr result (BreaksFleet fleet.entry files.now telling
        (H.input host.old) (H.file host.old) (O.contents out.old) (O.contents out.new)) }
{
    let requests = read_release(alloc, files, host)?;
    plan_source(alloc, &requests, telling, fleet, host, notes, out)
}

/// Decides for each device of the fleet that a source holds, and writes the results to `out`. If it
/// refuses, the devices before that are flushed.
fn plan_source<H: Host, N: PlanNotes, O: Write>(
    alloc: Global,
    requests: &Requests,
    telling: Telling,
    fleet: Source<'_>,
    host: &mut H,
    notes: &mut N,
    out: &mut O,
) -> Result<Answer, Refusal>
    ensures plans { IfOk result (λ answer. PlansSource answer fleet.entry requests.now.entries telling
        (H.input host.old) (H.file host.old) (O.contents out.old) (O.contents out.new)) }
    ensures begun { OnErr result (BreaksSource fleet.entry requests.now.entries telling
        (H.input host.old) (H.file host.old) (O.contents out.old) (O.contents out.new)) }
{
    open_stream(alloc, fleet, host)?;
    let mut input = Stream { host };
    match plan_over(alloc, requests, telling, fleet, &mut input, notes, out) {
        Ok(answer) => Ok(answer),
        Err(refusal) => Err(refuse_after(refusal, out)),
    }
}

/// Adds the summaries in these files, and writes their sum to `out` in a form.
fn merge_sources<H: Host, N: PlanNotes, O: Write>(
    alloc: Global,
    form: Form,
    names: &[&str],
    host: &mut H,
    notes: &mut N,
    out: &mut O,
) -> Result<Answer, Refusal>
    ensures answers { IfOk result (λ answer. AnswersMerge form answer names.now
        (H.input host.old) (H.file host.old) (O.contents out.old) (O.contents out.new)) }
    ensures begun { OnErr result (BreaksMerge form names.now
        (H.input host.old) (H.file host.old) (O.contents out.old) (O.contents out.new)) }
{
    let texts = read_each(alloc, names, host)?;
    match merge_over(alloc, &texts, form, notes, out) {
        Ok(answer) => Ok(answer),
        Err(refusal) => Err(merge_refusal(alloc, names, &texts, refusal)),
    }
}

/// Reads the sources of these names, one after the other.
fn read_each<H: Host>(alloc: Global, names: &[&str], host: &mut H) -> Result<Vec<Vec<u8>>, Refusal>
    ensures { IfOk result (λ texts. ReadsEach names.now
        (H.input host.old) (H.file host.old) (map (λ text. text.items) texts.items)) }
{
    let mut texts = Vec::new(alloc);
    for name in names {
        let text = Source::named(name).read(alloc, host, MOST_FILE)?;
        let Ok(()) = texts.push(text) else {
            return Err(Refusal::NoMemory);
        };
    }
    Ok(texts)
}

/// Returns the refusal to add the summaries of these names, which have these texts.
fn merge_refusal(
    alloc: Global,
    names: &[&str],
    texts: &[Vec<u8>],
    refusal: MergeRefusal,
) -> Refusal {
    match refusal {
        MergeRefusal::Part(part, MergeFault::BadLine(line) | MergeFault::TooMany(line)) => {
            match (names.get(part), texts.get(part)) {
                (Some(name), Some(text)) => cannot_merge(alloc, name, text, line),
                _ => Refusal::NoMemory,
            }
        }
        MergeRefusal::CannotWrite => Refusal::CannotWrite,
        MergeRefusal::Part(_, MergeFault::NoMemory) | MergeRefusal::NoMemory => Refusal::NoMemory,
    }
}

/// Returns the refusal of a summary of this name and text by this line. The text is copied into memory
/// of `alloc`.
fn cannot_merge(alloc: Global, name: &str, text: &[u8], line: usize) -> Refusal {
    match Vec::from_slice(alloc, text) {
        Ok(text) => {
            let bad = BadText { text, line };
            Source::named(name).refused(alloc, SourceFault::CannotMerge(bad))
        }
        Err(_) => Refusal::NoMemory,
    }
}
