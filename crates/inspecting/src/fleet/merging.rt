//! Adds up the summaries of parts of a fleet.

ghost use Rattle.std.specs.Prelude.{◌≡◌, ◌⊎◌, ◌∷◌, [], ℕ, IfOk, IfSome, List, OnErr, OnOk, map};
ghost use Rattle.std.specs.Io.KnownBytes.{Keeps};
ghost use Rattle.inspecting.specs.Merging.{BeginsSum, IsNext, Merges, has_bad_at};
ghost use Rattle.inspecting.specs.PlanEnd.{IsAnswerFor};
ghost use Rattle.inspecting.specs.Row.{Row};
ghost use Rattle.inspecting.specs.SummaryLines.{WritesRows, WritesSomeRows};
ghost use Rattle.inspecting.specs.SummaryRows.{AddsRows};
ghost use Rattle.inspecting.specs.SummaryText.{IsSummaryText, read_row_of};

use crate::fleet::plan_notes::PlanNotes;
use crate::fleet::row_line::{ReadRow, read_row};
use crate::fleet::rows::{RowFault, Rows};
use crate::fleet::summary::Summary;
use crate::fleet::summary_lines::write_rows;
use common::ascii::cut;
use device_texts::Form;
use host::{Answer, Refusal};
use std::alloc::Global;
use std::cmp::Ordering;
use std::io::Write;

/// Why summaries can't be added up.
#[derive(Clone, Copy, Debug)]
pub enum MergeFault {
    /// This line of a text, counted from 1, isn't the next one of a summary.
    BadLine(usize),
    /// With the count in this line of a text, counted from 1, a sum would be 2^64 or more.
    TooMany(usize),
    /// Memory ran out.
    NoMemory,
}

/// Why a sum isn't written.
#[derive(Clone, Copy, Debug)]
pub enum MergeRefusal {
    /// This part, counted from 0, can't be added.
    Part(usize, MergeFault),
    /// Memory ran out for the text or the object of the sum.
    NoMemory,
    /// A write failed. A prefix of the sum is written.
    CannotWrite,
}

/// Adds up the summaries whose texts are `parts`, in their order, and writes the sum to `out` in a
/// form, explained by `notes`.
///
/// The first device of a key is that of the first part that has the key. The answer is `Refused` if
/// a device has no report: a row `bad` or `not-valid` is there. The memory in use, of `alloc`, is
/// that of the sum and of its text.
///
/// # Errors
/// `Part` if a text is no summary, a count would be 2^64 or more, or memory runs out, and `NoMemory`
/// if memory runs out for the text or the object of the sum. Then nothing is written. `CannotWrite` if a write fails.
pub fn merge_over<W: Write, N: PlanNotes>(
    alloc: Global,
    parts: &[Vec<u8>],
    form: Form,
    notes: &mut N,
    out: &mut W,
) -> Result<Answer, MergeRefusal>
    ensures merges { IfOk result (λ answer. Merges parts.now form answer
        (W.contents out.old) (W.contents out.new)) }
    ensures begun { OnErr result (Keeps (W.contents out.old) (W.contents out.new)
        ⊎ BeginsSum (map (λ text. text.items) parts.now) form
        (W.contents out.old) (W.contents out.new)) }
{
    let mut summary = Summary::new(alloc);
    for (part, text) in parts.iter().enumerate() {
        if let Err(fault) = add_text(&mut summary, text) {
            return Err(MergeRefusal::Part(part, fault));
        }
    }
    write_sum(alloc, form, &summary.rows, notes, out)
}

/// Writes rows with the notes on them in a form, and returns their answer.
fn write_sum<W: Write, N: PlanNotes>(
    alloc: Global,
    form: Form,
    rows: &Rows,
    notes: &mut N,
    out: &mut W,
) -> Result<Answer, MergeRefusal>
    ensures written { IfOk result (λ answer.
        WritesRows form rows.now (W.contents out.old) (W.contents out.new)
        × IsAnswerFor (has_bad_at rows.now) answer) }
    ensures begun { OnErr result (WritesSomeRows form rows.now
        (W.contents out.old) (W.contents out.new)) }
{
    match write_rows(alloc, form, rows, notes, out) {
        Ok(()) => Ok(answer_of(rows)),
        Err(Refusal::CannotWrite) => Err(MergeRefusal::CannotWrite),
        Err(_) => Err(MergeRefusal::NoMemory),
    }
}

/// Returns the answer of a sum: whether a device has no report.
fn answer_of(rows: &Rows) -> Answer
    ensures { IsAnswerFor (has_bad_at rows.now) result }
{
    if rows.contains_key("bad") || rows.contains_key("not-valid") {
        Answer::Refused
    } else {
        Answer::Done
    }
}

/// Adds the rows of a summary, given its text.
///
/// # Errors
/// `BadLine` if the text is no summary, `TooMany` if a count would be 2^64 or more, and `NoMemory`
/// if memory runs out. Then some of the rows are added.
fn add_text(summary: &mut Summary, text: &[u8]) -> Result<(), MergeFault>
    ensures { OnOk result ((rows : List Row) × IsSummaryText text.now rows
        × AddsRows rows summary.old.rows summary.new.rows) }
{
    let mut rest = text;
    let mut last: &[u8] = b"";
    let mut line = 0;
    while !rest.is_empty() {
        line += 1;
        let Some((row, after)) = next_row(last, rest) else {
            return Err(MergeFault::BadLine(line));
        };
        add_read(summary, &row, line)?;
        last = row.key.as_bytes();
        rest = after;
    }
    Ok(())
}

/// Adds a row that was read from this line, counted from 1.
fn add_read(summary: &mut Summary, row: &ReadRow<'_, '_>, line: usize) -> Result<(), MergeFault>
    ensures { OnOk result (AddsRows (read_row_of row.now ∷ []) summary.old.rows summary.new.rows) }
{
    match summary.add_row(row.count, row.first, row.key) {
        Ok(()) => Ok(()),
        Err(RowFault::NoMemory) => Err(MergeFault::NoMemory),
        Err(RowFault::TooMany) => Err(MergeFault::TooMany(line)),
    }
}

/// Reads the first line of a text, and returns its row and the bytes after it. Returns `None` if it
/// is no line of a summary, has no line feed, or has a key that isn't above `last`.
fn next_row<'t>(last: &[u8], text: &'t [u8]) -> Option<(ReadRow<'t, 't>, &'t [u8])>
    ensures { IfSome result (λ next. IsNext last.now text.now (read_row_of next.0) next.1.now) }
{
    let (line, after) = cut(text, b'\n');
    let Some(after) = after else {
        return None;
    };
    let Some(row) = read_row(line) else {
        return None;
    };
    match last.cmp(row.key.as_bytes()) {
        Ordering::Less => Some((row, after)),
        Ordering::Equal | Ordering::Greater => None,
    }
}
