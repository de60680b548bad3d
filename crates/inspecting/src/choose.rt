//! `bootswap choose`: decides over a table.
ghost use Rattle.std.specs.Prelude.{ℕ, List, IfOk};
ghost use Rattle.inspecting.specs.Answers.{FindsChoice};
ghost use Rattle.inspecting.specs.Choose.{Chooses, Reads, Writes};

use crate::inspection::Inspection;
use crate::reading::{ReadError, read_all};
use crate::table_input::{Text, read_text};
use chooser::choose;
use device_texts::write_all;
use host::{BadText, Host, Refusal, Source};
use reports::{Report, Table, right_reports_have_a_text};
use std::alloc::Global;
use std::io::{Read, Write};
use validity::is_valid;

/// A table, and the report on it.
#[derive(Drop)]
pub struct Choice {
    /// The table.
    pub table: Table,
    /// The right report on the table.
    pub report: Report,
}

/// Reads a table from `host` into memory of `alloc`, and returns the report on it.
pub fn inspect_table<H: Host>(
    alloc: Global,
    table: Source<'_>,
    host: &mut H,
) -> Result<Inspection, Refusal>
    ensures { IfOk result (λ found. FindsChoice table.entry
        (H.input host.old) (H.file host.old) found) }
{
    let bytes = read_text(alloc, Text::Table, table, host)?;
    match choice_in(&bytes) {
        Ok(choice) => Ok(Inspection::Choice(choice)),
        Err(NoChoice::BadLine(line)) => Err(Refusal::TableLine(BadText { text: bytes, line })),
        Err(NoChoice::NotValid(table)) => Err(not_valid(alloc, table)),
    }
}

/// Returns the refusal of a table whose running images don't fit each other.
fn not_valid(alloc: Global, table: Table) -> Refusal {
    match Box::new(alloc, table) {
        Ok(table) => Refusal::NotValid(table),
        Err(_) => Refusal::NoMemory,
    }
}

/// How a choice over a reader and a writer ended.
#[derive(Clone, Copy)]
pub enum ChooseEnd {
    /// The complete report is written.
    Done,
    /// The input isn't a table. The number, from 1, is that of the first line that no table
    /// continues from.
    BadLine(usize),
    /// The input is a table whose running images don't fit each other.
    NotValid,
    /// There was no memory for the input or the report.
    NoMemory,
    /// The input could not be read to its end.
    ReadFailed,
    /// The report could not be written. The writer has taken a prefix of it.
    WriteFailed,
}

/// Reads `input` to its end, decides over the table that it holds, and writes the report to `out`.
///
/// The input and the report are in memory of `alloc`. Nothing but the report is written, and that
/// only if the end is `Done` or `WriteFailed`.
pub fn choose_over<R: Read, W: Write>(alloc: Global, input: &mut R, out: &mut W) -> ChooseEnd
    ensures { (bytes : List ℕ)
        × Reads result (R.remaining input.old) (R.remaining input.new) bytes
        × Writes result bytes (W.contents out.old) (W.contents out.new) }
{
    let bytes = match read_all(alloc, input) {
        Ok(bytes) => bytes,
        Err(ReadError::NoMemory) => return ChooseEnd::NoMemory,
        Err(ReadError::Failed) => return ChooseEnd::ReadFailed,
    };
    let report = match choice_in(&bytes) {
        Ok(choice) => choice.report,
        Err(NoChoice::BadLine(line)) => return ChooseEnd::BadLine(line),
        Err(NoChoice::NotValid(_)) => return ChooseEnd::NotValid,
    };
    let Ok(text) = format!(in alloc; "{report}") else {
        return ChooseEnd::NoMemory;
    };
    match write_all(out, text.as_bytes()) {
        Ok(()) => ChooseEnd::Done,
        Err(_) => ChooseEnd::WriteFailed,
    }
}

/// Why there is no choice over a text.
#[derive(Debug, Drop)]
pub enum NoChoice {
    /// It isn't a table. The number, from 1, is that of the first line that no table continues from.
    BadLine(usize),
    /// It is this table, whose running images don't fit each other.
    NotValid(Table),
}

/// Returns the table that `bytes` spell, and the report on it. Does not allocate.
pub fn choice_in(bytes: &[u8]) -> Result<Choice, NoChoice>
    ensures { Chooses result bytes.now }
{
    let table = match Table::parse(bytes) {
        Ok(table) => table,
        Err(bad) => return Err(NoChoice::BadLine(bad.0)),
    };
    if !is_valid(&table) {
        return Err(NoChoice::NotValid(table));
    }
    right_reports_have_a_text();
    let report = choose(&table);
    Ok(Choice { table, report })
}
