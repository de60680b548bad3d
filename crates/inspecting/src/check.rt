//! `bootswap check`: verifies that a report is right for a table.
ghost use Rattle.std.specs.Prelude.{◌≡◌, IfOk, if◌then◌else◌};
ghost use Rattle.inspecting.specs.Answers.{FindsVerdict};
ghost use Rattle.inspecting.specs.Check.{ChecksReport, ReadsTable, verdict_text};

use crate::inspection::Inspection;
use crate::table_input::{Text, read_text};
use checker::check;
use host::{Answer, BadText, Host, Refusal, Source};
use reports::{Report, Table};
use std::alloc::Global;

/// A table and a report, and whether the report is right for the table.
#[derive(Drop)]
pub struct Verdict {
    /// The table.
    pub table: Table,
    /// The report.
    pub report: Report,
    /// Whether the report is right for the table.
    pub is_right: bool,
}

/// Reads a table and a report from `host` into memory of `alloc`, and returns the verdict. The table
/// is checked before the report is read.
pub fn inspect_report<H: Host>(
    alloc: Global,
    table: Source<'_>,
    report: Source<'_>,
    host: &mut H,
) -> Result<Inspection, Refusal>
    ensures { IfOk result (λ found. FindsVerdict table.entry report.entry
        (H.input host.old) (H.file host.old) found) }
{
    let table = read_text(alloc, Text::Table, table, host)?;
    let table = table_in(table)?;
    let report = read_text(alloc, Text::Report, report, host)?;
    Ok(Inspection::Verdict(verdict_in(table, report)?))
}

/// Returns the table that a text spells. Does not allocate.
///
/// # Errors
/// `TableLine` if it isn't a table, with the text and the number, from 1, of the first line that no
/// table continues from.
pub fn table_in(text: Vec<u8>) -> Result<Table, Refusal>
    ensures { ReadsTable result text.items }
{
    match Table::parse(&text) {
        Ok(table) => Ok(table),
        Err(bad) => Err(Refusal::TableLine(BadText { text, line: bad.0 })),
    }
}

/// Returns a table, the report that a text spells, and whether the report is right for the table.
/// Does not allocate.
///
/// # Errors
/// `ReportLine` if it isn't a report, with the text and the number, from 1, of the first line that no
/// report continues from.
pub fn verdict_in(table: Table, text: Vec<u8>) -> Result<Verdict, Refusal>
    ensures { ChecksReport result table text.items }
{
    match Report::parse(&text) {
        Ok(report) => {
            let is_right = check(&table, &report);
            Ok(Verdict {
                table,
                report,
                is_right,
            })
        }
        Err(bad) => Err(Refusal::ReportLine(BadText { text, line: bad.0 })),
    }
}

/// Returns the answer of a verdict: `Refused` for a no.
pub(crate) fn verdict_answer(is_right: bool) -> Answer
    ensures { result ≡ (if is_right then Answer.Done else Answer.Refused) }
{
    if is_right {
        Answer::Done
    } else {
        Answer::Refused
    }
}

/// The line of a verdict.
pub(crate) fn verdict_text(is_right: bool) -> &'static str
    ensures { result.now ≡ verdict_text is_right }
{
    if is_right { "yes\n" } else { "no\n" }
}
