//! Tables and reports as texts in the caller's buffer.

ghost use Rattle.reports.specs.ReportText.{report_text};
ghost use Rattle.reports.specs.TableText.{table_text};
ghost use Rattle.c_interface.specs.Texts.{IsTried};

use crate::sinks::{BufferSink, LengthSink};
use reports::{Report, Table};

/// Writes the text of a table to the front of a buffer, if it fits, and returns its length.
pub(crate) fn put_table(table: &Table, buffer: &mut [u8]) -> Option<u32>
    ensures { IsTried (table_text table.now) buffer.old buffer.new result }
{
    let mut length = LengthSink::new();
    let Ok(()) = table.write_to(&mut length);
    let length = length.within(buffer.len())?;
    let mut sink = BufferSink::new(buffer);
    let Ok(()) = table.write_to(&mut sink);
    Some(length)
}

/// Writes the text of a report to the front of a buffer, if it fits, and returns its length.
pub(crate) fn put_report(report: &Report, buffer: &mut [u8]) -> Option<u32>
    ensures { IsTried (report_text report.now) buffer.old buffer.new result }
{
    let mut length = LengthSink::new();
    let Ok(()) = report.write_to(&mut length);
    let length = length.within(buffer.len())?;
    let mut sink = BufferSink::new(buffer);
    let Ok(()) = report.write_to(&mut sink);
    Some(length)
}

/// The lengths of two texts, 0 for a text that isn't there or was longer than its buffer.
#[derive(Clone, Copy)]
pub(crate) struct Lengths {
    pub(crate) table: u32,
    pub(crate) report: u32,
}

/// No text.
pub(crate) const NO_TEXTS: Lengths = Lengths {
    table: 0,
    report: 0,
};
