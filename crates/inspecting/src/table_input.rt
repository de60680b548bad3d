//! Reads the inputs of `choose` and `check`: tables and reports.
ghost use Rattle.std.specs.Prelude.{IfOk};
ghost use Rattle.host.specs.Input.{Gives, KeepsOthers};

use host::{BadText, Host, MOST_TABLE, Refusal, Source, SourceFault};
use reports::{Report, Table};
use std::alloc::Global;

/// The kind of a text.
#[derive(Clone, Copy)]
pub enum Text {
    /// A table.
    Table,
    /// A report.
    Report,
}

impl Text {
    /// Returns the first line that no such text continues from, or `None` if the bytes are one.
    fn wrong_line(self, bytes: &[u8]) -> Option<usize> {
        match self {
            Text::Table => match Table::parse(bytes) {
                Ok(_) => None,
                Err(bad) => Some(bad.0),
            },
            Text::Report => match Report::parse(bytes) {
                Ok(_) => None,
                Err(bad) => Some(bad.0),
            },
        }
    }

    /// Returns the refusal of a text with this wrong line.
    pub fn refusal(self, text: Vec<u8>, line: usize) -> Refusal {
        let bad = BadText { text, line };
        match self {
            Text::Table => Refusal::TableLine(bad),
            Text::Report => Refusal::ReportLine(bad),
        }
    }
}

/// Reads a text from `host` into memory of `alloc`. A text that is too long is refused by its first
/// [`MOST_TABLE`] + 1 bytes.
///
/// # Errors
/// `TableLine` or `ReportLine` if the text is too long, with the first wrong line of its start.
/// `OfSource` if it can't be read, or is too long without a wrong line there. `NoMemory` if memory
/// is refused.
pub fn read_text<H: Host>(
    alloc: Global,
    text: Text,
    source: Source<'_>,
    host: &mut H,
) -> Result<Vec<u8>, Refusal>
    ensures bytes { IfOk result (λ bytes.
        Gives source.entry (H.input host.old) (H.file host.old) bytes.items) }
    ensures others { KeepsOthers source.entry (H.input host.old) (H.file host.old)
        (H.input host.new) (H.file host.new) }
{
    let start = source.read_start(alloc, host, MOST_TABLE)?;
    if start.len() <= MOST_TABLE as usize {
        return Ok(start);
    }
    match text.wrong_line(&start) {
        Some(line) => Err(text.refusal(start, line)),
        None => Err(source.refused(alloc, SourceFault::TooLong(MOST_TABLE))),
    }
}
