//! Reads a report line by line.

ghost use Rattle.std.specs.Prelude.{◌≡◌, Ok, Some, None, IfOk, IfErr, IsOk, OnOk, MatchBool};
ghost use Rattle.common.specs.Lines.{IsFirstBadLine};
ghost use Rattle.reports.specs.ReportReading.{with_reported_image, with_refusal, with_report_line, with_text_of_report};
ghost use Rattle.reports.specs.ReportText.{FitsReport, IsReportText, IsSomeReport};

use crate::error::BadReport;
use crate::report::{Refusal, Report, ReportedImage};
use crate::report_line::ReportLine;
use common::lines::{TakesLines, read_lines};

impl Report {
    /// Reads the text of a report.
    ///
    /// - First comes a line for each image in order, `run I VERSION` or `take I VERSION`: one to
    ///   eight images.
    /// - Then comes a line for each refusal in order, at most eight: `refuse I` followed by
    ///   `damaged`, `older`, `counter`, `no-such-image J`, `needs J VERSION` or `needs-one J
    ///   VERSION ..` with one to four pairs.
    ///
    /// Words are separated by one space, and numbers are decimal without leading zeros. The last
    /// line's line feed may be missing. A line with a byte that isn't ASCII is bad. The call
    /// doesn't allocate.
    ///
    /// # Errors
    /// [`BadReport`] has the number of the first line, counted from 1, with which no report
    /// continues.
    pub fn parse(text: &[u8]) -> Result<Report, BadReport>
        // A report that is read has this text.
        ensures spelled { IfOk result (λ report. IsReportText text.now report) }
        // A report that is read fits its fields.
        ensures fits { IfOk result FitsReport }
        // Any text of a report is read as that report.
        ensures only { (report : Report) → IsReportText text.now report → result ≡ Ok report }
        // The line that an error names.
        ensures line { IfErr result (λ bad. IsFirstBadLine IsSomeReport text.now bad.0) }
    {
        let mut report = Report::default();
        Report::parse_into(text, &mut report)?;
        Ok(report)
    }

    /// Reads the text of a report as [`Report::parse`] does, and writes it to a place, so that none
    /// is copied.
    ///
    /// # Errors
    /// As those of [`Report::parse`]. Afterwards the place may have any report.
    pub fn parse_into(text: &[u8], report: &mut Report) -> Result<(), BadReport>
        // A report that is read has this text.
        ensures spelled { OnOk result (IsReportText text.now report.new) }
        // A report that is read fits its fields.
        ensures fits { OnOk result (FitsReport report.new) }
        // Any text of a report is read as that report.
        ensures only { (other : Report) → IsReportText text.now other
            → IsOk result × (report.new ≡ other) }
        // The line that an error names.
        ensures line { IfErr result (λ bad. IsFirstBadLine IsSomeReport text.now bad.0) }
    {
        report.images.clear();
        report.refusals.clear();
        if let Err(line) = read_lines(report, text) {
            return Err(BadReport(line));
        }
        if report.images.is_empty() {
            return Err(BadReport(1));
        }
        Ok(())
    }
}

impl TakesLines for Report {
    ghost with_line = { with_text_of_report };

    fn take_line(&mut self, line: &[u8]) -> bool {
        match ReportLine::read(line) {
            Some(said) => place_line(self, said),
            None => false,
        }
    }
}

/// Adds the meaning of a line to the report of the lines before it. Returns `false` if no report
/// has such a line there.
#[tactic(auto, unfolding(crate::specs::ReportReading::with_report_line))]
fn place_line(report: &mut Report, line: ReportLine) -> bool
    ensures { MatchBool result (with_report_line report.old line ≡ Some report.new)
        (with_report_line report.old line ≡ None) }
{
    let (number, is_taken, version) = match line {
        ReportLine::Run { number, version } => (number, false, version),
        ReportLine::Take { number, version } => (number, true, version),
        ReportLine::Refuse(refusal) => return place_refusal(report, refusal),
    };
    place_image(report, number, ReportedImage { is_taken, version })
}

fn place_image(report: &mut Report, number: u8, image: ReportedImage) -> bool
    ensures { MatchBool result (with_reported_image report.old number image ≡ Some report.new)
        (with_reported_image report.old number image ≡ None) }
{
    report.refusals.is_empty()
        && usize::from(number) == report.images.len()
        && report.images.try_push(image).is_ok()
}

fn place_refusal(report: &mut Report, refusal: Refusal) -> bool
    ensures { MatchBool result (with_refusal report.old refusal ≡ Some report.new)
        (with_refusal report.old refusal ≡ None) }
{
    !report.images.is_empty() && report.refusals.try_push(refusal).is_ok()
}
