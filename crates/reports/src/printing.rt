//! Prints tables and reports: one line for each statement, followed by a line feed.

ghost use Rattle.std.specs.Prelude.{◌≤◌, ◌++◌, ◌∷◌, [], IfOk, Some, length};
ghost use Rattle.common.specs.Lines.{printed_lines};
ghost use Rattle.reports.specs.ReportText.{reason_text, refuse_lines, report_line_text, report_text, reported_line, reported_lines};
ghost use Rattle.reports.specs.declared.report_line.ReportLine.TheVariants as line;
ghost use Rattle.reports.specs.TableText.{group_lines, image_lines, needs_lines, request_lines, table_line_text, table_lines, table_text};

use crate::needs::{write_dependency, write_group};
use crate::report::{Reason, Refusal, Report, ReportedImage};
use crate::sink::{Sink, write_image_and_version, write_number, write_version};
use crate::table::{Entry, Image, Request, Table};
use crate::table_line::TableLine;
use common::limits::MOST_IMAGES;
use std::fmt;
use version_order::Group;

impl Table {
    /// Writes the printed text of the table to a sink.
    pub fn write_to<S: Sink>(&self, sink: &mut S) -> Result<(), S::Error>
        ensures { IfOk result (λ done. S.takes sink.old (table_text self.now) sink.new) }
    {
        write_images(sink, self.images.as_slice())
    }
}

impl Report {
    /// Writes the printed text of the report to a sink.
    pub fn write_to<S: Sink>(&self, sink: &mut S) -> Result<(), S::Error>
        ensures { IfOk result (λ done. S.takes sink.old (report_text self.now) sink.new) }
    {
        write_reported_images(sink, self.images.as_slice())?;
        write_refusals(sink, self.refusals.as_slice())
    }
}

impl fmt::Display for Table {
    ghost output = { λ table. Some (table_text table) };

    fn fmt<W: fmt::Write>(&self, f: &mut fmt::Formatter<W>) -> fmt::Result {
        self.write_to(f)
    }
}

impl fmt::Display for Report {
    ghost output = { λ report. Some (report_text report) };

    fn fmt<W: fmt::Write>(&self, f: &mut fmt::Formatter<W>) -> fmt::Result {
        self.write_to(f)
    }
}

impl fmt::Display for Reason {
    ghost output = { λ reason. Some (reason_text reason) };

    fn fmt<W: fmt::Write>(&self, f: &mut fmt::Formatter<W>) -> fmt::Result {
        write_reason(f, self)
    }
}

// Writes the lines of the images, numbered from 0.
fn write_images<S: Sink>(sink: &mut S, images: &[Image]) -> Result<(), S::Error>
    requires { length images.now ≤ MOST_IMAGES }
    ensures { IfOk result (λ done. S.takes sink.old
        (printed_lines table_line_text (table_lines 0 images.now)) sink.new) }
{
    for (number, image) in images.iter().enumerate() {
        write_image(sink, number as u8, image)?;
    }
    Ok(())
}

// Writes the running image, its dependencies and groups, and the request.
fn write_image<S: Sink>(sink: &mut S, number: u8, image: &Image) -> Result<(), S::Error>
    ensures { IfOk result (λ done. S.takes sink.old
        (printed_lines table_line_text (image_lines number image.now)) sink.new) }
{
    let line = TableLine::Image {
        number,
        version: image.running.version,
        counter: image.running.counter,
        floor: image.floor,
    };
    write_line(sink, &line)?;
    write_needs(sink, &image.running)?;
    write_request(sink, &image.request)
}

// Writes the request of an image.
fn write_request<S: Sink>(sink: &mut S, request: &Request) -> Result<(), S::Error>
    ensures { IfOk result (λ done. S.takes sink.old
        (printed_lines table_line_text (request_lines request.now)) sink.new) }
{
    match request {
        Request::None => Ok(()),
        Request::Damaged => write_line(sink, &TableLine::Damaged),
        Request::Entry(entry) => {
            let line = TableLine::Request {
                version: entry.version,
                counter: entry.counter,
            };
            write_line(sink, &line)?;
            write_needs(sink, entry)
        }
    }
}

// Writes the dependencies of an entry, and then its groups.
fn write_needs<S: Sink>(sink: &mut S, entry: &Entry) -> Result<(), S::Error>
    ensures { IfOk result (λ done. S.takes sink.old
        (printed_lines table_line_text (needs_lines entry.now)) sink.new) }
{
    for dependency in entry.dependencies.as_slice() {
        write_line(sink, &TableLine::Needs(*dependency))?;
    }
    write_groups(sink, entry.groups.as_slice())
}

// Writes a line for each group.
fn write_groups<S: Sink>(sink: &mut S, groups: &[Group]) -> Result<(), S::Error>
    ensures { IfOk result (λ done. S.takes sink.old
        (printed_lines table_line_text (group_lines groups.now)) sink.new) }
{
    for group in groups {
        write_group(sink, group)?;
        sink.put("\n")?;
    }
    Ok(())
}

// Writes one line with its line feed.
fn write_line<S: Sink>(sink: &mut S, line: &TableLine) -> Result<(), S::Error>
    ensures { IfOk result (λ done. S.takes sink.old (table_line_text line.now ++ 10 ∷ []) sink.new) }
{
    write_words(sink, line)?;
    sink.put("\n")
}

// Writes one line without its line feed.
fn write_words<S: Sink>(sink: &mut S, line: &TableLine) -> Result<(), S::Error>
    ensures { IfOk result (λ done. S.takes sink.old (table_line_text line.now) sink.new) }
{
    match line {
        TableLine::Image {
            number,
            version,
            counter,
            floor,
        } => {
            write_image_and_version(sink, "image ", *number, version)?;
            write_number(sink, " ", *counter)?;
            write_number(sink, " ", *floor)
        }
        TableLine::Needs(dependency) => write_dependency(sink, dependency),
        TableLine::NeedsOne(group) => write_group(sink, group),
        TableLine::Request { version, counter } => {
            sink.put("request ")?;
            write_version(sink, version)?;
            write_number(sink, " ", *counter)
        }
        TableLine::Damaged => sink.put("damaged"),
    }
}

// Writes the lines of a report's images, numbered from 0.
fn write_reported_images<S: Sink>(sink: &mut S, images: &[ReportedImage]) -> Result<(), S::Error>
    requires { length images.now ≤ MOST_IMAGES }
    ensures { IfOk result (λ done. S.takes sink.old
        (printed_lines report_line_text (reported_lines 0 images.now)) sink.new) }
{
    for (index, image) in images.iter().enumerate() {
        write_reported_image(sink, index as u8, image)?;
    }
    Ok(())
}

// Writes the line of one image of a report.
fn write_reported_image<S: Sink>(
    sink: &mut S,
    number: u8,
    image: &ReportedImage,
) -> Result<(), S::Error>
    ensures { IfOk result (λ done. S.takes sink.old
        (report_line_text (reported_line number image.now) ++ 10 ∷ []) sink.new) }
{
    let word = if image.is_taken { "take " } else { "run " };
    write_image_and_version(sink, word, number, &image.version)?;
    sink.put("\n")
}

// Writes the refusals in order.
fn write_refusals<S: Sink>(sink: &mut S, refusals: &[Refusal]) -> Result<(), S::Error>
    ensures { IfOk result (λ done. S.takes sink.old
        (printed_lines report_line_text (refuse_lines refusals.now)) sink.new) }
{
    for refusal in refusals {
        write_refusal(sink, refusal)?;
    }
    Ok(())
}

// Writes one refusal.
fn write_refusal<S: Sink>(sink: &mut S, refusal: &Refusal) -> Result<(), S::Error>
    ensures { IfOk result (λ done. S.takes sink.old
        (report_line_text (line.Refuse refusal.now) ++ 10 ∷ []) sink.new) }
{
    write_number(sink, "refuse ", u32::from(refusal.image))?;
    sink.put(" ")?;
    write_reason(sink, &refusal.reason)?;
    sink.put("\n")
}

// Writes a reason.
fn write_reason<S: Sink>(sink: &mut S, reason: &Reason) -> Result<(), S::Error>
    ensures { IfOk result (λ done. S.takes sink.old (reason_text reason.now) sink.new) }
{
    match reason {
        Reason::Damaged => sink.put("damaged"),
        Reason::Older => sink.put("older"),
        Reason::Counter => sink.put("counter"),
        Reason::NoSuchImage(image) => write_number(sink, "no-such-image ", u32::from(*image)),
        Reason::Needs(image, minimum) => write_image_and_version(sink, "needs ", *image, minimum),
        Reason::NeedsOne(group) => write_group(sink, group),
    }
}
