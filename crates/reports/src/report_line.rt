//! One line of a report's text.

ghost use Rattle.std.specs.Prelude.{◌≡◌};
ghost use Rattle.reports.specs.LineReading.{reason_at, reason_of, refuse_line_of, report_line_of, run_line_of, take_line_of};

use crate::report::{Reason, Refusal};
use crate::table_line::{DAMAGED, NEEDS, NEEDS_ONE, group, image_and_version};
use common::ascii::{cut, number_u8};
use version_order::Version;

/// The meaning of one line of a report.
#[derive(Drop)]
pub enum ReportLine {
    /// `run I VERSION`: image I runs on.
    Run {
        /// The number of the image.
        number: u8,
        /// The version that runs on.
        version: Version,
    },
    /// `take I VERSION`: the request of image I is taken.
    Take {
        /// The number of the image.
        number: u8,
        /// The version that is taken.
        version: Version,
    },
    /// `refuse I REASON`: the request of image I is refused.
    Refuse(Refusal),
}

// The first words of lines and reasons.
const RUN: &[u8] = b"run";

const TAKE: &[u8] = b"take";

const REFUSE: &[u8] = b"refuse";

const OLDER: &[u8] = b"older";

const COUNTER: &[u8] = b"counter";

const NO_SUCH_IMAGE: &[u8] = b"no-such-image";

impl ReportLine {
    /// Reads one line without its line feed. Returns `None` if it isn't a line of a report.
    #[tactic(auto, unfolding(crate::specs::LineReading::report_line_of))]
    pub(crate) fn read(line: &[u8]) -> Option<ReportLine>
        ensures { result ≡ report_line_of line.now }
    {
        let (word, Some(fields)) = cut(line, b' ') else {
            return None;
        };
        if word == RUN {
            run_line(fields)
        } else if word == TAKE {
            take_line(fields)
        } else if word == REFUSE {
            refuse_line(fields)
        } else {
            None
        }
    }
}

// Reads the fields after `run`.
#[tactic(auto, unfolding(crate::specs::LineReading::run_line_of))]
fn run_line(fields: &[u8]) -> Option<ReportLine>
    ensures { result ≡ run_line_of fields.now }
{
    let (number, version) = image_and_version(fields)?;
    Some(ReportLine::Run { number, version })
}

// Reads the fields after `take`.
#[tactic(auto, unfolding(crate::specs::LineReading::take_line_of))]
fn take_line(fields: &[u8]) -> Option<ReportLine>
    ensures { result ≡ take_line_of fields.now }
{
    let (number, version) = image_and_version(fields)?;
    Some(ReportLine::Take { number, version })
}

// Reads the fields after `refuse`.
#[tactic(auto, unfolding(crate::specs::LineReading::refuse_line_of))]
fn refuse_line(fields: &[u8]) -> Option<ReportLine>
    ensures { result ≡ refuse_line_of fields.now }
{
    let (image, Some(rest)) = cut(fields, b' ') else {
        return None;
    };
    let image = number_u8(image)?;
    let reason = reason(rest)?;
    Some(ReportLine::Refuse(Refusal { image, reason }))
}

// Reads a reason.
#[tactic(auto, unfolding(crate::specs::LineReading::reason_of))]
fn reason(text: &[u8]) -> Option<Reason>
    ensures { result ≡ reason_of text.now }
{
    if text == DAMAGED {
        Some(Reason::Damaged)
    } else if text == OLDER {
        Some(Reason::Older)
    } else if text == COUNTER {
        Some(Reason::Counter)
    } else {
        let (word, Some(fields)) = cut(text, b' ') else {
            return None;
        };
        reason_with_fields(word, fields)
    }
}

// Reads the fields of a reason that begins with `word`.
fn reason_with_fields(word: &[u8], fields: &[u8]) -> Option<Reason>
    ensures { result ≡ reason_at word.now fields.now }
{
    if word == NO_SUCH_IMAGE {
        number_u8(fields).map(Reason::NoSuchImage)
    } else if word == NEEDS {
        let (image, minimum) = image_and_version(fields)?;
        Some(Reason::Needs(image, minimum))
    } else if word == NEEDS_ONE {
        group(fields).map(Reason::NeedsOne)
    } else {
        None
    }
}
