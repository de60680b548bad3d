//! Tables of running and requested images, reports of a choice among them, their texts, and the
//! definitions of a valid combination, of the greatest one and of a right report.
//!
//! - Promises: Tables and reports are read exactly, and a refusal names the first bad line. The set
//!   of a right report is the greatest valid one.
//! - Main calls: `Table::parse`, `Report::parse`, and `parse_into` of both
//! - Allocates: no.
//! - Callers: any crate.
//!
//! A report says why each request is refused, so anybody can check a choice without the program
//! that made it. Nothing here chooses or checks: `chooser` and `checker` share only the types, texts
//! and definitions of this crate.
#![tactic(auto)]

mod error;
mod laws;
mod needs;
mod printing;
mod report;
mod report_line;
mod report_reading;
mod sink;
mod table;
mod table_line;
mod table_placing;
mod table_reading;

pub use error::{BadReport, BadTable};
pub use laws::{
    greatest_sets_are_equal, greatest_sets_have_the_newest_versions, reports_are_read_back,
    right_reports_are_greatest, right_reports_have_a_text, tables_are_read_back,
};
pub use needs::{Needs, NeedsOne};
pub use report::{MOST_REFUSALS, Reason, Refusal, Report, ReportedImage};
pub use sink::Sink;
pub use table::{Entry, Image, Request, Table};
