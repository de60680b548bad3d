//! The names of tables, reports and their check in one crate, for programs that use the libraries.
//!
//! - Allocates: no.
//! - Callers: any crate.
//!
//! It only passes on names: those of `reports`, and of the calls that check a table (`validity`) or
//! a report (`checker`).
#![tactic(auto)]

pub use checker::{Flaw, check, first_flaw};
pub use reports::{
    BadReport, BadTable, Entry, Image, MOST_REFUSALS, Needs, NeedsOne, Reason, Refusal, Report,
    ReportedImage, Request, Sink, Table, greatest_sets_are_equal,
    greatest_sets_have_the_newest_versions, reports_are_read_back, right_reports_are_greatest,
    right_reports_have_a_text, tables_are_read_back,
};
pub use validity::{can_run_together, dependants, is_valid};
