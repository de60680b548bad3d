//! Decides for each device of a fleet which requests it takes.
//!
//! `planning` reads a fleet piece by piece. `planner` finds the devices in it. `outcome` decides
//! over the table of one, with the requests of a release, which `requests` puts into it. `requested`
//! keeps the versions that were requested. `result_lines` writes a device with its result, as a text
//! or as JSON, and `plan_notes` is what explains it. `summary` counts what the devices do: `key` has
//! the texts that it counts, and `rows` the counts. `summary_lines` writes the rows, as a text or as
//! JSON by `row_json`, and `row_key` reads what a key says. `merging` adds summaries up, whose lines
//! `row_line` reads.

mod bounded;
mod device_line;
mod key;
mod laws;
mod merging;
mod outcome;
mod plan_notes;
mod planner;
mod planning;
mod program;
mod release;
mod requested;
mod requests;
mod result_lines;
mod row_json;
mod row_key;
mod row_line;
mod rows;
mod summary;
mod summary_lines;
mod telling;

pub use laws::{keys_are_read_back, sums_are_summaries};
pub use merging::{MergeFault, MergeRefusal, merge_over};
pub use outcome::{Decision, Outcome};
pub use plan_notes::{NoPlanNotes, PlanNotes};
pub use planning::plan_over;
pub use program::run_plan;
pub use requests::Requests;
pub use row_key::RowKey;
pub use rows::{Rows, Tally};
pub use telling::Telling;
