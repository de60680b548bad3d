//! Runs `bootswap sweep`: a script once for each write of the flash and each way to tear it.
//!
//! - Promises: Each run of a sweep is a run of the machine over whole images, in which the flash
//!   tears exactly the given writes. The versions that are reported to run at its end are those in
//!   the primary slots. Marks and tallies of parts of the runs add up to those of all runs. The text
//!   and the JSON of findings are exact. The device file, the script, the files that it names, the
//!   images and the outputs to merge keep their bytes.
//! - Main calls: `run_sweep`, `merge_outputs`, `write_swept`, `run_scenario`, `Mark::sum`,
//!   `Tally::sum`
//! - Allocates: the input, a flash in memory, a copy of it for each run, a few numbers for each write
//!   and event, the text or the JSON of the answer.
//! - Callers: `boot_cli`
//!
//! `run_sweep` reads the files that the arguments name, counts how the runs end, and makes the
//! picture. `merge_outputs` adds up what was counted before. Each finds a value, a `Swept`, and
//! `write_swept` writes it as a text or as JSON. Tests check what is counted, drawn and read back.
#![tactic(auto)]

mod command;
mod cuts;
mod device;
mod found;
mod json;
mod marks;
mod merging;
mod notes;
mod outputs;
mod parts;
mod picture;
mod picture_file;
mod progress;
mod random_numbers;
mod reading;
mod running;
mod scenario;
mod scenario_run;
mod sweeping;
mod swept;
mod tally;
mod text;

pub use command::{SweepOrder, run_sweep};
pub use cuts::{Cuts, Tear, TornWrite};
pub use found::{Found, SetTally};
pub use marks::Mark;
pub use notes::{BootOutcome, CutNote, ScenarioEnd};
pub use outputs::merge_outputs;
pub use scenario::Scenario;
pub use scenario_run::run_scenario;
pub use swept::{Swept, write_swept};
pub use tally::Tally;
