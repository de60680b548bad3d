//! Runs the read-only commands `choose`, `check`, `plan`, `image`, `manifest`, `show`, `slots` and
//! `codes`.
//!
//! - Promises: Exactly the text or the JSON object of the answer is written. If a write fails, a
//!   prefix of it is. A command answers `Done` only if its answer is the one for the contents of the
//!   named files.
//! - Main calls: `choose_over`, `inspect`, `write_inspection`, `plan_over`, `merge_over`, `run_plan`
//! - Allocates: the input, a flash in memory, the text or object of the answer. For a fleet: one
//!   device, and a summary.
//! - Callers: `explaining`, `boot_cli`
//!
//! Each command has a module. Its `inspect_` function reads the files that the arguments name, and
//! finds a value in them, an `Inspection`. `inspection` writes such a value as a text or as JSON.
#![tactic(auto)]

mod answer;
mod check;
mod choose;
mod device_flash;
mod flash_state;
mod flash_text;
mod fleet;
mod image;
mod inspection;
mod json;
mod manifest_file;
mod program;
mod reading;
mod show;
mod slots;
mod slots_found;
mod slots_text;
mod table_input;

pub use check::{Verdict, table_in, verdict_in};
pub use choose::{Choice, ChooseEnd, choice_in, choose_over};
pub use flash_state::{FlashState, ImageFloor, ImageSwap};
pub use flash_text::{FlashText, found_on};
pub use fleet::{
    Decision, MergeFault, MergeRefusal, NoPlanNotes, Outcome, PlanNotes, Requests, RowKey, Rows,
    Tally, Telling, keys_are_read_back, merge_over, plan_over, run_plan, sums_are_summaries,
};
pub use image::{RefusedImage, description_in};
pub use inspection::{CodeList, Inspection, write_inspection};
pub use manifest_file::{RefusedManifest, manifest_in};
pub use program::inspect;
pub use reading::{ReadError, read_all};
pub use slots_found::{ImageSlots, NextDecision, SlotContent, SlotsFound};
