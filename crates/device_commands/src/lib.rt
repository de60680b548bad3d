//! The commands `provision` and `run`, which make and run a device on files.
//!
//! - Promises: `run` writes the replies of a device to its script. The flash of `provision` is made
//!   of exactly the named images. The exit status says how the arguments' order ended.
//! - Main calls: `core_cli`, `run_core_order`, `run_device_order`, `answer_words`
//! - Allocates: a flash in memory, events.
//! - Callers: `bootswap_core`, `sweep`, `boot_cli`, `bootswap`
#![tactic(auto)]

mod answering;
mod host_file;
mod program;
pub mod provision;
mod replies;
mod run;

pub use answering::{answer_words, refuse_coloring, refuse_words, words_of};
pub use program::{core_cli, run_core_order, run_device_order};
