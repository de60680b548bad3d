//! Reads the order from the arguments, and makes manual pages and completions.
//!
//! - Promises: The order is the one that the arguments ask for, or they have the fault that is
//!   reported. Only topics of `help` are answered by `manual`, with the status that says whether the
//!   page or script was written.
//! - Main calls: `order`, `request`, `manual::asked_in`, `manual::answer`
//! - Allocates: the order, a page or script, the text of a fault.
//! - Callers: `boot_cli`, `bootswap`
//!
//! `command_line` defines the commands, and reads the orders of `provision` and `run`, which is all
//! that the core of the program needs. This crate is apart from it for the time of the core's build
//! alone.
#![tactic(auto)]

mod bracketed_words;
mod device_words;
mod image_words;
mod manifest_words;
pub mod manual;
mod order_fault_texts;
mod orders;
mod plan_words;
mod requests;
mod size_words;
mod sweep_words;
mod word_values;

pub use requests::{order, request};
