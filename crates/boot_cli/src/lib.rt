//! Runs the order that the arguments give, and returns the exit status.
//!
//! - Promises: The exit status is 0 only if help was asked for, or the order is done for the
//!   contents of the named files. For `sweep` this says only what it read, and which files it kept.
//!   Arguments that give no order change no file, and end with 2, or with 1 if memory ran out or a
//!   write failed.
//! - Main calls: `cli`, `order`, `run_order`
//! - Allocates: the order, and what its command allocates.
//! - Callers: `bootswap`
//!
//! `arguments` reads the order. Here its command is chosen, and the notes on its answer are written.
//! The read-only commands are in `inspecting`, those that make files in `creating`, `provision` and
//! `run` in `device_commands`, and `sweep` in the crate of that name.
#![tactic(auto)]

mod answering;
mod ending;
mod error_members;
mod hint;
mod making;
mod program;
mod until_failed;
mod words;

pub use arguments::{order, request};
pub use command_line::{Order, OrderError, ReadOrder, Request};
pub use host::{Access, Answer, FilePart, FlashFault, Host, Refusal, Replaced};
pub use inspecting::{ChooseEnd, choose_over};
pub use program::{cli, run_order};
pub use words::note_reading;
