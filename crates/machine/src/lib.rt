//! The device as its users know it, over complete images: its states, events, replies and steps.
//!
//! - Promises: In every run over complete images, each boot that returns a report starts the
//!   greatest set. An event that holds its bytes is borrowed as the same event.
//! - Main calls: `each_boot_that_answers_starts_the_greatest_set`, and further laws;
//!   `Event::as_deref`
//! - Allocates: only to copy an event (`clone`).
//! - Callers: any crate above cites it.
//!
//! The only code is the events, and the numbers and names of errors. The definitions (`specs/`)
//! describe a device that knows complete images only. None of them mentions a trailer, a log or a
//! byte of the flash: `flash_contents` relates these to the states. Functions without a body
//! (`laws`) state the theorems on every run. `upload` and `boot_core` state their contracts with
//! these definitions, and `device_texts` prints the replies.
#![tactic(auto)]

mod error;
mod event;
mod laws;
mod reply;
mod upload_error;

pub use common::kind::Kind;
pub use error::Fault;
pub use event::Event;
pub use laws::{
    boots_from_an_intact_and_valid_state_answer, boots_that_were_cut_start_the_same_set,
    each_boot_that_answers_starts_the_greatest_set, each_event_has_a_reply,
    reports_of_a_state_take_the_same_set, runs_are_joined, runs_are_parted,
    runs_have_a_state_at_each_place, runs_keep_what_runs_intact_and_valid,
    runs_without_a_cut_are_complete, tables_of_a_state_are_equal,
};
pub use reply::Reply;
pub use upload_error::UploadError;
