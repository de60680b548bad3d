//! Chooses which requests of a table are taken, and says why each other request is refused.
//!
//! - Promises: The report is right and takes the greatest valid set. It lists the refusals in the
//!   standard order. Its steps are counted.
//! - Main calls: `choose`, `choose_into`, `choose_counted`
//! - Allocates: no.
//! - Callers: anybody who has a table: a bootloader of its slots, a program of its input.
//!
//! `choose` never fails. It looks at all requests once. After it drops a request, it looks again
//! only at those that depend on it or have it as an alternative. `checker::check` checks a
//! report without this crate.
#![tactic(auto)]

mod choice;
mod marks;
mod needs;
mod own_reasons;
mod reporting;
mod steps;

pub use choice::{choose, choose_counted, choose_into};
pub use steps::{MOST_LOOKS, Steps, most_looks_are_as_specified};
