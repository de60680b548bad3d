//! Checks whether running images fit each other, and finds the requests that name an image.
//!
//! - Promises: The running set is checked exactly, and dependants are found exactly.
//! - Main calls: `is_valid`, `can_run_together`, `dependants`
//! - Allocates: no.
//! - Callers: any crate.
//!
//! `checker` doesn't depend on it, since the choice calls it.
#![tactic(auto)]

mod depending;
mod fitting;
mod running;

pub use depending::dependants;
pub use fitting::{can_run_together, is_valid};
