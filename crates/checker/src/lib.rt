//! Checks whether a report is right for a table.
//!
//! - Promises: A yes says that a report is right, and then it takes the greatest valid set. The first
//!   flaw of one that isn't right is named.
//! - Main calls: `check`, `first_flaw`
//! - Allocates: no.
//! - Callers: any crate.
//!
//! It shares no code with the choice: `crates.txt` lets both call `reports`, for types and
//! definitions, but the checker neither `chooser` nor `validity`. Both compare versions by
//! `version_order`.
#![tactic(auto)]

mod checking;
mod combination;
mod images;
mod reasons;
mod requests;

pub use checking::{Flaw, check, first_flaw};
