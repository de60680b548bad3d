//! Reads the running and requested images from the flash, and decides which requests to take.
//!
//! - Promises: The table of a device is read exactly, or the lowest image is reported whose running
//!   bytes aren't intact. The decision is the right report with the greatest set. Nothing is
//!   written.
//! - Main calls: `read_table`, `find`
//! - Allocates: no.
//! - Callers: a boot, and whatever shows what a boot would decide.
#![tactic(auto)]

mod deciding;
mod device_table;
mod places;

pub use deciding::{find, find_into};
pub use device_table::{
    entry_of, put_entry, read_slot, read_slot_into, read_table, read_table_into,
};
pub use places::Verdict;
