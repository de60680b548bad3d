//! The set log: the state of the device, in a register that survives power cuts.
//!
//! - Promises: The log's bytes determine its state. An append that a power cut interrupts leaves
//!   the old state or the new one, whatever bytes it tears. The number of erased sectors is known
//!   exactly.
//! - Main calls: `read_state`, `append`, `start`
//! - Allocates: no.
//! - Callers: `upload`, `boot_core`, `inputs`, `inspecting`, `c_interface`; `flash_contents` cites
//!   its definitions.
//!
//! Programs change the log only through the calls of a device.
#![tactic(auto)]

mod active_sector;
mod error;
mod format;
mod laws;
mod log;
mod places;
mod record;
mod state;
mod writing;

pub use error::LogError;
pub use laws::{a_log_that_is_left_keeps_its_state, one_sector_is_active};
pub use log::{append, read_state, start};
pub use record::records_are_read_back;
pub use state::{RecordKind, State};
