//! Reads the inputs of commands on a device: the device file, the flash, the script, and the files
//! that the script's lines name.
//!
//! - Promises: The device is that of the bytes of its file, and its flash has the size that the
//!   file says. A script that passes its check has exactly the cuts and the events that its lines
//!   say. A flash in a file keeps the trait `Flash`, also if a write of the file fails.
//! - Main calls: `read_device`, `read_flash`, `check_script`, `load`, `Sources::load_event`,
//!   `Lines`, `FileFlash`
//! - Allocates: the input, what can't be read twice, the bytes of an event.
//! - Callers: the commands.
//!
//! The flash of `run` is in memory, and each changed range is written to its file immediately
//! (`FileFlash`). A failed write of the file counts as a power cut, and no later write succeeds.
//! Until one fails, the file has the contents of the flash.
#![tactic(auto)]

mod checking;
mod device_input;
mod file_flash;
mod flash_file;
mod lines;
mod loading;
mod notes;
mod own_need;
mod resting_table;
mod sources;

pub use checking::{BufferedInput, CheckedScript, check_script};
pub use device_input::{BadMap, device_or_fault, read_device, read_flash};
pub use file_flash::FileFlash;
pub use flash_file::FlashFile;
pub use lines::Lines;
pub use loading::{load, read_script};
pub use notes::{NoNotes, Notes};
pub use own_need::OwnNeed;
pub use resting_table::{Intake, intake_on, table_on};
pub use sources::Sources;
