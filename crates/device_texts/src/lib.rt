//! Reads device files and scripts, and makes the texts of a device's replies and refusals.
//!
//! - Promises: A device file is read exactly, or refused for the reason that applies. Each line of a
//!   script is read exactly, and lines are accepted only in order: cuts with ascending numbers, and
//!   then events. A part of a file is returned exactly if the file has it, and a cut leaves what its
//!   digits say. The texts of replies and refusals are exact. If a write fails, the writer has taken
//!   a prefix.
//! - Main calls: `DeviceFile::read`, `line_of`, `PartText::of`, `LineOrder`, `TornText::torn`,
//!   `reply_text`, `refused_fault_text`, `write_all`
//! - Allocates: JSON values, the bytes that a cut leaves, the text of a reply.
//! - Callers: any program that has read the bytes.
//!
//! A script lists which writes of the flash a power cut interrupts and what each leaves, and then
//! the events of the device. It names files and doesn't contain them: a caller reads the files, and
//! gets the part that a line names from this crate.
#![tactic(auto)]

mod cuts;
mod device;
mod flash;
mod form;
pub mod json;
mod laws;
mod line;
mod line_order;
mod line_reading;
mod notes;
mod part;
mod refusals;
mod replies;
mod words;
mod writing;

pub use device::{DeviceFault, DeviceFile};
pub use flash::{CutWrite, arm_all, flash_of};
pub use form::Form;
pub use laws::a_text_says_one_line;
pub use line::{FileText, Line, TornText};
pub use line_order::LineOrder;
pub use line_reading::line_of;
pub use machine::Event;
pub use notes::NoteList;
pub use part::PartText;
pub use refusals::{map_refusal_text, refused_text};
pub use replies::{Members, refused_fault_text, reply_text};
pub use writing::write_all;
