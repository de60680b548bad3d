//! Reads and writes the 32-byte header at the beginning of an image in MCUboot's format.
//!
//! - Promises: A header is read and written exactly, and a refusal is the first check that fails.
//! - Main calls: `Header::read`, `Header::write`
//! - Allocates: no.
//! - Callers: any crate that reads only headers; the crate above reads whole images.
//!
//! A written header is read back if it is accepted: it has only accepted flags, and its header size
//! is 32 or more.
#![tactic(auto)]

mod error;
mod header;
mod header_reading;
mod writing;

pub use error::HeaderError;
pub use header::{ACCEPTED_FLAGS, HEADER_LENGTH, Header};
