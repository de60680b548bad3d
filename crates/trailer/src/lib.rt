//! Image trailers with MCUboot's fields: they hold requests, trials, confirmations and the progress
//! of swaps.
//!
//! - Promises: Each field is read as its bytes say. A power cut leaves a request, a withdrawal or a
//!   confirmation as it was or as asked. Settling can be repeated.
//! - Main calls: `read_trailer`, `standing`, `read_size`, `status_count`, `request`, `withdraw`,
//!   `set_ok`, `settle`
//! - Allocates: no.
//! - Callers: `swap_scratch`, `upload`, `decision`, `boot_core`, `sweep`, `inspecting`,
//!   `c_interface`; `flash_contents` cites its definitions.
//!
//! A trailer fills the sector after its slot. The fields except *withdrawn* are MCUboot's (its
//! design document, "Image Trailer"). Their places and the bytes of a flag are bootswap's own
//! (`docs/FORMATS.md`, "Trailer").
//!
//! Any other write that a power cut interrupts leaves any bytes in its own unit, or in its sector
//! if it is an erase. All other bytes are unchanged. A program changes trailers only through the
//! device (`boot_core`).
#![tactic(auto)]

mod blank;
mod clearing;
mod format;
mod kinds;
mod marking;
mod requesting;
mod settling;
mod sizes;
mod standing_request;
mod statuses;
mod table;
mod trailer_reading;
mod units;
mod withdrawing;

pub use blank::is_blank;
pub use clearing::clear;
pub use common::kind::Kind;
pub use format::MAGIC;
pub use kinds::{Magic, Settling, SwapType, Trailer};
pub use requesting::{request, set_ok};
pub use settling::settle;
pub use sizes::{read_size, write_size};
pub use standing_request::standing;
pub use statuses::{are_units_erased, push_status, status_count, status_count_from, status_units};
pub use table::swap_type;
pub use trailer_reading::read_trailer;
pub use withdrawing::withdraw;
