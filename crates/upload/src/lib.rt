//! Receives new images: checks manifests, writes pieces, and requests complete images.
//!
//! - Promises: Each call is one step over complete images, even if power fails during it. It
//!   requests only a complete image that has the digest and the length of its manifest.
//! - Main calls: `Uploads::accept`, `piece`, `finish`, `withdraw`
//! - Allocates: no.
//! - Callers: `boot_core` alone makes the calls that write, and `c_interface` checks saved uploads;
//!   `flash_contents`, `decision`, `device_commands`, `sweep` and `inspecting` use definitions
//!   alone.
//!
//! A manifest opens an upload for each image that it lists. Pieces fill the secondary slot, and a
//! finished upload requests its image. Uploads of different images don't affect each other.
#![tactic(auto)]

mod accepting;
mod adding;
mod finishing;
mod judging;
mod opening;
mod pieces;
mod sessions;
mod slots;
mod standing;
mod withdrawing;

pub use machine::UploadError;
pub use sessions::{Upload, Uploads};
