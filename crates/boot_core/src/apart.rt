//! The calls of a device that is held in parts: the flash, the open uploads, and whether the device
//! is booted. Its owner keeps these elsewhere between calls.
//!
//! Each call promises what the call of a `Device` does. Its caller has to ensure what holds of each
//! `Device`: the map is laid out on the flash, and the open uploads match the flash.
//! `Uploads::stand` checks the latter.

pub use crate::boots::{boot_device, boot_device_into};
pub use crate::confirming::confirm_on;
pub use crate::intake::{accept_manifest, finish, piece, withdraw};
pub use crate::outcome::Outcome;
pub use crate::running::{answer, reply_of};
