//! The bootloader core: a device over one flash that boots, takes uploads, confirms images and runs
//! events.
//!
//! - Promises: Events and replies are a run of the machine over whole images, wherever power fails.
//!   Each call is a step of it.
//! - Main calls: `run`, `step`, `provision`, `Device::boot`, `accept`, `accept_manifest`, `piece`,
//!   `finish`, `withdraw`, `confirm`, `reset`
//! - Allocates: `accept`, to read a manifest, and `run`, for its replies; no boot does.
//! - Callers: programs and bootloaders.
//!
//! A boot that returns a report starts exactly the greatest valid set of images. `machine` defines
//! the events, replies and faults.
#![tactic(auto)]

pub mod apart;
mod back;
mod boots;
mod confirming;
mod deciding;
mod device;
mod intake;
mod looking;
mod outcome;
mod preparing;
mod provisioning;
mod recording;
mod running;
mod settle;
mod steady;
mod swap;
mod trial;

pub use device::Device;
pub use machine::{Event, Fault, Reply};
pub use provisioning::provision;
pub use running::{run, step};
