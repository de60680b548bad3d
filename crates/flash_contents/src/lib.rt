//! What a flash contains in each state of its device: definitions and laws.
//!
//! - Promises: A booted device has the images that run in its primary slots. A flash keeps the
//!   state of its device.
//! - Main calls: `booted_devices_run_their_primary_slots`,
//!   `flashes_keep_the_states_of_their_devices`, `trailers_tell_trials_and_requests`
//! - Allocates: no.
//! - Callers: any crate above cites it.
//!
//! The definitions (`specs/`) relate the slots, trailers and log of a flash to a state of
//! `machine`. The lemmas (`proofs/`) derive what each part of a boot leaves. `boot_core` states its
//! contracts with these definitions. The only code is types of results of reading a flash.
#![tactic(auto)]

mod finding;
mod laws;

pub use finding::{Finding, Passage, Reading};
pub use laws::{
    booted_devices_run_their_primary_slots, flashes_keep_the_states_of_their_devices,
    trailers_tell_trials_and_requests,
};
