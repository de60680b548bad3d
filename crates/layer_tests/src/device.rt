//! Tests of a device on a flash in memory that no run of the program makes.
//!
//! The images and the bytes of a provisioned flash are constants. Another program computed the
//! digests.

pub(crate) mod devices;
mod given_manifests;
mod longer_flashes;
mod provisioning;
mod reads;
