//! Tests of the layers below the program, for what no run of the program shows and no clause says.
//!
//! - Allocates: flashes in memory, texts, images.
//!
//! The tests are of flashes and maps, records on a flash, images and uploads, the device, and
//! values. Each module tests its layer as a caller sees it. Expected bytes, sectors and addresses
//! are constants; another program computed the digests. The examples are those that doc comments
//! show. No crate calls this one.
#![tactic(auto)]

#[cfg(test)]
mod counting;
#[cfg(test)]
mod device;
#[cfg(test)]
mod examples;
#[cfg(test)]
mod images;
#[cfg(test)]
mod intake;
#[cfg(test)]
mod medium;
#[cfg(test)]
mod memory;
#[cfg(test)]
mod records;
#[cfg(test)]
mod values;
