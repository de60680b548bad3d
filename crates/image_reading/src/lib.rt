//! Reads images in MCUboot's format: their entries, and the description of a complete image.
//!
//! - Promises: A file or a slot is described exactly, or the first check that fails is returned. No
//!   flash is changed. A flash that is off results in an error, not in a slot without an image.
//! - Main calls: `describe`, `describe_file`, `describe_slot`, `digest_file`
//! - Allocates: no.
//! - Callers: any crate that reads images.
//!
//! MCUboot's design document describes the format under "Image format". One type of entry is
//! bootswap's own: a group (0xA0) lists dependencies of which one has to be met.
//!
//! One reader serves bytes in memory, a file in a slot and the front of a slot, and has one proof.
//! It reads span by span ([`Span`]), and hashes a flash in pieces of 256 bytes.
#![tactic(auto)]

mod desc;
mod describing;
mod error;
mod fields;
pub mod format;
mod front;
mod gathering;
mod groups;
mod laws;
mod length;
mod medium;
mod met;
mod slot;
mod slot_tlvs;
mod span;
mod tlvs;
mod walk;

pub use desc::Desc;
pub use describing::describe;
pub use error::{ImageError, SlotError};
pub use laws::{
    a_walk_gives_the_entries_of_its_area, no_image_begins_another, one_front_is_an_image,
};
pub use length::image_length;
pub use slot::{
    describe_file, describe_file_into, describe_slot, digest_file, intact_image, intact_image_into,
};
pub use slot_tlvs::{SlotTlv, SlotTlvs};
pub use span::Span;
pub use tlvs::{Tlv, Tlvs};
