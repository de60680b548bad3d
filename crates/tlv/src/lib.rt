//! Makes an image from given values, and re-exports the calls of `image_reading`.
//!
//! - Promises: The image is intact and has exactly the given values; otherwise the first check that
//!   fails is returned.
//! - Main calls: `make_image`, `write_image`
//! - Allocates: `make_image`, for the image.
//! - Callers: tools of a host, and the library for C. A device needs only the crate below, which
//!   reads images.
#![tactic(auto)]

mod make;

pub use image_reading::{
    Desc, ImageError, SlotError, SlotTlv, SlotTlvs, Span, Tlv, Tlvs,
    a_walk_gives_the_entries_of_its_area, describe, describe_file, describe_slot, digest_file,
    no_image_begins_another, one_front_is_an_image,
};
pub use make::{ImageSpec, MakeError, make_image, write_image};
