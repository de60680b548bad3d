//! Makes device files, images and manifests, and copies images out of their slots.
//!
//! - Promises: What `make-device`, `make-image` and `make-manifest` write is the device file, the
//!   image and the manifest of the arguments. What `extract` writes is the image of the slot. A
//!   command that isn't done leaves its file as it was, unless only its answer could not be
//!   written.
//! - Main calls: `run_make_device`, `run_make_image`, `run_make_manifest`, `run_extract`
//! - Allocates: texts, the files that it reads, a flash in memory, the image, and the JSON value of
//!   what it reads back.
//! - Callers: `boot_cli`
//!
//! An image replaces a file that isn't one only with `--force`. A device file and a manifest are
//! read back before they are written. That an image reads back as its values is proved.
#![tactic(auto)]

pub mod extract;
mod image_file;
pub mod make_device;
pub mod make_image;
pub mod make_manifest;
mod manifest_json;
mod map_text;
mod new_components;
mod next_boot;
mod precursors;
mod telling;
