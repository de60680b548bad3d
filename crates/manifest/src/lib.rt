//! Reads manifests, which list the files that a device may accept (RFC 9019 and RFC 9124, in
//! bootswap's own JSON).
//!
//! - Promises: A manifest for this device is read exactly. Any other text gets the lowest refusal
//!   that applies. Identifiers of vendors and classes are UUIDs of version 5. A row for C is read as
//!   the manifest that it was made of.
//! - Main calls: `Manifest::read`, `vendor_id`, `class_id`, `manifest_in`, `manifest_row`
//! - Allocates: to read a JSON text; not for identifiers.
//! - Callers: any crate that accepts updates; `json` is for other files with one JSON object.
#![tactic(auto)]

mod components;
mod error;
mod identity;
mod ids;
pub mod json;
mod manifest;
mod manifest_reading;
mod rows;

pub use error::ManifestError;
pub use identity::Identity;
pub use ids::{class_id, vendor_id};
pub use manifest::{Component, MOST_COMPONENTS, Manifest};
pub use rows::{ComponentRow, ManifestRow, manifest_in, manifest_row};
