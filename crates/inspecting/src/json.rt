//! Makes the JSON objects of what read-only commands find, of which docs/JSON.md lists the members.
//!
//! `specs/Json.antt` has a definition for each type, and `device_texts` those that other commands
//! share.

mod codes;
mod image;
mod manifest_members;
mod slots;
mod state;

pub(crate) use codes::put_codes;
pub(crate) use image::put_description;
pub(crate) use manifest_members::put_manifest;
pub(crate) use slots::put_slots;
pub(crate) use state::put_state;
