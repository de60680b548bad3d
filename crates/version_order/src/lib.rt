//! Versions of images, their order and their text, dependencies, and groups of alternatives.
//!
//! - Promises: Versions have a total order, by major, minor, revision and build number. They are
//!   read exactly, and a printed version is read back.
//! - Main calls: `Ord` of `Version`, `Version::parse`, `version_texts_are_read_back`
//! - Allocates: no.
//! - Callers: any crate.
#![tactic(auto)]

mod dependency;
mod error;
mod group;
pub mod laws;
mod version;
mod version_text;

pub use dependency::Dependency;
pub use error::BadVersion;
pub use group::Group;
pub use version::Version;
