//! Limits of a device, kinds of requests, numbers and lines of ASCII text, and lemmas for several
//! layers.
//!
//! - Promises: A number in ASCII is read exactly. A text is split at its first separator, and is
//!   read line by line, up to the first line that isn't accepted.
//! - Main calls: `ascii::number`, `lines::read_lines`
//! - Allocates: no.
//! - Callers: any crate.
#![tactic(auto)]

pub mod ascii;
pub mod kind;
pub mod limits;
pub mod lines;
pub mod mask;
pub mod texts;
