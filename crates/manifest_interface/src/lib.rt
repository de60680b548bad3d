//! A static library for C that reads the JSON text of a manifest.
//!
//! - Promises: The text of a manifest for this device is read exactly, as `bootswap_journal_accept`
//!   takes it. Any other text gets the lowest refusal that applies, and nothing is written.
//! - Main calls: `bootswap_parse_manifest`
//! - Allocates: to read a text.
//! - Callers: programs in C. `include/bootswap_manifest.h` declares the call.
//!
//! The C program defines how the call allocates. `bindings/c/manifest.c` takes the caller's memory.
//! So this is no part of `c_interface`, which a program without an allocator links.
#![tactic(auto)]

mod identity;
mod parsing;
