//! The files and streams of the system, as the host and the outputs of the programs.
//!
//! - Promises: The bytes read of standard input are a prefix of the rest of it, up to the given
//!   limit. A part of a file has exactly the given number of bytes, and no more than a file may
//!   have. An output passes on all that it is given, in order, once it is flushed. A new file takes
//!   the name of another only after a sync of the file succeeded, and counts as made only after a
//!   sync of its folder succeeded too. A write that is to be durable succeeds only after such a
//!   sync.
//! - Main calls: `SystemHost` as a `Host`, `Output` and `Colored` as a `Write`, `reserve_stack`
//! - Allocates: the input, the name of a new file, and briefly twice the stack's reserve.
//! - Callers: programs alone. A test passes the commands a host in memory.
//!
//! The modules read a file or a part of it; open, lock and write that of a flash; make or replace a
//! file; and compare the names of files. Others write the program's outputs and color its messages,
//! read the limit of a file's length, and reserve memory for the stack. It is a premise that the
//! system does what its calls report, and that a file holds what was written to it. Tests check
//! which file is locked and what uses a block device.
//!
//! This is a crate apart from `host`, so that the commands needn't wait for its proofs.
#![tactic(auto)]

mod block_device;
mod coloring;
mod file_reading;
mod folder;
mod holding;
mod lasting;
mod limits;
mod new_file;
mod output;
mod replacing;
mod resolving;
mod stack;
mod system;
mod writing;

pub use coloring::{Colored, Coloring, coloring_in, is_colored};
pub use limits::{STANDARD_ERROR, STANDARD_OUTPUT};
pub use output::Output;
pub use stack::reserve_stack;
pub use system::SystemHost;
