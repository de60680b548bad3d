//! The files, standard input, outputs and exit status of a command.
//!
//! - Promises: A source that is read whole yields exactly the bytes that the host has by its name.
//!   Status 0 is returned only after an answer `Done` was flushed.
//! - Main calls: `Source::read`, `Source::read_start`, `Source::is_file`, `open_stream`, `finish`
//! - Allocates: the input.
//! - Callers: any command.
//!
//! `Host` is the trait through which a command reads and writes files. `SystemHost` of
//! `system_host` implements it over the files of the system, and a test implements it in memory. A
//! command ends with an `Answer` or a `Refusal`. `finish` prints it and turns it into the exit
//! status.
#![tactic(auto)]

mod answer;
mod error;
mod host;
mod limits;
mod source;
mod stream;

pub use answer::{Answer, finish, refuse, refuse_after, status_after};
pub use error::{
    BadText, NamedText, Refusal, ScriptFault, ScriptLine, SourceFault, SourceRefusal, WrongLength,
};
pub use host::{Access, FilePart, FlashFault, Host, Replaced};
pub use limits::{MOST_FILE, MOST_JSON, MOST_SCRIPT, MOST_TABLE};
pub use source::{Source, refuse_input};
pub use stream::{Stream, open_stream};
