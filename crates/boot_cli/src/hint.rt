//! Points to `--explain` after an error line.

use host::{Answer, Host, Refusal, SourceFault};
use std::io::Write;

/// The line that points to `--explain`.
const HINT: &str = "note: --explain says more\n";

/// Writes to `err` that `--explain` says more, after the error line of a command that ended with
/// `outcome`. The line is written only if `--explain` has notes on the refusal, and standard error
/// is a terminal.
pub fn hint_at_notes<H: Host, E: Write>(outcome: &Result<Answer, Refusal>, host: &H, err: &mut E) {
    let Err(refusal) = outcome else {
        return;
    };
    if host.watched_seconds().is_none() || !has_notes(refusal) {
        return;
    }
    // The hint is no part of the answer, so a failed write changes nothing.
    let _ = err.write_all(HINT.as_bytes());
    let _ = err.flush();
}

/// Whether `--explain` has notes on a refusal.
fn has_notes(refusal: &Refusal) -> bool {
    match refusal {
        Refusal::TableLine(_)
        | Refusal::ReportLine(_)
        | Refusal::FleetLine
        | Refusal::NotValid(_)
        | Refusal::DeviceFile(_)
        | Refusal::FlashSize(_)
        | Refusal::FlashInUse
        | Refusal::ImageInUse
        | Refusal::ImageCount(_)
        | Refusal::NoImage { .. }
        | Refusal::ImageTooBig { .. }
        | Refusal::ScriptLine(_)
        | Refusal::FlashFile(_) => true,
        Refusal::OfSource(refused) => match &refused.fault {
            SourceFault::CannotRead(_)
            | SourceFault::NoImage(_)
            | SourceFault::NoOldImage
            | SourceFault::NoPicture
            | SourceFault::CannotMerge(_)
            | SourceFault::CannotReplace(Some(_)) => true,
            SourceFault::CannotReplace(None) | SourceFault::TooLong(_) => false,
        },
        _ => false,
    }
}
