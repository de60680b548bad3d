//! The file of a sweep's picture: looked up before the first run, made or replaced after the last.
ghost use Rattle.std.specs.Prelude.{◌≡◌, IfErr, OnOk};
ghost use Rattle.host.specs.Doings.{KeepsApart};
ghost use Rattle.host.specs.Input.{IsKnownAs, KeepsFiles};
ghost use Rattle.sweep.specs.SweepEnd.{KeepsBesides};

use crate::found::Found;
use crate::picture::picture_of;
use host::{FlashFault, Host, Refusal, Replaced, Source, SourceFault};
use std::alloc::Global;
use std::io::ErrorKind;

/// Looks up the file of the picture, if it has a name.
pub(crate) fn hold_picture<H: Host>(
    alloc: Global,
    picture: Option<&str>,
    host: &mut H,
) -> Result<(), FlashFault>
    ensures { KeepsFiles (H.file host.old) (H.file host.new) }
{
    match picture {
        Some(name) => host.hold_output(alloc, name, Replaced::PlainFile),
        None => Ok(()),
    }
}

/// Makes the picture of a sweep, if it has a name.
pub(crate) fn make_picture<H: Host>(
    alloc: Global,
    found: &Found,
    picture: Option<&str>,
    host: &mut H,
) -> Result<(), Refusal>
    ensures { KeepsBesides picture.entry (H.apart host.old) (H.file host.old) (H.file host.new) }
{
    let Some(name) = picture else {
        return Ok(());
    };
    let Ok(picture) = picture_of(alloc, found) else {
        return Err(Refusal::NoMemory);
    };
    replace(alloc, name, picture.as_bytes(), host)
}

/// Makes or replaces the file of the picture.
fn replace<H: Host>(alloc: Global, name: &str, bytes: &[u8], host: &mut H) -> Result<(), Refusal>
    ensures done { OnOk result (IsKnownAs (H.file host.new name.now) bytes.now) }
    ensures others { KeepsApart (H.apart host.old name.now) (H.file host.old) (H.file host.new) }
    ensures failed { IfErr result (λ _. KeepsFiles (H.file host.old) (H.file host.new)) }
    ensures opened { H.opened host.new ≡ H.opened host.old }
{
    match host.replace_file(alloc, name, bytes, Replaced::PlainFile) {
        Ok(()) => Ok(()),
        Err(fault) => Err(picture_refusal(alloc, name, fault)),
    }
}

/// Refuses a picture that can neither be made nor replace a file, before the first run. `held` is the
/// result of looking it up.
pub(crate) fn check_picture<H: Host>(
    alloc: Global,
    host: &H,
    picture: &str,
    is_forced: bool,
    held: Result<(), FlashFault>,
) -> Result<(), Refusal> {
    match held {
        Ok(()) if is_forced => Ok(()),
        Ok(()) => refuse_other(alloc, host, picture),
        Err(fault) => Err(picture_refusal(alloc, picture, fault)),
    }
}

/// Refuses to replace a file that exists and neither is empty nor begins as a picture of a sweep.
fn refuse_other<H: Host>(alloc: Global, host: &H, picture: &str) -> Result<(), Refusal> {
    let file = Source::File(picture);
    match host.is_plain(picture) {
        Ok(true) => {}
        Err(error) if error.kind() == ErrorKind::NotFound => return Ok(()),
        Ok(false) => return Err(file.refused(alloc, SourceFault::CannotReplace(None))),
        Err(error) => return Err(file.refused(alloc, SourceFault::CannotReplace(Some(error)))),
    }
    match host.read_again(alloc, picture, MOST_START) {
        Ok(start) if start.is_empty() || begins_as_picture(&start) => Ok(()),
        Ok(_) => Err(file.refused(alloc, SourceFault::NoPicture)),
        Err(error) => Err(file.refusal(alloc, error)),
    }
}

/// The most bytes that are read of a file to see whether it is a picture.
const MOST_START: u32 = 512;

/// Whether a file with these first bytes begins as [`picture_of`] begins a picture.
fn begins_as_picture(start: &[u8]) -> bool {
    let Ok(text) = str::from_utf8(start) else {
        return false;
    };
    let Some((head, rest)) = text.split_once('\n') else {
        return false;
    };
    head.starts_with("<svg xmlns=\"http://www.w3.org/2000/svg\" width=\"")
        && head.ends_with("\" font-family=\"sans-serif\" font-size=\"12\">")
        && rest.starts_with("<rect width=\"100%\" height=\"100%\" fill=\"white\"/>\n")
}

/// The refusal of a picture that can neither be made nor replace a file.
fn picture_refusal(alloc: Global, name: &str, fault: FlashFault) -> Refusal {
    match fault {
        FlashFault::NoMemory => Refusal::NoMemory,
        _ => Source::File(name).refused(alloc, SourceFault::CannotReplace(fault.error())),
    }
}
