//! Makes or replaces the file of an image. It can't be one of the inputs. A file that exists is
//! replaced as a whole, and only if it is one intact image, is empty, or `--force` is given. So a
//! flash, which begins with an image, stays.
ghost use Rattle.std.specs.Prelude.{◌≡◌, IfErr, IfOk, OnOk, true};
ghost use Rattle.host.specs.Doings.{KeepsApart};
ghost use Rattle.host.specs.Input.{IsKnownAs, KeepsFiles};
ghost use Rattle.creating.specs.NewFileEnd.{HoldsImage, MayReplace};

use command_line::NewFile;
use host::{FlashFault, Host, MOST_FILE, Refusal, Replaced, Source, SourceFault};
use image_header::{HEADER_LENGTH, Header};
use image_reading::describe;
use std::alloc::Global;
use std::io;
use std::io::ErrorKind;

/// The image file to make, as it was looked up.
#[derive(Clone, Copy)]
pub struct HeldFile<'a> {
    /// The file.
    pub file: NewFile<'a>,
    /// Why it can't be made or replaced, if it can't.
    pub held: Result<(), FlashFault>,
}

/// Makes the file of an image, or replaces an old file.
pub fn replace<H: Host>(
    alloc: Global,
    to: HeldFile<'_>,
    bytes: &[u8],
    host: &mut H,
) -> Result<(), Refusal>
    ensures done { OnOk result (IsKnownAs (H.file host.new to.entry.file.name.now) bytes.now) }
    ensures replaces { OnOk result
        (MayReplace to.entry.file.is_forced (H.file host.old to.entry.file.name.now)) }
    ensures others { KeepsApart (H.apart host.old to.entry.file.name.now)
        (H.file host.old) (H.file host.new) }
    ensures failed { IfErr result (λ _. KeepsFiles (H.file host.old) (H.file host.new)) }
    ensures opened { H.opened host.new ≡ H.opened host.old }
{
    let HeldFile { file, held } = to;
    if let Err(fault) = held {
        return Err(refusal(alloc, file.name, fault));
    }
    if !file.is_forced {
        refuse_other(alloc, &*host, file.name)?;
    }
    match host.replace_file(alloc, file.name, bytes, Replaced::PlainFile) {
        Ok(()) => Ok(()),
        Err(fault) => Err(refusal(alloc, file.name, fault)),
    }
}

/// Refuses a file that exists and neither is empty nor one intact image.
fn refuse_other<H: Host>(alloc: Global, host: &H, name: &str) -> Result<(), Refusal>
    ensures { OnOk result (HoldsImage (H.file host.now name.now)) }
{
    let file = Source::File(name);
    match host.is_plain(name) {
        Ok(true) => {}
        Err(error) if error.kind() == ErrorKind::NotFound => return Ok(()),
        Ok(false) => return Err(file.refused(alloc, SourceFault::CannotReplace(None))),
        Err(error) => return Err(file.refused(alloc, SourceFault::CannotReplace(Some(error)))),
    }
    match holds_image(alloc, host, name) {
        Ok(true) => Ok(()),
        Ok(false) => Err(file.refused(alloc, SourceFault::NoOldImage)),
        Err(error) => Err(file.refusal(alloc, error)),
    }
}

/// Whether a file is empty or one intact image. It is read to its end only if it begins with the
/// header of an image.
fn holds_image<H: Host>(alloc: Global, host: &H, name: &str) -> io::Result<bool>
    ensures { IfOk result (λ holds. holds ≡ true → HoldsImage (H.file host.now name.now)) }
{
    let front = host.read_again(alloc, name, HEADER_LENGTH as u32)?;
    if front.is_empty() {
        return Ok(true);
    }
    if Header::read(&front).is_err() {
        return Ok(false);
    }
    is_whole_image(alloc, host, name)
}

/// Whether a file is one intact image, and nothing follows it.
fn is_whole_image<H: Host>(alloc: Global, host: &H, name: &str) -> io::Result<bool>
    ensures { IfOk result (λ is. is ≡ true → HoldsImage (H.file host.now name.now)) }
{
    let bytes = host.read_again(alloc, name, MOST_FILE)?;
    Ok(bytes.len() <= MOST_FILE as usize && describe(&bytes).is_ok())
}

/// The refusal if a file can't be made, or can't be replaced.
fn refusal(alloc: Global, name: &str, fault: FlashFault) -> Refusal {
    match fault {
        FlashFault::InUse => Refusal::ImageInUse,
        FlashFault::NoMemory => Refusal::NoMemory,
        FlashFault::WrongLength | FlashFault::OnlyReadable(_) | FlashFault::Failed(_) => {
            Source::File(name).refused(alloc, SourceFault::CannotReplace(fault.error()))
        }
    }
}
