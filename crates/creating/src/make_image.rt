//! `bootswap make-image`: makes an image from its body and the values of its header and TLVs.
ghost use Rattle.std.specs.Prelude.{◌≡◌, ◌≢◌, IfErr, IfOk, OnOk, map, string_bytes};
ghost use Rattle.std.specs.List.{AllZip};
ghost use Rattle.std.specs.Io.KnownBytes.{Appends};
ghost use Rattle.host.specs.Doings.{KeepsApart, KeepsSource};
ghost use Rattle.host.specs.Input.{KeepsFiles};
ghost use Rattle.host.specs.Status.{EndsUnmade};
ghost use Rattle.creating.specs.NewFileEnd.{Replaces};
ghost use Rattle.creating.specs.NewImageEnd.{AnswersMade, AnswersNewImage, AreAlternatives, IsImageFor, RefusesImage, fault_text};

use crate::image_file::{HeldFile, replace};
use crate::telling::tell;
use command_line::{NewFile, NewImage};
use device_texts::refused_text;
use host::{Answer, Host, MOST_FILE, Refusal, Replaced, Source, refuse_input};
use inputs::Notes;
use std::alloc::{AllocError, Global};
use std::io::Write;
use tlv::{ImageSpec, MakeError, make_image};
use version_order::Dependency;

/// The size of a header in bytes if the arguments don't give one. Its fields need as much.
const USUAL_HEADER_SIZE: u16 = 32;

/// Makes the image of a body, and makes or replaces its file. Writes to `out` that it is done, or
/// why there is no such image.
///
/// The body is read from `host`, and handed to `notes`. All bytes are in memory of `alloc`. The
/// image is made before its file is written. The file can't be that of the body, which never
/// changes. A file that exists is replaced only if it is one intact image, is empty, or `--force` is
/// given. It changes only if the answer is `Done` or can't be written.
///
/// # Errors
/// `OfSource` if the body can't be read. `ImageIsInput`, `ImageInUse` or `OfSource` for a file that
/// can't be made or may not be replaced. `NoMemory` if memory runs out. `CannotWrite` if the answer
/// can't be written.
pub fn run_make_image<H: Host, O: Write, N: Notes>(
    alloc: Global,
    image: NewFile<'_>,
    body: Source<'_>,
    asked: &NewImage,
    host: &mut H,
    out: &mut O,
    notes: &mut N,
) -> Result<Answer, Refusal>
    ensures answers { IfOk result (λ answer. AnswersNewImage answer body.entry asked.now
        (H.input host.old) (H.file host.old) (H.file host.new image.entry.name.now)
        (O.contents out.old) (O.contents out.new)) }
    ensures replaces { IfOk result (λ answer. Replaces answer image.entry (H.file host.old)) }
    ensures kept { EndsUnmade result → KeepsFiles (H.file host.old) (H.file host.new) }
    ensures input { KeepsSource body.entry (H.file host.old) (H.file host.new) }
    ensures opened { H.opened host.new ≡ H.opened host.old }
{
    let source = body;
    let body = source.read(alloc, host, MOST_FILE)?;
    notes.body(source, &body);
    let held = host.hold_output(alloc, image.name, Replaced::PlainFile);
    refuse_input(alloc, host, image.name, source, Refusal::ImageIsInput)?;
    make(
        alloc,
        HeldFile { file: image, held },
        asked,
        &body,
        host,
        out,
    )
}

/// Makes the image of a body, and makes or replaces its file.
fn make<H: Host, O: Write>(
    alloc: Global,
    image: HeldFile<'_>,
    asked: &NewImage,
    body: &[u8],
    host: &mut H,
    out: &mut O,
) -> Result<Answer, Refusal>
    ensures made { IfOk result (λ answer. AnswersMade answer asked.now body.now
        (H.file host.new image.entry.file.name.now) (O.contents out.old) (O.contents out.new)) }
    ensures replaces { IfOk result (λ answer. Replaces answer image.entry.file (H.file host.old)) }
    ensures kept { EndsUnmade result → KeepsFiles (H.file host.old) (H.file host.new) }
    ensures others { KeepsApart (H.apart host.old image.entry.file.name.now)
        (H.file host.old) (H.file host.new) }
    ensures opened { H.opened host.new ≡ H.opened host.old }
{
    match image_of(alloc, asked, body) {
        Ok(bytes) => {
            replace(alloc, image, &bytes, host)?;
            tell(b"done\n", out)?;
            Ok(Answer::Done)
        }
        Err(MakeError::NoMemory) => Err(Refusal::NoMemory),
        Err(fault) => {
            refuse(alloc, fault, out)?;
            Ok(Answer::Refused)
        }
    }
}

/// The image of a body, with the values of the arguments.
fn image_of(alloc: Global, asked: &NewImage, body: &[u8]) -> Result<Vec<u8>, MakeError>
    ensures made { IfOk result (λ bytes. IsImageFor asked.now body.now bytes.items) }
    ensures refused { IfErr result (λ fault. (fault ≢ MakeError.NoMemory)
        → RefusesImage asked.now body.now fault) }
{
    let groups = slices_of(alloc, asked.groups.as_slice())?;
    let spec = ImageSpec {
        load_address: asked.load_address.unwrap_or(0),
        header_size: asked.header_size.unwrap_or(USUAL_HEADER_SIZE),
        flags: asked.flags.unwrap_or(0),
        version: asked.version,
        counter: asked.counter,
        dependencies: asked.dependencies.as_slice(),
        groups: groups.as_slice(),
        body,
    };
    make_image(alloc, &spec)
}

/// The alternatives of each of these groups, as slices.
fn slices_of<'g>(
    alloc: Global,
    groups: &'g [Vec<Dependency>],
) -> Result<Vec<&'g [Dependency]>, AllocError>
    ensures { IfOk result (λ slices.
        AllZip AreAlternatives (map (λ group. group.items) groups.now) slices.items) }
{
    let mut slices = Vec::new(alloc);
    for group in groups {
        slices.push(group.as_slice())?;
    }
    Ok(slices)
}

/// Writes to `out` why there is no such image.
fn refuse<O: Write>(alloc: Global, fault: MakeError, out: &mut O) -> Result<(), Refusal>
    ensures { OnOk result (Appends (O.contents out.old) (O.contents out.new) (fault_text fault)) }
{
    let Ok(text) = fault_text(alloc, fault) else {
        return Err(Refusal::NoMemory);
    };
    tell(text.as_bytes(), out)
}

/// The line for values that make no image: the number and the name of the first check that fails.
fn fault_text(alloc: Global, fault: MakeError) -> Result<String, AllocError>
    ensures { IfOk result (λ text. string_bytes text ≡ fault_text fault) }
{
    refused_text(alloc, fault.code(), fault.name())
}
