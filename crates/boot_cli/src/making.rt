//! Runs the commands that make a file: `make-device`, `make-image`, `make-manifest` and `extract`.
ghost use Rattle.std.specs.Prelude.{◌≡◌, IfOk};
ghost use Rattle.boot_cli.specs.OrderEnd.{AnswersMaking};

use command_line::{NewFile, Order};
use creating::extract::{Copying, run_extract};
use creating::make_device::run_make_device;
use creating::make_image::run_make_image;
use creating::make_manifest::run_make_manifest;
use explaining::CommandNotes;
use host::{Answer, Host, Refusal, Source};
use sector_map::Side;
use std::alloc::Global;
use std::io::Write;

/// Makes the file that an order names, from the files of `host`. The answer goes to `out`, and what
/// `make-device` and `make-manifest` say beside it to `err`. The notes on the answer are added to
/// `notes`. An order to anything else is refused.
///
/// # Errors
/// The errors of the command.
pub fn run_making<H: Host, O: Write, E: Write>(
    alloc: Global,
    order: &Order<'_>,
    host: &mut H,
    out: &mut O,
    err: &mut E,
    notes: &mut CommandNotes,
) -> Result<Answer, Refusal>
    ensures { IfOk result (λ answer. AnswersMaking answer order.now
        (H.input host.old) (H.file host.old) (H.file host.new)
        (O.contents out.old) (O.contents out.new)) }
{
    let answer = make(alloc, order, host, out, err, notes)?;
    notes.on_made(order, answer);
    Ok(answer)
}

/// Makes the file that an order names. What the command finds in its inputs is handed to `notes`.
fn make<H: Host, O: Write, E: Write>(
    alloc: Global,
    order: &Order<'_>,
    host: &mut H,
    out: &mut O,
    err: &mut E,
    notes: &mut CommandNotes,
) -> Result<Answer, Refusal>
    ensures { IfOk result (λ answer. AnswersMaking answer order.now
        (H.input host.old) (H.file host.old) (H.file host.new)
        (O.contents out.old) (O.contents out.new)) }
{
    match *order {
        Order::MakeDevice { ref device } => run_make_device(alloc, device, out, err),
        Order::MakeImage {
            image,
            body,
            ref values,
        } => run_make_image(alloc, image, Source::named(body), values, host, out, notes),
        Order::MakeManifest {
            device,
            ref manifest,
        } => run_make_manifest(
            alloc,
            Source::named(device),
            manifest,
            host,
            out,
            err,
            notes,
        ),
        Order::Extract {
            device,
            flash,
            image,
            side,
            out: file,
        } => {
            let (device, flash) = (Source::named(device), Source::named(flash));
            run_extract(
                alloc,
                device,
                flash,
                copying(image, side, file),
                host,
                out,
                notes,
            )
        }
        _ => Err(Refusal::NotMade),
    }
}

/// Returns the slot to copy, and the file to copy it into.
fn copying(image: u8, side: Side, out: NewFile<'_>) -> Copying<'_>
    ensures image { result.image ≡ image }
    ensures side { result.side ≡ side }
    ensures out { result.out ≡ out.entry }
{
    Copying { image, side, out }
}
