//! Runs `bootswap sweep --merge`: adds up the outputs of the parts of a sweep.
ghost use Rattle.std.specs.Prelude.{IfSome, OnOk};
ghost use Rattle.device_commands.specs.ProvisionEnd.{AreOthers};
ghost use Rattle.host.specs.Input.{KeepsFiles};
ghost use Rattle.sweep.specs.SweepEnd.{KeepsOutputs};

use crate::found::Found;
use crate::merging::add_output;
use crate::picture_file::{check_picture, hold_picture, make_picture};
use crate::swept::Swept;
use host::{BadText, FlashFault, Host, MOST_FILE, Refusal, Source, SourceFault, refuse_input};
use std::alloc::Global;

/// Reads the outputs of the parts of a sweep from `host`, and returns the result of all their runs.
///
/// `outputs` has the names of the outputs, and `picture` that of the picture to make, if there is
/// one. All outputs are read before the picture's file is looked up. It may be replaced if it is a
/// picture of a sweep or empty, or if `is_forced` is set. No other file changes. The outputs keep
/// their bytes on every path: none of them may be the picture.
///
/// # Errors
/// `OfSource` with `CannotMerge` for the first output that is wrong, or that is of other events than
/// those before it, and else as for any input. `PictureIsInput` if the picture is an output.
/// `NoMemory` if memory runs out.
pub fn merge_outputs<H: Host>(
    alloc: Global,
    outputs: &[&str],
    picture: Option<&str>,
    is_forced: bool,
    host: &mut H,
) -> Result<Swept, Refusal>
    ensures { KeepsOutputs outputs.now picture.entry (H.file host.old) (H.file host.new) }
{
    let Sum { found, held } = sum_of(alloc, outputs, picture, host)?;
    refuse_outputs(alloc, host, picture, is_forced, held, outputs)?;
    let Some(found) = found else {
        return Ok(Swept::Nothing);
    };
    make_picture(alloc, &found, picture, host)?;
    Ok(Swept::Found(found))
}

/// What outputs add up to.
#[derive(Drop)]
struct Sum {
    /// Their sum. `None` if there are none.
    found: Option<Found>,
    /// Why the picture can't be made or replaced, if it can't.
    held: Result<(), FlashFault>,
}

/// Adds up these outputs, and then looks up the picture.
fn sum_of<H: Host>(
    alloc: Global,
    outputs: &[&str],
    picture: Option<&str>,
    host: &mut H,
) -> Result<Sum, Refusal>
    ensures { KeepsFiles (H.file host.old) (H.file host.new) }
{
    let mut found = None;
    for output in outputs {
        add_file(alloc, Source::named(output), &mut found, host)?;
    }
    // Not earlier: while the host reads, a name may become that of another file.
    let held = hold_picture(alloc, picture, host);
    Ok(Sum { found, held })
}

/// Adds the findings of an output to `sum`.
fn add_file<H: Host>(
    alloc: Global,
    output: Source<'_>,
    sum: &mut Option<Found>,
    host: &mut H,
) -> Result<(), Refusal>
    ensures { KeepsFiles (H.file host.old) (H.file host.new) }
{
    let text = output.read(alloc, host, MOST_FILE)?;
    match add_output(alloc, sum, &text) {
        Ok(Ok(())) => Ok(()),
        Ok(Err(line)) => {
            let bad = BadText { text, line };
            Err(output.refused(alloc, SourceFault::CannotMerge(bad)))
        }
        Err(_) => Err(Refusal::NoMemory),
    }
}

/// Refuses a picture that can't be made, or whose file is an output.
fn refuse_outputs<H: Host>(
    alloc: Global,
    host: &H,
    named: Option<&str>,
    is_forced: bool,
    held: Result<(), FlashFault>,
    outputs: &[&str],
) -> Result<(), Refusal>
    ensures { OnOk result (IfSome named.entry (λ picture.
        AreOthers (H.apart host.now picture.now) outputs.now)) }
{
    let Some(picture) = named else {
        return Ok(());
    };
    for output in outputs {
        let output = Source::named(output);
        refuse_input(alloc, host, picture, output, Refusal::PictureIsInput)?;
    }
    check_picture(alloc, host, picture, is_forced, held)
}
