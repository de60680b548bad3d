//! Makes the text of what the slots of a device hold. Only `slots` calls it.
ghost use Rattle.std.specs.List.{flat_map};
ghost use Rattle.std.specs.Prelude.{◌≡◌, ◌++◌, IfOk, Some, string_bytes};
ghost use Rattle.inspecting.specs.SlotsText.{content_text, decision_text, found_text, image_text};
ghost use Rattle.inspecting.specs.SlotsText.{moved_text, request_text};

use crate::image::description_text;
use crate::slots_found::{ImageSlots, NextDecision, SlotContent, SlotsFound};
use device_texts::refused_fault_text;
use machine::Fault;
use std::alloc::{AllocError, Global};
use std::fmt;
use swap_scratch::Progress;
use trailer::Kind;

/// Adds the text of all that is found to a text.
pub(crate) fn write_found(
    alloc: Global,
    text: &mut String,
    found: &SlotsFound,
) -> Result<(), AllocError>
    ensures { IfOk result (λ _. string_bytes text.new
        ≡ string_bytes text.old ++ found_text found.now) }
{
    write_images(alloc, text, found.images.as_slice())?;
    write_decision(alloc, text, &found.decision)
}

/// Adds the text of each image's slots to a text.
fn write_images(alloc: Global, text: &mut String, images: &[ImageSlots]) -> Result<(), AllocError>
    ensures { IfOk result (λ _. string_bytes text.new
        ≡ string_bytes text.old ++ flat_map image_text images.now) }
{
    for slots in images {
        write_image(alloc, text, slots)?;
    }
    Ok(())
}

/// Adds the text of an image's slots to a text.
fn write_image(alloc: Global, text: &mut String, slots: &ImageSlots) -> Result<(), AllocError>
    ensures { IfOk result (λ _. string_bytes text.new
        ≡ string_bytes text.old ++ image_text slots.now) }
{
    let image = slots.image;
    let primary = content_text(alloc, &slots.primary)?;
    let secondary = content_text(alloc, &slots.secondary)?;
    let request = request_text(slots.request);
    let moved = Moved {
        image,
        progress: slots.moved,
    };
    write!(
        text,
        "slot {image} primary\n{primary}slot {image} secondary\n{secondary}request {image} {request}\n{moved}"
    )
}

/// The text of what a slot begins with.
fn content_text(alloc: Global, content: &SlotContent) -> Result<String, AllocError>
    ensures { IfOk result (λ text. string_bytes text ≡ content_text content.now) }
{
    match content {
        SlotContent::Intact(description) => description_text(alloc, description),
        SlotContent::Erased => format!(in alloc; "erased\n"),
        SlotContent::Damaged(fault) => {
            let code = fault.code();
            let name = fault.name();
            format!(in alloc; "damaged {code} {name}\n")
        }
    }
}

/// The word for the pending request.
pub(crate) fn request_text(request: Option<Kind>) -> &'static str
    ensures { result.now ≡ request_text request }
{
    match request {
        Some(Kind::Test) => "test",
        Some(Kind::Permanent) => "permanent",
        None => "none",
    }
}

/// Prints the line of an image's swap, if it is under way.
#[derive(Drop)]
struct Moved {
    image: u8,
    progress: Option<Progress>,
}

impl fmt::Display for Moved {
    ghost output = { λ moved. Some (moved_text moved.image moved.progress) };

    fn fmt<W: fmt::Write>(&self, f: &mut fmt::Formatter<W>) -> fmt::Result {
        let image = self.image;
        match self.progress {
            None => Ok(()),
            Some(Progress { taken, steps }) => writeln!(f, "moved {image} {taken} of {steps}"),
        }
    }
}

/// Adds the text of the decision of the next boot to a text.
fn write_decision(
    alloc: Global,
    text: &mut String,
    decision: &Option<NextDecision>,
) -> Result<(), AllocError>
    ensures { IfOk result (λ _. string_bytes text.new
        ≡ string_bytes text.old ++ decision_text decision.now) }
{
    let fault = match decision {
        None => return Ok(()),
        Some(NextDecision::Decided { table: _, report }) => return write!(text, "{report}"),
        Some(NextDecision::Damaged { image, slot: _ }) => Fault::RunningDamaged(*image),
        Some(NextDecision::Invalid { table: _ }) => Fault::InvalidSet,
    };
    let line = refused_fault_text(alloc, fault)?;
    write!(text, "{line}")
}
