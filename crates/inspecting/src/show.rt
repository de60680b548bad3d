//! `bootswap show`: makes the text of the state of a device.
ghost use Rattle.std.specs.List.{flat_map};
ghost use Rattle.std.specs.Prelude.{◌≡◌, ◌++◌, IfOk, Some, string_bytes};
ghost use Rattle.inspecting.specs.StateText.{floor_line, images_text, kind_text, left_text};
ghost use Rattle.inspecting.specs.StateText.{state_text, swap_line, swap_type_text};

use crate::flash_state::{FlashState, ImageFloor, ImageSwap};
use device_texts::Members;
use set_log::RecordKind;
use std::alloc::{AllocError, Global};
use std::fmt;
use trailer::SwapType;

/// The text of the state of a device.
pub(crate) fn state_text(alloc: Global, found: &FlashState) -> Result<String, AllocError>
    ensures { IfOk result (λ text. string_bytes text ≡ state_text found.now) }
{
    let state = &found.state;
    let kind = kind_text(state.kind);
    let set = Images(state.mask);
    let left = Left(state.left);
    let sequence = state.sequence;
    let mut text = format!(in alloc; "state {kind}\nset{set}\n{left}sequence {sequence}\n")?;
    write_floors(&mut text, found.floors.as_slice())?;
    write_swaps(&mut text, found.swaps.as_slice())?;
    Ok(text)
}

/// The word for what a device is doing.
pub(crate) fn kind_text(kind: RecordKind) -> &'static str
    ensures { result.now ≡ kind_text kind }
{
    match kind {
        RecordKind::Steady => "steady",
        RecordKind::Swap => "swap",
        RecordKind::Settle => "settle",
        RecordKind::Trial => "trial",
        RecordKind::Back => "back",
        RecordKind::BackSettle => "back-settle",
    }
}

/// Prints the images of a set, each after a space, or `-` for none.
#[derive(Drop)]
struct Images(u8);

impl fmt::Display for Images {
    ghost output = { λ images. Some (images_text images.0) };

    fn fmt<W: fmt::Write>(&self, f: &mut fmt::Formatter<W>) -> fmt::Result {
        if self.0 == 0 {
            write!(f, " -")
        } else {
            let members = Members(self.0);
            write!(f, "{members}")
        }
    }
}

/// Prints the line with the number of boots that a trial has left, if it is at least 1.
#[derive(Drop)]
struct Left(u8);

impl fmt::Display for Left {
    ghost output = { λ left. Some (left_text left.0) };

    fn fmt<W: fmt::Write>(&self, f: &mut fmt::Formatter<W>) -> fmt::Result {
        let left = self.0;
        if left == 0 {
            Ok(())
        } else {
            writeln!(f, "left {left}")
        }
    }
}

/// Adds to a text a line with the floor of each image.
fn write_floors(text: &mut String, floors: &[ImageFloor]) -> Result<(), AllocError>
    ensures { IfOk result (λ _. string_bytes text.new
        ≡ string_bytes text.old ++ flat_map floor_line floors.now) }
{
    for it in floors {
        let ImageFloor { image, floor } = *it;
        writeln!(text, "floor {image} {floor}")?;
    }
    Ok(())
}

/// Adds to a text a line for each image with what its trailers ask of the next boot.
fn write_swaps(text: &mut String, swaps: &[ImageSwap]) -> Result<(), AllocError>
    ensures { IfOk result (λ _. string_bytes text.new
        ≡ string_bytes text.old ++ flat_map swap_line swaps.now) }
{
    for it in swaps {
        let ImageSwap { image, swap_type } = *it;
        let asked = swap_type_text(swap_type);
        writeln!(text, "swap {image} {asked}")?;
    }
    Ok(())
}

/// The word for what a pair of trailers asks of the next boot.
pub(crate) fn swap_type_text(swap_type: SwapType) -> &'static str
    ensures { result.now ≡ swap_type_text swap_type }
{
    match swap_type {
        SwapType::Test => "test",
        SwapType::Perm => "perm",
        SwapType::Revert => "revert",
        SwapType::None => "none",
    }
}
