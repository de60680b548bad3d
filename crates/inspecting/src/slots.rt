//! `bootswap slots`: makes the text of what the slots hold, and of the decision of the next boot.
ghost use Rattle.std.specs.Prelude.{◌≡◌, ◌++◌, IfOk, string_bytes};
ghost use Rattle.inspecting.specs.Slots.{answer_to};
ghost use Rattle.inspecting.specs.SlotsText.{found_text};
ghost use Rattle.inspecting.specs.StateText.{state_text};

use crate::flash_state::FlashState;
use crate::show::state_text;
use crate::slots_found::{NextDecision, SlotsFound};
use crate::slots_text::write_found;
use host::Answer;
use std::alloc::{AllocError, Global};

/// The text of the state of a device, and of what its slots hold.
pub(crate) fn listing_text(
    alloc: Global,
    state: &FlashState,
    found: &SlotsFound,
) -> Result<String, AllocError>
    ensures { IfOk result
        (λ text. string_bytes text ≡ state_text state.now ++ found_text found.now) }
{
    let mut text = state_text(alloc, state)?;
    write_found(alloc, &mut text, found)?;
    Ok(text)
}

/// The answer if the next boot would decide this: `Refused` if the boot would be refused.
pub(crate) fn answer_to(decision: &Option<NextDecision>) -> Answer
    ensures { result ≡ answer_to decision.now }
{
    match decision {
        None | Some(NextDecision::Decided { .. }) => Answer::Done,
        Some(NextDecision::Damaged { .. }) | Some(NextDecision::Invalid { .. }) => Answer::Refused,
    }
}
