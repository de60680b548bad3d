//! Makes the JSON of what the slots of a device hold.
ghost use Rattle.std.specs.List.{flat_map};
ghost use Rattle.std.specs.Prelude.{◌≡◌, IfOk, OnOk, map};
ghost use Rattle.serde_json.specs.View.{members_view, view};
ghost use Rattle.inspecting.specs.Json.{moved_json, slot_json, slots_json, with_content, with_decision, with_slots};
ghost use Rattle.inspecting.specs.Json.{progress_json, request_json};

use crate::json::put_description;
use crate::slots_found::{ImageSlots, NextDecision, SlotContent, SlotsFound};
use crate::slots_text::request_text;
use device_texts::json::{
    Json, Object, code_value, fault_value, put_each, put_number, put_refused, put_report, put_text,
    put_value, put_values,
};
use machine::Fault;
use serde_json::{Map, Value, push};
use std::alloc::{AllocError, Global};
use swap_scratch::Progress;

/// Adds the members of what the slots hold, and of the decision of the next boot.
pub(crate) fn put_slots(
    alloc: Global,
    object: &mut Object,
    found: &SlotsFound,
) -> Result<(), AllocError>
    ensures { OnOk result (members_view object.new.entries
        ≡ with_slots found.now (members_view object.old.entries)) }
{
    put_decision(alloc, object, &found.decision)?;
    let images = found.images.as_slice();
    let moved = moved_values(alloc, images)?;
    put_values(alloc, object, "moved", moved)?;
    put_each(alloc, object, "requests", images)?;
    let slots = slot_values(alloc, images)?;
    put_values(alloc, object, "slots", slots)
}

/// Makes the objects of the slots of each image.
fn slot_values(alloc: Global, images: &[ImageSlots]) -> Result<Vec<Value>, AllocError>
    ensures { IfOk result (λ values. map view values.items ≡ flat_map slots_json images.now) }
{
    let mut values = Vec::new(alloc);
    for slots in images {
        let primary = slot_value(alloc, slots.image, "primary", &slots.primary)?;
        push(&mut values, primary)?;
        let secondary = slot_value(alloc, slots.image, "secondary", &slots.secondary)?;
        push(&mut values, secondary)?;
    }
    Ok(values)
}

/// Makes the object of a slot.
fn slot_value(
    alloc: Global,
    image: u8,
    side: &str,
    content: &SlotContent,
) -> Result<Value, AllocError>
    ensures { IfOk result (λ value. view value ≡ slot_json image side.now content.now) }
{
    let mut object = Map::new(alloc);
    put_content(alloc, &mut object, content)?;
    put_text(alloc, &mut object, "side", side)?;
    put_number(alloc, &mut object, "image", u64::from(image))?;
    Ok(Value::Object(object))
}

/// Adds the members of what a slot begins with.
fn put_content(alloc: Global, object: &mut Object, content: &SlotContent) -> Result<(), AllocError>
    ensures { OnOk result (members_view object.new.entries
        ≡ with_content content.now (members_view object.old.entries)) }
{
    match content {
        SlotContent::Intact(description) => put_description(alloc, object, description),
        SlotContent::Erased => put_value(alloc, object, "erased", Value::Bool(true)),
        SlotContent::Damaged(check) => {
            let value = code_value(alloc, check.code(), check.name())?;
            put_value(alloc, object, "damaged", value)
        }
    }
}

impl Json for ImageSlots {
    ghost json = { request_json };

    fn json(&self, alloc: Global) -> Result<Value, AllocError> {
        let mut object = Map::new(alloc);
        put_text(alloc, &mut object, "kind", request_text(self.request))?;
        put_number(alloc, &mut object, "image", u64::from(self.image))?;
        Ok(Value::Object(object))
    }
}

/// Makes the objects of the swaps that are under way.
fn moved_values(alloc: Global, images: &[ImageSlots]) -> Result<Vec<Value>, AllocError>
    ensures { IfOk result (λ values. map view values.items
        ≡ flat_map (λ it. moved_json it.image it.moved) images.now) }
{
    let mut values = Vec::new(alloc);
    for slots in images {
        if let Some(progress) = slots.moved {
            let value = moved_value(alloc, slots.image, progress)?;
            push(&mut values, value)?;
        }
    }
    Ok(values)
}

/// Makes the object of a swap that is under way.
fn moved_value(alloc: Global, image: u8, progress: Progress) -> Result<Value, AllocError>
    ensures { IfOk result (λ value. view value ≡ progress_json image progress) }
{
    let mut object = Map::new(alloc);
    put_number(alloc, &mut object, "total", u64::from(progress.steps))?;
    put_number(alloc, &mut object, "done", u64::from(progress.taken))?;
    put_number(alloc, &mut object, "image", u64::from(image))?;
    Ok(Value::Object(object))
}

/// Adds the members of the decision of the next boot.
fn put_decision(
    alloc: Global,
    object: &mut Object,
    decision: &Option<NextDecision>,
) -> Result<(), AllocError>
    ensures { OnOk result (members_view object.new.entries
        ≡ with_decision decision.now (members_view object.old.entries)) }
{
    let fault = match decision {
        None => return Ok(()),
        Some(NextDecision::Decided { table: _, report }) => {
            return put_report(alloc, object, report);
        }
        Some(NextDecision::Damaged { image, slot: _ }) => Fault::RunningDamaged(*image),
        Some(NextDecision::Invalid { table: _ }) => Fault::InvalidSet,
    };
    let refused = fault_value(alloc, fault)?;
    put_refused(alloc, object, refused)
}
