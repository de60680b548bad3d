//! Makes the JSON of the state of a device.
ghost use Rattle.std.specs.Prelude.{◌≡◌, IfOk, OnOk};
ghost use Rattle.serde_json.specs.View.{members_view, view};
ghost use Rattle.inspecting.specs.Json.{floor_json, swap_json, with_left, with_state};

use crate::flash_state::{FlashState, ImageFloor, ImageSwap};
use crate::show::{kind_text, swap_type_text};
use device_texts::json::{Json, Object, put_each, put_number, put_text, put_value, set_numbers};
use serde_json::{Map, Value};
use std::alloc::{AllocError, Global};

/// Adds the members of the state of a device.
pub(crate) fn put_state(
    alloc: Global,
    object: &mut Object,
    found: &FlashState,
) -> Result<(), AllocError>
    ensures { OnOk result (members_view object.new.entries
        ≡ with_state found.now (members_view object.old.entries)) }
{
    put_each(alloc, object, "swaps", found.swaps.as_slice())?;
    put_each(alloc, object, "floors", found.floors.as_slice())?;
    put_number(alloc, object, "sequence", u64::from(found.state.sequence))?;
    put_left(alloc, object, found.state.left)?;
    let set = set_numbers(alloc, found.state.mask)?;
    put_value(alloc, object, "set", Value::Array(set))?;
    put_text(alloc, object, "state", kind_text(found.state.kind))
}

/// Adds the boots that a trial has left, if there are any.
fn put_left(alloc: Global, object: &mut Object, left: u8) -> Result<(), AllocError>
    ensures { OnOk result (members_view object.new.entries
        ≡ with_left left (members_view object.old.entries)) }
{
    if left == 0 {
        return Ok(());
    }
    put_number(alloc, object, "left", u64::from(left))
}

impl Json for ImageFloor {
    ghost json = { floor_json };

    fn json(&self, alloc: Global) -> Result<Value, AllocError> {
        let mut object = Map::new(alloc);
        put_number(alloc, &mut object, "floor", u64::from(self.floor))?;
        put_number(alloc, &mut object, "image", u64::from(self.image))?;
        Ok(Value::Object(object))
    }
}

impl Json for ImageSwap {
    ghost json = { swap_json };

    fn json(&self, alloc: Global) -> Result<Value, AllocError> {
        let mut object = Map::new(alloc);
        put_text(alloc, &mut object, "type", swap_type_text(self.swap_type))?;
        put_number(alloc, &mut object, "image", u64::from(self.image))?;
        Ok(Value::Object(object))
    }
}
