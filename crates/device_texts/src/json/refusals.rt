//! Makes the JSON of refusals.
ghost use Rattle.std.specs.Prelude.{◌≡◌, IfOk, OnOk};
ghost use Rattle.serde_json.specs.Data.{object};
ghost use Rattle.serde_json.specs.View.{members_view, view};
ghost use Rattle.device_texts.specs.Json.{code_json, fault_json, layer_json, map_json, upload_json, with_code, with_refused};

use crate::json::{Object, put_number, put_text, put_value};
use machine::{Fault, UploadError};
use sector_map::MapError;
use serde_json::{Map, Value};
use std::alloc::{AllocError, Global};

/// Makes the object of a refusal: its number and its name.
pub fn code_value(alloc: Global, code: u8, name: &str) -> Result<Value, AllocError>
    ensures { IfOk result (λ value. view value ≡ code_json code name.now) }
{
    let mut object = Map::new(alloc);
    put_code(alloc, &mut object, code, name)?;
    Ok(Value::Object(object))
}

/// Makes the object of why the sizes of a device file make no map.
pub fn map_value(alloc: Global, fault: MapError) -> Result<Value, AllocError>
    ensures { IfOk result (λ value. view value ≡ map_json fault) }
{
    layer_value(alloc, "map", fault.code(), fault.name(), Map::new(alloc))
}

/// Makes the object of why a call of a device is refused.
pub fn fault_value(alloc: Global, fault: Fault) -> Result<Value, AllocError>
    ensures { IfOk result (λ value. view value ≡ fault_json fault) }
{
    let mut object = Map::new(alloc);
    match fault {
        Fault::Manifest(error) => {
            layer_value(alloc, "manifest", error.code(), error.name(), object)
        }
        Fault::Upload(error) => upload_value(alloc, error),
        Fault::RunningDamaged(image) => {
            put_number(alloc, &mut object, "image", u64::from(image))?;
            layer_value(alloc, "boot", fault.code(), fault.name(), object)
        }
        _ => layer_value(alloc, "boot", fault.code(), fault.name(), object),
    }
}

/// Makes the object of why an upload is refused.
fn upload_value(alloc: Global, error: UploadError) -> Result<Value, AllocError>
    ensures { IfOk result (λ value. view value ≡ upload_json error) }
{
    let mut object = Map::new(alloc);
    if let UploadError::NotAnImage(check) = error {
        put_number(alloc, &mut object, "check", u64::from(check.code()))?;
    }
    layer_value(alloc, "upload", error.code(), error.name(), object)
}

/// Makes the object of a refusal by a layer below, which has these further members.
fn layer_value(
    alloc: Global,
    layer: &str,
    code: u8,
    name: &str,
    object: Object,
) -> Result<Value, AllocError>
    ensures { IfOk result (λ value. view value
        ≡ layer_json layer.now code name.now (members_view object.entries)) }
{
    let mut object = object;
    put_code(alloc, &mut object, code, name)?;
    put_text(alloc, &mut object, "layer", layer)?;
    Ok(Value::Object(object))
}

/// Adds the number and the name of a refusal.
pub fn put_code(alloc: Global, object: &mut Object, code: u8, name: &str) -> Result<(), AllocError>
    ensures { OnOk result (members_view object.new.entries
        ≡ with_code code name.now (members_view object.old.entries)) }
{
    put_text(alloc, object, "name", name)?;
    put_number(alloc, object, "code", u64::from(code))
}

/// Adds the member of a refusal.
pub fn put_refused(alloc: Global, object: &mut Object, refused: Value) -> Result<(), AllocError>
    ensures { OnOk result (members_view object.new.entries
        ≡ with_refused (view refused) (members_view object.old.entries)) }
{
    put_value(alloc, object, "refused", refused)
}
