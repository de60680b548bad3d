//! Makes the JSON of a manifest's contents.
ghost use Rattle.std.specs.Prelude.{◌≡◌, IfOk, OnOk, map};
ghost use Rattle.serde_json.specs.View.{members_view, view};
ghost use Rattle.inspecting.specs.Json.{component_json, with_manifest, with_precursor};

use crate::manifest_file::kind_text;
use device_texts::json::{Object, put_number, put_text, put_values};
use manifest::{Component, Manifest};
use serde_json::{Map, Value, push};
use std::alloc::{AllocError, Global};

/// Adds the members of a manifest's contents.
pub(crate) fn put_manifest(
    alloc: Global,
    object: &mut Object,
    manifest: &Manifest,
) -> Result<(), AllocError>
    ensures { OnOk result (members_view object.new.entries
        ≡ with_manifest manifest.now (members_view object.old.entries)) }
{
    let components = component_values(alloc, manifest.components.as_slice())?;
    put_values(alloc, object, "components", components)?;
    put_number(alloc, object, "sequence", u64::from(manifest.sequence))
}

/// Makes the objects of components.
fn component_values(alloc: Global, components: &[Component]) -> Result<Vec<Value>, AllocError>
    ensures { IfOk result (λ values. map view values.items ≡ map component_json components.now) }
{
    let mut values = Vec::new(alloc);
    for component in components {
        let value = component_value(alloc, component)?;
        push(&mut values, value)?;
    }
    Ok(values)
}

/// Makes the object of a component.
fn component_value(alloc: Global, component: &Component) -> Result<Value, AllocError>
    ensures { IfOk result (λ value. view value ≡ component_json component.now) }
{
    let mut object = Map::new(alloc);
    put_precursor(alloc, &mut object, component.precursor)?;
    let digest = hex::encode(alloc, component.digest.as_slice())?;
    put_text(alloc, &mut object, "digest", &digest)?;
    put_text(alloc, &mut object, "kind", kind_text(component.permanent))?;
    put_number(alloc, &mut object, "size", u64::from(component.size))?;
    put_number(alloc, &mut object, "image", u64::from(component.image))?;
    Ok(Value::Object(object))
}

/// Adds the precursor digest of a component, if it has one.
fn put_precursor(
    alloc: Global,
    object: &mut Object,
    precursor: Option<[u8; 32]>,
) -> Result<(), AllocError>
    ensures { OnOk result (members_view object.new.entries
        ≡ with_precursor precursor (members_view object.old.entries)) }
{
    let Some(digest) = precursor else {
        return Ok(());
    };
    let digest = hex::encode(alloc, digest.as_slice())?;
    put_text(alloc, object, "precursor", &digest)
}
