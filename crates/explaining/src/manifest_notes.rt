//! Explains why bytes aren't a manifest for a device.

use crate::Result;
use crate::json_notes::{Keys, Wanted, explain_count, explain_object, read_json};
use crate::texts::Images;
use device_texts::NoteList;
use manifest::json::{array, number, uuid};
use manifest::{Identity, MOST_COMPONENTS};
use serde_json::Value;
use std::alloc::Global;
use uuid::Uuid;

/// The keys of a manifest.
const KEYS: Keys = Keys {
    known: [
        ("manifest-version", Wanted::Number),
        ("sequence-number", Wanted::Number),
        ("vendor-id", Wanted::Uuid),
        ("class-id", Wanted::Uuid),
        ("components", Wanted::List),
    ],
    optional: "",
};

/// The keys of a component.
const COMPONENT_KEYS: Keys = Keys {
    known: [
        ("component-id", Wanted::Number),
        ("kind", Wanted::Kind),
        ("size", Wanted::Number),
        ("payload-digest", Wanted::Digest),
        ("precursor-digest", Wanted::Digest),
    ],
    optional: "precursor-digest",
};

/// Adds why bytes aren't a manifest for a device of this identity: where they stop being JSON,
/// which keys are missing or unknown, which value of a key isn't allowed, or which device the
/// manifest is for. The JSON value is in memory of `alloc`.
pub fn explain_manifest(
    notes: &mut NoteList,
    alloc: Global,
    bytes: &[u8],
    identity: &Identity,
) -> Result {
    let Some(value) = read_json(notes, alloc, bytes)? else {
        return Ok(());
    };
    explain_object(notes, alloc, "the manifest", &value, &KEYS)?;
    match number(&value, "manifest-version") {
        Some(version) if version != 1 => notes.add(format_args!(
            "`manifest-version` is {version}, and has to be 1"
        ))?,
        _ => {}
    }
    explain_identifier(notes, &value, "vendor-id", identity.vendor)?;
    explain_identifier(notes, &value, "class-id", identity.class)?;
    match array(&value, "components") {
        Some(components) => {
            explain_components(notes, alloc, components.as_slice(), identity.images)
        }
        None => Ok(()),
    }
}

/// Adds that an identifier isn't the device's, if it isn't.
fn explain_identifier(notes: &mut NoteList, value: &Value, key: &str, own: Uuid) -> Result {
    match uuid(value, key) {
        Some(found) if found != own => {
            notes.add(format_args!("`{key}` is {found}, and the device's is {own}"))
        }
        _ => Ok(()),
    }
}

/// Adds what is wrong with the components of a manifest.
fn explain_components(
    notes: &mut NoteList,
    alloc: Global,
    components: &[Value],
    images: u8,
) -> Result {
    explain_count(notes, "components", components.len(), "", MOST_COMPONENTS)?;
    for (place, component) in components.iter().enumerate() {
        let owner = format!(in alloc; "entry {place} of `components`")?;
        let before = components.get(..place).unwrap_or_default();
        explain_object(notes, alloc, &owner, component, &COMPONENT_KEYS)?;
        explain_image_of(notes, &owner, before, component, images)?;
    }
    Ok(())
}

/// Adds what is wrong with the image that a component is for, which follows the components `before`.
fn explain_image_of(
    notes: &mut NoteList,
    owner: &str,
    before: &[Value],
    component: &Value,
    images: u8,
) -> Result {
    let Some(image) = number(component, "component-id") else {
        return Ok(());
    };
    if image >= u32::from(images) {
        let all = Images(usize::from(images));
        notes.add(format_args!("{owner} is for image {image}, and the device has {all}"))?;
    }
    let mut others = before.iter();
    if others.any(|other| number(other, "component-id") == Some(image)) {
        notes.add(format_args!("{owner} is for image {image}, as one before it"))?;
    }
    Ok(())
}
