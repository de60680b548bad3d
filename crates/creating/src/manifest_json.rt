//! Makes the JSON text of a manifest.

use manifest::{Component, Identity, Manifest};
use std::alloc::{AllocError, Global};

/// The text of a manifest for devices of this identity, in memory of `alloc`. It is a JSON object
/// with its keys in the order of docs/FORMATS.md, and two lines for each component.
pub fn manifest_json(
    alloc: Global,
    identity: &Identity,
    manifest: &Manifest,
) -> Result<String, AllocError> {
    let sequence = manifest.sequence;
    let (vendor, class) = (identity.vendor, identity.class);
    let mut text = format!(in alloc;
        "{{\"manifest-version\":1,\"sequence-number\":{sequence},\n \"vendor-id\":\"{vendor}\",\n"
    )?;
    write!(text, " \"class-id\":\"{class}\",\n \"components\":[")?;
    let mut before = "";
    for component in manifest.components.as_slice() {
        write!(text, "{before}\n")?;
        write_component(alloc, &mut text, component)?;
        before = ",";
    }
    writeln!(text, "]}}")?;
    Ok(text)
}

/// Adds a component to the text of a manifest.
fn write_component(
    alloc: Global,
    text: &mut String,
    component: &Component,
) -> Result<(), AllocError> {
    let (image, size) = (component.image, component.size);
    let kind = if component.permanent {
        "permanent"
    } else {
        "test"
    };
    let digest = hex::encode(alloc, component.digest.as_slice())?;
    write!(
        text,
        "  {{\"component-id\":{image},\"kind\":\"{kind}\",\"size\":{size},\n"
    )?;
    write!(text, "   \"payload-digest\":\"{digest}\"")?;
    if let Some(precursor) = component.precursor {
        let precursor = hex::encode(alloc, precursor.as_slice())?;
        write!(text, ",\n   \"precursor-digest\":\"{precursor}\"")?;
    }
    write!(text, "}}")
}
