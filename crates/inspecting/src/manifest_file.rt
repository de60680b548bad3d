//! `bootswap manifest`: finds and prints the contents of a manifest for a device, or why it isn't one.
ghost use Rattle.std.specs.Prelude.{◌≡◌, ◌≢◌, ◌∷◌, ◌++◌, [], IfErr, IfOk, string_bytes};
ghost use Rattle.inspecting.specs.Answers.{FindsManifest};
ghost use Rattle.inspecting.specs.ManifestFile.{IsManifestRead};
ghost use Rattle.inspecting.specs.ManifestText.{component_text, manifest_text, precursor_text};
ghost use Rattle.inspecting.specs.ManifestText.{refusal_text};
ghost use Rattle.manifest.specs.Component.{kind_text};

use crate::inspection::Inspection;
use device_texts::refused_text;
use host::{Host, MOST_JSON, Refusal, Source};
use inputs::device_or_fault;
use manifest::{Component, Identity, Manifest, ManifestError};
use std::alloc::{AllocError, Global};

/// A text that isn't a manifest for a device.
#[derive(Drop)]
pub struct RefusedManifest {
    /// The text.
    pub text: Vec<u8>,
    /// The identity of the device.
    pub identity: Identity,
    /// The lowest refusal that applies.
    pub fault: ManifestError,
}

/// Reads a device file and a manifest from `host`. Returns the contents of the manifest, or its text
/// and why it isn't one for the device.
///
/// Both files and their JSON values are in memory of `alloc`. The device file is checked before the
/// manifest is read. If its sizes make no map, it is returned.
pub fn inspect_manifest<H: Host>(
    alloc: Global,
    device: Source<'_>,
    file: Source<'_>,
    host: &mut H,
) -> Result<Inspection, Refusal>
    ensures { IfOk result (λ found. FindsManifest device.entry file.entry
        (H.input host.old) (H.file host.old) found) }
{
    match device_or_fault(alloc, device, host)? {
        Ok(of_device) => {
            let text = file.read(alloc, host, MOST_JSON)?;
            manifest_in(alloc, text, of_device.identity)
        }
        Err(refused) => Ok(Inspection::RefusedMap(refused)),
    }
}

/// Returns the contents of the manifest that `text` is for a device of this identity. If it isn't
/// such a manifest, returns it with the lowest refusal that applies. The JSON value is in memory of
/// `alloc`.
///
/// # Errors
/// `NoMemory` if memory runs out.
pub fn manifest_in(alloc: Global, text: Vec<u8>, identity: Identity) -> Result<Inspection, Refusal>
    ensures read { IfOk result (λ found. IsManifestRead identity text.items found) }
    ensures no_memory { IfErr result (λ refusal. refusal ≡ Refusal.NoMemory) }
{
    match Manifest::read(alloc, &text, &identity) {
        Ok(manifest) => Ok(Inspection::Manifest(manifest)),
        Err(fault) => refused(RefusedManifest {
            text,
            identity,
            fault,
        }),
    }
}

/// Returns what was found of a text that isn't a manifest. Lack of memory says nothing about the
/// text, so it is an error.
fn refused(manifest: RefusedManifest) -> Result<Inspection, Refusal>
    ensures refused { IfOk result (λ found. (manifest.fault ≢ ManifestError.NoMemory)
        × (found ≡ Inspection.RefusedManifest manifest)) }
    ensures no_memory { IfErr result (λ refusal. refusal ≡ Refusal.NoMemory) }
{
    match manifest.fault {
        ManifestError::NoMemory => Err(Refusal::NoMemory),
        _ => Ok(Inspection::RefusedManifest(manifest)),
    }
}

/// The text of a manifest's contents.
pub(crate) fn manifest_text(alloc: Global, manifest: &Manifest) -> Result<String, AllocError>
    ensures { IfOk result (λ text. string_bytes text ≡ manifest_text manifest.now) }
{
    let sequence = manifest.sequence;
    let mut text = format!(in alloc; "sequence {sequence}\n")?;
    for component in manifest.components.as_slice() {
        write_component(alloc, &mut text, component)?;
    }
    Ok(text)
}

/// Adds the line of a component to a text.
fn write_component(
    alloc: Global,
    text: &mut String,
    component: &Component,
) -> Result<(), AllocError>
    ensures { IfOk result (λ _. string_bytes text.new
        ≡ string_bytes text.old ++ (component_text component.now ++ 10 ∷ [])) }
{
    let image = component.image;
    let size = component.size;
    let kind = kind_text(component.permanent);
    let digest = hex::encode(alloc, component.digest.as_slice())?;
    let precursor = precursor_text(alloc, component.precursor)?;
    writeln!(text, "component {image} {size} {kind} {digest}{precursor}")
}

/// The word for the kind of a request.
pub(crate) fn kind_text(permanent: bool) -> &'static str
    ensures { result.now ≡ kind_text permanent }
{
    if permanent { "permanent" } else { "test" }
}

/// The end of a component's line: the digest of the image that has to run, if the component has
/// one.
fn precursor_text(alloc: Global, precursor: Option<[u8; 32]>) -> Result<String, AllocError>
    ensures { IfOk result (λ text. string_bytes text ≡ precursor_text precursor) }
{
    match precursor {
        None => Ok(String::new(alloc)),
        Some(digest) => {
            let digest = hex::encode(alloc, digest.as_slice())?;
            format!(in alloc; " precursor {digest}")
        }
    }
}

/// The line of the lowest refusal that applies: its number and its name.
pub(crate) fn refusal_text(alloc: Global, fault: ManifestError) -> Result<String, AllocError>
    ensures { IfOk result (λ text. string_bytes text ≡ refusal_text fault) }
{
    refused_text(alloc, fault.code(), fault.name())
}
