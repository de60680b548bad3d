//! Reads a manifest.

ghost use Rattle.std.specs.Prelude.{◌≡◌, ◌≢◌, ◌⊎◌, ◌↔◌, ◌<◌, IfErr, IfNone, IfOk, IfSome, IsErrOf, IsTrue, length};
ghost use Rattle.serde_json.specs.View.{view};
ghost use Rattle.manifest.specs.Fault.{IsLowestFault, IsManifest, IsRefusal, MeetsClass};
ghost use Rattle.manifest.specs.Manifest.{HasKeys, Means, Spells};
ghost use Rattle.manifest.specs.declared.error.ManifestError.{ManifestError};
ghost use Rattle.manifest.specs.declared.manifest.Manifest.{Manifest};

use crate::components::{components, have_component_keys, name_each_once, name_images_below};
use crate::error::ManifestError;
use crate::identity::Identity;
use crate::json::{array, has_names, json_of, number, uuid};
use crate::manifest::Manifest;
use serde_json::Value;
use std::alloc::Global;

/// The keys of a manifest, in the order of their bytes.
const KEYS: [&str; 5] = [
    "class-id",
    "components",
    "manifest-version",
    "sequence-number",
    "vendor-id",
];

/// The version of the manifest's format.
const VERSION: u32 = 1;

/// Whether the objects of a manifest have exactly their keys.
fn has_keys(value: &Value) -> bool
    ensures { IsTrue result ↔ HasKeys (view value.now) }
{
    has_names(value, KEYS.as_slice())
        && match array(value, "components") {
            Some(values) => have_component_keys(values.as_slice()),
            None => true,
        }
}

/// Reads the manifest of a value, for any device.
fn spelled(value: &Value) -> Option<Manifest>
    ensures found { IfSome result (Spells (view value.now)) }
    ensures other { IfNone result ((manifest : Manifest) → Spells (view value.now) manifest → ⊥) }
{
    if number(value, "manifest-version")? != VERSION {
        return None;
    }
    let sequence = number(value, "sequence-number")?;
    if uuid(value, "vendor-id").is_none() || uuid(value, "class-id").is_none() {
        return None;
    }
    let components = components(array(value, "components")?.as_slice())?;
    if components.is_empty() {
        return None;
    }
    Some(Manifest {
        sequence,
        components,
    })
}

/// Reads the manifest of a value that names the vendor and the class of a device.
fn addressed(value: &Value, identity: &Identity) -> Result<Manifest, ManifestError>
    ensures meets { IfOk result (MeetsClass identity.now (view value.now)) }
    ensures fault { IfErr result (IsLowestFault identity.now (view value.now)) }
{
    if !has_keys(value) {
        return Err(ManifestError::BadKey);
    }
    let manifest = spelled(value).ok_or(ManifestError::BadValue)?;
    if uuid(value, "vendor-id") != Some(identity.vendor) {
        return Err(ManifestError::WrongVendor);
    }
    if uuid(value, "class-id") != Some(identity.class) {
        return Err(ManifestError::WrongClass);
    }
    Ok(manifest)
}

/// Reads the manifest of a value, for a device of this identity.
fn meant(value: &Value, identity: &Identity) -> Result<Manifest, ManifestError>
    ensures means { IfOk result (Means identity.now (view value.now)) }
    ensures fault { IfErr result (IsLowestFault identity.now (view value.now)) }
{
    let manifest = addressed(value, identity)?;
    if !name_images_below(manifest.components.as_slice(), identity.images) {
        return Err(ManifestError::NoComponent);
    }
    if !name_each_once(manifest.components.as_slice()) {
        return Err(ManifestError::RepeatedComponent);
    }
    Ok(manifest)
}

impl Manifest {
    /// Reads the manifest of a file, for a device of this identity.
    ///
    /// `bytes` are the complete file, of any length: a JSON text (RFC 8259) of one object with
    /// exactly the keys of a manifest, which docs/FORMATS.md lists. `identity` is the identity of
    /// the device. `alloc` holds the JSON value during the read. The result doesn't allocate.
    ///
    /// # Errors
    /// The lowest refusal that applies to the value of the text, in whatever order the checks are
    /// made:
    ///
    /// - 1 if the bytes aren't a JSON text.
    /// - 2 or 3 if the value isn't that of a manifest.
    /// - 4 to 7 if the value is a manifest that isn't for this device.
    ///
    /// `NoMemory` if an allocation fails during the read of the text, and only then.
    ///
    /// # Examples
    ///
    /// ```text
    /// // `PAIR` is the text of a manifest with sequence number 1 and two files of 96 bytes.
    /// let vendor = vendor_id("python.org");
    /// let device = Identity {
    ///     vendor,
    ///     class: class_id(vendor, "bootswap"),
    ///     images: 2,
    /// };
    /// let manifest = Manifest::read(rt.alloc(), PAIR, &device)?;
    /// assert!(rt; manifest.sequence == 1 && manifest.components.len() == 2);
    /// assert!(rt; manifest.components[0].size == 96);
    /// ```
    pub fn read(alloc: Global, bytes: &[u8], identity: &Identity) -> Result<Manifest, ManifestError>
        ensures means { IfOk result (IsManifest identity.now bytes.now) }
        ensures read { (manifest : Manifest) → IsManifest identity.now bytes.now manifest
            → (result ≡ Ok manifest) ⊎ (result ≡ Err ManifestError.NoMemory) }

        // The lowest refusal that applies is the error. The only other error is `NoMemory`.
        ensures refused { (fault : ManifestError) → IsRefusal identity.now bytes.now fault
            → (result ≡ Err fault) ⊎ (result ≡ Err ManifestError.NoMemory) }
        ensures only { IfErr result (λ error. (error ≢ ManifestError.NoMemory)
            → IsRefusal identity.now bytes.now error) }
        ensures memory { IsErrOf result ManifestError.NoMemory → 0 < length bytes.now }
    {
        let value = json_of(alloc, bytes)?;
        meant(&value, identity)
    }
}
