//! The call that reads the text of a manifest, as C makes it.

ghost use Rattle.std.specs.Prelude.{◌≡◌, ◌⊎◌};
ghost use Rattle.manifest.specs.Codes.{code_of};
ghost use Rattle.manifest.specs.Fault.{IsManifest, IsRefusal};
ghost use Rattle.manifest.specs.declared.error.ManifestError.{ManifestError};
ghost use Rattle.manifest.specs.declared.error.ManifestError.TheVariants.{NoMemory};
ghost use Rattle.manifest.specs.declared.manifest.Manifest.{Manifest};
ghost use Rattle.manifest.specs.Rows.{IsRowOf};
ghost use Rattle.manifest_interface.specs.Parsing.{Parses, identity_in};

use crate::identity::{IdentityRow, identity_in};
use manifest::{Manifest, ManifestRow, manifest_row};
use std::alloc::Global;

/// The text is read.
const DONE: u32 = 0;

/// Reads the JSON text of a manifest for a device of this identity, as `Manifest::read` does. The
/// text may have any length. Entries after the last component are all zero. C passes nothing for
/// `alloc`: it defines `rattle_alloc`, `rattle_realloc` and `rattle_dealloc`.
///
/// Returns 0, and `manifest` is the manifest of the text. Or the number of the refusal, 1 to 8, and
/// `manifest` is unchanged: the lowest one that applies to the text, or 8 if an allocation failed.
#[unsafe(no_mangle)]
pub extern "C" fn bootswap_parse_manifest(
    alloc: Global,
    identity: &IdentityRow,
    text: &[u8],
    manifest: &mut ManifestRow,
) -> u32
    ensures all { Parses identity.now text.now manifest.old manifest.new result }

    // What the text means decides, unless an allocation fails.
    ensures read { (meant : Manifest) → IsManifest (identity_in identity.now) text.now meant
        → ((result ≡ 0) × IsRowOf meant manifest.new) ⊎ (result ≡ code_of NoMemory) }
    ensures refused { (fault : ManifestError) → IsRefusal (identity_in identity.now) text.now fault
        → (result ≡ code_of fault) ⊎ (result ≡ code_of NoMemory) }
{
    match Manifest::read(alloc, text, &identity_in(identity)) {
        Ok(meant) => {
            *manifest = manifest_row(&meant);
            DONE
        }
        Err(error) => u32::from(error.code()),
    }
}
