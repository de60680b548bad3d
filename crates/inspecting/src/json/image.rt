//! Makes the JSON of an image's description.
ghost use Rattle.std.specs.Prelude.{◌≡◌, OnOk};
ghost use Rattle.serde_json.specs.View.{members_view};
ghost use Rattle.inspecting.specs.Json.{with_description};

use device_texts::json::{Object, put_each, put_number, put_text};
use image_reading::Desc;
use std::alloc::{AllocError, Global};

/// Adds the members of a description.
pub(crate) fn put_description(
    alloc: Global,
    object: &mut Object,
    description: &Desc,
) -> Result<(), AllocError>
    ensures { OnOk result (members_view object.new.entries
        ≡ with_description description.now (members_view object.old.entries)) }
{
    put_each(alloc, object, "needs_one", description.groups.as_slice())?;
    put_each(alloc, object, "needs", description.dependencies.as_slice())?;
    let digest = hex::encode(alloc, description.digest.as_slice())?;
    put_text(alloc, object, "digest", &digest)?;
    put_number(alloc, object, "counter", u64::from(description.counter))?;
    put_number(alloc, object, "length", description.length)?;
    let version = description.version;
    let version = format!(in alloc; "{version}")?;
    put_text(alloc, object, "version", &version)
}
