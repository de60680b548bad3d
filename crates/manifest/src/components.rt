//! Reads the components of a manifest.

ghost use Rattle.std.specs.Prelude.{◌≡◌, ◌≢◌, ◌↔◌, ℕ, ◌^◌, ◌<◌, ◌≤◌, All, AllPairs, Any, Bool, IfNone, IfSome, IsTrue, List, Option, Some, codes, length, map};
ghost use Rattle.std.specs.List.{AllByRecursion, AllZip};
ghost use Rattle.serde_json.specs.View.{view};
ghost use Rattle.manifest.specs.Json.{number_at, text_at};
ghost use Rattle.manifest.specs.Component.{HasComponentKeys, IsComponent, IsPrecursor, kind_text};
ghost use Rattle.manifest.specs.declared.manifest.Component.{Component};

use crate::json::{digest, has_names, number, text};
use crate::manifest::{Component, MOST_COMPONENTS};
use arrayvec::ArrayVec;
use serde_json::Value;

/// The required keys of a component, in the order of their bytes.
const KEYS: [&str; 4] = ["component-id", "kind", "payload-digest", "size"];

/// The keys of a component with the optional key.
const KEYS_WITH_PRECURSOR: [&str; 5] = [
    "component-id",
    "kind",
    "payload-digest",
    "precursor-digest",
    "size",
];

/// Whether a value has exactly the keys of a component. A value that isn't an object passes.
fn has_component_keys(value: &Value) -> bool
    ensures { IsTrue result ↔ HasComponentKeys (view value.now) }
{
    !value.is_object()
        || has_names(value, KEYS.as_slice())
        || has_names(value, KEYS_WITH_PRECURSOR.as_slice())
}

/// Whether each object among these values has exactly the keys of a component.
pub(crate) fn have_component_keys(values: &[Value]) -> bool
    ensures { IsTrue result ↔ AllByRecursion HasComponentKeys (map view values.now) }
{
    values.iter().all(has_component_keys)
}

/// Reads the number of the image, 0 to 255.
fn image(value: &Value) -> Option<u8>
    ensures found { IfSome result
        (λ image. number_at (codes "component-id") (view value.now) ≡ Some image) }
    ensures other { IfNone result ((image : ℕ) → image < 2 ^ 8
        → number_at (codes "component-id") (view value.now) ≢ Some image) }
{
    u8::try_from(number(value, "component-id")?).ok()
}

/// Reads whether the request is permanent.
fn permanent(value: &Value) -> Option<bool>
    ensures found { IfSome result
        (λ permanent. text_at (codes "kind") (view value.now) ≡ Some (kind_text permanent)) }
    ensures other { IfNone result ((permanent : Bool)
        → text_at (codes "kind") (view value.now) ≢ Some (kind_text permanent)) }
{
    match text(value, "kind")? {
        "permanent" => Some(true),
        "test" => Some(false),
        _ => None,
    }
}

/// Reads the digest of the required running image. The inner option is `None` if the value names no
/// such image.
fn precursor(value: &Value) -> Option<Option<[u8; 32]>>
    ensures found { IfSome result (IsPrecursor (view value.now)) }
    ensures other { IfNone result ((named : Option (List ℕ)) → IsPrecursor (view value.now) named
        → ⊥) }
{
    match value.get("precursor-digest") {
        Some(_) => Some(Some(digest(value, "precursor-digest")?)),
        None => Some(None),
    }
}

/// Reads the component of a value.
fn component(value: &Value) -> Option<Component>
    ensures found { IfSome result (IsComponent (view value.now)) }
    ensures other { IfNone result ((component : Component) → IsComponent (view value.now) component
        → ⊥) }
{
    Some(Component {
        image: image(value)?,
        permanent: permanent(value)?,
        size: number(value, "size")?,
        digest: digest(value, "payload-digest")?,
        precursor: precursor(value)?,
    })
}

/// Whether a manifest may have this many components.
fn are_few(values: &[Value]) -> bool
    ensures { IsTrue result ↔ (length values.now ≤ MOST_COMPONENTS) }
{
    values.len() <= MOST_COMPONENTS
}

/// Reads the components of values, at most [`MOST_COMPONENTS`].
pub(crate) fn components(values: &[Value]) -> Option<ArrayVec<Component, MOST_COMPONENTS>>
    ensures found { IfSome result
        (λ components. AllZip IsComponent (map view values.now) components.items) }
    ensures other { IfNone result ((components : List Component)
        → AllZip IsComponent (map view values.now) components
        → length components ≤ MOST_COMPONENTS → ⊥) }
{
    if !are_few(values) {
        return None;
    }
    let mut components = ArrayVec::new();
    for value in values {
        components.push(component(value)?);
    }
    Some(components)
}

/// Whether a component is for the image.
fn is_named(components: &[Component], image: u8) -> bool
    ensures { IsTrue result ↔ Any (λ component. component.image ≡ image) components.now }
{
    components.iter().any(|component| component.image == image)
}

/// Whether no two components are for the same image.
pub(crate) fn name_each_once(components: &[Component]) -> bool
    ensures { IsTrue result ↔ AllPairs (λ one other. one.image ≢ other.image) components.now }
{
    for (place, component) in components.iter().enumerate() {
        if is_named(&components[..place], component.image) {
            return false;
        }
    }
    true
}

/// Whether each component is for an image below this one.
pub(crate) fn name_images_below(components: &[Component], images: u8) -> bool
    ensures { IsTrue result ↔ All (λ component. component.image < images) components.now }
{
    components.iter().all(|component| component.image < images)
}
