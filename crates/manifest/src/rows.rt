//! Manifests as the libraries for C pass them.

ghost use Rattle.std.specs.Prelude.{◌≡◌, ◌<◌, ◌≤◌, IfSome, None, length, map};
ghost use Rattle.common.specs.Limits.{MOST_COMPONENTS};
ghost use Rattle.manifest.specs.Rows.{IsManifestOf, IsRowOf, component_in, component_row};

use crate::manifest::{Component, MOST_COMPONENTS, Manifest};
use arrayvec::ArrayVec;

/// One image that may be uploaded.
#[repr(C)]
#[derive(Clone, Copy)]
pub struct ComponentRow {
    /// The length of the file in bytes.
    pub size: u32,
    /// The number of the image, counted from 0.
    pub image: u8,
    /// 0 if the image is requested for a test, else it is requested permanently.
    pub is_permanent: u8,
    /// Not 0 if the file is only for a device that runs the image `precursor`.
    pub has_precursor: u8,
    /// Ignored.
    pub unused: u8,
    /// The SHA-256 of the file (FIPS 180-4).
    pub digest: [u8; 32],
    /// The digest of the image that has to run.
    pub precursor: [u8; 32],
}

/// A manifest: the images that may be uploaded.
#[repr(C)]
#[derive(Clone, Copy)]
pub struct ManifestRow {
    /// Rises from manifest to manifest.
    pub sequence: u32,
    /// The number of components, 1 to 8.
    pub count: u32,
    /// The components. Entries after the last one are ignored.
    pub components: [ComponentRow; MOST_COMPONENTS],
}

/// No component: all zero.
const NO_COMPONENT: ComponentRow = ComponentRow {
    size: 0,
    image: 0,
    is_permanent: 0,
    has_precursor: 0,
    unused: 0,
    digest: [0; 32],
    precursor: [0; 32],
};

/// A component of a row.
fn component_in(row: &ComponentRow) -> Component
    ensures { result ≡ component_in row.now }
{
    let precursor = if row.has_precursor == 0 {
        None
    } else {
        Some(row.precursor)
    };
    Component {
        image: row.image,
        permanent: row.is_permanent != 0,
        size: row.size,
        digest: row.digest,
        precursor,
    }
}

/// The components of rows.
fn components_in(rows: &[ComponentRow]) -> ArrayVec<Component, MOST_COMPONENTS>
    requires { length rows.now ≤ MOST_COMPONENTS }
    ensures { result.items ≡ map component_in rows.now }
{
    let mut components = ArrayVec::new();
    for row in rows {
        components.push(component_in(row));
    }
    components
}

/// Returns the manifest of a row, or `None` if it has more than 8 components. Does not allocate.
pub fn manifest_in(row: &ManifestRow) -> Option<Manifest>
    ensures some { IfSome result (IsManifestOf row.now) }
    ensures none { result ≡ None → MOST_COMPONENTS < row.now.count }
{
    let count = row.count as usize;
    if count > MOST_COMPONENTS {
        return None;
    }
    Some(Manifest {
        sequence: row.sequence,
        components: components_in(&row.components[..count]),
    })
}

/// The row of a component.
fn component_row(component: &Component) -> ComponentRow
    ensures { result ≡ component_row component.now }
{
    ComponentRow {
        size: component.size,
        image: component.image,
        is_permanent: u8::from(component.permanent),
        has_precursor: u8::from(component.precursor.is_some()),
        unused: 0,
        digest: component.digest,
        precursor: component.precursor.unwrap_or([0; 32]),
    }
}

/// Returns the row of a manifest. Entries after the last component are all zero. Does not allocate.
pub fn manifest_row(manifest: &Manifest) -> ManifestRow
    ensures row { IsRowOf manifest.now result }
    ensures read_back { IsManifestOf result manifest.now }
{
    let given = manifest.components.as_slice();
    let mut components = [NO_COMPONENT; MOST_COMPONENTS];
    for i in 0..given.len() {
        components[i] = component_row(&given[i]);
    }
    ManifestRow {
        sequence: manifest.sequence,
        count: given.len() as u32,
        components,
    }
}
