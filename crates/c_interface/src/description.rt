//! The description of an image, as C has it.

ghost use Rattle.std.specs.Prelude.{◌≡◌, ◌≤◌, length};
ghost use Rattle.c_interface.specs.Description.{AreGroupRows, IsGroupRow, Describes};

use crate::call_result::{
    DependencyRow, NO_DEPENDENCY, NO_VERSION, VersionRow, dependency_rows, version_row,
};
use common::limits::{MOST_ALTERNATIVES, MOST_DEPENDENCIES, MOST_GROUPS};
use image_reading::Desc;
use version_order::Group;

/// A group of alternatives, at least one of which has to be met.
#[repr(C)]
#[derive(Clone, Copy)]
pub struct GroupRow {
    /// The number of alternatives, 1 to 4.
    pub count: u32,
    /// The alternatives.
    pub alternatives: [DependencyRow; MOST_ALTERNATIVES],
}

/// The description of an image.
#[repr(C)]
#[derive(Clone, Copy)]
pub struct Description {
    /// Its length in bytes, from the header to the end of the unprotected area.
    pub length: u64,
    /// The version (`ih_ver`).
    pub version: VersionRow,
    /// The security counter (`IMAGE_TLV_SEC_CNT`), 0 if the image has none.
    pub counter: u32,
    /// The flags of its header (`ih_flags`).
    pub flags: u32,
    /// The number of its dependencies, 0 to 16.
    pub dependencies_count: u32,
    /// The number of its groups, 0 to 4.
    pub groups_count: u32,
    /// Its dependencies (`IMAGE_TLV_DEPENDENCY`), in the order of its entries.
    pub dependencies: [DependencyRow; MOST_DEPENDENCIES],
    /// Its groups.
    pub groups: [GroupRow; MOST_GROUPS],
    /// The SHA-256 of its header, body and protected area (`IMAGE_TLV_SHA256`).
    pub digest: [u8; 32],
}

/// No group.
const NO_GROUP: GroupRow = GroupRow {
    count: 0,
    alternatives: [NO_DEPENDENCY; MOST_ALTERNATIVES],
};

/// The description if there is no intact image.
pub(crate) const NO_DESCRIPTION: Description = Description {
    length: 0,
    version: NO_VERSION,
    counter: 0,
    flags: 0,
    dependencies_count: 0,
    groups_count: 0,
    dependencies: [NO_DEPENDENCY; MOST_DEPENDENCIES],
    groups: [NO_GROUP; MOST_GROUPS],
    digest: [0; 32],
};

/// A group as C has it.
fn group_row(group: &Group) -> GroupRow
    ensures { IsGroupRow group.now result }
{
    GroupRow {
        count: group.alternatives.len() as u32,
        alternatives: dependency_rows(group.alternatives.as_slice()),
    }
}

/// Groups as C has them.
fn group_rows(groups: &[Group]) -> [GroupRow; MOST_GROUPS]
    requires { length groups.now ≤ MOST_GROUPS }
    ensures { AreGroupRows groups.now result }
{
    let mut rows = [NO_GROUP; MOST_GROUPS];
    for i in 0..groups.len() {
        rows[i] = group_row(&groups[i]);
    }
    rows
}

/// A description as C has it.
pub(crate) fn description_of(description: &Desc) -> Description
    ensures { Describes description.now result }
{
    Description {
        length: description.length,
        version: version_row(description.version),
        counter: description.counter,
        flags: description.flags,
        dependencies_count: description.dependencies.len() as u32,
        groups_count: description.groups.len() as u32,
        dependencies: dependency_rows(description.dependencies.as_slice()),
        groups: group_rows(description.groups.as_slice()),
        digest: description.digest,
    }
}
