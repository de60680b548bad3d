//! An image that is made from its values, in the caller's buffer.

ghost use Rattle.std.specs.Prelude.{◌≡◌, ◌^◌, ◌≤◌, IfSome, List, None, length, map, take};
ghost use Rattle.std.specs.List.{AllByRecursion};
ghost use Rattle.image_reading.specs.Fields.{FitsDependency, FitsGroup};
ghost use Rattle.tlv.specs.Making.{groups_of};
ghost use Rattle.c_interface.specs.Making.{AnswersMaking, HasDependencies, HasFewAlternatives};
ghost use Rattle.c_interface.specs.Making.{HasGroups, counter_in, dependency_in, group_in};
ghost use Rattle.c_interface.specs.Making.{version_in};
ghost use Rattle.version_order.specs.declared.dependency.Dependency.{Dependency};
ghost use Rattle.version_order.specs.declared.group.Group.{Group};

use crate::call_result::{DependencyRow, VersionRow};
use crate::description::GroupRow;
use crate::numbers::{BAD_IMAGE, DONE, TOO_SMALL};
use arrayvec::ArrayVec;
use common::limits::{MOST_DEPENDENCIES, MOST_GROUPS};
use tlv::{ImageSpec, write_image};
use version_order::{Dependency, Group, Version};

/// The values of an image that is made, besides its body.
#[repr(C)]
#[derive(Clone, Copy)]
pub struct ImageParts {
    /// The address to which the image is to be loaded (`ih_load_addr`).
    pub load_address: u32,
    /// The length of the header in bytes, with the zero bytes after its fields, at least 32
    /// (`ih_hdr_size`).
    pub header_size: u16,
    /// Not 0 if the image has the security counter `counter`.
    pub has_counter: u8,
    /// Ignored.
    pub unused: u8,
    /// The flags of its header (`ih_flags`): of 0x1, 0x10 and 0x100.
    pub flags: u32,
    /// The version (`ih_ver`).
    pub version: VersionRow,
    /// The security counter (`IMAGE_TLV_SEC_CNT`).
    pub counter: u32,
    /// The number of its dependencies, 0 to 16.
    pub dependencies_count: u32,
    /// The number of its groups, 0 to 4.
    pub groups_count: u32,
    /// Its dependencies (`IMAGE_TLV_DEPENDENCY`), in the order of its entries. Entries after the
    /// last one are ignored.
    pub dependencies: [DependencyRow; MOST_DEPENDENCIES],
    /// Its groups, each with 1 to 4 alternatives. Entries after the last one are ignored.
    pub groups: [GroupRow; MOST_GROUPS],
}

/// The version of a row.
fn version_in(row: &VersionRow) -> Version
    ensures { result ≡ version_in row.now }
{
    Version {
        major: row.major,
        minor: row.minor,
        revision: row.revision,
        build: row.build,
    }
}

/// The dependency of a row, if an image can have its number.
fn dependency_in(row: &DependencyRow) -> Option<Dependency>
    ensures some { IfSome result (λ dependency. dependency ≡ dependency_in row.now) }
    ensures none { result ≡ None → 2 ^ 8 ≤ row.now.image }
{
    if row.image > u32::from(u8::MAX) {
        return None;
    }
    Some(Dependency {
        image: row.image as u8,
        minimum: version_in(&row.minimum),
    })
}

/// The dependencies of rows, if images can have their numbers.
fn dependencies_in<const N: usize>(rows: &[DependencyRow]) -> Option<ArrayVec<Dependency, N>>
    requires { length rows.now ≤ N }
    ensures some { IfSome result (λ dependencies. dependencies.items ≡ map dependency_in rows.now) }
    ensures none { result ≡ None → AllByRecursion FitsDependency (map dependency_in rows.now) → ⊥ }
{
    let mut dependencies = ArrayVec::new();
    for row in rows {
        dependencies.push(dependency_in(row)?);
    }
    Some(dependencies)
}

/// The group of a row, unless it has too many alternatives, or one for a number of no image.
fn group_in(row: &GroupRow) -> Option<Group>
    ensures few { IfSome result (λ _. HasFewAlternatives row.now) }
    ensures some { IfSome result (λ group. group ≡ group_in row.now) }
    ensures none { result ≡ None → HasFewAlternatives row.now → FitsGroup (group_in row.now) → ⊥ }
{
    Some(Group {
        alternatives: dependencies_in(row.alternatives.get(..row.count as usize)?)?,
    })
}

/// The groups of rows, unless one is no group.
fn groups_in(rows: &[GroupRow]) -> Option<ArrayVec<Group, MOST_GROUPS>>
    requires { length rows.now ≤ MOST_GROUPS }
    ensures few { IfSome result (λ _. AllByRecursion HasFewAlternatives rows.now) }
    ensures some { IfSome result (λ groups. groups.items ≡ map group_in rows.now) }
    ensures none { result ≡ None → AllByRecursion HasFewAlternatives rows.now
        → AllByRecursion FitsGroup (map group_in rows.now) → ⊥ }
{
    let mut groups = ArrayVec::new();
    for row in rows {
        groups.push(group_in(row)?);
    }
    Some(groups)
}

/// The dependencies of the parts of an image, unless these are too many, or one can be of no image.
fn dependencies_of(parts: &ImageParts) -> Option<ArrayVec<Dependency, MOST_DEPENDENCIES>>
    ensures some { IfSome result (λ dependencies. HasDependencies parts.now dependencies.items) }
    ensures none { result ≡ None → (dependencies : List Dependency)
        → HasDependencies parts.now dependencies
        → AllByRecursion FitsDependency dependencies → ⊥ }
{
    dependencies_in(parts.dependencies.get(..parts.dependencies_count as usize)?)
}

/// The groups of the parts of an image, unless these are too many, or one is no group.
fn groups_of(parts: &ImageParts) -> Option<ArrayVec<Group, MOST_GROUPS>>
    ensures some { IfSome result (λ groups. HasGroups parts.now groups.items) }
    ensures none { result ≡ None → (groups : List Group) → HasGroups parts.now groups
        → AllByRecursion FitsGroup groups → ⊥ }
{
    groups_in(parts.groups.get(..parts.groups_count as usize)?)
}

/// The security counter of the parts of an image, if it has one.
fn counter_in(parts: &ImageParts) -> Option<u32>
    ensures { result ≡ counter_in parts.now }
{
    if parts.has_counter == 0 {
        None
    } else {
        Some(parts.counter)
    }
}

/// The alternatives of each of these groups, as slices.
fn slices_of(groups: &[Group]) -> [&[Dependency]; MOST_GROUPS]
    requires { length groups.now ≤ MOST_GROUPS }
    ensures { groups_of (take (length groups.now) result) ≡ groups.now }
{
    let mut slices: [&[Dependency]; MOST_GROUPS] = [&[]; MOST_GROUPS];
    for i in 0..groups.len() {
        slices[i] = groups[i].alternatives.as_slice();
    }
    slices
}

/// Writes the image of the parts, with these dependencies and groups, to the front of a buffer.
fn write_parts(
    parts: &ImageParts,
    dependencies: &[Dependency],
    groups: &[Group],
    body: &[u8],
    image: &mut [u8],
    length: &mut u64,
) -> u32
    requires dependencies { HasDependencies parts.now dependencies.now }
    requires groups { HasGroups parts.now groups.now }
    ensures { AnswersMaking parts.now body.now image.old image.new length.new result }
{
    let slices = slices_of(groups);
    let spec = ImageSpec {
        load_address: parts.load_address,
        header_size: parts.header_size,
        flags: parts.flags,
        version: version_in(&parts.version),
        counter: counter_in(parts),
        dependencies,
        groups: &slices[..groups.len()],
        body,
    };
    match write_image(&spec, image) {
        Ok(whole) => {
            *length = whole as u64;
            if whole > image.len() { TOO_SMALL } else { DONE }
        }
        Err(_) => {
            *length = 0;
            BAD_IMAGE
        }
    }
}

/// Makes the image of a body and the values of its parts, as `bootswap make-image` makes it, and
/// writes it to the front of `image`.
///
/// Returns 0, and in `length` the length of the image in bytes; `BAD_IMAGE` if no image has these
/// values: then `length` is 0; or `TOO_SMALL`, only if the image has more bytes than the buffer: then
/// `length` is its length. The buffer changes only if the result is 0.
#[unsafe(no_mangle)]
pub extern "C" fn bootswap_make_image(
    parts: &ImageParts,
    body: &[u8],
    image: &mut [u8],
    length: &mut u64,
) -> u32
    ensures { AnswersMaking parts.now body.now image.old image.new length.new result }
{
    *length = 0;
    let Some(dependencies) = dependencies_of(parts) else {
        return BAD_IMAGE;
    };
    let Some(groups) = groups_of(parts) else {
        return BAD_IMAGE;
    };
    write_parts(
        parts,
        dependencies.as_slice(),
        groups.as_slice(),
        body,
        image,
        length,
    )
}
