//! Reads the fields that entries hold: digest, security counter, dependencies and groups.

ghost use Rattle.std.specs.Prelude.{◌≡◌, ◌≢◌, ◌↔◌, ℕ, ◌∷◌, [], List, length, IsTrue, IfOk, IfErr, IfSome, IfNone, OnOk};
ghost use Rattle.flash_model.specs.Chip.{Chip};
ghost use Rattle.image_reading.specs.Checks.{FailsWith};
ghost use Rattle.image_reading.specs.Fields.{FitsDependency, IsDependencyForm, SpellCounter, counter_bytes, counter_check, dependency_bytes, digest_checks, need_checks};
ghost use Rattle.image_reading.specs.Gathered.{AreNeeds, CanReadOccurrence, HaveMetDependencies, HaveMetGroups, IsOccurrence};
ghost use Rattle.image_reading.specs.Span.{CanRead, bytes_of};
ghost use Rattle.image_reading.specs.declared.desc.Desc.{Desc};

use crate::error::ImageError;
use crate::format::{COUNTER_LENGTH, DEPENDENCY_LENGTH, DIGEST_LENGTH};
use crate::gathering::Occurrence;
use crate::medium::Medium;
use crate::met::{ItemFaults, Spelled};
use crate::span::Span;
use byteorder::{ByteOrder, LittleEndian};
use version_order::{Dependency, Version};

/// The span of the value of the only digest entry.
///
/// # Errors
/// `NoDigest` if there is none, `TwoDigests` if there are two or more.
pub(crate) fn digest_value(digest: Occurrence) -> Result<Span, ImageError>
    ensures ok { (chip : Chip) (values : List (List ℕ)) → IsOccurrence chip values [] digest
        → IfOk result (λ value. values ≡ bytes_of chip value ∷ []) }
    ensures readable { (chip : Chip) → CanReadOccurrence chip digest → IfOk result (CanRead chip) }
    // These two faults don't depend on the expected digest.
    ensures err { (chip : Chip) (values : List (List ℕ)) → IsOccurrence chip values [] digest
        → (hashed : List ℕ) → IfErr result (FailsWith (digest_checks values hashed)) }
{
    match digest {
        Occurrence::Absent => Err(ImageError::NoDigest),
        Occurrence::Once(value) => Ok(value),
        Occurrence::Repeated => Err(ImageError::TwoDigests),
    }
}

/// Whether a value is this digest.
pub(crate) fn is_digest<M: Medium>(medium: &mut M, value: Span, digest: &[u8; 32]) -> bool
    requires { CanRead (M.chip medium.old) value }
    ensures same { M.chip medium.new ≡ M.chip medium.old }
    ensures is { IsTrue result ↔ (bytes_of (M.chip medium.old) value ≡ digest.now) }
{
    if value.len != DIGEST_LENGTH {
        return false;
    }
    let mut own = [0; DIGEST_LENGTH];
    medium.read(value, &mut own);
    own == *digest
}

/// Reads the security counter; 0 if there is none.
///
/// # Errors
/// `BadCounter` if there are two or more, or if its value isn't four bytes long.
pub(crate) fn counter<M: Medium>(medium: &mut M, counter: Occurrence) -> Result<u32, ImageError>
    requires { CanReadOccurrence (M.chip medium.old) counter }
    ensures same { M.chip medium.new ≡ M.chip medium.old }
    ensures ok { (values : List (List ℕ)) → IsOccurrence (M.chip medium.old) values [] counter
        → IfOk result (SpellCounter values) }
    ensures err { (values : List (List ℕ)) → IsOccurrence (M.chip medium.old) values [] counter
        → IfErr result (FailsWith (counter_check values)) }
{
    match counter {
        Occurrence::Absent => Ok(0),
        Occurrence::Once(value) => counter_at(medium, value).ok_or(ImageError::BadCounter),
        Occurrence::Repeated => Err(ImageError::BadCounter),
    }
}

// The counter of a value, if the value has the length of one.
fn counter_at<M: Medium>(medium: &mut M, value: Span) -> Option<u32>
    requires { CanRead (M.chip medium.old) value }
    ensures same { M.chip medium.new ≡ M.chip medium.old }
    ensures spelled { IfSome result (λ counter.
        bytes_of (M.chip medium.old) value ≡ counter_bytes counter) }
    ensures none { IfNone result (length (bytes_of (M.chip medium.old) value) ≢ 4) }
{
    if value.len != COUNTER_LENGTH {
        return None;
    }
    let mut counter = [0; COUNTER_LENGTH];
    medium.read(value, &mut counter);
    Some(LittleEndian::read_u32(&counter))
}

impl Spelled for Dependency {
    ghost use Rattle.image_reading.specs.Gathered.{dependency_spelling};

    ghost spelling = { dependency_spelling };

    fn at<M: Medium>(medium: &mut M, value: Span) -> Option<Dependency> {
        if value.len != DEPENDENCY_LENGTH {
            return None;
        }
        let mut dependency = [0; DEPENDENCY_LENGTH];
        medium.read(value, &mut dependency);
        dependency_of(&dependency)
    }
}

// The dependency of twelve bytes, if they have the form of one.
fn dependency_of(value: &[u8]) -> Option<Dependency>
    requires { length value.now ≡ 12 }
    ensures fits { IfSome result FitsDependency }
    ensures spelled { IfSome result (λ dependency. value.now ≡ dependency_bytes dependency) }
    ensures none { IfNone result (IsDependencyForm value.now → ⊥) }
{
    if value[1] != 0 || value[2] != 0 || value[3] != 0 {
        return None;
    }
    let minimum = Version {
        major: value[4],
        minor: value[5],
        revision: LittleEndian::read_u16(&value[6..]),
        build: LittleEndian::read_u32(&value[8..]),
    };
    Some(Dependency {
        image: value[0],
        minimum,
    })
}

/// Checks the dependencies and the groups, after all entries were read.
///
/// # Errors
/// `BadDependency` if a value doesn't have its form. Otherwise `TooManyDependencies` if there are
/// more than [`MOST_DEPENDENCIES`](common::limits::MOST_DEPENDENCIES) dependencies. Otherwise
/// `TooManyGroups` if there are more than [`MOST_GROUPS`](common::limits::MOST_GROUPS) groups.
pub(crate) fn check_needs(dependencies: ItemFaults, groups: ItemFaults) -> Result<(), ImageError>
    ensures ok { (description : Desc) (values others : List (List ℕ))
        → HaveMetDependencies values [] description.dependencies.items dependencies
        → HaveMetGroups others [] description.groups.items groups
        → OnOk result (AreNeeds values others description) }
    ensures err { (description : Desc) (values others : List (List ℕ))
        → HaveMetDependencies values [] description.dependencies.items dependencies
        → HaveMetGroups others [] description.groups.items groups
        → IfErr result (FailsWith (need_checks values others)) }
{
    if dependencies.bad || groups.bad {
        return Err(ImageError::BadDependency);
    }
    if dependencies.too_many {
        return Err(ImageError::TooManyDependencies);
    }
    if groups.too_many {
        return Err(ImageError::TooManyGroups);
    }
    Ok(())
}
