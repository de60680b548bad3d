//! Describes an image if it is intact.

ghost use Rattle.std.specs.Prelude.{◌≡◌, ℕ, List, [], Err, IfErr, IfOk, Ok, OnOk};
ghost use Rattle.sha2.specs.Sha256.{sha256};
ghost use Rattle.image_reading.specs.Checks.{FailsWith};
ghost use Rattle.image_reading.specs.Fault.{IsFirstFault, IsFrontFault};
ghost use Rattle.image_reading.specs.Fields.{SpellDigest, digest_checks};
ghost use Rattle.image_reading.specs.Gathered.{CanReadOccurrence, IsOccurrence};
ghost use Rattle.image_reading.specs.Image.{BeginsIntact, IsIntact};
ghost use Rattle.image_reading.specs.Span.{CanRead, bytes_of};
ghost use Rattle.image_reading.specs.declared.desc.Desc.{Desc};
ghost use Rattle.image_reading.specs.declared.error.ImageError.{ImageError};

use crate::desc::Desc;
use crate::error::ImageError;
use crate::fields::{check_needs, counter, digest_value, is_digest};
use crate::front::Front;
use crate::gathering::Occurrence;
use crate::medium::{Medium, Memory};
use crate::span::Span;

/// Describes the image that these bytes are. No bytes may follow it. Does not allocate.
///
/// # Errors
///
/// The first check that fails, in this order:
///
/// - The header.
/// - The protected area, and then the unprotected area.
/// - The digest.
/// - The forms of dependencies and groups.
/// - The number of dependencies, and then the number of groups.
/// - The security counter.
/// - No bytes follow the image.
///
/// `NoDigest`, `TwoDigests` and all later errors of this order require that the header and both
/// areas pass their checks.
///
/// # Examples
///
/// ```text
/// // `FIRST` is a file of 96 bytes: version 2.0.0+0, which needs image 1 at 2.0.0+0.
/// let description = describe(&FIRST)?;
/// assert!(rt; description.version.major == 2 && description.length == 96);
/// assert!(rt; description.dependencies.len() == 1 && description.dependencies[0].image == 1);
/// ```
pub fn describe(bytes: &[u8]) -> Result<Desc, ImageError>
    // The bytes are an intact image with this description.
    ensures described { IfOk result (IsIntact bytes.now) }
    // Each intact image is described.
    ensures only { (description : Desc) → IsIntact bytes.now description → result ≡ Ok description }
    // The error is the first check that fails.
    ensures fault { IfErr result (IsFirstFault bytes.now) }
    // The first check that fails is the error.
    ensures refused { (fault : ImageError) → IsFirstFault bytes.now fault → result ≡ Err fault }
{
    let whole = Span {
        at: 0,
        len: bytes.len(),
    };
    describe_whole(&mut Memory { bytes }, whole)
}

/// Describes the image that these bytes are. No bytes may follow it.
pub(crate) fn describe_whole<M: Medium>(medium: &mut M, bytes: Span) -> Result<Desc, ImageError>
    requires { CanRead (M.chip medium.old) bytes }
    ensures same { M.chip medium.new ≡ M.chip medium.old }
    ensures described { IfOk result (IsIntact (bytes_of (M.chip medium.old) bytes)) }
    ensures fault { IfErr result (IsFirstFault (bytes_of (M.chip medium.old) bytes)) }
{
    let mut description = Desc::default();
    describe_whole_into(medium, bytes, &mut description)?;
    Ok(description)
}

/// Describes the image that these bytes are, in a place of the caller. No bytes may follow it.
pub(crate) fn describe_whole_into<M: Medium>(
    medium: &mut M,
    bytes: Span,
    description: &mut Desc,
) -> Result<(), ImageError>
    requires { CanRead (M.chip medium.old) bytes }
    ensures same { M.chip medium.new ≡ M.chip medium.old }
    ensures described { OnOk result
        (IsIntact (bytes_of (M.chip medium.old) bytes) description.new) }
    ensures fault { IfErr result (IsFirstFault (bytes_of (M.chip medium.old) bytes)) }
{
    describe_front_into(medium, bytes, description)?;
    if description.length < bytes.len as u64 {
        return Err(ImageError::TrailingBytes);
    }
    Ok(())
}

/// Describes the image at the beginning of these bytes, whatever follows it.
pub(crate) fn describe_front<M: Medium>(medium: &mut M, bytes: Span) -> Result<Desc, ImageError>
    requires { CanRead (M.chip medium.old) bytes }
    ensures same { M.chip medium.new ≡ M.chip medium.old }
    ensures described { IfOk result (BeginsIntact (bytes_of (M.chip medium.old) bytes)) }
    ensures fault { IfErr result (IsFrontFault (bytes_of (M.chip medium.old) bytes)) }
{
    let mut description = Desc::default();
    describe_front_into(medium, bytes, &mut description)?;
    Ok(description)
}

/// Describes the image at the beginning of these bytes, whatever follows it, in a place of the
/// caller.
pub(crate) fn describe_front_into<M: Medium>(
    medium: &mut M,
    bytes: Span,
    description: &mut Desc,
) -> Result<(), ImageError>
    requires { CanRead (M.chip medium.old) bytes }
    ensures same { M.chip medium.new ≡ M.chip medium.old }
    ensures described { OnOk result
        (BeginsIntact (bytes_of (M.chip medium.old) bytes) description.new) }
    ensures fault { IfErr result (IsFrontFault (bytes_of (M.chip medium.old) bytes)) }
{
    let front = Front::read(medium, bytes, description)?;
    description.digest = own_digest(medium, front.hashed, front.unprotected.digest)?;
    check_needs(front.protected.dependencies, front.protected.groups)?;
    description.counter = counter(medium, front.protected.counter)?;
    description.version = front.header.version;
    description.flags = front.header.flags;
    description.length = front.length as u64;
    Ok(())
}

// The SHA-256 of the hashed bytes, if the only digest entry holds it.
fn own_digest<M: Medium>(
    medium: &mut M,
    hashed: Span,
    entry: Occurrence,
) -> Result<[u8; 32], ImageError>
    requires hashed { CanRead (M.chip medium.old) hashed }
    requires entry { CanReadOccurrence (M.chip medium.old) entry }
    ensures same { M.chip medium.new ≡ M.chip medium.old }
    ensures own { IfOk result (λ digest. digest ≡ sha256 (bytes_of (M.chip medium.old) hashed)) }
    ensures entry { (values : List (List ℕ)) → IsOccurrence (M.chip medium.old) values [] entry
        → OnOk result (SpellDigest values (bytes_of (M.chip medium.old) hashed)) }
    ensures fault { (values : List (List ℕ)) → IsOccurrence (M.chip medium.old) values [] entry
        → IfErr result (FailsWith (digest_checks values (bytes_of (M.chip medium.old) hashed))) }
{
    let value = digest_value(entry)?;
    let digest = medium.digest(hashed);
    if !is_digest(medium, value, &digest) {
        return Err(ImageError::BadDigest);
    }
    Ok(digest)
}
