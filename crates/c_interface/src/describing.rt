//! The description and the digest of an image's bytes.

ghost use Rattle.std.specs.Prelude.{◌≡◌};
ghost use Rattle.sha2.specs.Sha256.{sha256};
ghost use Rattle.c_interface.specs.Description.{AnswersDescription};

use crate::description::{Description, NO_DESCRIPTION, description_of};
use crate::numbers::DONE;
use image_reading::describe;
use sha2::{Digest as _, Sha256};

/// The SHA-256 of some bytes.
#[repr(C)]
#[derive(Clone, Copy)]
pub struct Digest {
    /// The 32 bytes, in the order of FIPS 180-4.
    pub bytes: [u8; 32],
}

/// Describes the image that the bytes are, from the first to the last.
///
/// Returns 0 if they are an intact image, else the number of the first check that fails, 1 to 15.
/// The description is all zero then.
#[unsafe(no_mangle)]
pub extern "C" fn bootswap_describe(bytes: &[u8], description: &mut Description) -> u32
    ensures { AnswersDescription bytes.now description.new result }
{
    match describe(bytes) {
        Ok(found) => {
            *description = description_of(&found);
            DONE
        }
        Err(fault) => {
            *description = NO_DESCRIPTION;
            u32::from(fault.code())
        }
    }
}

/// The SHA-256 of bytes (FIPS 180-4), by which a manifest names a file.
#[unsafe(no_mangle)]
pub extern "C" fn bootswap_digest(bytes: &[u8], digest: &mut Digest)
    ensures { digest.new.bytes ≡ sha256 bytes.now }
{
    let mut hasher = Sha256::new();
    hasher.update(bytes);
    digest.bytes = hasher.finalize();
}
