//! The identity of a device, as C passes it.

ghost use Rattle.std.specs.Prelude.{◌≡◌};
ghost use Rattle.manifest_interface.specs.Parsing.{identity_in};

use manifest::Identity;
use uuid::Uuid;

/// The identity of a device. A manifest must name its vendor, its class, and only its images.
#[repr(C)]
#[derive(Clone, Copy)]
pub struct IdentityRow {
    /// Its vendor: the 16 bytes of a UUID, in the order of its text (RFC 9562).
    pub vendor: [u8; 16],
    /// Its class of devices, a UUID too.
    pub class: [u8; 16],
    /// The number of its images.
    pub images: u8,
}

/// The identity of a row.
pub(crate) fn identity_in(row: &IdentityRow) -> Identity
    ensures { result ≡ identity_in row.now }
{
    Identity {
        vendor: Uuid::from_bytes(row.vendor),
        class: Uuid::from_bytes(row.class),
        images: row.images,
    }
}
