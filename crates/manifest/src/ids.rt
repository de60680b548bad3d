//! Computes the identifiers of vendors and of classes of devices.

ghost use Rattle.std.specs.Prelude.{◌≡◌};
ghost use Rattle.uuid.specs.Uuid.{namespace_dns};
ghost use Rattle.manifest.specs.Ids.{uuid_of};

use uuid::Uuid;

/// Returns the identifier of a vendor: the UUID of version 5 of its domain name in the namespace of
/// domain names (RFC 9562, section 5.5; RFC 9124, "Vendor ID Condition"). Does not allocate.
pub fn vendor_id(domain: &str) -> Uuid
    ensures { result ≡ uuid_of namespace_dns domain.now }
{
    Uuid::new_v5(&Uuid::NAMESPACE_DNS, domain.as_bytes())
}

/// Returns the identifier of a class of devices: the UUID of version 5 of its name. The vendor's
/// identifier is the namespace (RFC 9562, section 5.5; RFC 9124, "Class ID Condition"). Does not
/// allocate.
pub fn class_id(vendor: Uuid, name: &str) -> Uuid
    ensures { result ≡ uuid_of vendor name.now }
{
    Uuid::new_v5(&vendor, name.as_bytes())
}
