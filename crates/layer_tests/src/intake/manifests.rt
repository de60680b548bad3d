//! A test of a manifest for a device with more images than a device file can have.

use manifest::{Identity, Manifest};
use std::test::Fail;
use uuid::Uuid;

/// The text of a manifest with one file of three bytes, for image 254.
const LAST: &str = "{\"manifest-version\":1,\"sequence-number\":1,\
    \"vendor-id\":\"886313e1-3b8a-5372-9b90-0c9aee199e5d\",\
    \"class-id\":\"11111111-2222-5333-8444-555555555555\",\"components\":[\
    {\"component-id\":254,\"kind\":\"test\",\"payload-digest\":\
    \"ba7816bf8f01cfea414140de5dae2223b00361a396177a9cb410ff61f20015ad\",\"size\":3}]}";

#[test]
fn a_manifest_may_name_the_last_of_255_images(rt: HostRuntime) -> Result<(), Fail> {
    let device = Identity {
        vendor: Uuid::parse_str("886313e1-3b8a-5372-9b90-0c9aee199e5d")?,
        class: Uuid::parse_str("11111111-2222-5333-8444-555555555555")?,
        images: 255,
    };
    let manifest = Manifest::read(rt.alloc(), LAST.as_bytes(), &device)?;
    assert!(rt; manifest.components.len() == 1 && manifest.components[0].image == 254);
    Ok(())
}
