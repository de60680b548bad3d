//! Examples of headers, images and manifests.

use crate::device::devices::PAIR;
use crate::images::{FIRST, FIRST_DIGEST};
use image_header::Header;
use image_reading::describe;
use manifest::{Identity, Manifest, class_id, vendor_id};
use std::test::Fail;
use tlv::{ImageSpec, make_image};
use version_order::Version;

#[test]
fn a_header_is_read_back(rt: HostRuntime) -> Result<(), Fail> {
    // example: image_header::Header::read
    let header = Header {
        header_size: 32,
        body_size: 4,
        version: Version::parse("1.2")?,
        ..Header::default()
    };
    let bytes = header.write();
    assert!(rt; bytes[..4] == [0x3d, 0xb8, 0xf3, 0x96]);
    assert!(rt; Header::read(&bytes) == Ok(header));
    // end of example
    Ok(())
}

#[test]
fn an_image_is_described(rt: HostRuntime) -> Result<(), Fail> {
    // example: image_reading::describe
    // `FIRST` is a file of 96 bytes: version 2.0.0+0, which needs image 1 at 2.0.0+0.
    let description = describe(&FIRST)?;
    assert!(rt; description.version.major == 2 && description.length == 96);
    assert!(rt; description.dependencies.len() == 1 && description.dependencies[0].image == 1);
    // end of example
    Ok(())
}

#[test]
fn an_image_is_made(rt: HostRuntime) -> Result<(), Fail> {
    // example: tlv::make_image
    let spec = ImageSpec {
        load_address: 0,
        header_size: 32,
        flags: 0,
        version: Version::parse("1.2.0")?,
        counter: Some(7),
        dependencies: &[],
        groups: &[],
        body: b"ABCD",
    };
    let image = make_image(rt.alloc(), &spec)?;
    let description = describe(image.as_slice())?;
    assert!(rt; description.version == spec.version && description.counter == 7);
    // end of example
    Ok(())
}

#[test]
fn a_manifest_is_read(rt: HostRuntime) -> Result<(), Fail> {
    // example: manifest::Manifest::read
    // `PAIR` is the text of a manifest with sequence number 1 and two files of 96 bytes.
    let vendor = vendor_id("python.org");
    let device = Identity {
        vendor,
        class: class_id(vendor, "bootswap"),
        images: 2,
    };
    let manifest = Manifest::read(rt.alloc(), PAIR, &device)?;
    assert!(rt; manifest.sequence == 1 && manifest.components.len() == 2);
    assert!(rt; manifest.components[0].size == 96);
    // end of example
    assert!(rt; manifest.components[0].digest == FIRST_DIGEST);
    Ok(())
}
