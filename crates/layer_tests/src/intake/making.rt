//! Tests of images that no command makes: with a group of no alternatives, and in little memory.

use crate::intake::samples::{dependency, spec};
use common::limits::MOST_DEPENDENCIES;
use linked_list_allocator::LocalHeap;
use std::test::Fail;
use tlv::{ImageSpec, MakeError, describe, make_image};
use version_order::Version;

/// The length of a header in bytes, and the refusal of an image with it that has an empty group.
const REFUSALS: [(u16, MakeError); 2] = [
    (32, MakeError::BadGroups),
    (31, MakeError::BadHeaderSize),
];

#[test]
fn a_group_without_alternatives_is_refused_behind_the_header(rt: HostRuntime) {
    let one = [dependency()];
    for (header_size, error) in REFUSALS {
        let asked = ImageSpec {
            header_size,
            groups: &[&one, &[]],
            ..spec(&[])
        };
        assert!(rt; make_image(rt.alloc(), &asked).err() == Some(error));
    }
}

// The contract can't exclude a function that needs more memory than the image, or that fails above
// some size, because memory may run out at any time. So this makes an image of every limit in a
// heap that is little larger than the image. Tests of the program check its bytes.
#[test]
fn an_image_of_every_limit_is_made_in_room_for_one(rt: HostRuntime) -> Result<(), Fail> {
    let body = vec![in rt.alloc(); 0x5a; 3_000_000]?;
    let asked = ImageSpec {
        load_address: 0x1234_5678,
        header_size: 65535,
        flags: 0x111,
        version: Version {
            major: 255,
            minor: 254,
            revision: 65533,
            build: 4294967292,
        },
        counter: Some(4294967295),
        dependencies: &[dependency(); MOST_DEPENDENCIES],
        groups: &[],
        body: body.as_slice(),
    };
    let heap = LocalHeap::new(rt.alloc(), 3_065_843 + 4096)?;
    let bytes = make_image(&heap, &asked)?;
    let description = describe(bytes.as_slice())?;
    assert!(rt; description.length == 3_065_843 && description.flags == 0x111);
    Ok(())
}
