//! Images for tests, and their parts.

use std::alloc::Global;
use std::test::Fail;
use tlv::{ImageSpec, make_image};
use version_order::{Dependency, Version};

/// The version with this major number and 0 in all other parts.
pub(super) fn version(major: u8) -> Version {
    Version {
        major,
        minor: 0,
        revision: 0,
        build: 0,
    }
}

/// A dependency on image 1 with at least version 2.0.0+0.
pub(super) fn dependency() -> Dependency {
    Dependency {
        image: 1,
        minimum: version(2),
    }
}

/// The values of an image of version 1.0.0+0, with the body ABCD and these dependencies.
pub(super) fn spec(dependencies: &[Dependency]) -> ImageSpec<'_> {
    ImageSpec {
        load_address: 0,
        header_size: 32,
        flags: 0,
        version: version(1),
        counter: None,
        dependencies,
        groups: &[],
        body: b"ABCD",
    }
}

/// An image of version 1.0.0+0 whose body is `count` letters A.
pub(super) fn letters(alloc: Global, count: usize) -> Result<Vec<u8>, Fail> {
    let body = vec![in alloc; 0x41; count]?;
    let asked = ImageSpec {
        body: body.as_slice(),
        ..spec(&[])
    };
    Ok(make_image(alloc, &asked)?)
}
