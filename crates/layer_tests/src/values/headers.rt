//! Tests of an image's header: each field, also those that no command prints.

use image_header::Header;
use version_order::Version;

/// A header in which no two bytes are equal, except in the flags.
const BYTES: [u8; 32] = [
    0x3d, 0xb8, 0xf3, 0x96, 0x02, 0x03, 0x04, 0x05, 0x06, 0x07, 0x08, 0x09, 0x0a, 0x0b, 0x0c, 0x0d,
    0x10, 0x01, 0, 0, 0x12, 0x13, 0x14, 0x15, 0x16, 0x17, 0x18, 0x19, 0x1a, 0x1b, 0x1c, 0x1d,
];

/// The header with these bytes.
const FULL: Header = Header {
    load_address: 0x05040302,
    header_size: 0x0706,
    protected_size: 0x0908,
    body_size: 0x0d0c0b0a,
    flags: 0x0110,
    version: Version {
        major: 0x12,
        minor: 0x13,
        revision: 0x1514,
        build: 0x19181716,
    },
    pad: 0x1d1c1b1a,
};

#[test]
fn a_header_is_read_and_written(rt: HostRuntime) {
    assert!(rt; Header::read(&BYTES) == Ok(FULL));
    assert!(rt; FULL.write() == BYTES);
}
