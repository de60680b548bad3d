//! Writes a header.

ghost use Rattle.std.specs.Prelude.{◌≡◌, ◌≤◌, ◌++◌, drop, length};
ghost use Rattle.byteorder.specs.Endian.{little_bytes};
ghost use Rattle.image_header.specs.Header.{header_bytes, version_bytes};

use crate::header::{HEADER_LENGTH, Header, MAGIC};
use byteorder::{ByteOrder, LittleEndian};
use version_order::Version;

/// Writes a number of one byte, as [`ByteOrder::write_u16`] writes one of two bytes.
fn write_u8(buffer: &mut [u8], n: u8)
    requires { 1 ≤ length buffer.old }
    ensures { buffer.new ≡ little_bytes 1 n ++ drop 1 buffer.old }
{
    buffer[0] = n;
}

/// Returns the 8 bytes of a version (MCUboot: `struct image_version`).
fn version_bytes(version: Version) -> [u8; 8]
    ensures { result ≡ version_bytes version }
{
    let mut bytes = [0; 8];
    write_u8(&mut bytes[0..1], version.major);
    write_u8(&mut bytes[1..2], version.minor);
    LittleEndian::write_u16(&mut bytes[2..4], version.revision);
    LittleEndian::write_u32(&mut bytes[4..8], version.build);
    bytes
}

impl Header {
    /// Returns the 32 bytes of a header: the magic number, and the fields in their order. It also
    /// writes headers that [`Header::read`] refuses.
    pub fn write(&self) -> [u8; 32]
        ensures { result ≡ header_bytes self.now }
    {
        let mut bytes = [0; HEADER_LENGTH];
        LittleEndian::write_u32(&mut bytes[0..4], MAGIC);
        LittleEndian::write_u32(&mut bytes[4..8], self.load_address);
        LittleEndian::write_u16(&mut bytes[8..10], self.header_size);
        LittleEndian::write_u16(&mut bytes[10..12], self.protected_size);
        LittleEndian::write_u32(&mut bytes[12..16], self.body_size);
        LittleEndian::write_u32(&mut bytes[16..20], self.flags);
        bytes[20..28].copy_from_slice(&version_bytes(self.version));
        LittleEndian::write_u32(&mut bytes[28..32], self.pad);
        bytes
    }
}
