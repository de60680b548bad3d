//! Reads a header.

ghost use Rattle.std.specs.Prelude.{◌≡◌, ◌≤◌, Err, IfErr, IfOk, Ok, length};
ghost use Rattle.byteorder.specs.Endian.{little_number};
ghost use Rattle.image_header.specs.Header.{BeginsWith, IsAccepted, IsHeaderFault, header_magic};
ghost use Rattle.image_header.specs.declared.header.Header.{Header};
ghost use Rattle.image_header.specs.declared.error.HeaderError.{HeaderError};

use crate::error::HeaderError;
use crate::header::{ACCEPTED_FLAGS, HEADER_LENGTH, Header, MAGIC};
use byteorder::{ByteOrder, LittleEndian};
use version_order::Version;

/// Reads the fields of the header in the first 32 bytes. It doesn't check the magic number before
/// them.
fn fields(bytes: &[u8]) -> Header
    requires { 32 ≤ length bytes.now }
    ensures { little_number 4 bytes.now ≡ header_magic → BeginsWith bytes.now result }
{
    Header {
        load_address: LittleEndian::read_u32(&bytes[4..8]),
        header_size: LittleEndian::read_u16(&bytes[8..10]),
        protected_size: LittleEndian::read_u16(&bytes[10..12]),
        body_size: LittleEndian::read_u32(&bytes[12..16]),
        flags: LittleEndian::read_u32(&bytes[16..20]),
        version: Version {
            major: bytes[20],
            minor: bytes[21],
            revision: LittleEndian::read_u16(&bytes[22..24]),
            build: LittleEndian::read_u32(&bytes[24..28]),
        },
        pad: LittleEndian::read_u32(&bytes[28..32]),
    }
}

impl Header {
    /// Reads the header at the beginning of the bytes. It ignores the bytes after the first 32.
    ///
    /// # Errors
    /// The checks are made in the order of [`HeaderError`]'s kinds. The error is the first check
    /// that fails.
    ///
    /// # Examples
    ///
    /// ```text
    /// let header = Header {
    ///     header_size: 32,
    ///     body_size: 4,
    ///     version: Version::parse("1.2")?,
    ///     ..Header::default()
    /// };
    /// let bytes = header.write();
    /// assert!(rt; bytes[..4] == [0x3d, 0xb8, 0xf3, 0x96]);
    /// assert!(rt; Header::read(&bytes) == Ok(header));
    /// ```
    pub fn read(bytes: &[u8]) -> Result<Header, HeaderError>
        // A header that is read is accepted, and the bytes begin with it.
        ensures read { IfOk result (λ header. BeginsWith bytes.now header × IsAccepted header) }
        // Each accepted header is read.
        ensures only { (header : Header) → BeginsWith bytes.now header → IsAccepted header
            → result ≡ Ok header }
        // The error is the first check that fails.
        ensures fault { IfErr result (IsHeaderFault bytes.now) }
        // The first check that fails is the error.
        ensures refused { (fault : HeaderError) → IsHeaderFault bytes.now fault
            → result ≡ Err fault }
    {
        if bytes.len() < HEADER_LENGTH {
            return Err(HeaderError::Short);
        }
        if LittleEndian::read_u32(bytes) != MAGIC {
            return Err(HeaderError::BadMagic);
        }
        let header = fields(bytes);
        if usize::from(header.header_size) < HEADER_LENGTH {
            return Err(HeaderError::BadHeaderSize);
        }
        if header.flags | ACCEPTED_FLAGS != ACCEPTED_FLAGS {
            return Err(HeaderError::UnsupportedFlags);
        }
        Ok(header)
    }
}
