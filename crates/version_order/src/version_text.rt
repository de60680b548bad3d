//! Reads and prints the text of a version.

ghost use Rattle.std.specs.Prelude.{◌≡◌, IfOk, OnErr, Some};
ghost use Rattle.std.specs.Result.{result_ok};
ghost use Rattle.version_order.specs.VersionText.{IsVersionText, version_of, version_text};
ghost use Rattle.version_order.specs.declared.version.Version.{Version};

use crate::error::BadVersion;
use crate::version::Version;
use common::ascii::{cut, number, number_u8, number_u16};
use std::fmt;

/// Reads the version of a text from left to right.
#[tactic(auto, unfolding(crate::specs::VersionText::version_of))]
fn read(text: &[u8]) -> Option<Version>
    ensures { result ≡ version_of text.now }
{
    let mut version = Version::default();
    let (major, rest) = cut(text, b'.');
    version.major = number_u8(major)?;
    let Some(rest) = rest else {
        return Some(version);
    };
    let (minor, rest) = cut(rest, b'.');
    version.minor = number_u8(minor)?;
    let Some(rest) = rest else {
        return Some(version);
    };
    let (revision, build) = cut(rest, b'+');
    version.revision = number_u16(revision)?;
    if let Some(build) = build {
        version.build = number(build)?;
    }
    Some(version)
}

impl Version {
    /// Reads a version from ASCII text: `major.minor.revision+build`. Each part is decimal, without
    /// leading zeros and within its field (the form that MCUboot's `imgtool` takes).
    ///
    /// Parts may be left out from the right, with the separator before them. They are then 0: `1.2`
    /// is `1.2.0+0`.
    ///
    /// # Errors
    /// [`BadVersion`] for any other text, including spaces and the empty text.
    #[tactic(auto, using(crate::proofs::Readings::readings))]
    pub fn from_ascii(text: &[u8]) -> Result<Version, BadVersion>
        ensures value { result_ok result ≡ version_of text.now }
        ensures spelled { IfOk result (λ version. IsVersionText text.now version) }
        ensures only { (version : Version) → IsVersionText text.now version → result ≡ Ok version }
        ensures refused { OnErr result ((version : Version) → IsVersionText text.now version → ⊥) }
    {
        read(text).ok_or(BadVersion)
    }

    /// Reads a version from text, as [`Version::from_ascii`] does.
    ///
    /// # Errors
    /// [`BadVersion`], for the same texts.
    ///
    /// # Examples
    ///
    /// ```text
    /// let running = Version::parse("1.9.2+7")?;
    /// let requested = Version::parse("1.10")?;
    /// assert!(rt; requested > running);
    /// assert!(rt; requested.to_string(rt.alloc())?.as_str() == "1.10.0+0");
    /// ```
    pub fn parse(text: &str) -> Result<Version, BadVersion>
        ensures value { result_ok result ≡ version_of text.now }
        ensures spelled { IfOk result (λ version. IsVersionText text.now version) }
        ensures only { (version : Version) → IsVersionText text.now version → result ≡ Ok version }
        ensures refused { OnErr result ((version : Version) → IsVersionText text.now version → ⊥) }
    {
        Version::from_ascii(text.as_bytes())
    }
}

impl fmt::Display for Version {
    ghost output = { λ version. Some (version_text version) };

    fn fmt<W: fmt::Write>(&self, f: &mut fmt::Formatter<W>) -> fmt::Result {
        write!(
            f,
            "{}.{}.{}+{}",
            self.major, self.minor, self.revision, self.build
        )
    }
}
