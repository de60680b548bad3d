//! Laws about versions, for the crates above.

ghost use Rattle.version_order.specs.VersionText.{FitsFields, IsVersionText, version_text};
ghost use Rattle.version_order.specs.declared.version.Version.{Version};

/// The printed text of a version is read back as that version.
///
/// The function does nothing: its contract is the law.
pub fn version_texts_are_read_back()
    ensures { (version : Version) → FitsFields version
        → IsVersionText (version_text version) version }
{}
