//! The version of an image, and the order of versions.

ghost use Rattle.std.proofs.Common.{rules};
ghost use Rattle.std.specs.Cmp.{partial_order_from_own_ties};
ghost use Rattle.std.specs.Cmp.Rules.{comparing};
ghost use Rattle.std.specs.Ordering.{as_partial_cmp};
ghost use Rattle.version_order.specs.Order.{version_cmp};

use std::cmp::Ordering;

/// The version of an image, `major.minor.revision+build` (`struct image_version` of MCUboot's image
/// header: MCUboot design document, "Image format").
///
/// These four numbers order versions, in this order. MCUboot's dependency check ignores the build
/// number unless `MCUBOOT_VERSION_CMP_USE_BUILD_NUMBER` is set. Here it always counts.
#[derive(Clone, Copy, Debug, Default, PartialEq, Eq, Hash)]
pub struct Version {
    /// The major version, 0 to 255 (`iv_major`).
    pub major: u8,
    /// The minor version, 0 to 255 (`iv_minor`).
    pub minor: u8,
    /// The revision, 0 to 65535 (`iv_revision`).
    pub revision: u16,
    /// The build number, 0 to 4294967295 (`iv_build_num`).
    pub build: u32,
}

impl Ord for Version {
    ghost cmp = { version_cmp };

    ghost total = { Prim.search (comparing, rules) };

    ghost matches_partial_cmp = { Prim.search (comparing, rules) };

    ghost matches_eq = { Prim.search (comparing, rules) };

    fn cmp(&self, other: &Version) -> Ordering {
        self.major
            .cmp(&other.major)
            .then(self.minor.cmp(&other.minor))
            .then(self.revision.cmp(&other.revision))
            .then(self.build.cmp(&other.build))
    }
}

impl PartialOrd for Version {
    ghost partial_cmp = { as_partial_cmp version_cmp };

    ghost laws = { partial_order_from_own_ties
        (Prim.search (comparing, rules) depth 12)
        (Prim.search (comparing, rules) depth 12) };

    fn partial_cmp(&self, other: &Version) -> Option<Ordering> {
        Some(self.cmp(other))
    }
}
