//! A group: several dependencies of which an image requires one.

ghost use Rattle.std.specs.Prelude.{◌≡◌};

use crate::dependency::Dependency;
use arrayvec::ArrayVec;
use common::limits::MOST_ALTERNATIVES;

/// A group of an image: at least one of several dependencies must be met.
///
/// In an image it is an entry of type 0xA0 (bootswap's own, in the range that MCUboot's design
/// document, "Image format", leaves to vendors).
#[derive(Clone, Debug, Default, Drop, PartialEq, Eq)]
pub struct Group {
    /// The alternatives, in the order of the entry: one to four in a group that was read. A group
    /// without alternatives is never met.
    pub alternatives: ArrayVec<Dependency, MOST_ALTERNATIVES>,
}

impl Group {
    /// Returns a copy of the group. Unlike `clone` it can't fail, since it allocates nothing.
    pub fn copied(&self) -> Group
        ensures { result ≡ self.now }
    {
        match self.clone() {
            Ok(group) => group,
            Err(_) => unreachable!(),
        }
    }
}
