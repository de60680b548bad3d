//! The counts of the work of choices.

ghost use Rattle.std.specs.Prelude.{◌≡◌};
ghost use Rattle.common.specs.Limits as limit;

/// The most looks of one choice, each at a single request. After each drop the choice looks at the
/// requests that remain: at most 7, then 6, and so on.
pub const MOST_LOOKS: u32 = 28;

/// The work that choices have done. Each choice adds to it.
#[derive(Clone, Copy, Debug, Default, PartialEq, Eq)]
pub struct Steps {
    /// The number of passes over the dependencies and groups of all remaining requests.
    pub passes: u32,
    /// The number of requests that were dropped because something that they need is out of reach.
    pub drops: u32,
    /// The number of looks at a single request after a drop.
    pub looks: u32,
}

/// States that `MOST_LOOKS` is the limit that contracts name.
///
/// The function does nothing: its contract is the law.
pub fn most_looks_are_as_specified()
    ensures { MOST_LOOKS ≡ limit.MOST_LOOKS }
{}
