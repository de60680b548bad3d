//! Which runs of a sweep belong to a part of it.

use command_line::SweepPart;

/// All runs, in one part.
pub(crate) const WHOLE: SweepPart = SweepPart {
    number: 1,
    parts: 1,
};

/// Whether the runs that begin with the first cut of this index belong to a part. Indexes are
/// counted from 0. Each first cut belongs to exactly one part.
pub(crate) fn has_cut(part: SweepPart, index: u64) -> bool {
    index % u64::from(part.parts.max(1)) == u64::from(part.number.saturating_sub(1))
}

/// The number of first cuts of a part, of this number in all.
pub(crate) fn share_of(part: SweepPart, firsts: u64) -> u64 {
    let parts = u64::from(part.parts.max(1));
    let before = u64::from(part.number.saturating_sub(1));
    firsts.saturating_sub(before).div_ceil(parts)
}

/// Whether the run without a power cut is counted in a part.
pub(crate) fn has_uncut(part: SweepPart) -> bool {
    part.number <= 1
}
