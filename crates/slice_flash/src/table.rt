//! The table of the writes that are to be interrupted, and what each leaves in its range.

ghost use Rattle.std.specs.Prelude.{◌≡◌, ◌<◌, ℕ, slice_index};
ghost use Rattle.flash_model.specs.Torn.{with_pattern};
ghost use Rattle.slice_flash.specs.Rows.{left_after, left_for, torn_bytes};

use flash_model::repeat;

/// What an interrupted write leaves in its range.
#[derive(Clone, Copy, Debug, PartialEq, Eq)]
pub enum Left<'a> {
    /// The old bytes.
    Keep,
    /// The new bytes.
    Done,
    /// This pattern, repeated over the range from its first byte on. An empty pattern leaves the
    /// old bytes, as `Keep` does.
    Bytes(&'a [u8]),
}

/// A write that is to be interrupted.
#[derive(Clone, Copy, Debug, PartialEq, Eq)]
pub struct ArmedCut<'a> {
    /// The number of the write, counted from 1 since the flash was made.
    pub write: u64,
    /// What the write leaves in its range.
    pub left: Left<'a>,
}

/// Returns what write `number` leaves if it is to be interrupted. The first row for it counts.
fn left_for<'a>(table: &[ArmedCut<'a>], number: u64) -> Option<Left<'a>>
    ensures { result ≡ left_for number table.now }
{
    table
        .iter()
        .find(|cut| cut.write == number)
        .map(|cut| cut.left)
}

/// Returns what the write after `writes` writes leaves if it is to be interrupted.
pub(crate) fn left_after<'a>(table: &[ArmedCut<'a>], writes: u64) -> Option<Left<'a>>
    ensures { result ≡ left_after writes table.now }
{
    if writes == u64::MAX {
        return None;
    }
    left_for(table, writes + 1)
}

/// Leaves in `range` what an interrupted write of a repeated pattern leaves.
pub(crate) fn tear(range: &mut [u8], pattern: &[u8], left: Left<'_>)
    ensures bytes { range.new
        ≡ torn_bytes left.entry range.old (with_pattern pattern.now range.old) }
    ensures are_bytes { (k : ℕ) → slice_index range.new k < 256 }
{
    match left {
        Left::Keep => {}
        Left::Done => repeat(range, pattern),
        Left::Bytes(torn) => repeat(range, torn),
    }
}
