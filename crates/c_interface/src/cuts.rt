//! The writes of a call that are to be cut.

ghost use Rattle.std.specs.Prelude.{◌≤◌, length};
ghost use Rattle.c_interface.specs.Cuts.{AreCutsOf, IsCutOf};

use slice_flash::{ArmedCut, Left};

/// The largest number of cuts that a call takes.
pub const MOST_CUTS: usize = 16;

/// A write that is to be cut, and the bytes that it leaves in its range.
#[repr(C)]
#[derive(Clone, Copy)]
pub struct CutRow {
    /// The number of the write in the call, counted from 1. A write is a program or an erase.
    pub write: u64,
    /// What it leaves: 0 the old bytes, 1 the new bytes, any other number the pattern.
    pub residue: u32,
    /// The length of the pattern in bytes, 0 to 8. An empty pattern leaves the old bytes. A longer
    /// one counts as 8.
    pub pattern_length: u32,
    /// The pattern, which is repeated over the range from its first byte on.
    pub pattern: [u8; 8],
}

/// The cut of a row, as the flash takes it.
fn cut_of(row: &CutRow) -> ArmedCut<'_>
    ensures { IsCutOf row.now result }
{
    let length = (row.pattern_length as usize).min(8);
    let left = match row.residue {
        0 => Left::Keep,
        1 => Left::Done,
        _ => Left::Bytes(&row.pattern[..length]),
    };
    ArmedCut {
        write: row.write,
        left,
    }
}

/// The cuts of rows, as the flash takes them. Unused entries cut write 0, which never happens.
pub(crate) fn table_of(rows: &[CutRow]) -> [ArmedCut<'_>; MOST_CUTS]
    requires { length rows.now ≤ MOST_CUTS }
    ensures { AreCutsOf rows.now result }
{
    let mut table = [ArmedCut {
        write: 0,
        left: Left::Keep,
    }; MOST_CUTS];
    for i in 0..rows.len() {
        table[i] = cut_of(&rows[i]);
    }
    table
}
