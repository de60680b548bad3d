//! Offsets and lengths, in bytes, of a place of the log: a record followed by its gate. Contracts
//! cite the numbers in `specs/Layout.antt`, so a change of this file alone isn't proved.

/// The length of a place: a record and its gate.
pub(crate) const PLACE: u32 = 64;

/// The length of a record, without its gate.
pub(crate) const RECORD: usize = 56;

/// The offset of the gate in its place: right after the record.
pub(crate) const GATE: u32 = 56;
