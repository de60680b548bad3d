//! The writes that are to be interrupted, and what each leaves.

ghost use Rattle.std.specs.Prelude.{◌≡◌, ◌==◌, ◌+◌, ◌≤◌, length, option_copied};
ghost use Rattle.flash_model.specs.Torn.{torn_for};

/// What an interrupted write leaves in its range.
#[derive(Debug, Drop, PartialEq, Eq)]
pub enum Torn {
    /// The old bytes.
    Keep,
    /// The new bytes: all that the write was to leave.
    Done,
    /// This pattern, repeated over the range from its first byte on. An empty pattern leaves the
    /// old bytes, as `Keep` does.
    Bytes(Vec<u8>),
    /// The first half of the new bytes, followed by the old bytes. Half of an odd number is rounded
    /// down.
    Half,
}

/// A write that is to be interrupted.
#[derive(Debug, Drop, PartialEq, Eq)]
pub struct Armed {
    /// The number of the write, counted from 1 since the flash was made.
    pub at: u64,
    /// What the write leaves in its range.
    pub torn: Torn,
}

/// Returns what write `number` leaves if it is armed. If several entries have this number, the
/// first one counts.
pub(crate) fn torn_for(armed: &[Armed], number: u64) -> Option<&Torn>
    ensures { option_copied result ≡ torn_for number armed.now }
{
    armed
        .iter()
        .find(|write| write.at == number)
        .map(|write| &write.torn)
}
