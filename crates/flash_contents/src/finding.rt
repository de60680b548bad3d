//! Results of reading a flash, from which a boot continues.

use reports::{Report, Table};

/// What a boot reads of the images of a device.
#[derive(Drop)]
pub enum Reading {
    /// The table of running and requested images.
    Read(Table),
    /// The number of the lowest image whose running bytes aren't an intact image.
    DamagedAt(u8),
}

/// What a boot finds before it decides.
#[derive(Drop)]
pub enum Finding {
    /// The running set is valid.
    Decided {
        /// The table that was read.
        table: Table,
        /// The result for each request.
        report: Report,
    },
    /// The number of the lowest image whose running bytes aren't an intact image.
    Damaged(u8),
    /// The running set isn't valid.
    Invalid,
}

/// How a boot continues a trial.
#[derive(Clone, Copy)]
pub enum Passage {
    /// Each image of the set is confirmed: the trial is over.
    Over,
    /// The old images are restored.
    Back,
    /// The set is tried again.
    Again,
    /// The set can't revert, since an old image isn't intact: it stays on trial, without a boot left.
    Stays,
    /// Nor can it run: this is the lowest running image that isn't intact.
    Refused(u8),
}
