//! Replies of a device to events.

use crate::error::Fault;
use reports::{Report, Table};

/// A device's reply to an event.
#[derive(Drop, PartialEq, Eq)]
pub enum Reply {
    /// The event is done.
    Done,
    /// The device booted, and decided what runs.
    Booted {
        /// The running images, the requests and the floors, before anything was taken.
        table: Table,
        /// The result for each request.
        report: Report,
        /// Whether some request is taken and all taken images stay without a trial.
        permanent: bool,
    },
    /// The device booted, and the old images of this set run again. Bit i is set for image i.
    Reverted(u8),
    /// The device booted, and the set on trial is tried again.
    TrialAgain {
        /// The set: bit i is set for image i.
        set: u8,
        /// The number of boots after this one that the trial still has, 0 to 5.
        left: u8,
    },
    /// The event is refused.
    Refused(Fault),
    /// Power failed during the event.
    Cut,
}
