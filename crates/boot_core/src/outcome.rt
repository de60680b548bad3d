//! What a boot did, apart from the table and the report in the places of its caller.

use machine::Fault;

/// The reply of a boot, whose table and report stand in places of its caller.
#[derive(Clone, Copy)]
pub enum Outcome {
    /// The device booted by the decision in the places.
    Booted {
        /// Whether some request is taken and all taken images stay without a trial.
        permanent: bool,
    },
    /// The device booted, and the old images of this set run again.
    Reverted(u8),
    /// The device booted, and the set on trial is tried again.
    TrialAgain {
        /// The set: bit i is set for image i.
        set: u8,
        /// The number of boots after this one that the trial still has.
        left: u8,
    },
    /// The boot is refused.
    Refused(Fault),
}
